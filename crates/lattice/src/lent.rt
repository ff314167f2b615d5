use crate::condition::{Condition, Reply};
use crate::lends::Lends;
use crate::vector::Vector;
use std::marker::PhantomData;

// What lends a condition is the same condition; so a condition can be given by an owner, where a reference borrows it.
#[derive(Clone, Copy)]
pub struct Lent<L, C> {
    pub lender: L,
    pub of: PhantomData<C>,
}

impl<C: Condition, L: Lends<Content = C>> Condition for Lent<L, C> {
    ghost holds = { λ c v. C.Condition.holds (L.Lends.lent c.lender) v };

    ghost reply = { λ c v. C.Condition.reply (L.Lends.lent c.lender) v };

    ghost lawful = { λ c. C.Condition.lawful (L.Lends.lent c.lender) };

    fn probe(&self, v: &Vector) -> Reply {
        self.lender.lend().probe(v)
    }
}
