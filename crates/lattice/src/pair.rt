ghost use Rattle.lattice.specs.Replies.{joined};
ghost use Rattle.lattice.specs.Pairs.{pair_lawful};

use crate::condition::{Condition, Reply};
use crate::vector::Vector;

// Holds where both hold; the reply is the first's, unless that is "holds": then the second's.
#[derive(Clone, Copy)]
pub struct Pair<A, B> {
    pub first: A,
    pub second: B,
}

impl<A: Condition, B: Condition> Condition for Pair<A, B> {
    ghost holds = { λ c v. A.Condition.holds c.first v × B.Condition.holds c.second v };

    ghost reply = { λ c v. joined (A.Condition.reply c.first v) (B.Condition.reply c.second v) };

    ghost lawful = { λ c. pair_lawful (A.Condition.lawful c.first) (B.Condition.lawful c.second) };

    fn probe(&self, v: &Vector) -> Reply {
        match self.first.probe(v) {
            Reply::Holds => self.second.probe(v),
            other => other,
        }
    }
}
