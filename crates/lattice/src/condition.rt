ghost use Rattle.std.specs.Prelude.{◌≡◌, Some};
ghost use Rattle.lattice.specs.declared.vector.Vector.{Vector};
ghost use Rattle.lattice.specs.declared.condition.Reply.{Reply};
ghost use Rattle.lattice.specs.Laws.{Lawful};
ghost use Rattle.lattice.specs.Words.{reply_words};

use crate::vector::Vector;
use std::fmt;

// A lift names a place and its new height, which may be above what a vector can have.
#[derive(Clone, Copy, Debug, PartialEq, Eq)]
pub enum Reply {
    Holds,
    Lift((usize, u32)),
    Never,
}

impl fmt::Display for Reply {
    ghost output = { λ reply. Some (reply_words reply) };

    fn fmt<W: fmt::Write>(&self, f: &mut fmt::Formatter<W>) -> fmt::Result {
        match self {
            Reply::Holds => f.write_str("holds"),
            Reply::Lift((place, height)) => write!(f, "lift {place} {height}"),
            Reply::Never => f.write_str("never"),
        }
    }
}

// A lattice-linear predicate: the vectors on which it holds, and its reply to each vector.
pub trait Condition {
    ghost holds: { Self → Vector → Type 0 };

    ghost reply: { Self → Vector → Reply };

    fn probe(&self, v: &Vector) -> Reply
        ensures { result ≡ reply self.now v.now };

    ghost lawful: { (c : Self) → Lawful (holds c) (reply c) };
}

// A condition that is lent and not owned is the same condition.
impl<C: Condition> Condition for &C {
    ghost holds = { λ c v. C.Condition.holds c.now v };

    ghost reply = { λ c v. C.Condition.reply c.now v };

    ghost lawful = { λ c. C.Condition.lawful c.now };

    fn probe(&self, v: &Vector) -> Reply {
        (**self).probe(v)
    }
}
