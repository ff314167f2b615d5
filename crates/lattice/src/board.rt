ghost use Rattle.std.specs.Prelude.{◌≤◌, sum};

use crate::vector::Vector;
use crate::verdict::Verdict;

mod calls;

// No search makes more lifts than this, so a run with this budget decides.
pub const DECIDING: u32 = 32_000_000;

// What a read answers.
#[derive(Clone, Copy)]
pub struct Reading {
    pub verdict: Verdict,
    pub count: u32,
    pub vector: Vector,
}

// The state of one search: the vector in hand, a ceiling for each place, the verdict, and how many lifts were made.
#[derive(Clone, Copy)]
pub struct Board {
    vector: Vector,
    ceilings: Vector,
    verdict: Verdict,
    count: u32,
    ghost counted: { count ≤ sum vector.heights },
}
