ghost use Rattle.lattice.specs.Calls.{ToldByReplies};
ghost use Rattle.lattice.specs.Runs.{RunsAdd, OneRun, OneBoard};

use crate::condition::Condition;

// A new board, floor, ceiling and read promise for every condition, told by its replies; this says that none is lost so.
pub fn told_by_replies<C: Condition>(_condition: &C)
    ensures { ToldByReplies (C.holds _condition.now) (C.reply _condition.now) }
{}

// The laws over runs and over whole lists of calls, for all replies.
pub fn run_laws()
    ensures add { RunsAdd }
    ensures run { OneRun }
    ensures board { OneBoard }
{}
