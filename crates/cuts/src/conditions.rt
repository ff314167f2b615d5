ghost use Rattle.std.specs.Prelude.{◌≡◌};
ghost use Rattle.cuts.specs.Jobs as jobs;
ghost use Rattle.trace.proofs.Known.{clock_knows};
ghost use Rattle.trace.proofs.Traces.{valid};
ghost use Rattle.cuts.specs.Closed.{consistent_lawful};
ghost use Rattle.cuts.specs.Watching.{watched_lawful};
ghost use Rattle.cuts.specs.Jobs.{processes, happened, listed};
ghost use Rattle.cuts.specs.Emptied.{channels_lawful};

use crate::job::TraceJob;
use lattice::condition::{Condition, Reply};
use lattice::lends::Lends;
use lattice::pair::Pair;
use lattice::vector::Vector;

// Three types and not one with a kind: a contract names the condition that it is about by its type. Each is over whatever
// lends a job: a reference, so that all three borrow one job, or an owner.

// All that happened before an event of the cut is in the cut.
#[derive(Clone, Copy)]
pub struct Consistent<L> {
    pub job: L,
}

impl<L: Lends<Content = TraceJob>> Condition for Consistent<L> {
    ghost holds = { λ c v. jobs.Consistent (L.Lends.lent c.job) v };

    ghost reply = { λ c v. jobs.consistent_reply (L.Lends.lent c.job) v };

    ghost lawful = { λ c.
        let t = (L.Lends.lent c.job).trace in
        consistent_lawful _ _ (valid t) t.few (clock_knows _ _ (valid t) t.few) };

    fn probe(&self, v: &Vector) -> Reply {
        self.job.lend().reply_consistent(v)
    }
}

// Each watched process is in a wanted state.
#[derive(Clone, Copy)]
pub struct Watched<L> {
    pub job: L,
}

impl<L: Lends<Content = TraceJob>> Condition for Watched<L> {
    ghost holds = { λ c v. jobs.Watched (L.Lends.lent c.job) v };

    ghost reply = { λ c v. jobs.watched_reply (L.Lends.lent c.job) v };

    ghost lawful = { λ c. watched_lawful _ _ _ _ (L.Lends.lent c.job).trace.few };

    fn probe(&self, v: &Vector) -> Reply {
        self.job.lend().reply_watched(v)
    }
}

// The listed channels are empty.
#[derive(Clone, Copy)]
pub struct Channels<L> {
    pub job: L,
}

impl<L: Lends<Content = TraceJob>> Condition for Channels<L> {
    ghost holds = { λ c v. jobs.Empty (L.Lends.lent c.job) v };

    ghost reply = { λ c v. jobs.channels_reply (L.Lends.lent c.job) v };

    ghost lawful = { λ c.
        let j = L.Lends.lent c.job in
        channels_lawful (processes j) (happened j) (listed j) j.senders j.receivers j.trace.few };

    fn probe(&self, v: &Vector) -> Reply {
        self.job.lend().reply_channels(v)
    }
}

// The condition of the whole job: consistent paired with the pair of watched and channels.
pub fn condition(
    job: &TraceJob,
) -> Pair<Consistent<&TraceJob>, Pair<Watched<&TraceJob>, Channels<&TraceJob>>>
    ensures { (result.first.job.now ≡ job.now) × (result.second.first.job.now ≡ job.now) × (result.second.second.job.now ≡ job.now) }
{
    Pair {
        first: Consistent { job },
        second: Pair {
            first: Watched { job },
            second: Channels { job },
        },
    }
}
