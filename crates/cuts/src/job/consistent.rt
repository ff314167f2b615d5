ghost use Rattle.std.specs.Prelude.{◌≡◌, ℕ, ◌<◌, ◌≤◌, length, slice_index, MatchOption};
ghost use Rattle.lattice.specs.Order.{at};
ghost use Rattle.cuts.specs.Consistent.{greatest};
ghost use Rattle.cuts.specs.Jobs.{processes, happened, consistent_reply, ConsistentSays};

use crate::job::TraceJob;
use lattice::condition::Reply;
use lattice::vector::Vector;
use trace::clock::Clock;

impl TraceJob {
    // For each process, the greatest entry in the clocks of the last events in the cut.
    fn greatest(&self, v: &Vector) -> Clock
        ensures { (j : ℕ) → j < processes self.now → slice_index result.entries j ≡ greatest (happened self.now) (at v.now) j (length (happened self.now)) }
    {
        // Not a fold: `merge` changes one clock in place, and a fold would pass it by value at each step.
        let mut most = Clock::zero();
        let n = self.trace.processes();
        for (i, &height) in v.heights()[..n].iter().enumerate() {
            let last = self.trace.nth(i, height);
            if let Some(clock) = last.and_then(|place| self.trace.clock(place)) {
                most.merge(&clock);
            }
        }
        most
    }

    // The lowest place that is below the greatest entry for it, with that entry.
    fn behind(&self, v: &Vector) -> Option<(usize, u32)>
        ensures { MatchOption result
            ((k : ℕ) → k < processes self.now → greatest (happened self.now) (at v.now) k (length (happened self.now)) ≤ at v.now k)
            (λ p. (p.0 < processes self.now)
            × (p.1 ≡ greatest (happened self.now) (at v.now) p.0 (length (happened self.now)))
            × (at v.now p.0 < p.1)
            × ((k : ℕ) → k < p.0 → greatest (happened self.now) (at v.now) k (length (happened self.now)) ≤ at v.now k)) }
    {
        let most = self.greatest(v);
        let n = self.trace.processes();
        v.heights()[..n]
            .iter()
            .zip(&most.entries)
            .position(|(height, entry)| height < entry)
            .map(|i| (i, most.entries[i]))
    }

    // The reply of the consistent condition.
    pub fn reply_consistent(&self, v: &Vector) -> Reply
        ensures is { result ≡ consistent_reply self.now v.now }
        ensures says { ConsistentSays self.now v.now result }
    {
        self.unless_beyond(v, || self.behind(v).map_or(Reply::Holds, Reply::Lift))
    }
}
