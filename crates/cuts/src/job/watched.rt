ghost use Rattle.std.specs.Prelude.{◌≡◌, ℕ, ◌/◌, ◌%◌, ◌^◌, ◌<◌, Bool, false, ◌==◌, MatchOption};
ghost use Rattle.lattice.specs.Order.{at};
ghost use Rattle.cuts.specs.Cuts.{beyond};
ghost use Rattle.cuts.specs.Watched.{state_wanted, unwanted, LowestUnwanted};
ghost use Rattle.cuts.specs.Jobs.{processes, happened, watched_reply, WatchedSays, NextWanted};

use crate::job::TraceJob;
use crate::job::lift::lift_to;
use lattice::condition::Reply;
use lattice::vector::Vector;

impl TraceJob {
    // Whether a process is watched.
    fn watches(&self, process: usize) -> bool
        requires { process < 16 }
        ensures { result ≡ (self.now.watch / 2 ^ process % 2 == 1) }
    {
        (self.watch >> process) % 2 == 1
    }

    // Whether a state of a process is wanted.
    fn is_wanted(&self, process: usize, height: u32) -> bool
        ensures { result ≡ state_wanted (happened self.now) self.now.wish process height }
    {
        self.nth_event(process, height)
            .is_some_and(|event| self.wish.marks(&event.payload))
    }

    // The least wanted height of a process above this one.
    pub fn next_wanted(&self, process: usize, height: u32) -> Option<u32>
        ensures { NextWanted self.now process height result }
    {
        (height..self.trace.total(process))
            .map(|before| before + 1)
            .find(|later| self.is_wanted(process, *later))
    }

    // The lowest watched place in an unwanted state.
    fn lowest_unwanted(&self, v: &Vector) -> Option<usize>
        ensures { MatchOption result
            ((i : ℕ) → i < processes self.now → unwanted (happened self.now) self.now.wish self.now.watch (at v.now) i ≡ false)
            (λ i. LowestUnwanted (processes self.now) (happened self.now) self.now.wish self.now.watch (at v.now) i) }
    {
        let n = self.trace.processes();
        v.heights()[..n].iter().enumerate().position(|(i, &height)| self.watches(i)
            && !self.is_wanted(i, height))
    }

    // The reply to a vector within the events.
    fn lift_unwanted(&self, v: &Vector) -> Reply
        ensures { beyond (processes self.now) (happened self.now) (at v.now) ≡ false → WatchedSays self.now v.now result }
    {
        // A match: of what a closure returns that makes two calls nothing was proved.
        match self.lowest_unwanted(v) {
            Some(i) => lift_to(i, self.next_wanted(i, v.heights()[i])),
            None => Reply::Holds,
        }
    }

    // The reply of the watched condition.
    pub fn reply_watched(&self, v: &Vector) -> Reply
        ensures is { result ≡ watched_reply self.now v.now }
        ensures says { WatchedSays self.now v.now result }
    {
        self.unless_beyond(v, || self.lift_unwanted(v))
    }
}
