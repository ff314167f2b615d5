ghost use Rattle.std.specs.Prelude.{◌≡◌, ◌<◌, ◌≤◌, length, MatchOption};
ghost use Rattle.trace.specs.Events.{event, total, nth};
ghost use Rattle.cuts.specs.Jobs.{happened, listed};

use crate::channel::Channel;
use crate::job::TraceJob;
use payload::wish::Wish;
use trace::event::Event;
use trace::trace::Trace;

impl TraceJob {
    pub fn wish(&self) -> Wish
        ensures { result ≡ self.now.wish }
    {
        self.wish
    }

    // The watched processes, by their bits.
    pub fn watch(&self) -> u16
        ensures { result ≡ self.now.watch }
    {
        self.watch
    }

    pub fn trace(&self) -> &Trace
        ensures { result.now ≡ self.now.trace }
    {
        &self.trace
    }

    pub fn channels(&self) -> &[Channel]
        ensures { result.now ≡ listed self.now }
    {
        &self.channels
    }

    // The event of a process with this number, counted from 1.
    pub(crate) fn nth_event(&self, process: usize, number: u32) -> Option<Event>
        ensures { MatchOption result
            (1 ≤ number → number ≤ total (happened self.now) process → ⊥)
            (λ e. (nth (happened self.now) process number < length (happened self.now)) × (e ≡ event (happened self.now) (nth (happened self.now) process number))) }
    {
        self.trace
            .nth(process, number)
            .and_then(|place| self.trace.event(place))
    }
}
