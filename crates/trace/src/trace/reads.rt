ghost use Rattle.std.specs.Prelude.{◌≡◌, ℕ, ◌<◌, ◌≤◌, length, false, true, MatchOption};
ghost use Rattle.trace.specs.Events.{most, total, event as event_at};
ghost use Rattle.trace.specs.Clocks.{entry, Knows};
ghost use Rattle.trace.specs.Rules.{Valid};
ghost use Rattle.trace.specs.Growth.{events, ClockAt, NthAt, SenderAt, ReceiverAt};

use crate::clock::Clock;
use crate::event::{Action, Event};
use crate::trace::Trace;

impl Trace {
    // How many processes there are.
    pub fn processes(&self) -> usize
        ensures { result ≡ self.now.n }
    {
        self.n
    }

    // How many events there are.
    pub fn len(&self) -> usize
        ensures { result ≡ length (events self.now) }
    {
        self.events.len()
    }

    // The event at a place of the file order.
    pub fn event(&self, at: usize) -> Option<Event>
        ensures { MatchOption result (length (events self.now) ≤ at) (λ e. (at < length (events self.now)) × (e ≡ event_at (events self.now) at)) }
    {
        self.events.get(at).copied()
    }

    // The vector clock of the event at a place: how many events of each process happened before it or are it.
    pub fn clock(&self, at: usize) -> Option<Clock>
        ensures { ClockAt self.now at result }
    {
        self.clocks.get(at).copied()
    }

    // How many events a process has.
    pub fn total(&self, process: usize) -> u32
        ensures { result ≡ total (events self.now) process }
    {
        self.places.get(process).map_or(0, |places| places.len()) as u32
    }

    // The place of the event of a process with this number, counted from 1.
    pub fn nth(&self, process: usize, number: u32) -> Option<usize>
        ensures { NthAt self.now process number result }
    {
        let index = (number as usize).checked_sub(1)?;
        let at = self.places.get(process)?.get(index)?;
        Some(*at as usize)
    }

    // The place of the event that sends a message.
    pub fn sender(&self, message: u16) -> Option<usize>
        ensures { SenderAt self.now message result }
    {
        self.found(
            self.messages[message as usize].sent,
            |event| matches!(event.action, Action::Send { message: sent, .. } if sent == message),
        )
    }

    // The place of the event that receives a message.
    pub fn receiver(&self, message: u16) -> Option<usize>
        ensures { ReceiverAt self.now message result }
    {
        self.found(
            self.messages[message as usize].received,
            |event| matches!(event.action, Action::Receive { message: received } if received == message),
        )
    }

    // The place that a table has, if the event there is as wanted.
    fn found<F: FnOnce(Event) -> bool>(&self, at: u16, wanted: F) -> Option<usize>
        requires { F.IsAlwaysCallable wanted }
        ensures { MatchOption result
            (at < length (events self.now) → F.post wanted (event_at (events self.now) at) false)
            (λ e. (e ≡ at) × (at < length (events self.now)) × F.post wanted (event_at (events self.now) at) true) }
    {
        let at = at as usize;
        self.event(at).is_some_and(wanted).then_some(at)
    }

    // A trace keeps its rules at all times, and the clocks count what happened before.
    pub fn rules(&self)
        ensures few { self.now.n ≤ most }
        ensures valid { Valid self.now.n (events self.now) }
        ensures clocks { (e j : ℕ) → e < length (events self.now) → j < self.now.n → Knows (events self.now) e j (entry (events self.now) e j) }
    {}
}
