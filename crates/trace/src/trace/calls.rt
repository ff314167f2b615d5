ghost use Rattle.std.specs.Prelude.{◌≡◌, ℕ, ◌<◌, [], length, slice_index, if◌then◌else◌, IfOk};
ghost use Rattle.trace.specs.Growth.{events, Pushed, Begun, Judged, Within, names_at, ticked, last_clock};
ghost use Rattle.trace.specs.Events.{sends};
ghost use Rattle.trace.specs.Tables.{receives, sent_at, received_at};

use crate::clock::{Clock, PROCESSES};
use crate::event::{Action, Event, EventFault};
use crate::trace::{Ends, LONGEST, MESSAGES, Trace};
use std::alloc::{AllocError, Global};
use std::array;

impl Trace {
    // A trace without processes and events. All memory that a trace can come to need is asked for here.
    pub fn new(heap: Global) -> Result<Trace, AllocError>
        ensures { IfOk result (λ t. (t.n ≡ 0) × (events t ≡ [])) }
    {
        Ok(Trace {
            n: 0,
            events: Vec::with_capacity(heap, LONGEST)?,
            clocks: Vec::with_capacity(heap, LONGEST)?,
            places: array::try_from_fn(|_| Vec::with_capacity(heap, LONGEST))?,
            messages: vec![in heap; Ends {
                sent: 0,
                received: 0
            }; MESSAGES]?,
        })
    }

    // Begins anew: so many processes, and no events.
    pub fn begin(&mut self, n: usize) -> Result<(), EventFault>
        ensures { Begun n self.old result self.new }
    {
        if n > PROCESSES {
            return Err(EventFault::Process);
        }
        self.n = n;
        self.events.clear();
        self.clocks.clear();
        for places in &mut self.places {
            places.clear();
        }
        Ok(())
    }

    // One event more, if the trace keeps its rules with it.
    pub fn push(&mut self, event: Event) -> Result<(), EventFault>
        ensures { Pushed self.old event result self.new }
    {
        let sent = self.judge(&event)?;
        let process = event.process as usize;
        let clock = self.tick(process, sent);
        let at = self.events.len() as u16;
        self.places[process].push_reserved(at);
        self.events.push_reserved(event);
        self.clocks.push_reserved(clock);
        note(&mut self.messages, event.action, at);
        Ok(())
    }

    // Whether the trace keeps its rules with the event; for a receive, the place of the event that sent its message.
    fn judge(&self, event: &Event) -> Result<Option<usize>, EventFault>
        ensures { Judged self.now event.now result }
    {
        if self.len() >= LONGEST {
            return Err(EventFault::Full);
        }
        if event.process as usize >= self.n {
            return Err(EventFault::Process);
        }
        match event.action {
            Action::Local => Ok(None),
            Action::Send { to, message } => {
                if to as usize >= self.n || to == event.process {
                    return Err(EventFault::Receiver);
                }
                if self.sender(message).is_some() {
                    return Err(EventFault::Message);
                }
                Ok(None)
            }
            Action::Receive { message } => {
                let sent = self.sender(message).ok_or(EventFault::Message)?;
                if !self.names(sent, event.process) || self.receiver(message).is_some() {
                    return Err(EventFault::Message);
                }
                Ok(Some(sent))
            }
        }
    }

    // Whether the event at a place is a send to the process.
    fn names(&self, at: usize, process: u8) -> bool
        ensures { result ≡ names_at (events self.now) at process }
    {
        self.event(at).is_some_and(
            |event| matches!(event.action, Action::Send { to, .. } if to == process),
        )
    }

    // The clock of the next event, of this process, which receives what the event at `sent` sent.
    fn tick(&self, process: usize, sent: Option<usize>) -> Clock
        requires process_lt_n { process < self.now.n }
        requires within { Within (events self.now) sent }
        ensures { result.entries ≡ ticked (events self.now) process sent }
    {
        let mut clock = self.latest(process);
        if let Some(sent) = sent {
            clock.merge(&self.clocks[sent]);
        }
        clock.entries[process] = self.total(process) + 1;
        clock
    }

    // The clock of the last event of a process, zeros if it has none.
    fn latest(&self, process: usize) -> Clock
        ensures { result.entries ≡ last_clock (events self.now) process }
    {
        self.nth(process, self.total(process))
            .map_or(Clock::zero(), |last| self.clocks[last])
    }
}

// Writes down the place of an event that sends or receives a message.
fn note(messages: &mut [Ends], action: Action, at: u16)
    requires { length messages.old ≡ 65536 }
    ensures long { length messages.new ≡ length messages.old }
    ensures sent { (m : ℕ) → slice_index (sent_at messages.new) m ≡ (if sends m action then at else slice_index (sent_at messages.old) m) }
    ensures received { (m : ℕ) → slice_index (received_at messages.new) m ≡ (if receives m action then at else slice_index (received_at messages.old) m) }
{
    match action {
        Action::Local => {}
        Action::Send { message, .. } => messages[message as usize].sent = at,
        Action::Receive { message } => messages[message as usize].received = at,
    }
}
