ghost use Rattle.std.specs.Prelude.{◌≡◌};
ghost use Rattle.cuts.specs.declared.fault.JobFault.TheVariants.{Event};

use trace::event::EventFault;

// Why a part of a trace job is refused.
#[derive(Clone, Copy, Debug, PartialEq, Eq)]
pub enum JobFault {
    // more than 16 processes
    Processes,
    // a watch bit at the number of processes or above
    Watch,
    // no room for another channel
    Channels,
    // no such sender
    Sender,
    // no such receiver, or the sender itself
    Receiver,
    // a payload of another width than the wish's kind
    Payload,
    // the trace refuses the event
    Event(EventFault),
}

impl From<EventFault> for JobFault {
    ghost from_gives = { λ e r. r ≡ Event e };

    fn from(fault: EventFault) -> JobFault {
        JobFault::Event(fault)
    }
}
