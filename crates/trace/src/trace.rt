ghost use Rattle.std.specs.Prelude.{◌≡◌, ◌≤◌, length, All, vec_len, vec_capacity};
ghost use Rattle.std.proofs.Props.{props};
ghost use Rattle.trace.specs.Events.{most, longest};
ghost use Rattle.trace.specs.Clocks.{mattern};
ghost use Rattle.trace.specs.Tables.{rows, listed, KeepsRules, Tabled};

use crate::clock::{Clock, PROCESSES};
use crate::event::Event;

mod calls;
mod reads;

// The most events that a trace has, and how many message numbers there are.
pub const LONGEST: usize = 1024;

pub const MESSAGES: usize = 65_536;

// The places of the events that send and receive a message, if there are such events.
#[derive(Clone, Copy)]
struct Ends {
    sent: u16,
    received: u16,
}

// What n processes did: their events in file order, with the clock of each, and tables that find an event at once:
// by its process and number, and by the message that it sends or receives.
// Events and clocks stand apart, so that a walk over events touches no clock.
#[derive(Drop)]
pub struct Trace {
    n: usize,
    events: Vec<Event>,
    clocks: Vec<Clock>,
    places: [Vec<u16>; PROCESSES],
    // No map, which would ask for memory in a push; never cleared, so that begin is cheap: what is read is tested against the event.
    messages: Vec<Ends>,
    ghost few: { n ≤ most },
    ghost room: { (longest ≤ vec_capacity events) × (longest ≤ vec_capacity clocks) × All (λ v. longest ≤ vec_capacity v) places } by { Prim.hlevel props },
    ghost sized: { (length places ≡ most) × (vec_len messages ≡ 65536) },
    ghost rules: { KeepsRules n events.items },
    ghost tables: { Tabled events.items (listed places) messages.items },
    ghost clocked: { rows clocks.items ≡ mattern events.items (length events.items) },
}
