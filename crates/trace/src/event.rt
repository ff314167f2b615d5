ghost use Rattle.std.specs.Prelude.{◌≡◌, length};

// What an event does: nothing that others see, a send to another process, or a receive.
#[derive(Clone, Copy, PartialEq, Eq)]
pub enum Action {
    Local,
    Send { to: u8, message: u16 },
    Receive { message: u16 },
}

// An event of a process, with its payload in the first of four bytes, so that an event has one size for every kind.
#[derive(Clone, Copy)]
pub struct Event {
    pub process: u8,
    pub action: Action,
    pub payload: [u8; 4],
    ghost four: { length payload ≡ 4 },
}

// Why an event is refused: there is no room, no such process, no such receiver, or a message rule is broken.
#[derive(Clone, Copy, Debug, PartialEq, Eq)]
pub enum EventFault {
    Full,
    Process,
    Receiver,
    Message,
}
