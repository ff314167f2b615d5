ghost use Rattle.std.specs.Prelude.{◌≡◌, ℕ, ◌+◌, ◌<◌, ◌≤◌, false, MatchOption};
ghost use Rattle.lattice.specs.Order.{at};
ghost use Rattle.trace.specs.Events.{total, does, nth};
ghost use Rattle.cuts.specs.Cuts.{beyond};
ghost use Rattle.cuts.specs.Channels.{Level, levels, lifted_to, Reaches};
ghost use Rattle.cuts.specs.Sides.{asks, tallied, sent_from};
ghost use Rattle.cuts.specs.Jobs.{processes, happened, channels_reply, ChannelsSays};

use crate::channel::{Channel, Side, Way};
use crate::job::TraceJob;
use crate::job::lift::lift_to;
use lattice::condition::Reply;
use lattice::vector::Vector;
use std::cmp::Ordering;
use trace::event::Action;

impl TraceJob {
    // The side is an argument: of a struct that borrows the trace beside it, what a closure that captures it returns was not proved.

    // Whether the event of the side's process with this number is on the side.
    fn is_on(&self, side: Side, number: u32) -> bool
        ensures { result ≡ asks (happened self.now) side (does (happened self.now) (nth (happened self.now) side.place number)) }
    {
        self.nth_event(side.place, number)
            .is_some_and(|event| self.deals(side, event.action))
    }

    // Whether an action sends to the other process, or receives from it.
    fn deals(&self, side: Side, action: Action) -> bool
        ensures { result ≡ asks (happened self.now) side action }
    {
        match (side.way, action) {
            (Way::To, Action::Send { to, .. }) => to == side.other,
            (Way::From, Action::Receive { message }) => self.is_from(message, side.other),
            _ => false,
        }
    }

    // Whether a process sent the message.
    fn is_from(&self, message: u16, process: u8) -> bool
        ensures { result ≡ sent_from (happened self.now) message process }
    {
        self.trace
            .sender(message)
            .and_then(|place| self.trace.event(place))
            .is_some_and(|event| event.process == process)
    }

    // How many of the first events of the side's process are on the side.
    fn tally(&self, side: Side, height: u32) -> u32
        ensures { result ≡ tallied (happened self.now) side height }
    {
        (0..height)
            .map(|before| before + 1)
            .filter(|number| self.is_on(side, *number))
            .count() as u32
    }

    // The least height at which so many more events are on the side than at this one.
    fn reach(&self, side: Side, from: u32, missing: u32) -> Option<u32>
        requires { 0 < missing }
        ensures { MatchOption result
            ((k : ℕ) → k ≤ total (happened self.now) side.place → tallied (happened self.now) side k < tallied (happened self.now) side from + missing)
            (λ q. Reaches (happened self.now) (tallied (happened self.now) side) side.place (tallied (happened self.now) side from + missing) q) }
    {
        (from..self.trace.total(side.place))
            .map(|before| before + 1)
            .filter(|number| self.is_on(side, *number))
            .nth(missing as usize - 1)
    }

    // The lift of the side's process from a height to where so many more events are on the side.
    fn lift(&self, side: Side, from: u32, missing: u32) -> Reply
        requires { 0 < missing }
        ensures { result ≡ lifted_to (happened self.now) (tallied (happened self.now) side) side.place from (tallied (happened self.now) side from + missing) }
    {
        lift_to(side.place, self.reach(side, from, missing))
    }

    // The reply on one channel, if its counts are unequal: the side that is behind is lifted to where it reaches the other.
    fn level(&self, channel: &Channel, v: &Vector) -> Option<Reply>
        requires sender_bound { channel.now.sender < 16 }
        requires receiver_bound { channel.now.receiver < 16 }
        ensures { MatchOption result (Level (happened self.now) channel.now (at v.now)) (λ x. (Level (happened self.now) channel.now (at v.now) → ⊥) × (x ≡ levels (happened self.now) channel.now (at v.now))) }
    {
        let sending = Side {
            place: channel.sender as usize,
            way: Way::To,
            other: channel.receiver,
        };
        let receiving = Side {
            place: channel.receiver as usize,
            way: Way::From,
            other: channel.sender,
        };
        let at_sender = v.heights()[sending.place];
        let at_receiver = v.heights()[receiving.place];
        let sent = self.tally(sending, at_sender);
        let received = self.tally(receiving, at_receiver);
        match sent.cmp(&received) {
            Ordering::Less => Some(self.lift(sending, at_sender, received - sent)),
            Ordering::Equal => None,
            Ordering::Greater => Some(self.lift(receiving, at_receiver, sent - received)),
        }
    }

    // The reply to a vector within the events: that on the first listed channel on which the counts are unequal.
    fn lift_uneven(&self, v: &Vector) -> Reply
        ensures { beyond (processes self.now) (happened self.now) (at v.now) ≡ false → result ≡ channels_reply self.now v.now }
    {
        self.channels
            .iter()
            .find_map(|channel| self.level(channel, v))
            .unwrap_or(Reply::Holds)
    }

    // The reply of the channels condition.
    pub fn reply_channels(&self, v: &Vector) -> Reply
        ensures is { result ≡ channels_reply self.now v.now }
        ensures says { ChannelsSays self.now v.now result }
    {
        self.unless_beyond(v, || self.lift_uneven(v))
    }
}
