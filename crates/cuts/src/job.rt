ghost use Rattle.std.specs.Prelude.{◌≡◌, ℕ, ◌^◌, ◌<◌, ◌≤◌, length, vec_capacity, ◌≢◌};
ghost use Rattle.cuts.specs.Channels.{channel};

use crate::channel::Channel;
use payload::wish::Wish;
use trace::trace::Trace;

mod beyond;
mod calls;
mod channels;
mod consistent;
mod laws;
mod lift;
mod reads;
mod watched;

// The most channels that are listed.
pub const LISTED: usize = 8;

// A trace with what is asked of it: the wish, the watched processes by their bits as files have them, and the listed channels,
// for which there is room from the start.
#[derive(Drop)]
pub struct TraceJob {
    trace: Trace,
    wish: Wish,
    watch: u16,
    channels: Vec<Channel>,
    ghost room: { 8 ≤ vec_capacity channels },
    ghost listed: { length channels.items ≤ 8 },
    ghost watched: { watch < 2 ^ trace.n },
    ghost senders: { (k : ℕ) → k < length channels.items → (channel channels.items k).sender < trace.n },
    ghost receivers: { (k : ℕ) → k < length channels.items → (channel channels.items k).receiver < trace.n },
    ghost apart: { (k : ℕ) → k < length channels.items → (channel channels.items k).receiver ≢ (channel channels.items k).sender },
}
