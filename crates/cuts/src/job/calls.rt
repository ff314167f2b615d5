ghost use Rattle.std.specs.Prelude.{◌≡◌, IfOk};
ghost use Rattle.cuts.specs.Jobs.{Blank, Begun, Listed, Recorded, padded};

use crate::channel::Channel;
use crate::fault::JobFault;
use crate::job::{LISTED, TraceJob};
use payload::wish::Wish;
use std::alloc::{AllocError, Global};
use std::array;
use trace::clock::PROCESSES;
use trace::event::{Action, Event};
use trace::trace::Trace;

impl TraceJob {
    // A blank job. All memory that a job can come to need is asked for here.
    pub fn new(heap: Global) -> Result<TraceJob, AllocError>
        ensures { IfOk result (λ j. Blank j) }
    {
        Ok(TraceJob {
            trace: Trace::new(heap)?,
            wish: Wish::Code(0),
            watch: 0,
            channels: Vec::with_capacity(heap, LISTED)?,
        })
    }

    // Begins anew: so many processes, the watched ones by their bits, the wish; no channels and no events.
    pub fn begin(&mut self, n: usize, watch: u16, wish: Wish) -> Result<(), JobFault>
        ensures { Begun n watch wish self.old result self.new }
    {
        if n < PROCESSES && watch >> n != 0 {
            return Err(JobFault::Watch);
        }
        self.trace.begin(n).map_err(|_| JobFault::Processes)?;
        self.channels.clear();
        self.watch = watch;
        self.wish = wish;
        Ok(())
    }

    // Lists one channel more. Sender and receiver stand apart, as in a file, until they are judged; then they are a `Channel`.
    pub fn add_channel(&mut self, sender: u8, receiver: u8) -> Result<(), JobFault>
        ensures { Listed sender receiver self.old result self.new }
    {
        let n = self.trace.processes();
        if self.channels.len() >= LISTED {
            return Err(JobFault::Channels);
        }
        if sender as usize >= n {
            return Err(JobFault::Sender);
        }
        if receiver as usize >= n || receiver == sender {
            return Err(JobFault::Receiver);
        }
        self.channels.push_reserved(Channel { sender, receiver });
        Ok(())
    }

    // One event more, with its payload: parts of a file until the width is judged, and then an `Event`.
    pub fn push(&mut self, process: u8, action: Action, part: &[u8]) -> Result<(), JobFault>
        ensures { Recorded process action part.now self.old result self.new }
    {
        if part.len() != self.wish.width() {
            return Err(JobFault::Payload);
        }
        let payload = in_four(part);
        self.trace.push(Event {
            process,
            action,
            payload,
        })?;
        Ok(())
    }
}

// The bytes of a payload, followed by zeros.
fn in_four(part: &[u8]) -> [u8; 4]
    ensures { result ≡ padded part.now }
{
    array::from_fn(|i| part.get(i).copied().unwrap_or(0))
}
