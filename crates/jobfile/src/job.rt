ghost use Rattle.std.specs.Prelude.{◌≡◌, Some, ◌≢◌};
ghost use Rattle.wire.specs.declared.frame.JobKind.TheVariants as kinds;

use cuts::job::TraceJob;
use gates::gates::Gates;
use wire::frame::JobKind;

mod calls;
mod read;

// A job by its kind, and with none a blank one. The trace's memory is asked for once, so both parts are always there, beside
// the kind: the one that it does not name has n = 0, so that its conditions hold everywhere. The parts are read one by one,
// so a model would have the same three fields.
#[derive(Drop)]
pub struct Job {
    kind: Option<JobKind>,
    trace: TraceJob,
    gates: Gates,
    ghost no_trace: { (kind ≢ Some kinds.Trace) → trace.trace.n ≡ 0 },
    ghost no_gates: { (kind ≢ Some kinds.Gates) → gates.count ≡ 0 },
}
