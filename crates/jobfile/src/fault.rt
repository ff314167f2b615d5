ghost use Rattle.std.specs.Prelude.{◌≡◌};
ghost use Rattle.jobfile.specs.declared.fault.JobFault.TheVariants.{Frame, Record};
ghost use Rattle.jobfile.specs.Fields.{job_row};

use refusal::{Layer, Refusal, Rule};
use wire::frame::FrameFault;
use wire::record::RecordFault;

// What the job reader refuses: the faults of the layers below it, and its own with their position.
#[derive(Clone, Copy, Debug, PartialEq, Eq)]
pub enum JobFault {
    Frame(FrameFault),
    Record(RecordFault),
    Missing(usize),
    Field(usize),
    Message(usize),
}

impl From<FrameFault> for JobFault {
    ghost from_gives = { λ e r. r ≡ Frame e };

    fn from(fault: FrameFault) -> JobFault {
        JobFault::Frame(fault)
    }
}

impl From<RecordFault> for JobFault {
    ghost from_gives = { λ e r. r ≡ Record e };

    fn from(fault: RecordFault) -> JobFault {
        JobFault::Record(fault)
    }
}

// Its row of the table of refusals. The faults of the layers below go up as they are.
impl From<JobFault> for Refusal {
    ghost from_gives = { λ fault refusal. refusal ≡ job_row fault };

    fn from(fault: JobFault) -> Refusal {
        let (rule, position) = match fault {
            JobFault::Frame(fault) => return Refusal::from(fault),
            JobFault::Record(fault) => return Refusal::from(fault),
            JobFault::Missing(position) => (Rule::Missing, position),
            JobFault::Field(position) => (Rule::Field, position),
            JobFault::Message(position) => (Rule::Message, position),
        };
        Refusal {
            rule,
            position,
            layer: Layer::Job,
        }
    }
}
