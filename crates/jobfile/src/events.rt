ghost use Rattle.std.specs.Prelude.{◌≡◌, ◌<◌, ◌≤◌, [], length, MatchResult};
ghost use Rattle.payload.specs.Marks.{width_of};
ghost use Rattle.trace.specs.Events.{longest};
ghost use Rattle.cuts.specs.Jobs.{processes, happened};
ghost use Rattle.wire.specs.Parts.{Each};
ghost use Rattle.wire.specs.Records.{raw_of};
ghost use Rattle.jobfile.specs.Forms.{event_bytes, record_with, EventsOk};
ghost use Rattle.jobfile.specs.Table.{EventBroken, TraceBroken};
ghost use Rattle.jobfile.specs.Fields.{job_row, EventRead, EventsRead, TraceRead};

use crate::fault::JobFault;
use crate::fields;
use cuts::job::TraceJob;
use trace::event::Action;
use wire::frame::Frame;
use wire::reader::Reader;
use wire::record;
use wire::record::Record;

// What a record says happened: at which process, what, and with which payload.
struct Happening<'a> {
    process: u8,
    action: Action,
    payload: &'a [u8],
}

impl<'a> From<Record<'a>> for Happening<'a> {
    ghost from_gives = { λ found happening. record_with happening.process happening.payload.now happening.action ≡ raw_of found };

    fn from(found: Record<'a>) -> Happening<'a> {
        let (process, action, payload) = match found {
            Record::Local { process, payload } => (process, Action::Local, payload),
            Record::Send {
                process,
                to,
                message,
                payload,
            } => (process, Action::Send { to, message }, payload),
            Record::Receive {
                process,
                message,
                payload,
            } => (process, Action::Receive { message }, payload),
        };
        Happening {
            process,
            action,
            payload,
        }
    }
}

// One event more. The trace itself knows whether a rule of messages is broken. Here and below the reader and the job stand
// apart: they are lent by different owners, so a struct of both would be made only to be taken apart.
fn event(reader: &mut Reader<'_>, job: &mut TraceJob) -> Result<(), JobFault>
    requires { length (happened job.old) < longest }
    ensures { MatchResult result (λ _. EventRead reader.old reader.new job.old job.new) (λ e. EventBroken (processes job.old) (width_of job.old.wish) reader.old.total (happened job.old) reader.old.rest.now (job_row e)) }
{
    let message = JobFault::Message(reader.position());
    let n = job.trace().processes() as u8;
    let found = record::event(reader, n, job.wish().width())?;
    let Happening {
        process,
        action,
        payload,
    } = Happening::from(found);
    job.push(process, action, payload).map_err(|_| message)
}

fn event_list(reader: &mut Reader<'_>, count: u16, job: &mut TraceJob) -> Result<(), JobFault>
    requires job_value { happened job.old ≡ [] }
    requires count_le_longest { count ≤ longest }
    ensures { MatchResult result (λ _. EventsRead count reader.old reader.new job.old job.new) (λ e. Each count (EventsOk (processes job.old) (width_of job.old.wish)) (event_bytes (width_of job.old.wish)) (EventBroken (processes job.old) (width_of job.old.wish) reader.old.total) reader.old.rest.now (job_row e)) }
{
    for _ in 0..count {
        event(reader, job)?;
    }
    Ok(())
}

// The body of a trace job.
pub(crate) fn trace_body(
    reader: &mut Reader<'_>,
    frame: Frame,
    job: &mut TraceJob,
) -> Result<(), JobFault>
    ensures { MatchResult result (λ _. TraceRead frame.n reader.old reader.new job.new) (λ e. TraceBroken frame.n reader.old.total reader.old.rest.now (job_row e)) }
{
    let kind = fields::payload_letter(reader)?;
    let watch = fields::watch(reader, frame)?;
    let wish = fields::wish(reader, kind)?;
    let _ = job.begin(frame.n as usize, watch, wish);
    let channels = fields::channel_count(reader)?;
    fields::channel_list(reader, channels, job)?;
    let events = fields::event_count(reader)?;
    event_list(reader, events, job)
}
