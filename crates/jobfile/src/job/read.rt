ghost use Rattle.std.specs.Prelude.{◌≡◌, MatchResult};
ghost use Rattle.jobfile.specs.Jobs.{letter_of_job, Blank, Outcome, Whole};
ghost use Rattle.jobfile.specs.Table.{GatesBroken, Broken};
ghost use Rattle.jobfile.specs.Fields.{job_row, GatesRead};

use crate::fault::JobFault;
use crate::job::Job;
use crate::{events, rows};
use gates::gates::Gates;
use refusal::Refusal;
use wire::frame;
use wire::frame::{FRAME, Frame, FrameFault, JobKind};
use wire::reader::Reader;

// The body of a gates job.
fn placing(reader: &mut Reader<'_>, frame: Frame, gates: &mut Gates) -> Result<(), JobFault>
    ensures { MatchResult result (λ _. GatesRead frame.n reader.old reader.new gates.new) (λ e. GatesBroken frame.n reader.old.total reader.old.rest.now (job_row e)) }
{
    *gates = Gates::new(frame.n as usize).ok_or(FrameFault::Count)?;
    rows::gates_body(reader, gates)?;
    Ok(())
}

impl Job {
    // Reads the whole file into the part that its letter names.
    fn take(&mut self, file: &[u8]) -> Result<(), JobFault>
        requires { Blank self.old }
        ensures { MatchResult result (λ _. Whole file.now (letter_of_job self.new) self.old.trace self.new.trace self.old.gates self.new.gates) (λ e. Broken file.now (job_row e)) }
    {
        let frame = frame::read(file)?;
        let mut reader = Reader::new(file, FRAME);
        self.kind = Some(frame.kind);
        match frame.kind {
            JobKind::Trace => events::trace_body(&mut reader, frame, &mut self.trace)?,
            JobKind::Gates => placing(&mut reader, frame, &mut self.gates)?,
        }
        frame::end(&reader)?;
        Ok(())
    }

    // Takes the job in a file, whole; or says which rule the file breaks first, and leaves a blank job.
    pub fn read(&mut self, file: &[u8]) -> Result<(), Refusal>
        ensures { Outcome file.now result self.new }
    {
        self.clear();
        if let Err(fault) = self.take(file) {
            self.clear();
            return Err(Refusal::from(fault));
        }
        Ok(())
    }
}
