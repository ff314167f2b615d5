ghost use Rattle.std.specs.Prelude.{◌≡◌};
ghost use Rattle.lattice.specs.Steps.{reading};
ghost use Rattle.report.specs.Lines.{text_of_refusal, text_of_job, Placed};

use crate::lines::{Report, refusal_text};
use jobfile::job::Job;
use lattice::board::Board;
use refusal::{Layer, Refusal, Rule};

// Puts a text at the front of the memory, which is the caller's, and answers how long the text is; one longer than the
// memory is refused.
fn place(text: &[u8], memory: &mut [u8]) -> Result<usize, Refusal>
    ensures { Placed memory.old text.now result memory.new }
{
    let needed = text.len();
    if needed > memory.len() {
        return Err(Refusal {
            rule: Rule::Room,
            position: needed,
            layer: Layer::Report,
        });
    }
    memory[..needed].copy_from_slice(text);
    Ok(needed)
}

// Writes the report of a job and its board into the memory, and answers how long it is.
pub fn write_report(job: &Job, board: &Board, memory: &mut [u8]) -> Result<usize, Refusal>
    ensures { Placed memory.old (text_of_job job.now (reading board.now)) result memory.new }
{
    let report = Report { job, board };
    place(report.text().as_str().as_bytes(), memory)
}

// Writes the line of a refusal into the memory, and answers how long it is.
pub fn write_refusal(refusal: &Refusal, memory: &mut [u8]) -> Result<usize, Refusal>
    ensures { Placed memory.old (text_of_refusal refusal.now) result memory.new }
{
    place(refusal_text(refusal).as_str().as_bytes(), memory)
}
