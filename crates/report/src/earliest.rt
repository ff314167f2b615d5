ghost use Rattle.std.specs.Prelude.{◌≡◌};
ghost use Rattle.report.specs.Earliest.{Answered};

use crate::write;
use jobfile::job::Job;
use lattice::board::{Board, DECIDING};
use refusal::Refusal;

// Reads a file, searches for the earliest solution of its job, and writes the report into the memory, which is the
// caller's, and answers how long it is. The job's own memory serves every file; nothing is asked for here.
pub fn earliest(file: &[u8], job: &mut Job, memory: &mut [u8]) -> Result<usize, Refusal>
    ensures { Answered file.now memory.old result memory.new job.new }
{
    match job.read(file) {
        Err(refusal) => write::write_refusal(&refusal, memory),
        Ok(()) => {
            let mut board = Board::new();
            let _ = board.run(&job.condition(), DECIDING);
            write::write_report(job, &board, memory)
        }
    }
}
