use crate::answers::Response;
use crate::fault::Fault;
use commands::command::{Asked, Command};
use commands::hex::decode;
use commands::parse::parse;
use jobfile::job::Job;
use lattice::board::Board;
use lattice::condition::{Condition, Reply};
use lattice::vector::Vector;
use report::write::write_report;
use std::alloc::{AllocError, Global};

// One byte more than the longest file has, so that a longer one is seen to be too long.
const INPUT: usize = 16_385;

// A job, and the board of its search.
#[derive(Drop)]
pub struct Session {
    job: Job,
    board: Board,
}

impl Session {
    // A blank job and a new board.
    pub fn new(heap: Global) -> Result<Session, AllocError> {
        Ok(Session {
            job: Job::new(heap)?,
            board: Board::new(),
        })
    }

    // Does what a line says. A report is put into the memory.
    pub fn answer<'a>(
        &'a mut self,
        line: &[u8],
        memory: &'a mut [u8],
    ) -> Result<Response<'a>, Fault> {
        match parse(line)? {
            Command::Job(word) => self.read_job(word),
            Command::New => {
                self.board = Board::new();
                Ok(Response::New)
            }
            Command::Floor(place, height) => {
                self.board.floor(place, height)?;
                Ok(Response::Moved)
            }
            Command::Ceiling(place, height) => {
                self.board.ceiling(place, height)?;
                Ok(Response::Moved)
            }
            Command::Run(budget) => Ok(Response::Ran(
                self.board.run(&self.job.condition(), budget),
            )),
            Command::Read => Ok(Response::Read(self.board.read())),
            Command::Probe(asked, heights) => {
                let vector = Vector::new(heights).map_err(|_| Fault::Height)?;
                Ok(Response::Replied(self.reply(asked, &vector)))
            }
            Command::Report(size) => self.report(size, memory),
            Command::Clocks => Ok(Response::Clocks(self.job.trace_part().trace())),
        }
    }

    // Takes a job from hexadecimal digits, with a new board.
    fn read_job(&mut self, word: &[u8]) -> Result<Response<'static>, Fault> {
        let mut file = [0u8; INPUT];
        let len = decode(word, &mut file).ok_or(Fault::Digits)?;
        self.board = Board::new();
        self.job.read(&file[..len])?;
        Ok(Response::Taken(self.job.letter()))
    }

    fn reply(&self, asked: Asked, vector: &Vector) -> Reply {
        // An arm for each: the conditions are of different types, and which one is asked is known only from the line.
        match asked {
            Asked::Job => self.job.condition().probe(vector),
            Asked::Consistent => self.job.consistent().probe(vector),
            Asked::Watched => self.job.watched().probe(vector),
            Asked::Channels => self.job.channels().probe(vector),
            Asked::Gates => self.job.gates().probe(vector),
        }
    }

    // The report in so much of the memory.
    fn report<'a>(&self, size: usize, memory: &'a mut [u8]) -> Result<Response<'a>, Fault> {
        let room = size.min(memory.len());
        let len = write_report(&self.job, &self.board, &mut memory[..room])?;
        Ok(Response::Reported(&memory[..len.min(room)]))
    }
}
