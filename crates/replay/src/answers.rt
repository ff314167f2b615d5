ghost use Rattle.std.specs.Prelude.{◌≡◌};
ghost use Rattle.text.specs.Texts.{written, added};
ghost use Rattle.lattice.specs.Words.{reply_words};

use lattice::board::Reading;
use lattice::condition::Reply;
use lattice::verdict::Answer;
use std::io;
use std::io::Write;
use text::text::{LONGEST, Text};
use trace::clock::Clock;
use trace::trace::Trace;

// What a line is answered by.
#[derive(Drop)]
pub enum Response<'a> {
    New,
    Taken(char),
    // of a floor or a ceiling
    Moved,
    Ran(Answer),
    Read(Reading),
    Replied(Reply),
    Reported(&'a [u8]),
    Clocks(&'a Trace),
}

impl Response<'_> {
    // Writes the line: in one piece, but for clocks, of which there can be many.
    pub fn write(&self, output: &mut impl Write) -> io::Result<()> {
        match self {
            Response::Clocks(trace) => write_clocks(trace, output),
            _ => output.write_all(self.line().as_bytes()),
        }
    }

    // The line, but of clocks. Pushed and not written by `write!`, which takes twice the time for the numbers of a reading.
    fn line(&self) -> Text {
        let mut text = Text::new();
        match self {
            Response::New => text.push_bytes(b"new"),
            Response::Taken(letter) => {
                text.push_bytes(b"taken ");
                text.push(u8::try_from(*letter).unwrap_or(b'-'));
            }
            Response::Moved => text.push_bytes(b"ok"),
            Response::Ran(answer) => text.push_bytes(answer.word().as_bytes()),
            Response::Read(reading) => push_reading(&mut text, reading),
            Response::Replied(reply) => push_reply(&mut text, reply),
            Response::Reported(report) => push_joined(&mut text, report),
            Response::Clocks(_) => {}
        }
        text.push(b'\n');
        text
    }
}

fn push_reading(text: &mut Text, reading: &Reading) {
    text.push_bytes(b"read ");
    text.push_bytes(reading.verdict.word().as_bytes());
    text.push(b' ');
    text.push_number(reading.count as u64);
    for &height in reading.vector.heights() {
        text.push(b' ');
        text.push_number(height as u64);
    }
}

fn push_reply(text: &mut Text, reply: &Reply)
    ensures { written text.new ≡ added (written text.old) (reply_words reply.now) }
{
    match reply {
        Reply::Holds => text.push_bytes(b"holds"),
        Reply::Never => text.push_bytes(b"never"),
        Reply::Lift((place, height)) => {
            text.push_bytes(b"lift ");
            text.push_number(*place as u64);
            text.push(b' ');
            text.push_number(*height as u64);
        }
    }
}

// A report as one line, with a bar for each end of line.
fn push_joined(text: &mut Text, report: &[u8]) {
    for &byte in report {
        text.push(if byte == b'\n' { b'|' } else { byte });
    }
}

// The clock of each event in file order: an entry for each process, with commas between them. Written whenever a text may have
// no room for one more, which has at most 176 bytes.
fn write_clocks(trace: &Trace, output: &mut impl Write) -> io::Result<()> {
    let mut text = Text::new();
    text.push_bytes(b"clocks");
    for clock in (0..trace.len()).filter_map(|at| trace.clock(at)) {
        if text.as_bytes().len() > LONGEST - 180 {
            output.write_all(text.as_bytes())?;
            text = Text::new();
        }
        push_clock(&mut text, &clock, trace.processes());
    }
    text.push(b'\n');
    output.write_all(text.as_bytes())
}

fn push_clock(text: &mut Text, clock: &Clock, processes: usize) {
    for (process, &entry) in clock.entries.iter().enumerate().take(processes) {
        text.push(if process == 0 { b' ' } else { b',' });
        text.push_number(entry as u64);
    }
}
