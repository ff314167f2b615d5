ghost use Rattle.std.specs.Prelude.{◌≡◌, ◌+◌, ◌<◌, ◌≤◌, ◌++◌};
ghost use Rattle.arrayvec.specs.ArrayString.{array_string_len};
ghost use Rattle.lattice.specs.Steps.{reading};
ghost use Rattle.jobfile.specs.Jobs.{places_of};
ghost use Rattle.report.specs.Lines.{text_of_refusal, place_line, place_lines, shown_by, text_of_job};

use arrayvec::ArrayString;
use itoa::Buffer;
use jobfile::job::Job;
use lattice::board::Board;
use lattice::vector::Vector;
use lattice::verdict::Verdict;
use refusal::Refusal;
use wire::frame::JobKind;

// No line of a refusal and no report has more bytes.
pub const LONGEST: usize = 512;

// A text in memory of its own.
// Pushed and not written by `write!`: no clause says that a `fmt` succeeds where its writer does, and a report may not fail.
pub type Text = ArrayString<LONGEST>;

// The line of a refusal.
pub fn refusal_text(refusal: &Refusal) -> Text
    ensures { result.bytes ≡ text_of_refusal refusal.now }
{
    let mut text = Text::new();
    text.push_str("refused ");
    text.push_str(Buffer::new().format(refusal.number()));
    text.push_str(" at ");
    text.push_str(Buffer::new().format(refusal.position));
    text.push_str(" in ");
    text.push_str(refusal.layer.word());
    text.push('\n');
    text
}

// What a report is about: a job, and the board of its search.
#[derive(Clone, Copy)]
pub struct Report<'a> {
    pub job: &'a Job,
    pub board: &'a Board,
}

impl Report<'_> {
    // The report: the verdict, and after found a line for each place.
    pub fn text(&self) -> Text
        ensures { result.bytes ≡ text_of_job self.now.job.now (reading self.now.board.now) }
    {
        let reading = self.board.read();
        let mut text = Text::new();
        text.push(self.job.letter());
        text.push(' ');
        text.push_str(reading.verdict.word());
        text.push('\n');
        if reading.verdict == Verdict::Found {
            let places = Places {
                job: self.job,
                vector: &reading.vector,
            };
            places.push_lines(&mut text);
        }
        text
    }
}

// The places of a job, and the vector whose heights they show.
#[derive(Clone, Copy)]
struct Places<'a> {
    job: &'a Job,
    vector: &'a Vector,
}

impl Places<'_> {
    // A line has at most 25 bytes, and a job at most 16 places.
    #[tactic(auto, using(crate::proofs::Fitting::places_few))]
    fn push_lines(&self, text: &mut Text)
        requires { array_string_len text.old + 400 ≤ LONGEST }
        ensures { text.new.bytes ≡ text.old.bytes ++ place_lines (shown_by self.now.job.now self.now.vector.now) (places_of self.now.job.now) }
    {
        // Over the places by their numbers, which are what each line begins with.
        for place in 0..self.job.places() {
            self.push_line(place, text);
        }
    }

    // That a place is below 32 is asked here and where its height is read, as vectors ask it: a type for it would be made anew
    // for each line.
    fn push_line(&self, place: usize, text: &mut Text)
        requires place { place < 32 }
        requires room { array_string_len text.old + 25 ≤ LONGEST }
        ensures bytes { text.new.bytes ≡ text.old.bytes ++ place_line place (shown_by self.now.job.now self.now.vector.now place) }
        ensures short { array_string_len text.new ≤ array_string_len text.old + 25 }
    {
        text.push_str(Buffer::new().format(place as u8));
        text.push(' ');
        self.push_shown(place, text);
        text.push('\n');
    }

    // Its height, or for gates the gate there.
    fn push_shown(&self, place: usize, text: &mut Text)
        requires place { place < 32 }
        requires room { array_string_len text.old + 20 ≤ LONGEST }
        ensures bytes { text.new.bytes ≡ text.old.bytes ++ shown_by self.now.job.now self.now.vector.now place }
        ensures short { array_string_len text.new ≤ array_string_len text.old + 20 }
    {
        let height = self.vector.heights()[place];
        match self.job.kind() {
            Some(JobKind::Gates) => match self.job.gates().gate_at(place, height as usize) {
                Some(gate) => text.push_str(Buffer::new().format(gate)),
                None => text.push('-'),
            },
            _ => text.push_str(Buffer::new().format(height)),
        }
    }
}
