ghost use Rattle.std.specs.Prelude.{◌≡◌, ◌≤◌, length, drop, MatchResult};
ghost use Rattle.wire.specs.declared.frame.FrameFault.TheVariants.{Letter};
ghost use Rattle.wire.specs.Frames.{IsLetter, job_letter, Framed, FrameBroken, Behind, frame_row};

use crate::reader::Reader;
use refusal::{Layer, Refusal, Rule};

// The most bytes that a job file has, and how many of them are the frame's.
pub const LARGEST: usize = 16_384;

pub const FRAME: usize = 7;

pub const VERSION: u8 = 1;

// The greatest n.
pub const MOST: u8 = 16;

// What the frame refuses; two of its faults carry their position.
#[derive(Clone, Copy, Debug, PartialEq, Eq)]
pub enum FrameFault {
    TooLong,
    Missing(usize),
    Version,
    Length,
    Letter,
    Count,
    Behind(usize),
}

// Its row of the table of refusals.
impl From<FrameFault> for Refusal {
    ghost from_gives = { λ fault refusal. refusal ≡ frame_row fault };

    fn from(fault: FrameFault) -> Refusal {
        let (rule, position) = match fault {
            FrameFault::TooLong => (Rule::TooLong, LARGEST),
            FrameFault::Missing(position) => (Rule::Missing, position),
            FrameFault::Version => (Rule::Version, 0),
            FrameFault::Length => (Rule::Length, 1),
            FrameFault::Letter => (Rule::Letter, 5),
            FrameFault::Count => (Rule::Count, 6),
            FrameFault::Behind(position) => (Rule::Behind, position),
        };
        Refusal {
            rule,
            position,
            layer: Layer::Frame,
        }
    }
}

// What a job is about.
#[derive(Clone, Copy, Debug, PartialEq, Eq)]
pub enum JobKind {
    Trace,
    Gates,
}

// Its letter in the file.
impl From<JobKind> for char {
    ghost from_gives = { λ kind letter. letter ≡ job_letter kind };

    fn from(kind: JobKind) -> char {
        match kind {
            JobKind::Trace => 'T',
            JobKind::Gates => 'M',
        }
    }
}

impl TryFrom<char> for JobKind {
    type Error = FrameFault;

    ghost try_from_gives = { λ letter result. MatchResult result (λ kind. letter ≡ job_letter kind) (λ fault. (fault ≡ Letter) × (IsLetter letter → ⊥)) };

    fn try_from(letter: char) -> Result<JobKind, FrameFault> {
        match letter {
            'T' => Ok(JobKind::Trace),
            'M' => Ok(JobKind::Gates),
            _ => Err(FrameFault::Letter),
        }
    }
}

// What the frame says of the job: its kind, and n, the number of its processes or vans.
#[derive(Clone, Copy, Debug, PartialEq, Eq)]
pub struct Frame {
    pub kind: JobKind,
    pub n: u8,
    ghost some: { 1 ≤ n },
    ghost few: { n ≤ 16 },
}

// The frame, from the first seven bytes; the body follows them.
pub fn read(file: &[u8]) -> Result<Frame, FrameFault>
    ensures { MatchResult result (λ frame. Framed file.now (job_letter frame.kind) frame.n (drop 7 file.now)) (λ e. FrameBroken file.now (frame_row e)) }
{
    if file.len() > LARGEST {
        return Err(FrameFault::TooLong);
    }
    let [version, l0, l1, l2, l3, letter, n, ..] = *file else {
        return Err(FrameFault::Missing(file.len()));
    };
    if version != VERSION {
        return Err(FrameFault::Version);
    }
    if u32::from_be_bytes([l0, l1, l2, l3]) as usize != file.len() {
        return Err(FrameFault::Length);
    }
    let kind = JobKind::try_from(char::from(letter))?;
    if !(1..=MOST).contains(&n) {
        return Err(FrameFault::Count);
    }
    Ok(Frame { kind, n })
}

// Nothing may be left behind the body.
pub fn end(body: &Reader<'_>) -> Result<(), FrameFault>
    ensures { MatchResult result (λ _. length body.now.rest.now ≡ 0) (λ e. Behind body.now.total body.now.rest.now (frame_row e)) }
{
    if !body.is_empty() {
        return Err(FrameFault::Behind(body.position()));
    }
    Ok(())
}
