ghost use Rattle.std.specs.Prelude.{◌≡◌, Some};
ghost use Rattle.lattice.specs.Words.{verdict_word, answer_word};

use std::fmt;

// What a board knows so far.
#[derive(Clone, Copy, Debug, PartialEq, Eq)]
pub enum Verdict {
    Open,
    Found,
    None,
}

impl Verdict {
    // The word for the verdict, for texts that may not fail.
    pub fn word(self) -> &'static str
        ensures { result.now ≡ verdict_word self }
    {
        match self {
            Verdict::Open => "open",
            Verdict::Found => "found",
            Verdict::None => "none",
        }
    }
}

impl fmt::Display for Verdict {
    ghost output = { λ verdict. Some (verdict_word verdict) };

    fn fmt<W: fmt::Write>(&self, f: &mut fmt::Formatter<W>) -> fmt::Result {
        f.write_str(self.word())
    }
}

// What a run answers: the verdict that it leaves, and pending for open; so it is a type of its own.
#[derive(Clone, Copy, Debug, PartialEq, Eq)]
pub enum Answer {
    Pending,
    Found,
    None,
}

impl Answer {
    // The word for the answer, for texts that may not fail.
    pub fn word(self) -> &'static str
        ensures { result.now ≡ answer_word self }
    {
        match self {
            Answer::Pending => "pending",
            Answer::Found => "found",
            Answer::None => "none",
        }
    }
}

impl fmt::Display for Answer {
    ghost output = { λ answer. Some (answer_word answer) };

    fn fmt<W: fmt::Write>(&self, f: &mut fmt::Formatter<W>) -> fmt::Result {
        f.write_str(self.word())
    }
}
