ghost use Rattle.std.specs.Prelude.{◌≡◌, ◌≢◌, Some, MatchResult};
ghost use Rattle.commands.specs.Commands.{asked_word};
ghost use Rattle.commands.specs.Faults.{fault_text};
ghost use Rattle.commands.specs.declared.command.Asked.{Asked as TheAsked};
ghost use Rattle.commands.specs.declared.command.LineFault.TheVariants.{Condition};

use std::error::Error;
use std::fmt;

// A condition that a probe asks.
#[derive(Clone, Copy, Debug, PartialEq, Eq)]
pub enum Asked {
    Job,
    Consistent,
    Watched,
    Channels,
    Gates,
}

// By its name.
impl TryFrom<&[u8]> for Asked {
    type Error = LineFault;

    ghost try_from_gives = { λ word r. MatchResult r (λ c. word.now ≡ asked_word c) (λ fault. (fault ≡ Condition) × ((c : TheAsked) → word.now ≢ asked_word c)) };

    fn try_from(word: &[u8]) -> Result<Asked, LineFault> {
        match word {
            b"job" => Ok(Asked::Job),
            b"consistent" => Ok(Asked::Consistent),
            b"watched" => Ok(Asked::Watched),
            b"channels" => Ok(Asked::Channels),
            b"gates" => Ok(Asked::Gates),
            _ => Err(LineFault::Condition),
        }
    }
}

// What a line of a replay says. The bytes of a job are still in hexadecimal digits.
#[derive(Clone, Copy, Debug, PartialEq, Eq)]
pub enum Command<'a> {
    Job(&'a [u8]),
    New,
    Floor(usize, u32),
    Ceiling(usize, u32),
    Run(u32),
    Read,
    Probe(Asked, [u32; 32]),
    Clocks,
    Report(usize),
}

// What is wrong with a line.
#[derive(Clone, Copy, Debug, PartialEq, Eq)]
pub enum LineFault {
    // no command has this name
    Unknown,
    // a word is missing, or there is one too many
    Words,
    // a word is no number, or the number is too great
    Number,
    // no condition has this name
    Condition,
}

impl fmt::Display for LineFault {
    ghost output = { λ fault. Some (fault_text fault) };

    fn fmt<W: fmt::Write>(&self, f: &mut fmt::Formatter<W>) -> fmt::Result {
        f.write_str(match self {
            LineFault::Unknown => "no such command",
            LineFault::Words => "a word is missing, or there is one too many",
            LineFault::Number => "a word is no number, or the number is too great",
            LineFault::Condition => "no such condition",
        })
    }
}

impl Error for LineFault {}
