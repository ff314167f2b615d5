ghost use Rattle.std.specs.Prelude.{◌≡◌, MatchResult};
ghost use Rattle.commands.specs.Words.{words};
ghost use Rattle.commands.specs.Commands.{Says, passed_over};
ghost use Rattle.commands.specs.Behind.{Begin, SayNone};
ghost use Rattle.commands.specs.declared.command.Command.{Command as TheCommand};

use crate::command::{Asked, Command, LineFault};
use crate::words::Words;

// Whether a line says nothing: it has no words, or begins with a #.
pub fn is_passed_over(line: &[u8]) -> bool
    ensures { result ≡ passed_over (words line.now) }
{
    matches!(Words::new(line).next(), None | Some([b'#', ..]))
}

// A command, by its name and what stands behind it.
fn command<'a>(words: &mut Words<'a>) -> Result<Command<'a>, LineFault>
    ensures { MatchResult result (λ c. Begin words.old c words.new) (λ _. SayNone words.old) }
{
    let name = words.next().ok_or(LineFault::Unknown)?;
    match name {
        b"job" => Ok(Command::Job(words.next().unwrap_or(&[]))),
        b"new" => Ok(Command::New),
        b"floor" => {
            let (place, height) = words.bound()?;
            Ok(Command::Floor(place, height))
        }
        b"ceiling" => {
            let (place, height) = words.bound()?;
            Ok(Command::Ceiling(place, height))
        }
        b"run" => Ok(Command::Run(words.number()?)),
        b"read" => Ok(Command::Read),
        b"probe" => Ok(Command::Probe(Asked::try_from(words.word()?)?, words.heights()?)),
        b"clocks" => Ok(Command::Clocks),
        b"report" => Ok(Command::Report(words.number()?)),
        _ => Err(LineFault::Unknown),
    }
}

// The command that a line says; or what is wrong with it, and then it says none.
pub fn parse<'a>(line: &'a [u8]) -> Result<Command<'a>, LineFault>
    ensures { MatchResult result (λ c. Says line.now c) (λ _. (c : TheCommand) → Says line.now c → ⊥) }
{
    let mut words = Words::new(line);
    let command = command(&mut words)?;
    words.end()?;
    Ok(command)
}
