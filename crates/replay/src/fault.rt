ghost use Rattle.std.specs.Prelude.{◌≡◌, IsOkAnd};
ghost use Rattle.refusal.specs.declared.Refusal.{Refusal as TheRefusal};
ghost use Rattle.report.specs.Lines.{text_of_refusal};
ghost use Rattle.replay.specs.declared.fault.Fault.TheVariants.{Refused};

use commands::command::LineFault;
use refusal::Refusal;
use report::lines::{Text, refusal_text};
use std::fmt;
use std::fmt::Write;
use thiserror::Error;

// Why a line is not answered.
#[derive(Debug, Drop, Error)]
pub enum Fault {
    #[error("error: {0}")]
    Line(#[from] LineFault),
    #[error("error: the job is not in pairs of hexadecimal digits")]
    Digits,
    #[error("error: a height is above 1000000")]
    Height,
    #[error("{0}")]
    Refused(#[from] Refusal),
}

impl Fault {
    // The line that says so. That of a refusal is the proved text: nothing says of a `fmt` that it does not fail.
    pub fn line(&self) -> Result<Text, fmt::Error>
        ensures { (refusal : TheRefusal) → self.now ≡ Refused refusal → IsOkAnd result (λ text. text.bytes ≡ text_of_refusal refusal) }
    {
        if let Fault::Refused(refusal) = self {
            return Ok(refusal_text(refusal));
        }
        let mut text = Text::new();
        writeln!(text, "{self}")?;
        Ok(text)
    }
}
