// What stands behind the name of a command.
ghost use Rattle.std.specs.Prelude.{◌≡◌, ◌≢◌, ◌∷◌, [], MatchResult};
ghost use Rattle.commands.specs.Behind.{Number, NoNumber, Bound, NoBound, Heights, NoHeights};

use crate::command::LineFault;
use crate::numbers::number;
use crate::words::Words;
use std::str::FromStr;

impl<'a> Words<'a> {
    // The next word, where there has to be one.
    pub(crate) fn word(&mut self) -> Result<&'a [u8], LineFault>
        ensures { MatchResult result (λ word. self.old ≡ word.now ∷ self.new) (λ _. self.old ≡ []) }
    {
        self.next().ok_or(LineFault::Words)
    }

    pub(crate) fn number<T: FromStr>(&mut self) -> Result<T, LineFault>
    where
        T::Err: Drop,
        ensures { MatchResult result (λ v. Number T.from_str_gives self.old v self.new) (λ _. NoNumber T.from_str_gives self.old) }
    {
        number(self.word()?).ok_or(LineFault::Number)
    }

    // At most 32 heights, and 0 for each that is left out.
    // A place and a height.
    pub(crate) fn bound(&mut self) -> Result<(usize, u32), LineFault>
        ensures { MatchResult result (λ b. Bound self.old b.0 b.1 self.new) (λ _. NoBound self.old) }
    {
        Ok((self.number()?, self.number()?))
    }

    pub(crate) fn heights(&mut self) -> Result<[u32; 32], LineFault>
        ensures { MatchResult result (λ hs. Heights self.old hs self.new) (λ _. NoHeights self.old) }
    {
        let mut heights = [0; 32];
        // Not zipped with the words: of what is written through a zip no proof learns anything.
        for height in heights.iter_mut() {
            let Some(word) = self.next() else {
                break;
            };
            *height = number(word).ok_or(LineFault::Number)?;
        }
        Ok(heights)
    }

    // No further word.
    pub(crate) fn end(&mut self) -> Result<(), LineFault>
        ensures { MatchResult result (λ _. self.old ≡ []) (λ _. self.old ≢ []) }
    {
        // A match, since here it is the word found that is the fault.
        match self.next() {
            None => Ok(()),
            Some(_) => Err(LineFault::Words),
        }
    }
}
