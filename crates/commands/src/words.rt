ghost use Rattle.std.specs.Prelude.{◌≡◌, ℕ, List};
ghost use Rattle.std.specs.Iterator.{YieldsFirstRef, item_count};
ghost use Rattle.commands.specs.Words.{is_blank as blank_byte, words};

use std::marker::Model;

// The words of a line that are not read yet.
#[derive(Drop)]
pub(crate) struct Words<'a> {
    line: &'a [u8],
}

impl<'a> Model for Words<'a> {
    ghost Value = { List (List ℕ) };

    ghost view = { λ s. words s.line.now };
}

impl<'a> Words<'a> {
    pub(crate) fn new(line: &'a [u8]) -> Words<'a>
        ensures { result ≡ words line.now }
    {
        Words { line }
    }
}

fn is_blank(byte: &u8) -> bool
    ensures { result ≡ blank_byte byte.now }
{
    *byte <= b' '
}

impl<'a> Iterator for Words<'a> {
    type Item = &'a [u8];

    ghost next_gives = { YieldsFirstRef (λ rest. rest) };

    ghost remaining = { item_count (λ rest. rest) };

    fn next(&mut self) -> Option<&'a [u8]> {
        let start = self.line.iter().position(|byte| !is_blank(byte))?;
        let line = &self.line[start..];
        let end = line.iter().position(is_blank).unwrap_or(line.len());
        let (word, rest) = line.split_at(end);
        self.line = rest;
        Some(word)
    }
}
