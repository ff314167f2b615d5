#![tactic(auto)]

ghost use Rattle.std.specs.Prelude.{◌≡◌, Some};
ghost use Rattle.refusal.specs.Table.{number_of, IsRuleOf, layer_word, refusal_words};

use std::error::Error;
use std::fmt;

// The rules that a file or a call can break. Each has a number in the table of refusals, by which it becomes a `u8`.
#[derive(Clone, Copy, Debug, PartialEq, Eq)]
pub enum Rule {
    TooLong,
    Missing,
    Version,
    Length,
    Letter,
    Count,
    Field,
    Event,
    Message,
    Row,
    Behind,
    Room,
    Place,
    Height,
    // a caller's own, which stands in no row of the table, with its number
    Other(u8),
}

impl From<Rule> for u8 {
    ghost from_gives = { λ rule number. number ≡ number_of rule };

    fn from(rule: Rule) -> u8 {
        match rule {
            Rule::TooLong => 1,
            Rule::Missing => 2,
            Rule::Version => 3,
            Rule::Length => 4,
            Rule::Letter => 5,
            Rule::Count => 6,
            Rule::Field => 7,
            Rule::Event => 8,
            Rule::Message => 9,
            Rule::Row => 10,
            Rule::Behind => 11,
            Rule::Room => 12,
            Rule::Place => 13,
            Rule::Height => 14,
            Rule::Other(number) => number,
        }
    }
}

// The rule that has a number: that of its row, or else a caller's own.
impl From<u8> for Rule {
    ghost from_gives = { λ number rule. IsRuleOf number rule };

    fn from(number: u8) -> Rule {
        match number {
            1 => Rule::TooLong,
            2 => Rule::Missing,
            3 => Rule::Version,
            4 => Rule::Length,
            5 => Rule::Letter,
            6 => Rule::Count,
            7 => Rule::Field,
            8 => Rule::Event,
            9 => Rule::Message,
            10 => Rule::Row,
            11 => Rule::Behind,
            12 => Rule::Room,
            13 => Rule::Place,
            14 => Rule::Height,
            _ => Rule::Other(number),
        }
    }
}

// Where a refusal comes from.
#[derive(Clone, Copy, Debug, PartialEq, Eq)]
pub enum Layer {
    Frame,
    Record,
    Job,
    Report,
    Board,
}

impl Layer {
    // The word for the layer, for texts that may not fail.
    pub fn word(self) -> &'static str
        ensures { result.now ≡ layer_word self }
    {
        match self {
            Layer::Frame => "frame",
            Layer::Record => "record",
            Layer::Job => "job",
            Layer::Report => "report",
            Layer::Board => "board",
        }
    }
}

impl fmt::Display for Layer {
    ghost output = { λ layer. Some (layer_word layer) };

    fn fmt<W: fmt::Write>(&self, f: &mut fmt::Formatter<W>) -> fmt::Result {
        f.write_str(self.word())
    }
}

// A refusal: which rule was broken, where, and which layer says so.
#[derive(Clone, Copy, Debug, PartialEq, Eq)]
pub struct Refusal {
    pub rule: Rule,
    pub position: usize,
    pub layer: Layer,
}

impl Refusal {
    // The number of the broken rule in the table of refusals.
    pub fn number(&self) -> u8
        ensures { result ≡ number_of self.now.rule }
    {
        u8::from(self.rule)
    }
}

impl fmt::Display for Refusal {
    ghost output = { λ refusal. Some (refusal_words refusal) };

    fn fmt<W: fmt::Write>(&self, f: &mut fmt::Formatter<W>) -> fmt::Result {
        write!(
            f,
            "refused {} at {} in {}",
            self.number(),
            self.position,
            self.layer
        )
    }
}

impl Error for Refusal {}
