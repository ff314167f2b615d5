ghost use Rattle.std.specs.Prelude.{◌≡◌, ◌<◌, ◌∷◌, length, MatchOption, OnErr, ◌≢◌};
ghost use Rattle.wire.specs.Parts.{Reads};
ghost use Rattle.wire.specs.Records.{Raw, raw_of, record_bytes, sized_record, OwnRules, RecordBroken, RowShort, record_row};

use crate::reader::Reader;
use refusal::{Layer, Refusal, Rule};

// What a record refuses, with the position.
#[derive(Clone, Copy, Debug, PartialEq, Eq)]
pub enum RecordFault {
    Missing(usize),
    Event(usize),
    Row(usize),
}

// Its row of the table of refusals.
impl From<RecordFault> for Refusal {
    ghost from_gives = { λ fault refusal. refusal ≡ record_row fault };

    fn from(fault: RecordFault) -> Refusal {
        let (rule, position) = match fault {
            RecordFault::Missing(position) => (Rule::Missing, position),
            RecordFault::Event(position) => (Rule::Event, position),
            RecordFault::Row(position) => (Rule::Row, position),
        };
        Refusal {
            rule,
            position,
            layer: Layer::Record,
        }
    }
}

// An event's record. Until its kind is known, the payload is that part of the file itself.
#[derive(Clone, Copy)]
pub enum Record<'a> {
    Local {
        process: u8,
        payload: &'a [u8],
    },
    Send {
        process: u8,
        to: u8,
        message: u16,
        payload: &'a [u8],
    },
    Receive {
        process: u8,
        message: u16,
        payload: &'a [u8],
    },
}

// The record of a process by its letter and what stands behind that, if these keep the rules.
fn shaped<'a>(letter: char, process: u8, n: u8, width: usize, rest: &'a [u8]) -> Option<Record<'a>>
    ensures { MatchOption result ((raw : Raw) → OwnRules n width raw → process ∷ letter ∷ rest.now ≢ record_bytes raw) (λ x. OwnRules n width (raw_of x) × (process ∷ letter ∷ rest.now ≡ record_bytes (raw_of x))) }
{
    if process >= n {
        return None;
    }
    match letter {
        'L' if rest.len() == width => Some(Record::Local {
            process,
            payload: rest,
        }),
        'S' => {
            let [to, high, low, payload @ ..] = rest else {
                return None;
            };
            if *to >= n || *to == process || payload.len() != width {
                return None;
            }
            Some(Record::Send {
                process,
                to: *to,
                message: u16::from_be_bytes([*high, *low]),
                payload,
            })
        }
        'R' => {
            let [high, low, payload @ ..] = rest else {
                return None;
            };
            if payload.len() != width {
                return None;
            }
            Some(Record::Receive {
                process,
                message: u16::from_be_bytes([*high, *low]),
                payload,
            })
        }
        _ => None,
    }
}

// The record of an event of one of n processes, with a payload of this width. A refusal leaves the reader where it is.
pub fn event<'a>(reader: &mut Reader<'a>, n: u8, width: usize) -> Result<Record<'a>, RecordFault>
    ensures reads { Reads (OwnRules n width) sized_record (λ total. RecordBroken total n width) raw_of record_row reader.old result reader.new }
    ensures kept { OnErr result (reader.new ≡ reader.old) }
{
    let missing = RecordFault::Missing(reader.total());
    let broken = RecordFault::Event(reader.position());
    let mut ahead = *reader;
    let [size] = ahead.take_array::<1>().ok_or(missing)?;
    let body = ahead.take(size as usize).ok_or(missing)?;
    let [process, letter, rest @ ..] = body else {
        return Err(broken);
    };
    let record = shaped(char::from(*letter), *process, n, width, rest).ok_or(broken)?;
    *reader = ahead;
    Ok(record)
}

// The n bytes of a row, whatever they are. A refusal leaves the reader where it is.
pub fn row<'a>(reader: &mut Reader<'a>, n: u8) -> Result<&'a [u8], RecordFault>
    ensures reads { Reads (λ list. length list ≡ n) (λ list. list) (λ total. RowShort total n) (λ x. x.now) record_row reader.old result reader.new }
    ensures kept { OnErr result (reader.new ≡ reader.old) }
{
    let missing = RecordFault::Missing(reader.total());
    reader.take(n as usize).ok_or(missing)
}
