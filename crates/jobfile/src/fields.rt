ghost use Rattle.std.specs.Prelude.{◌≡◌, ℕ, ◌^◌, ◌<◌, ◌≤◌, [], length, true, false, MatchResult, slice_index};
ghost use Rattle.std.specs.List.{AllByRecursion};
ghost use Rattle.refusal.specs.declared.Layer.TheVariants.{Job};
ghost use Rattle.refusal.specs.declared.Rule.TheVariants as rule;
ghost use Rattle.refusal.specs.Table.{row};
ghost use Rattle.payload.specs.Kinds.{of_width};
ghost use Rattle.trace.specs.Events.{longest};
ghost use Rattle.cuts.specs.Jobs.{processes, listed};
ghost use Rattle.wire.specs.Bytes.{word2};
ghost use Rattle.wire.specs.Parts.{Reads, Each, FieldBroken};
ghost use Rattle.jobfile.specs.Forms.{wish_bytes, channel_bytes, ChannelOk};
ghost use Rattle.jobfile.specs.Table.{Byte, byte_of, Word, IsKind, kind_width, WishOf, ChannelBroken};
ghost use Rattle.jobfile.specs.Fields.{job_row, letter_of_kind, BytesRead, ChannelRead, ChannelsRead, PayloadRead};

use crate::fault::JobFault;
use cuts::job::{LISTED, TraceJob};
use payload::kinds::{Code, Payload, Scan};
use payload::wish::Wish;
use trace::trace::LONGEST;
use wire::frame::Frame;
use wire::reader::Reader;

// A kind of payload, before its wish is read.
#[derive(Clone, Copy)]
pub(crate) enum Kind {
    Code,
    Scan,
}

// The bytes of a field.
fn bytes<const N: usize>(reader: &mut Reader<'_>) -> Result<[u8; N], JobFault>
    ensures { BytesRead N reader.old result reader.new }
{
    let missing = JobFault::Missing(reader.total());
    reader.take_array::<N>().ok_or(missing)
}

// A number in two bytes, if it is in its range.
fn word<F: FnOnce(u16) -> bool>(reader: &mut Reader<'_>, in_range: F) -> Result<u16, JobFault>
    requires { F.IsAlwaysCallable in_range }
    ensures { Reads (λ v. Word v × F.post in_range v true) word2 (FieldBroken 2 Word word2 (λ v. F.post in_range v false → ⊥)) (λ v. v) job_row reader.old result reader.new }
{
    let range = JobFault::Field(reader.position());
    let value = u16::from_be_bytes(bytes::<2>(reader)?);
    in_range(value).then_some(value).ok_or(range)
}

// The payload letter.
pub(crate) fn payload_letter(reader: &mut Reader<'_>) -> Result<Kind, JobFault>
    ensures { Reads (λ v. Byte v × IsKind v) byte_of (FieldBroken 1 Byte byte_of IsKind) letter_of_kind job_row reader.old result reader.new }
{
    let range = JobFault::Field(reader.position());
    let [letter] = bytes::<1>(reader)?;
    match char::from(letter) {
        'K' => Ok(Kind::Code),
        'C' => Ok(Kind::Scan),
        _ => Err(range),
    }
}

// The watch bits: none at n or above.
pub(crate) fn watch(reader: &mut Reader<'_>, frame: Frame) -> Result<u16, JobFault>
    ensures { Reads (λ v. Word v × (v < 2 ^ frame.n)) word2 (FieldBroken 2 Word word2 (λ v. v < 2 ^ frame.n)) (λ v. v) job_row reader.old result reader.new }
{
    word(reader, |watch| u32::from(watch) >> frame.n == 0)
}

// The wish in a part of the file. What a function is handed is known to hold bytes, and this passes that on.
fn wish_in<P: Payload>(part: &[u8]) -> Option<P::Wish>
    ensures is { result ≡ of_width P.WIDTH P.stated part.now }
    ensures bytes { (k : ℕ) → slice_index part.now k < 256 }
{
    P::wish(part)
}

// The wish of one kind: as many bytes as a payload of it has.
fn wish_of<P: Payload>(reader: &mut Reader<'_>) -> Result<P::Wish, JobFault>
    ensures { MatchResult result (λ w. PayloadRead P.WIDTH P.stated w reader.old reader.new) (λ e. (length reader.old.rest.now < P.WIDTH) × (job_row e ≡ row rule.Missing reader.old.total Job)) }
{
    let missing = JobFault::Missing(reader.total());
    let part = reader.take(P::size()).ok_or(missing)?;
    wish_in::<P>(part).ok_or(missing)
}

pub(crate) fn wish(reader: &mut Reader<'_>, kind: Kind) -> Result<Wish, JobFault>
    ensures { Reads (λ w. WishOf (letter_of_kind kind) w × Unit {0}) wish_bytes (FieldBroken (kind_width (letter_of_kind kind)) (WishOf (letter_of_kind kind)) wish_bytes (λ _. Unit {0})) (λ w. w) job_row reader.old result reader.new }
{
    match kind {
        Kind::Code => Ok(Wish::Code(wish_of::<Code>(reader)?)),
        Kind::Scan => Ok(Wish::Scan(wish_of::<Scan>(reader)?)),
    }
}

// How many channels there are. Of the numbers in one byte only this one and a channel's sender have a range here, so each is
// tested in place.
pub(crate) fn channel_count(reader: &mut Reader<'_>) -> Result<u8, JobFault>
    ensures { Reads (λ v. Byte v × (v ≤ 8)) byte_of (FieldBroken 1 Byte byte_of (λ v. v ≤ 8)) (λ v. v) job_row reader.old result reader.new }
{
    let range = JobFault::Field(reader.position());
    let [count] = bytes::<1>(reader)?;
    let few = count as usize <= LISTED;
    few.then_some(count).ok_or(range)
}

// One channel: its sender, and then its receiver. Reader and job stand apart, being lent by different owners.
fn channel(reader: &mut Reader<'_>, job: &mut TraceJob) -> Result<(), JobFault>
    requires { length (listed job.old) < 8 }
    ensures { MatchResult result (λ _. ChannelRead reader.old reader.new job.old job.new) (λ e. ChannelBroken (processes job.old) reader.old.total reader.old.rest.now (job_row e)) }
{
    let range = JobFault::Field(reader.position());
    let [sender] = bytes::<1>(reader)?;
    if sender as usize >= job.trace().processes() {
        return Err(range);
    }
    let range = JobFault::Field(reader.position());
    let [receiver] = bytes::<1>(reader)?;
    job.add_channel(sender, receiver).map_err(|_| range)
}

pub(crate) fn channel_list(
    reader: &mut Reader<'_>,
    count: u8,
    job: &mut TraceJob,
) -> Result<(), JobFault>
    requires job_value { listed job.old ≡ [] }
    requires count_bound { count ≤ 8 }
    ensures { MatchResult result (λ _. ChannelsRead count reader.old reader.new job.old job.new) (λ e. Each count (AllByRecursion (ChannelOk (processes job.old))) channel_bytes (λ _. ChannelBroken (processes job.old) reader.old.total) reader.old.rest.now (job_row e)) }
{
    for _ in 0..count {
        channel(reader, job)?;
    }
    Ok(())
}

// How many events there are.
pub(crate) fn event_count(reader: &mut Reader<'_>) -> Result<u16, JobFault>
    ensures { Reads (λ v. Word v × (v ≤ longest)) word2 (FieldBroken 2 Word word2 (λ v. v ≤ longest)) (λ v. v) job_row reader.old result reader.new }
{
    word(reader, |count| count as usize <= LONGEST)
}
