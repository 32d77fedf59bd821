// Records: one parsed, decoded, and its line written, all on slices.
#![tactic(auto)]

pub mod parts;
pub mod text;

ghost use Rattle.record.specs.Counts.{Counts};
ghost use Rattle.refusal.specs.Meaning.{detail_of};
ghost use Rattle.record.specs.Records.{AtMost, wanted};
ghost use Rattle.record.specs.Promises.{Answers, meaning, record_in};
ghost use Rattle.record.specs.Working.{Decodable, Decoded, Lined, Written};

use array_checks::SPACE;
use ending::Ending;

// The answer to what is left of the input: nothing is left; a line, after which reading stops; a line, after which it goes on.
// The number is the line's length.
#[derive(Clone, Copy)]
pub enum Reply {
    End,
    Last(usize),
    Next(usize),
}

// How many bytes decide the answer, as far as the bytes so far show: two, five, or those of the whole record.
pub fn wanted(bytes: &[u8]) -> usize
    ensures { AtMost 490 (wanted bytes.now) result }
{
    if bytes.len() < 2 {
        return 2;
    }
    if parts::no_mark(bytes) {
        return 2;
    }
    if bytes.len() < 5 {
        return 5;
    }
    if parts::out_of_range(bytes) {
        return 5;
    }
    parts::size(bytes)
}

// Decodes a whole record in the working space lent; its array and flags stand at the front of the buffers.
pub fn decode(bytes: &[u8], array: &mut [u8], flags: &mut [u8], space: &mut [u8]) -> Ending
    requires { Decodable bytes.now array.old flags.old }
    ensures { Decoded space.old bytes.now result array.new flags.new }
{
    let r = usize::from(bytes[3]);
    let n = usize::from(bytes[4]);
    let points = 6 + r;
    let symbols = points + n;
    let ones = [1u8; 96];
    joint::decode(
        u32::from(bytes[2]),
        &bytes[5..5 + r],
        &bytes[points..symbols],
        &ones[..n],
        u32::from(bytes[5 + r]),
        &bytes[symbols..symbols + r * n],
        &mut array[..r * n],
        &mut flags[..n],
        space,
    )
}

// Decodes a whole record in the working space lent, and writes its line.
fn decode_line(number: u64, bytes: &[u8], out: &mut [u8], space: &mut [u8]) -> usize
    requires { Lined bytes.now out.old }
    ensures { Written number (record_in space.old bytes.now) out.old out.new result }
{
    let n = usize::from(bytes[4]);
    let mut array = [0u8; 384];
    let mut flags = [0u8; 96];
    let ending = decode(bytes, &mut array, &mut flags, space);
    text::put_line(out, number, ending, &flags[..n])
}

// Answers what is left of the input, or as much of it as is wanted: the record at its front is decoded, and the line with that
// number laid in the buffer.
pub fn answer(number: u64, bytes: &[u8], out: &mut [u8; 323]) -> Reply
    ensures answers { Answers number bytes.now out.old result out.new }
    ensures prefix_len { Counts (detail_of (meaning result)) out.new }
{
    if bytes.is_empty() {
        return Reply::End;
    }
    if let Err(refused) = parts::stop(bytes) {
        return Reply::Last(text::put_line(out, number, Ending::Refused(refused), &[]));
    }
    let mut space = [0u8; SPACE];
    Reply::Next(decode_line(number, bytes, out, &mut space))
}
