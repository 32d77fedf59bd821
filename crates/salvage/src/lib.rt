// Salvaging a file of records: what stands at the front of the bytes that are left of it, all on slices.
#![tactic(auto)]

mod text;

ghost use Rattle.std.specs.Prelude.{◌++◌, ◌+◌, ◌≤◌, length};
ghost use Rattle.record.specs.Counts.{Counts};
ghost use Rattle.record.specs.Records.{mark};
ghost use Rattle.record.specs.Working.{Puts};
ghost use Rattle.salvage.specs.Promises.{Finds, Lists, rooms};
ghost use Rattle.salvage.specs.Working.{Advances, Decided, Keepable, Ready, Told, kept_with};

use array_checks::SPACE;
use ending::Ending;
use record::parts::MARK;
use record::text::put_text;

// What stands at the front of what is left of the file: nothing; a record, of so many bytes, with a line of so many; bytes that are
// skipped, so many.
#[derive(Clone, Copy)]
pub enum Found {
    End,
    Kept(usize, usize),
    Skipped(usize),
}

// Writes the mark, the bytes between mark and symbols, and the symbols, and answers how many bytes these are.
fn rewrite(head: &[u8], symbols: &[u8], out: &mut [u8]) -> usize
    requires { 2 + length head.now + length symbols.now ≤ length out.old }
    ensures { Puts out.old 0 (mark ++ head.now ++ symbols.now) out.new result }
{
    let end = put_text(out, 0, &MARK);
    let end = put_text(out, end, head);
    put_text(out, end, symbols)
}

// Keeps the record at the front of the bytes, with the symbols of the array.
fn keep(offset: u64, bytes: &[u8], array: &[u8], kept: &mut [u8], line: &mut [u8]) -> Found
    requires { Keepable bytes.now array.now (rooms kept.old line.old) }
    ensures { Told offset bytes.now (kept_with bytes.now array.now)
        (rooms kept.old line.old) result (rooms kept.new line.new) }
{
    let r = usize::from(bytes[3]);
    let n = usize::from(bytes[4]);
    let symbols = 6 + r + n;
    let size = symbols + r * n;
    let old = &bytes[symbols..size];
    let new = &array[..r * n];
    let length = rewrite(&bytes[2..symbols], new, kept);
    Found::Kept(length, text::put_kept(line, offset, n, size, old, new))
}

// Decodes the whole record at the front of the bytes, and keeps or skips it.
fn decide(offset: u64, bytes: &[u8], kept: &mut [u8], line: &mut [u8], space: &mut [u8]) -> Found
    requires { Ready bytes.now (rooms kept.old line.old) }
    ensures { Decided space.old offset bytes.now (rooms kept.old line.old) result
        (rooms kept.new line.new) }
{
    let size = record::parts::size(bytes);
    let mut array = [0u8; 384];
    let mut flags = [0u8; 96];
    let ending = record::decode(bytes, &mut array, &mut flags, space);
    match ending {
        Ending::Refused(_) => Found::Skipped(1),
        Ending::Corrected(_) => keep(offset, bytes, &array, kept, line),
        Ending::Nothing | Ending::Several(_) | Ending::Hollow(_) => Found::Skipped(size),
    }
}

// Finds what stands at the front of the bytes, which are all that is left of the file from the offset on, or 490 of them: a record
// that is kept, and its line, are laid in the buffers.
pub fn next(offset: u64, bytes: &[u8], kept: &mut [u8; 490], line: &mut [u8; 6191]) -> Found
    ensures finds { Finds offset bytes.now (rooms kept.old line.old) result
        (rooms kept.new line.new) }
    ensures advances { Advances bytes.now result (rooms kept.new line.new) }
{
    if bytes.is_empty() {
        return Found::End;
    }
    if record::parts::stop(bytes).is_err() {
        return Found::Skipped(1);
    }
    let mut space = [0u8; SPACE];
    decide(offset, bytes, kept, line, &mut space)
}

// Lays the line of a run of skipped bytes in the buffer, none where there are no such bytes, and answers its length.
pub fn skipped_line(offset: u64, count: u64, line: &mut [u8; 50]) -> usize
    ensures lists { Lists offset count line.old result line.new }
    ensures prefix_len { Counts result line.new }
{
    if count == 0 {
        return 0;
    }
    text::put_skipped(line, offset, count)
}
