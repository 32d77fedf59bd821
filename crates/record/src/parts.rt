// The parts of a record.
ghost use Rattle.std.specs.Prelude.{◌≡◌, ◌≤◌, length};
ghost use Rattle.record.specs.Records.{AtMost, no_mark, out_of_range, size_in, stop_of};
ghost use Rattle.record.specs.Working.{Headed};
ghost use Rattle.refusal.specs.Numbers.{refused};

use refusal::Refusal;

// The two bytes that a record begins with, 42 4D.
pub const MARK: [u8; 2] = *b"BM";

// Two bytes are present that are not the mark.
pub(crate) fn no_mark(bytes: &[u8]) -> bool
    ensures { result ≡ no_mark bytes.now }
{
    2 <= bytes.len() && !bytes.starts_with(&MARK)
}

// The count of rows or of columns is out of range.
pub(crate) fn out_of_range(bytes: &[u8]) -> bool
    requires { 5 ≤ length bytes.now }
    ensures { result ≡ out_of_range bytes.now }
{
    refusal::outside(1, 4, usize::from(bytes[3])) || refusal::outside(1, 96, usize::from(bytes[4]))
}

// How many bytes the record has.
pub fn size(bytes: &[u8]) -> usize
    requires { Headed bytes.now }
    ensures { AtMost 490 (size_in bytes.now) result }
{
    let rows = usize::from(bytes[3]);
    let columns = usize::from(bytes[4]);
    6 + rows + columns + rows * columns
}

// The first reason to stop that applies.
pub fn stop(bytes: &[u8]) -> Result<(), Refusal>
    ensures { refused result ≡ stop_of bytes.now }
{
    if no_mark(bytes) {
        return Err(Refusal::NoRecordMark);
    }
    if bytes.len() < 5 {
        return Err(Refusal::CutShort);
    }
    if out_of_range(bytes) & refusal::bad_degree(u32::from(bytes[2])) {
        return Err(Refusal::Degree);
    }
    if refusal::outside(1, 4, usize::from(bytes[3])) {
        return Err(Refusal::Rows);
    }
    if refusal::outside(1, 96, usize::from(bytes[4])) {
        return Err(Refusal::Columns);
    }
    if bytes.len() < size(bytes) {
        return Err(Refusal::CutShort);
    }
    Ok(())
}
