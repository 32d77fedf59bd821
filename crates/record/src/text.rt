// A line, written into a buffer field by field. Each function writes from a place on and answers the place behind.
ghost use Rattle.std.specs.Prelude.{◌∷◌, ◌+◌, ◌≤◌, length};
ghost use Rattle.record.specs.Lines.{decimal, joined, line_of, wrong_from};
ghost use Rattle.record.specs.Working.{Puts, PutsField, PutsWithin, Room, fields_of, followed};

use ending::Ending;

// Writes a text.
pub fn put_text(out: &mut [u8], at: usize, text: &[u8]) -> usize
    requires { at + length text.now ≤ length out.old }
    ensures { Puts out.old at text.now out.new result }
{
    rows::store(text, out, at);
    at + text.len()
}

// Writes a number in decimal.
pub fn put_number(out: &mut [u8], at: usize, n: u64) -> usize
    requires { at + length (decimal n) ≤ length out.old }
    ensures { Puts out.old at (decimal n) out.new result }
{
    let mut digits = itoa::Buffer::new();
    put_text(out, at, digits.format(n).as_bytes())
}

// Writes a column behind a space or a comma.
pub fn put_column(out: &mut [u8], at: usize, gap: u8, column: usize) -> usize
    requires { at + length (gap ∷ decimal column) ≤ length out.old }
    ensures { Puts out.old at (gap ∷ decimal column) out.new result }
{
    out[at] = gap;
    put_number(out, at + 1, column as u64)
}

// Writes the columns whose flag is not 0, the first behind a space and the others behind commas.
fn put_wrong(out: &mut [u8], at: usize, flags: &[u8]) -> usize
    requires { at + length (followed 32 (wrong_from 0 flags.now)) ≤ length out.old }
    ensures { Puts out.old at (followed 32 (wrong_from 0 flags.now)) out.new result }
{
    let mut end = at;
    let mut gap = b' ';
    for (column, flag) in flags.iter().enumerate() {
        if *flag != 0 {
            end = put_column(out, end, gap, column);
            gap = b',';
        }
    }
    end
}

// Writes the fourth field behind a space: the wrong columns, or `-`.
fn put_columns(out: &mut [u8], at: usize, flags: &[u8]) -> usize
    requires { Room 288 flags.now out.old at }
    ensures { PutsWithin 288 out.old at (32 ∷ joined (wrong_from 0 flags.now)) out.new result }
{
    let end = put_wrong(out, at, flags);
    if end == at {
        return put_text(out, at, b" -");
    }
    end
}

// Writes a text and a number.
fn put_field(out: &mut [u8], at: usize, text: &[u8], n: u8) -> usize
    requires { at + (length text.now + 3) ≤ length out.old }
    ensures { PutsField out.old at text.now n out.new result }
{
    let end = put_text(out, at, text);
    put_number(out, end, u64::from(n))
}

// Writes the fields of an ending, each behind a space: at most 11 bytes of a word, 3 of a detail and 3 for each column.
fn put_ending(out: &mut [u8], at: usize, ending: Ending, flags: &[u8]) -> usize
    requires { Room 302 flags.now out.old at }
    ensures { PutsWithin 302 out.old at (fields_of ending flags.now) out.new result }
{
    match ending {
        Ending::Refused(refused) => {
            let end = put_field(out, at, b" refused ", refused.number());
            put_text(out, end, b" -")
        }
        Ending::Corrected(w) => {
            let end = put_field(out, at, b" corrected ", w);
            put_columns(out, end, flags)
        }
        Ending::Nothing => put_text(out, at, b" none - -"),
        Ending::Several(t) => {
            let end = put_field(out, at, b" several ", t);
            put_text(out, end, b" -")
        }
        Ending::Hollow(t) => {
            let end = put_field(out, at, b" hollow ", t);
            put_text(out, end, b" -")
        }
    }
}

// Writes the line of a record at the buffer's front, and answers its length.
pub(crate) fn put_line(out: &mut [u8], number: u64, ending: Ending, flags: &[u8]) -> usize
    requires { Room 323 flags.now out.old 0 }
    ensures { PutsWithin 323 out.old 0 (line_of number ending flags.now) out.new result }
{
    let end = put_number(out, 0, number);
    let end = put_ending(out, end, ending, flags);
    put_text(out, end, b"\n")
}
