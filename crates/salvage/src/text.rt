// The lines of the listing, written into a buffer.
ghost use Rattle.std.specs.Prelude.{◌++◌, ◌+◌, ◌*◌, ◌≤◌, length};
ghost use Rattle.record.specs.Lines.{ascii};
ghost use Rattle.record.specs.Working.{Puts, PutsWithin};
ghost use Rattle.salvage.specs.Listing.{change, changes};
ghost use Rattle.salvage.specs.Working.{Changing, Symbols, head};

use record::text::{put_column, put_number, put_text};

// Writes the offset, a word and a length at the buffer's front.
fn put_head(out: &mut [u8], offset: u64, word: &[u8], count: u64) -> usize
    requires { 40 + length word.now ≤ length out.old }
    ensures { PutsWithin (40 + length word.now) out.old 0
        (head offset word.now count) out.new result }
{
    let end = put_number(out, 0, offset);
    let end = put_text(out, end, word);
    put_number(out, end, count)
}

// Writes a changed symbol: its row and column, the old and the new one.
fn put_change(out: &mut [u8], at: usize, n: usize, i: usize, old: u8, new: u8) -> usize
    requires { Changing n i out.old at }
    ensures { PutsWithin 16 out.old at (change n i old new) out.new result }
{
    let end = put_column(out, at, b' ', i / n);
    let end = put_column(out, end, b':', i % n);
    let end = put_column(out, end, b':', usize::from(old));
    put_column(out, end, b':', usize::from(new))
}

// Writes the changed symbols of an array in n columns, one after the other.
fn put_changes(out: &mut [u8], at: usize, n: usize, old: &[u8], new: &[u8]) -> usize
    requires symbols { Symbols n old.now new.now }
    requires at_in_bounds { at + 6144 ≤ length out.old }
    ensures { PutsWithin 6144 out.old at (changes n 0 old.now new.now) out.new result }
{
    let mut end = at;
    for (i, (a, b)) in old.iter().zip(new).enumerate() {
        if a != b {
            end = put_change(out, end, n, i, *a, *b);
        }
    }
    end
}

// Writes the line of a record that is kept.
pub(crate) fn put_kept(
    out: &mut [u8],
    offset: u64,
    n: usize,
    size: usize,
    old: &[u8],
    new: &[u8],
) -> usize
    requires symbols { Symbols n old.now new.now }
    requires in_bounds { 6191 ≤ length out.old }
    ensures { PutsWithin 6191 out.old 0
        (head offset (ascii " kept ") size ++ changes n 0 old.now new.now ++ ascii "\n") out.new result }
{
    let end = put_head(out, offset, b" kept ", size as u64);
    let end = put_changes(out, end, n, old, new);
    put_text(out, end, b"\n")
}

// Writes the line of a run of skipped bytes.
pub(crate) fn put_skipped(out: &mut [u8], offset: u64, count: u64) -> usize
    requires { 50 ≤ length out.old }
    ensures { PutsWithin 50 out.old 0 (head offset (ascii " skipped ") count ++ ascii "\n") out.new result }
{
    let end = put_head(out, offset, b" skipped ", count);
    put_text(out, end, b"\n")
}
