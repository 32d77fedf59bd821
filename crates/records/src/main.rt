// Decodes the records on standard input, and prints a line for each on standard output, as soon as its bytes have arrived. It
// ends at the end of the input, after a line that stops the reading, and where a read or a write fails.
#![tactic(auto)]

ghost use Rattle.std.specs.Prelude.{◌≡◌, ◌<◌, ◌≤◌, length, take, IfOk, OnOk};
ghost use Rattle.std.specs.Io.KnownBytes.{Appends, Consumes, IsAtEnd};
ghost use Rattle.record.specs.Records.{wanted};
ghost use Rattle.records.specs.Held.{Held};
ghost use Rattle.records.specs.Printing.{Answered, Printed};

use reading::read_full;
use record::Reply;
use std::io;
use std::io::{Read, Write};

// Reads the next record to the front of the buffer, no byte more than is wanted, and answers how many bytes it has; fewer than
// are wanted where the input ends.
fn next_record<R: Read>(input: &mut R, held: &mut [u8]) -> io::Result<usize>
    requires { 490 ≤ length held.old }
    ensures same_length { length held.new ≡ length held.old }
    ensures held { IfOk result (λ n. Held held.new n) }
    ensures bytes { IfOk result
        (λ n. Consumes (R.remaining input.old) (R.remaining input.new) (take n held.new)) }
    ensures end { IfOk result
        (λ n. n < wanted (take n held.new) → IsAtEnd (R.remaining input.new)) }
{
    let mut got = 0;
    loop {
        let want = record::wanted(&held[..got]);
        if want <= got {
            return Ok(got);
        }
        let more = read_full(input, &mut held[got..want])?;
        if more < want - got {
            return Ok(got + more);
        }
        got = want;
    }
}

// Writes a line at once.
fn put<W: Write>(out: &mut W, line: &[u8]) -> io::Result<()>
    ensures { OnOk result (Appends (W.contents out.old) (W.contents out.new) line.now) }
{
    out.write_all(line)?;
    out.flush()
}

// Answers the next record, and whether reading goes on.
fn next_line<R: Read, W: Write>(
    input: &mut R,
    out: &mut W,
    number: u64,
    held: &mut [u8],
) -> io::Result<bool>
    requires { 490 ≤ length held.old }
    ensures same_length { length held.new ≡ length held.old }
    ensures answered { IfOk result (λ more. Answered number (R.remaining input.old) (R.remaining input.new)
        (W.contents out.old) (W.contents out.new) more) }
{
    let got = next_record(input, held)?;
    let mut line = [0u8; 323];
    match record::answer(number, &held[..got], &mut line) {
        Reply::End => Ok(false),
        Reply::Last(n) => {
            put(out, &line[..n])?;
            Ok(false)
        }
        Reply::Next(n) => {
            put(out, &line[..n])?;
            Ok(true)
        }
    }
}

// Answers the records of the input. They are numbered from 1, and no input is so long that the numbers end.
fn print_all<R: Read, W: Write>(input: &mut R, out: &mut W) -> io::Result<()>
    ensures { OnOk result (Printed (R.remaining input.old) (W.contents out.old) (W.contents out.new)) }
{
    let mut held = [0u8; 490];
    for number in 1..u64::MAX {
        if !next_line(input, out, number, &mut held)? {
            return Ok(());
        }
    }
    Ok(())
}

fn main(rt: HostRuntime) -> io::Result<()> {
    print_all(&mut rt.stdin(), &mut rt.stdout())
}
