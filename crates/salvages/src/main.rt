// Salvages the file of records on standard input: the clean file goes to standard output, and the listing to standard error. It ends at
// the end of the input, and where a read or a write fails.
#![tactic(auto)]

ghost use Rattle.std.specs.Prelude.{◌≡◌, ◌-◌, ◌≤◌, IfOk, OnErr};
ghost use Rattle.salvages.specs.Held.{Movable, Moved, Steps, Writable, wants_more};

use reading::read_full;
use salvage::Found;
use std::io;
use std::io::{Read, Write};

// The offset in the file that no input reaches.
const LAST: u64 = u64::MAX - 4096;

// Moves the bytes from `from` on to the buffer's front, reads on behind them until it is full or the input ends, and answers how many
// bytes are held then. Where a read fails, those at the front are held.
fn refill(input: &mut impl Read, held: &mut [u8], from: usize, got: usize) -> io::Result<usize>
    requires { Movable held.old from got }
    ensures moved { IfOk result (λ n. Moved held.old from got held.new n) }
    ensures kept { OnErr result (Moved held.old from got held.new (got - from)) }
{
    let mut rest = [0u8; 490];
    let n = got - from;
    rows::store(&held[from..got], &mut rest, 0);
    rows::store(&rest[..n], held, 0);
    let more = read_full(input, &mut held[n..])?;
    Ok(n + more)
}

// Lists the run of skipped bytes from `start` on, if there are any.
fn list_run(listing: &mut impl Write, start: u64, count: u64) -> io::Result<()> {
    let mut line = [0u8; 50];
    let n = salvage::skipped_line(start, count, &mut line);
    listing.write_all(&line[..n])
}

// Lists the run that began at `start`, and writes the record at the offset `at` and its line, which stand at the buffers' front.
fn put_kept(
    clean: &mut impl Write,
    listing: &mut impl Write,
    start: u64,
    at: u64,
    kept: &[u8],
    n: usize,
    line: &[u8],
    m: usize,
) -> io::Result<()>
    requires { Writable start at kept.now n line.now m }
{
    list_run(listing, start, at - start)?;
    clean.write_all(&kept[..n])?;
    listing.write_all(&line[..m])
}

// Finds what stands at the front of the bytes, which are at the offset `at`, and writes and lists it, the run that began at `start`
// before it. Answers what was found.
fn step(
    clean: &mut impl Write,
    listing: &mut impl Write,
    start: u64,
    at: u64,
    bytes: &[u8],
    kept: &mut [u8; 490],
    line: &mut [u8; 6191],
) -> io::Result<Found>
    requires { start ≤ at }
    ensures { IfOk result (λ found. Steps bytes.now found) }
{
    let found = salvage::next(at, bytes, kept, line);
    match found {
        Found::End => {
            list_run(listing, start, at - start)?;
            Ok(Found::End)
        }
        Found::Kept(n, m) => {
            put_kept(clean, listing, start, at, kept, n, line, m)?;
            Ok(Found::Kept(n, m))
        }
        Found::Skipped(n) => Ok(Found::Skipped(n)),
    }
}

// The buffer was filled, so that there may be more input, and fewer bytes of it are left than a record has at most.
fn wants_more(from: usize, got: usize) -> bool
    ensures { result ≡ wants_more from got }
{
    got == 4096 && 3606 < from
}

// Of the bytes held those before `from` are done with, at first all. A turn either reads on or goes on by what it finds. No input is so
// long that the offsets end.
fn main(rt: HostRuntime) -> io::Result<()> {
    let mut input = rt.stdin();
    let mut clean = rt.stdout();
    let mut listing = rt.stderr();
    let mut held = [0u8; 4096];
    let mut kept = [0u8; 490];
    let mut line = [0u8; 6191];
    let mut from = 4096;
    let mut got = 4096;
    let mut start = 0;
    let mut at = 0;
    while at < LAST {
        if wants_more(from, got) {
            got = refill(&mut input, &mut held, from, got)?;
            from = 0;
        } else {
            match step(
                &mut clean,
                &mut listing,
                start,
                at,
                &held[from..got],
                &mut kept,
                &mut line,
            )? {
                Found::End => {
                    return Ok(());
                }
                Found::Kept(n, _) => {
                    from += n;
                    at += n as u64;
                    start = at;
                }
                Found::Skipped(n) => {
                    from += n;
                    at += n as u64;
                }
            }
        }
    }
    Ok(())
}
