// Puts marks together on a desk. Standard input has frames of 53 bytes, one a call:
//
//   0        0 for an opening, anything else for a put
//   1, 2     the degree, or the number of the column, low byte first
//   3, 4     how many points or symbols there are, at most 20, and how many lengths, at most 7
//   5 to 24  the points or the symbols
//   25 to 31 the lengths
//   32       how many factors there are, at most 20
//   33 to 52 the factors
//
// Each call gives a line: `done`, or `!` and the refusal's number, and the verdict on the desk that was handed over. What it
// writes is held to the answers of another program (tests/second).
#![tactic(auto)]

ghost use Rattle.std.specs.Prelude.{IfOk};
ghost use Rattle.desk.specs.Desk.{Made};

use desk::Desk;
use mark::Handed;
use reading::read_frame;
use std::io;
use std::io::Write;

// Writes the line of a call, and hands the desk back.
fn show(out: &mut impl Write, handed: Handed<Desk>) -> io::Result<Desk>
    requires { Made handed.next }
    ensures { IfOk result (λ d. Made d) }
{
    match handed.outcome {
        Ok(()) => write!(out, "done")?,
        Err(refused) => write!(out, "!{}", refused.number())?,
    }
    let judged = handed.next.verdict();
    writeln!(out, " {}", judged.verdict)?;
    Ok(judged.desk)
}

// Makes the call of a frame.
fn step(desk: Desk, frame: &[u8; 53]) -> Handed<Desk>
    requires { Made desk }
    ensures { Made result.next }
{
    let x = u16::from_le_bytes([frame[1], frame[2]]);
    let n = usize::from(frame[3].min(20));
    if frame[0] != 0 {
        return desk.put(usize::from(x), &frame[5..5 + n]);
    }
    let k = usize::from(frame[4].min(7));
    let f = usize::from(frame[32].min(20));
    Desk::open(
        u32::from(x),
        &frame[5..5 + n],
        &frame[33..33 + f],
        &frame[25..25 + k],
    )
}

fn main(rt: HostRuntime) -> io::Result<()> {
    let mut input = rt.stdin();
    let mut out = rt.stdout();
    let mut desk = Desk::open(2, &[0], &[1], &[1]).next;
    for _ in 0..u64::MAX {
        let Some(frame) = read_frame(&mut input)? else {
            break;
        };
        desk = show(&mut out, step(desk, &frame))?;
    }
    Ok(())
}
