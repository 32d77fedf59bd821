// Keeps two reports and ranks them. Standard input has frames of 114 bytes, one a call, numbers with their low byte first:
//
//   0          0 for an opening, 1 for a mark to be entered, anything else for a ranking
//   1 to 4     the number of columns, or the ending's code
//   5 to 8     the detail
//   9 to 12    how often the mark is entered, at least once
//   13         how many flags there are, at most 100
//   14 to 113  the flags
//
// An opening and a mark are of the first report, and give a line: `done`, or `!` and the number of the last refusal, and the figures of
// the report that was handed over. A ranking gives a line that says who comes first, and exchanges the two reports. What it writes is
// held to the answers of another program (tests/second).
#![tactic(auto)]

ghost use Rattle.std.specs.Prelude.{◌≤◌, IfOk};
ghost use Rattle.report.specs.Report.{Made};

use mark::Handed;
use reading::read_frame;
use report::{Ranking, Report};
use std::io::Write;
use std::{io, mem};

// Writes the line of an opening or an entry, and hands the report back.
fn show(out: &mut impl Write, handed: Handed<Report>) -> io::Result<Report>
    requires { Made handed.next }
    ensures { IfOk result (λ r. Made r) }
{
    match handed.outcome {
        Ok(()) => write!(out, "done")?,
        Err(refused) => write!(out, "!{}", refused.number())?,
    }
    let report = handed.next;
    write!(out, " {} {}", report.columns, report.marks)?;
    for n in report.endings {
        write!(out, " {n}")?;
    }
    write!(out, " {} {}", report.wrong, report.most)?;
    for (i, n) in report.each.iter().enumerate() {
        if *n != 0 {
            write!(out, " {i}:{n}")?;
        }
    }
    writeln!(out)?;
    Ok(report)
}

// Writes the line of a ranking.
fn show_ranking(out: &mut impl Write, ranking: Ranking) -> io::Result<()> {
    match ranking {
        Ranking::Equal => writeln!(out, "equal"),
        Ranking::First => writeln!(out, "first"),
        Ranking::Second => writeln!(out, "second"),
    }
}

// The number of four bytes from a place on.
fn number(frame: &[u8; 114], at: usize) -> usize
    requires { at ≤ 110 }
{
    u32::from_le_bytes([frame[at], frame[at + 1], frame[at + 2], frame[at + 3]]) as usize
}

// Enters the mark of a frame so often, at least once, and hands over what the last time gave.
fn enter(report: Report, frame: &[u8; 114]) -> Handed<Report>
    requires { Made report }
    ensures { Made result.next }
{
    let ending = number(frame, 1);
    let detail = number(frame, 5);
    let times = number(frame, 9);
    let flags = &frame[14..14 + usize::from(frame[13].min(100))];
    let mut entered = report.enter(ending, detail, flags);
    for _ in 1..times {
        entered = entered.next.enter(ending, detail, flags);
    }
    entered
}

fn main(rt: HostRuntime) -> io::Result<()> {
    let mut input = rt.stdin();
    let mut out = rt.stdout();
    let mut own = Report::open(1).next;
    let mut other = own;
    for _ in 0..u64::MAX {
        let Some(frame) = read_frame(&mut input)? else {
            break;
        };
        match frame[0] {
            0 => own = show(&mut out, Report::open(number(&frame, 1)))?,
            1 => own = show(&mut out, enter(own, &frame))?,
            _ => {
                show_ranking(&mut out, own.rank(other))?;
                mem::swap(&mut own, &mut other);
            }
        }
    }
    Ok(())
}
