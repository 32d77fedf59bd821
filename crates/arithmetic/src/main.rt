// Works out sums, products and quotients. Three bytes on standard input, a degree and two symbols, give a line with the three
// answers; a refusal is `!` and its number. What it writes is held to the answers of another program (tests/second).
#![tactic(auto)]

use reading::read_frame;
use refusal::Refusal;
use std::io::Write;
use std::{fmt, io};

// An answer, as it is written.
#[derive(Clone, Copy)]
struct Shown(Result<u8, Refusal>);

impl fmt::Display for Shown {
    fn fmt<W: fmt::Write>(&self, f: &mut fmt::Formatter<W>) -> fmt::Result {
        match self.0 {
            Ok(symbol) => write!(f, "{symbol}"),
            Err(refused) => write!(f, "!{}", refused.number()),
        }
    }
}

fn main(rt: HostRuntime) -> io::Result<()> {
    let mut input = rt.stdin();
    let mut out = rt.stdout();
    for _ in 0..u64::MAX {
        let Some(frame) = read_frame(&mut input)? else {
            break;
        };
        let [degree, a, b]: [u8; 3] = frame;
        let degree = u32::from(degree);
        let sum = Shown(field::sum(degree, a, b));
        let product = Shown(field::product(degree, a, b));
        let quotient = Shown(field::quotient(degree, a, b));
        writeln!(out, "{sum} {product} {quotient}")?;
    }
    Ok(())
}
