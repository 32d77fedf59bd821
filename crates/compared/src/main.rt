// Makes the calls that standard input asks for, by the functions that C callers link, and writes what they leave. A call is a frame
// of 610 bytes; numbers of two bytes have the low one first:
//
//   0           0, 1, 2 for encoding, reading and decoding a mark; 3, 4, 5 for a ring; 6 for decoding a ring with lost sectors, and 7,
//               as any other number, a mark with lost columns; 8 for decoding a row by its powers; 9 for decoding a ring by its wrong
//               symbols; 10 for listing the arrays that fit a mark
//   1, 2        the degree, or q
//   3, 4        the trial limit
//   5, 6        a ring's m
//   6, 7        of a mark, how many lengths there are, at most 7, and how many points, at most 97
//   8, 9        how many symbols there are, at most 385
//   10, 11      how long the result's buffer is, at most 385
//   12, 13      how many flags are lent, at most 97, and how many bytes of working space, less 49,144
//   14 to 20    the lengths; of a row read by its powers, k in 14 and 15 and the number of powers in 16 and 17
//   21 to 117   the points
//   118 to 502  the symbols
//   503         how many lost columns there are, at most 8
//   504 to 511  the lost columns
//   512         how many factors there are, at most 97
//   513 to 609  the factors
//
// The buffers are lent with 7 in the result, 9 in the flags and 1 in the working space. A call gives a line: its number, the result and
// the flags in hexadecimal, and how many bytes of the working space are zero. What is written is held to the answers of another
// program (tests/second). The first calls are 01's examples and every refusal, each named in tests/second/cases.txt.
#![tactic(auto)]

ghost use Rattle.std.specs.Prelude.{◌≤◌};

use reading::read_frame;
use std::io::{BufWriter, Write};
use std::{fmt, io};

type Frame = [u8; 610];

// Symbols or flags, as they are written.
#[derive(Clone, Copy)]
struct Hex<'a>(&'a [u8]);

impl fmt::Display for Hex<'_> {
    fn fmt<W: fmt::Write>(&self, f: &mut fmt::Formatter<W>) -> fmt::Result {
        for x in self.0 {
            write!(f, "{x:02x}")?;
        }
        Ok(())
    }
}

// The number of two bytes at a place.
fn number(frame: &Frame, at: usize) -> u16
    requires { at ≤ 608 }
{
    u16::from_le_bytes([frame[at], frame[at + 1]])
}

// Makes the call of a frame.
fn called(frame: &Frame, res: &mut [u8], flags: &mut [u8], space: &mut [u8]) -> u32 {
    let first = u32::from(number(frame, 1));
    let limit = u32::from(number(frame, 3));
    let m = u32::from(number(frame, 5));
    let lengths = &frame[14..14 + usize::from(frame[6].min(7))];
    let points = &frame[21..21 + usize::from(frame[7].min(97))];
    let symbols = &frame[118..118 + usize::from(number(frame, 8).min(385))];
    let lost = &frame[504..504 + usize::from(frame[503].min(8))];
    let factors = &frame[513..513 + usize::from(frame[512].min(97))];
    match frame[0] {
        0 => firmware::gren_mark_encode(first, lengths, points, factors, symbols, res),
        1 => firmware::gren_mark_read(first, lengths, points, factors, symbols, res),
        2 => firmware::gren_mark_decode(
            first, lengths, points, factors, limit, symbols, res, flags, space,
        ),
        3 => firmware::gren_ring_encode(first, m, symbols, res),
        4 => firmware::gren_ring_read(first, m, symbols, res),
        5 => firmware::gren_ring_decode(first, m, limit, symbols, res, flags, space),
        6 => firmware::gren_ring_decode_lost(first, m, limit, lost, symbols, res, flags, space),
        8 => firmware::gren_mark_decode_powers(
            first,
            u32::from(number(frame, 14)),
            u32::from(number(frame, 16)),
            points,
            factors,
            limit,
            symbols,
            res,
            flags,
            space,
        ),
        9 => firmware::gren_ring_decode_pits(first, m, limit, symbols, res, flags, space),
        10 => firmware::gren_mark_list(first, lengths, points, factors, limit, symbols, res),
        _ => firmware::gren_mark_decode_lost(
            first, lengths, points, factors, limit, lost, symbols, res, flags, space,
        ),
    }
}

// How many bytes are zero. A loop, which vectorises, where `filter` and `count` do not.
fn zeros(s: &[u8]) -> usize {
    let mut n = 0;
    for x in s {
        n += usize::from(*x == 0);
    }
    n
}

// Makes the call of a frame with fresh buffers, and shows what it leaves.
fn run(out: &mut impl Write, frame: &Frame) -> io::Result<()> {
    let mut result = [7u8; 385];
    let mut flags = [9u8; 97];
    let mut space = [1u8; 49399];
    let result = &mut result[..usize::from(number(frame, 10).min(385))];
    let flags = &mut flags[..usize::from(frame[12].min(97))];
    let space = &mut space[..49144 + usize::from(frame[13])];
    let answer = called(frame, result, flags, space);
    let cleared = zeros(space);
    writeln!(out, "{answer} {} {} {cleared}", Hex(result), Hex(flags))
}

fn main(rt: HostRuntime) -> io::Result<()> {
    let mut input = rt.stdin();
    let mut out = BufWriter::new(rt.alloc(), rt.stdout())?;
    for _ in 0..u64::MAX {
        let Some(frame) = read_frame(&mut input)? else {
            break;
        };
        run(&mut out, &frame)?;
    }
    out.flush()
}
