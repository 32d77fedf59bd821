// The inner loops of the layers above: a constant times a part of a slice, the same added to another part or one place further on,
// and the sums and products of two parts, symbol by symbol. All are worked out by bits, so that these loops vectorise: they are quickest
// for lists of whole sixteens, and callers round up where they can.
#![tactic(auto)]

ghost use Rattle.std.specs.Prelude.{◌≡◌, ◌+◌, ◌%◌, ◌^◌, ◌≤◌, ◌<◌, length};
ghost use Rattle.patch.specs.Patch.{patch};
ghost use Rattle.lists.specs.Working.Combining.{combined, combined_by, added_by, carried_by, four_combined, Short};
ghost use Rattle.lists.specs.Working.Lists.{SymbolsAt, Multiplying, summed_at, scaled_at, added_at, carried_at, multiplied_at};

use field::bits::Reducer;
use field::{Field, bits};

// Four doublings combined by the four low bits of a symbol, and what the higher bits gave.
#[tactic(auto, unfolding(field::specs::Symbols::plus))]
fn combine_four(r0: u8, r1: u8, r2: u8, r3: u8, s: u8, higher: u8) -> u8
    ensures { result ≡ four_combined r0 r1 r2 r3 s higher }
{
    let s1 = s / 2;
    let s2 = s1 / 2;
    let s3 = s2 / 2;
    bits::masked(s % 2, r0)
        ^ (bits::masked(s1 % 2, r1)
            ^ (bits::masked(s2 % 2, r2) ^ (bits::masked(s3 % 2, r3) ^ higher)))
}

// The doublings combined by the bits of a symbol: by the four low ones alone where the doublings end with them. Here and below a degree
// and its doublings stay two parameters: one type for both was proved, and made the loops 4 to 10 in a hundred slower.
fn combine(degree: u32, r: &[u8; 8], s: u8) -> u8
    requires { Short degree r.now }
    ensures { result ≡ combined r.now s }
{
    if degree <= 4 {
        return combine_four(r[0], r[1], r[2], r[3], s, 0);
    }
    let higher = combine_four(r[4], r[5], r[6], r[7], s / 16, 0);
    combine_four(r[0], r[1], r[2], r[3], s, higher)
}

// Adds the combined symbols of w to the part of s at `at`.
fn add_combined(degree: u32, r: &[u8; 8], w: &[u8], s: &mut [u8], at: usize)
    requires short { Short degree r.now }
    requires w_in_bounds { at + length w.now ≤ length s.old }
    ensures { s.new
        ≡ patch at (length w.now) (added_by r.now w.now s.old at) s.old }
{
    for (i, b) in w.iter().enumerate() {
        s[at + i] ^= combine(degree, r, *b);
    }
}

// Adds to each of n symbols of s from `at` on the combined symbol behind it.
fn carry_combined(degree: u32, r: &[u8; 8], s: &mut [u8], at: usize, n: usize)
    requires short { Short degree r.now }
    requires n_in_bounds { at + n < length s.old }
    ensures { s.new ≡ patch at n (carried_by r.now s.old at) s.old }
{
    for i in 0..n {
        s[at + i] ^= combine(degree, r, s[at + i + 1]);
    }
}

// Combines the part of s at `at`, n symbols, in place.
fn combine_all(degree: u32, r: &[u8; 8], s: &mut [u8], at: usize, n: usize)
    requires short { Short degree r.now }
    requires n_in_bounds { at + n ≤ length s.old }
    ensures { s.new ≡ patch at n (combined_by r.now s.old at) s.old }
{
    for a in &mut s[at..at + n] {
        *a = combine(degree, r, *a);
    }
}

// For the crates above: adds the symbols of w to the part of s at `at`.
pub fn add(w: &[u8], s: &mut [u8], at: usize)
    requires { at + length w.now ≤ length s.old }
    ensures { s.new ≡ summed_at w.now s.old at }
{
    for (i, b) in w.iter().enumerate() {
        s[at + i] ^= b;
    }
}

// For the crates above: adds c times the symbols of w to the part of s at `at`, quickest for lists of whole sixteens.
pub fn add_times(field: &Field, c: u8, w: &[u8], s: &mut [u8], at: usize)
    requires c_bound { c < 2 ^ field.now.degree }
    requires w_in_bounds { at + length w.now ≤ length s.old }
    ensures { s.new ≡ added_at field.now.degree c w.now s.old at }
{
    let r = field.doublings(c);
    add_combined(field.degree, &r, w, s, at);
}

// For the crates above: adds to each of n symbols of s from `at` on c times the one behind it, quickest for whole sixteens.
pub fn carry_times(field: &Field, c: u8, s: &mut [u8], at: usize, n: usize)
    requires c_bound { c < 2 ^ field.now.degree }
    requires n_in_bounds { at + n < length s.old }
    ensures { s.new ≡ carried_at field.now.degree c s.old at n }
{
    let r = field.doublings(c);
    carry_combined(field.degree, &r, s, at, n);
}

// For the crates above: the part of s at `at`, n symbols, becomes c times what it was.
pub fn scale(field: &Field, c: u8, s: &mut [u8], at: usize, n: usize)
    requires c_bound { c < 2 ^ field.now.degree }
    requires n_in_bounds { at + n ≤ length s.old }
    ensures { s.new ≡ scaled_at field.now.degree c s.old at n }
{
    let r = field.doublings(c);
    combine_all(field.degree, &r, s, at, n);
}

// For the crates above: multiplies the part of s at `at`, each symbol with b added, by the symbols of w with a added; quickest for
// lists of whole sixteens. It needs no inverse.
pub fn multiply_by_bits(reducer: Reducer, w: &[u8], a: u8, s: &mut [u8], at: usize, b: u8)
    requires { Multiplying reducer.degree w.now a s.old at b }
    ensures { s.new ≡ multiplied_at reducer.degree w.now a s.old at b }
{
    for (i, x) in w.iter().enumerate() {
        s[at + i] = reducer.product(x ^ a, s[at + i] ^ b);
    }
}

// For the crates above: the same, in a field.
pub fn multiply(field: &Field, w: &[u8], a: u8, s: &mut [u8], at: usize, b: u8)
    requires a_bound { (a < 2 ^ field.now.degree) × (b < 2 ^ field.now.degree) }
    requires w_in_bounds { at + length w.now ≤ length s.old }
    requires symbols_at { SymbolsAt field.now.degree w.now 0 (length w.now) × SymbolsAt field.now.degree s.old at (length w.now) }
    ensures { s.new ≡ multiplied_at field.now.degree w.now a s.old at b }
{
    multiply_by_bits(field.reducer(), w, a, s, at, b);
}
