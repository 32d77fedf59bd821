// Routines on a row of symbols that lies in a slice from a place on, over any points: divided differences, and from Newton's
// form the polynomial and its values. They know nothing of columns.
#![tactic(auto)]

ghost use Rattle.std.specs.Prelude.{◌≡◌, true, ◌↔◌, ℕ, ◌+◌, ◌-◌, ◌%◌, ◌≤◌, ◌<◌, length};
ghost use Rattle.patch.specs.Patch.{patch};
ghost use Rattle.patch.specs.Parts.{lay};
ghost use Rattle.field.specs.Symbols.{IsSymbol};
ghost use Rattle.field.specs.Arithmetic.{gf};
ghost use Rattle.poly.specs.Poly.{All, values_at};
ghost use Rattle.poly.proofs.Forms.{from_newton};
ghost use Rattle.rows.specs.Working.Rows.{Inverting, Evaluating, inverted_at, constant_added, newton_values, evaluated_at};

use field::Field;
use field::bits::Reducer;

pub mod lent;

// For the crates above: n symbols of s from `at` on become zero.
pub fn clear(s: &mut [u8], at: usize, n: usize)
    requires { at + n ≤ length s.old }
    ensures { s.new ≡ patch at n (λ k. 0) s.old }
{
    s[at..at + n].fill(0);
}

// For the crates above: whether all symbols are zero.
pub fn all_zero(s: &[u8]) -> bool
    ensures { (result ≡ true) ↔ All (λ (a : ℕ). a ≡ 0) s.now }
{
    s.iter().all(|x| *x == 0)
}

// Adds c to n symbols of s from `at` on.
fn add_constant(c: u8, s: &mut [u8], at: usize, n: usize)
    requires { at + n ≤ length s.old }
    ensures { s.new ≡ constant_added c s.old at n }
{
    for x in &mut s[at..at + n] {
        *x ^= c;
    }
}

// For the crates above: stores the row w in s from `at` on. A loop, since of
// `copy_from_slice` the compiler may make `memmove`, which a host need not have.
pub fn store(w: &[u8], s: &mut [u8], at: usize)
    requires { at + length w.now ≤ length s.old }
    ensures { s.new ≡ lay at w.now s.old }
{
    for (i, x) in w.iter().enumerate() {
        s[at + i] = *x;
    }
}

// The inverses of the differences between the points behind the j-th and the j-th, in w from `at` on.
fn inverses(field: &Field, points: &[u8], j: usize, w: &mut [u8], at: usize)
    requires { Inverting field.now.degree points.now j w.old at }
    ensures { w.new ≡ inverted_at field.now.degree points.now j w.old at }
{
    for (i, x) in points[j + 1..].iter().enumerate() {
        w[at + i] = field.quotient(1, *x ^ points[j]);
    }
}

// The values at the points xs, which are whole sixteens, of the polynomial with the Newton coefficients us at the nodes.
fn evaluate_whole(reducer: Reducer, xs: &[u8], nodes: &[u8], us: &[u8], s: &mut [u8], at: usize)
    requires evaluating { Evaluating reducer.degree xs.now nodes.now us.now s.old at }
    requires xs_len { length xs.now % 16 ≡ 0 }
    ensures { s.new ≡ evaluated_at reducer.degree nodes.now us.now xs.now s.old at }
{
    clear(s, at, xs.len());
    for j in (1..us.len()).rev() {
        lists::multiply_by_bits(reducer, xs, nodes[j - 1], s, at, us[j]);
    }
    add_constant(us[0], s, at, xs.len());
}

// The same at no more than 96 points, in arrays of our own, so that they are whole sixteens.
fn evaluate_some(reducer: Reducer, xs: &[u8], nodes: &[u8], us: &[u8], s: &mut [u8], at: usize)
    requires evaluating { Evaluating reducer.degree xs.now nodes.now us.now s.old at }
    requires xs_len_bound { length xs.now ≤ 96 }
    ensures { s.new ≡ evaluated_at reducer.degree nodes.now us.now xs.now s.old at }
{
    let mut ys = [0u8; 96];
    let mut vs = [0u8; 96];
    store(xs, &mut ys, 0);
    let m = xs.len().next_multiple_of(16);
    evaluate_whole(reducer, &ys[..m], nodes, us, &mut vs, 0);
    store(&vs[..xs.len()], s, at);
}

// For the crates above: the values at the points xs of the polynomial with the Newton coefficients us at the nodes.
pub fn evaluate(reducer: Reducer, xs: &[u8], nodes: &[u8], us: &[u8], s: &mut [u8], at: usize)
    requires all { All (IsSymbol reducer.degree) xs.now × All (IsSymbol reducer.degree) nodes.now
        × All (IsSymbol reducer.degree) us.now }
    requires us_nonzero { (0 < length us.now) × (length us.now ≤ length nodes.now) × (at + length xs.now ≤ length s.old) }
    ensures { s.new ≡ lay at (newton_values reducer.degree nodes.now us.now xs.now) s.old }
{
    for (i, some) in xs.chunks(96).enumerate() {
        evaluate_some(reducer, some, nodes, us, s, at + 96 * i);
    }
}

// For the crates above: the values of the polynomial p at the points xs.
pub fn values(reducer: Reducer, xs: &[u8], p: &[u8], s: &mut [u8], at: usize)
    requires all { All (IsSymbol reducer.degree) xs.now × All (IsSymbol reducer.degree) p.now }
    requires p_nonzero { (0 < length p.now) × (length p.now ≤ 96) × (at + length xs.now ≤ length s.old) }
    ensures { s.new ≡ lay at (values_at (gf reducer.degree) xs.now p.now) s.old }
{
    let nodes = [0u8; 96];
    evaluate(reducer, xs, &nodes, p, s, at);
}

// For the crates above: the coefficients of the polynomial with the Newton coefficients us at the nodes. They are worked out in place,
// from the last on, in an array of our own with zeros behind, so that whole sixteens are taken.
pub fn coefficients(field: &Field, nodes: &[u8], us: &[u8], s: &mut [u8], at: usize)
    requires nodes { All (IsSymbol field.now.degree) nodes.now }
    requires us_in_bounds { (length us.now ≤ length nodes.now) × (length us.now ≤ 384) × (at + length us.now ≤ length s.old) }
    ensures { s.new
        ≡ lay at (from_newton (gf field.now.degree) (length us.now) nodes.now us.now) s.old }
{
    let mut w = [0u8; 400];
    store(us, &mut w, 0);
    for j in (0..us.len()).rev() {
        let m = (us.len() - (j + 1)).next_multiple_of(16);
        lists::carry_times(field, nodes[j], &mut w, j, m);
    }
    store(&w[..us.len()], s, at);
}
