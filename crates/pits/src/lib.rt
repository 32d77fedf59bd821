// Lines that are values only, taken over conditions one after the other. The table is flat: with the points xs, one a condition, line
// j has its value at condition i in slot xs.len() * j + i. Loops over a line are quickest where it has whole sixteens.
#![tactic(auto)]

ghost use Rattle.std.specs.Prelude.{◌≡◌, false, ◌+◌, ◌*◌, ◌/◌, ◌≤◌, ◌<◌, length, get_or};
ghost use Rattle.patch.specs.Patch.{patch};
ghost use Rattle.pits.specs.Working.Table.{MixingLine, Mixing, Turning, Stepping, Running};
ghost use Rattle.hermitian.specs.Checks.{bad_size, bad_order};
ghost use Rattle.curve.proofs.Model as Model;
ghost use Rattle.pits.specs.Working.Rings.{Twice, Laying, Starting, Given, Solving, Solved, Weighs, Answering, Received};
ghost use Rattle.pits.specs.Working.Rings.{lines_laid, start_laid, leads_laid, answer_over};
ghost use Rattle.pits.specs.Working.Table.{line_mixed, lines_mixed, turned, stepped, ran};

use field::Field;
use solver::{scan, turns};

// Adds to line j the multiple of the pivot's line w that takes its value at the condition at hand away.
fn mix_line(field: &Field, ds: &[u8; 8], p: usize, w: &[u8], j: usize, slots: &mut [u8])
    requires { MixingLine field.now.degree ds.now p w.now j slots.old }
    ensures { slots.new ≡ line_mixed field.now.degree ds.now p w.now j slots.old }
{
    if j == p {
        return;
    }
    if ds[j] == 0 {
        return;
    }
    let c = field.quotient(ds[j], ds[p]);
    lists::add_times(field, c, w, slots, w.len() * j);
}

// Adds to every other line the multiple of the pivot's line w that takes its value away.
fn mix_lines(field: &Field, ds: &[u8; 8], p: usize, w: &[u8], lines: usize, slots: &mut [u8])
    requires { Mixing field.now.degree ds.now p w.now lines slots.old }
    ensures { slots.new ≡ lines_mixed field.now.degree ds.now p w.now lines slots.old }
{
    for j in 0..lines {
        mix_line(field, ds, p, w, j, slots);
    }
}

// Mixes the pivot p into the other lines at condition i, and multiplies its value at each point by the sum of that point and point i.
fn turn(field: &Field, xs: &[u8], i: usize, lines: usize, ds: &[u8; 8], p: usize, slots: &mut [u8])
    requires { Turning field.now.degree xs.now i lines ds.now p slots.old }
    ensures { slots.new ≡ turned field.now.degree xs.now i lines ds.now p slots.old }
{
    let n = xs.len();
    let at = n * p;
    let mut w = [0u8; 128];
    w[..n].copy_from_slice(&slots[at..at + n]);
    mix_lines(field, ds, p, &w[..n], lines, slots);
    lists::multiply(field, xs, xs[i], slots, at, 0);
}

// Takes the lines over condition i: none changes if all have the value zero there; else the pivot, the first line of lowest lead whose
// value is not zero, is mixed into the others and multiplied, and its lead rises.
fn step(field: &Field, xs: &[u8], i: usize, lines: usize, leads: &mut [usize; 8], slots: &mut [u8])
    requires { Stepping field.now.degree xs.now i lines leads.old slots.old }
    ensures { (leads.new, slots.new)
        ≡ stepped field.now.degree xs.now lines i (leads.old, slots.old) }
{
    let mut ds = [0u8; 8];
    turns::heads(slots, xs.len(), i, lines, &mut ds);
    if let Some(p) = scan::pivot(&ds, leads, lines) {
        turn(field, xs, i, lines, &ds, p, slots);
        leads[p] += lines;
    }
}

// For the crates above: takes the lines over the conditions i at which used[i] is not zero, one after the other.
pub fn run(
    field: &Field,
    xs: &[u8],
    used: &[u8],
    lines: usize,
    leads: &mut [usize; 8],
    slots: &mut [u8],
)
    requires { Running field.now.degree xs.now used.now lines leads.old slots.old }
    ensures { (leads.new, slots.new)
        ≡ ran field.now.degree xs.now lines used.now (length used.now) (leads.old, slots.old) }
{
    for (i, flag) in used.iter().enumerate() {
        if *flag != 0 {
            step(field, xs, i, lines, leads, slots);
        }
    }
}

// The x of the i-th point of a ring; a division by a constant is quicker than one by q.
#[tactic(auto, unfolding(hermitian::specs::Checks::bad_size))]
fn abscissa(q: u32, i: usize) -> u8
    requires { (bad_size q ≡ false) × (i < 64) }
    ensures { result ≡ i / q }
{
    if q == 2 { (i / 2) as u8 } else { (i / 4) as u8 }
}

// The x of the first n points of a ring, from `at` on.
fn abscissas(q: u32, n: usize, xs: &mut [u8], at: usize)
    requires { (bad_size q ≡ false) × (n ≤ 64) × (at + n ≤ length xs.old) }
    ensures { xs.new ≡ patch at n (λ i. i / q) xs.old }
{
    for i in 0..n {
        xs[at + i] = abscissa(q, i);
    }
}

// The x of the n points of a ring, twice.
fn columns_twice(q: u32, n: usize) -> [u8; 128]
    requires { (bad_size q ≡ false) × (n ≤ 64) }
    ensures twice { Twice n (λ i. i / q) result }
    ensures result_len { length result ≡ 128 }
{
    let mut xs = [0u8; 128];
    abscissas(q, n, &mut xs, 0);
    abscissas(q, n, &mut xs, n);
    xs
}

// The symbols of w, twice.
fn twice(w: &[u8]) -> [u8; 128]
    requires { length w.now ≤ 64 }
    ensures twice { Twice (length w.now) (λ i. get_or w.now i 0) result }
    ensures result_len { length result ≡ 128 }
{
    let n = w.len();
    let mut v = [0u8; 128];
    v[..n].copy_from_slice(w);
    v[n..2 * n].copy_from_slice(w);
    v
}

// The leads base, base + by, base + 2·by, … of n lines, the first being line `first`.
fn lay_leads(first: usize, n: usize, base: usize, by: usize, leads: &mut [usize; 8])
    requires { (first + n ≤ 8) × (base ≤ 1000) × (by ≤ 100) }
    ensures { leads.new ≡ patch first n (λ j. base + j * by) leads.old }
{
    for j in 0..n {
        leads[first + j] = base + j * by;
    }
}

// Lays n lines, the first being line `first`: w, and each further line the one before it times the symbols of ys.
fn lay_lines(field: &Field, ys: &[u8], w: &mut [u8], first: usize, n: usize, slots: &mut [u8])
    requires { Laying field.now.degree ys.now w.old first n slots.old }
    ensures { slots.new ≡ lines_laid field.now.degree ys.now w.old first n slots.old }
{
    for j in 0..n {
        rows::store(&w[..ys.len()], slots, ys.len() * (first + j));
        lists::multiply(field, ys, 0, w, 0, 0);
    }
}

// The lines at the start: L = y^j, and then N = y^j; ys has the y of the points twice.
fn start_lines(field: &Field, ys: &[u8], ring: &[u8], slots: &mut [u8])
    requires { Starting field.now.degree ys.now ring.now slots.old }
    ensures { slots.new ≡ start_laid field.now.degree ys.now ring.now slots.old }
{
    let s = field.degree as usize;
    let n = ring.len();
    let mut w = [1u8; 128];
    rows::store(ring, &mut w, 0);
    lay_lines(field, ys, &mut w, 0, s, slots);
    let mut v = [1u8; 128];
    rows::clear(&mut v, n, n);
    lay_lines(field, ys, &mut v, s, s, slots);
}

// The leads of the lines at the start.
#[tactic(auto, unfolding(hermitian::specs::Checks::bad_size), using(hermitian::proofs::Sizes::orders, crate::proofs::Begun::leads_made))]
fn start_leads(q: u32, m: u32, leads: &mut [usize; 8])
    requires { (bad_size q ≡ false) × (bad_order q m ≡ false) }
    ensures { leads.new ≡ leads_laid q m leads.old }
{
    let s = q as usize;
    let by = 2 * (s + 1);
    lay_leads(0, s, 2 * (m as usize) + 1, by, leads);
    lay_leads(s, s, 0, by, leads);
}

// Takes the lines from the start over those points at which used is not zero; xs and ys have the x and the y of the points twice.
fn solve(
    field: &Field,
    m: u32,
    xs: &[u8],
    ys: &[u8],
    ring: &[u8],
    used: &[u8],
    leads: &mut [usize; 8],
    slots: &mut [u8],
)
    requires { Solving field.now.degree m xs.now ys.now ring.now used.now leads.old slots.old }
    ensures solved { Solved field.now.degree m ring.now used.now leads.new slots.new }
    ensures slots_len_unchanged { length slots.new ≡ length slots.old }
{
    start_leads(field.degree, m, leads);
    start_lines(field, ys, ring, slots);
    run(field, xs, used, 2 * (field.degree as usize), leads, slots);
}

// The L of the line of least lead after a run over all points, at every point.
fn weights(field: &Field, m: u32, xs: &[u8], ys: &[u8], ring: &[u8]) -> [u8; 64]
    requires { Given field.now.degree m xs.now ys.now ring.now }
    ensures weighs { Weighs field.now.degree m ring.now result }
    ensures result_len { length result ≡ 64 }
{
    let n = ring.len();
    let mut leads = [0usize; 8];
    let mut slots = [0u8; 1024];
    solve(
        field,
        m,
        xs,
        ys,
        ring,
        &[1u8; 64][..n],
        &mut leads,
        &mut slots,
    );
    let at = 2 * n * scan::least(&leads, 2 * (field.degree as usize)) + n;
    let mut used = [0u8; 64];
    used[..n].copy_from_slice(&slots[at..at + n]);
    used
}

// The received symbols plus N + r·L of the first line after a run over the points at which used is not zero.
fn answer_by(field: &Field, m: u32, xs: &[u8], ys: &[u8], ring: &[u8], used: &[u8], out: &mut [u8])
    requires { Answering field.now.degree m xs.now ys.now ring.now used.now out.old }
    ensures { out.new ≡ answer_over field.now.degree m ring.now used.now }
{
    let mut leads = [0usize; 8];
    let mut slots = [0u8; 1024];
    solve(field, m, xs, ys, ring, used, &mut leads, &mut slots);
    out.copy_from_slice(ring);
    lists::add(&slots[..ring.len()], out, 0);
}

// For the crates above: the answer of the two runs to a received ring; ys are the y of the ring's points, in order.
pub fn answer(q: u32, m: u32, ys: &[u8], ring: &[u8], out: &mut [u8])
    requires { Received q m ys.now ring.now out.old }
    ensures { out.new ≡ Model.answer q m ring.now }
{
    let n = ring.len();
    let field = Field::new(q);
    let xs = columns_twice(q, n);
    let ys = twice(ys);
    let used = weights(&field, m, &xs[..2 * n], &ys[..2 * n], ring);
    answer_by(&field, m, &xs[..2 * n], &ys[..2 * n], ring, &used[..n], out);
}
