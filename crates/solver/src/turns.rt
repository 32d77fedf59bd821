// What a step makes of the lines, one at a time.
ghost use Rattle.std.specs.Prelude.{◌≡◌, ◌+◌, ◌-◌, ◌*◌, ◌^◌, ◌≤◌, ◌<◌, length, get_or};
ghost use Rattle.patch.specs.Patch.{patch};
ghost use Rattle.patch.specs.Parts.{part};
ghost use Rattle.field.specs.Symbols.{IsSymbol};
ghost use Rattle.lists.specs.Working.Lists.{SymbolsAt};
ghost use Rattle.poly.specs.Poly.{All};
ghost use Rattle.solver.specs.Working.Slots.{line_slots, slots, Only, Each};
ghost use Rattle.solver.specs.Working.Turns.{Factors, Padded, Pointed, Raisable, Copied, mixed, raised, Turned};

use crate::LINE;
use field::Field;

// For the crates above too: the values of the lines, each of so many slots, at condition i.
pub fn heads(slots: &[u8], stride: usize, i: usize, lines: usize, ds: &mut [u8])
    requires { (lines ≤ length ds.old) × (i < stride) × (stride * lines ≤ length slots.now) }
    ensures { ds.new ≡ patch 0 lines (λ j. get_or slots.now (stride * j + i) 0) ds.old }
{
    for j in 0..lines {
        ds[j] = slots[stride * j + i];
    }
}

// The factor of each line: its value at the condition at hand divided by the pivot's. One inverse is taken, and a whole sixteen is
// multiplied by it.
fn factors(field: &Field, ds: &[u8; 5], p: usize) -> [u8; 16]
    requires p_bound { (p < 5) × (get_or ds.now p 0 < 2 ^ field.now.degree) × (get_or ds.now p 0 ≡ 0 → ⊥) }
    ensures { Factors field.now.degree ds.now p result }
{
    let mut cs = [0u8; 16];
    rows::store(ds, &mut cs, 0);
    let inverse = field.quotient(1, ds[p]);
    lists::scale(field, inverse, &mut cs, 0, 16);
    cs
}

// Adds to line j the multiple of the pivot that takes its value at the condition at hand away; cs are the factors, and w is the pivot
// from slot `at` on.
fn mix_line(
    field: &Field,
    ds: &[u8; 5],
    cs: &[u8; 16],
    p: usize,
    w: &[u8],
    space: &mut [u8],
    at: usize,
    j: usize,
)
    requires factors { Factors field.now.degree ds.now p cs.now }
    requires p_bound { (p < 5) × (j < 5) × (get_or ds.now j 0 < 2 ^ field.now.degree) × (get_or ds.now p 0 < 2 ^ field.now.degree)
        × (get_or ds.now p 0 ≡ 0 → ⊥) }
    requires w_bound { (at + length w.now ≤ line_slots) × (line_slots * j + line_slots ≤ length space.old) }
    ensures { Only j (mixed field.now.degree ds.now p w.now at j) space.old space.new }
{
    if j == p {
        return;
    }
    if ds[j] == 0 {
        return;
    }
    lists::add_times(field, cs[j], w, space, LINE * j + at);
}

// Adds to every other line the multiple of the pivot that takes its value away.
fn mix_lines(
    field: &Field,
    ds: &[u8; 5],
    p: usize,
    w: &[u8],
    space: &mut [u8],
    at: usize,
    lines: usize,
)
    requires p_lt_lines { (p < lines) × (lines ≤ 5) × SymbolsAt field.now.degree ds.now 0 lines × (get_or ds.now p 0 ≡ 0 → ⊥) }
    requires w_bound { (at + length w.now ≤ line_slots) × (line_slots * lines ≤ length space.old) }
    ensures { Each lines (mixed field.now.degree ds.now p w.now at) space.old space.new }
{
    let cs = factors(field, ds, p);
    for j in 0..lines {
        mix_line(field, ds, &cs, p, w, space, at, j);
    }
}

// How many slots to take from slot `at` on: n, and more so that they are whole sixteens, if the line has them.
fn whole(at: usize, n: usize) -> usize
    requires { at + n ≤ line_slots }
    ensures { (n ≤ result) × (result ≤ n + 16) × (at + result ≤ line_slots) }
{
    let m = n.next_multiple_of(16);
    if at + m <= LINE { m } else { n }
}

// Copies n slots of line p from slot `at` on to the front of w, with sixteen zeros behind them.
fn copy_line(space: &[u8], p: usize, at: usize, n: usize, w: &mut [u8])
    requires { (at + n ≤ line_slots) × (line_slots * p + line_slots ≤ length space.now) × (784 ≤ length w.old) }
    ensures { Copied (part at n (slots p space.now)) w.new }
{
    rows::store(&space[LINE * p + at..LINE * p + at + n], w, 0);
    rows::clear(w, n, 16);
}

// Adds to every other line the multiple of the pivot p that takes its value away; n slots of the pivot from slot `at` on count,
// and w has a copy of them then.
fn mix_others(
    field: &Field,
    ds: &[u8; 5],
    p: usize,
    space: &mut [u8],
    w: &mut [u8],
    at: usize,
    n: usize,
    lines: usize,
)
    requires p_lt_lines { (p < lines) × (lines ≤ 5) × SymbolsAt field.now.degree ds.now 0 lines × (get_or ds.now p 0 ≡ 0 → ⊥) }
    requires n_bound { (at + n ≤ line_slots) × (line_slots * lines ≤ length space.old) × (784 ≤ length w.old) }
    ensures { Each lines (mixed field.now.degree ds.now p (part at n (slots p space.old)) at) space.old
        space.new
        × Copied (part at n (slots p space.old)) w.new }
{
    copy_line(space, p, at, n, w);
    let m = whole(at, n);
    mix_lines(field, ds, p, &w[..m], space, at, lines);
}

// Multiplies the pivot p by (X + x): its values, `later` of them from slot `at` on, at the points that xs has from there on, and its
// locator behind them, of `width` coefficients, of which w has a copy. Where there is no point xs is zero, so that one product takes
// the values times their points and x, and the locator times x; the locator one place up is added then.
fn raise(
    field: &Field,
    xs: &[u8],
    x: u8,
    later: usize,
    width: usize,
    w: &[u8],
    space: &mut [u8],
    p: usize,
    at: usize,
)
    requires x_bound { x < 2 ^ field.now.degree }
    requires pointed { Pointed field.now.degree (at + later) xs.now × Raisable field.now.degree later width p at space.old }
    requires in_bounds { (784 ≤ length w.now) × Copied (part at (later + width) (slots p space.old)) w.now }
    ensures { Only p (raised field.now.degree (part at later xs.now) x at width) space.old space.new }
{
    let m = whole(at, later + width);
    lists::multiply(field, &xs[at..at + m], x, space, LINE * p + at, 0);
    let v = whole(at + later + 1, width);
    lists::add(&w[later..later + v], space, LINE * p + (at + later + 1));
}

// Mixes the pivot p, the locator of which has at most `width` coefficients, into the other lines at condition i, and raises it; xs are
// the points and zeros behind them, and w is room for a copy.
pub(crate) fn turn(
    field: &Field,
    points: &[u8],
    xs: &[u8],
    i: usize,
    lines: usize,
    ds: &[u8; 5],
    p: usize,
    width: usize,
    space: &mut [u8],
    w: &mut [u8],
)
    requires points { All (IsSymbol field.now.degree) points.now × Padded points.now xs.now }
    requires i_in_bounds { (i < length points.now) × (length points.now ≤ 380) × (width ≤ i + 1) × (p < lines) × (lines ≤ 5)
        × (line_slots * lines ≤ length space.old) × (784 ≤ length w.old) }
    requires symbols_at { SymbolsAt field.now.degree ds.now 0 lines × (get_or ds.now p 0 ≡ 0 → ⊥)
        × Raisable field.now.degree (length points.now - (i + 1)) width p (i + 1) space.old }
    ensures { Turned field.now.degree points.now ds.now lines i p width space.old space.new }
{
    let later = points.len() - (i + 1);
    mix_others(field, ds, p, space, w, i + 1, later + width, lines);
    raise(field, xs, points[i], later, width, w, space, p, i + 1);
}
