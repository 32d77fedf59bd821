// The solver on a table of lines in lent memory. A line takes 768 slots: its values at the conditions, then its locator.
#![tactic(auto)]

mod first;
pub mod scan;
pub mod turns;

ghost use Rattle.std.specs.Prelude.{◌≡◌, ◌+◌, ◌*◌, ◌≤◌, ◌<◌, length};
ghost use Rattle.field.specs.Symbols.{IsSymbol};
ghost use Rattle.poly.specs.Poly.{All};
ghost use Rattle.solver.specs.Working.Start.{all_counts, Starts};
ghost use Rattle.solver.specs.Working.Solver.{HoldsSome, Steps, Runs, SomeRows, Solves};
ghost use Rattle.solver.specs.Working.Slots.{line_slots};
ghost use Rattle.solver.specs.Working.Turns.{Padded};

use field::Field;

// The slots of a line.
pub const LINE: usize = 768;

// For the crates above: the lines before the first condition, of rows with these numbers of conditions, the values at which are us,
// one row after another.
pub fn start(us: &[u8], counts: &[usize], leads: &mut [usize; 5], space: &mut [u8])
    requires us_len_bound { (length us.now ≤ 380) × (length counts.now ≤ 4) × (all_counts counts.now ≡ length us.now) }
    requires counts_in_bounds { line_slots * (length counts.now + 1) ≤ length space.old }
    ensures { Starts us.now counts.now leads.new space.new }
{
    first::first_line(us, space);
    first::row_lines(counts, space);
    *leads = [0, 1, 2, 3, 4];
}

// Takes the lines over condition i: none changes if all have the value zero there; else the pivot is mixed into the others and
// raised; xs are the points and zeros behind them, and w is room for a copy of the pivot.
fn step(
    field: &Field,
    points: &[u8],
    xs: &[u8],
    i: usize,
    lines: usize,
    leads: &mut [usize; 5],
    space: &mut [u8],
    w: &mut [u8],
)
    requires points { All (IsSymbol field.now.degree) points.now × Padded points.now xs.now }
    requires i_in_bounds { (i < length points.now) × (length points.now ≤ 380) × (0 < lines) × (lines ≤ 5)
        × (line_slots * lines ≤ length space.old) × (784 ≤ length w.old) }
    requires holds_some { HoldsSome field.now.degree (length points.now) lines i leads.old space.old }
    ensures { Steps field.now.degree points.now lines i leads.old space.old leads.new space.new }
{
    let mut ds = [0u8; 5];
    turns::heads(space, LINE, i, lines, &mut ds);
    if let Some(p) = scan::pivot(&ds, leads, lines) {
        let width = leads[p] / lines + 1;
        turns::turn(field, points, xs, i, lines, &ds, p, width, space, w);
        leads[p] += lines;
    }
}

// For the crates above: takes the lines over all conditions, one after the other.
pub fn run(field: &Field, points: &[u8], lines: usize, leads: &mut [usize; 5], space: &mut [u8])
    requires points { All (IsSymbol field.now.degree) points.now }
    requires points_len_bound { (length points.now ≤ 380) × (0 < lines) × (lines ≤ 5) × (line_slots * lines ≤ length space.old) }
    requires holds_some { HoldsSome field.now.degree (length points.now) lines 0 leads.old space.old }
    ensures { Runs field.now.degree points.now lines leads.old space.old leads.new space.new }
{
    let mut xs = [0u8; 784];
    rows::store(points, &mut xs, 0);
    let mut w = [0u8; 784];
    for i in 0..points.len() {
        step(field, points, &xs, i, lines, leads, space, &mut w);
    }
}

// For the crates above: the solver's lines, for rows with these numbers of conditions, their points and the values us at them, one
// row after another.
pub fn solve(
    field: &Field,
    counts: &[usize],
    points: &[u8],
    us: &[u8],
    leads: &mut [usize; 5],
    space: &mut [u8],
)
    requires symbols { All (IsSymbol field.now.degree) points.now × All (IsSymbol field.now.degree) us.now }
    requires us_len_bound { (length us.now ≤ 380) × (length counts.now ≤ 4) × (line_slots * (length counts.now + 1) ≤ length space.old) }
    requires some_rows { SomeRows counts.now points.now us.now }
    ensures { Solves field.now.degree counts.now points.now us.now leads.new space.new }
{
    start(us, counts, leads, space);
    run(field, points, counts.len() + 1, leads, space);
}
