// The lines of the solver judged: how a decoding ends, from the conditions of the received array to the ending, with the answer in
// buffers of our own.
#![tactic(auto)]

ghost use Rattle.std.specs.Prelude.{◌≡◌, true, false, List, ℕ, suc, ◌*◌, ◌≤◌, length, replicate};
ghost use Rattle.codes.specs.Code.{code_of, joint_limit};
ghost use Rattle.basis.proofs.Lines.{Line, another};
ghost use Rattle.solver.specs.Working.Held.{HoldsLines, LeadsOf};
ghost use Rattle.ending.specs.Working.{Ready, most_cells};
ghost use Rattle.ending.specs.Endings.{Buffers, Ends};
ghost use Rattle.ending.proofs.Model.{Beyond, decided, lines_of};
ghost use Rattle.conditions.specs.Working.{MayHave, reduced_points, reduced_values};
ghost use Rattle.finish.specs.Working.{fronts, released};

use ending::Ending;
use field::Field;

// Whether a line other than those of lead m has a lead within size t.
fn another_within(leads: &[usize; 5], lines: usize, m: usize, t: usize) -> bool
    requires { (lines ≤ 5) × (t ≤ 96) }
    ensures { (es : List (Line ℕ)) → length es ≡ lines → LeadsOf leads.now es
        → (result ≡ true → Beyond (t * lines) (another m es) → ⊥) × (result ≡ false → Beyond (t * lines) (another m es)) }
{
    match solver::scan::another(leads, lines, m) {
        Some(q) => leads[q] <= t * lines,
        None => false,
    }
}

// Decides on the solver's lines, which the space holds behind `count` conditions.
fn decide(
    field: &Field,
    lengths: &[u8],
    points: &[u8],
    limit: u32,
    received: &[u8],
    count: usize,
    leads: &[usize; 5],
    space: &[u8],
    array: &mut [u8],
    flags: &mut [u8],
) -> Ending
    requires ready { Ready (code_of field.now.degree points.now lengths.now) received.now }
    requires limit_bound { limit ≤ joint_limit (code_of field.now.degree points.now lengths.now) }
    requires count_bound { (count ≤ 380) × (3840 ≤ length space.now) × (length array.old ≡ most_cells) × (length flags.old ≡ 96) }
    requires holds_lines { HoldsLines field.now.degree count (suc (length lengths.now)) count leads.now space.now
        (lines_of (code_of field.now.degree points.now lengths.now) received.now) }
    ensures { (lent : Buffers) → decided (code_of field.now.degree points.now lengths.now)
        received.now limit lent
        ≡ (
          result,
          released result (fronts (code_of field.now.degree points.now lengths.now) array.new
              flags.new) lent,
        ) }
{
    let lines = lengths.len() + 1;
    let p = solver::scan::least(leads, lines);
    let m = leads[p];
    let t = (m + lengths.len()) / lines;
    if (limit as usize) < t {
        return Ending::Nothing;
    }
    if another_within(leads, lines, m, t) {
        return Ending::Several(t as u8);
    }
    let from = solver::LINE * p + count;
    finish::divide(
        field,
        lengths,
        points,
        received,
        &space[from..from + (t + 1)],
        array,
        flags,
    )
}

// How the decoding of a received array with the conditions us at xs ends; the solver works in the space.
fn locate(
    field: &Field,
    lengths: &[u8],
    points: &[u8],
    limit: u32,
    received: &[u8],
    us: &[u8],
    xs: &[u8],
    array: &mut [u8],
    flags: &mut [u8],
    space: &mut [u8],
) -> Ending
    requires ready { Ready (code_of field.now.degree points.now lengths.now) received.now }
    requires limit_bound { limit ≤ joint_limit (code_of field.now.degree points.now lengths.now) }
    requires us_value { (us.now ≡ reduced_values field.now.degree points.now lengths.now received.now)
        × (xs.now ≡ reduced_points points.now lengths.now) }
    requires in_bounds { (3840 ≤ length space.old) × (length array.old ≡ most_cells) × (length flags.old ≡ 96) }
    ensures { (lent : Buffers) → decided (code_of field.now.degree points.now lengths.now)
        received.now limit lent
        ≡ (
          result,
          released result (fronts (code_of field.now.degree points.now lengths.now) array.new
              flags.new) lent,
        ) }
{
    let mut counts = [0usize; 4];
    let mut leads = [0usize; 5];
    conditions::row_counts(lengths, points, &mut counts);
    solver::solve(field, &counts[..lengths.len()], xs, us, &mut leads, space);
    decide(
        field,
        lengths,
        points,
        limit,
        received,
        us.len(),
        &leads,
        space,
        array,
        flags,
    )
}

// For the crates above: how the decoding of a received array ends, ws being empty or the inverses of its longest row's rounds. A code
// array is its own answer, and the flags, which come as zeros, are its flags.
pub fn end(
    field: &Field,
    lengths: &[u8],
    points: &[u8],
    ws: &[u8],
    limit: u32,
    received: &[u8],
    array: &mut [u8],
    flags: &mut [u8],
    space: &mut [u8],
) -> Ending
    requires ready { Ready (code_of field.now.degree points.now lengths.now) received.now }
    requires limit_bound { limit ≤ joint_limit (code_of field.now.degree points.now lengths.now) }
    requires in_bounds { (3840 ≤ length space.old) × (length array.old ≡ most_cells) × (flags.old ≡ replicate 96 0) }
    requires may_have { MayHave field.now.degree points.now lengths.now ws.now }
    ensures { (lent : Buffers) → Ends (code_of field.now.degree points.now lengths.now)
        received.now limit lent
        result (released result (fronts (code_of field.now.degree points.now lengths.now) array.new
        flags.new) lent) }
{
    let mut us = [0u8; 384];
    let mut xs = [0u8; 384];
    let n = conditions::conditions(field, lengths, points, ws, received, &mut us, &mut xs);
    if rows::all_zero(&us[..n]) {
        rows::store(received, array, 0);
        return Ending::Corrected(0);
    }
    locate(
        field,
        lengths,
        points,
        limit,
        received,
        &us[..n],
        &xs[..n],
        array,
        flags,
        space,
    )
}
