// From a locator to the answer: its roots among the points, and the wrong columns filled in.
#![tactic(auto)]

ghost use Rattle.std.specs.Prelude.{◌≡◌, ℕ, suc, ◌+◌, ◌≤◌, ◌<◌, length, take};
ghost use Rattle.std.proofs.Math.Decide.{ℕ_discrete};
ghost use Rattle.patch.specs.Parts.{lay};
ghost use Rattle.field.specs.Symbols.{IsSymbol};
ghost use Rattle.poly.specs.Poly.{All};
ghost use Rattle.rows.specs.Working.Rows.{Points, Inverses};
ghost use Rattle.codes.specs.Code.{code_of, joint_limit, largest, rows, total};
ghost use Rattle.codes.specs.Lost.{right};
ghost use Rattle.codes.proofs.Limits.{Room};
ghost use Rattle.ending.specs.Working.{Ready, most_cells};
ghost use Rattle.ending.specs.Endings.{Buffers};
ghost use Rattle.ending.proofs.WrongColumns.{root_count};
ghost use Rattle.ending.proofs.Model.{filled, divided};
ghost use Rattle.finish.specs.Working.{released, zeros_in, put, refilled, Filling, filled_at, fronts};

use ending::Ending;
use field::Field;

// For the crates above: flags the values that are zero; answers how many are.
pub fn flag_zeros(values: &[u8], flags: &mut [u8]) -> usize
    requires { length values.now ≤ length flags.old }
    ensures { (result ≡ total (zeros_in values.now))
        × (flags.new ≡ lay 0 (zeros_in values.now) flags.old) }
{
    let mut count = 0;
    for (i, value) in values.iter().enumerate() {
        let flag = *value == 0;
        flags[i] = u8::from(flag);
        count += usize::from(flag);
    }
    count
}

// For the crates above: the entries of a row at the columns whose flag is zero, at the front of s; answers how many there are.
pub fn gather(flags: &[u8], row: &[u8], s: &mut [u8]) -> usize
    requires { (length row.now ≡ length flags.now) × (length flags.now ≤ length s.old) }
    ensures { (result ≡ length (right flags.now row.now))
        × (s.new ≡ lay 0 (right flags.now row.now) s.old) }
{
    let mut j = 0;
    for (flag, entry) in flags.iter().zip(row) {
        if *flag == 0 {
            s[j] = *entry;
            j += 1;
        }
    }
    j
}

// For the crates above: stores the row in s from `at` on, with the next of vs in its place wherever a mark is zero.
pub fn merge(marks: &[u8], vs: &[u8], row: &[u8], s: &mut [u8], at: usize)
    requires { (total (zeros_in marks.now) ≤ length vs.now) × (length row.now ≡ length marks.now)
        × (at + length marks.now ≤ length s.old) }
    ensures { s.new ≡ lay at (put marks.now vs.now row.now) s.old }
{
    let mut j = 0;
    for (i, mark) in marks.iter().enumerate() {
        if *mark == 0 {
            s[at + i] = vs[j];
            j += 1;
        } else {
            s[at + i] = row[i];
        }
    }
}

// A row with its wrong columns filled in, in s from `at` on: the values at the wrong points of the polynomial through the row's
// symbols at the nodes, which are the points of its first right columns; ws are the inverses of the rounds over them.
fn fill_row(
    field: &Field,
    nodes: &[u8],
    wrong: &[u8],
    flags: &[u8],
    marks: &[u8],
    ws: &[u8],
    row: &[u8],
    s: &mut [u8],
    at: usize,
)
    requires points { Points field.now.degree nodes.now × All (IsSymbol field.now.degree) wrong.now }
    requires row_len { (length row.now ≡ length flags.now) × (length marks.now ≡ length flags.now) × (length flags.now ≤ 96)
        × All (IsSymbol field.now.degree) row.now }
    requires nodes_nonzero { (0 < length nodes.now) × (length nodes.now ≤ length (right flags.now row.now)) × (length wrong.now ≤ 96) }
    requires marks_value { (total (zeros_in marks.now) ≡ length wrong.now) × (at + length flags.now ≤ length s.old)
        × Inverses field.now.degree nodes.now (length nodes.now) ws.now }
    ensures { s.new
        ≡ lay at (refilled field.now.degree nodes.now wrong.now flags.now marks.now row.now)
        s.old }
{
    let mut us = [0u8; 112];
    let mut vs = [0u8; 96];
    gather(flags, row, &mut us);
    rows::lent::reduce(field, nodes, nodes.len() - 1, ws, &mut us);
    rows::evaluate(
        field.reducer(),
        wrong,
        nodes,
        &us[..nodes.len()],
        &mut vs,
        0,
    );
    merge(marks, &vs[..wrong.len()], row, s, at);
}

// The rows of the received array with the wrong columns filled in, at the front of s. Of the points, the good ones are those
// of the right columns; ws are the inverses of the rounds over the first of these, as many as the longest row has coefficients.
fn fill_rows(
    field: &Field,
    lengths: &[u8],
    points: &[u8],
    good: &[u8],
    wrong: &[u8],
    flags: &[u8],
    marks: &[u8],
    ws: &[u8],
    received: &[u8],
    s: &mut [u8],
)
    requires filling { Filling (code_of field.now.degree points.now lengths.now) good.now wrong.now flags.now marks.now
        received.now s.old }
    requires inverses { Inverses field.now.degree (take (largest lengths.now) good.now) (largest lengths.now) ws.now }
    ensures { s.new
        ≡ filled_at (code_of field.now.degree points.now lengths.now) received.now flags.now
        s.old }
{
    let mut at = 0;
    for k in lengths {
        fill_row(
            field,
            &good[..usize::from(*k)],
            wrong,
            flags,
            marks,
            ws,
            &received[at..at + points.len()],
            s,
            at,
        );
        at += points.len();
    }
}

// The received array with the wrong columns filled in, at the front of s. Of the points, the good ones are those of the right
// columns.
fn fill_wrong(
    field: &Field,
    lengths: &[u8],
    points: &[u8],
    good: &[u8],
    wrong: &[u8],
    flags: &[u8],
    marks: &[u8],
    received: &[u8],
    s: &mut [u8],
)
    requires { Filling (code_of field.now.degree points.now lengths.now) good.now wrong.now flags.now marks.now
        received.now s.old }
    ensures { s.new
        ≡ filled_at (code_of field.now.degree points.now lengths.now) received.now flags.now
        s.old }
{
    let mut ws = [0u8; 9216];
    let k = array_checks::largest(lengths);
    rows::lent::all_inverses(field, &good[..k], k, &mut ws);
    fill_rows(
        field, lengths, points, good, wrong, flags, marks, &ws, received, s,
    );
}

// For the crates above: the received array with its wrong columns filled in, at the front of s. A column is wrong where its
// mark, in the decoder the locator's value there, is zero, and where its flag is not.
pub fn fill(
    field: &Field,
    lengths: &[u8],
    points: &[u8],
    flags: &[u8],
    marks: &[u8],
    received: &[u8],
    s: &mut [u8],
)
    requires ready { Ready (code_of field.now.degree points.now lengths.now) received.now }
    requires s_len { length s.old ≡ most_cells }
    requires flags_value { (flags.now ≡ zeros_in marks.now) × (length marks.now ≡ length points.now)
        × Room (length points.now) (total flags.now) lengths.now }
    ensures { s.new
        ≡ lay 0 (filled (code_of field.now.degree points.now lengths.now) received.now flags.now)
        s.old }
{
    let mut good = [0u8; 96];
    let mut wrong = [0u8; 96];
    let g = gather(flags, points, &mut good);
    let w = gather(marks, points, &mut wrong);
    fill_wrong(
        field,
        lengths,
        points,
        &good[..g],
        &wrong[..w],
        flags,
        marks,
        received,
        s,
    );
}

// For the crates above: how a decoding ends where all locators of the least size are multiples of one: with the answer and its
// flags in buffers of our own if the locator has as many roots among the points as its size, and hollow if not.
pub fn divide(
    field: &Field,
    lengths: &[u8],
    points: &[u8],
    received: &[u8],
    locator: &[u8],
    array: &mut [u8],
    flags: &mut [u8],
) -> Ending
    requires ready { Ready (code_of field.now.degree points.now lengths.now) received.now }
    requires all { All (IsSymbol field.now.degree) locator.now × (0 < length locator.now)
        × (length locator.now ≤ suc (joint_limit (code_of field.now.degree points.now lengths.now))) }
    requires array_len { (length array.old ≡ most_cells) × (length flags.old ≡ 96) }
    ensures { (lent : Buffers) (t : ℕ) → length locator.now ≡ suc t
        → divided (code_of field.now.degree points.now lengths.now) received.now lent t locator.now
        (ℕ_discrete (root_count (code_of field.now.degree points.now lengths.now) locator.now) t)
        ≡ (
          result,
          released result
              (fronts (code_of field.now.degree points.now lengths.now) array.new flags.new) lent,
        ) }
{
    let mut marks = [0u8; 96];
    rows::values(field.reducer(), points, locator, &mut marks, 0);
    let count = flag_zeros(&marks[..points.len()], flags);
    let t = locator.len() - 1;
    if count != t {
        return Ending::Hollow(t as u8);
    }
    fill(
        field,
        lengths,
        points,
        &flags[..points.len()],
        &marks[..points.len()],
        received,
        array,
    );
    Ending::Corrected(t as u8)
}
