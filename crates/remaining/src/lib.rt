// The remaining columns of an array gathered, and lost columns filled in.
#![tactic(auto)]

ghost use Rattle.std.specs.Prelude.{◌≡◌, ℕ, ◌*◌, ◌≤◌, ◌<◌, length, take};
ghost use Rattle.patch.specs.Parts.{lay};
ghost use Rattle.poly.specs.Poly.{All};
ghost use Rattle.codes.specs.Code.{code_of, total};
ghost use Rattle.codes.specs.Lost.{lost_flags, right_rows};
ghost use Rattle.codes.proofs.Limits.{Room};
ghost use Rattle.ending.specs.Working.{Ready, most_cells};
ghost use Rattle.ending.proofs.Model.{filled};
ghost use Rattle.finish.specs.Working.{zeros_in};
ghost use Rattle.remaining.specs.Working.{merged, to_fill};

use field::Field;

// For the crates above: the flags of 96 columns, 1 where the column is lost.
pub fn lost_flags(lost: &[u8]) -> [u8; 96]
    requires { All (λ (i : ℕ). i < 96) lost.now }
    ensures { result ≡ lost_flags 96 lost.now }
{
    let mut gone = [0u8; 96];
    for l in lost {
        gone[usize::from(*l)] = 1;
    }
    gone
}

// For the crates above: row after row, at the front of s, the symbols at the columns whose flag is zero.
pub fn gather_rows(gone: &[u8], lengths: &[u8], received: &[u8], s: &mut [u8])
    requires { (length received.now ≡ length lengths.now * length gone.now) × (length received.now ≤ length s.old) }
    ensures { s.new
        ≡ lay 0 (right_rows gone.now (length gone.now) (length lengths.now) received.now)
        s.old }
{
    let mut from = 0;
    let mut at = 0;
    for _ in 0..lengths.len() {
        at += finish::gather(gone, &received[from..from + gone.len()], &mut s[at..]);
        from += gone.len();
    }
}

// The flags of n columns at the front of 96: 2 at the lost ones, and at the others in turn those of `wrong`.
fn merge_flags(lost: &[u8], wrong: &[u8], n: usize) -> [u8; 96]
    requires { (n ≤ 96) × All (λ (i : ℕ). i < n) lost.now × (length wrong.now ≡ total (zeros_in (lost_flags n lost.now))) }
    ensures { (length result ≡ 96) × (take n result ≡ merged (lost_flags n lost.now) wrong.now) }
{
    let gone = lost_flags(lost);
    let twos = [2u8; 96];
    let mut flags = [0u8; 96];
    finish::merge(&gone[..n], wrong, &twos[..n], &mut flags, 0);
    flags
}

// The received array with every column filled in whose flag is not zero, at the front of s.
fn fill_flagged(
    field: &Field,
    lengths: &[u8],
    points: &[u8],
    flags: &[u8],
    received: &[u8],
    s: &mut [u8],
)
    requires ready { Ready (code_of field.now.degree points.now lengths.now) received.now }
    requires s_len { length s.old ≡ most_cells }
    requires flags_len { (length flags.now ≡ length points.now) × Room (length points.now) (total (to_fill flags.now)) lengths.now }
    ensures { s.new
        ≡ lay 0 (filled (code_of field.now.degree points.now lengths.now) received.now (to_fill flags.now))
        s.old }
{
    let mut stay = [0u8; 96];
    let mut fill = [0u8; 96];
    finish::flag_zeros(flags, &mut stay);
    finish::flag_zeros(&stay[..points.len()], &mut fill);
    finish::fill(
        field,
        lengths,
        points,
        &fill[..points.len()],
        &stay[..points.len()],
        received,
        s,
    );
}

// For the crates above: writes the answer and its flags, lost and wrong columns filled in, and the flags of all.
pub fn complete(
    field: &Field,
    lengths: &[u8],
    points: &[u8],
    lost: &[u8],
    wrong: &[u8],
    received: &[u8],
    answer: &mut [u8],
    flags: &mut [u8],
)
    requires ready { Ready (code_of field.now.degree points.now lengths.now) received.now }
    requires all { All (λ (i : ℕ). i < length points.now) lost.now }
    requires wrong_len { (length wrong.now ≡ total (zeros_in (lost_flags (length points.now) lost.now)))
        × Room (length points.now) (total (to_fill (merged (lost_flags (length points.now) lost.now) wrong.now))) lengths.now }
    requires answer_len { (length answer.old ≡ length received.now) × (length flags.old ≡ length points.now) }
    ensures { (answer.new ≡ filled (code_of field.now.degree points.now lengths.now) received.now
        (to_fill (merged (lost_flags (length points.now) lost.now) wrong.now)))
        × (flags.new ≡ merged (lost_flags (length points.now) lost.now) wrong.now) }
{
    let marks = merge_flags(lost, wrong, points.len());
    let mut own = [0u8; 384];
    fill_flagged(
        field,
        lengths,
        points,
        &marks[..points.len()],
        received,
        &mut own,
    );
    patch::copy(&own[..received.len()], answer);
    patch::copy(&marks[..points.len()], flags);
}
