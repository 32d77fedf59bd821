// One weak row read as several: its powers, decoded jointly.
#![tactic(auto)]

ghost use Rattle.std.specs.Prelude.{◌≡◌, List, ℕ};
ghost use Rattle.patch.specs.Parts.{lay};
ghost use Rattle.refusal.specs.Refusal.{first};
ghost use Rattle.field.specs.Symbols.{times};
ghost use Rattle.codes.specs.Factors.{with_factors};
ghost use Rattle.ending.specs.Endings.{Ends};
ghost use Rattle.finish.specs.Working.{released};
ghost use Rattle.joint.specs.Promises.{buffers, cleared, left};
ghost use Rattle.power_checks.specs.Powers.{power_code, power_rows};
ghost use Rattle.power_checks.specs.Checks.{decode_checks};
ghost use Rattle.powers.specs.Promises.{Decodes, EndsAs};
ghost use Rattle.powers.specs.Working.{Giving, Raising, Ready};

use array_checks::SPACE;
use ending::Ending;
use field::Field;

// Writes the powers of a row, from the first on, one after the other at the front of rows.
fn raise(field: &Field, powers: usize, row: &[u8], rows: &mut [u8])
    requires { Raising field.now.degree powers row.now rows.old }
    ensures { rows.new ≡ lay 0 (power_rows field.now.degree powers row.now) rows.old }
{
    let mut power = [0u8; 96];
    rows::store(row, &mut power, 0);
    let mut at = 0;
    for _ in 0..powers {
        rows::store(&power[..row.len()], rows, at);
        lists::multiply(field, row, 0, &mut power, 0, 0);
        at += row.len();
    }
}

// Decodes the powers of a row jointly, with factors of one; the answer of all rows is own. The field is worked out once for both.
fn decode_rows(
    degree: u32,
    k: u32,
    powers: u32,
    points: &[u8],
    limit: u32,
    row: &[u8],
    own: &mut [u8],
    flags: &mut [u8],
    space: &mut [u8],
) -> Ending
    requires { Ready degree k powers points.now limit row.now own.old flags.old space.old }
    ensures { Ends (power_code degree points.now k powers) (power_rows degree powers row.now) limit
        (buffers own.old flags.old) result (buffers own.new flags.new)
        × (space.new ≡ cleared space.old) }
{
    let field = Field::new(degree);
    let ks = power_checks::lengths(k, powers);
    let ones = [1u8; 96];
    let mut rows = [0u8; 384];
    raise(&field, powers as usize, row, &mut rows);
    let ending = joint::decode_struck(
        &field,
        &ks[..powers as usize],
        points,
        &[],
        &ones[..points.len()],
        true,
        limit,
        &[],
        &rows[..own.len()],
        own,
        flags,
        &mut space[..SPACE],
    );
    rows::clear(space, 0, SPACE);
    ending
}

// Gives the row back, times the factors, on `corrected` alone.
fn give(ending: Ending, degree: u32, factors: &[u8], row: &[u8], answer: &mut [u8])
    requires { Giving ending degree factors.now row.now answer.old }
    ensures { (f : List ℕ) → buffers answer.new f
        ≡ released ending (buffers (with_factors (times degree) factors.now 1 row.now) f)
        (buffers answer.old f) }
{
    if let Ending::Corrected(_) = ending {
        patch::copy(row, answer);
        factors::multiply(degree, factors, 1, answer);
    }
}

// Decodes a row that passed the checks: the powers of its quotient, with the first row of their answer multiplied back.
fn work(
    degree: u32,
    k: u32,
    powers: u32,
    points: &[u8],
    factors: &[u8],
    limit: u32,
    received: &[u8],
    answer: &mut [u8],
    flags: &mut [u8],
    space: &mut [u8],
) -> Ending
    requires { 0 ≡ first (decode_checks degree k powers points.now factors.now limit received.now answer.old flags.old
        space.old) }
    ensures { EndsAs
        degree k powers points.now factors.now limit received.now
        (buffers answer.old flags.old)
        result (buffers answer.new flags.new)
        × (space.new ≡ cleared space.old) }
{
    let n = points.len();
    let cells = powers as usize * n;
    let mut row = [0u8; 96];
    let mut own = [0u8; 384];
    factors::divide(degree, factors, 1, received, &mut row);
    let ending = decode_rows(
        degree,
        k,
        powers,
        points,
        limit,
        &row[..n],
        &mut own[..cells],
        flags,
        space,
    );
    give(ending, degree, factors, &own[0..n], answer);
    ending
}

// Decodes a received row as so many powers of it: refusals 1, 3, 20, 4, 18, 5, 6, 23, 7 and 8, which touch nothing; else the ending of
// joint decoding, on `corrected` with the row and the flags of its wrong symbols written, and in every case with the first 49,152 bytes
// of the working space zero.
pub fn decode(
    degree: u32,
    k: u32,
    powers: u32,
    points: &[u8],
    factors: &[u8],
    limit: u32,
    received: &[u8],
    answer: &mut [u8],
    flags: &mut [u8],
    space: &mut [u8],
) -> Ending
    ensures { Decodes
        degree k powers points.now factors.now limit received.now
        (buffers answer.old flags.old) space.old
        (left result (buffers answer.new flags.new) space.new) }
{
    if let Err(refused) = power_checks::decode_refusal(
        degree,
        k,
        powers,
        points,
        factors,
        limit,
        received,
        answer.len(),
        flags.len(),
        space.len(),
    ) {
        return Ending::Refused(refused);
    }
    work(
        degree, k, powers, points, factors, limit, received, answer, flags, space,
    )
}
