// Sets of columns tried one after the other: every array that fits.
#![tactic(auto)]

ghost use Rattle.std.specs.Prelude.{◌≡◌, true, ◌↔◌, [], ◌∷◌, ◌-◌, ◌<◌, ◌≤◌, length, take};
ghost use Rattle.field.specs.Symbols.{times};
ghost use Rattle.codes.specs.Code.{CodeArray, code_of, differs, flag, flags_from};
ghost use Rattle.codes.specs.Factors.{description_of, with_factors};
ghost use Rattle.fitting.specs.Fitting.{sets, sets_of};
ghost use Rattle.fitting.specs.Working.{Arrays, Checked, Choosing, Keeping, Listing, Trying, TryingPlain, Turned};
ghost use Rattle.fitting.specs.Working.{FitsPlain, kept, most, under};

use field::Field;

// The flag of column i of two arrays of so many rows of n symbols: 1 if they differ there.
fn wrong_at(rows: usize, n: usize, i: usize, a: &[u8], b: &[u8]) -> u8
    requires { Arrays rows n a.now b.now × (i < n) }
    ensures { result ≡ flag (differs rows n i a.now b.now) }
{
    u8::from((0..rows).any(|row| a[row * n + i] != b[row * n + i]))
}

// Whether the set has just the columns in which two arrays of so many rows differ.
fn wrong_exactly(rows: usize, set: &[u8], a: &[u8], b: &[u8]) -> bool
    requires { Arrays rows (length set.now) a.now b.now }
    ensures { (result ≡ true)
        ↔ (flags_from (λ i. differs rows (length set.now) i a.now b.now) 0 (length set.now)
        ≡ set.now) }
{
    let n = set.len();
    set.iter()
        .enumerate()
        .all(|(i, flag)| wrong_at(rows, n, i, a, b) == *flag)
}

// Whether an array is a code array.
fn is_code(degree: u32, lengths: &[u8], points: &[u8], array: &[u8]) -> bool
    requires { Checked (code_of degree points.now lengths.now) }
    ensures { (result ≡ true) ↔ CodeArray (code_of degree points.now lengths.now) array.now }
{
    let ones = [1u8; 96];
    let mut message = [0u8; 384];
    let k = array_checks::total(lengths);
    mark::read(
        degree,
        lengths,
        points,
        &ones[..points.len()],
        array,
        &mut message[..k],
    )
    .is_ok()
}

// Fills the columns of the set from the others, at the front of own, and answers whether that is a code array that differs from the array
// in just these columns.
fn fits(
    field: &Field,
    lengths: &[u8],
    points: &[u8],
    array: &[u8],
    set: &[u8],
    own: &mut [u8],
) -> bool
    requires { TryingPlain (code_of field.now.degree points.now lengths.now) array.now set.now own.old }
    ensures { FitsPlain (code_of field.now.degree points.now lengths.now) array.now set.now
        own.new result }
{
    let mut marks = [0u8; 96];
    finish::flag_zeros(set, &mut marks);
    finish::fill(
        field,
        lengths,
        points,
        set,
        &marks[..points.len()],
        array,
        own,
    );
    if is_code(field.degree, lengths, points, &own[..array.len()]) {
        return wrong_exactly(lengths.len(), set, array, &own[..array.len()]);
    }
    false
}

// Multiplies an array of so many rows by the factors, and lays it in the room behind so many others, if the room reaches so far.
fn keep(degree: u32, factors: &[u8], rows: usize, array: &mut [u8], count: usize, room: &mut [u8])
    requires { Keeping degree factors.now rows array.old count }
    ensures { room.new
        ≡ kept count (with_factors (times degree) factors.now rows array.old) room.old }
{
    factors::multiply(degree, factors, rows, array);
    let at = count * array.len();
    if at + array.len() <= room.len() {
        rows::store(array, room, at);
    }
}

// Tries a set, with so many arrays found before it: the one that fits is laid in the room. Answers how many are found then.
#[inline(never)]
fn try_set(
    field: &Field,
    lengths: &[u8],
    points: &[u8],
    factors: &[u8],
    array: &[u8],
    set: &[u8],
    count: usize,
    room: &mut [u8],
) -> usize
    requires { Trying (description_of field.now.degree points.now factors.now lengths.now) array.now set.now count }
    ensures { Turned (description_of field.now.degree points.now factors.now lengths.now) array.now
        (set.now ∷ []) count room.old result room.new }
{
    let mut own = [0u8; 384];
    if fits(field, lengths, points, array, set, &mut own) {
        keep(
            field.degree,
            factors,
            lengths.len(),
            &mut own[..array.len()],
            count,
            room,
        );
        return count + 1;
    }
    count
}

// Tries the sets that have, of the columns before the next one, those of the set begun, and so many more from the next one on: first
// those with the next column, then those without it.
fn choose(
    field: &Field,
    lengths: &[u8],
    points: &[u8],
    factors: &[u8],
    array: &[u8],
    begun: [u8; 16],
    next: usize,
    more: usize,
    count: usize,
    room: &mut [u8],
) -> usize
    requires { Choosing (description_of field.now.degree points.now factors.now lengths.now) array.now begun next more count }
    ensures { Turned (description_of field.now.degree points.now factors.now lengths.now) array.now
        (under (take next begun) (sets_of more (length points.now - next))) count room.old result room.new }
{
    let n = points.len();
    if more == 0 {
        return try_set(
            field,
            lengths,
            points,
            factors,
            array,
            &begun[..n],
            count,
            room,
        );
    }
    if next == n {
        return count;
    }
    let fewer = more - 1;
    let mut with = begun;
    with[next] = 1;
    let found = choose(
        field,
        lengths,
        points,
        factors,
        array,
        with,
        next + 1,
        fewer,
        count,
        room,
    );
    choose(
        field,
        lengths,
        points,
        factors,
        array,
        begun,
        next + 1,
        more,
        found,
        room,
    )
}

// For the crates above: tries all sets of at most so many columns, smaller ones first, and lays what fits in the room. Answers how many
// arrays fit.
pub fn list(
    degree: u32,
    lengths: &[u8],
    points: &[u8],
    factors: &[u8],
    array: &[u8],
    limit: usize,
    room: &mut [u8],
) -> usize
    requires { Listing (description_of degree points.now factors.now lengths.now) array.now limit }
    ensures { Turned (description_of degree points.now factors.now lengths.now) array.now
        (sets limit (length points.now)) 0 room.old result room.new × (result ≤ most) }
{
    let field = Field::new(degree);
    let none = [0u8; 16];
    let mut count = 0;
    for size in 0..=limit {
        count = choose(
            &field, lengths, points, factors, array, none, 0, size, count, room,
        );
    }
    count
}
