// The checks of the calls on interleaved arrays, in order.
#![tactic(auto)]

ghost use Rattle.std.specs.Prelude.{◌≡◌, true, false, ◌↔◌, List, [], ◌∷◌, ◌++◌, ℕ, ◌*◌, ◌≤◌, length};
ghost use Rattle.refusal.specs.Refusal.{◌when◌, bad_degree, bad_points, first, some_outside, some_outside_field};
ghost use Rattle.refusal.specs.Numbers.{refused};
ghost use Rattle.poly.specs.Poly.{All};
ghost use Rattle.codes.specs.Code.{code_of, joint_limit, largest, total};
ghost use Rattle.codes.specs.Factors.{description_of};
ghost use Rattle.codes.specs.Checks.{array_checks_of, bad_factors, buffer_checks, code_checks, received_checks, shape_checks};
ghost use Rattle.codes.specs.Checks.{encode_checks, lost_checks, read_checks, remaining_checks};
ghost use Rattle.array_checks.specs.Working.{Sizes};

use field::Field;
use refusal::Refusal;

// For the crates above: the bytes of the working space that a decoding takes.
pub const SPACE: usize = 49152;

// For the crates above: the sum of the message lengths.
pub fn total(lengths: &[u8]) -> usize
    requires { length lengths.now ≤ 4 }
    ensures { result ≡ total lengths.now }
{
    lengths.iter().map(|k| usize::from(*k)).sum()
}

// For the crates above: the largest of the message lengths.
pub fn largest(lengths: &[u8]) -> usize
    ensures { result ≡ largest lengths.now }
{
    lengths.iter().fold(0, |most, k| most.max(usize::from(*k)))
}

// The number of symbols of an array.
fn cells(lengths: &[u8], points: &[u8]) -> usize
    requires { Sizes lengths.now points.now }
    ensures { result ≡ length lengths.now * length points.now }
{
    lengths.len() * points.len()
}

// The joint limit, of whatever degree the code is, where the largest length is known.
fn limit_from(lengths: &[u8], points: &[u8], most: usize) -> usize
    requires sizes { Sizes lengths.now points.now }
    requires most_value { most ≡ largest lengths.now }
    ensures { (d : ℕ) → result ≡ joint_limit (code_of d points.now lengths.now) }
{
    let spare = (cells(lengths, points) - total(lengths)) / (lengths.len() + 1);
    let short = points.len() - most;
    spare.min(short)
}

// For the crates above: the joint limit, of whatever degree the code is.
pub fn joint_limit(lengths: &[u8], points: &[u8]) -> usize
    requires { Sizes lengths.now points.now }
    ensures { (d : ℕ) → result ≡ joint_limit (code_of d points.now lengths.now) }
{
    limit_from(lengths, points, largest(lengths))
}

// For the crates above: the first of the checks 1 to 4 and 18 that applies, where so many points are the most.
pub fn code_refusal(most: usize, degree: u32, lengths: &[u8], points: &[u8]) -> Result<(), Refusal>
    ensures { refused result ≡ first (shape_checks most (code_of degree points.now lengths.now)) }
{
    if refusal::bad_degree(degree) {
        return Err(Refusal::Degree);
    }
    if refusal::outside(1, 4, lengths.len()) {
        return Err(Refusal::Rows);
    }
    if refusal::outside(1, most, points.len()) {
        return Err(Refusal::Columns);
    }
    let outside = refusal::some_outside(1, points.len(), lengths);
    let unchecked = refusal::is_in(points.len(), lengths);
    if outside {
        return Err(Refusal::Lengths);
    }
    if unchecked {
        return Err(Refusal::Unchecked);
    }
    Ok(())
}

// For the crates above: whether all factors are one. All of them are looked at, so that the loop vectorises.
pub fn all_ones(factors: &[u8]) -> bool
    ensures { (result ≡ true) ↔ All (λ (f : ℕ). f ≡ 1) factors.now }
{
    let mut bits = 0;
    for f in factors {
        bits |= *f ^ 1;
    }
    bits == 0
}

// Number 23 applies, a factor is outside the field or zero. Where all are known to be one, none is looked at.
fn bad_factors(degree: u32, factors: &[u8], ones: bool) -> bool
    requires degree_value { bad_degree degree ≡ false }
    requires all { ones ≡ true → All (λ (f : ℕ). f ≡ 1) factors.now }
    ensures { result ≡ bad_factors degree factors.now }
{
    if ones {
        return false;
    }
    refusal::some_outside(1, Field::size(degree) - 1, factors)
}

// The first of the checks 6 and 23 that applies.
#[tactic(auto, unfolding(refusal::specs::Refusal::first))]
fn known_refusal(degree: u32, points: &[u8], factors: &[u8], ones: bool) -> Result<(), Refusal>
    requires degree_value { bad_degree degree ≡ false }
    requires all { ones ≡ true → All (λ (f : ℕ). f ≡ 1) factors.now }
    ensures { refused result ≡ first ((6 when bad_points degree points.now)
        ∷ (23 when bad_factors degree factors.now) ∷ []) }
{
    if refusal::bad_points(degree, points) {
        return Err(Refusal::Points);
    }
    if bad_factors(degree, factors, ones) {
        return Err(Refusal::Factors);
    }
    Ok(())
}

// For the crates above: the first of the checks 6 and 23 that applies.
pub fn columns_refusal(degree: u32, points: &[u8], factors: &[u8]) -> Result<(), Refusal>
    requires { bad_degree degree ≡ false }
    ensures { refused result ≡ first ((6 when bad_points degree points.now)
        ∷ (23 when bad_factors degree factors.now) ∷ []) }
{
    known_refusal(degree, points, factors, all_ones(factors))
}

// For the crates above: check 7, if it applies.
#[tactic(auto, unfolding(refusal::specs::Refusal::first))]
pub fn symbols_refusal(degree: u32, symbols: &[u8]) -> Result<(), Refusal>
    ensures { refused result ≡ first ((7 when some_outside_field degree symbols.now) ∷ []) }
{
    if refusal::some_outside_field(degree, symbols) {
        return Err(Refusal::Symbols);
    }
    Ok(())
}

// The first of the checks 6, 23 and 7 that applies.
fn contents_refusal(
    degree: u32,
    points: &[u8],
    factors: &[u8],
    ones: bool,
    symbols: &[u8],
) -> Result<(), Refusal>
    requires degree_value { bad_degree degree ≡ false }
    requires all { ones ≡ true → All (λ (f : ℕ). f ≡ 1) factors.now }
    ensures { refused result ≡ first ((6 when bad_points degree points.now) ∷ (23 when bad_factors degree factors.now)
        ∷ (7 when some_outside_field degree symbols.now) ∷ []) }
{
    let of_columns = known_refusal(degree, points, factors, ones);
    let of_symbols = symbols_refusal(degree, symbols);
    of_columns.and(of_symbols)
}

// The first of the checks 1 to 7 that applies to a message and an array of these lengths, of which the symbols are the
// input.
fn buffers_refusal(
    degree: u32,
    lengths: &[u8],
    points: &[u8],
    factors: &[u8],
    message: usize,
    array: usize,
    symbols: &[u8],
) -> Result<(), Refusal>
    ensures { (m a : List ℕ) → length m ≡ message → length a ≡ array
        → refused result ≡ first (code_checks (code_of degree points.now lengths.now)
        ++ buffer_checks (description_of degree points.now factors.now lengths.now) m a
        symbols.now) }
{
    code_refusal(96, degree, lengths, points)?;
    if (message != total(lengths))
        | (array != cells(lengths, points))
        | (factors.len() != points.len())
    {
        return Err(Refusal::Buffers);
    }
    contents_refusal(degree, points, factors, all_ones(factors), symbols)
}

// For the crates above: the first check of encoding that applies. Of the array's buffer the checks read
// the length alone, its room.
pub fn encode_refusal(
    degree: u32,
    lengths: &[u8],
    points: &[u8],
    factors: &[u8],
    message: &[u8],
    room: usize,
) -> Result<(), Refusal>
    ensures { (a : List ℕ) → length a ≡ room
        → refused result ≡ first (encode_checks (description_of degree points.now factors.now lengths.now)
        message.now a) }
{
    buffers_refusal(
        degree,
        lengths,
        points,
        factors,
        message.len(),
        room,
        message,
    )
}

// For the crates above: the first of the checks 1 to 7 of reading that applies. Of the message's buffer
// the checks read the length alone, its room.
pub fn read_refusal(
    degree: u32,
    lengths: &[u8],
    points: &[u8],
    factors: &[u8],
    array: &[u8],
    room: usize,
) -> Result<(), Refusal>
    ensures { (m : List ℕ) → length m ≡ room
        → refused result ≡ first (read_checks (description_of degree points.now factors.now lengths.now)
        array.now m) }
{
    buffers_refusal(degree, lengths, points, factors, room, array.len(), array)
}

// The first of the checks 5, 6, 23 and 7 of decoding that applies, where arrays have so many cells. Of the buffers for
// the answer, the flags and the working space the checks read the lengths alone.
fn lent_refusal(
    cells: usize,
    degree: u32,
    points: &[u8],
    factors: &[u8],
    ones: bool,
    received: &[u8],
    answer: usize,
    flags: usize,
    space: usize,
) -> Result<(), Refusal>
    requires degree_value { bad_degree degree ≡ false }
    requires all { ones ≡ true → All (λ (f : ℕ). f ≡ 1) factors.now }
    ensures { (ks a f w : List ℕ) → length a ≡ answer → length f ≡ flags → length w ≡ space
        → refused result ≡ first (received_checks cells (description_of degree points.now factors.now ks)
        received.now a f w) }
{
    let n = points.len();
    if (received.len() != cells)
        | (answer != cells)
        | (flags != n)
        | (space < SPACE)
        | (factors.len() != n)
    {
        return Err(Refusal::Buffers);
    }
    contents_refusal(degree, points, factors, ones, received)
}

// For the crates above: the first of the checks 5, 6, 23 and 7 of decoding that applies, where arrays have so many cells.
// Of the buffers for the answer, the flags and the working space the checks read the lengths alone.
pub fn received_refusal(
    cells: usize,
    degree: u32,
    points: &[u8],
    factors: &[u8],
    received: &[u8],
    answer: usize,
    flags: usize,
    space: usize,
) -> Result<(), Refusal>
    requires { bad_degree degree ≡ false }
    ensures { (ks a f w : List ℕ) → length a ≡ answer → length f ≡ flags → length w ≡ space
        → refused result ≡ first (received_checks cells (description_of degree points.now factors.now ks)
        received.now a f w) }
{
    lent_refusal(
        cells,
        degree,
        points,
        factors,
        all_ones(factors),
        received,
        answer,
        flags,
        space,
    )
}

// The first of the checks 1 to 7 of decoding that applies. Of the buffers for the answer, the flags and the
// working space the checks read the lengths alone.
fn array_refusal(
    degree: u32,
    lengths: &[u8],
    points: &[u8],
    factors: &[u8],
    ones: bool,
    received: &[u8],
    answer: usize,
    flags: usize,
    space: usize,
) -> Result<(), Refusal>
    requires { ones ≡ true → All (λ (f : ℕ). f ≡ 1) factors.now }
    ensures { (a f w : List ℕ) → length a ≡ answer → length f ≡ flags → length w ≡ space
        → refused result ≡ first (array_checks_of (description_of degree points.now factors.now lengths.now)
        received.now a f w) }
{
    code_refusal(96, degree, lengths, points)?;
    lent_refusal(
        cells(lengths, points),
        degree,
        points,
        factors,
        ones,
        received,
        answer,
        flags,
        space,
    )
}

// For the crates above: the first of the checks 16, 17 and 8 that applies to lost columns of a code, of whatever degree.
pub fn remaining_refusal(
    lengths: &[u8],
    points: &[u8],
    limit: u32,
    lost: &[u8],
) -> Result<(), Refusal>
    requires lengths_len_bound { length lengths.now ≤ 4 }
    requires in_bounds { (1 ≤ length points.now) × (length points.now ≤ 96) }
    requires lengths_value { some_outside 1 (length points.now) lengths.now ≡ false }
    ensures { (d : ℕ)
        → refused result ≡ first (remaining_checks (code_of d points.now lengths.now) limit lost.now) }
{
    if refusal::bad_columns(points.len(), lost) {
        return Err(Refusal::LostColumns);
    }
    let left = points.len() - lost.len();
    let most = largest(lengths);
    if left < most {
        return Err(Refusal::TooFewLeft);
    }
    if limit_from(lengths, &points[..left], most) < limit as usize {
        return Err(Refusal::Limit);
    }
    Ok(())
}

// For the crates above: the first check of decoding with lost columns that applies. Of the buffers for the
// answer, the flags and the working space the checks read the lengths alone; the caller knows whether all factors are one.
pub fn lost_refusal(
    degree: u32,
    lengths: &[u8],
    points: &[u8],
    factors: &[u8],
    ones: bool,
    limit: u32,
    lost: &[u8],
    received: &[u8],
    answer: usize,
    flags: usize,
    space: usize,
) -> Result<(), Refusal>
    requires { ones ≡ true → All (λ (f : ℕ). f ≡ 1) factors.now }
    ensures { (a f w : List ℕ) → length a ≡ answer → length f ≡ flags → length w ≡ space
        → refused result ≡ first (lost_checks (description_of degree points.now factors.now lengths.now)
        limit lost.now received.now a f w) }
{
    array_refusal(
        degree, lengths, points, factors, ones, received, answer, flags, space,
    )?;
    remaining_refusal(lengths, points, limit, lost)
}
