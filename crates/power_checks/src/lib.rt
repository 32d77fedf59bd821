// The message lengths of the powers of a row, and the checks of the decoding of powers.
#![tactic(auto)]

ghost use Rattle.std.specs.Prelude.{◌≡◌, List, [], ◌∷◌, ℕ, length, take};
ghost use Rattle.refusal.specs.Refusal.{◌when◌, first, is_in, some_outside};
ghost use Rattle.refusal.specs.Numbers.{refused};
ghost use Rattle.power_checks.specs.Powers.{power_length, power_lengths};
ghost use Rattle.power_checks.specs.Checks.{counted_lengths, decode_checks, shape_checks};
ghost use Rattle.power_checks.specs.Working.{Countable, Counted, Short};

use refusal::Refusal;

// The message length of the power i.
fn length(k: u32, i: usize) -> usize
    requires { Countable k i }
    ensures { result ≡ power_length k i }
{
    i * (k as usize - 1) + 1
}

// For the crates above: the message lengths of the powers, of which as many count as there are powers.
pub fn lengths(k: u32, powers: u32) -> [u8; 4]
    requires { Short k powers }
    ensures { take powers result ≡ power_lengths k powers }
{
    let mut ks = [0u8; 4];
    for i in 0..powers as usize {
        ks[i] = length(k, i + 1) as u8;
    }
    ks
}

// Refuses by the first of the checks 4 and 18 that applies: of k and powers that are within their limits, the largest length
// decides.
fn length_refusal(n: usize, k: u32, powers: u32) -> Result<(), Refusal>
    requires { Counted n k powers }
    ensures { refused result
        ≡ first ((4 when some_outside 1 n (counted_lengths k powers)) ∷ (18 when is_in n (counted_lengths k powers)) ∷ []) }
{
    let longest = length(k, powers as usize);
    if n == longest {
        return Err(Refusal::Unchecked);
    }
    if n < longest {
        return Err(Refusal::Lengths);
    }
    Ok(())
}

// Refuses by the first of the checks 1, 3, 20, 4 and 18 that applies.
fn code_refusal(degree: u32, n: usize, k: u32, powers: u32) -> Result<(), Refusal>
    ensures { refused result ≡ first (shape_checks degree n k powers) }
{
    if refusal::bad_degree(degree) {
        return Err(Refusal::Degree);
    }
    if refusal::outside(1, 96, n) {
        return Err(Refusal::Columns);
    }
    let no_powers = refusal::outside(1, 4, powers as usize);
    let no_length = refusal::outside(1, n, k as usize);
    if no_powers {
        return Err(Refusal::Powers);
    }
    if no_length {
        return Err(Refusal::Lengths);
    }
    length_refusal(n, k, powers)
}

// For the crates above: refuses by the first check that applies. Of the buffers for the answer, the flags and the working space the
// checks read the lengths alone.
pub fn decode_refusal(
    degree: u32,
    k: u32,
    powers: u32,
    points: &[u8],
    factors: &[u8],
    limit: u32,
    received: &[u8],
    answer: usize,
    flags: usize,
    space: usize,
) -> Result<(), Refusal>
    ensures { (a f w : List ℕ) → length a ≡ answer → length f ≡ flags → length w ≡ space
        → refused result ≡ first (decode_checks degree k powers points.now factors.now limit received.now a f w) }
{
    code_refusal(degree, points.len(), k, powers)?;
    array_checks::received_refusal(
        points.len(),
        degree,
        points,
        factors,
        received,
        answer,
        flags,
        space,
    )?;
    let ks = lengths(k, powers);
    array_checks::remaining_refusal(&ks[..powers as usize], points, limit, &[])
}
