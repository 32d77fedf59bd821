// For the crates above: the checks of the calls on rings, in order.
ghost use Rattle.std.specs.Prelude.{◌≡◌, false, List, ◌++◌, ℕ, length};
ghost use Rattle.refusal.specs.Refusal.{first};
ghost use Rattle.refusal.specs.Numbers.{refused};
ghost use Rattle.codes.specs.Code.{total};
ghost use Rattle.codes.specs.Checks.{remaining_checks, unchecked};
ghost use Rattle.hermitian.specs.Ring.{ring_code, ring_lengths};
ghost use Rattle.hermitian.specs.Checks.{bad_order, bad_size, buffer_checks, encode_checks, lost_checks, read_checks};
ghost use Rattle.hermitian.specs.Checks.{received_checks, ring_checks};
ghost use Rattle.hermitian.proofs.Passed.{Passed};

use crate::shape;
use refusal::Refusal;

// Number 10 applies, q is not 2 or 4.
#[tactic(auto, unfolding(hermitian::specs::Checks::bad_size))]
fn bad_size(q: u32) -> bool
    ensures { result ≡ bad_size q }
{
    !matches!(q, 2 | 4)
}

// Number 11 applies, m is not q² − 1 to q³ − 1.
#[tactic(auto, unfolding(hermitian::specs::Checks::bad_size, hermitian::specs::Checks::bad_order))]
fn bad_order(q: u32, m: u32) -> bool
    requires { bad_size q ≡ false }
    ensures { result ≡ bad_order q m }
{
    let n = shape::side(q);
    refusal::outside(n * n - 1, n * n * n - 1, m as usize)
}

// Number 18 applies, some message length of H(m) is the number of columns: the first, which is the longest.
#[tactic(auto, unfolding(hermitian::specs::Checks::bad_size), using(hermitian::proofs::Sizes::first_judged))]
fn unchecked(q: u32, m: u32) -> bool
    requires q_value { bad_size q ≡ false }
    requires m_value { bad_order q m ≡ false }
    ensures { result ≡ unchecked (ring_code q m) }
{
    let n = shape::side(q);
    n * n == usize::from(shape::length(q, m, 0))
}

// The first of the checks 10, 11 and 18 that applies.
#[tactic(auto, unfolding(refusal::specs::Refusal::first))]
pub fn ring_refusal(q: u32, m: u32) -> Result<(), Refusal>
    ensures { refused result ≡ first (ring_checks q m) }
{
    if bad_size(q) {
        return Err(Refusal::RingSize);
    }
    if bad_order(q, m) {
        return Err(Refusal::RingOrder);
    }
    if unchecked(q, m) {
        return Err(Refusal::Unchecked);
    }
    Ok(())
}

// The sum of the message lengths of H(m).
#[tactic(auto, unfolding(hermitian::specs::Checks::bad_size))]
pub fn total(q: u32, m: u32) -> usize
    requires { Passed q m }
    ensures { result ≡ total (ring_lengths q m) }
{
    let ks = shape::lengths(q, m);
    array_checks::total(&ks[..shape::side(q)])
}

// The first of the checks 16, 17 and 8 that applies to lost sectors of H(m).
#[tactic(auto, unfolding(hermitian::specs::Checks::bad_size))]
fn remaining_refusal(q: u32, m: u32, limit: u32, lost: &[u8]) -> Result<(), Refusal>
    requires { Passed q m }
    ensures { refused result ≡ first (remaining_checks (ring_code q m) limit lost.now) }
{
    let n = shape::side(q);
    let ks = shape::lengths(q, m);
    let xs = shape::columns(q);
    array_checks::remaining_refusal(&ks[..n], &xs[..n * n], limit, lost)
}

// The first of the checks 10, 11, 18, 5 and 7 that applies to a message and a word of these lengths, of which the symbols are the
// input.
fn buffers_refusal(
    q: u32,
    m: u32,
    message: usize,
    word: usize,
    symbols: &[u8],
) -> Result<(), Refusal>
    ensures { (f w : List ℕ) → length f ≡ message → length w ≡ word
        → refused result ≡ first (ring_checks q m ++ buffer_checks q m f w symbols.now) }
{
    ring_refusal(q, m)?;
    let n = shape::side(q);
    if (message != total(q, m)) | (word != n * n * n) {
        return Err(Refusal::Buffers);
    }
    if refusal::some_outside_field(q, symbols) {
        return Err(Refusal::Symbols);
    }
    Ok(())
}

// The first check of encoding that applies. Of the word's buffer the checks read the length alone, its room.
pub fn encode_refusal(q: u32, m: u32, message: &[u8], room: usize) -> Result<(), Refusal>
    ensures { (w : List ℕ) → length w ≡ room → refused result ≡ first (encode_checks q m message.now w) }
{
    buffers_refusal(q, m, message.len(), room, message)
}

// The first of the checks of reading but 9 that applies. Of the message's buffer the checks read the length alone, its room.
pub fn read_refusal(q: u32, m: u32, word: &[u8], room: usize) -> Result<(), Refusal>
    ensures { (f : List ℕ) → length f ≡ room → refused result ≡ first (read_checks q m word.now f) }
{
    buffers_refusal(q, m, room, word.len(), word)
}

// The first of the checks 5 and 7 of decoding that applies, where there are to be so many flags. Of the buffers for the answer, the
// flags and the working space the checks read the lengths alone.
#[tactic(auto, unfolding(refusal::specs::Refusal::first, hermitian::specs::Checks::bad_size))]
pub fn received_refusal(
    q: u32,
    count: usize,
    received: &[u8],
    answer: usize,
    flags: usize,
    space: usize,
) -> Result<(), Refusal>
    requires { bad_size q ≡ false }
    ensures { (w f s : List ℕ) → length w ≡ answer → length f ≡ flags → length s ≡ space
        → refused result ≡ first (received_checks q count received.now w f s) }
{
    let n = shape::side(q);
    let symbols = n * n * n;
    if (received.len() != symbols)
        | (answer != symbols)
        | (flags != count)
        | (space < array_checks::SPACE)
    {
        return Err(Refusal::Buffers);
    }
    if refusal::some_outside_field(q, received) {
        return Err(Refusal::Symbols);
    }
    Ok(())
}

// The first check of decoding with lost sectors that applies. Of the buffers for the answer, the flags and the working space the
// checks read the lengths alone.
pub fn lost_refusal(
    q: u32,
    m: u32,
    limit: u32,
    lost: &[u8],
    received: &[u8],
    answer: usize,
    flags: usize,
    space: usize,
) -> Result<(), Refusal>
    ensures { (w f s : List ℕ) → length w ≡ answer → length f ≡ flags → length s ≡ space
        → refused result ≡ first (lost_checks q m limit lost.now received.now w f s) }
{
    ring_refusal(q, m)?;
    let n = shape::side(q);
    received_refusal(q, n * n, received, answer, flags, space)?;
    remaining_refusal(q, m, limit, lost)
}
