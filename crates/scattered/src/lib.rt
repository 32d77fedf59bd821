// Pits scattered over a ring: a decoding that counts wrong symbols.
#![tactic(auto)]

ghost use Rattle.std.specs.Prelude.{◌≡◌, true, ◌↔◌, List, ℕ, ◌+◌, ◌*◌, ◌≤◌, ◌<◌, length};
ghost use Rattle.refusal.specs.Refusal.{first};
ghost use Rattle.refusal.specs.Numbers.{refused};
ghost use Rattle.codes.specs.Code.{flags_from, total};
ghost use Rattle.joint.specs.Promises.{buffers, left};
ghost use Rattle.hermitian.specs.Ring.{IsRing, RingWord};
ghost use Rattle.hermitian.specs.Pits.{bad_limit, genus, pit_checks, wrong_at};
ghost use Rattle.hermitian.proofs.Passed.{Passed};
ghost use Rattle.scattered.specs.Promises.{Decodes, PitEnds};
ghost use Rattle.curve.proofs.Model.{answer};
ghost use Rattle.scattered.specs.Working.{Answerable, Judged};

use array_checks::SPACE;
use ending::Ending;
use refusal::Refusal;
use ring_checks::{checks, shape};

// Number 19 applies, the limit is above (q³ − m − 1 − g)/2, or that is below zero.
fn bad_limit(q: u32, m: u32, limit: u32) -> bool
    requires { Passed q m }
    ensures { result ≡ bad_limit q m limit }
{
    let n = shape::side(q);
    let least = m as usize + 1 + n * (n - 1) / 2;
    if n * n * n < least {
        return true;
    }
    (n * n * n - least) / 2 < limit as usize
}

// The first check that applies. Of the buffers for the answer, the flags and the working space the checks read the lengths alone.
fn decode_refusal(
    q: u32,
    m: u32,
    limit: u32,
    received: &[u8],
    answer: usize,
    flags: usize,
    space: usize,
) -> Result<(), Refusal>
    ensures { (w f s : List ℕ) → length w ≡ answer → length f ≡ flags → length s ≡ space
        → refused result ≡ first (pit_checks q m limit received.now w f s) }
{
    checks::ring_refusal(q, m)?;
    let n = shape::side(q);
    checks::received_refusal(q, n * n * n, received, answer, flags, space)?;
    if bad_limit(q, m, limit) {
        return Err(Refusal::PitLimit);
    }
    Ok(())
}

// Flags the symbols in which two rings differ; answers how many there are.
fn flag_wrong(v: &[u8], w: &[u8], flags: &mut [u8]) -> usize
    requires { (length w.now ≡ length v.now) × (length flags.old ≡ length v.now) }
    ensures { (flags.new ≡ flags_from (wrong_at v.now w.now) 0 (length v.now))
        × (result ≡ total flags.new) }
{
    let mut count = 0;
    for (i, flag) in flags.iter_mut().enumerate() {
        let wrong = v[i] != w[i];
        *flag = u8::from(wrong);
        count += usize::from(wrong);
    }
    count
}

// Whether a ring is a word of H(m).
fn is_word(q: u32, m: u32, ring: &[u8]) -> bool
    requires { Passed q m × IsRing q ring.now }
    ensures { (result ≡ true) ↔ RingWord q m ring.now }
{
    let mut message = [0u8; 64];
    let k = checks::total(q, m);
    ring::read(q, m, ring, &mut message[..k]).is_ok()
}

// Writes what the two runs answer to a ring. To a word they answer that word, and are not made.
fn find(q: u32, m: u32, received: &[u8], own: &mut [u8])
    requires { Passed q m × IsRing q received.now × (length own.old ≡ length received.now) × ¬ (q * q * q < m + 1 + genus q) }
    ensures { own.new ≡ answer q m received.now }
{
    if is_word(q, m, received) {
        own.copy_from_slice(received);
        return;
    }
    let ys = shape::ordinates(q);
    pits::answer(q, m, &ys[..received.len()], received, own);
}

// How a ring ends for which the two runs found `own`, wrong in so many symbols: `corrected` if it is a word, and within the limit.
fn judge(q: u32, m: u32, limit: u32, count: usize, own: &[u8]) -> Ending
    requires { Passed q m × IsRing q own.now × (count ≤ 64) }
    ensures { Judged q m limit count own.now result }
{
    if (limit as usize) < count {
        return Ending::Nothing;
    }
    if is_word(q, m, own) {
        return Ending::Corrected(count as u8);
    }
    Ending::Nothing
}

// Decodes a ring that passed the checks: if what the two runs answer is a word within the limit, that is the answer; else there is none.
fn mend(q: u32, m: u32, limit: u32, received: &[u8], answer: &mut [u8], flags: &mut [u8]) -> Ending
    requires { Answerable q m limit received.now answer.old flags.old }
    ensures { PitEnds q m limit received.now (buffers answer.old flags.old) result
        (buffers answer.new flags.new) }
{
    let n = received.len();
    let mut own = [0u8; 64];
    let mut wrong = [0u8; 64];
    find(q, m, received, &mut own[..n]);
    let count = flag_wrong(received, &own[..n], &mut wrong[..n]);
    let ending = judge(q, m, limit, count, &own[..n]);
    joint::release(ending, &own[..n], &wrong[..n], answer, flags);
    ending
}

// Decodes a received ring by its wrong symbols: refusals 10, 11, 18, 5, 7 and 19, which touch nothing; else `corrected` with the one word
// within the limit and the flags of its wrong symbols written, or `none` with nothing written, and in either case with the first
// 49,152 bytes of the working space zero.
pub fn decode(
    q: u32,
    m: u32,
    limit: u32,
    received: &[u8],
    answer: &mut [u8],
    flags: &mut [u8],
    space: &mut [u8],
) -> Ending
    ensures { Decodes
        q m limit received.now (buffers answer.old flags.old) space.old
        (left result (buffers answer.new flags.new) space.new) }
{
    if let Err(refused) = decode_refusal(
        q,
        m,
        limit,
        received,
        answer.len(),
        flags.len(),
        space.len(),
    ) {
        return Ending::Refused(refused);
    }
    rows::clear(space, 0, SPACE);
    mend(q, m, limit, received, answer, flags)
}
