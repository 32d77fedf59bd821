// Decoding Hermitian rings by their sectors.
#![tactic(auto)]

ghost use Rattle.std.specs.Prelude.{◌≡◌, List, ℕ};
ghost use Rattle.refusal.specs.Refusal.{first};
ghost use Rattle.finish.specs.Working.{released};
ghost use Rattle.joint.specs.Promises as Joint;
ghost use Rattle.hermitian.specs.Ring.{ring_of};
ghost use Rattle.hermitian.specs.Checks.{lost_checks};
ghost use Rattle.sectors.specs.Promises.{Decodes};
ghost use Rattle.sectors.specs.Lost.{DecodesLost, LostRingEnds};
ghost use Rattle.sectors.specs.Working.{AnswerGiven};

use ending::Ending;
use ring::carry;
use ring_checks::{checks, shape};

// Carries the answer of the array's decoding back to the ring lent, on `corrected` alone.
fn carry_back(ending: Ending, q: u32, own: &[u8], answer: &mut [u8])
    requires { AnswerGiven ending q own.now answer.old }
    ensures { (f : List ℕ) → Joint.buffers answer.new f
        ≡ released ending (Joint.buffers (ring_of q own.now) f) (Joint.buffers answer.old f) }
{
    if let Ending::Corrected(_) = ending {
        carry::to_ring(q, own, answer);
    }
}

// Decodes a ring that passed the checks: its array, with the answer carried back. The lost sectors are the array's lost columns.
fn decode_ring(
    q: u32,
    m: u32,
    limit: u32,
    lost: &[u8],
    received: &[u8],
    answer: &mut [u8],
    flags: &mut [u8],
    space: &mut [u8],
) -> Ending
    requires { 0 ≡ first (lost_checks q m limit lost.now received.now answer.old flags.old space.old) }
    ensures { LostRingEnds q m limit lost.now received.now
        (Joint.buffers answer.old flags.old) result (Joint.buffers answer.new flags.new)
        × (space.new ≡ Joint.cleared space.old) }
{
    let n = shape::side(q);
    let ks = shape::lengths(q, m);
    let xs = shape::columns(q);
    let ones = [1u8; 16];
    let array = carry::array_of(q, received);
    let mut own = [0u8; 64];
    let ending = joint::decode_lost(
        q,
        &ks[..n],
        &xs[..n * n],
        &ones[..n * n],
        limit,
        lost,
        &array[..received.len()],
        &mut own[..received.len()],
        flags,
        space,
    );
    carry_back(ending, q, &own[..received.len()], answer);
    ending
}

// Decodes a received ring of which some sectors are lost: refusals 10, 11, 18, 5, 7, 16, 17 and 8, which touch nothing; else the ending
// of the remaining sectors, on `corrected` with the whole word and its flags written, 2 at the lost sectors, and in every case with
// the first 49,152 bytes of the working space zero.
pub fn decode_lost(
    q: u32,
    m: u32,
    limit: u32,
    lost: &[u8],
    received: &[u8],
    answer: &mut [u8],
    flags: &mut [u8],
    space: &mut [u8],
) -> Ending
    ensures { DecodesLost lost.now
        q m limit received.now (Joint.buffers answer.old flags.old) space.old
        (Joint.left result (Joint.buffers answer.new flags.new) space.new) }
{
    if let Err(refused) = checks::lost_refusal(
        q,
        m,
        limit,
        lost,
        received,
        answer.len(),
        flags.len(),
        space.len(),
    ) {
        return Ending::Refused(refused);
    }
    decode_ring(q, m, limit, lost, received, answer, flags, space)
}

// Decodes a received ring: refusals 10, 11, 18, 5, 7 and 8, which touch nothing; else the ending, on `corrected` with the word and
// the flags of its wrong sectors written, and in every case with the first 49,152 bytes of the working space zero.
pub fn decode(
    q: u32,
    m: u32,
    limit: u32,
    received: &[u8],
    answer: &mut [u8],
    flags: &mut [u8],
    space: &mut [u8],
) -> Ending
    ensures { Decodes
        q m limit received.now (Joint.buffers answer.old flags.old) space.old
        (Joint.left result (Joint.buffers answer.new flags.new) space.new) }
{
    decode_lost(q, m, limit, &[], received, answer, flags, space)
}
