// Joint decoding of interleaved arrays.
#![tactic(auto)]

ghost use Rattle.std.specs.Prelude.{◌≡◌, true, List, ℕ, ◌≤◌, length, take};
ghost use Rattle.field.specs.Symbols.{times};
ghost use Rattle.poly.specs.Poly.{All};
ghost use Rattle.codes.specs.Code.{code_of, columns, joint_limit};
ghost use Rattle.codes.specs.Factors.{description_of, with_factors};
ghost use Rattle.codes.specs.Lost.{core};
ghost use Rattle.codes.proofs.Factors.{Factors};
ghost use Rattle.factors.specs.Working.{Striking};
ghost use Rattle.ending.specs.Working.{Ready};
ghost use Rattle.ending.specs.Endings.{Ends};
ghost use Rattle.ending.specs.declared.Ending.TheVariants.{Corrected};
ghost use Rattle.joint.specs.Promises.{Decodes, buffers, given, left, on_corrected};
ghost use Rattle.joint.specs.Lost.{DecodesLost, LostEnds};
ghost use Rattle.finish.specs.Working.{released};
ghost use Rattle.conditions.specs.Working.{MayHave};
ghost use Rattle.joint.specs.Working.{ReadyLost, RestEnds, StruckEnds};

use array_checks::SPACE;
use ending::Ending;
use field::Field;

// For the crates above too: releases the answer and its flags to the buffers lent, on `corrected` alone.
pub fn release(ending: Ending, own: &[u8], wrong: &[u8], answer: &mut [u8], flags: &mut [u8])
    requires { (length own.now ≡ length answer.old) × (length wrong.now ≡ length flags.old) }
    ensures { buffers answer.new flags.new
        ≡ released ending (buffers own.now wrong.now) (buffers answer.old flags.old) }
{
    if let Ending::Corrected(_) = ending {
        patch::copy(own, answer);
        patch::copy(wrong, flags);
    }
}

// Decodes a whole array, for a call that passed its checks; ws is empty or has the inverses of the longest row's rounds.
fn work_whole(
    field: &Field,
    lengths: &[u8],
    points: &[u8],
    ws: &[u8],
    limit: u32,
    received: &[u8],
    answer: &mut [u8],
    flags: &mut [u8],
    space: &mut [u8],
) -> Ending
    requires ready { Ready (code_of field.now.degree points.now lengths.now) received.now
        × (limit ≤ joint_limit (code_of field.now.degree points.now lengths.now)) }
    requires answer_len { (length answer.old ≡ length received.now) × (length flags.old ≡ length points.now)
        × (3840 ≤ length space.old) }
    requires inverses { MayHave field.now.degree points.now lengths.now ws.now }
    ensures { Ends (code_of field.now.degree points.now lengths.now) received.now limit
        (buffers answer.old flags.old) result (buffers answer.new flags.new) }
{
    let mut held = [0u8; 96];
    let mut wrong = [0u8; 96];
    let mut own = [0u8; 384];
    patch::copy(points, &mut held);
    let ending = judging::end(
        field,
        lengths,
        &held[..points.len()],
        ws,
        limit,
        received,
        &mut own,
        &mut wrong,
        space,
    );
    release(
        ending,
        &own[..received.len()],
        &wrong[..points.len()],
        answer,
        flags,
    );
    ending
}

// How the decoding of the remaining columns ends; on `corrected` with the flags of the wrong ones at the front of `wrong`.
fn decode_rest(
    field: &Field,
    lengths: &[u8],
    points: &[u8],
    limit: u32,
    lost: &[u8],
    received: &[u8],
    wrong: &mut [u8],
    space: &mut [u8],
) -> Ending
    requires ready_lost { ReadyLost (code_of field.now.degree points.now lengths.now) limit lost.now received.now
        × (3840 ≤ length space.old) × (length wrong.old ≡ 96) }
    ensures { RestEnds (code_of field.now.degree points.now lengths.now) lost.now
        received.now limit result
        (take (columns (core (code_of field.now.degree points.now lengths.now) lost.now)) wrong.new)
        × (length wrong.new ≡ 96) }
{
    let gone = remaining::lost_flags(lost);
    let mut held = [0u8; 96];
    let mut kept = [0u8; 384];
    let mut own = [0u8; 384];
    let n = finish::gather(&gone[..points.len()], points, &mut held);
    remaining::gather_rows(&gone[..points.len()], lengths, received, &mut kept);
    let cells = lengths.len() * n;
    work_whole(
        field,
        lengths,
        &held[..n],
        &[],
        limit,
        &kept[..cells],
        &mut own[..cells],
        &mut wrong[..n],
        space,
    )
}

// Decodes, for a call that passed its checks, with whatever columns lost; ws is empty or has the inverses of the
// longest row's rounds, of all columns.
fn work_lost(
    field: &Field,
    lengths: &[u8],
    points: &[u8],
    ws: &[u8],
    limit: u32,
    lost: &[u8],
    received: &[u8],
    answer: &mut [u8],
    flags: &mut [u8],
    space: &mut [u8],
) -> Ending
    requires ready_lost { ReadyLost (code_of field.now.degree points.now lengths.now) limit lost.now received.now
        × (3840 ≤ length space.old) }
    requires answer_len { (length answer.old ≡ length received.now) × (length flags.old ≡ length points.now) }
    requires inverses { MayHave field.now.degree points.now lengths.now ws.now }
    ensures { LostEnds (code_of field.now.degree points.now lengths.now) lost.now received.now limit
        (buffers answer.old flags.old) result (buffers answer.new flags.new) }
{
    if lost.is_empty() {
        return work_whole(
            field, lengths, points, ws, limit, received, answer, flags, space,
        );
    }
    let mut wrong = [0u8; 96];
    let ending = decode_rest(
        field, lengths, points, limit, lost, received, &mut wrong, space,
    );
    if let Ending::Corrected(_) = ending {
        let left = points.len() - lost.len();
        remaining::complete(
            field,
            lengths,
            points,
            lost,
            &wrong[..left],
            received,
            answer,
            flags,
        );
    }
    ending
}

// Multiplies the answer, of r rows, by the factors, on `corrected` alone.
fn strike(ending: Ending, degree: u32, factors: &[u8], r: usize, answer: &mut [u8])
    requires { (w : ℕ) → ending ≡ Corrected w → Striking degree factors.now r answer.old }
    ensures { (f : List ℕ) → buffers answer.new f
        ≡ on_corrected (with_factors (times degree) factors.now r) ending (buffers answer.old f) }
{
    if let Ending::Corrected(_) = ending {
        factors::multiply(degree, factors, r, answer);
    }
}

// For the crates above: decodes what was struck with these factors, for a call that passed its checks: the quotient, with the answer
// multiplied back. Where all factors are known to be one there is nothing to divide. ws is empty or has the inverses of the longest row's
// rounds. What stands in the space is not read, and is not cleared.
pub fn decode_struck(
    field: &Field,
    lengths: &[u8],
    points: &[u8],
    ws: &[u8],
    factors: &[u8],
    ones: bool,
    limit: u32,
    lost: &[u8],
    received: &[u8],
    answer: &mut [u8],
    flags: &mut [u8],
    space: &mut [u8],
) -> Ending
    requires ready_lost { ReadyLost (code_of field.now.degree points.now lengths.now) limit lost.now received.now
        × (3840 ≤ length space.old) }
    requires answer_len { (length answer.old ≡ length received.now) × (length flags.old ≡ length points.now) }
    requires inverses { MayHave field.now.degree points.now lengths.now ws.now }
    requires factors { Factors (description_of field.now.degree points.now factors.now lengths.now) }
    requires all { ones ≡ true → All (λ (f : ℕ). f ≡ 1) factors.now }
    ensures { StruckEnds (description_of field.now.degree points.now factors.now lengths.now)
        lost.now
        received.now limit (buffers answer.old flags.old) result
        (buffers answer.new flags.new) }
{
    if ones {
        if lost.is_empty() {
            return work_whole(
                field, lengths, points, ws, limit, received, answer, flags, space,
            );
        }
        return work_lost(
            field, lengths, points, ws, limit, lost, received, answer, flags, space,
        );
    }
    let mut plain = [0u8; 384];
    factors::divide(field.degree, factors, lengths.len(), received, &mut plain);
    let ending = work_lost(
        field,
        lengths,
        points,
        ws,
        limit,
        lost,
        &plain[..received.len()],
        answer,
        flags,
        space,
    );
    strike(ending, field.degree, factors, lengths.len(), answer);
    ending
}

// Decodes a received array of which some columns are lost: refusals 1 to 7, 18 behind 4 and 23 behind 6, 16, 17 and 8, which touch
// nothing; else the ending of the array of the remaining columns, on `corrected` with the whole answer and its flags written, 2 at
// the lost columns, and in every case with the first 49,152 bytes of the working space zero.
pub fn decode_lost(
    degree: u32,
    lengths: &[u8],
    points: &[u8],
    factors: &[u8],
    limit: u32,
    lost: &[u8],
    received: &[u8],
    answer: &mut [u8],
    flags: &mut [u8],
    space: &mut [u8],
) -> Ending
    ensures { DecodesLost lost.now
        (given (description_of degree points.now factors.now lengths.now) limit received.now
        (buffers answer.old flags.old) space.old)
        (left result (buffers answer.new flags.new) space.new) }
{
    let ones = array_checks::all_ones(factors);
    if let Err(refused) = array_checks::lost_refusal(
        degree,
        lengths,
        points,
        factors,
        ones,
        limit,
        lost,
        received,
        answer.len(),
        flags.len(),
        space.len(),
    ) {
        return Ending::Refused(refused);
    }
    let field = Field::new(degree);
    let ending = decode_struck(
        &field,
        lengths,
        points,
        &[],
        factors,
        ones,
        limit,
        lost,
        received,
        answer,
        flags,
        &mut space[..SPACE],
    );
    rows::clear(space, 0, SPACE);
    ending
}

// Decodes a received array jointly, with nothing lost: refusals 1 to 8, 18 behind 4 and 23 behind 6, which touch nothing; else the
// ending, on `corrected` with the answer and the flags of its wrong columns written, and in every case with the first 49,152 bytes of
// the working space zero.
pub fn decode(
    degree: u32,
    lengths: &[u8],
    points: &[u8],
    factors: &[u8],
    limit: u32,
    received: &[u8],
    answer: &mut [u8],
    flags: &mut [u8],
    space: &mut [u8],
) -> Ending
    ensures { Decodes
        (given (description_of degree points.now factors.now lengths.now) limit received.now
        (buffers answer.old flags.old) space.old)
        (left result (buffers answer.new flags.new) space.new) }
{
    decode_lost(
        degree,
        lengths,
        points,
        factors,
        limit,
        &[],
        received,
        answer,
        flags,
        space,
    )
}
