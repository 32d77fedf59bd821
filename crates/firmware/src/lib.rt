// The calls on marks, trays and rings, with their answers as one number. firmware_c exports them to C callers, for whom
// include/grenhyrna.h is. Degree and q are numbers here and below, as C hands them in: checks 1 and 10 answer to each that no field or ring
// has.
#![tactic(auto)]

ghost use Rattle.std.specs.Prelude.{◌≡◌, ℕ, Ok, ◌≤◌};
ghost use Rattle.refusal.specs.Meaning.{packed};
ghost use Rattle.firmware.specs.Returns.{Returns};
ghost use Rattle.codes.specs.Factors.{description_of};
ghost use Rattle.mark.specs.Promises.{Encodes, Reads, left, meaning};
ghost use Rattle.ending.specs.Endings.{meaning as endingMeaning};
ghost use Rattle.joint.specs.Promises.{Decodes, buffers, given, left as ended};
ghost use Rattle.joint.specs.Lost.{DecodesLost};
ghost use Rattle.powers.specs.Promises as powered;
ghost use Rattle.listing.specs.Promises as listed;
ghost use Rattle.tray.specs.Promises.{DecodesTray, given_tray, left_tray};
ghost use Rattle.ring.specs.Promises as rings;
ghost use Rattle.sectors.specs.Promises as sectors;
ghost use Rattle.sectors.specs.Lost as sectors-lost;
ghost use Rattle.scattered.specs.Promises as scattered;

use refusal::Refusal;

// The number of an outcome: 256, or the number of the refusal.
fn number(outcome: Result<(), Refusal>) -> u32
    ensures { result ≡ packed (meaning outcome) }
{
    match outcome {
        Ok(()) => 256,
        Err(refused) => u32::from(refused.number()),
    }
}

// The number of a listing's answer: 256 and the total, or the number of the refusal.
fn total(answer: Result<u32, Refusal>) -> u32
    requires { (t : ℕ) → answer ≡ Ok t → t ≤ 16777216 }
    ensures { result ≡ packed (listed.meaning answer) }
{
    match answer {
        Ok(t) => 256 + t,
        Err(refused) => u32::from(refused.number()),
    }
}

// Writes what is struck for a message.
pub fn gren_mark_encode(
    degree: u32,
    lengths: &[u8],
    points: &[u8],
    factors: &[u8],
    message: &[u8],
    array: &mut [u8],
) -> u32
    ensures { Returns meaning (λ o. Encodes (description_of degree points.now factors.now
        lengths.now) message.now
        array.old (left o array.new)) result }
{
    number(mark::encode(degree, lengths, points, factors, message, array))
}

// Writes the message for which an array was struck.
pub fn gren_mark_read(
    degree: u32,
    lengths: &[u8],
    points: &[u8],
    factors: &[u8],
    array: &[u8],
    message: &mut [u8],
) -> u32
    ensures { Returns meaning (λ o. Reads (description_of degree points.now factors.now
        lengths.now) array.now
        message.old (left o message.new)) result }
{
    number(mark::read(degree, lengths, points, factors, array, message))
}

// Decodes a received array up to the trial limit.
pub fn gren_mark_decode(
    degree: u32,
    lengths: &[u8],
    points: &[u8],
    factors: &[u8],
    limit: u32,
    received: &[u8],
    answer: &mut [u8],
    flags: &mut [u8],
    space: &mut [u8],
) -> u32
    ensures { Returns endingMeaning (λ e. Decodes
        (given (description_of degree points.now factors.now lengths.now) limit received.now
        (buffers answer.old flags.old) space.old)
        (ended e (buffers answer.new flags.new) space.new)) result }
{
    joint::decode(
        degree, lengths, points, factors, limit, received, answer, flags, space,
    )
    .packed()
}

// Decodes a received array of which some columns are lost.
pub fn gren_mark_decode_lost(
    degree: u32,
    lengths: &[u8],
    points: &[u8],
    factors: &[u8],
    limit: u32,
    lost: &[u8],
    received: &[u8],
    answer: &mut [u8],
    flags: &mut [u8],
    space: &mut [u8],
) -> u32
    ensures { Returns endingMeaning (λ e. DecodesLost lost.now
        (given (description_of degree points.now factors.now lengths.now) limit received.now
        (buffers answer.old flags.old) space.old)
        (ended e (buffers answer.new flags.new) space.new)) result }
{
    joint::decode_lost(
        degree, lengths, points, factors, limit, lost, received, answer, flags, space,
    )
    .packed()
}

// Decodes a received row as so many powers of it.
pub fn gren_mark_decode_powers(
    degree: u32,
    k: u32,
    powers: u32,
    points: &[u8],
    factors: &[u8],
    limit: u32,
    received: &[u8],
    answer: &mut [u8],
    flags: &mut [u8],
    space: &mut [u8],
) -> u32
    ensures { Returns endingMeaning (λ e. powered.Decodes
        degree k powers points.now factors.now limit received.now
        (buffers answer.old flags.old) space.old
        (ended e (buffers answer.new flags.new) space.new)) result }
{
    powers::decode(
        degree, k, powers, points, factors, limit, received, answer, flags, space,
    )
    .packed()
}

// Lists every code array within the trial limit of a received one.
pub fn gren_mark_list(
    degree: u32,
    lengths: &[u8],
    points: &[u8],
    factors: &[u8],
    limit: u32,
    received: &[u8],
    room: &mut [u8],
) -> u32
    ensures { Returns listed.meaning (λ a. listed.Lists (description_of degree points.now factors.now
        lengths.now) limit received.now room.old (listed.left a room.new)) result }
{
    total(listing::list(degree, lengths, points, factors, limit, received, room))
}

// Decodes a tray of marks of one code; each mark's answer is its own number.
pub fn gren_tray_decode(
    degree: u32,
    lengths: &[u8],
    points: &[u8],
    factors: &[u8],
    limit: u32,
    received: &[u8],
    answers: &mut [u32],
    arrays: &mut [u8],
    flags: &mut [u8],
    space: &mut [u8],
) -> u32
    ensures { Returns meaning (λ o. DecodesTray (λ e. packed (endingMeaning e))
        (given_tray (description_of degree points.now factors.now lengths.now) limit received.now
        answers.old (buffers arrays.old flags.old) space.old)
        (left_tray o answers.new (buffers arrays.new flags.new) space.new)) result }
{
    number(tray::decode_numbers(
        degree, lengths, points, factors, limit, received, answers, arrays, flags, space,
    ))
}

// Writes the word of H(m) of a message.
pub fn gren_ring_encode(q: u32, m: u32, message: &[u8], word: &mut [u8]) -> u32
    ensures { Returns meaning (λ o. rings.Encodes q m message.now word.old (left o word.new)) result }
{
    number(ring::encode(q, m, message, word))
}

// Writes the message of a word of H(m).
pub fn gren_ring_read(q: u32, m: u32, word: &[u8], message: &mut [u8]) -> u32
    ensures { Returns meaning (λ o. rings.Reads q m word.now message.old (left o message.new)) result }
{
    number(ring::read(q, m, word, message))
}

// Decodes a received ring up to the trial limit.
pub fn gren_ring_decode(
    q: u32,
    m: u32,
    limit: u32,
    received: &[u8],
    answer: &mut [u8],
    flags: &mut [u8],
    space: &mut [u8],
) -> u32
    ensures { Returns endingMeaning (λ e. sectors.Decodes
        q m limit received.now (buffers answer.old flags.old) space.old
        (ended e (buffers answer.new flags.new) space.new)) result }
{
    sectors::decode(q, m, limit, received, answer, flags, space).packed()
}

// Decodes a received ring of which some sectors are lost.
pub fn gren_ring_decode_lost(
    q: u32,
    m: u32,
    limit: u32,
    lost: &[u8],
    received: &[u8],
    answer: &mut [u8],
    flags: &mut [u8],
    space: &mut [u8],
) -> u32
    ensures { Returns endingMeaning (λ e. sectors-lost.DecodesLost lost.now
        q m limit received.now (buffers answer.old flags.old) space.old
        (ended e (buffers answer.new flags.new) space.new)) result }
{
    sectors::decode_lost(q, m, limit, lost, received, answer, flags, space).packed()
}

// Decodes a received ring by its wrong symbols.
pub fn gren_ring_decode_pits(
    q: u32,
    m: u32,
    limit: u32,
    received: &[u8],
    answer: &mut [u8],
    flags: &mut [u8],
    space: &mut [u8],
) -> u32
    ensures { Returns endingMeaning (λ e. scattered.Decodes
        q m limit received.now (buffers answer.old flags.old) space.old
        (ended e (buffers answer.new flags.new) space.new)) result }
{
    scattered::decode(q, m, limit, received, answer, flags, space).packed()
}
