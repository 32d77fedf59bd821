// A tray: up to 64 marks of one code, decoded in one call.
#![tactic(auto)]

ghost use Rattle.std.specs.Prelude.{◌≡◌, false, List, [], ℕ, ◌+◌, ◌*◌, ◌≤◌, length};
ghost use Rattle.refusal.specs.Refusal.{first, some_outside_field};
ghost use Rattle.refusal.specs.Meaning.{packed};
ghost use Rattle.refusal.specs.Numbers.{refused};
ghost use Rattle.codes.specs.Code.{code_of};
ghost use Rattle.codes.specs.Factors.{description_of};
ghost use Rattle.codes.specs.Checks.{space_bytes};
ghost use Rattle.codes.proofs.Passed.{Counts};
ghost use Rattle.codes.proofs.Proper.{Proper};
ghost use Rattle.array_checks.specs.Working.{Sizes};
ghost use Rattle.ending.specs.Endings.{meaning};
ghost use Rattle.ending.specs.declared.Ending.{Ending};
ghost use Rattle.joint.specs.Promises.{buffers};
ghost use Rattle.joint.specs.Working.{StruckEnds};
ghost use Rattle.tray.specs.Promises.{DecodesTray, answer_of, given_tray, left_tray, tray_checks, wrong_lengths};
ghost use Rattle.tray.specs.Working.{Begun, Decoded, Lies, Marked, Marking, Opened, cleared_if};

use array_checks::SPACE;
use conditions::INVERSES;
use ending::Ending;
use field::{Field, LENT};
use refusal::Refusal;

// A mark's ending and its detail: 01's code and detail. They are numbers, since 02 asks for this record and its promise is over them.
#[derive(Clone, Copy)]
pub struct Answer {
    pub ending: u8,
    pub detail: u8,
}

impl From<Ending> for Answer {
    ghost from_gives = { λ ending answer. answer ≡ answer_of ending };

    fn from(ending: Ending) -> Answer {
        let (ending, detail) = match ending {
            Ending::Refused(refused) => (0, refused.number()),
            Ending::Corrected(w) => (1, w),
            Ending::Nothing => (2, 0),
            Ending::Several(t) => (3, t),
            Ending::Hollow(t) => (4, t),
        };
        Answer { ending, detail }
    }
}

// Whether number 5 applies to a tray of up to 64 marks: one of its lengths is wrong.
fn wrong_lengths(
    lengths: &[u8],
    points: &[u8],
    factors: &[u8],
    received: usize,
    marks: usize,
    arrays: usize,
    flags: usize,
    space: usize,
) -> bool
    requires { Sizes lengths.now points.now }
    ensures { (d : ℕ) (y a f w : List ℕ) → marks ≤ 64 → length y ≡ received → length a ≡ arrays → length f ≡ flags
        → length w ≡ space → result ≡ wrong_lengths (description_of d points.now factors.now lengths.now)
        marks y a f w }
{
    if 64 < marks {
        return true;
    }
    let n = points.len();
    let all = marks * (lengths.len() * n);
    (received != all)
        | (arrays != all)
        | (flags != marks * n)
        | (space < SPACE)
        | (factors.len() != n)
}

// Refuses by the first of a tray's checks that applies. Of the buffers the checks read the lengths alone.
fn tray_refusal(
    degree: u32,
    lengths: &[u8],
    points: &[u8],
    factors: &[u8],
    limit: u32,
    received: usize,
    marks: usize,
    arrays: usize,
    flags: usize,
    space: usize,
) -> Result<(), Refusal>
    ensures { (y a f w : List ℕ) → length y ≡ received → length a ≡ arrays → length f ≡ flags → length w ≡ space
        → refused result ≡ first (tray_checks (description_of degree points.now factors.now lengths.now) limit marks
        y a f w) }
{
    array_checks::code_refusal(96, degree, lengths, points)?;
    let count = refusal::outside(1, 64, marks);
    let size = wrong_lengths(
        lengths, points, factors, received, marks, arrays, flags, space,
    );
    if count {
        return Err(Refusal::Marks);
    }
    if size {
        return Err(Refusal::Buffers);
    }
    array_checks::columns_refusal(degree, points, factors)?;
    if array_checks::joint_limit(lengths, points) < limit as usize {
        return Err(Refusal::Limit);
    }
    Ok(())
}

// Works out what all marks of a code share, at the front of the working space: the inverses of the field's symbols, and behind them the inverses of the
// longest row's rounds.
fn share(degree: u32, lengths: &[u8], points: &[u8], space: &mut [u8])
    requires { Counts (code_of degree points.now lengths.now) × Proper (code_of degree points.now lengths.now)
        × (space_bytes ≤ length space.old) }
    ensures { Begun (code_of degree points.now lengths.now) space.old space.new }
{
    let field = Field::new(degree);
    rows::store(&field.inverses, space, 0);
    rows::clear(space, LENT, INVERSES);
    conditions::inverses(&field, lengths, points, &mut space[LENT..LENT + INVERSES]);
}

// Opens a tray: refuses it whole, which touches nothing, or works out what all marks share in the working space.
fn open(
    degree: u32,
    lengths: &[u8],
    points: &[u8],
    factors: &[u8],
    limit: u32,
    received: usize,
    marks: usize,
    arrays: usize,
    flags: usize,
    space: &mut [u8],
) -> Result<(), Refusal>
    ensures { ((y a f : List ℕ) → length y ≡ received → length a ≡ arrays → length f ≡ flags
        → refused result ≡ first (tray_checks (description_of degree points.now factors.now lengths.now) limit marks
        y a f space.old))
        × Opened (code_of degree points.now lengths.now) result space.old space.new }
{
    tray_refusal(
        degree,
        lengths,
        points,
        factors,
        limit,
        received,
        marks,
        arrays,
        flags,
        space.len(),
    )?;
    share(degree, lengths, points, space);
    Ok(())
}

// Decodes a mark whose symbols are of the field, with what the space has for all marks. The solver has a room of its own.
fn work_mark(
    degree: u32,
    lengths: &[u8],
    points: &[u8],
    factors: &[u8],
    limit: u32,
    received: &[u8],
    array: &mut [u8],
    flags: &mut [u8],
    space: &[u8],
) -> Ending
    requires { Marking (description_of degree points.now factors.now lengths.now) limit received.now
        (buffers array.old flags.old) space.now × (some_outside_field degree received.now ≡ false) }
    ensures { StruckEnds (description_of degree points.now factors.now lengths.now) []
        received.now limit (buffers array.old flags.old) result
        (buffers array.new flags.new) }
{
    let mut table = [0u8; LENT];
    let mut lines = [0u8; 3840];
    rows::store(&space[..LENT], &mut table, 0);
    let field = Field::lent(degree, table);
    joint::decode_struck(
        &field,
        lengths,
        points,
        &space[LENT..LENT + INVERSES],
        factors,
        array_checks::all_ones(factors),
        limit,
        &[],
        received,
        array,
        flags,
        &mut lines,
    )
}

// How a mark ends: refused with 7 if a symbol is outside the field, and else as it is decoded.
fn end_mark(
    degree: u32,
    lengths: &[u8],
    points: &[u8],
    factors: &[u8],
    limit: u32,
    received: &[u8],
    array: &mut [u8],
    flags: &mut [u8],
    space: &[u8],
) -> Ending
    requires { Marking (description_of degree points.now factors.now lengths.now) limit received.now
        (buffers array.old flags.old) space.now }
    ensures { Decoded (description_of degree points.now factors.now lengths.now) limit
        received.now (buffers array.old flags.old) result
        (buffers array.new flags.new) }
{
    if refusal::some_outside_field(degree, received) {
        return Ending::Refused(Refusal::Symbols);
    }
    work_mark(
        degree, lengths, points, factors, limit, received, array, flags, space,
    )
}

// Clears the working space, behind the last mark.
#[tactic(auto, using(joint::proofs::Cleared::cleared_by))]
fn clear_behind(last: bool, space: &mut [u8])
    requires { space_bytes ≤ length space.old }
    ensures { space.new ≡ cleared_if last space.old }
{
    if last {
        rows::clear(space, 0, SPACE);
    }
}

// How mark k of a tray ends that passed its checks; behind the last one the working space is cleared.
fn decode_mark(
    k: usize,
    degree: u32,
    lengths: &[u8],
    points: &[u8],
    factors: &[u8],
    limit: u32,
    received: &[u8],
    arrays: &mut [u8],
    flags: &mut [u8],
    space: &mut [u8],
) -> Ending
    requires { Lies (description_of degree points.now factors.now lengths.now) limit k received.now
        (buffers arrays.old flags.old) space.old }
    ensures { Marked (description_of degree points.now factors.now lengths.now) limit k
        received.now (buffers arrays.old flags.old) space.old result
        (buffers arrays.new flags.new) space.new }
{
    let n = points.len();
    let cells = lengths.len() * n;
    let at = k * cells;
    let first = k * n;
    let ending = end_mark(
        degree,
        lengths,
        points,
        factors,
        limit,
        &received[at..at + cells],
        &mut arrays[at..at + cells],
        &mut flags[first..first + n],
        space,
    );
    clear_behind(at + cells == arrays.len(), space);
    ending
}

// Decodes up to 64 marks of one code, whose arrays lie one after another; say makes the answer of an ending.
fn decode_all<A: Copy, F: Fn(Ending) -> A>(
    degree: u32,
    lengths: &[u8],
    points: &[u8],
    factors: &[u8],
    limit: u32,
    received: &[u8],
    answers: &mut [A],
    arrays: &mut [u8],
    flags: &mut [u8],
    space: &mut [u8],
    say: F,
) -> Result<(), Refusal>
    requires { F.IsAlwaysCallable say }
    ensures { (tell : Ending → A) → ((e : Ending) (a : A) → F.post say e a → a ≡ tell e)
        → DecodesTray tell (given_tray (description_of degree points.now factors.now lengths.now) limit received.now
        answers.old (buffers arrays.old flags.old) space.old)
        (left_tray result answers.new (buffers arrays.new flags.new) space.new) }
{
    open(
        degree,
        lengths,
        points,
        factors,
        limit,
        received.len(),
        answers.len(),
        arrays.len(),
        flags.len(),
        space,
    )?;
    for k in 0..answers.len() {
        answers[k] = say(decode_mark(
            k, degree, lengths, points, factors, limit, received, arrays, flags, space,
        ));
    }
    Ok(())
}

// Decodes up to 64 marks of one code, whose arrays lie one after another: refusals 1 to 4, 18, 15, 5, 6, 23 and 8, which touch
// nothing; else each mark's answer, array and flags are those of a call for it alone, 7 among them, and the first 49,152 bytes of
// the working space are zero.
pub fn decode(
    degree: u32,
    lengths: &[u8],
    points: &[u8],
    factors: &[u8],
    limit: u32,
    received: &[u8],
    answers: &mut [Answer],
    arrays: &mut [u8],
    flags: &mut [u8],
    space: &mut [u8],
) -> Result<(), Refusal>
    ensures { DecodesTray answer_of
        (given_tray (description_of degree points.now factors.now lengths.now) limit received.now
        answers.old (buffers arrays.old flags.old) space.old)
        (left_tray result answers.new (buffers arrays.new flags.new) space.new) }
{
    decode_all(
        degree,
        lengths,
        points,
        factors,
        limit,
        received,
        answers,
        arrays,
        flags,
        space,
        Answer::from,
    )
}

// For the C interface: `decode` with each answer as one number.
pub fn decode_numbers(
    degree: u32,
    lengths: &[u8],
    points: &[u8],
    factors: &[u8],
    limit: u32,
    received: &[u8],
    answers: &mut [u32],
    arrays: &mut [u8],
    flags: &mut [u8],
    space: &mut [u8],
) -> Result<(), Refusal>
    ensures { DecodesTray (λ e. packed (meaning e))
        (given_tray (description_of degree points.now factors.now lengths.now) limit received.now
        answers.old (buffers arrays.old flags.old) space.old)
        (left_tray result answers.new (buffers arrays.new flags.new) space.new) }
{
    decode_all(
        degree,
        lengths,
        points,
        factors,
        limit,
        received,
        answers,
        arrays,
        flags,
        space,
        Ending::packed,
    )
}
