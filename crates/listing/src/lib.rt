// Every array that fits: the sets of columns tried, and what fits listed.
#![tactic(auto)]

ghost use Rattle.std.specs.Prelude.{◌≡◌, List, ℕ, Ok, ◌≤◌, length};
ghost use Rattle.refusal.specs.Refusal.{first};
ghost use Rattle.refusal.specs.Numbers.{refused};
ghost use Rattle.codes.specs.Code.{code_of};
ghost use Rattle.codes.specs.Factors.{description_of};
ghost use Rattle.codes.proofs.Passed.{Counts};
ghost use Rattle.fitting.specs.Working.{most};
ghost use Rattle.listing.specs.Checks.{code_checks, content_checks, length_checks, list_checks};
ghost use Rattle.listing.specs.Promises.{Lists, left};
ghost use Rattle.listing.specs.Working.{Listed, Passed};

use refusal::Refusal;

// Refuses by the first of the checks 1, 2, 3, 21, 4 and 18 that applies. Of a count of points that is not 1 to 16, 3 and 21 make two
// cases.
fn code_refusal(degree: u32, lengths: &[u8], points: &[u8]) -> Result<(), Refusal>
    ensures { refused result ≡ first (code_checks (code_of degree points.now lengths.now)) }
{
    let Err(refused) = array_checks::code_refusal(16, degree, lengths, points) else {
        return Ok(());
    };
    match refused {
        Refusal::Columns => {
            if refusal::outside(1, 96, points.len()) {
                Err(Refusal::Columns)
            } else {
                Err(Refusal::ListColumns)
            }
        }
        _ => Err(refused),
    }
}

// Refuses by the first of the checks 5 and 22 that applies. Of the room the checks read the length alone.
fn lengths_refusal(
    lengths: &[u8],
    points: &[u8],
    factors: &[u8],
    received: &[u8],
    room: usize,
) -> Result<(), Refusal>
    requires { (1 ≤ length lengths.now) × (length lengths.now ≤ 4) × (1 ≤ length points.now) × (length points.now ≤ 96) }
    ensures { (d : ℕ) (s : List ℕ) → length s ≡ room
        → refused result ≡ first (length_checks (description_of d points.now factors.now lengths.now)
        received.now s) }
{
    let cells = lengths.len() * points.len();
    if (received.len() != cells) | (factors.len() != points.len()) {
        return Err(Refusal::Buffers);
    }
    if room % cells != 0 {
        return Err(Refusal::Room);
    }
    Ok(())
}

// Refuses by the first of the checks 6, 23, 7 and 8 that applies.
fn contents_refusal(
    degree: u32,
    lengths: &[u8],
    points: &[u8],
    factors: &[u8],
    limit: u32,
    received: &[u8],
) -> Result<(), Refusal>
    requires { Counts (code_of degree points.now lengths.now) }
    ensures { refused result ≡ first (content_checks (description_of degree points.now factors.now lengths.now)
        limit received.now) }
{
    array_checks::columns_refusal(degree, points, factors)?;
    if refusal::some_outside_field(degree, received) {
        return Err(Refusal::Symbols);
    }
    if array_checks::joint_limit(lengths, points) < limit as usize {
        return Err(Refusal::Limit);
    }
    Ok(())
}

// Refuses by the first check that applies. Of the room the checks read the length alone.
fn list_refusal(
    degree: u32,
    lengths: &[u8],
    points: &[u8],
    factors: &[u8],
    limit: u32,
    received: &[u8],
    room: usize,
) -> Result<(), Refusal>
    ensures { (s : List ℕ) → length s ≡ room
        → refused result ≡ first (list_checks (description_of degree points.now factors.now lengths.now)
        limit received.now s) }
{
    code_refusal(degree, lengths, points)?;
    lengths_refusal(lengths, points, factors, received, room)?;
    contents_refusal(degree, lengths, points, factors, limit, received)
}

// Lists what passed the checks: the sets of columns are tried on the array divided by its factors.
fn work(
    degree: u32,
    lengths: &[u8],
    points: &[u8],
    factors: &[u8],
    limit: u32,
    received: &[u8],
    room: &mut [u8],
) -> usize
    requires { Passed (description_of degree points.now factors.now lengths.now) limit received.now room.old }
    ensures { Listed (description_of degree points.now factors.now lengths.now) limit
        received.now room.old result room.new × (result ≤ most) }
{
    let mut plain = [0u8; 64];
    factors::divide(degree, factors, lengths.len(), received, &mut plain);
    fitting::list(
        degree,
        lengths,
        points,
        factors,
        &plain[..received.len()],
        limit as usize,
        room,
    )
}

// Lists every code array within so many columns of a received one: refusals 1, 2, 3, 21, 4, 18, 5, 22, 6, 23, 7 and 8, which leave the
// room as lent; else how many there are, with the first ones that fit written one after the other, those with fewer wrong columns first
// and, among equal numbers of these, in dictionary order of the wrong columns. What is left of the room is as lent.
pub fn list(
    degree: u32,
    lengths: &[u8],
    points: &[u8],
    factors: &[u8],
    limit: u32,
    received: &[u8],
    room: &mut [u8],
) -> Result<u32, Refusal>
    ensures promised { Lists (description_of degree points.now factors.now lengths.now) limit
        received.now room.old (left result room.new) }
    ensures small { (t : ℕ) → result ≡ Ok t → t ≤ most }
{
    list_refusal(
        degree,
        lengths,
        points,
        factors,
        limit,
        received,
        room.len(),
    )?;
    let total = work(degree, lengths, points, factors, limit, received, room);
    Ok(total as u32)
}
