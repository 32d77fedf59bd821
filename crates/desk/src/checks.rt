// The checks of the desk's calls, in order.
ghost use Rattle.std.specs.Prelude.{◌≡◌};
ghost use Rattle.refusal.specs.Refusal.{first};
ghost use Rattle.refusal.specs.Numbers.{refused};
ghost use Rattle.codes.specs.Factors.{description_of};
ghost use Rattle.desk.specs.Desk.{open_checks, put_checks};

use crate::Desk;
use refusal::Refusal;

// The first check of opening that applies.
pub fn open_refusal(
    degree: u32,
    points: &[u8],
    factors: &[u8],
    lengths: &[u8],
) -> Result<(), Refusal>
    ensures { refused result
        ≡ first (open_checks (description_of degree points.now factors.now lengths.now)) }
{
    array_checks::code_refusal(16, degree, lengths, points)?;
    if factors.len() != points.len() {
        return Err(Refusal::Buffers);
    }
    array_checks::columns_refusal(degree, points, factors)
}

// The first check of putting a column that applies.
#[tactic(auto, unfolding(refusal::specs::Refusal::first))]
pub fn put_refusal(desk: Desk, column: usize, symbols: &[u8]) -> Result<(), Refusal>
    ensures { refused result ≡ first (put_checks desk column symbols.now) }
{
    if desk.columns <= column {
        return Err(Refusal::DeskColumn);
    }
    if symbols.len() != desk.rows {
        return Err(Refusal::Buffers);
    }
    if refusal::some_outside_field(desk.degree, symbols) {
        return Err(Refusal::Symbols);
    }
    Ok(())
}
