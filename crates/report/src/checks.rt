// The checks of entering a mark, in order.
ghost use Rattle.std.specs.Prelude.{◌≡◌};
ghost use Rattle.refusal.specs.Refusal.{first};
ghost use Rattle.refusal.specs.Numbers.{refused};
ghost use Rattle.report.specs.Report.{bad_mark, enter_checks, mark_of};

use crate::{Report, counts};
use refusal::Refusal;

// Number 26 applies: the ending's code is above 4, or the mark is corrected, and a flag is above 2 or the flags of 1 do not number
// its detail.
fn bad_mark(ending: usize, detail: usize, flags: &[u8]) -> bool
    ensures { result ≡ bad_mark (mark_of ending detail flags.now) }
{
    4 < ending
        || (ending == 1 && (counts::some_above(flags) || counts::wrong_flags(flags) != detail))
}

// The first check of entering a mark that applies.
#[tactic(auto, unfolding(refusal::specs::Refusal::first))]
pub fn enter_refusal(
    report: Report,
    ending: usize,
    detail: usize,
    flags: &[u8],
) -> Result<(), Refusal>
    ensures { refused result ≡ first (enter_checks report (mark_of ending detail flags.now)) }
{
    if 1000000 <= report.marks {
        return Err(Refusal::ReportFull);
    }
    if flags.len() != report.columns {
        return Err(Refusal::Buffers);
    }
    if bad_mark(ending, detail, flags) {
        return Err(Refusal::BadEntry);
    }
    Ok(())
}
