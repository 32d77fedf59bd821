// Counts of flags.
ghost use Rattle.std.specs.Prelude.{◌≡◌};
ghost use Rattle.refusal.specs.Refusal.{some_outside};
ghost use Rattle.report.specs.Report.{wrong_flags};
ghost use Rattle.report.specs.Working.{Flagging, with_flags};

// Whether a flag is above 2. All of them are looked at, so that the loop vectorises.
pub fn some_above(flags: &[u8]) -> bool
    ensures { result ≡ some_outside 0 2 flags.now }
{
    let mut above = false;
    for f in flags {
        above |= 2 < *f;
    }
    above
}

// How many flags are 1. A loop, which vectorises, where `filter` and `count` do not.
pub fn wrong_flags(flags: &[u8]) -> usize
    ensures { result ≡ wrong_flags flags.now }
{
    let mut sum = 0;
    for f in flags {
        sum += usize::from(*f == 1);
    }
    sum
}

// The counts of the columns, one more for each column whose flag is 1.
pub fn with_flags(mut each: [usize; 96], flags: &[u8]) -> [usize; 96]
    requires { Flagging each flags.now }
    ensures { result ≡ with_flags each flags.now }
{
    for (i, f) in flags.iter().enumerate() {
        each[i] += usize::from(*f == 1);
    }
    each
}
