// The reasons for a refusal, with their numbers, and the tests behind them, each a function whose contract is its test.
#![tactic(auto)]

ghost use Rattle.std.specs.Prelude.{◌≡◌, ◌≤◌};
ghost use Rattle.refusal.specs.Refusal.{bad_columns, bad_degree, bad_points, is_in, repeated};
ghost use Rattle.refusal.specs.Refusal.{outside, outside_field, some_outside, some_outside_field};
ghost use Rattle.refusal.specs.Numbers.{number};

// Why a call is refused, each reason with its number in the table.
#[derive(Clone, Copy, PartialEq, Eq)]
pub enum Refusal {
    Degree = 1,
    Rows = 2,
    Columns = 3,
    Lengths = 4,
    Buffers = 5,
    Points = 6,
    Symbols = 7,
    Limit = 8,
    NoCodeArray = 9,
    RingSize = 10,
    RingOrder = 11,
    NoRecordMark = 12,
    CutShort = 13,
    DeskColumn = 14,
    Marks = 15,
    LostColumns = 16,
    TooFewLeft = 17,
    Unchecked = 18,
    PitLimit = 19,
    Powers = 20,
    ListColumns = 21,
    Room = 22,
    Factors = 23,
    ReportFull = 24,
    ZeroDivisor = 25,
    BadEntry = 26,
}

impl Refusal {
    // Its number in the table.
    pub fn number(self) -> u8
        ensures { result ≡ number self }
    {
        self as u8
    }
}

// For the crates above: number 1 applies, the degree is not 2, 4 or 8.
#[tactic(auto, unfolding(crate::specs::Refusal::bad_degree))]
pub fn bad_degree(degree: u32) -> bool
    ensures { result ≡ bad_degree degree }
{
    !matches!(degree, 2 | 4 | 8)
}

// For the crates above: number 2, 3 or 11 applies, a count or a number is not lo to hi.
#[tactic(auto, unfolding(crate::specs::Refusal::outside))]
pub fn outside(lo: usize, hi: usize, n: usize) -> bool
    ensures { result ≡ outside lo hi n }
{
    n < lo || hi < n
}

// For the crates above: number 4 applies, some k of the list is not lo to hi.
pub fn some_outside(lo: usize, hi: usize, ks: &[u8]) -> bool
    ensures { result ≡ some_outside lo hi ks.now }
{
    ks.iter().any(|k| outside(lo, hi, usize::from(*k)))
}

// For the crates above: number 18 applies, some k of the list is n.
pub fn is_in(n: usize, ks: &[u8]) -> bool
    ensures { result ≡ is_in n ks.now }
{
    ks.iter().any(|k| n == usize::from(*k))
}

// For the crates above: number 7 applies to one symbol, it is outside the field.
pub fn outside_field(degree: u32, a: u8) -> bool
    ensures { result ≡ outside_field degree a }
{
    degree < 8 && 0 < a >> degree
}

// For the crates above: number 7 applies, a symbol of the list is outside the field.
pub fn some_outside_field(degree: u32, s: &[u8]) -> bool
    ensures { result ≡ some_outside_field degree s.now }
{
    if 8 <= degree {
        return false;
    }
    let mut bits = 0;
    for a in s {
        bits |= a;
    }
    outside_field(degree, bits)
}

// An entry stood earlier in the list. All earlier ones are looked at, so that the inner loop vectorises.
fn repeated(xs: &[u8]) -> bool
    ensures { result ≡ repeated xs.now }
{
    let mut repeated = false;
    'points: for i in 0..xs.len() {
        let mut same = false;
        for j in 0..i {
            same |= xs[j] == xs[i];
        }
        if same {
            repeated = true;
            break 'points;
        }
    }
    repeated
}

// For the crates above: number 6 applies, a point is outside the field or stood earlier in the list.
#[tactic(auto, unfolding(crate::specs::Refusal::bad_points))]
pub fn bad_points(degree: u32, xs: &[u8]) -> bool
    ensures { result ≡ bad_points degree xs.now }
{
    some_outside_field(degree, xs) || repeated(xs)
}

// For the crates above: number 16 applies, a lost column is not below n or is named twice.
#[tactic(auto, unfolding(crate::specs::Refusal::bad_columns))]
pub fn bad_columns(n: usize, lost: &[u8]) -> bool
    requires { 1 ≤ n }
    ensures { result ≡ bad_columns n lost.now }
{
    some_outside(0, n - 1, lost) || repeated(lost)
}
