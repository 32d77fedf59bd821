// Symbols of GF(4), GF(16) and GF(256): a field as one value, and sum, product and quotient.
#![tactic(auto)]

pub mod bits;

ghost use Rattle.std.specs.Prelude.{◌≡◌, false, ◌^◌, ◌<◌};
ghost use Rattle.refusal.specs.Refusal.{first, bad_degree};
ghost use Rattle.field.specs.Symbols.{plus, times, over};
ghost use Rattle.field.specs.Values.{checks, divisor_checks, quotient_checks, Gives};
ghost use Rattle.field.specs.Working.Doublings.{doublings};
ghost use Rattle.field.specs.Working.Tables.{IsTable, IsTable-prop, Dividing};
ghost use Rattle.refusal.specs.Numbers.{refused};

use bits::Reducer;
use refusal::Refusal;

// For the crates above: how long a table of inverses is, whichever the field.
pub const LENT: usize = 256;

// For the crates above: a table of inverses: at each symbol but 0 its inverse.
pub type Table = [u8; LENT];

// For the crates above: a field of 4, 16 or 256 symbols, with what a quotient needs, the inverses of its symbols. They are worked out at
// the start of a call and lent: no table is constant, and a product reads none.
#[derive(Drop)]
pub struct Field {
    pub degree: u32,
    pub inverses: Table,
    pub ghost degree_value: { bad_degree degree ≡ false },
    pub ghost table: { IsTable degree inverses } by { IsTable-prop degree inverses },
}

impl Field {
    // How many symbols the field of a degree has.
    pub fn size(degree: u32) -> usize
        requires { bad_degree degree ≡ false }
        ensures { result ≡ 2 ^ degree }
    {
        1usize << degree
    }

    // The field of a degree. The powers of x come by repeated doubling, and their inverses by halving beside it; each of the two is the
    // other's inverse, so that half the powers fill the table.
    pub fn new(degree: u32) -> Self
        requires { bad_degree degree ≡ false }
        ensures { result.degree ≡ degree }
    {
        let reducer = Reducer::new(degree);
        let pairs = Self::size(degree) / 2;
        let mut inverses = [0; LENT];
        let mut power = 1u8;
        let mut inverse = 1u8;
        for _ in 0..pairs {
            inverses[usize::from(power)] = inverse;
            inverses[usize::from(inverse)] = power;
            power = reducer.double(power);
            inverse = reducer.halve(inverse);
        }
        Field { degree, inverses }
    }

    // The field of a degree whose inverses were kept.
    pub fn lent(degree: u32, inverses: Table) -> Self
        requires degree_value { bad_degree degree ≡ false }
        requires table { IsTable degree inverses }
        ensures { result.degree ≡ degree }
    {
        Field { degree, inverses }
    }

    // How it doubles its symbols.
    pub fn reducer(&self) -> Reducer
        ensures { result.degree ≡ self.now.degree }
    {
        Reducer::new(self.degree)
    }

    // The quotient of a symbol by one that is not zero.
    pub fn quotient(&self, a: u8, b: u8) -> u8
        requires { Dividing self.now.degree a b }
        ensures { result ≡ over self.now.degree a b }
    {
        let inverse = self.inverses[usize::from(b)];
        if a == 1 {
            return inverse;
        }
        bits::product(self.degree, a, inverse)
    }

    // The doublings of a constant factor. They end with the degree.
    #[tactic(auto, using(crate::proofs::Instance::doubled_below))]
    pub fn doublings(&self, c: u8) -> [u8; 8]
        requires { c < 2 ^ self.now.degree }
        ensures { result ≡ doublings self.now.degree c }
    {
        let reducer = self.reducer();
        let c1 = reducer.double(c);
        if self.degree == 2 {
            return [c, c1, 0, 0, 0, 0, 0, 0];
        }
        let c2 = reducer.double(c1);
        let c3 = reducer.double(c2);
        if self.degree == 4 {
            return [c, c1, c2, c3, 0, 0, 0, 0];
        }
        let c4 = reducer.double(c3);
        let c5 = reducer.double(c4);
        let c6 = reducer.double(c5);
        let c7 = reducer.double(c6);
        [c, c1, c2, c3, c4, c5, c6, c7]
    }
}

// The first check that applies: 1, then 7.
fn first_refusal(degree: u32, a: u8, b: u8) -> Result<(), Refusal>
    ensures { refused result ≡ first (checks degree a b) }
{
    if refusal::bad_degree(degree) {
        return Err(Refusal::Degree);
    }
    if refusal::outside_field(degree, a) | refusal::outside_field(degree, b) {
        return Err(Refusal::Symbols);
    }
    Ok(())
}

// Check 25, a zero divisor.
fn divisor_refusal(b: u8) -> Result<(), Refusal>
    ensures { refused result ≡ first (divisor_checks b) }
{
    if b == 0 {
        return Err(Refusal::ZeroDivisor);
    }
    Ok(())
}

// The sum of two symbols; refusals 1 and 7.
pub fn sum(degree: u32, a: u8, b: u8) -> Result<u8, Refusal>
    ensures { Gives (checks degree a b) (plus a b) result }
{
    first_refusal(degree, a, b)?;
    Ok(a ^ b)
}

// The product of two symbols; refusals 1 and 7.
pub fn product(degree: u32, a: u8, b: u8) -> Result<u8, Refusal>
    ensures { Gives (checks degree a b) (times degree a b) result }
{
    first_refusal(degree, a, b)?;
    Ok(bits::product(degree, a, b))
}

// The quotient of two symbols; refusals 1, 7 and 25, a zero divisor.
pub fn quotient(degree: u32, a: u8, b: u8) -> Result<u8, Refusal>
    ensures { Gives (quotient_checks degree a b) (over degree a b) result }
{
    first_refusal(degree, a, b).and(divisor_refusal(b))?;
    let field = Field::new(degree);
    Ok(field.quotient(a, b))
}
