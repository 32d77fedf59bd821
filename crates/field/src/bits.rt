// The product of two symbols by shifts and exclusive or, with no table to look up: loops over lists of symbols vectorise with it.
ghost use Rattle.std.specs.Prelude.{◌≡◌, false, ℕ, suc, ◌-◌, ◌*◌, ◌/◌, ◌%◌, ◌^◌, ◌<◌};
ghost use Rattle.refusal.specs.Refusal.{bad_degree};
ghost use Rattle.field.specs.Symbols.{modulus, plus, times_x, times_low, times};
ghost use Rattle.field.specs.Working.Bits.{halved};

// For the crates above: a bit times a byte.
pub fn masked(bit: u8, x: u8) -> u8
    requires { bit < 2 }
    ensures { result ≡ bit * x }
{
    if bit == 0 { 0 } else { x }
}

// The top bit of a symbol. A shift by the degree was tried in place of the three cases, and made a single product a fifth slower.
#[tactic(auto, using(crate::proofs::BitByBit::last))]
fn half(degree: u32) -> u8
    requires { bad_degree degree ≡ false }
    ensures { result ≡ 2 ^ (degree - 1) }
{
    match degree {
        2 => 2,
        4 => 8,
        _ => 128,
    }
}

// The polynomial without x^8, whatever its degree: what a doubling in a byte takes off.
#[tactic(auto, unfolding(crate::specs::Symbols::modulus), using(crate::proofs::BitByBit::last))]
pub(crate) fn low_bits(degree: u32) -> u8
    requires { bad_degree degree ≡ false }
    ensures { result ≡ modulus degree % 256 }
{
    match degree {
        2 => 0b111,
        4 => 0b10011,
        _ => 0b101101,
    }
}

// What doubling a symbol in a byte needs, and halving it: a degree, the top bit of a symbol, and the polynomial without x^8, which a
// doubling takes off.
#[derive(Clone, Copy)]
pub struct Reducer {
    pub degree: u32,
    half: u8,
    low: u8,
    ghost degree_value: { bad_degree degree ≡ false },
    ghost top: { half ≡ 2 ^ (degree - 1) },
    ghost rest: { low ≡ modulus degree % 256 },
}

impl Reducer {
    // For the crates above: the reducer of a degree.
    pub fn new(degree: u32) -> Self
        requires { bad_degree degree ≡ false }
        ensures { result.degree ≡ degree }
    {
        Reducer {
            degree,
            half: half(degree),
            low: low_bits(degree),
        }
    }

    // x times a symbol.
    pub(crate) fn double(self, v: u8) -> u8
        requires { v < 2 ^ self.degree }
        ensures { result ≡ times_x self.degree v }
    {
        if v < self.half {
            v << 1
        } else {
            (v << 1) ^ self.low
        }
    }

    // The symbol whose double v is. An odd one had the polynomial taken off: half of that, half its low bits and the top bit, is put
    // back.
    pub(crate) fn halve(self, v: u8) -> u8
        requires { v < 2 ^ self.degree }
        ensures { result ≡ halved self.degree v }
    {
        if v % 2 == 0 {
            v / 2
        } else {
            (v / 2) ^ (self.low / 2 | self.half)
        }
    }

    // A bit of a product: the low bit of w times s, and x times the sum of the higher ones.
    fn bit_more(self, w: u8, s: u8, higher: u8) -> u8
        requires { (s < 2 ^ self.degree) × (higher < 2 ^ self.degree) }
        ensures { (result ≡ plus (w % 2 * s) (times_x self.degree higher)) × (result < 2 ^ self.degree) }
    {
        masked(w % 2, s) ^ self.double(higher)
    }

    // Four bits of a product: those of w times s, and x^4 times the sum of the higher ones.
    fn four_more(self, w: u8, s: u8, higher: u8) -> u8
        requires { (s < 2 ^ self.degree) × (higher < 2 ^ self.degree) }
        ensures { (result < 2 ^ self.degree)
            × ((n : ℕ) → higher ≡ times_low self.degree n (w / 2 / 2 / 2 / 2) s
            → result ≡ times_low self.degree (suc (suc (suc (suc n)))) w s) }
    {
        let w1 = w / 2;
        let w2 = w1 / 2;
        let w3 = w2 / 2;
        let v3 = self.bit_more(w3, s, higher);
        let v2 = self.bit_more(w2, s, v3);
        let v1 = self.bit_more(w1, s, v2);
        self.bit_more(w, s, v1)
    }

    // For the crates above: the product of two symbols, bit by bit. The top bit of a byte is named anew, so that it is a constant.
    pub fn product(self, w: u8, s: u8) -> u8
        requires { (w < 2 ^ self.degree) × (s < 2 ^ self.degree) }
        ensures { result ≡ times self.degree w s }
    {
        if self.degree <= 4 {
            return self.four_more(w, s, 0);
        }
        let byte = Reducer {
            degree: self.degree,
            half: 128,
            low: self.low,
        };
        let higher = byte.four_more(w / 16, s, 0);
        byte.four_more(w, s, higher)
    }
}

// The product of two symbols, in a loop over the bits of a from the highest on.
pub(crate) fn product(degree: u32, a: u8, b: u8) -> u8
    requires degree_value { bad_degree degree ≡ false }
    requires a_bound { (a < 2 ^ degree) × (b < 2 ^ degree) }
    ensures { result ≡ times degree a b }
{
    let reducer = Reducer::new(degree);
    let mut r = 0;
    for i in (0..degree).rev() {
        r = reducer.bit_more(a >> i, b, r);
    }
    r
}
