// Column factors: the rows of an array multiplied by them, and divided by them. Factors of one cost nothing but to be looked at.
#![tactic(auto)]

ghost use Rattle.std.specs.Prelude.{◌≡◌, ◌*◌, ◌≤◌, length, take};
ghost use Rattle.patch.specs.Parts.{lay, part};
ghost use Rattle.field.specs.Symbols.{over, times};
ghost use Rattle.codes.specs.Factors.{with_factors};
ghost use Rattle.factors.specs.Working.{Inverting, Multiplying, Striking, inverses};

use array_checks::all_ones;
use field::Field;

// The inverses of the factors, at the front of w.
fn inverses(field: &Field, factors: &[u8], w: &mut [u8])
    requires { Inverting field.now.degree factors.now w.old }
    ensures { w.new ≡ lay 0 (inverses field.now.degree factors.now) w.old }
{
    for (i, f) in factors.iter().enumerate() {
        w[i] = field.quotient(1, *f);
    }
}

// Multiplies r rows at the front of s by the factors, one a column.
fn multiply_rows(field: &Field, factors: &[u8], r: usize, s: &mut [u8])
    requires { Multiplying field.now.degree factors.now r s.old }
    ensures { s.new
        ≡ lay 0 (with_factors (times field.now.degree) factors.now r (part 0 (r * length factors.now) s.old))
        s.old }
{
    let mut at = 0;
    for _ in 0..r {
        lists::multiply(field, factors, 0, s, at, 0);
        at += factors.len();
    }
}

// For the crates above: multiplies the array, of r rows, by the factors, one a column.
pub fn multiply(degree: u32, factors: &[u8], r: usize, array: &mut [u8])
    requires { Striking degree factors.now r array.old }
    ensures { array.new ≡ with_factors (times degree) factors.now r array.old }
{
    if all_ones(factors) {
        return;
    }
    let field = Field::new(degree);
    multiply_rows(&field, factors, r, array);
}

// For the crates above: the array, of r rows, divided by the factors, one a column, at the front of s.
pub fn divide(degree: u32, factors: &[u8], r: usize, array: &[u8], s: &mut [u8])
    requires striking { Striking degree factors.now r array.now }
    requires array_in_bounds { length array.now ≤ length s.old }
    ensures { take (length array.now) s.new
        ≡ with_factors (λ f a. over degree a f) factors.now r array.now }
{
    rows::store(array, s, 0);
    if all_ones(factors) {
        return;
    }
    let field = Field::new(degree);
    let mut w = [0u8; 96];
    inverses(&field, factors, &mut w);
    multiply_rows(&field, &w[..factors.len()], r, s);
}
