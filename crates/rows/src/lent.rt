// Divided differences of several rows over the same points: the inverses of all rounds are taken once, and lent to each row.
ghost use Rattle.std.specs.Prelude.{◌≡◌, ◌+◌, ◌*◌, ◌≤◌, length, take};
ghost use Rattle.field.specs.Symbols.{IsSymbol};
ghost use Rattle.field.specs.Arithmetic.{gf};
ghost use Rattle.lists.specs.Working.Lists.{SymbolsAt};
ghost use Rattle.poly.specs.Poly.{All};
ghost use Rattle.poly.proofs.Forms.{reduce};
ghost use Rattle.rows.specs.Working.Rows.{Points, Inverses};

use field::Field;

// For the crates above: the inverses of k rounds, those of round j in ws from 96·j on.
pub fn all_inverses(field: &Field, points: &[u8], k: usize, ws: &mut [u8])
    requires points { Points field.now.degree points.now }
    requires k_in_bounds { (k ≤ length points.now) × (length points.now ≤ 96) × (96 * k ≤ length ws.old) }
    requires all { All (IsSymbol field.now.degree) ws.old }
    ensures { Inverses field.now.degree points.now k ws.new }
{
    for j in 0..k {
        crate::inverses(field, points, j, ws, 96 * j);
    }
}

// For the crates above: k rounds of divided differences of the row at the front of s, by lent inverses. A round takes whole
// sixteens, so that up to 15 symbols behind the row change too.
pub fn reduce(field: &Field, points: &[u8], k: usize, ws: &[u8], s: &mut [u8])
    requires points { Points field.now.degree points.now }
    requires k_in_bounds { (k ≤ length points.now) × (length points.now ≤ 96) × (length points.now + 15 ≤ length s.old) }
    requires symbols_at { SymbolsAt field.now.degree s.old 0 (length points.now + 15) × Inverses field.now.degree points.now k ws.now }
    ensures { take (length points.now) s.new
        ≡ reduce (gf field.now.degree) k points.now (take (length points.now) s.old) }
{
    for j in 0..k {
        let from = 96 * j;
        let whole = (points.len() - (j + 1)).next_multiple_of(16);
        let b = s[j];
        lists::multiply(field, &ws[from..from + whole], 0, s, j + 1, b);
    }
}
