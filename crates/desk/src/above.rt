// The coefficients that a desk keeps of its rows: what a column that is put adds to them, and in how many rows some are nonzero.
ghost use Rattle.std.specs.Prelude.{◌≡◌, ◌*◌, ◌≤◌, length};
ghost use Rattle.desk.specs.Desk.{nonzero_rows};
ghost use Rattle.desk.specs.Working.{Basing, Basis, Raising, Raised, change};

use field::Field;

// The polynomial with as many coefficients as points that is 1 at the column's point and 0 at the others.
pub fn basis(field: &Field, points: &[u8], column: usize) -> [u8; 16]
    requires { Basing field.now.degree points.now column }
    ensures { Basis field.now.degree points.now column result }
{
    let n = points.len();
    let mut unit = [0u8; 16];
    unit[column] = 1;
    let mut ws = [0u8; 1536];
    rows::lent::all_inverses(field, points, n, &mut ws);
    let mut own = [0u8; 16];
    mark::reading::read_row(field, points, n, &ws, &unit[..n], &mut own, 0);
    own
}

// Adds to the coefficients of each row what its new symbol in the column adds: the change of the symbol, divided by the column's
// factor, times the coefficients of the column's polynomial from the row's length on.
pub fn raise(
    field: &Field,
    lengths: &[u8],
    basis: &[u8],
    column: usize,
    factor: u8,
    array: &[u8],
    symbols: &[u8],
    above: &mut [u8],
)
    requires { Raising field.now.degree lengths.now basis.now column factor array.now symbols.now above.old }
    ensures { Raised field.now.degree lengths.now basis.now
        (change field.now.degree (length basis.now) column factor array.now symbols.now)
        (length lengths.now) above.old above.new }
{
    let n = basis.len();
    for (l, k) in lengths.iter().enumerate() {
        let start = l * n;
        let k = usize::from(*k);
        let moved = symbols[l] ^ array[start + column];
        let delta = field.quotient(moved, factor);
        lists::add_times(field, delta, &basis[k..], above, start + k);
    }
}

// How many of the r rows of n symbols have one other than zero.
pub fn nonzero_rows(above: &[u8], r: usize, n: usize) -> usize
    requires { r * n ≤ length above.now }
    ensures { result ≡ nonzero_rows r n above.now }
{
    let mut count = 0;
    for l in 0..r {
        let start = l * n;
        if !rows::all_zero(&above[start..start + n]) {
            count += 1;
        }
    }
    count
}
