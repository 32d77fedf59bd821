// For the crates above: from an array to its ring, and back.
ghost use Rattle.std.specs.Prelude.{◌≡◌, false, ◌*◌, ◌/◌, length, take};
ghost use Rattle.hermitian.specs.Ring.{ArrayOf, ring_of};
ghost use Rattle.hermitian.specs.Checks.{bad_size};
ghost use Rattle.hermitian.proofs.Kernel.{Summed};
ghost use Rattle.ring.specs.Working.{ArrayGiven, RingGiven, RowGiven, SectorGiven, SectorsGiven, SumGiven, Holds};
ghost use Rattle.ring.specs.Working.{row_added, row_summed, sector_sum};

use field::Field;
use ring_checks::shape;

// The sum of the symbols of sector x.
#[tactic(auto, unfolding(hermitian::specs::Checks::bad_size, field::specs::Symbols::plus, hermitian::proofs::Kernel::sum_to))]
fn sector_sum(q: u32, v: &[u8], x: usize) -> u8
    requires { SectorGiven q v.now x }
    ensures { result ≡ sector_sum q v.now x }
{
    if q == 2 {
        return v[2 * x] ^ v[2 * x + 1];
    }
    v[4 * x] ^ v[4 * x + 1] ^ v[4 * x + 2] ^ v[4 * x + 3]
}

// The sums of the sectors of v, as the array's row at `at`.
fn sum_row(q: u32, v: &[u8], array: &mut [u8], at: usize)
    requires { SumGiven q v.now at array.old }
    ensures { array.new ≡ row_summed q v.now at array.old }
{
    let n = shape::side(q);
    for x in 0..n * n {
        array[at + x] = sector_sum(q, v, x);
    }
}

// The array of a ring from its last row to its first, v beginning with a copy of the ring: the sums of the sectors, multiplied by y
// from row to row, and in the first row the ring added.
fn carry_sums(field: &Field, ys: &[u8], ring: &[u8], v: &mut [u8], array: &mut [u8])
    requires sectors_given { SectorsGiven field.now.degree ys.now ring.now array.old }
    requires holds { Holds field.now.degree ring.now v.old }
    ensures { Summed field.now.degree ring.now array.new }
{
    let q = field.degree;
    let n = shape::side(q);
    for j in (1..n).rev() {
        sum_row(q, v, array, j * (n * n));
        lists::multiply(field, ys, 0, v, 0, 0);
    }
    lists::add(ring, v, 0);
    sum_row(q, v, array, 0);
}

// The sector of a place; a division by a constant is quicker than one by q.
#[tactic(auto, unfolding(hermitian::specs::Checks::bad_size))]
fn sector_of(q: u32, i: usize) -> usize
    requires { bad_size q ≡ false }
    ensures { result ≡ i / q }
{
    if q == 2 { i / 2 } else { i / 4 }
}

// Adds to the symbols of each sector the symbol of its column in the array's row at `at`.
fn add_row(q: u32, array: &[u8], at: usize, ring: &mut [u8])
    requires { RowGiven q array.now at ring.old }
    ensures { ring.new ≡ row_added q array.now at ring.old }
{
    for (i, symbol) in ring.iter_mut().enumerate() {
        *symbol ^= array[at + sector_of(q, i)];
    }
}

// The ring of an array from its last row to its first, by Horner's rule in y at all points at once.
fn carry_rows(field: &Field, ys: &[u8], array: &[u8], ring: &mut [u8])
    requires sectors_given { SectorsGiven field.now.degree ys.now array.now ring.old }
    requires ring_len { length ring.old ≡ field.now.degree * field.now.degree * field.now.degree }
    ensures { ring.new ≡ ring_of field.now.degree array.now }
{
    ring.fill(0);
    let q = field.degree;
    let n = shape::side(q);
    for j in (1..n).rev() {
        add_row(q, array, j * (n * n), ring);
        lists::multiply(field, ys, 0, ring, 0, 0);
    }
    add_row(q, array, 0, ring);
}

// The ring of an array.
pub fn to_ring(q: u32, array: &[u8], ring: &mut [u8])
    requires { ArrayGiven q array.now ring.old }
    ensures { ring.new ≡ ring_of q array.now }
{
    let field = Field::new(q);
    let ys = shape::ordinates(q);
    carry_rows(&field, &ys[..array.len()], array, ring);
}

// The array of a ring, of which as many symbols count as the ring has.
pub fn array_of(q: u32, ring: &[u8]) -> [u8; 64]
    requires { RingGiven q ring.now }
    ensures { ArrayOf q ring.now (take (length ring.now) result) }
{
    let field = Field::new(q);
    let ys = shape::ordinates(q);
    let mut held = [0u8; 64];
    held[..ring.len()].copy_from_slice(ring);
    let mut array = [0u8; 64];
    carry_sums(&field, &ys[..ring.len()], ring, &mut held, &mut array);
    array
}
