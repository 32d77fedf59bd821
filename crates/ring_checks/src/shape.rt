// For the crates above: the shape of a ring, its points and message lengths.
ghost use Rattle.std.specs.Prelude.{◌≡◌, false, ◌*◌, take};
ghost use mathlib.Core.List.{flat_map};
ghost use Rattle.hermitian.specs.Ring.{numbers, ring_length, ring_lengths, sector};
ghost use Rattle.hermitian.specs.Checks.{bad_order, bad_size};
ghost use Rattle.ring_checks.specs.Working.{Row};

// The x of the columns.
const X: [u8; 16] = [0, 1, 2, 3, 4, 5, 6, 7, 8, 9, 10, 11, 12, 13, 14, 15];

// The y of the points in order, for q = 2 and for q = 4.
const Y2: [u8; 8] = [0, 1, 2, 3, 2, 3, 2, 3];

const Y4: [u8; 64] = [
    0, 1, 6, 7, 2, 3, 4, 5, 10, 11, 12, 13, 10, 11, 12, 13, 8, 9, 14, 15, 8, 9, 14, 15, 8, 9, 14,
    15, 10, 11, 12, 13, 2, 3, 4, 5, 8, 9, 14, 15, 2, 3, 4, 5, 10, 11, 12, 13, 2, 3, 4, 5, 10, 11,
    12, 13, 8, 9, 14, 15, 2, 3, 4, 5,
];

// q as a count.
pub fn side(q: u32) -> usize
    ensures { result ≡ q }
{
    q as usize
}

// The points of the array's columns, of which q² count.
#[tactic(auto, unfolding(hermitian::specs::Checks::bad_size, hermitian::specs::Ring::numbers))]
pub fn columns(q: u32) -> [u8; 16]
    requires { bad_size q ≡ false }
    ensures { take (q * q) result ≡ numbers (q * q) }
{
    X
}

// The y of the ring's points, sector after sector, of which q³ count.
pub fn ordinates(q: u32) -> [u8; 64]
    requires { bad_size q ≡ false }
    ensures { take (q * q * q) result ≡ flat_map (sector q) (numbers (q * q)) }
{
    let mut ys = [0u8; 64];
    if q == 2 {
        patch::copy(&Y2, &mut ys);
    } else {
        patch::copy(&Y4, &mut ys);
    }
    ys
}

// The message length of row j.
#[tactic(auto, unfolding(hermitian::specs::Checks::bad_size, hermitian::specs::Ring::ring_length), using(hermitian::proofs::Sizes::orders))]
pub fn length(q: u32, m: u32, j: usize) -> u8
    requires { Row q m j }
    ensures { result ≡ ring_length q m j }
{
    ((m as usize - j * (side(q) + 1)) / side(q) + 1) as u8
}

// The message lengths of H(m), of which q count.
pub fn lengths(q: u32, m: u32) -> [u8; 4]
    requires q_value { bad_size q ≡ false }
    requires m_value { bad_order q m ≡ false }
    ensures { take q result ≡ ring_lengths q m }
{
    let mut ks = [0u8; 4];
    for j in 0..side(q) {
        ks[j] = length(q, m, j);
    }
    ks
}
