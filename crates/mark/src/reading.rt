// Reading, for a call that passed its checks.
ghost use Rattle.codes.specs.Code.{code_of};
ghost use Rattle.codes.proofs.Passed.{PassedReading};
ghost use Rattle.mark.specs.Working.{ArrayRead, MessageWritten, RowRead, RowReduced};
ghost use Rattle.mark.specs.Working.{Reading, ReadingRow, ReadingRows, ReducingRow};

use field::Field;

// k rounds of divided differences of the row, at the front of s, and whether the values behind its first k are all zero; ws are the
// inverses of the rounds. Up to 15 symbols behind the row change too.
fn reduce_row(field: &Field, points: &[u8], k: usize, ws: &[u8], row: &[u8], s: &mut [u8]) -> bool
    requires { ReducingRow field.now.degree points.now k ws.now row.now s.old }
    ensures { RowReduced field.now.degree k points.now row.now s.new result }
{
    rows::store(row, s, 0);
    rows::lent::reduce(field, points, k, ws, s);
    rows::all_zero(&s[k..row.len()])
}

// For the crates above: the polynomial of a row's first k divided differences, in s from `at` on, and whether the reduced values
// are all zero; ws are the inverses of the rounds.
pub fn read_row(
    field: &Field,
    points: &[u8],
    k: usize,
    ws: &[u8],
    row: &[u8],
    s: &mut [u8],
    at: usize,
) -> bool
    requires { ReadingRow field.now.degree points.now k ws.now row.now s.old at }
    ensures { RowRead field.now.degree k points.now row.now at s.old s.new result }
{
    let mut held = [0u8; 112];
    let good = reduce_row(field, points, k, ws, row, &mut held);
    rows::coefficients(field, points, &held[..k], s, at);
    good
}

// Row after row, at the front of s: the message of a code array, ws being the inverses of the longest row's rounds. Answers
// whether the array is one.
fn read_rows(
    field: &Field,
    lengths: &[u8],
    points: &[u8],
    ws: &[u8],
    array: &[u8],
    s: &mut [u8],
) -> bool
    requires { ReadingRows (code_of field.now.degree points.now lengths.now) ws.now array.now s.old }
    ensures { ArrayRead (code_of field.now.degree points.now lengths.now) array.now
        s.old s.new result }
{
    let mut at = 0;
    for (k, row) in lengths.iter().zip(array.chunks_exact(points.len())) {
        let k = usize::from(*k);
        if !read_row(field, points, k, ws, row, s, at) {
            return false;
        }
        at += k;
    }
    true
}

// The message of a code array, at the front of s. Answers whether the array is one.
fn read_array(field: &Field, lengths: &[u8], points: &[u8], array: &[u8], s: &mut [u8]) -> bool
    requires { Reading (code_of field.now.degree points.now lengths.now) array.now s.old }
    ensures { ArrayRead (code_of field.now.degree points.now lengths.now) array.now
        s.old s.new result }
{
    let mut ws = [0u8; 9216];
    let k = array_checks::largest(lengths);
    rows::lent::all_inverses(field, points, k, &mut ws);
    read_rows(field, lengths, points, &ws, array, s)
}

// Writes the message of a code array, and answers whether the array is one; where it is none the message's buffer is left as
// lent. The message is made in an array of our own, and released when all rows were found to be rows of the code.
pub(crate) fn write_message(
    degree: u32,
    lengths: &[u8],
    points: &[u8],
    array: &[u8],
    message: &mut [u8],
) -> bool
    requires { PassedReading (code_of degree points.now lengths.now) array.now message.old }
    ensures { MessageWritten (code_of degree points.now lengths.now) array.now
        message.old message.new result }
{
    let field = Field::new(degree);
    let mut held = [0u8; 96];
    let mut made = [0u8; 384];
    patch::copy(points, &mut held);
    let good = read_array(&field, lengths, &held[..points.len()], array, &mut made);
    if good {
        patch::copy(&made[..message.len()], message);
    }
    good
}
