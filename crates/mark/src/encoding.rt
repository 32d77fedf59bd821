// Encoding, for a call that passed its checks.
ghost use Rattle.std.specs.Prelude.{◌≡◌};
ghost use Rattle.patch.specs.Parts.{lay};
ghost use Rattle.codes.specs.Code.{code_of, encoded};
ghost use Rattle.codes.proofs.Passed.{PassedEncoding};
ghost use Rattle.mark.specs.Working.{Writing};

use field::bits::Reducer;

// Row after row, at the front of s: the values at the points of the row's part of the message.
fn write_rows(reducer: Reducer, lengths: &[u8], points: &[u8], message: &[u8], s: &mut [u8])
    requires { Writing (code_of reducer.degree points.now lengths.now) message.now s.old }
    ensures { s.new
        ≡ lay 0 (encoded (code_of reducer.degree points.now lengths.now) message.now) s.old }
{
    let mut from = 0;
    let mut at = 0;
    for k in lengths {
        let k = usize::from(*k);
        rows::values(reducer, points, &message[from..from + k], s, at);
        from += k;
        at += points.len();
    }
}

// Writes the code array of the message. The rows are made in an array of our own, and released when all are there.
pub(crate) fn write_array(
    degree: u32,
    lengths: &[u8],
    points: &[u8],
    message: &[u8],
    array: &mut [u8],
)
    requires { PassedEncoding (code_of degree points.now lengths.now) message.now array.old }
    ensures { array.new ≡ encoded (code_of degree points.now lengths.now) message.now }
{
    let reducer = Reducer::new(degree);
    let mut held = [0u8; 96];
    let mut made = [0u8; 384];
    patch::copy(points, &mut held);
    write_rows(reducer, lengths, &held[..points.len()], message, &mut made);
    patch::copy(&made[..array.len()], array);
}
