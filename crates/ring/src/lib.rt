// Hermitian rings: encoding and reading.
#![tactic(auto)]

ghost use Rattle.std.specs.Prelude.{◌≡◌};
ghost use Rattle.refusal.specs.Refusal.{first};
ghost use Rattle.mark.specs.Promises.{left};
ghost use Rattle.hermitian.specs.Ring.{ring_word};
ghost use Rattle.hermitian.specs.Checks.{encode_checks, read_checks};
ghost use Rattle.ring.specs.Promises.{Encodes, Reads};

pub mod carry;

use refusal::Refusal;
use ring_checks::{checks, shape};

// Writes the word of a message that passed the checks: the ring of its code array.
fn write_word(q: u32, m: u32, message: &[u8], word: &mut [u8])
    requires { 0 ≡ first (encode_checks q m message.now word.old) }
    ensures { word.new ≡ ring_word q m message.now }
{
    let n = shape::side(q);
    let ks = shape::lengths(q, m);
    let xs = shape::columns(q);
    let ones = [1u8; 16];
    let mut array = [0u8; 64];
    // A message that passed the checks of the ring passes those of the array: this refuses nothing.
    let _ = mark::encode(
        q,
        &ks[..n],
        &xs[..n * n],
        &ones[..n * n],
        message,
        &mut array[..word.len()],
    );
    carry::to_ring(q, &array[..word.len()], word);
}

// Writes the message of a ring that passed the checks, if it has one: that of its array.
fn read_word(q: u32, m: u32, word: &[u8], message: &mut [u8]) -> Result<(), Refusal>
    requires { 0 ≡ first (read_checks q m word.now message.old) }
    ensures { Reads q m word.now message.old (left result message.new) }
{
    let n = shape::side(q);
    let ks = shape::lengths(q, m);
    let xs = shape::columns(q);
    let ones = [1u8; 16];
    let array = carry::array_of(q, word);
    mark::read(
        q,
        &ks[..n],
        &xs[..n * n],
        &ones[..n * n],
        &array[..word.len()],
        message,
    )
}

// Writes the word of H(m) of a message; refusals 10, 11, 18, 5 and 7, which leave the word's buffer as lent.
pub fn encode(q: u32, m: u32, message: &[u8], word: &mut [u8]) -> Result<(), Refusal>
    ensures { Encodes q m message.now word.old (left result word.new) }
{
    checks::encode_refusal(q, m, message, word.len())?;
    write_word(q, m, message, word);
    Ok(())
}

// Writes the message of a word of H(m); refusals 10, 11, 18, 5 and 7, and 9 where the ring is no word. They leave the message's
// buffer as lent.
pub fn read(q: u32, m: u32, word: &[u8], message: &mut [u8]) -> Result<(), Refusal>
    ensures { Reads q m word.now message.old (left result message.new) }
{
    checks::read_refusal(q, m, word, message.len())?;
    read_word(q, m, word, message)
}
