// Interleaved Reed-Solomon arrays: encoding and reading.
#![tactic(auto)]

mod encoding;
pub mod reading;

ghost use Rattle.codes.specs.Factors.{description_of};
ghost use Rattle.mark.specs.Promises.{Encodes, Reads, left};

use refusal::Refusal;

// The outcome of a call, and the next thing, which it hands over whatever the outcome.
#[derive(Clone, Copy)]
pub struct Handed<T> {
    pub outcome: Result<(), Refusal>,
    pub next: T,
}

// Writes what is struck for a message: its code array, each column times its factor; refusals 1 to 7, 18 behind 4 and 23 behind 6,
// which leave the array's buffer as lent.
pub fn encode(
    degree: u32,
    lengths: &[u8],
    points: &[u8],
    factors: &[u8],
    message: &[u8],
    array: &mut [u8],
) -> Result<(), Refusal>
    ensures { Encodes (description_of degree points.now factors.now lengths.now)
        message.now array.old (left result array.new) }
{
    array_checks::encode_refusal(degree, lengths, points, factors, message, array.len())?;
    encoding::write_array(degree, lengths, points, message, array);
    factors::multiply(degree, factors, lengths.len(), array);
    Ok(())
}

// Writes the message for which an array was struck; refusals 1 to 7, 18 behind 4 and 23 behind 6, and 9 where there is none. They
// leave the message's buffer as lent.
pub fn read(
    degree: u32,
    lengths: &[u8],
    points: &[u8],
    factors: &[u8],
    array: &[u8],
    message: &mut [u8],
) -> Result<(), Refusal>
    ensures { Reads (description_of degree points.now factors.now lengths.now)
        array.now message.old (left result message.new) }
{
    array_checks::read_refusal(degree, lengths, points, factors, array, message.len())?;
    let mut plain = [0u8; 384];
    factors::divide(degree, factors, lengths.len(), array, &mut plain);
    if !reading::write_message(degree, lengths, points, &plain[..array.len()], message) {
        return Err(Refusal::NoCodeArray);
    }
    Ok(())
}
