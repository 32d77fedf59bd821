// Reading a whole buffer, or a whole frame.
#![tactic(auto)]

#[cfg(test)]
mod tests;

ghost use Rattle.std.specs.Prelude.{◌≡◌, ◌<◌, List, ℕ, IfOk, MatchOption, length, take};
ghost use Rattle.std.specs.Io.{ReadsAtMost};
ghost use Rattle.std.specs.Io.KnownBytes.{Consumes, IsAtEnd};

use std::io;
use std::io::{Error, ErrorKind, Read};

// Reads until the buffer is full or the input ends, and answers how many bytes came; an interrupted read is made again.
pub fn read_full<R: Read>(input: &mut R, buf: &mut [u8]) -> io::Result<usize>
    ensures same_length { length buf.new ≡ length buf.old }
    ensures count { ReadsAtMost result buf.new }
    ensures bytes { IfOk result
        (λ n. Consumes (R.remaining input.old) (R.remaining input.new) (take n buf.new)) }
    ensures end { IfOk result (λ n. n < length buf.new → IsAtEnd (R.remaining input.new)) }
{
    let mut done = 0;
    for _ in 0..u64::MAX {
        if done >= buf.len() {
            return Ok(done);
        }
        match input.read(&mut buf[done..]) {
            Ok(0) => return Ok(done),
            Ok(n) => done += n,
            // Nothing is to be done before it is made again: the arm is empty, and an `if` in the next one would be no plainer.
            Err(e) if e.kind() == ErrorKind::Interrupted => {}
            Err(e) => return Err(e),
        }
    }
    Err(Error::from(ErrorKind::Interrupted))
}

// Reads the next frame, and answers none where the input ends before it is whole; what was left is read then, less than a frame.
pub fn read_frame<R: Read, const N: usize>(input: &mut R) -> io::Result<Option<[u8; N]>>
    ensures { IfOk result (λ next. MatchOption next
        ((part : List ℕ) × (length part < N) × Consumes (R.remaining input.old) (R.remaining input.new) part
        × IsAtEnd (R.remaining input.new))
        (λ frame. Consumes (R.remaining input.old) (R.remaining input.new) frame)) }
{
    let mut frame = [0; N];
    if read_full(input, &mut frame)? < N {
        return Ok(None);
    }
    Ok(Some(frame))
}
