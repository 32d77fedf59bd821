use crate::{read_frame, read_full};
use std::io;
use std::io::{Error, ErrorKind, Read};

// Gives one byte a read, and is interrupted before each.
#[derive(Drop)]
struct Slow<'a> {
    rest: &'a [u8],
    interrupted: bool,
}

impl<'a> Read for Slow<'a> {
    fn read(&mut self, buf: &mut [u8]) -> io::Result<usize> {
        self.interrupted = !self.interrupted;
        if self.interrupted {
            return Err(Error::from(ErrorKind::Interrupted));
        }
        let n = self.rest.len().min(buf.len()).min(1);
        buf[..n].copy_from_slice(&self.rest[..n]);
        self.rest = &self.rest[n..];
        Ok(n)
    }
}

// Fails at once.
#[derive(Drop)]
struct Broken;

impl Read for Broken {
    fn read(&mut self, buf: &mut [u8]) -> io::Result<usize> {
        Err(Error::from(ErrorKind::TimedOut))
    }
}

#[test]
fn one_byte_a_read(rt: HostRuntime) {
    let mut input = Slow {
        rest: b"abcde",
        interrupted: false,
    };
    let mut buf = [0u8; 3];
    let first = read_full(&mut input, &mut buf);
    assert!(rt; first.is_ok_and(|n| n == 3));
    assert!(rt; buf == [97, 98, 99]);
    let second = read_full(&mut input, &mut buf);
    assert!(rt; second.is_ok_and(|n| n == 2));
    assert!(rt; buf == [100, 101, 99]);
    let third = read_full(&mut input, &mut buf);
    assert!(rt; third.is_ok_and(|n| n == 0));
}

#[test]
fn no_byte_read_ahead(rt: HostRuntime) {
    let mut input: &[u8] = b"abcde";
    let mut buf = [0u8; 3];
    let first = read_full(&mut input, &mut buf);
    assert!(rt; first.is_ok_and(|n| n == 3));
    assert!(rt; input == b"de".as_slice());
}

#[test]
fn a_failed_read(rt: HostRuntime) {
    let mut buf = [0u8; 3];
    let failed = read_full(&mut Broken, &mut buf);
    assert!(rt; failed.is_err_and(|e| e.kind() == ErrorKind::TimedOut));
}

#[test]
fn a_whole_frame_and_a_part(rt: HostRuntime) {
    let mut input: &[u8] = b"abcde";
    let first = read_frame(&mut input);
    assert!(rt; first.is_ok_and(|frame| frame == Some([97, 98, 99])));
    let second = read_frame::<_, 3>(&mut input);
    assert!(rt; second.is_ok_and(|frame| frame.is_none()));
}
