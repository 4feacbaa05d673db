//! Lines of octets, one by one from a reader that is interrupted. Readers that break off stand in `lines.rt`.
use super::{Fail, equals, equals_at};
use decoded_lines::{Found, next_line};
use std::io::{self, BufRead, Read};
use std::process::Abort;

/// The next line of a reader is this.
fn gives<R: BufRead>(
    rt: &impl Abort,
    reader: &mut R,
    line: &mut Vec<u8>,
    wanted: &[u8],
) -> Result<(), Fail> {
    equals_at(rt, next_line(reader, line)?, Found::Line, wanted);
    equals(rt, line.as_slice(), wanted);
    Ok(())
}

/// A reader that is interrupted before each part of its text, of up to three octets.
#[derive(Drop)]
struct Interrupted<'a> {
    text: &'a [u8],
    is_ready: bool,
}

impl Read for Interrupted<'_> {
    fn read(&mut self, buf: &mut [u8]) -> io::Result<usize> {
        self.is_ready = !self.is_ready;
        if self.is_ready {
            return Err(io::Error::from(io::ErrorKind::Interrupted));
        }
        self.text.read(buf)
    }
}

#[test]
fn lines_in_parts(rt: HostRuntime) -> Result<(), Fail> {
    let inner = Interrupted {
        text: b"08 2e\n\n0a0b0c0d\n01",
        is_ready: false,
    };
    let mut reader = io::BufReader::with_capacity(rt.alloc(), 3, inner)?;
    let mut line = Vec::new(rt.alloc());
    for wanted in [b"08 2e".as_slice(), b"", b"0a0b0c0d", b"01"] {
        gives(&rt, &mut reader, &mut line, wanted)?;
    }
    equals(&rt, next_line(&mut reader, &mut line)?, Found::End);
    Ok(())
}
