//! Counts the lines that are printed.
use std::cell::Cell;
use std::io::{self, Write};

/// Passes octets on to `out`, and counts the lines that end in them.
#[derive(Drop)]
pub struct CountedLines<'a, W: Write> {
    out: &'a mut W,
    count: &'a Cell<usize>,
}

/// How many lines end among octets.
fn ended_in(octets: &[u8]) -> usize {
    octets.iter().filter(|octet| **octet == b'\n').count()
}

impl<'a, W: Write> CountedLines<'a, W> {
    /// A writer to `out` that adds to `count`.
    pub fn new(out: &'a mut W, count: &'a Cell<usize>) -> CountedLines<'a, W> {
        CountedLines { out, count }
    }

    /// These octets were passed on.
    fn add(&self, octets: &[u8]) {
        self.count
            .set(self.count.get().saturating_add(ended_in(octets)));
    }
}

impl<W: Write> Write for CountedLines<'_, W> {
    fn write(&mut self, octets: &[u8]) -> io::Result<usize> {
        let passed = self.out.write(octets)?;
        self.add(octets.get(..passed).unwrap_or(&[]));
        Ok(passed)
    }

    fn write_all(&mut self, octets: &[u8]) -> io::Result<()> {
        self.out.write_all(octets)?;
        self.add(octets);
        Ok(())
    }

    fn flush(&mut self) -> io::Result<()> {
        self.out.flush()
    }
}
