//! Output that is held back.
use std::alloc::Global;
use std::io::{self, Write};

/// A writer that holds back what it is given until it is flushed.
#[derive(Drop)]
pub struct Held<'a, W: Write> {
    out: &'a mut W,
    held: Vec<u8>,
    lacks_memory: bool,
}

impl<'a, W: Write> Held<'a, W> {
    /// A writer that holds back what is for `out`.
    pub fn new(alloc: Global, out: &'a mut W) -> Held<'a, W> {
        Held {
            out,
            held: Vec::new(alloc),
            lacks_memory: false,
        }
    }

    /// Whether memory was refused for output that should be held back.
    pub fn lacks_memory(&self) -> bool {
        self.lacks_memory
    }
}

impl<W: Write> Write for Held<'_, W> {
    fn write(&mut self, octets: &[u8]) -> io::Result<usize> {
        match self.held.extend_from_slice(octets) {
            Ok(()) => Ok(octets.len()),
            Err(refused) => {
                self.lacks_memory = true;
                Err(io::Error::from(refused))
            }
        }
    }

    fn flush(&mut self) -> io::Result<()> {
        self.out.write_all(self.held.as_slice())?;
        self.held.clear();
        self.out.flush()
    }
}
