use std::alloc::Global;
use std::io::{self, Write};

/// A writer one of whose writes fails.
#[derive(Drop)]
pub struct Failing {
    /// How many writes come before that one.
    before: u64,
    pub failed: bool,
    /// How many came behind it.
    pub behind: u64,
    pub text: Vec<u8>,
}

impl Failing {
    /// A writer whose first write after so many fails.
    pub fn after(alloc: Global, before: u64) -> Failing {
        Failing {
            before,
            failed: false,
            behind: 0,
            text: Vec::new(alloc),
        }
    }
}

impl Write for Failing {
    fn write(&mut self, octets: &[u8]) -> io::Result<usize> {
        if self.before == 0 && !self.failed {
            self.failed = true;
            return Err(io::Error::from(io::ErrorKind::Other));
        }
        if self.failed {
            self.behind = self.behind.saturating_add(1);
        }
        self.before = self.before.saturating_sub(1);
        self.text.extend_from_slice(octets)?;
        Ok(octets.len())
    }

    fn flush(&mut self) -> io::Result<()> {
        Ok(())
    }
}
