//! Why something isn't printed.
ghost use Rattle.std.specs.Prelude.{◌≡◌};

use std::alloc::AllocError;
use std::io;

/// Why something isn't printed.
#[derive(Clone, Copy, Debug, PartialEq, Eq)]
pub enum PrintFault {
    /// Memory was refused.
    NoMemory,
    /// A write failed.
    Write,
}

impl From<AllocError> for PrintFault {
    ghost use Rattle.screen_text.specs.declared.fault.PrintFault.TheVariants.{NoMemory};

    ghost from_gives = { λ _ fault. fault ≡ NoMemory };

    fn from(_: AllocError) -> PrintFault {
        PrintFault::NoMemory
    }
}

impl From<io::Error> for PrintFault {
    ghost use Rattle.screen_text.specs.declared.fault.PrintFault.TheVariants.{Write};

    ghost from_gives = { λ _ fault. fault ≡ Write };

    fn from(_: io::Error) -> PrintFault {
        PrintFault::Write
    }
}
