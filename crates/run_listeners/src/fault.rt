//! Why the work didn't come to its end.
ghost use Rattle.std.specs.Prelude.{◌≡◌};

use std::alloc::AllocError;
use std::io;
use thiserror::Error;

/// Why the work didn't come to its end.
#[derive(Clone, Copy, Debug, PartialEq, Eq, Error)]
pub enum LabFault {
    /// Memory was refused.
    #[error("memory was refused")]
    NoMemory,
    /// A write of the output failed.
    #[error("the output can't be written")]
    Write,
}

impl From<AllocError> for LabFault {
    ghost use Rattle.run_listeners.specs.declared.fault.LabFault.TheVariants.{NoMemory};

    ghost from_gives = { λ _ fault. fault ≡ NoMemory };

    fn from(_: AllocError) -> Self {
        Self::NoMemory
    }
}

impl From<io::Error> for LabFault {
    ghost use Rattle.run_listeners.specs.declared.fault.LabFault.TheVariants.{Write};

    ghost from_gives = { λ _ fault. fault ≡ Write };

    fn from(_: io::Error) -> Self {
        Self::Write
    }
}
