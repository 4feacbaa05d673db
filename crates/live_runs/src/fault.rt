//! Why lines aren't taken to their end.
ghost use Rattle.std.specs.Prelude.{◌≡◌};

use run_listeners::LabFault;
use std::alloc::AllocError;
use std::io;
use thiserror::Error;

/// Why lines aren't taken to their end.
#[derive(Clone, Copy, Debug, Error)]
pub enum LiveFault {
    /// Memory was refused.
    #[error("memory was refused")]
    NoMemory,
    /// A write of what came of a line failed.
    #[error("the output can't be written")]
    Write,
    /// A read of a line failed.
    #[error("{0}")]
    Read(io::Error),
}

impl From<AllocError> for LiveFault {
    ghost use Rattle.live_runs.specs.declared.fault.LiveFault.TheVariants.{NoMemory};

    ghost from_gives = { λ _ fault. fault ≡ NoMemory };

    fn from(_: AllocError) -> LiveFault {
        LiveFault::NoMemory
    }
}

impl From<io::Error> for LiveFault {
    ghost use Rattle.live_runs.specs.declared.fault.LiveFault.TheVariants.{Write};

    ghost from_gives = { λ _ fault. fault ≡ Write };

    fn from(_: io::Error) -> LiveFault {
        LiveFault::Write
    }
}

impl From<LabFault> for LiveFault {
    ghost use Rattle.live_runs.specs.Faults.{live_fault_of};

    ghost from_gives = { λ lab fault. fault ≡ live_fault_of lab };

    fn from(fault: LabFault) -> LiveFault {
        match fault {
            LabFault::NoMemory => LiveFault::NoMemory,
            LabFault::Write => LiveFault::Write,
        }
    }
}

/// Why a line wasn't read.
pub(crate) fn unreadable_line(error: io::Error) -> LiveFault {
    if error.kind() == io::ErrorKind::OutOfMemory {
        LiveFault::NoMemory
    } else {
        LiveFault::Read(error)
    }
}
