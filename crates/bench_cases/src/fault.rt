//! Why the program gives no sum.
ghost use Rattle.std.specs.Prelude.{◌≡◌};
ghost use Rattle.bench_cases.specs.Statuses.{status_of};

use bssmap_messages::BssmapFault;
use cell_table::SiteFault;
use ho_procedure::controller::Stop;
use rr_messages::RrFault;
use rsl_messages::RslFault;
use std::alloc::AllocError;
use std::io;
use thiserror::Error;

/// Why the program gives no sum.
#[derive(Clone, Copy, Debug, PartialEq, Eq, Error)]
pub enum Fault {
    /// The words name no case and count, or the octets are no message that the case can read.
    #[error("usage: bsc_bench NAME N [OCTETS] | bsc_bench all N")]
    Words,
    /// Memory was refused.
    #[error("memory was refused")]
    NoMemory,
    /// The standard output took no more.
    #[error("the sum can't be printed")]
    Output,
    /// What a case starts from is refused, as the site or a call that should be steady.
    #[error("the setting of the case is refused")]
    Setting,
}

impl Fault {
    /// The status that the program ends with.
    pub fn status(self) -> u8
        ensures status { result ≡ status_of self }
    {
        match self {
            Fault::Setting => 1,
            Fault::Words | Fault::Output => 2,
            Fault::NoMemory => 3,
        }
    }
}

impl From<AllocError> for Fault {
    ghost use Rattle.bench_cases.specs.declared.fault.Fault.TheVariants.{NoMemory};

    ghost from_gives = { λ _ fault. fault ≡ NoMemory };

    fn from(_: AllocError) -> Self {
        Self::NoMemory
    }
}

impl From<RslFault> for Fault {
    ghost use Rattle.bench_cases.specs.Statuses.{of_abis};

    ghost from_gives = { λ cause fault. fault ≡ of_abis cause };

    fn from(cause: RslFault) -> Self {
        match cause {
            RslFault::NoMemory => Self::NoMemory,
            _ => Self::Words,
        }
    }
}

impl From<RrFault> for Fault {
    ghost use Rattle.bench_cases.specs.Statuses.{of_radio};

    ghost from_gives = { λ cause fault. fault ≡ of_radio cause };

    fn from(cause: RrFault) -> Self {
        match cause {
            RrFault::NoMemory => Self::NoMemory,
            _ => Self::Words,
        }
    }
}

impl From<BssmapFault> for Fault {
    ghost use Rattle.bench_cases.specs.Statuses.{of_a};

    ghost from_gives = { λ cause fault. fault ≡ of_a cause };

    fn from(cause: BssmapFault) -> Self {
        match cause {
            BssmapFault::NoMemory => Self::NoMemory,
            _ => Self::Words,
        }
    }
}

impl From<Stop> for Fault {
    ghost use Rattle.bench_cases.specs.Statuses.{of_procedure};

    ghost from_gives = { λ cause fault. fault ≡ of_procedure cause };

    fn from(cause: Stop) -> Self {
        match cause {
            Stop::NoMemory => Self::NoMemory,
            Stop::Undecoded(_, _) => Self::Words,
            Stop::Desk(_) => Self::Setting,
        }
    }
}

impl From<SiteFault> for Fault {
    ghost use Rattle.bench_cases.specs.Statuses.{of_site};

    ghost from_gives = { λ cause fault. fault ≡ of_site cause };

    fn from(cause: SiteFault) -> Self {
        match cause {
            SiteFault::NoMemory => Self::NoMemory,
            SiteFault::Toml
            | SiteFault::Missing(_)
            | SiteFault::Range(_)
            | SiteFault::Twice(_)
            | SiteFault::NoTraffic(_) => Self::Setting,
        }
    }
}

impl From<io::Error> for Fault {
    ghost use Rattle.bench_cases.specs.declared.fault.Fault.TheVariants.{Output};

    ghost from_gives = { λ _ fault. fault ≡ Output };

    fn from(_: io::Error) -> Self {
        Self::Output
    }
}
