//! What comes of a storm.
ghost use Rattle.std.specs.Prelude.{◌≡◌, Some};
ghost use Rattle.storms.specs.Outcomes.{figures_text};
ghost use Rattle.storms.specs.Endings.{EndsAs, EndsBefore, EndsUnreadable};

use crate::trip::{Shortage, TripFault};
use call_worker::{CloseFault, GiveFault, StartFault, Unclosed};
use cell_table::SiteFault;
use radio_desk::audit::Audit;
use radio_desk::tally::Tally;
use rsl_messages::RslFault;
use std::alloc::{AllocError, Allocator};
use std::fmt;
use thiserror::Error;

/// What a desk tells of a storm that came to its end.
#[derive(Clone, Copy, Debug, PartialEq, Eq)]
pub struct Figures {
    /// How many calls and attempts began, and how many attempts were completed or taken back.
    pub tally: Tally,
    /// How many channels are in use at the end.
    pub channels: usize,
    /// Whether the attempts that were taken back, and are settled, left a trace together.
    pub audit: Audit,
}

/// What an office can't do, other than for want of memory.
#[derive(Clone, Copy, Debug, Error)]
pub enum OfficeFault {
    /// The system has no thread for a worker.
    #[error("no thread can be started")]
    Thread,
    /// A simulator sent octets that are no message on Abis.
    #[error("{0}")]
    Undecoded(RslFault),
    /// A worker has ended before the storm did.
    #[error("worker {0} has ended")]
    Ended(usize),
    /// The workers' receipts aren't the desk's history.
    #[error("{0}")]
    Closed(CloseFault),
}

/// How a storm ended.
#[derive(Clone, Copy, Debug)]
pub enum Outcome {
    /// All calls were opened, tried to move and were hung up.
    Done(Figures),
    /// The text describes no site, and nothing was run.
    NoSite(SiteFault),
    /// The site is too small for so many calls, and nothing was run.
    TooSmall(Shortage),
    /// The office failed. Its workers have ended.
    Office(OfficeFault),
}

/// Why a storm didn't come to its end.
#[derive(Clone, Copy, Debug)]
pub(crate) enum StormFault {
    /// The office failed.
    Office(OfficeFault),
    /// Memory was refused.
    NoMemory,
}

impl From<AllocError> for StormFault {
    ghost use Rattle.storms.specs.declared.outcome.StormFault.TheVariants.{NoMemory};

    ghost from_gives = { λ _ fault. fault ≡ NoMemory };

    fn from(_: AllocError) -> StormFault {
        StormFault::NoMemory
    }
}

impl From<StartFault> for StormFault {
    ghost use Rattle.storms.specs.Endings.{of_start};

    ghost from_gives = { λ fault storm. storm ≡ of_start fault };

    fn from(fault: StartFault) -> StormFault {
        match fault {
            StartFault::Thread => StormFault::Office(OfficeFault::Thread),
            StartFault::NoMemory => StormFault::NoMemory,
        }
    }
}

impl From<GiveFault> for StormFault {
    ghost use Rattle.storms.specs.Endings.{of_give};

    ghost from_gives = { λ fault storm. storm ≡ of_give fault };

    fn from(fault: GiveFault) -> StormFault {
        match fault {
            GiveFault::Undecoded(fault) => StormFault::Office(OfficeFault::Undecoded(fault)),
            GiveFault::Ended(worker) => StormFault::Office(OfficeFault::Ended(worker)),
            GiveFault::NoMemory => StormFault::NoMemory,
        }
    }
}

impl From<CloseFault> for StormFault {
    ghost use Rattle.storms.specs.Endings.{of_close};

    ghost from_gives = { λ fault storm. storm ≡ of_close fault };

    fn from(fault: CloseFault) -> StormFault {
        match fault {
            CloseFault::Missing(_)
            | CloseFault::Twice(_)
            | CloseFault::Count
            | CloseFault::Opening => StormFault::Office(OfficeFault::Closed(fault)),
            CloseFault::NoMemory => StormFault::NoMemory,
        }
    }
}

impl<L: Drop, A: Allocator> From<Unclosed<L, A>> for StormFault {
    ghost use Rattle.storms.specs.Endings.{of_close};

    ghost from_gives = { λ unclosed storm. storm ≡ of_close unclosed.fault };

    fn from(unclosed: Unclosed<L, A>) -> StormFault {
        StormFault::from(unclosed.fault)
    }
}

/// Five lines: `calls`, `attempts`, `completed`, `undone` and `channels in use`, each with its number. What the audit comes to
/// is left to others.
impl fmt::Display for Figures {
    ghost output = { λ figures. Some (figures_text figures) };

    fn fmt<W: fmt::Write>(&self, f: &mut fmt::Formatter<W>) -> fmt::Result {
        write!(
            f,
            "calls {}\nattempts {}\ncompleted {}\nundone {}\nchannels in use {}\n",
            self.tally.calls,
            self.tally.attempts,
            self.tally.completed,
            self.tally.undone,
            self.channels
        )
    }
}

/// What comes of it that no trips are made.
pub(crate) fn untravelled(fault: TripFault) -> Result<Outcome, AllocError>
    ensures { EndsBefore fault result }
{
    match fault {
        TripFault::Short(shortage) => Ok(Outcome::TooSmall(shortage)),
        TripFault::NoMemory => Err(AllocError),
    }
}

/// What comes of a site's text that describes none.
pub(crate) fn unreadable(fault: SiteFault) -> Result<Outcome, AllocError>
    ensures { EndsUnreadable fault result }
{
    match fault {
        SiteFault::NoMemory => Err(AllocError),
        SiteFault::Toml
        | SiteFault::Missing(_)
        | SiteFault::Range(_)
        | SiteFault::Twice(_)
        | SiteFault::NoTraffic(_) => Ok(Outcome::NoSite(fault)),
    }
}

/// What comes of a storm that was run.
pub(crate) fn outcome_of(ended: Result<Figures, StormFault>) -> Result<Outcome, AllocError>
    ensures { EndsAs ended result }
{
    match ended {
        Ok(figures) => Ok(Outcome::Done(figures)),
        Err(StormFault::Office(fault)) => Ok(Outcome::Office(fault)),
        Err(StormFault::NoMemory) => Err(AllocError),
    }
}
