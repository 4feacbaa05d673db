//! Storms, which are handled by workers on threads.
ghost use Rattle.std.specs.Prelude.{◌≤◌};

use crate::fault::Fault;
use sample_sites::site_of_cells;
use std::alloc::Global;
use std::fmt;
use std::sync::Wait;
use std::thread::Threads;
use storms::outcome::{Figures, Outcome};
use storms::storm::run_storm;
use storms::watch::Unwatched;

/// How many cells the site has, and how many TRX each of them.
const CELLS: u16 = 8;

const TRX: u16 = 3;

/// How many calls a storm has.
const CALLS: u16 = 64;

/// How many workers handle a storm's calls.
#[derive(Clone, Copy, Debug, PartialEq, Eq)]
pub enum Crew {
    One,
    Two,
    Four,
    Sixteen,
}

impl Crew {
    /// Whose storms the command line calls by this name.
    pub fn named(name: &str) -> Option<Crew> {
        match name {
            "storm.1" => Some(Crew::One),
            "storm.2" => Some(Crew::Two),
            "storm.4" => Some(Crew::Four),
            "storm.16" => Some(Crew::Sixteen),
            _ => None,
        }
    }

    /// How many they are.
    fn workers(self) -> u8
        ensures some { 1 ≤ result }
        ensures most { result ≤ 16 }
    {
        match self {
            Crew::One => 1,
            Crew::Two => 2,
            Crew::Four => 4,
            Crew::Sixteen => 16,
        }
    }
}

impl fmt::Display for Crew {
    fn fmt<W: fmt::Write>(&self, f: &mut fmt::Formatter<W>) -> fmt::Result {
        write!(f, "storm.{}", self.workers())
    }
}

/// What a storm tells, added up.
fn figures_sum(figures: Figures) -> u64 {
    let Figures {
        tally,
        channels,
        audit: _,
    } = figures;
    let counts = [
        tally.calls,
        tally.attempts,
        tally.completed,
        tally.undone,
        channels,
    ];
    counts
        .iter()
        .fold(0, |sum: u64, count| sum.wrapping_add(*count as u64))
}

/// A storm.
fn storm_once<R: Threads + Wait + Clone + Drop + Send + 'static>(
    rt: &R,
    alloc: Global,
    site: &str,
    crew: Crew,
) -> Result<u64, Fault> {
    let workers = crew.workers();
    match run_storm(rt, alloc, alloc, site, workers, CALLS, &mut Unwatched)? {
        Outcome::Done(figures) => Ok(figures_sum(figures)),
        Outcome::NoSite(_) | Outcome::TooSmall(_) | Outcome::Office(_) => Err(Fault::Setting),
    }
}

/// So many storms of 64 calls over a site of eight cells with three TRX each. The sum is that of what each tells: calls,
/// attempts, completed and undone ones, and channels in use.
pub fn storm_sum<R: Threads + Wait + Clone + Drop + Send + 'static>(
    rt: &R,
    alloc: Global,
    crew: Crew,
    count: u64,
) -> Result<u64, Fault> {
    let site = site_of_cells(alloc, CELLS, TRX, 0)?;
    let mut sum = 0u64;
    for _ in 0..count {
        sum = sum.wrapping_add(storm_once(rt, alloc, site.as_str(), crew)?);
    }
    Ok(sum)
}
