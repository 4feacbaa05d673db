//! The words of the command line.
use crate::case::{CASES, Case, find};
use crate::fault::Fault;
use crate::storm::Crew;
use hex::FromHexError;
use std::alloc::Global;

/// What the command line asks for.
#[derive(Drop)]
pub enum Job {
    /// One case, so many times, on these octets.
    One {
        case: Case,
        count: u64,
        octets: Vec<u8>,
    },
    /// So many storms, handled by so many workers.
    Storms {
        crew: Crew,
        count: u64,
    },
    /// Every case, so many times, on its own octets.
    All {
        count: u64,
    },
}

/// Octets in hexadecimal.
fn read_octets(alloc: Global, word: &str) -> Result<Vec<u8>, Fault> {
    hex::decode(alloc, word).map_err(|fault| match fault {
        FromHexError::OutOfMemory => Fault::NoMemory,
        _ => Fault::Words,
    })
}

fn read_count(word: &str) -> Result<u64, Fault> {
    word.parse::<u64>().map_err(|_| Fault::Words)
}

fn read_case(word: &str) -> Result<Case, Fault> {
    find(&CASES, word).ok_or(Fault::Words)
}

/// A case on its own octets.
fn on_own_octets(alloc: Global, case: Case, count: u64) -> Result<Job, Fault> {
    let octets = Vec::from_slice(alloc, case.octets)?;
    Ok(Job::One {
        case,
        count,
        octets,
    })
}

/// A case on octets in hexadecimal.
fn on_octets(alloc: Global, case: Case, count: u64, octets: &str) -> Result<Job, Fault> {
    let octets = read_octets(alloc, octets)?;
    Ok(Job::One {
        case,
        count,
        octets,
    })
}

/// A case on its own octets, or storms.
fn of_name(alloc: Global, name: &str, count: u64) -> Result<Job, Fault> {
    match Crew::named(name) {
        Some(crew) => Ok(Job::Storms { crew, count }),
        None => on_own_octets(alloc, read_case(name)?, count),
    }
}

/// Reads the words after the program's name: `all N`, `NAME N` or `NAME N OCTETS`; storms have no octets, and aren't among
/// all.
pub fn read_words(alloc: Global, words: &[&str]) -> Result<Job, Fault> {
    match words {
        ["all", count] => Ok(Job::All {
            count: read_count(count)?,
        }),
        [name, count] => of_name(alloc, name, read_count(count)?),
        [name, count, octets] => on_octets(alloc, read_case(name)?, read_count(count)?, octets),
        _ => Err(Fault::Words),
    }
}
