//! `bsc_bench` repeats a case, so that its instructions can be counted.
//!
//! `bsc_bench NAME N [OCTETS]` does the case `NAME` `N` times on octets in hexadecimal, or on the case's own, and
//! prints the name, the count and what the results add up to. What is read gets another octet in each iteration,
//! what is written is one of two messages alternately. `bsc_bench all N` does every case so, on its own octets.
//! `bsc_bench storm.W N` runs `N` storms with `W` workers: 1, 2, 4 or 16.
#![tactic(auto)]

use bench_cases::case::{CASES, Case};
use bench_cases::fault::Fault;
use bench_cases::storm::{Crew, storm_sum};
use bench_cases::sum_of;
use bench_cases::words::{Job, read_words};
use std::env::{self, Env};
use std::io;
use std::process::ExitCode;
use std::sync::Wait;
use std::thread::Threads;

/// Does a case and prints its line.
fn show<R: Print + AllocGlobal>(
    rt: &R,
    case: Case,
    count: u64,
    octets: &[u8],
) -> Result<(), Fault> {
    let sum = sum_of(rt.alloc(), case, count, octets)?;
    println!(rt; "{case} {count} {sum}")?;
    Ok(())
}

/// Runs storms and prints their line.
fn show_storms<R: Print + AllocGlobal + Threads + Wait + Clone + Drop + Send + 'static>(
    rt: &R,
    crew: Crew,
    count: u64,
) -> Result<(), Fault> {
    let sum = storm_sum(rt, rt.alloc(), crew, count)?;
    println!(rt; "{crew} {count} {sum}")?;
    Ok(())
}

/// The words of the command line. One that isn't UTF-8 names nothing.
fn words_of<R: Env + AllocGlobal>(rt: &R) -> Result<Vec<String>, Fault> {
    match env::args(rt) {
        Ok(words) => Ok(words.collect(rt.alloc())?),
        Err(error) if error.kind() == io::ErrorKind::OutOfMemory => Err(Fault::NoMemory),
        Err(_) => Err(Fault::Words),
    }
}

/// Does what the words of the command line ask for.
fn start<R: Print + Env + AllocGlobal + Threads + Wait + Clone + Drop + Send + 'static>(
    rt: &R,
) -> Result<(), Fault> {
    let alloc = rt.alloc();
    let words = words_of(rt)?;
    let words: Vec<&str> = words
        .iter()
        .skip(1)
        .map(|word| word.as_str())
        .collect(alloc)?;
    match read_words(alloc, &words)? {
        Job::One {
            case,
            count,
            octets,
        } => show(rt, case, count, octets.as_slice())?,
        Job::Storms { crew, count } => show_storms(rt, crew, count)?,
        Job::All { count } => {
            for case in CASES {
                show(rt, case, count, case.octets)?;
            }
        }
    }
    Ok(())
}

fn main(rt: HostRuntime) -> ExitCode {
    match start(&rt) {
        Ok(()) => ExitCode::SUCCESS,
        Err(fault) => {
            let _ = eprintln!(&rt; "{fault}");
            ExitCode::from(fault.status())
        }
    }
}
