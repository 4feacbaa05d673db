//! A laboratory of a GSM base station controller, with these commands:
//!
//! - `run` runs a script over a site, or over two, and prints the trace; with views (`--words`, `--state`, `--pcap`,
//!   `--chart`) also what messages and causes say, what the book holds, a capture file and a sequence chart;
//! - `test` runs scripts whose comments say what comes of their lines, and says which of them are right; `record` prints a
//!   script with such comments;
//! - `rewind` takes an undone attempt out of a trace and says whether the rest comes to the same, `audit` all of them;
//! - `storm` moves many calls of a site at once, handled by workers on threads of their own, and says what came of it;
//! - `check` prints the cells of a site, and what is surely meant otherwise in its file; `cells` prints a site of cells alike;
//! - `decode` prints a message in words, with `--from` those of a file or of standard input, line by line; `encode` prints
//!   the octets of a message in words;
//! - `explain` says in words what a refusal, a cause or a fault is.
//!
//! Statuses: 0 done, 1 undone attempts without which the rest differs, or a script of `test` of which something else came,
//! 2 the words, a file, the site, a line of the script or of the trace, an attempt, a message or a number of `explain`
//! refused, or something not to be written, 3 memory refused.
#![tactic(auto)]

ghost use Rattle.std.specs.Prelude.{◌≡◌, ◌<◌, None, IsSome, IsErr};
ghost use Rattle.screen_text.specs.Keeping.{error_of};

mod places;
mod ticking;

use crate::places::Places;
use crate::ticking::Ticking;
use lab::program::perform;
use lab::run::{Status, exit_status};
use lab::storm::{StormJob, Unwatched, storm_asked, storm_file};
use lab::{LabFault, Locking};
use screen_text::{Counted, Erasing, Keeping, Progress, Reason};
use std::env::{self, FillError};
use std::io::{self, BufWriter, IsTerminal, LineWriter, Read, Write};
use std::process::ExitCode;
use std::rt::{Clock, Env, Files};
use std::str;
use std::sync::Wait;
use std::thread::Threads;

/// The octets of a word of the command line, of which the program's name is 0; nothing behind the last word.
fn word_octets<R: Env + AllocGlobal>(rt: &R, number: usize) -> Result<Option<Vec<u8>>, LabFault> {
    let mut octets = Vec::new(rt.alloc());
    let mut room: usize = 256;
    for _ in 0..usize::BITS {
        octets.resize(room, 0u8)?;
        match rt.arg(number, octets.as_mut_slice()) {
            Ok(length) => {
                octets.truncate(length);
                return Ok(Some(octets));
            }
            Err(FillError::NotPresent) => return Ok(None),
            Err(FillError::TooLong) => room = room.saturating_mul(2),
        }
    }
    Err(LabFault::NoMemory)
}

/// The number of the first word of the command line that isn't UTF-8, of which the program's name is 0.
fn first_odd_word<R: Env + AllocGlobal>(rt: &R) -> Result<Option<usize>, LabFault> {
    for number in 0..usize::MAX {
        match word_octets(rt, number)? {
            Some(octets) if str::from_utf8(&octets).is_err() => return Ok(Some(number)),
            Some(_) => {}
            None => return Ok(None),
        }
    }
    Ok(None)
}

/// Says that a word of the command line isn't UTF-8, and which.
fn say_odd_word<R: Env + AllocGlobal, E: Write>(rt: &R, errors: &mut E) -> Result<(), LabFault> {
    match first_odd_word(rt)? {
        Some(0) => writeln!(errors, "error: the program's name isn't UTF-8")?,
        Some(number) => writeln!(
            errors,
            "error: word {number} of the command line isn't UTF-8"
        )?,
        None => writeln!(errors, "error: a word of the command line isn't UTF-8")?,
    }
    Ok(())
}

/// The words of the command line; nothing where one isn't UTF-8, as `errors` then says.
fn words_of<R: Env + AllocGlobal, E: Write>(
    rt: &R,
    errors: &mut E,
) -> Result<Option<Vec<String>>, LabFault> {
    match env::args(rt) {
        Ok(words) => Ok(Some(words.collect(rt.alloc())?)),
        Err(error) if error.kind() == io::ErrorKind::OutOfMemory => Err(LabFault::NoMemory),
        Err(_) => {
            say_odd_word(rt, errors)?;
            Ok(None)
        }
    }
}

/// A terminal that is told how far a command is: how many lines counted, each so many of them.
#[derive(Drop)]
struct Watch<T> {
    terminal: T,
    counted: Counted,
    step: u64,
    ghost stepping: { 0 < step },
}

/// Whether the words of `decode` name lines to be read, other than those that a person types on the terminal.
fn reads_lines(words: &[&str], is_typed: bool) -> bool {
    let is_input = words.iter().any(|word| *word == "-" || *word == "--from=-");
    words.iter().any(|word| word.starts_with("--from")) && !(is_typed && is_input)
}

/// How a terminal is told how far a command is; nothing but of those that may take long, and print a line for each part of
/// their work.
fn watch_of<T: Drop>(words: &[&str], is_typed: bool, terminal: T) -> Option<Watch<T>> {
    match *words.first()? {
        "test" => Some(Watch {
            terminal,
            counted: Counted::Scripts,
            step: 1,
        }),
        "decode" if reads_lines(words, is_typed) => Some(Watch {
            terminal,
            counted: Counted::Lines,
            step: 10_000,
        }),
        _ => None,
    }
}

/// The status once the output's rest was written. Where a part of the output couldn't be, `errors` says what the system said
/// first.
fn closed<W: Write, E: Write>(
    ended: Result<Status, LabFault>,
    out: &mut Keeping<W>,
    errors: &mut E,
) -> Result<Status, LabFault>
    ensures failed { IsSome (error_of out.new) → IsErr result }
    ensures written { error_of out.new ≡ None → result ≡ ended }
{
    // what was printed before a fault is shown; why it couldn't be is kept
    let _ = out.flush();
    match out.error() {
        Some(error) => {
            writeln!(errors, "standard output: {}", Reason(error))?;
            match ended {
                Ok(_) => Err(LabFault::Write),
                Err(fault) => Err(fault),
            }
        }
        None => ended,
    }
}

/// Does what the words ask for. A terminal that watches is told how far the command is: where it shows the output too, line
/// by line, this stands below the output (`is_shown`).
fn perform_watched<
    R: Files + AllocGlobal,
    I: Read + Drop,
    W: Write + Drop,
    T: Write + Drop,
    E: Write,
>(
    rt: &R,
    words: &[&str],
    input: I,
    mut out: Keeping<W>,
    is_shown: bool,
    watch: Option<Watch<T>>,
    errors: &mut E,
) -> Result<Status, LabFault>
where
    R::File: Locking,
{
    let Some(
        Watch {
            terminal,
            counted,
            step,
        },
    ) = watch
    else {
        let ended = perform(rt, words, input, &mut out, errors);
        return closed(ended, &mut out, errors);
    };
    if is_shown {
        let mut erasing = Erasing::new(out, terminal, counted);
        let ended = perform(rt, words, input, &mut erasing, errors);
        closed(ended, &mut erasing.finish(), errors)
    } else {
        let mut progress = Progress::new(out, terminal, counted, step);
        let ended = perform(rt, words, input, &mut progress, errors);
        closed(ended, &mut progress.finish(), errors)
    }
}

/// Which of the three streams are a terminal.
#[derive(Clone, Copy)]
struct Terminals {
    input: bool,
    output: bool,
    errors: bool,
}

/// Runs a storm. Where a terminal shows standard error, it is told there how far the storm is.
fn storm<
    R: Files + Print + AllocGlobal + Threads + Wait + Clock + Clone + Drop + Send + 'static,
    T: Write + Drop,
    E: Write,
>(rt: &R, job: StormJob<'_>, terminal: Option<T>, errors: &mut E) -> Result<Status, LabFault> {
    // a buffer lacks nothing but memory
    let buffer = BufWriter::new(rt.alloc(), io::writer(rt)).map_err(|_| LabFault::NoMemory)?;
    let mut out = Keeping::new(buffer);
    let ended = match terminal {
        Some(terminal) => {
            let mut ticking = Ticking::new(rt, terminal);
            storm_file(rt, job, &mut ticking, &mut out, errors)
        }
        None => storm_file(rt, job, &mut Unwatched, &mut out, errors),
    };
    closed(ended, &mut out, errors)
}

/// Reads the words of the command line, and does what they ask for. `terminal` is standard error once more, for what is
/// told there where it is a terminal.
fn start<
    R: Files + Print + Env + AllocGlobal + Threads + Wait + Clock + Clone + Drop + Send + 'static,
    I: Read + Drop,
    T: Write + Drop,
    E: Write,
>(rt: &R, input: I, terminals: Terminals, terminal: T, errors: &mut E) -> Result<Status, LabFault>
where
    R::File: Locking,
{
    let Some(words) = words_of(rt, errors)? else {
        return Ok(Status::Refused);
    };
    let words: Vec<&str> = words
        .iter()
        .skip(1)
        .map(|word| word.as_str())
        .collect(rt.alloc())?;
    if let Some(job) = storm_asked(rt.alloc(), &words)? {
        let terminal = terminals.errors.then_some(terminal);
        return storm(rt, job, terminal, errors);
    }
    let watch = if terminals.errors {
        watch_of(&words, terminals.input, terminal)
    } else {
        None
    };
    let out = io::writer(rt);
    // a buffer lacks nothing but memory
    if terminals.output {
        let lines = LineWriter::new(rt.alloc(), out).map_err(|_| LabFault::NoMemory)?;
        perform_watched(rt, &words, input, Keeping::new(lines), true, watch, errors)
    } else {
        let buffer = BufWriter::new(rt.alloc(), out).map_err(|_| LabFault::NoMemory)?;
        perform_watched(
            rt,
            &words,
            input,
            Keeping::new(buffer),
            false,
            watch,
            errors,
        )
    }
}

fn main(rt: HostRuntime) -> ExitCode {
    // before any file is opened, up to the end
    let _places = Places::taken(&rt);
    let stderr = rt.stderr();
    let terminals = Terminals {
        input: rt.stdin().is_terminal(),
        output: rt.stdout().is_terminal(),
        errors: stderr.is_terminal(),
    };
    ExitCode::from(exit_status(start(
        &rt,
        rt.stdin(),
        terminals,
        io::writer(&stderr),
        &mut io::writer(&stderr),
    )))
}
