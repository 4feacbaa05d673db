//! The words of the command that runs a storm.
ghost use Rattle.std.specs.Prelude.{◌≡◌, ◌≤◌, IfSome};

use crate::help::STORM_HELP;
use crate::rows::{ArgumentRow, CommandRow, Form, Rule, command};
use crate::words::SITE;
use clap::builder::ValueParser;
use clap::{ArgMatches, Command};
use std::alloc::{AllocError, Global};

/// The most workers of a storm.
const MOST_WORKERS: u8 = 16;

/// The most calls of a storm.
const MOST_CALLS: u16 = 1024;

/// The size of a storm.
#[derive(Clone, Copy, Debug, PartialEq, Eq)]
pub struct StormSize {
    /// How many workers handle the calls: 1 to 16.
    pub workers: u8,
    /// How many calls there are: 1 to 1,024.
    pub calls: u16,
    ghost some_workers: { 1 ≤ workers },
    ghost most_workers: { workers ≤ 16 },
    ghost some_calls: { 1 ≤ calls },
    ghost most_calls: { calls ≤ 1024 },
}

impl StormSize {
    /// A storm with these numbers of workers and calls; nothing if either is too low or too high.
    pub fn new(workers: u8, calls: u16) -> Option<StormSize>
        ensures workers { IfSome result (λ size. size.workers ≡ workers) }
        ensures calls { IfSome result (λ size. size.calls ≡ calls) }
    {
        if workers == 0 || workers > MOST_WORKERS || calls == 0 || calls > MOST_CALLS {
            return None;
        }
        Some(StormSize { workers, calls })
    }
}

/// `storm SITE --workers N --calls M`
const STORM: CommandRow = CommandRow {
    name: "storm",
    about: "Moves many calls at once, with workers on threads, and prints what came of them",
    after_help: STORM_HELP,
    arguments: &[
        SITE,
        ArgumentRow {
            name: "workers",
            form: Form::Valued("workers", "N", ValueParser::Signed(1, 16)),
            help: "How many workers handle the calls, 1 to 16: each is a thread with an inbox",
            rules: &[Rule::Required],
        },
        ArgumentRow {
            name: "calls",
            form: Form::Valued("calls", "M", ValueParser::Signed(1, 1024)),
            help: "How many calls there are, 1 to 1024",
            rules: &[Rule::Required],
        },
    ],
};

/// The command `storm`.
pub(crate) fn storm_command<'a>(alloc: Global) -> Result<Command<'a>, AllocError> {
    command(alloc, &STORM)
}

/// How great the storm is that was asked for.
pub(crate) fn storm_size(storm: &ArgMatches<'_>) -> Option<StormSize> {
    StormSize::new(
        storm.get_one::<u8>("workers")?,
        storm.get_one::<u16>("calls")?,
    )
}
