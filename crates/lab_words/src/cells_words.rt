//! The words of the command that prints a site of cells alike.
use crate::help::CELLS_HELP;
use crate::rows::{ArgumentRow, CommandRow, Form, Rule, command};
use crate::words::Job;
use clap::builder::ValueParser;
use clap::{ArgMatches, Command};
use site_text::{Timeslots, UniformSite};
use std::alloc::{AllocError, Global};

/// `cells N RATE`
const CELLS: CommandRow = CommandRow {
    name: "cells",
    about: "Prints a site of cells alike, each a neighbour of all others",
    after_help: CELLS_HELP,
    arguments: &[
        ArgumentRow {
            name: "N",
            form: Form::Placed(ValueParser::Signed(1, 64)),
            help: "How many cells the site has, 1 to 64",
            rules: &[Rule::Required],
        },
        ArgumentRow {
            name: "RATE",
            form: Form::Placed(ValueParser::Names(&["full", "half"])),
            help: "At which rates the timeslots carry calls: half is full rate, too",
            rules: &[Rule::Required],
        },
    ],
};

/// The command `cells`.
pub(crate) fn cells_command<'a>(alloc: Global) -> Result<Command<'a>, AllocError> {
    command(alloc, &CELLS)
}

/// The job of `cells`.
pub(crate) fn cells_job<'a>(cells: &ArgMatches<'a>) -> Option<Job<'a>> {
    let timeslots = match cells.get_str("RATE")? {
        "half" => Timeslots::Half,
        _ => Timeslots::Full,
    };
    let site = UniformSite::new(cells.get_one::<u8>("N")?, timeslots)?;
    Some(Job::Cells(site))
}
