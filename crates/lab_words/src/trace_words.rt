//! The words of the commands that read traces.
use crate::help::{AUDIT_HELP, REWIND_HELP, SUMMARY_HELP};
use crate::rows::{ArgumentRow, COUNTED, CommandRow, Form, Rule, TEXT, command};
use crate::script_words::site_paths;
use crate::trace_paths::{TraceEnd, TracePath};
use crate::view_words::form_of;
use crate::words::{Job, SITE};
use clap::{ArgMatches, Command};
use std::alloc::{AllocError, Global};

/// `TRACE`
const TRACE: ArgumentRow = ArgumentRow {
    name: "TRACE",
    form: Form::Placed(TEXT),
    help: "The trace, as run prints it from the empty book on",
    rules: &[Rule::Required],
};

/// `--cut`
const CUT: ArgumentRow = ArgumentRow {
    name: "cut",
    form: Form::Flag("cut"),
    help: "Also reads a trace that ends early, up to its last whole line",
    rules: &[],
};

/// `rewind SITE TRACE LINE [--cut]` or `rewind SITE TRACE --all [--peer SITE] [--cut]`
const REWIND: CommandRow = CommandRow {
    name: "rewind",
    about: "Takes an undone attempt at handover out of a trace, and compares what is left",
    after_help: REWIND_HELP,
    arguments: &[
        SITE,
        TRACE,
        ArgumentRow {
            name: "LINE",
            form: Form::Placed(COUNTED),
            help: "The line in which the attempt opens (event take or event require), counted from 1",
            rules: &[Rule::Unless("all")],
        },
        ArgumentRow {
            name: "all",
            form: Form::Flag("all"),
            help: "Prints a line for each undone attempt, of one controller or of two",
            rules: &[Rule::Excludes("LINE")],
        },
        // what is required is passed over where something that excludes it is given, as the line is
        ArgumentRow {
            name: "PEER",
            form: Form::Valued("peer", "SITE", TEXT),
            help: "The site file of a second controller, for lines of the trace with 2:",
            rules: &[Rule::Wants("all"), Rule::Excludes("LINE")],
        },
        CUT,
    ],
};

/// The command `rewind`.
pub(crate) fn rewind_command<'a>(alloc: Global) -> Result<Command<'a>, AllocError> {
    command(alloc, &REWIND)
}

/// `audit SITE TRACE [--cut]`
const AUDIT: CommandRow = CommandRow {
    name: "audit",
    about: "Takes all undone attempts at handover out of a trace, and compares what is left",
    after_help: AUDIT_HELP,
    arguments: &[SITE, TRACE, CUT],
};

/// The command `audit`.
pub(crate) fn audit_command<'a>(alloc: Global) -> Result<Command<'a>, AllocError> {
    command(alloc, &AUDIT)
}

/// `summary TRACE [--json] [--cut]`
const SUMMARY: CommandRow = CommandRow {
    name: "summary",
    about: "Prints how many calls, attempts, messages and faults a trace has, by cell",
    after_help: SUMMARY_HELP,
    arguments: &[
        ArgumentRow {
            name: "TRACE",
            form: Form::Placed(TEXT),
            help: "The trace, as run prints it",
            rules: &[Rule::Required],
        },
        ArgumentRow {
            name: "json",
            form: Form::Flag("json"),
            help: "Prints the summary as one JSON object",
            rules: &[],
        },
        CUT,
    ],
};

/// The command `summary`.
pub(crate) fn summary_command<'a>(alloc: Global) -> Result<Command<'a>, AllocError> {
    command(alloc, &SUMMARY)
}

/// The trace that the words of a command name.
fn trace_path<'a>(matches: &ArgMatches<'a>) -> Option<TracePath<'a>> {
    let end = if matches.get_flag("cut") {
        TraceEnd::Optional
    } else {
        TraceEnd::Needed
    };
    Some(TracePath {
        path: matches.get_str("TRACE")?,
        end,
    })
}

/// What the words of `rewind` ask for.
pub(crate) fn rewind_job<'a>(rewind: &ArgMatches<'a>) -> Option<Job<'a>> {
    if rewind.get_flag("all") {
        return Some(Job::RewindAll {
            sites: site_paths(rewind)?,
            trace: trace_path(rewind)?,
        });
    }
    Some(Job::Rewind {
        site: rewind.get_str("SITE")?,
        trace: trace_path(rewind)?,
        line: rewind.get_one::<usize>("LINE")?,
    })
}

/// The job of `audit`.
pub(crate) fn audit_job<'a>(audit: &ArgMatches<'a>) -> Option<Job<'a>> {
    Some(Job::Audit {
        site: audit.get_str("SITE")?,
        trace: trace_path(audit)?,
    })
}

/// The job of `summary`.
pub(crate) fn summary_job<'a>(summary: &ArgMatches<'a>) -> Option<Job<'a>> {
    Some(Job::Summary {
        trace: trace_path(summary)?,
        form: form_of(summary),
    })
}
