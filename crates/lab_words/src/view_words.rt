//! The words of a command line that ask for views of a run.
use crate::rows::{ArgumentRow, Form, Rule, TEXT, with_arguments};
use clap::builder::ValueParser;
use clap::{ArgMatches, Command};
use std::alloc::{AllocError, Global};
use view_options::{ChartView, SummaryForm, Views};

/// How a run ends.
#[derive(Clone, Copy, Debug, PartialEq, Eq)]
pub enum Ending {
    /// With the trace's end.
    Plain,
    /// With an audit after the trace's end: all settled attempts are taken out of the history, and the result is printed.
    Audit,
}

/// How the run ends that the words of a command with this option ask for.
pub(crate) fn ending_of(matches: &ArgMatches<'_>) -> Ending {
    if matches.get_flag("audit") {
        Ending::Audit
    } else {
        Ending::Plain
    }
}

/// `--words`, `--state`, `--decisions` and `--pcap FILE`
const LIVE_OPTIONS: &[ArgumentRow] = &[
    ArgumentRow {
        name: "WORDS",
        form: Form::Flag("words"),
        help: "Adds to each line, after #, its call, message, causes and refusals",
        rules: &[],
    },
    ArgumentRow {
        name: "STATE",
        form: Form::Flag("state"),
        help: "Prints what the book holds, after each input and at the end",
        rules: &[],
    },
    ArgumentRow {
        name: "decisions",
        form: Form::Flag("decisions"),
        help: "Prints after each report what was decided about each neighbour, and why",
        rules: &[],
    },
    ArgumentRow {
        name: "PCAP",
        form: Form::Valued("pcap", "FILE", TEXT),
        help: "Writes every message to this file, as a capture that Wireshark opens",
        rules: &[],
    },
];

/// `--chart FILE`, `--chart-all`, `--chart-pages`, `--summary`, `--json`, `--lines`, `--call N` and `--audit`
const RUN_OPTIONS: &[ArgumentRow] = &[
    ArgumentRow {
        name: "CHART",
        form: Form::Valued("chart", "FILE", TEXT),
        help: "Writes the run to this file, as a sequence chart in SVG",
        rules: &[],
    },
    ArgumentRow {
        name: "chart-all",
        form: Form::Flag("chart-all"),
        help: "Shows on the chart also what is looked up in the book, look and owner",
        rules: &[Rule::Wants("CHART")],
    },
    ArgumentRow {
        name: "chart-pages",
        form: Form::Flag("chart-pages"),
        help: "Writes the chart as pages of 60 rows, to files as FILE-1.svg and so on",
        rules: &[Rule::Wants("CHART")],
    },
    ArgumentRow {
        name: "summary",
        form: Form::Flag("summary"),
        help: "Prints at the end how many calls, attempts, messages and faults came, by cell",
        rules: &[],
    },
    ArgumentRow {
        name: "json",
        form: Form::Flag("json"),
        help: "Prints the summary as one JSON object",
        rules: &[Rule::Wants("summary")],
    },
    ArgumentRow {
        name: "lines",
        form: Form::Flag("lines"),
        help: "Ends each input with the number of the script line that gave it, as in @12",
        rules: &[],
    },
    ArgumentRow {
        name: "CALL",
        form: Form::Valued("call", "N", ValueParser::Signed(0, 65535)),
        help: "Shows only the lines about this call, on the chart too",
        rules: &[Rule::Excludes("STATE"), Rule::Excludes("audit")],
    },
    ArgumentRow {
        name: "audit",
        form: Form::Flag("audit"),
        help: "At the end takes out all undone attempts, and compares, as audit does",
        rules: &[],
    },
];

/// Adds to a command the options of views that are shown line by line: `--words`, `--state`, `--decisions` and `--pcap FILE`.
pub(crate) fn live_view_options<'a>(
    alloc: Global,
    command: Command<'a>,
) -> Result<Command<'a>, AllocError> {
    with_arguments(alloc, command, LIVE_OPTIONS)
}

/// Adds to a command all options of views, and `--audit`.
pub(crate) fn view_options<'a>(
    alloc: Global,
    command: Command<'a>,
) -> Result<Command<'a>, AllocError> {
    with_arguments(alloc, live_view_options(alloc, command)?, RUN_OPTIONS)
}

/// How counts are shown that the words of a command with `--json` ask for.
pub(crate) fn form_of(matches: &ArgMatches<'_>) -> SummaryForm {
    if matches.get_flag("json") {
        SummaryForm::Json
    } else {
        SummaryForm::Words
    }
}

/// How counts are shown, where the words of a command with `--summary` ask for them.
fn summary_of(matches: &ArgMatches<'_>) -> Option<SummaryForm> {
    if matches.get_flag("summary") {
        Some(form_of(matches))
    } else {
        None
    }
}

/// The chart, where the words of a command with `--chart` ask for one.
fn chart_of<'a>(matches: &ArgMatches<'a>) -> Option<ChartView<'a>> {
    let path = matches.get_str("CHART")?;
    Some(ChartView {
        path,
        looks: matches.get_flag("chart-all"),
        pages: matches.get_flag("chart-pages"),
    })
}

/// The views that the words of a command with these options ask for.
pub(crate) fn live_views_of<'a>(matches: &ArgMatches<'a>) -> Views<'a> {
    Views {
        words: matches.get_flag("WORDS"),
        state: matches.get_flag("STATE"),
        decisions: matches.get_flag("decisions"),
        pcap: matches.get_str("PCAP"),
        chart: None,
        summary: None,
        lines: false,
        call: None,
    }
}

/// The views that the words of a command with these options ask for.
pub(crate) fn views_of<'a>(matches: &ArgMatches<'a>) -> Views<'a> {
    Views {
        chart: chart_of(matches),
        summary: summary_of(matches),
        lines: matches.get_flag("lines"),
        call: matches.get_one::<u16>("CALL"),
        ..live_views_of(matches)
    }
}
