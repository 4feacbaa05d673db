//! The words of the commands that test and record scripts.
use crate::help::{RECORD_HELP, TEST_HELP};
use crate::rows::{ArgumentRow, COUNTED, CommandRow, Form, Rule, TEXT, command};
use crate::site_paths::{GivenPaths, SitePaths};
use crate::words::PEER;
use clap::{ArgMatches, Command};
use expectations::Recording;
use screen_text::Escaped;
use std::alloc::{AllocError, Global};

/// What tests write beside what they print.
#[derive(Clone, Copy, Debug, PartialEq, Eq)]
pub struct TestFiles<'a> {
    /// The file of a report in the form of JUnit.
    pub report: Option<&'a str>,
    /// The folder in which is kept what came of the scripts that aren't met.
    pub kept: Option<&'a str>,
}

/// `test [SITE] SCRIPT.. [--peer SITE] [-k TEXT] [--junit FILE] [--keep FOLDER] [--undo-everywhere]`
const TEST: CommandRow = CommandRow {
    name: "test",
    about: "Runs scripts, and says which give what their comments expect (TAP)",
    after_help: TEST_HELP,
    arguments: &[
        ArgumentRow {
            name: "SITE",
            form: Form::Placed(TEXT),
            help: "The site file (.toml); may be left out if each script names its own",
            rules: &[Rule::Required],
        },
        ArgumentRow {
            name: "SCRIPT",
            form: Form::Several,
            help: "The script files",
            rules: &[],
        },
        PEER,
        ArgumentRow {
            name: "only",
            form: Form::Lettered('k', "TEXT", TEXT),
            help: "Runs only the scripts that have this text in their path",
            rules: &[],
        },
        ArgumentRow {
            name: "report",
            form: Form::Valued("junit", "FILE", TEXT),
            help: "Also writes the results to this file, in the form of JUnit",
            rules: &[Rule::Excludes("everywhere")],
        },
        ArgumentRow {
            name: "kept",
            form: Form::Valued("keep", "FOLDER", TEXT),
            help: "Keeps trace, chart and capture of each script that isn't met in this folder",
            rules: &[Rule::Excludes("everywhere")],
        },
        ArgumentRow {
            name: "everywhere",
            form: Form::Flag("undo-everywhere"),
            help: "Undoes each open attempt after each input, in a run of its own",
            rules: &[],
        },
    ],
};

/// The command `test`.
pub(crate) fn test_command<'a>(alloc: Global) -> Result<Command<'a>, AllocError> {
    let command = command(alloc, &TEST)?;
    Ok(command.override_usage("bsc_lab test [OPTIONS] [SITE] <SCRIPT>..."))
}

/// `record [SITE] SCRIPT [--peer SITE] [--words] [--states] [--accept LINE]`
const RECORD: CommandRow = CommandRow {
    name: "record",
    about: "Runs a script and prints it with comments that expect what came of each line",
    after_help: RECORD_HELP,
    arguments: &[
        FIRST,
        SECOND,
        PEER,
        ArgumentRow {
            name: "words",
            form: Form::Flag("words"),
            help: "Writes messages in words, and leaves out the echo of each line",
            rules: &[],
        },
        ArgumentRow {
            name: "states",
            form: Form::Flag("states"),
            help: "Also expects what the books hold: the channels in use, and each call",
            rules: &[],
        },
        ArgumentRow {
            name: "accept",
            form: Form::Valued("accept", "LINE", COUNTED),
            help: "Takes what came at this line alone; all other lines stay as they are",
            rules: &[],
        },
    ],
};

/// The command `record`.
pub(crate) fn record_command<'a>(alloc: Global) -> Result<Command<'a>, AllocError> {
    let command = command(alloc, &RECORD)?;
    Ok(command.override_usage("bsc_lab record [OPTIONS] [SITE] <SCRIPT>"))
}

/// Whether each attempt is to be taken back at each point.
pub(crate) fn is_everywhere(test: &ArgMatches<'_>) -> bool {
    test.get_flag("everywhere")
}

/// What the tests are to write beside what they print.
pub(crate) fn test_files<'a>(test: &ArgMatches<'a>) -> TestFiles<'a> {
    TestFiles {
        report: test.get_str("report"),
        kept: test.get_str("kept"),
    }
}

/// How a script is to be recorded.
pub(crate) fn recording_of(record: &ArgMatches<'_>) -> Recording {
    Recording {
        words: record.get_flag("words"),
        states: record.get_flag("states"),
        only: record.get_one::<usize>("accept"),
    }
}

/// The paths of the sites.
pub(crate) fn site_paths<'a>(matches: &ArgMatches<'a>) -> Option<SitePaths<'a>> {
    Some(SitePaths {
        first: matches.get_str("SITE")?,
        peer: matches.get_str("PEER"),
    })
}

/// The first word of `run` and `record`: the site, or alone the script.
pub(crate) const FIRST: ArgumentRow = ArgumentRow {
    name: "SITE",
    form: Form::Placed(TEXT),
    help: "The site file; may be left out if the script names its own (#% site, #% cells)",
    rules: &[Rule::Required],
};

/// The second word of `run` and `record`: the script.
pub(crate) const SECOND: ArgumentRow = ArgumentRow {
    name: "SCRIPT",
    form: Form::Placed(TEXT),
    help: "The script file",
    rules: &[],
};

/// Whether a path is taken for a site's where one may be left out.
fn is_site(path: &str) -> bool {
    path.ends_with(".toml")
}

/// The script that the words of `run` or `record` name, and the sites that are given for it; `None` if they name a site
/// alone.
pub(crate) fn named_script<'a>(matches: &ArgMatches<'a>) -> Option<(GivenPaths<'a>, &'a str)> {
    let first = matches.get_str("SITE")?;
    let peer = matches.get_str("PEER");
    match matches.get_str("SCRIPT") {
        Some(script) => {
            let first = Some(first);
            Some((GivenPaths { first, peer }, script))
        }
        None if is_site(first) => None,
        None => Some((GivenPaths { first: None, peer }, first)),
    }
}

/// The sites that the words of `test` give for scripts.
pub(crate) fn given_paths<'a>(matches: &ArgMatches<'a>) -> GivenPaths<'a> {
    GivenPaths {
        first: matches.get_str("SITE").filter(|path| is_site(*path)),
        peer: matches.get_str("PEER"),
    }
}

/// The paths of the scripts that the words of `test` name, with `-k TEXT` of those that have this text: the first word is one,
/// where it is no site.
pub(crate) fn script_paths<'a>(
    alloc: Global,
    matches: &ArgMatches<'a>,
) -> Result<Vec<&'a str>, AllocError> {
    let text = matches.get_str("only").unwrap_or("");
    let mut paths = Vec::new(alloc);
    if let Some(first) = matches.get_str("SITE")
        && !is_site(first)
        && first.contains(text)
    {
        paths.push(first)?;
    }
    for path in matches.get_strs("SCRIPT").unwrap_or(&[]) {
        if path.contains(text) {
            paths.push(*path)?;
        }
    }
    Ok(paths)
}

/// Why words of `test` ask for nothing that name no script, or none with the text that is asked for.
pub(crate) fn none_named(alloc: Global, matches: &ArgMatches<'_>) -> Result<String, AllocError> {
    match matches.get_str("only") {
        Some(text) => {
            format!(in alloc; "error: no script has {} in its path (-k)", Escaped(text))
        }
        None => lacks_script(alloc, "test"),
    }
}

/// Why words of a command ask for nothing that name a site alone.
pub(crate) fn lacks_script(alloc: Global, command: &str) -> Result<String, AllocError> {
    format!(in alloc;
        "error: a script was not provided: <SCRIPT>; Usage: bsc_lab {command} [OPTIONS] [SITE] <SCRIPT>"
    )
}
