//! The words of the command line.
ghost use Rattle.std.specs.Prelude.{◌≡◌};

use crate::cells_words::{cells_command, cells_job};
use crate::explain_words::{explain_command, hexadecimal_question, question_of};
use crate::help::{CHECK_HELP, DECODE_HELP, ENCODE_HELP, LIVE_HELP, RUN_HELP, with_messages};
use crate::journal_words::{JournalWords, entries_of, journal_of, journal_options};
use crate::refused_words::refused_line;
use crate::rows::{ArgumentRow, CommandRow, Form, Rule, TEXT, command, with};
use crate::script_words::{
    FIRST, SECOND, TestFiles, given_paths, is_everywhere, lacks_script, named_script, none_named,
    record_command, recording_of, script_paths, site_paths, test_command, test_files,
};
use crate::site_paths::{GivenPaths, SitePaths};
use crate::storm_words::{StormSize, storm_command, storm_size};
use crate::trace_paths::TracePath;
use crate::trace_words::{
    audit_command, audit_job, rewind_command, rewind_job, summary_command, summary_job,
};
use crate::view_words::{
    Ending, ending_of, live_view_options, live_views_of, view_options, views_of,
};
use clap::builder::ValueParser;
use clap::error::ErrorKind;
use clap::{ArgMatches, Command, Error};
use decoded_lines::{Asked, Detail, LinkName, link_named};
use expectations::Recording;
use explanations::Question;
use site_text::UniformSite;
use std::alloc::{AllocError, Global};
use view_options::{SummaryForm, Views};

/// What the command line asks for.
#[derive(Drop)]
pub enum Job<'a> {
    /// Runs a script over a site, or over two if a peer is named: the paths of the files, the views beside the trace, and
    /// how the run ends.
    Run {
        sites: GivenPaths<'a>,
        script: &'a str,
        views: Views<'a>,
        ending: Ending,
    },
    /// Runs a controller with the lines of standard input as they come: the site's path, the views beside the trace, the
    /// number of events after which its history begins anew, and its journal.
    Live {
        site: &'a str,
        views: Views<'a>,
        entries: usize,
        journal: Option<JournalWords<'a>>,
    },
    /// Takes an undone attempt out of a trace: the site's path, the trace, and the line, counted from 1, in which the
    /// attempt opens.
    Rewind {
        site: &'a str,
        trace: TracePath<'a>,
        line: usize,
    },
    /// Takes all settled attempts out of a trace: the site's path, and the trace.
    Audit {
        site: &'a str,
        trace: TracePath<'a>,
    },
    /// Takes each undone attempt out of a trace, one at a time, of one controller or of two: the paths of the sites, and the
    /// trace.
    RewindAll {
        sites: SitePaths<'a>,
        trace: TracePath<'a>,
    },
    /// Prints the counts of a trace: the trace, and the form of the counts.
    Summary {
        trace: TracePath<'a>,
        form: SummaryForm,
    },
    /// Undoes each attempt of scripts at each point, over a site, or over two: the paths of the files.
    TryUndos {
        sites: GivenPaths<'a>,
        scripts: Vec<&'a str>,
    },
    /// Scripts are tested over a site, or over two: the paths of the files, and of those that are written beside what is
    /// printed.
    Test {
        sites: GivenPaths<'a>,
        scripts: Vec<&'a str>,
        written: TestFiles<'a>,
    },
    /// Records a script over a site, or over two: the paths of the files, and the form of the record.
    Record {
        sites: GivenPaths<'a>,
        script: &'a str,
        recording: Recording,
    },
    /// Moves many calls of a site at once, with workers on threads: the site's path, and the numbers of workers and calls.
    Storm {
        site: &'a str,
        size: StormSize,
    },
    /// Prints the cells of a site and warnings about it, also about what its peer has otherwise: the paths of the files.
    Check {
        sites: SitePaths<'a>,
    },
    /// A site of cells alike is printed, as a site file has it.
    Cells(UniformSite),
    /// Prints a message, given in hexadecimal, in words.
    Decode {
        link: LinkName,
        text: &'a str,
    },
    /// Prints messages, given in hexadecimal in lines, in words: what is asked of the lines, and the path of their file, `-`
    /// for standard input.
    DecodeLines {
        asked: Asked,
        path: &'a str,
    },
    /// Prints a message, given in words, in hexadecimal.
    Encode {
        link: LinkName,
        text: &'a str,
    },
    /// Explains a number of a trace or of a message in words.
    Explain(Question),
    /// Shows a text: the help that was asked for, or the version.
    Show(String),
}

/// Why the words ask for nothing.
#[derive(Debug, Drop)]
pub enum WordsFault {
    /// The words are wrong. This line, for standard error, says which of them, and what is allowed. It has no control
    /// characters, and no line feed at its end.
    Refused(String),
    /// Memory was refused.
    NoMemory,
}

impl From<AllocError> for WordsFault {
    ghost use Rattle.lab_words.specs.declared.words.WordsFault.TheVariants.{NoMemory};

    ghost from_gives = { λ _ fault. fault ≡ NoMemory };

    fn from(_: AllocError) -> WordsFault {
        WordsFault::NoMemory
    }
}

/// The links by their names.
pub(crate) const LINKS: ValueParser<'static> = ValueParser::Names(&["rr", "a", "abis"]);

/// The link of this name.
fn link(name: &str) -> Option<LinkName> {
    link_named(name.as_bytes())
}

/// `SITE`
pub(crate) const SITE: ArgumentRow = ArgumentRow {
    name: "SITE",
    form: Form::Placed(TEXT),
    help: "The site file",
    rules: &[Rule::Required],
};

/// `--peer SITE`
pub(crate) const PEER: ArgumentRow = ArgumentRow {
    name: "PEER",
    form: Form::Valued("peer", "SITE", TEXT),
    help: "The site file of a second controller, for lines of the script with 2:",
    rules: &[],
};

/// `run [SITE] SCRIPT [--peer SITE]`
const RUN: CommandRow = CommandRow {
    name: "run",
    about: "Runs a script over a site and prints the trace",
    after_help: RUN_HELP,
    arguments: &[FIRST, SECOND, PEER],
};

/// The command `run`, with the views of the run.
fn run_command<'a>(alloc: Global) -> Result<Command<'a>, AllocError> {
    let command = command(alloc, &RUN)?;
    view_options(
        alloc,
        command.override_usage("bsc_lab run [OPTIONS] [SITE] <SCRIPT>"),
    )
}

/// `live SITE`
const LIVE: CommandRow = CommandRow {
    name: "live",
    about: "Runs the script lines of standard input as they come, and prints the trace",
    after_help: LIVE_HELP,
    arguments: &[SITE],
};

/// The command `live`, with the views that are shown line by line, and the journal.
fn live_command<'a>(alloc: Global) -> Result<Command<'a>, AllocError> {
    journal_options(alloc, live_view_options(alloc, command(alloc, &LIVE)?)?)
}

/// `check SITE [--peer SITE]`
const CHECK: CommandRow = CommandRow {
    name: "check",
    about: "Reads a site, and prints its cells and warnings",
    after_help: CHECK_HELP,
    arguments: &[
        SITE,
        ArgumentRow {
            name: "PEER",
            form: Form::Valued("peer", "SITE", TEXT),
            help: "The site file of a second controller; outside cells are compared with it",
            rules: &[],
        },
    ],
};

/// The command `check`.
fn check_command<'a>(alloc: Global) -> Result<Command<'a>, AllocError> {
    command(alloc, &CHECK)
}

/// `decode LINK HEX`, `decode LINK --from FILE` or `decode --from FILE`
const DECODE: CommandRow = CommandRow {
    name: "decode",
    about: "Prints a message in words, as in: decode abis 082e010b",
    after_help: DECODE_HELP,
    arguments: &[
        ArgumentRow {
            name: "LINK",
            form: Form::Placed(LINKS),
            help: "The link that the message comes from",
            rules: &[Rule::Unless("from")],
        },
        ArgumentRow {
            name: "HEX",
            form: Form::Placed(TEXT),
            help: "The message's octets in hexadecimal, without blanks",
            rules: &[
                Rule::Unless("from"),
                Rule::Excludes("from"),
                Rule::Excludes("all"),
            ],
        },
        ArgumentRow {
            name: "from",
            form: Form::Valued("from", "FILE", TEXT),
            help: "A file with one message in each line, or - for standard input",
            rules: &[],
        },
        ArgumentRow {
            name: "all",
            form: Form::Flag("all"),
            help: "Also prints what each message doesn't use, and on abis the rr message inside",
            rules: &[Rule::Wants("from")],
        },
    ],
};

/// The command `decode`.
fn decode_command<'a>(alloc: Global) -> Result<Command<'a>, AllocError> {
    command(alloc, &DECODE)
}

/// `encode LINK TEXT`
const ENCODE: CommandRow = CommandRow {
    name: "encode",
    about: "Prints a message in octets, as in: encode abis \"RF CHANNEL RELEASE tn=3\"",
    after_help: ENCODE_HELP,
    arguments: &[
        ArgumentRow {
            name: "LINK",
            form: Form::Placed(LINKS),
            help: "The link that the message goes over",
            rules: &[Rule::Required],
        },
        ArgumentRow {
            name: "TEXT",
            form: Form::Placed(TEXT),
            help: "The message's name and its fields, as decode prints them: the fields in any order",
            rules: &[Rule::Required],
        },
    ],
};

/// The command `encode`.
fn encode_command<'a>(alloc: Global) -> Result<Command<'a>, AllocError> {
    command(alloc, &ENCODE)
}

/// The job of `encode`.
fn encode_job<'a>(encode: &ArgMatches<'a>) -> Option<Job<'a>> {
    Some(Job::Encode {
        link: link(encode.get_str("LINK")?)?,
        text: encode.get_str("TEXT")?,
    })
}

/// The commands.
#[derive(Clone, Copy)]
enum CommandName {
    Run,
    Live,
    Test,
    Record,
    Rewind,
    Audit,
    Summary,
    Storm,
    Check,
    Cells,
    Decode,
    Encode,
    Explain,
}

/// The commands, in the order of the help.
const COMMANDS: &[CommandName] = &[
    CommandName::Run,
    CommandName::Live,
    CommandName::Test,
    CommandName::Record,
    CommandName::Rewind,
    CommandName::Audit,
    CommandName::Summary,
    CommandName::Storm,
    CommandName::Check,
    CommandName::Cells,
    CommandName::Decode,
    CommandName::Encode,
    CommandName::Explain,
];

/// The command of this name.
fn named_command<'a>(alloc: Global, name: CommandName) -> Result<Command<'a>, AllocError> {
    match name {
        CommandName::Run => run_command(alloc),
        CommandName::Live => live_command(alloc),
        CommandName::Test => test_command(alloc),
        CommandName::Record => record_command(alloc),
        CommandName::Rewind => rewind_command(alloc),
        CommandName::Audit => audit_command(alloc),
        CommandName::Summary => summary_command(alloc),
        CommandName::Storm => storm_command(alloc),
        CommandName::Check => check_command(alloc),
        CommandName::Cells => cells_command(alloc),
        CommandName::Decode => decode_command(alloc),
        CommandName::Encode => encode_command(alloc),
        CommandName::Explain => explain_command(alloc),
    }
}

/// The command line without its commands.
fn bare_command<'a>(alloc: Global) -> Result<Command<'a>, AllocError> {
    let command = Command::new(alloc, "bsc_lab")
        .version("0.1")
        .about("A laboratory of a GSM base station controller")
        .no_binary_name(true)
        .subcommand_required(true);
    command.bin_name("bsc_lab")
}

/// The whole command line.
pub(crate) fn lab_command<'a>(alloc: Global) -> Result<Command<'a>, AllocError> {
    let mut command = bare_command(alloc)?;
    for name in COMMANDS {
        command = with(command, named_command(alloc, *name))?;
    }
    Ok(command)
}

/// The job of `decode`.
fn decode_job<'a>(decode: &ArgMatches<'a>) -> Option<Job<'a>> {
    let link = match decode.get_str("LINK") {
        Some(name) => Some(link(name)?),
        None => None,
    };
    let detail = if decode.get_flag("all") {
        Detail::All
    } else {
        Detail::Fields
    };
    match decode.get_str("from") {
        Some(path) => Some(Job::DecodeLines {
            asked: Asked { link, detail },
            path,
        }),
        None => Some(Job::Decode {
            link: link?,
            text: decode.get_str("HEX")?,
        }),
    }
}

/// The job of `run`.
fn run_job<'a>(run: &ArgMatches<'a>) -> Option<Job<'a>> {
    let (sites, script) = named_script(run)?;
    Some(Job::Run {
        sites,
        script,
        views: views_of(run),
        ending: ending_of(run),
    })
}

/// The job of `live`.
fn live_job<'a>(live: &ArgMatches<'a>) -> Option<Job<'a>> {
    Some(Job::Live {
        site: live.get_str("SITE")?,
        views: live_views_of(live),
        entries: entries_of(live),
        journal: journal_of(live),
    })
}

/// The job of `record`.
fn record_job<'a>(record: &ArgMatches<'a>) -> Option<Job<'a>> {
    let (sites, script) = named_script(record)?;
    Some(Job::Record {
        sites,
        script,
        recording: recording_of(record),
    })
}

/// The job of `storm`.
fn storm_job<'a>(storm: &ArgMatches<'a>) -> Option<Job<'a>> {
    Some(Job::Storm {
        site: storm.get_str("SITE")?,
        size: storm_size(storm)?,
    })
}

/// The job of `check`.
fn check_job<'a>(check: &ArgMatches<'a>) -> Option<Job<'a>> {
    Some(Job::Check {
        sites: site_paths(check)?,
    })
}

/// The job of `explain`.
fn explain_job<'a>(explain: &ArgMatches<'a>) -> Option<Job<'a>> {
    Some(Job::Explain(question_of(explain)?))
}

/// The job of a command line that was read, of any command but `test`.
fn job_of<'a>(matches: &ArgMatches<'a>) -> Option<Job<'a>> {
    match matches.subcommand()? {
        ("run", run) => run_job(run),
        ("live", live) => live_job(live),
        ("record", record) => record_job(record),
        ("rewind", rewind) => rewind_job(rewind),
        ("audit", audit) => audit_job(audit),
        ("summary", summary) => summary_job(summary),
        ("storm", storm) => storm_job(storm),
        ("check", check) => check_job(check),
        ("cells", cells) => cells_job(cells),
        ("decode", decode) => decode_job(decode),
        ("encode", encode) => encode_job(encode),
        ("explain", explain) => explain_job(explain),
        _ => None,
    }
}

/// The job of `test`, of which scripts may be many.
fn test_job<'a>(alloc: Global, test: &ArgMatches<'a>) -> Result<Job<'a>, WordsFault> {
    let sites = given_paths(test);
    let scripts = script_paths(alloc, test)?;
    if scripts.is_empty() {
        return Err(WordsFault::Refused(none_named(alloc, test)?));
    }
    Ok(if is_everywhere(test) {
        Job::TryUndos { sites, scripts }
    } else {
        Job::Test {
            sites,
            scripts,
            written: test_files(test),
        }
    })
}

/// The job of a command line that was read.
fn any_job_of<'a>(alloc: Global, matches: &ArgMatches<'a>) -> Result<Job<'a>, WordsFault> {
    match matches.subcommand() {
        Some(("test", test)) => test_job(alloc, test),
        Some((name, _)) => match job_of(matches) {
            Some(job) => Ok(job),
            // all else that a command lacks clap says
            None => Err(WordsFault::Refused(lacks_script(alloc, name)?)),
        },
        None => Err(WordsFault::Refused(String::from_str(alloc, "error: no command is given")?)),
    }
}

/// What words that weren't matched come to.
fn unmatched<'a>(alloc: Global, words: &[&str], error: Error) -> Result<Job<'a>, WordsFault> {
    match error.kind() {
        ErrorKind::DisplayHelp | ErrorKind::DisplayVersion => {
            Ok(Job::Show(with_messages(alloc, &error.to_string(alloc)?)?))
        }
        ErrorKind::OutOfMemory => Err(WordsFault::NoMemory),
        _ => Err(WordsFault::Refused(refused_line(alloc, words)?)),
    }
}

/// Reads the words of a command line, those after the program's own name. A command gives its job. A request for help or for
/// the version gives the text to be shown. All other words are refused, with a line for standard error.
///
/// No clause says which words are which: tests show it.
pub fn read_words<'a>(alloc: Global, words: &'a [&'a str]) -> Result<Job<'a>, WordsFault> {
    if let Some(question) = hexadecimal_question(words) {
        return Ok(Job::Explain(question));
    }
    match lab_command(alloc)?.try_get_matches_from(words) {
        Ok(matches) => any_job_of(alloc, &matches),
        Err(error) => unmatched(alloc, words, error),
    }
}
