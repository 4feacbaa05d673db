//! The program: it does what the words of its command line ask for.
use crate::check::check_file;
use crate::decoded::{Decoded, LinkName, decode_text, ended};
use crate::encoded::encode_run;
use crate::explained::explain;
use crate::files::run_files;
use crate::live::{AskedLive, live_file};
use crate::script_files::{record_file, test_files, try_undos_files};
use crate::summaries::summary_file;
use crate::trace_files::{audit_files, rewind_all_files, rewind_files};
use crate::undecoded::say_undecoded;
use decoded_lines::answer_file;
use explanations::Question;
use journal_files::Locking;
use lab_runs::run::Status;
use lab_words::{Job, WordsFault, read_words};
use run_listeners::LabFault;
use std::alloc::Global;
use std::io::{Read, Write};
use std::rt::Files;

/// Says in words what a number stands for.
fn explain_number<W: Write, E: Write>(
    question: Question,
    out: &mut W,
    errors: &mut E,
) -> Result<Status, LabFault> {
    if explain(question, out, errors)? {
        Ok(Status::Done)
    } else {
        Ok(Status::Refused)
    }
}

/// Why a storm isn't run among the other jobs.
const STORM_ALONE: &str = "error: a storm needs threads, and can't be run here";

/// Says why the words of a command line are refused.
fn refuse_words<E: Write>(reason: &str, errors: &mut E) -> Result<Status, LabFault> {
    writeln!(errors, "{reason}")?;
    Ok(Status::Refused)
}

/// Prints one message in words; where the text is refused, `errors` says why.
fn decode<W: Write, E: Write>(
    alloc: Global,
    link: LinkName,
    text: &str,
    out: &mut W,
    errors: &mut E,
) -> Result<Status, LabFault> {
    let decoded = decode_text(alloc, link, text, out)?;
    say_undecoded(text, decoded, errors)?;
    match decoded {
        Decoded::Message => Ok(Status::Done),
        Decoded::NotHex | Decoded::Bad(_) => Ok(Status::Refused),
    }
}

/// Does what the words of a command line ask for, those after the program's own name: runs a script over a site
/// ([`run_files`]), runs the lines of `input` as they come ([`live_file`]), takes an undone attempt out of a trace and says
/// whether the rest comes to the same ([`rewind_files`]), each ([`rewind_all_files`]) or all of them together
/// ([`audit_files`]), counts what a trace tells ([`summary_file`]), tests scripts ([`test_files`]), takes each attempt of
/// theirs back at each point ([`try_undos_files`]) or records one ([`record_file`]), prints the cells of a site
/// ([`check_file`]) or a site of cells alike, prints a message in words ([`decode_run`]) or those of many lines ([`answer_file`]), prints a
/// message's octets ([`encode_run`]), says in words what a number stands for ([`explain`]), or shows help or the version.
/// `input` is standard input. What it prints goes to `out`; why words, a site, a file or a message are refused goes to
/// `errors`. It ends as the command does ([`Status`], [`LabFault`]); words that are refused are `Refused`, help and the
/// version `Done`. It waits for no thread: a storm, which does, is refused here, and is run by
/// [`storm_file`](crate::storm::storm_file) for who looks for it first ([`storm_asked`](crate::storm::storm_asked)).
///
/// No clause says what is printed, nor how which words end: tests show it.
pub fn perform<R: Files + AllocGlobal, I: Read + Drop, W: Write, E: Write>(
    rt: &R,
    words: &[&str],
    input: I,
    out: &mut W,
    errors: &mut E,
) -> Result<Status, LabFault>
where
    R::File: Locking,
{
    match read_words(rt.alloc(), words) {
        Ok(
            Job::Run {
                sites,
                script,
                views,
                ending,
            },
        ) => run_files(rt, sites, script, &views, ending, out, errors),
        Ok(
            Job::Live {
                site,
                views,
                entries,
                journal,
            },
        ) => {
            let asked = AskedLive {
                path: site,
                views: &views,
                entries,
                journal,
            };
            live_file(rt, asked, input, out, errors)
        }
        Ok(
            Job::Test {
                sites,
                scripts,
                written,
            },
        ) => test_files(rt, sites, &scripts, written, out, errors),
        Ok(Job::TryUndos { sites, scripts }) => try_undos_files(rt, sites, &scripts, out, errors),
        Ok(
            Job::Record {
                sites,
                script,
                recording,
            },
        ) => record_file(rt, sites, script, recording, out, errors),
        Ok(Job::Rewind { site, trace, line }) => rewind_files(rt, site, trace, line, out, errors),
        Ok(Job::RewindAll { sites, trace }) => rewind_all_files(rt, sites, trace, out, errors),
        Ok(Job::Audit { site, trace }) => audit_files(rt, site, trace, out, errors),
        Ok(Job::Summary { trace, form }) => summary_file(rt, trace, form, out, errors),
        Ok(Job::Storm { .. }) => refuse_words(STORM_ALONE, errors),
        Ok(Job::Check { sites }) => check_file(rt, sites, out, errors),
        Ok(Job::Cells(site)) => {
            write!(out, "{site}")?;
            Ok(Status::Done)
        }
        Ok(Job::Decode { link, text }) => decode(rt.alloc(), link, text, out, errors),
        Ok(Job::DecodeLines { asked, path }) => {
            ended(answer_file(rt, asked, path, input, out, errors))
        }
        Ok(Job::Encode { link, text }) => encode_run(rt.alloc(), link, text, out, errors),
        Ok(Job::Explain(question)) => explain_number(question, out, errors),
        Ok(Job::Show(text)) => {
            write!(out, "{text}")?;
            Ok(Status::Done)
        }
        Err(WordsFault::Refused(reason)) => refuse_words(&reason, errors),
        Err(WordsFault::NoMemory) => Err(LabFault::NoMemory),
    }
}
