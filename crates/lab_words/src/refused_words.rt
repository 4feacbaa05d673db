//! One line for a person about words that are refused: which word is wrong, and what is allowed.
//!
//! No clause says what the line holds: tests show it.
use crate::words::lab_command;
use clap::error::ErrorKind;
use clap::{Command, Error};
use screen_text::Escaped;
use std::alloc::{AllocError, Global};

/// The words as they may be shown.
fn shown_words(alloc: Global, words: &[&str]) -> Result<Vec<String>, AllocError> {
    let mut shown = Vec::new(alloc);
    for word in words {
        shown.push(Escaped(*word).to_string(alloc)?)?;
    }
    Ok(shown)
}

/// Adds what stands between two parts of a line, the second of which may begin a paragraph.
fn push_joint(line: &mut String, is_paragraph: bool) -> Result<(), AllocError> {
    if line.is_empty() {
        return Ok(());
    }
    line.push_str(if is_paragraph { "; " } else { " " })?;
    Ok(())
}

/// The lines of `clap`'s text in one: its paragraphs, which empty lines separate, without the last, which names `--help`.
fn in_one_line(alloc: Global, text: &str) -> Result<String, AllocError> {
    let mut line = String::new(alloc);
    let mut is_paragraph = false;
    for part in text.lines() {
        if part.starts_with("For more information") {
            break;
        }
        if part.is_empty() {
            is_paragraph = true;
        } else {
            push_joint(&mut line, is_paragraph)?;
            line.push_str(part.trim())?;
            is_paragraph = false;
        }
    }
    Ok(line)
}

/// The command that words are for: the one that the first of them names, behind `help` the next, or else the whole.
fn named<'c, 'a>(command: &'c Command<'a>, words: &[String]) -> &'c Command<'a> {
    match words.iter().find(|word| word.as_str() != "help") {
        Some(word) => command.find_subcommand(word).unwrap_or(command),
        None => command,
    }
}

/// The usage of `decode`, of which `clap` shows a part that can't stand alone.
const DECODE_USAGE: &str =
    "; Usage: bsc_lab decode <LINK> <HEX>, or bsc_lab decode [LINK] --from <FILE> [--all]";

/// A line with the usage of `decode` whole.
fn with_decode_usage(alloc: Global, line: &str) -> Result<String, AllocError> {
    let before = match line.split_once("; Usage: ") {
        Some((before, _)) => before,
        None => line,
    };
    let mut whole = String::from_str(alloc, before)?;
    whole.push_str(DECODE_USAGE)?;
    Ok(whole)
}

/// Commands with numbers among their words, those numbers, and what they may be.
const NUMBERS: &[(&str, &str, &str)] = &[
    ("run", "'--call <N>'", "; N is a number from 0 to 65535"),
    ("live", "'--history <N>'", "; N is a number, 1 or more"),
    ("live", "'--keep <N>'", "; N is a number, 1 or more"),
    ("live", "'--heard <M>'", "; M is a number, 0 or more"),
    ("rewind", "'[LINE]'", "; LINE is a number, 1 or more"),
    (
        "record",
        "'--accept <LINE>'",
        "; LINE is a number, 1 or more",
    ),
    ("cells", "'<N>'", "; N is a number from 1 to 64"),
    ("storm", "'--workers <N>'", "; N is a number from 1 to 16"),
    ("storm", "'--calls <M>'", "; M is a number from 1 to 1024"),
    ("refused", "'<N>'", "; N is a number from 1 to 9"),
    (
        "cause",
        "'<N>'",
        "; N is a number from 0 to 255, or from 0x0 to 0xff",
    ),
    (
        "fault",
        "'<N>'",
        "; N is a number from 1 to 6, on rr from 1 to 4",
    ),
    ("fault", "'[ARGUMENT]'", "; ARGUMENT is a number"),
];

/// Whether words are for a command: the first of them names it, or the one behind that does.
fn are_for(words: &[String], command: &str) -> bool {
    words.iter().take(2).any(|word| word.as_str() == command)
}

/// Adds what a number may be that `clap` refuses.
fn push_numbers(line: &mut String, words: &[String]) -> Result<(), AllocError> {
    for (command, name, allowed) in NUMBERS {
        if line.contains(*name) && are_for(words, *command) {
            line.push_str(*allowed)?;
        }
    }
    Ok(())
}

/// Adds which words may stand for the COMMAND of a usage.
fn push_commands(line: &mut String, command: &Command<'_>) -> Result<(), AllocError> {
    let mut joint = "; COMMAND is ";
    for subcommand in command.get_subcommands() {
        line.push_str(joint)?;
        line.push_str(subcommand.get_name())?;
        joint = ", ";
    }
    Ok(())
}

/// Adds which words may stand for the OPTIONS of a usage.
fn push_options(line: &mut String, command: &Command<'_>) -> Result<(), AllocError> {
    let mut joint = "; OPTIONS are ";
    for argument in command.get_arguments() {
        if let Some(long) = argument.get_long() {
            write!(line, "{joint}--{long}")?;
            joint = ", ";
        }
    }
    Ok(())
}

/// Why words were refused, in one line: what `clap` says, and what its usage leaves open.
fn line_of(
    alloc: Global,
    command: &Command<'_>,
    words: &[String],
    error: &Error,
) -> Result<String, AllocError> {
    let text = error.to_string(alloc)?;
    let mut line = in_one_line(alloc, &text)?;
    let command = named(command, words);
    let kind = error.kind();
    // where a command is missing, clap lists them itself
    if line.contains("<COMMAND>") && kind != ErrorKind::MissingSubcommand {
        push_commands(&mut line, command)?;
    }
    if line.contains("[OPTIONS]") || kind == ErrorKind::UnknownArgument {
        push_options(&mut line, command)?;
    }
    if kind == ErrorKind::ValueValidation {
        push_numbers(&mut line, words)?;
    }
    if command.get_name() == "decode" {
        return with_decode_usage(alloc, &line);
    }
    Ok(line)
}

/// What `clap` says of words that a command doesn't match; nothing if it does.
fn fault_of<'a>(command: &mut Command<'a>, words: &'a [String]) -> Option<Error> {
    match command.try_get_matches_from_mut(words) {
        Ok(_matches) => None,
        Err(error) => Some(error),
    }
}

/// Why words are refused that a command doesn't match.
fn refusal<'a>(
    alloc: Global,
    command: &mut Command<'a>,
    words: &'a [String],
) -> Result<String, AllocError> {
    let Some(error) = fault_of(command, words) else {
        // with its escapes a word is refused where it is without
        return String::from_str(alloc, "error: a word has a character that can't be shown");
    };
    match error.kind() {
        ErrorKind::OutOfMemory => Err(AllocError),
        _ => line_of(alloc, command, words, &error),
    }
}

/// Why the words of a command line are refused, in one line without its end. What of a word can't be shown is escaped
/// before `clap` reads it, so that no line feed of a word is taken for one of `clap`'s text.
pub(crate) fn refused_line(alloc: Global, words: &[&str]) -> Result<String, AllocError> {
    let shown = shown_words(alloc, words)?;
    let mut command = lab_command(alloc)?;
    refusal(alloc, &mut command, &shown)
}
