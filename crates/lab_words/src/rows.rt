//! Arguments and commands as rows of tables, from which `clap`'s arguments and commands are made.
//!
//! Each table is used in the function that makes its command. A function that used several would be more expensive to prove
//! than all of these together.
use clap::builder::ValueParser;
use clap::{Arg, ArgAction, Command};
use std::alloc::{AllocError, Global};

/// How an argument stands on a command line.
#[derive(Clone, Copy)]
pub(crate) enum Form {
    /// As a word, by its place.
    Placed(ValueParser<'static>),
    /// As words by their place, one or more.
    Several,
    /// `--FLAG`
    Flag(&'static str),
    /// `--NAME VALUE`: the name, and what the value is called.
    Valued(&'static str, &'static str, ValueParser<'static>),
    /// `-LETTER VALUE`: the letter, and what the value is called.
    Lettered(char, &'static str, ValueParser<'static>),
}

/// What an argument asks of a command line.
#[derive(Clone, Copy)]
pub(crate) enum Rule {
    /// It has to be given.
    Required,
    /// It has to be given, unless the argument of this name is.
    Unless(&'static str),
    /// The argument of this name has to be given with it.
    Wants(&'static str),
    /// The argument of this name can't be given with it.
    Excludes(&'static str),
}

/// An argument: by which name its value is asked for, how it stands on a command line, what it is, and what it asks.
#[derive(Clone, Copy)]
pub(crate) struct ArgumentRow {
    pub name: &'static str,
    pub form: Form,
    pub help: &'static str,
    pub rules: &'static [Rule],
}

/// A command: its name, what it is for, what stands behind its help, and its arguments.
#[derive(Clone, Copy)]
pub(crate) struct CommandRow {
    pub name: &'static str,
    pub about: &'static str,
    pub after_help: &'static str,
    pub arguments: &'static [ArgumentRow],
}

/// What an argument has to be that may be any text.
pub(crate) const TEXT: ValueParser<'static> = ValueParser::String;

/// What it has to be, as a number from 1 on.
pub(crate) const COUNTED: ValueParser<'static> = ValueParser::Unsigned(1, u64::MAX);

/// What it has to be, as a number from 0 on.
pub(crate) const NUMBER: ValueParser<'static> = ValueParser::Unsigned(0, u64::MAX);

/// An argument with one more rule.
fn with_rule<'a>(argument: Arg<'a>, rule: Rule) -> Result<Arg<'a>, AllocError> {
    match rule {
        Rule::Required => Ok(argument.required(true)),
        Rule::Unless(name) => argument.required_unless_present(name),
        Rule::Wants(name) => argument.requires_arg(name),
        Rule::Excludes(name) => argument.conflicts_with(name),
    }
}

/// The argument of a row.
fn argument<'a>(alloc: Global, row: &ArgumentRow) -> Result<Arg<'a>, AllocError> {
    let named = Arg::new(alloc, row.name).help(row.help);
    let mut formed = match row.form {
        Form::Placed(parser) => named.value_parser(parser),
        Form::Several => named.action(ArgAction::Set).num_args(1..),
        Form::Flag(name) => named.long(name).action(ArgAction::SetTrue),
        Form::Valued(name, value, parser) => {
            named.long(name).value_name(value).value_parser(parser)
        }
        Form::Lettered(letter, value, parser) => {
            named.short(letter).value_name(value).value_parser(parser)
        }
    };
    for rule in row.rules {
        formed = with_rule(formed, *rule)?;
    }
    Ok(formed)
}

/// A command with the arguments of these rows.
pub(crate) fn with_arguments<'a>(
    alloc: Global,
    command: Command<'a>,
    rows: &[ArgumentRow],
) -> Result<Command<'a>, AllocError> {
    let mut command = command;
    for row in rows {
        command = command.arg(argument(alloc, row)?)?;
    }
    Ok(command)
}

/// The command of a row.
pub(crate) fn command<'a>(alloc: Global, row: &CommandRow) -> Result<Command<'a>, AllocError> {
    let named = Command::new(alloc, row.name)
        .about(row.about)
        .after_help(row.after_help);
    with_arguments(alloc, named, row.arguments)
}

/// A command with one more below it. (Here alone a command waits for another: where many do in one chain, each would be
/// dropped at each `?` behind it, which is dear to prove.)
pub(crate) fn with<'a>(
    command: Command<'a>,
    below: Result<Command<'a>, AllocError>,
) -> Result<Command<'a>, AllocError> {
    command.subcommand(below?)
}
