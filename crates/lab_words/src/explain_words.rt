//! The words of the command `explain`.
use crate::rows::{ArgumentRow, CommandRow, Form, NUMBER, Rule, command, with};
use crate::words::LINKS;
use clap::builder::ValueParser;
use clap::{ArgMatches, Command};
use explanations::{LinkName, Question};
use std::alloc::{AllocError, Global};

/// What stands behind the help of `explain` and of `explain refused`.
const HELP: &str = "\
Statuses: 0 the number was explained, 2 there is no such number, or the command line is wrong,
3 memory was refused.

As in: bsc_lab explain refused 6";

/// What stands behind the help of `explain cause`.
const CAUSE_HELP: &str = "\
Links: rr is the radio path (TS 44.018), a the switching centre (TS 48.008), abis the base station
(TS 48.058).

Statuses: 0 the cause was explained, 2 the command line is wrong, 3 memory was refused.

As in: bsc_lab explain cause a 33, or, in hexadecimal: bsc_lab explain cause a 0x21";

/// What stands behind the help of `explain fault`.
const FAULT_HELP: &str = "\
Links: rr is the radio path (TS 44.018), a the switching centre (TS 48.008), abis the base station
(TS 48.058).

ARGUMENT is in decimal, as decode prints it. It is a message type or an element identifier (0 to
255), an offset (3 to 254 on a, 1 to 1023 on abis), or what is wrong with the element (1 to 4, on
rr).

Statuses: 0 the fault was explained, 2 there is no such fault, it can't have this argument, or the
command line is wrong, 3 memory was refused.

As in: bsc_lab explain fault abis 3 26";

/// What `N` has to be.
const OCTET: ValueParser<'static> = ValueParser::Signed(0, 255);

/// `LINK`
const LINK: ArgumentRow = ArgumentRow {
    name: "LINK",
    form: Form::Placed(LINKS),
    help: "The link that the number comes from",
    rules: &[Rule::Required],
};

/// `refused N`
const REFUSED: CommandRow = CommandRow {
    name: "refused",
    about: "A refusal of the book, as in: explain refused 6",
    after_help: HELP,
    arguments: &[ArgumentRow {
        name: "N",
        form: Form::Placed(OCTET),
        help: "The refusal's number, 1 to 9, which a trace shows after the word refused",
        rules: &[Rule::Required],
    }],
};

/// The command `explain refused`.
fn refused_command<'a>(alloc: Global) -> Result<Command<'a>, AllocError> {
    command(alloc, &REFUSED)
}

/// `cause LINK N`
const CAUSE: CommandRow = CommandRow {
    name: "cause",
    about: "A cause that a message carries, as in: explain cause a 33",
    after_help: CAUSE_HELP,
    arguments: &[
        LINK,
        ArgumentRow {
            name: "N",
            form: Form::Placed(OCTET),
            help: "The cause, 0 to 255, or in hexadecimal, 0x0 to 0xff",
            rules: &[Rule::Required],
        },
    ],
};

/// The command `explain cause`.
fn cause_command<'a>(alloc: Global) -> Result<Command<'a>, AllocError> {
    command(alloc, &CAUSE)
}

/// `fault LINK N [ARGUMENT]`
const FAULT: CommandRow = CommandRow {
    name: "fault",
    about: "Why octets are no message, as in: explain fault abis 5",
    after_help: FAULT_HELP,
    arguments: &[
        LINK,
        ArgumentRow {
            name: "N",
            form: Form::Placed(OCTET),
            help: "The fault's number, as a trace shows it: 1 to 6 (1 to 4 on rr)",
            rules: &[Rule::Required],
        },
        ArgumentRow {
            name: "ARGUMENT",
            form: Form::Placed(NUMBER),
            help: "The fault's argument, if it has one",
            rules: &[],
        },
    ],
};

/// The command `explain fault`.
fn fault_command<'a>(alloc: Global) -> Result<Command<'a>, AllocError> {
    command(alloc, &FAULT)
}

/// `explain`, without what can be explained.
const EXPLAIN: CommandRow = CommandRow {
    name: "explain",
    about: "Says in words what a number stands for, as in: explain refused 6",
    after_help: HELP,
    arguments: &[],
};

/// The command `explain`: `explain refused N`, `explain cause LINK N`, `explain fault LINK N [ARGUMENT]`.
pub(crate) fn explain_command<'a>(alloc: Global) -> Result<Command<'a>, AllocError> {
    let command = command(alloc, &EXPLAIN)?.subcommand_required(true);
    let command = with(command, refused_command(alloc))?;
    let command = with(command, cause_command(alloc))?;
    with(command, fault_command(alloc))
}

/// The octet of two hexadecimal digits or one behind `0x`.
fn hexadecimal_octet(word: &str) -> Option<u8> {
    let digits = word.strip_prefix("0x")?;
    if !digits.bytes().all(|octet| octet.is_ascii_hexdigit()) {
        return None;
    }
    u8::from_str_radix(digits, 16).ok()
}

/// What the words of a command line ask that name a cause in hexadecimal, which [`explain_command`] doesn't match; `None` of
/// all others.
pub(crate) fn hexadecimal_question(words: &[&str]) -> Option<Question> {
    let [command, what, link, number] = words else {
        return None;
    };
    if *command != "explain" || *what != "cause" {
        return None;
    }
    let cause = hexadecimal_octet(*number)?;
    Some(Question::Cause(LinkName::named(*link)?, cause))
}

/// What the words behind `explain` ask; `None` if they weren't matched by [`explain_command`].
pub(crate) fn question_of(explain: &ArgMatches<'_>) -> Option<Question> {
    match explain.subcommand()? {
        ("refused", refused) => Some(Question::Refusal(refused.get_one::<u8>("N")?)),
        ("cause", cause) => Some(Question::Cause(
            LinkName::named(cause.get_str("LINK")?)?,
            cause.get_one::<u8>("N")?,
        )),
        ("fault", fault) => Some(Question::Fault(
            LinkName::named(fault.get_str("LINK")?)?,
            fault.get_one::<u8>("N")?,
            fault.get_one::<usize>("ARGUMENT"),
        )),
        _ => None,
    }
}
