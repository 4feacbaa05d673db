//! What books hold, as answers to expectations.
//!
//! The answers are computed from the lines `state ..` that `--state` prints. No clause says how: tests show it.
ghost use Rattle.std.specs.Prelude.{◌≡◌};
ghost use Rattle.expectations.specs.Held as said;

use crate::slots::{Slot, Use};
use crate::stars::is_like;
use crate::words::{has_word, has_words_of, word_count};
use std::alloc::{AllocError, Allocator, Global};
use std::fmt;
use std::io::{self, Write};

/// What is asked of the books, by the first words of what is expected.
#[derive(Clone, Copy, Debug, PartialEq, Eq)]
enum Question<'a> {
    /// `trx CELL/TRX`: its timeslots, by their symbols.
    Trx(&'a str),
    /// `channels`: those that are in use.
    Channels,
    /// `call CALL`: its serving channel and its attempt.
    Call(&'a str),
    /// `call CALL -`: that there is none of this number.
    NoCall(&'a str),
    /// `cell CELL`: how many of its channels are in use.
    Cell(&'a str),
    /// `timers TIMER`: how many run.
    Timers(&'a str),
    /// `calls`: how many there are.
    Calls,
    /// `references`: how many there are.
    References,
}

/// A text without the mark of a controller that may begin it, and the mark.
fn cut_mark(text: &str) -> (&'static str, &str) {
    match text.strip_prefix("1: ") {
        Some(rest) => ("1: ", rest),
        None => match text.strip_prefix("2: ") {
            Some(rest) => ("2: ", rest),
            None => ("", text),
        },
    }
}

/// The first word of a text.
fn first_word(text: &str) -> &str {
    match text.split_once(' ') {
        Some((word, _)) => word,
        None => text,
    }
}

/// What is asked of a call, by what stands behind that word.
fn call_question(rest: &str) -> Question<'_> {
    match rest.split_once(' ') {
        Some((call, "-")) => Question::NoCall(call),
        Some((call, _)) => Question::Call(call),
        None => Question::Call(rest),
    }
}

/// What is asked of the timers of this name; nothing if there are none (TS 44.018 clause 11.1, TS 48.008 clause 3.1.5).
fn timers_question(name: &str) -> Option<Question<'_>> {
    match name {
        "T3103" | "T7" | "T8" => Some(Question::Timers(name)),
        _ => None,
    }
}

/// What is asked by a text without its mark; nothing if its words ask for nothing.
fn question_of(text: &str) -> Option<Question<'_>> {
    if let Some(rest) = text.strip_prefix("trx ") {
        return Some(Question::Trx(first_word(rest)));
    }
    if let Some(rest) = text.strip_prefix("call ") {
        return Some(call_question(rest));
    }
    if let Some(rest) = text.strip_prefix("cell ") {
        return Some(Question::Cell(first_word(rest)));
    }
    if let Some(rest) = text.strip_prefix("timers ") {
        return timers_question(first_word(rest));
    }
    match first_word(text) {
        "channels" => Some(Question::Channels),
        "calls" => Some(Question::Calls),
        "references" => Some(Question::References),
        _ => None,
    }
}

/// What stands behind the mark and these words of a line of what a book holds.
fn behind<'a>(line: &'a str, mark: &str, words: &str) -> Option<&'a str> {
    line.strip_prefix(mark)?.strip_prefix(words)
}

/// The channel of a line, and whether it is on, where the line is one of a channel.
fn channel_in<'a>(line: &'a str, mark: &str) -> Option<(&'a str, bool)> {
    let text = behind(line, mark, "state channel ")?;
    let (channel, state) = text.split_once(' ')?;
    Some((channel, first_word(state) == "on"))
}

/// A timeslot with what a line says of one of its channels, behind its number.
fn with_use(slot: Slot, half: &str, used: Use) -> Slot {
    match half {
        "" => Slot { full: used, ..slot },
        "/0" => Slot {
            half0: used,
            ..slot
        },
        "/1" => Slot {
            half1: used,
            ..slot
        },
        _ => slot,
    }
}

/// What stands behind a channel's TRX and timeslot, where it is of these.
fn half_of<'a>(channel: &'a str, trx: &str, tn: &str) -> Option<&'a str> {
    channel
        .strip_prefix(trx)?
        .strip_prefix("/")?
        .strip_prefix(tn)
}

/// What a TRX's timeslot is used for.
fn slot_of(lines: &[&str], mark: &str, trx: &str, tn: &str) -> Slot {
    let mut slot = Slot::FREE;
    for line in lines {
        if let Some((channel, is_on)) = channel_in(*line, mark)
            && let Some(half) = half_of(channel, trx, tn)
        {
            slot = with_use(slot, half, if is_on { Use::On } else { Use::Other });
        }
    }
    slot
}

/// The numbers of the timeslots of a TRX.
const TIMESLOTS: [&str; 8] = ["0", "1", "2", "3", "4", "5", "6", "7"];

/// What a controller's book holds, as the answer to a question.
#[derive(Clone, Copy)]
struct AnswerText<'a> {
    question: Question<'a>,
    mark: &'static str,
    lines: &'a [&'a str],
}

/// Whether the site of a controller has a TRX.
fn has_trx(lines: &[&str], mark: &str, trx: &str) -> bool {
    lines.iter().any(|line| match behind(*line, mark, "state trx ") {
        Some(found) => found == trx,
        None => false,
    })
}

/// Prints the symbols of a TRX's timeslots, or that the site has no such TRX.
fn print_trx<W: fmt::Write>(
    f: &mut fmt::Formatter<W>,
    lines: &[&str],
    mark: &str,
    trx: &str,
) -> fmt::Result {
    if !has_trx(lines, mark, trx) {
        return write!(f, "{mark}no trx {trx}");
    }
    write!(f, "{mark}trx {trx}")?;
    print_slots(f, lines, mark, trx)
}

/// Prints the symbols of a TRX's timeslots.
fn print_slots<W: fmt::Write>(
    f: &mut fmt::Formatter<W>,
    lines: &[&str],
    mark: &str,
    trx: &str,
) -> fmt::Result {
    for tn in TIMESLOTS {
        write!(f, " {}", slot_of(lines, mark, trx, tn).symbol())?;
    }
    Ok(())
}

/// Prints the channels that are in use.
fn print_channels<W: fmt::Write>(
    f: &mut fmt::Formatter<W>,
    lines: &[&str],
    mark: &str,
) -> fmt::Result {
    for line in lines {
        if let Some((channel, _)) = channel_in(*line, mark) {
            write!(f, " {channel}")?;
        }
    }
    Ok(())
}

/// What a line says of a call behind its number: its record.
fn record_in<'a>(line: &'a str, mark: &str, call: &str) -> Option<&'a str> {
    behind(line, mark, "state call ")?
        .strip_prefix(call)?
        .strip_prefix(" record ")
}

/// Prints a call's record: its serving channel without that one's state, and its attempt.
fn print_record<W: fmt::Write>(f: &mut fmt::Formatter<W>, record: &str) -> fmt::Result {
    for (place, word) in record.split(' ').enumerate() {
        // the second word is the serving channel's state
        if place != 1 {
            write!(f, " {word}")?;
        }
    }
    Ok(())
}

/// Prints a call, or that there is none of this number: in the words of an expectation, where that is what is expected.
fn print_call<W: fmt::Write>(
    f: &mut fmt::Formatter<W>,
    lines: &[&str],
    mark: &str,
    call: &str,
    is_absent: bool,
) -> fmt::Result {
    for line in lines {
        if let Some(record) = record_in(*line, mark, call) {
            write!(f, "{mark}call {call}")?;
            return print_record(f, record);
        }
    }
    if is_absent {
        write!(f, "{mark}call {call} -")
    } else {
        write!(f, "{mark}no call {call}")
    }
}

/// How many channels of a cell are in use.
fn count_of_channels(lines: &[&str], mark: &str, cell: &str) -> usize {
    lines
        .iter()
        .filter(|line| is_in_cell(behind(**line, mark, "state channel "), cell))
        .count()
}

/// Whether what stands behind the first words of a line begins with a cell's number and a slash.
fn is_in_cell(found: Option<&str>, cell: &str) -> bool {
    match found {
        Some(text) => match text.split_once('/') {
            Some((number, _)) => number == cell,
            None => false,
        },
        None => false,
    }
}

/// Prints how many channels of a cell are in use, or that the site has no such cell.
fn print_cell<W: fmt::Write>(
    f: &mut fmt::Formatter<W>,
    lines: &[&str],
    mark: &str,
    cell: &str,
) -> fmt::Result {
    if !lines
        .iter()
        .any(|line| is_in_cell(behind(*line, mark, "state trx "), cell))
    {
        return write!(f, "{mark}no cell {cell}");
    }
    let count = count_of_channels(lines, mark, cell);
    write!(f, "{mark}cell {cell} {count}")
}

/// How many timers of a name run.
fn count_of_timers(lines: &[&str], mark: &str, timer: &str) -> usize {
    lines
        .iter()
        .filter(|line| match behind(**line, mark, "state timer ") {
            Some(found) => first_word(found) == timer,
            None => false,
        })
        .count()
}

/// How many lines begin with a mark and these words.
fn count_of(lines: &[&str], mark: &str, words: &str) -> usize {
    lines
        .iter()
        .filter(|line| behind(**line, mark, words).is_some())
        .count()
}

impl fmt::Display for AnswerText<'_> {
    fn fmt<W: fmt::Write>(&self, f: &mut fmt::Formatter<W>) -> fmt::Result {
        let AnswerText {
            question,
            mark,
            lines,
        } = *self;
        match question {
            Question::Trx(trx) => print_trx(f, lines, mark, trx),
            Question::Channels => {
                write!(f, "{mark}channels")?;
                print_channels(f, lines, mark)
            }
            Question::Call(call) => print_call(f, lines, mark, call, false),
            Question::NoCall(call) => print_call(f, lines, mark, call, true),
            Question::Cell(cell) => print_cell(f, lines, mark, cell),
            Question::Timers(timer) => {
                let count = count_of_timers(lines, mark, timer);
                write!(f, "{mark}timers {timer} {count}")
            }
            Question::Calls => {
                let count = count_of(lines, mark, "state call ");
                write!(f, "{mark}calls {count}")
            }
            Question::References => {
                let count = count_of(lines, mark, "state reference ");
                write!(f, "{mark}references {count}")
            }
        }
    }
}

/// The marks that lines of what books hold may have.
const MARKS: [&str; 3] = ["", "1: ", "2: "];

/// Whether lines of what books hold are of a controller with this mark.
fn has_mark(lines: &[&str], mark: &str) -> bool {
    lines
        .iter()
        .any(|line| behind(*line, mark, "state ").is_some())
}

/// Whether a mark is that of a controller which is there; else why nothing can be asked behind it.
fn mark_fault(lines: &[&str], mark: &str) -> Option<&'static str> {
    if has_mark(lines, mark) {
        None
    } else if mark.is_empty() {
        Some("with two controllers it has to begin with 1: or 2:")
    } else {
        Some("there is only one controller: its lines have no mark")
    }
}

/// The answer to an expectation about books.
#[derive(Drop)]
pub enum Answered<A: Allocator = Global> {
    /// What they hold.
    Held(String<A>),
    /// Why the expectation asks for nothing. It isn't met then.
    Unasked(&'static str),
}

/// The answer to an expectation about books, in the expectation's form: `trx`, `channels`, `call`, `cell`, `calls`,
/// `references` or `timers` after a controller's mark. `lines` says what the books hold, as `--state` prints it, with a line
/// `state trx CELL/TRX` for each TRX of the sites.
pub fn answer_to<A: Allocator + Copy>(
    alloc: A,
    expected: &str,
    lines: &[&str],
) -> Result<Answered<A>, AllocError> {
    let (mark, text) = cut_mark(expected);
    let Some(question) = question_of(text) else {
        return Ok(Answered::Unasked("no such expectation"));
    };
    if let Some(fault) = mark_fault(lines, mark) {
        return Ok(Answered::Unasked(fault));
    }
    let answer = AnswerText {
        question,
        mark,
        lines,
    };
    Ok(Answered::Held(format!(in alloc; "{answer}")?))
}

/// Prints what a controller's book holds as the comments that expect it: its channels, and each call.
fn print_mark<'a, W: Write>(
    out: &mut W,
    lines: &'a [&'a str],
    mark: &'static str,
    ending: &str,
) -> io::Result<()> {
    let channels = AnswerText {
        question: Question::Channels,
        mark,
        lines,
    };
    write!(out, "#= {channels}{ending}")?;
    for line in lines {
        if let Some(rest) = behind(*line, mark, "state call ") {
            let question = Question::Call(first_word(rest));
            let call = AnswerText {
                question,
                mark,
                lines,
            };
            write!(out, "#= {call}{ending}")?;
        }
    }
    Ok(())
}

/// Prints what books hold, as comments that expect it: for each controller its channels, and each call. `lines` says what
/// they hold, as `--state` prints it.
pub fn print_expected<'a, W: Write>(
    out: &mut W,
    lines: &'a [&'a str],
    ending: &str,
) -> io::Result<()> {
    for mark in MARKS {
        if has_mark(lines, mark) {
            print_mark(out, lines, mark, ending)?;
        }
    }
    Ok(())
}

/// Whether a word meets another, in which `*` stands for any, or for any part of a channel.
fn is_word_met(word: &str, expected: &str) -> bool
    ensures { result ≡ said.is_word_met (word.now, expected.now) }
{
    is_like(word, expected)
}

/// Whether all words meet those that are expected, in their order.
fn are_words_met(answer: &str, expected: &str) -> bool
    ensures { result ≡ said.are_words_met answer.now expected.now }
{
    word_count(answer) == word_count(expected)
        && answer
            .split(' ')
            .zip(expected.split(' '))
            .all(|(word, other)| is_word_met(word, other))
}

/// Whether the words are the same in any order.
fn are_same_words(answer: &str, expected: &str) -> bool
    ensures { result ≡ said.are_same_words answer.now expected.now }
{
    has_words_of(answer, expected) && has_words_of(expected, answer)
}

/// Whether an answer is as expected: word by word, where `*` stands for any word. Channels may come in any order.
pub fn is_answered(answer: &str, expected: &str) -> bool
    ensures answered { result ≡ said.is_answered answer.now expected.now }
{
    are_words_met(answer, expected)
        || (has_word(expected, "channels") && are_same_words(answer, expected))
}
