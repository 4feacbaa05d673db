//! Reasons in words.
use crate::reasons::{Fault, Reason};
use encoded_messages::{MessageFault, a_fault, abis_fault};
use lab_script::forms::{Form, INPUTS, SETTINGS, Slot};
use lab_script::report::{FieldsFault, fields_fault};
use screen_text::{Escaped, end_of};
use std::fmt;

/// The most characters of a word that are shown.
const MOST_SHOWN: usize = 60;

/// A word as it is shown: its front, as [`Escaped`].
#[derive(Clone, Copy)]
struct Shown<'a> {
    word: &'a str,
    /// What is said of a word without characters.
    nothing: &'static str,
}

impl fmt::Display for Shown<'_> {
    fn fmt<W: fmt::Write>(&self, f: &mut fmt::Formatter<W>) -> fmt::Result {
        if self.word.is_empty() {
            return f.write_str(self.nothing);
        }
        for character in self.word.chars().take(MOST_SHOWN) {
            let mut octets = [0; 4];
            write!(f, "{}", Escaped(character.encode_utf8(&mut octets)))?;
        }
        match self.word.chars().nth(MOST_SHOWN) {
            Some(_) => f.write_str(".."),
            None => Ok(()),
        }
    }
}

/// What the fields of a report may be.
const FIELDS: &str =
    "full= or sub= (0 to 63), qfull= or qsub= (0 to 7), ta= (0 to 63), power= (0 to 255), times= (1 to 255), \
n=CELL:LEVEL,.. (one to six neighbours), n=- or dtx, each once";

/// What the value of a field of a report may be; nothing if no field has this key.
fn allowed_in(key: &str) -> Option<&'static str> {
    match key {
        "full" | "sub" | "ta" => Some("0 to 63"),
        "qfull" | "qsub" => Some("0 to 7"),
        "power" => Some("0 to 255"),
        "times" => Some("1 to 255"),
        "n" => Some(
            "one to six times CELL:LEVEL (0 to 255 and 0 to 63), with a comma between any two, or -",
        ),
        _ => None,
    }
}

/// What is wrong with a word of a report: its value, or that it stands twice, or that it is no field.
fn write_field_fault<W: fmt::Write>(
    f: &mut fmt::Formatter<W>,
    word: &str,
    found: Shown<'_>,
) -> fmt::Result {
    let (key, value) = word.split_once('=').unwrap_or((word, ""));
    let Some(FieldsFault::Word(_)) = fields_fault(word) else {
        return write!(f, "{key} is given twice");
    };
    match allowed_in(key) {
        Some(allowed) => {
            let word = value;
            let nothing = "nothing";
            write!(f, "{key} is {allowed}, found {}", Shown { word, nothing })
        }
        None => write!(f, "FIELD is {FIELDS}, found {found}"),
    }
}

/// What is wrong with the words of a message, as `encode` says it.
fn write_message_fault<W: fmt::Write>(
    f: &mut fmt::Formatter<W>,
    fault: Option<MessageFault<'_>>,
) -> fmt::Result {
    match fault {
        Some(fault) => write!(f, "{fault}"),
        None => Ok(()),
    }
}

/// What the word of a slot may be.
fn allowed(slot: Slot) -> &'static str {
    match slot {
        Slot::Call => "0 to 65535",
        Slot::Cell | Slot::Trx => "0 to 255",
        Slot::Timeslot => "0 to 7, with /0 or /1 at the end for half rate",
        Slot::OnAbis | Slot::OnA => "one octet or more, each in two hexadecimal digits",
        Slot::Timer => "T3103, T7 or T8",
        Slot::Rate => "full or half",
        Slot::Habit => "arrive, return or vanish",
        Slot::Count => "1 to 255",
        Slot::Whom => "0 to 65535, or all",
        Slot::Held => "detection or complete",
        Slot::Answer => "ack, nack, detect, complete, failure or released",
        Slot::Fields => FIELDS,
    }
}

/// That a message may stand in words, where a word looks as if it began one: by its capital, or as one without capitals.
fn in_words(word: &str) -> &'static str {
    let is_hex = word.bytes().all(|byte| byte.is_ascii_hexdigit());
    match word.bytes().next() {
        Some(b'A'..=b'Z') => ", or a message in words",
        Some(b'a'..=b'z') if !is_hex => ", or a message in words, with its name in capitals",
        Some(_) | None => "",
    }
}

/// What else the word of a slot may be.
fn or_in_words(slot: Slot, word: &str) -> &'static str {
    match slot {
        Slot::OnAbis | Slot::OnA => in_words(word),
        Slot::Call
        | Slot::Cell
        | Slot::Trx
        | Slot::Timeslot
        | Slot::Timer
        | Slot::Rate
        | Slot::Habit
        | Slot::Count
        | Slot::Whom
        | Slot::Held
        | Slot::Answer
        | Slot::Fields => "",
    }
}

/// The first words of lines of some forms, as they are listed.
#[derive(Clone, Copy)]
struct Keywords {
    forms: &'static [Form],
    /// What stands before the last. A comma and a blank stand before the others.
    before_last: &'static str,
}

impl Keywords {
    /// What stands before the word of this place, counted from 0.
    fn before(self, place: usize) -> &'static str {
        match self.forms.get(place..) {
            _ if place == 0 => "",
            Some([_]) => self.before_last,
            Some(_) | None => ", ",
        }
    }
}

impl fmt::Display for Keywords {
    fn fmt<W: fmt::Write>(&self, f: &mut fmt::Formatter<W>) -> fmt::Result {
        for (place, form) in self.forms.iter().enumerate() {
            f.write_str(self.before(place))?;
            f.write_str(form.keyword())?;
        }
        Ok(())
    }
}

/// Says what is wrong; `other_line` says which other line may come, where lines come alone.
fn write_reason<W: fmt::Write>(
    f: &mut fmt::Formatter<W>,
    reason: Reason<'_>,
    other_line: &str,
) -> fmt::Result {
    let word = reason.found;
    let found = Shown {
        word,
        nothing: "two blanks, or one at the end",
    };
    let more = Shown {
        word,
        nothing: "a blank",
    };
    let inputs = Keywords {
        forms: INPUTS,
        before_last: ", ",
    };
    let settings = Keywords {
        forms: SETTINGS,
        before_last: " or ",
    };
    match reason.fault {
        Fault::ByteOrderMark => write!(f, "the line begins with a byte order mark"),
        Fault::NoPeer => write!(
            f,
            "2: is for a second controller, but there is none (--peer SITE)"
        ),
        Fault::Keyword => write!(
            f,
            "a line begins with {inputs}, sim, {settings}, with 2: and a blank, or with #, found {more}"
        ),
        Fault::LoneKeyword => write!(
            f,
            "a line begins with {inputs}, sim, {settings}, or with #{other_line}, found {more}"
        ),
        Fault::PeerKeyword => { write!(f, "2: is followed by {inputs}, {settings}, found {found}") }
        Fault::PeerSim => write!(f, "sim is for both controllers, and is written without 2:"),
        Fault::Word(slot) => write!(
            f,
            "{} is {}{}, found {found}{}",
            slot.name(),
            allowed(slot),
            or_in_words(slot, word),
            end_of(word)
        ),
        Fault::Field => write_field_fault(f, word, found),
        Fault::NoLevel => write!(f, "full is missing, as in full=30"),
        Fault::NoNeighbours => write!(f, "n is missing, as in n=1:40, or n=- for none"),
        Fault::OnAbis => write_message_fault(f, abis_fault(word)),
        Fault::OnA => write_message_fault(f, a_fault(word)),
        Fault::Missing(slot, form) => write!(f, "{} is missing in {form}", slot.name()),
        Fault::Behind(form) => write!(f, "nothing may follow {form}, found {more}"),
        Fault::NoSim(form) => write!(f, "{form} needs a line sim before it"),
    }
}

impl fmt::Display for Reason<'_> {
    fn fmt<W: fmt::Write>(&self, f: &mut fmt::Formatter<W>) -> fmt::Result {
        write_reason(f, *self, "")
    }
}

/// Why a line that comes by itself can't be read. Such a line may be `summary`.
#[derive(Clone, Copy, Debug, PartialEq, Eq)]
pub struct LoneReason<'a>(pub Reason<'a>);

impl fmt::Display for LoneReason<'_> {
    fn fmt<W: fmt::Write>(&self, f: &mut fmt::Formatter<W>) -> fmt::Result {
        write_reason(f, self.0, ", or is summary")
    }
}
