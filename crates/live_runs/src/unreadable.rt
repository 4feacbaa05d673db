//! Why a line can't be read, in words.
//!
//! No clause says what is said. `line` says which lines can't be read, by the rules of scripts.
use decoded_lines::LONGEST_LINE;
use lab_script::script::without_return;
use script_reasons::{Fault, LoneReason, Reason, line_reason, script_reason};
use std::{fmt, str};

/// Why a line can't be read.
#[derive(Clone, Copy, Debug, PartialEq, Eq)]
pub enum Unreadable<'a> {
    /// It has more octets than a line may have.
    TooLong,
    /// It isn't UTF-8: the place, counted from 1, of the first octet that doesn't belong to a text.
    NotText(usize),
    /// It is for a second controller, which a script may have.
    ForPeer,
    /// It attaches simulators, which aren't allowed: their state isn't in a journal.
    NoSimulators,
    /// It asks for the counts so far, but has something after `summary`.
    BehindSummary,
    /// It is no line of a script, or asks something of simulators that aren't there.
    NotScript(Reason<'a>),
}

impl fmt::Display for Unreadable<'_> {
    fn fmt<W: fmt::Write>(&self, f: &mut fmt::Formatter<W>) -> fmt::Result {
        match self {
            Unreadable::TooLong => write!(f, "the line has over 65,536 octets"),
            Unreadable::NotText(place) => write!(f, "isn't UTF-8 (octet {place})"),
            Unreadable::ForPeer => {
                write!(f, "2: is for a second controller, but live runs only one")
            }
            Unreadable::NoSimulators => {
                write!(
                    f,
                    "simulators can't be attached to a controller with a journal"
                )
            }
            Unreadable::BehindSummary => write!(f, "nothing may follow summary"),
            Unreadable::NotScript(reason) => write!(f, "{}", LoneReason(*reason)),
        }
    }
}

/// Why a text can't be read, where simulators are attached or not.
fn reason_of(text: &str, has_sim: bool) -> Option<Reason<'_>> {
    if has_sim {
        line_reason(without_return(text), false)
    } else {
        script_reason(text, 1, false)
    }
}

/// Whether a text asks what came so far, with something behind that.
fn is_behind_summary(text: &str) -> bool {
    text.starts_with("summary ")
}

/// A reason of scripts why a text can't be read, as it is said of lines as they come.
fn unreadable_by<'a>(text: &str, reason: Reason<'a>) -> Unreadable<'a> {
    if reason.fault == Fault::NoPeer {
        Unreadable::ForPeer
    } else if is_behind_summary(text) {
        Unreadable::BehindSummary
    } else {
        Unreadable::NotScript(reason)
    }
}

/// Why a line can't be read, with simulators attached or not; nothing if it can be read.
pub fn unreadable_of(line: &[u8], has_sim: bool) -> Option<Unreadable<'_>> {
    if line.len() > LONGEST_LINE {
        return Some(Unreadable::TooLong);
    }
    match str::from_utf8(line) {
        Ok(text) => Some(unreadable_by(text, reason_of(text, has_sim)?)),
        Err(fault) => Some(Unreadable::NotText(fault.valid_up_to().saturating_add(1))),
    }
}
