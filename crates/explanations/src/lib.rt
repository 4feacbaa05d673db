//! One refusal, cause or fault in words, by the numbers that a trace or a message shows.
#![tactic(auto)]

ghost use Rattle.std.specs.Prelude.{◌↔◌, ◌<◌, IsSome};
ghost use Rattle.explanations.specs.Questions.{IsKnown};

mod causes;
mod fault;
mod link;

pub use causes::{a_cause, abis_cause, refusal_name, refusal_words, rr_cause};
pub use fault::{Argument, Fault, argument_of, fault_of, last_fault};
pub use link::LinkName;
use std::fmt;

/// What is to be said in words.
#[derive(Clone, Copy, Debug, PartialEq, Eq)]
pub enum Question {
    /// A refusal of the book, by its number from 1 to 9. Ours, of no standard.
    Refusal(u8),
    /// A cause on a link, any octet (TS 48.008 clause 3.2.2.5, TS 44.018 clause 10.5.2.31, TS 48.058 clause 9.3.26).
    Cause(LinkName, u8),
    /// A fault of octets that are no message of a link, by its number from 1 on, and the fault's argument, where it is
    /// known ([`Argument`]). Ours, of no standard.
    Fault(LinkName, u8, Option<usize>),
}

/// What is said of it. Its `Display` is one line of text.
#[derive(Clone, Copy, Debug)]
pub enum Answer {
    /// The refusal's name, and why the book refuses so.
    Refusal(&'static str, &'static str),
    /// The cause's name, `reserved` where a standard gives it none.
    Cause(&'static str),
    /// The fault.
    Fault(Fault),
}

/// The name of a cause on a link, `reserved` where a standard gives it none.
pub fn cause_name(link: LinkName, cause: u8) -> &'static str {
    match link {
        LinkName::Rr => rr_cause(cause),
        LinkName::A => a_cause(cause),
        LinkName::Abis => abis_cause(cause),
    }
}

/// A refusal in words.
fn refusal(number: u8) -> Option<Answer>
    ensures { IsSome result ↔ ((0 < number) × (number < 10)) }
{
    Some(Answer::Refusal(refusal_name(number)?, refusal_words(number)?))
}

/// What is said; `None` if there is no refusal or no fault of this number, or where the fault can't have this argument. It
/// takes no memory.
pub fn answer_to(question: Question) -> Option<Answer>
    ensures known { IsSome result ↔ IsKnown question }
{
    match question {
        Question::Refusal(number) => refusal(number),
        Question::Cause(link, cause) => Some(Answer::Cause(cause_name(link, cause))),
        Question::Fault(link, number, argument) => match fault_of(link, number, argument) {
            Some(fault) => Some(Answer::Fault(fault)),
            None => None,
        },
    }
}

impl fmt::Display for Answer {
    fn fmt<W: fmt::Write>(&self, f: &mut fmt::Formatter<W>) -> fmt::Result {
        match self {
            Answer::Refusal(name, words) => write!(f, "{name}: {words}"),
            Answer::Cause(name) => f.write_str(*name),
            Answer::Fault(fault) => write!(f, "{fault}"),
        }
    }
}
