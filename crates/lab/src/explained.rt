//! Words for the numbers of refusals, causes and faults.
ghost use Rattle.std.specs.Prelude.{◌≡◌, ◌↔◌, true, IfOk};
ghost use Rattle.explanations.specs.Questions.{IsKnown};

use explanations::{Argument, LinkName, Question, answer_to, argument_of, last_fault};
use std::io::{self, Write};

/// Says on `errors` which numbers the argument of a fault may be, where this isn't one of them.
fn say_range<E: Write>(
    fault: (LinkName, u8),
    what: Argument,
    argument: usize,
    errors: &mut E,
) -> io::Result<()> {
    let (link, number) = fault;
    match what.range() {
        Some((low, high)) => writeln!(
            errors,
            "error: the argument of fault {link} {number} is {what}, {low} to {high}, found {argument}"
        ),
        None => writeln!(
            errors,
            "error: fault {link} {number} has no argument, found {argument}"
        ),
    }
}

/// Says on `errors` why there are no words for a question.
fn say_unknown<E: Write>(question: Question, errors: &mut E) -> io::Result<()> {
    match question {
        Question::Refusal(number) => {
            writeln!(
                errors,
                "error: there is no refusal {number}: the first is 1, the last is 9"
            )
        }
        Question::Cause(link, cause) => writeln!(errors, "error: there is no cause {link} {cause}"),
        Question::Fault(link, number, argument) => match (argument_of(link, number), argument) {
            (Some(what), Some(argument)) => say_range((link, number), what, argument, errors),
            (Some(_), None) | (None, _) => {
                let last = last_fault(link);
                writeln!(
                    errors,
                    "error: there is no fault {link} {number}: the first is 1, the last is {last}"
                )
            }
        },
    }
}

/// Prints the answer to a question in one line to `out`, and answers true. If there is no refusal or no fault of this
/// number, or the fault can't have this argument, it prints nothing, says so on `errors`, and answers false.
pub fn explain<W: Write, E: Write>(
    question: Question,
    out: &mut W,
    errors: &mut E,
) -> io::Result<bool>
    ensures answered { IfOk result (λ answered. answered ≡ true ↔ IsKnown question) }
{
    match answer_to(question) {
        Some(answer) => {
            writeln!(out, "{answer}")?;
            Ok(true)
        }
        None => {
            say_unknown(question, errors)?;
            Ok(false)
        }
    }
}
