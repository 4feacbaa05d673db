//! Why octets, or a hexadecimal text, are no message, in words.
use crate::decoded::Decoded;
use exchange::Bad;
use explanations::{Question, answer_to};
use run_listeners::LabFault;
use screen_text::Escaped;
use std::io::Write;
use trace_text::bad::{NumberedFault, numbered};

/// The first character of a text that is no hexadecimal digit, and its place, counted from 1. All in front of it have one
/// octet each.
fn no_digit(text: &str) -> Option<(usize, &str)> {
    let at = text.find(|found: char| !found.is_ascii_hexdigit())?;
    let rest = text.get(at..)?;
    let found = rest.chars().next()?;
    Some((at.saturating_add(1), rest.get(..found.len_utf8())?))
}

/// Says on `errors` what is wrong with octets that are no message of a link.
fn say_fault<E: Write>(bad: Bad, errors: &mut E) -> Result<(), LabFault> {
    let NumberedFault {
        link,
        number,
        argument,
    } = numbered(bad);
    match answer_to(Question::Fault(link, number, argument)) {
        Some(answer) => writeln!(errors, "{answer}")?,
        None => writeln!(errors, "the octets are no message of the link")?,
    }
    Ok(())
}

/// Says on `errors` why a text isn't hexadecimal.
fn say_not_hex<E: Write>(text: &str, errors: &mut E) -> Result<(), LabFault> {
    let digits = "an octet is two hexadecimal digits, and nothing may separate octets";
    match no_digit(text) {
        Some((place, found)) => writeln!(
            errors,
            "{digits}: character {place} is '{}'",
            Escaped(found)
        )?,
        None => writeln!(errors, "{digits}: the last octet has only one")?,
    }
    Ok(())
}

/// Says on `errors` why a text is refused that is to write a message of a link: it isn't hexadecimal, or its octets are
/// no message. Nothing is said of one that writes a message.
pub(crate) fn say_undecoded<E: Write>(
    text: &str,
    decoded: Decoded,
    errors: &mut E,
) -> Result<(), LabFault> {
    match decoded {
        Decoded::Message => Ok(()),
        Decoded::NotHex => say_not_hex(text, errors),
        Decoded::Bad(bad) => say_fault(bad, errors),
    }
}
