//! Values of fields that no message in words can have, as it is printed.
use crate::never::{Never, is_number};
use encoded_messages::{Allowed, FieldFault, FieldForm, MessageFault};

/// Whether a text writes a number that is at most this one.
fn is_at_most(text: &str, most: u16) -> bool {
    match text.parse::<u16>() {
        Ok(number) => number <= most,
        Err(_) => false,
    }
}

/// Whether a text is a number up to this one, as it is printed, or stands for any.
fn is_number_to(text: &str, most: u16) -> bool {
    text == "*" || (is_number(text) && is_at_most(text, most))
}

/// Whether a text is a timeslot, or one of its halves.
fn is_traffic_channel(text: &str) -> bool {
    match text.split_once('/') {
        Some((timeslot, half)) => is_number_to(timeslot, 7) && is_number_to(half, 1),
        None => is_number_to(text, 7),
    }
}

/// Whether a text is a location area code, or that there is none.
fn is_area(text: &str) -> bool {
    text == "-" || is_number_to(text, u16::MAX)
}

/// Whether a text is a cell with its location area.
fn is_cell(text: &str) -> bool {
    match text.split_once('/') {
        Some((area, identity)) => is_area(area) && is_number_to(identity, u16::MAX),
        None => false,
    }
}

/// Whether a text is cells, or none.
fn are_cells(text: &str) -> bool {
    text.is_empty() || text.split(',').all(|cell| is_cell(cell))
}

/// Whether a text is the position and the code of a neighbour.
fn is_named(text: &str) -> bool {
    match text.split_once('/') {
        Some((position, code)) => is_number_to(position, 31) && is_number_to(code, 63),
        None => false,
    }
}

/// Whether a text is what was measured of a neighbour.
fn is_neighbour(text: &str) -> bool {
    match text.split_once('/') {
        Some((level, rest)) => is_number_to(level, 63) && is_named(rest),
        None => false,
    }
}

/// Whether a text is octets, or none, with digits in either case.
fn are_octets(text: &str) -> bool {
    text.bytes().all(|byte| byte.is_ascii_hexdigit()) && text.len() % 2 == 0
}

/// Whether a field that may have such values can be printed with this one. The digits of octets may be
/// capitals here, and some may be missing behind them.
fn can_be(allowed: Allowed, value: &str) -> bool {
    match allowed {
        Allowed::Number(most) => is_number_to(value, most),
        Allowed::Cause => is_number_to(value, 255),
        Allowed::OptionalOctet => value == "-" || is_number_to(value, 255),
        Allowed::TrafficChannel => is_traffic_channel(value),
        Allowed::Flag => is_number_to(value, 1),
        Allowed::Octets(_) => are_octets(value),
        Allowed::OptionalOctets(_) => value == "-" || are_octets(value),
        Allowed::Cell => is_cell(value),
        Allowed::Cells => are_cells(value),
        Allowed::Neighbour => is_neighbour(value),
    }
}

/// Whether a value has octets.
fn has_octets(allowed: Allowed) -> bool {
    match allowed {
        Allowed::Octets(_) | Allowed::OptionalOctets(_) => true,
        Allowed::Number(_)
        | Allowed::Cause
        | Allowed::OptionalOctet
        | Allowed::TrafficChannel
        | Allowed::Flag
        | Allowed::Cell
        | Allowed::Cells
        | Allowed::Neighbour => false,
    }
}

/// Why no field is printed with this value; nothing if one may be. Of octets it may have the first alone.
pub(crate) fn value_fault<'a>(field: FieldForm<'static>, value: &'a str) -> Option<Never<'a>> {
    let FieldForm(key, allowed) = field;
    if value == "*" {
        return None;
    }
    if !can_be(allowed, value) {
        return Some(Never::Message(MessageFault::Field(FieldFault::Value {
            key,
            value,
            allowed,
        })));
    }
    if has_octets(allowed) && value.bytes().any(|byte| byte.is_ascii_uppercase()) {
        return Some(Never::Capitals);
    }
    None
}
