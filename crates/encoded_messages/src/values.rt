//! What the value of a field says.
ghost use Rattle.std.specs.Prelude.{◌≡◌, ◌<◌, ◌≤◌, IfOk, IfSome, length, option_map};
ghost use Rattle.std.specs.Char.{is_ascii_digit, is_ascii_hexdigit};
ghost use Rattle.std.specs.List.{list_all};
ghost use Rattle.encoded_messages.specs.Values as said;

use crate::words::around_slash;
use hex::FromHexError;
use rsl_messages::Sub;
use std::alloc::{AllocError, Allocator};

/// Whether a text has decimal digits alone.
fn is_digits(text: &str) -> bool
    ensures { result ≡ list_all is_ascii_digit text.now }
{
    text.bytes().all(|byte| byte.is_ascii_digit())
}

/// The number from 0 to 65535 that a text writes.
fn word(text: &str) -> Option<u16>
    ensures { result ≡ said.number_below 65536 text.now }
{
    if is_digits(text) {
        text.parse().ok()
    } else {
        None
    }
}

/// The number that a text writes, where it is at most this one.
pub(crate) fn number_in(text: &str, most: u16) -> Option<u16>
    ensures number { result ≡ said.number_to most text.now }
    ensures most { IfSome result (λ number. number ≤ most) }
{
    match word(text) {
        Some(number) if number <= most => Some(number),
        _ => None,
    }
}

/// The octet from 0 to 255 that a text writes in decimal.
fn octet(text: &str) -> Option<u8>
    ensures { result ≡ said.number_below 256 text.now }
{
    if is_digits(text) {
        text.parse().ok()
    } else {
        None
    }
}

/// The octet that a text writes in decimal, where it is at most this one.
pub(crate) fn octet_in(text: &str, most: u8) -> Option<u8>
    ensures number { result ≡ said.number_to most text.now }
    ensures most { IfSome result (λ number. number ≤ most) }
{
    match octet(text) {
        Some(number) if number <= most => Some(number),
        _ => None,
    }
}

/// The value of a hexadecimal digit, in either case.
fn hex_digit(digit: u8) -> Option<u8>
    ensures digit { result ≡ said.hex_digit_of digit }
    ensures most { IfSome result (λ value. value < 16) }
{
    char::from(digit).to_digit(16).map(|value| value as u8)
}

/// The octet of two hexadecimal digits.
fn two_digits(high: u8, low: u8) -> Option<u8>
    ensures { result ≡ said.two_digits_of high low }
{
    let high = hex_digit(high)?;
    let low = hex_digit(low)?;
    Some(16 * high + low)
}

/// The octet that a text writes in hexadecimal, behind `0x`.
fn hex_octet(text: &str) -> Option<u8>
    ensures { result ≡ said.hex_octet_of text.now }
{
    match text.as_bytes() {
        [zero, x, high, low] if *zero == b'0' && *x == b'x' => two_digits(*high, *low),
        _ => None,
    }
}

/// The cause that a text writes: an octet in decimal, or in hexadecimal.
pub(crate) fn cause_in(text: &str) -> Option<u8>
    ensures { result ≡ said.cause_of text.now }
{
    match octet_in(text, 255) {
        Some(cause) => Some(cause),
        None => hex_octet(text),
    }
}

/// The flag that a text writes.
pub(crate) fn flag_in(text: &str) -> Option<bool>
    ensures { result ≡ said.flag_of text.now }
{
    match text {
        "0" => Some(false),
        "1" => Some(true),
        _ => None,
    }
}

/// The half-rate channel of a timeslot that a text writes.
fn half_in(text: &str) -> Option<Sub>
    ensures { result ≡ said.half_of text.now }
{
    match text {
        "0" => Some(Sub::Half0),
        "1" => Some(Sub::Half1),
        _ => None,
    }
}

/// The timeslot of `TN`, which is a full-rate channel, or of `TN/HALF`, and which of its traffic channels it is.
pub(crate) fn traffic_channel_in(text: &str) -> Option<(u8, Sub)>
    ensures channel { result ≡ said.traffic_channel_of text.now }
    ensures timeslot { IfSome result (λ channel. channel.0 < 8) }
{
    match around_slash(text) {
        None => Some((octet_in(text, 7)?, Sub::Full)),
        Some((tn, half)) => Some((octet_in(tn, 7)?, half_in(half)?)),
    }
}

/// The octets that a text writes in hexadecimal, in either case, where there are so many or more.
pub(crate) fn octets_in<A: Allocator>(
    alloc: A,
    text: &str,
    least: usize,
) -> Result<Option<Vec<u8, A>>, AllocError>
    ensures { IfOk result (λ found.
        option_map (λ octets. octets.items) found ≡ said.octets_of least text.now) }
{
    match hex::decode(alloc, text) {
        Ok(octets) if octets.len() >= least => Ok(Some(octets)),
        Err(FromHexError::OutOfMemory) => Err(AllocError),
        _ => Ok(None),
    }
}

/// Whether a text has hexadecimal digits alone.
fn is_hex_digits(text: &str) -> bool
    ensures { result ≡ list_all is_ascii_hexdigit text.now }
{
    text.bytes().all(|byte| byte.is_ascii_hexdigit())
}

/// How many octets a text writes in hexadecimal, in either case, where there are so many or more. Takes no memory.
#[tactic(auto, using(crate::proofs::ValueLemmas::odd_refused, crate::proofs::ValueLemmas::digits_refused, crate::proofs::ValueLemmas::enough_counted, crate::proofs::ValueLemmas::few_refused))]
pub(crate) fn octets_len(text: &str, least: usize) -> Option<usize>
    ensures { result ≡ option_map (λ octets. length octets) (said.octets_of least text.now) }
{
    if text.len() % 2 == 1 {
        return None;
    }
    if !is_hex_digits(text) {
        return None;
    }
    let octets = text.len() / 2;
    if octets >= least { Some(octets) } else { None }
}

/// The location area code and the cell identity of `LAC/CI`.
pub fn cell_in(text: &str) -> Option<(u16, u16)>
    ensures cell { result ≡ said.cell_of text.now }
{
    let (area, identity) = around_slash(text)?;
    Some((word(area)?, word(identity)?))
}

/// The level, the position and the code of `LEVEL/POSITION/CODE`.
pub fn neighbour_in(text: &str) -> Option<(u8, u8, u8)>
    ensures neighbour { result ≡ said.neighbour_of text.now }
    ensures ranges { IfSome result (λ n. (n.0 < 64) × (n.1 < 32) × (n.2 < 64)) }
{
    let (level, text) = around_slash(text)?;
    let (position, code) = around_slash(text)?;
    Some((
        octet_in(level, 63)?,
        octet_in(position, 31)?,
        octet_in(code, 63)?,
    ))
}
