//! Words of lines: keywords, numbers, channels, octets.
ghost use Rattle.std.specs.Prelude.{◌≡◌, ◌∷◌, ◌<◌, [], MatchOption, is_some, option_map, IfOk, IfSome, IsErr, length, true};
ghost use Rattle.std.specs.Char.{is_ascii_digit, is_ascii_hexdigit};
ghost use Rattle.std.specs.List.{list_all};
ghost use Rattle.encoded_messages.specs.A as a;
ghost use Rattle.encoded_messages.specs.Abis as abis;
ghost use Rattle.encoded_messages.specs.Words.{cut_at};
ghost use Rattle.lab_script.specs.Words as said;

use crate::asked::Whom;
use attempt_journal::Timer;
use bts_model::{Answer, Habit, Held};
use channel_fsm::{Rate, Sub};
use encoded_messages::{encode_a, encode_abis, says_a, says_abis};
use rsl_messages::Octets;
use std::alloc::{AllocError, Allocator};

/// The first word of a text, and what stands behind its blank, where it has one.
pub fn cut_word(text: &str) -> (&str, Option<&str>)
    ensures words { said.words_of text.now ≡ result.0.now ∷
        said.words_left (option_map (λ rest. rest.now) result.1) }
    ensures first { result.0.now ≡ said.first_word text.now }
    ensures rest { option_map (λ rest. rest.now) result.1 ≡ said.behind_word text.now }
    ensures less { IfSome result.1 (λ rest. length rest.now < length text.now) }
{
    match text.split_once(' ') {
        Some((word, rest)) => (word, Some(rest)),
        None => (text, None),
    }
}

/// Whether the text has decimal digits alone.
fn is_digits(text: &str) -> bool
    ensures { result ≡ list_all is_ascii_digit text.now }
{
    text.bytes().all(|byte| byte.is_ascii_digit())
}

/// The number from 0 to 65535 that the digits of a text write.
pub(crate) fn call_number(text: &str) -> Option<u16>
    ensures { result ≡ said.number_below 65536 text.now }
{
    if is_digits(text) {
        text.parse().ok()
    } else {
        None
    }
}

/// The number from 0 to 255 that the digits of a text write.
pub(crate) fn octet(text: &str) -> Option<u8>
    ensures { result ≡ said.number_below 256 text.now }
{
    if is_digits(text) {
        text.parse().ok()
    } else {
        None
    }
}

/// The number from 1 to 255 that the digits of a text write.
pub(crate) fn count(text: &str) -> Option<u8>
    ensures { result ≡ said.count_of text.now }
{
    match octet(text) {
        Some(0) | None => None,
        Some(count) => Some(count),
    }
}

/// The number that the digits of a text write, where it is below a limit.
fn below(limit: u8, text: &str) -> Option<u8>
    ensures { result ≡ said.number_below limit text.now }
{
    match octet(text) {
        Some(number) if number < limit => Some(number),
        _ => None,
    }
}

/// The level from 0 to 63 that a text writes.
pub(crate) fn level(text: &str) -> Option<u8>
    ensures { result ≡ said.number_below 64 text.now }
{
    below(64, text)
}

/// The quality from 0 to 7 that a text writes.
pub(crate) fn quality(text: &str) -> Option<u8>
    ensures { result ≡ said.number_below 8 text.now }
{
    below(8, text)
}

/// The timing advance from 0 to 63 that a text writes.
pub(crate) fn timing_advance(text: &str) -> Option<u8>
    ensures { result ≡ said.number_below 64 text.now }
{
    below(64, text)
}

/// The number of a timeslot, 0 to 7, that the digits of a text write.
fn timeslot_number(text: &str) -> Option<u8>
    ensures { result ≡ said.number_below 8 text.now }
{
    below(8, text)
}

/// A text up to its first `/`, and what stands behind that; `None` if it has none.
fn around_slash(text: &str) -> Option<(&str, &str)>
    ensures { option_map (λ cut. (cut.0.now, cut.1.now)) result ≡ said.around_slash text.now }
{
    text.split_once('/')
}

/// A text up to its first `:`, and what stands behind that; `None` if it has none.
pub(crate) fn around_colon(text: &str) -> Option<(&str, &str)>
    ensures { option_map (λ cut. (cut.0.now, cut.1.now)) result ≡ cut_at 58 text.now }
{
    text.split_once(':')
}

/// And at its first `=`.
pub(crate) fn around_equals(text: &str) -> Option<(&str, &str)>
    ensures { option_map (λ cut. (cut.0.now, cut.1.now)) result ≡ cut_at 61 text.now }
{
    text.split_once('=')
}

/// The half of a timeslot that a text writes.
fn half(text: &str) -> Option<Sub>
    ensures { result ≡ said.half_of text.now }
{
    match text {
        "0" => Some(Sub::Half0),
        "1" => Some(Sub::Half1),
        _ => None,
    }
}

/// `TN` is the whole timeslot, `TN/0` and `TN/1` are its halves.
#[tactic(auto, unfolding(crate::specs::Words::timeslot_of))]
pub(crate) fn timeslot(text: &str) -> Option<(u8, Sub)>
    ensures { result ≡ said.timeslot_of text.now }
{
    match around_slash(text) {
        None => Some((timeslot_number(text)?, Sub::Full)),
        Some((tn, behind)) => Some((timeslot_number(tn)?, half(behind)?)),
    }
}

/// The timer of this name.
pub(crate) fn timer(text: &str) -> Option<Timer>
    ensures { result ≡ said.timer_of text.now }
{
    match text {
        "T3103" => Some(Timer::T3103),
        "T7" => Some(Timer::T7),
        "T8" => Some(Timer::T8),
        _ => None,
    }
}

/// The rate of this name.
pub(crate) fn rate(text: &str) -> Option<Rate>
    ensures { result ≡ said.rate_of text.now }
{
    match text {
        "full" => Some(Rate::Full),
        "half" => Some(Rate::Half),
        _ => None,
    }
}

/// The habit of this name.
pub(crate) fn habit(text: &str) -> Option<Habit>
    ensures { result ≡ said.habit_of text.now }
{
    match text {
        "arrive" => Some(Habit::Arrive),
        "return" => Some(Habit::Return),
        "vanish" => Some(Habit::Vanish),
        _ => None,
    }
}

/// Whose mobile reports: that of the call of a number, or of `all`.
pub(crate) fn whom(text: &str) -> Option<Whom>
    ensures { result ≡ said.whom_of text.now }
{
    if text == "all" {
        Some(Whom::All)
    } else {
        Some(Whom::Call(call_number(text)?))
    }
}

/// What a hold keeps back that names it.
pub(crate) fn held(text: &str) -> Option<Held>
    ensures { result ≡ said.held_of text.now }
{
    match text {
        "detection" => Some(Held::Detection),
        "complete" => Some(Held::Complete),
        _ => None,
    }
}

/// What a station says of a channel, by its word.
pub(crate) fn answer(text: &str) -> Option<Answer>
    ensures { result ≡ said.answer_of text.now }
{
    match text {
        "ack" => Some(Answer::ActivationAck),
        "nack" => Some(Answer::ActivationNack),
        "detect" => Some(Answer::Detection),
        "complete" => Some(Answer::Complete),
        "failure" => Some(Answer::Failure),
        "released" => Some(Answer::ReleaseAck),
        _ => None,
    }
}

/// What stands behind the first word of what is left of a line, where there is a blank.
pub(crate) fn behind(rest: Option<&str>) -> Option<&str>
    ensures { option_map (λ text. text.now) result ≡
        said.behind_left (option_map (λ text. text.now) rest.entry) }
{
    let (_, behind) = cut_word(rest?);
    behind
}

/// Whether what is left of a line is two words, of which the second is no number: a call, and what its mobile does.
pub(crate) fn is_of_call(rest: Option<&str>) -> bool
    ensures { result ≡ said.is_of_call (option_map (λ text. text.now) rest.entry) }
{
    match behind(rest) {
        Some(second) => behind(Some(second)).is_none() && !is_digits(second),
        None => false,
    }
}

/// Whether what is left of a line has two words or more.
pub(crate) fn has_second(rest: Option<&str>) -> bool
    ensures { result ≡ said.has_second (option_map (λ text. text.now) rest.entry) }
{
    behind(rest).is_some()
}

/// Whether what is left of a line has four words or more.
pub(crate) fn has_fourth(rest: Option<&str>) -> bool
    ensures { result ≡ said.has_fourth (option_map (λ text. text.now) rest.entry) }
{
    behind(behind(behind(rest))).is_some()
}

/// Whether the text has hexadecimal digits alone.
fn is_hex_digits(text: &str) -> bool
    ensures { result ≡ list_all is_ascii_hexdigit text.now }
{
    text.bytes().all(|byte| byte.is_ascii_hexdigit())
}

/// Whether the text is one octet or more, each in two hexadecimal digits.
pub fn is_octets(text: &str) -> bool
    ensures read { result ≡ is_some (said.octets_of text.now) }
{
    !text.is_empty() && text.len() % 2 == 0 && is_hex_digits(text)
}

/// The octets that a text writes in hexadecimal; nothing if it writes none. Only if memory is refused the digits are looked
/// at once more: a text that writes none needs none.
pub(crate) fn octets<A: Allocator + Copy>(
    alloc: A,
    text: &str,
) -> Result<Option<Octets<A>>, AllocError>
    ensures value { IfOk result (λ octets. octets ≡ said.octets_of text.now) }
    ensures memory { IsErr result → is_some (said.octets_of text.now) ≡ true }
{
    if text.is_empty() {
        return Ok(None);
    }
    match hex::decode(alloc, text) {
        Ok(octets) => Ok(Some(Octets::from_vec(octets))),
        // octets are refused for want of memory alone
        Err(_) => {
            if is_octets(text) {
                Err(AllocError)
            } else {
                Ok(None)
            }
        }
    }
}

/// Whether a text is the message of a line: its octets in hexadecimal, or on this link in words.
pub(crate) fn is_on_abis(text: &str) -> bool
    ensures { result ≡ is_some (said.abis_octets text.now) }
{
    is_octets(text) || says_abis(text)
}

/// Whether a text is the message of a line on A: its octets in hexadecimal, or in words.
pub(crate) fn is_on_a(text: &str) -> bool
    ensures { result ≡ is_some (said.a_octets text.now) }
{
    is_octets(text) || says_a(text)
}

/// The octets of the message on Abis that a text says in words; nothing if it says none. Only if it isn't written the text
/// is looked at once more: one that says no message needs no memory.
fn abis_in_words<A: Allocator + Copy>(alloc: A, text: &str) -> Result<Option<Octets<A>>, AllocError>
    ensures value { IfOk result (λ octets. octets ≡ abis.octets_said text.now) }
    ensures memory { IsErr result → is_some (abis.octets_said text.now) ≡ true }
{
    match encode_abis(alloc, text) {
        Ok(octets) => Ok(Some(Octets::from_vec(octets))),
        // a message is refused for want of memory alone
        Err(_) => {
            if says_abis(text) {
                Err(AllocError)
            } else {
                Ok(None)
            }
        }
    }
}

/// The octets of the message on A that a text says in words; nothing if it says none. Only if it isn't written the text is
/// looked at once more: one that says no message needs no memory.
fn a_in_words<A: Allocator + Copy>(alloc: A, text: &str) -> Result<Option<Octets<A>>, AllocError>
    ensures value { IfOk result (λ octets. octets ≡ a.octets_said text.now) }
    ensures memory { IsErr result → is_some (a.octets_said text.now) ≡ true }
{
    match encode_a(alloc, text) {
        Ok(octets) => Ok(Some(Octets::from_vec(octets))),
        // a message is refused for want of memory alone
        Err(_) => {
            if says_a(text) {
                Err(AllocError)
            } else {
                Ok(None)
            }
        }
    }
}

/// The octets of the message on Abis that a text says, in hexadecimal or in words; nothing if it says none.
#[tactic(auto, using(crate::proofs::WordLemmas::one_said, crate::proofs::WordLemmas::other_said))]
pub(crate) fn abis_octets<A: Allocator + Copy>(
    alloc: A,
    text: &str,
) -> Result<Option<Octets<A>>, AllocError>
    ensures value { IfOk result (λ octets. octets ≡ said.abis_octets text.now) }
    ensures memory { IsErr result → is_some (said.abis_octets text.now) ≡ true }
{
    if is_octets(text) {
        octets(alloc, text)
    } else {
        abis_in_words(alloc, text)
    }
}

/// The octets of a message on A, which a text gives in hexadecimal or in words.
#[tactic(auto, using(crate::proofs::WordLemmas::one_said, crate::proofs::WordLemmas::other_said))]
pub(crate) fn a_octets<A: Allocator + Copy>(
    alloc: A,
    text: &str,
) -> Result<Option<Octets<A>>, AllocError>
    ensures value { IfOk result (λ octets. octets ≡ said.a_octets text.now) }
    ensures memory { IsErr result → is_some (said.a_octets text.now) ≡ true }
{
    if is_octets(text) {
        octets(alloc, text)
    } else {
        a_in_words(alloc, text)
    }
}
