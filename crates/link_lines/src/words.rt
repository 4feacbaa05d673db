//! What the words of a line say.
ghost use Rattle.std.specs.Prelude.{◌≡◌, option_map};
ghost use Rattle.std.specs.Char.{is_ascii_digit};
ghost use Rattle.std.specs.List.{list_all};
ghost use Rattle.lab_script.specs.Words as script;
ghost use Rattle.link_lines.specs.Words as said;

use attempt_journal::Timer;
use channel_fsm::Sub;
use link_tables::Timer as ChannelTimer;

/// The name of a timer.
#[derive(Clone, Copy, Debug, PartialEq, Eq)]
pub enum TimerName {
    /// One of a call.
    Call(Timer),
    /// One of a traffic channel.
    Channel(ChannelTimer),
}

/// Whether the text has decimal digits alone.
fn is_digits(text: &str) -> bool
    ensures { result ≡ list_all is_ascii_digit text.now }
{
    text.bytes().all(|byte| byte.is_ascii_digit())
}

/// The number of a call.
pub(crate) fn call_number(text: &str) -> Option<u16>
    ensures { result ≡ script.number_below 65536 text.now }
{
    if is_digits(text) {
        text.parse().ok()
    } else {
        None
    }
}

/// The number from 0 to 255 of a cell or a TRX.
pub(crate) fn octet(text: &str) -> Option<u8>
    ensures { result ≡ script.number_below 256 text.now }
{
    if is_digits(text) {
        text.parse().ok()
    } else {
        None
    }
}

/// A number below a limit.
fn below(limit: u8, text: &str) -> Option<u8>
    ensures { result ≡ script.number_below limit text.now }
{
    match octet(text) {
        Some(number) if number < limit => Some(number),
        Some(_) | None => None,
    }
}

/// A timing advance, from 0 to 63 (TS 48.058 clause 9.3.24).
pub(crate) fn advance(text: &str) -> Option<u8>
    ensures { result ≡ script.number_below 64 text.now }
{
    below(64, text)
}

/// The number of a timeslot.
fn timeslot_number(text: &str) -> Option<u8>
    ensures { result ≡ script.number_below 8 text.now }
{
    below(8, text)
}

/// A text up to its first `/`, and what stands behind that; `None` where it has none.
fn around_slash(text: &str) -> Option<(&str, &str)>
    ensures { option_map (λ cut. (cut.0.now, cut.1.now)) result ≡ script.around_slash text.now }
{
    text.split_once('/')
}

/// The half of a timeslot that a text writes.
fn half(text: &str) -> Option<Sub>
    ensures { result ≡ script.half_of text.now }
{
    match text {
        "0" => Some(Sub::Half0),
        "1" => Some(Sub::Half1),
        _ => None,
    }
}

/// `TN` is the whole timeslot, `TN/0` and `TN/1` are its halves.
#[tactic(auto, unfolding(lab_script::specs::Words::timeslot_of))]
pub(crate) fn timeslot(text: &str) -> Option<(u8, Sub)>
    ensures { result ≡ script.timeslot_of text.now }
{
    match around_slash(text) {
        None => Some((timeslot_number(text)?, Sub::Full)),
        Some((tn, behind)) => Some((timeslot_number(tn)?, half(behind)?)),
    }
}

/// Whether something is on.
pub(crate) fn switch(text: &str) -> Option<bool>
    ensures { result ≡ said.switch_of text.now }
{
    match text {
        "on" => Some(true),
        "off" => Some(false),
        _ => None,
    }
}

/// The timer of this name.
pub(crate) fn timer(text: &str) -> Option<TimerName>
    ensures { result ≡ said.timer_named text.now }
{
    match text {
        "T3103" => Some(TimerName::Call(Timer::T3103)),
        "T7" => Some(TimerName::Call(Timer::T7)),
        "T8" => Some(TimerName::Call(Timer::T8)),
        "activation" => Some(TimerName::Channel(ChannelTimer::Activation)),
        "T3109" => Some(TimerName::Channel(ChannelTimer::T3109)),
        "T3111" => Some(TimerName::Channel(ChannelTimer::T3111)),
        "release" => Some(TimerName::Channel(ChannelTimer::Release)),
        "bar" => Some(TimerName::Channel(ChannelTimer::Bar)),
        _ => None,
    }
}

/// The one word of a place that has one alone.
pub(crate) fn only(word: &str, text: &str) -> Option<()>
    ensures { result ≡ said.only word.now text.now }
{
    if text == word { Some(()) } else { None }
}
