//! Steps along the words of a line: each reads what stands next, and hands on what stands behind that.
ghost use Rattle.std.specs.Prelude.{◌≡◌, option_map};
ghost use Rattle.std.specs.Result.{result_map_both};
ghost use Rattle.link_lines.specs.Faults.{fault_of, read_of};
ghost use Rattle.link_lines.specs.Lines as said;

use crate::fault::{LineFault, Place};
use crate::words::{TimerName, advance, call_number, octet, only, switch, timer, timeslot};
use channel_fsm::{ChanId, Sub};
use lab_script::forms::cut_word;
use link_exchange::TimerKey;

/// What stands behind the words that were read.
pub(crate) type Rest<'a> = Option<&'a str>;

/// The next word.
fn next_word<'a>(place: Place, rest: Rest<'a>) -> Result<(&'a str, Rest<'a>), LineFault<'a>>
    ensures { result_map_both (λ r. (r.0.now, option_map (λ text. text.now) r.1)) fault_of result ≡
        said.word_at place (option_map (λ text. text.now) rest.entry) }
{
    match rest {
        Some(text) => Ok(cut_word(text)),
        None => Err(LineFault::Missing(place)),
    }
}

/// The number of a call.
#[tactic(auto, unfolding(crate::specs::Lines::call_at))]
pub(crate) fn call(rest: Rest<'_>) -> Result<(u16, Rest<'_>), LineFault<'_>>
    ensures { result_map_both (λ r. (r.0, option_map (λ text. text.now) r.1)) fault_of result ≡
        said.call_at (option_map (λ text. text.now) rest.entry) }
{
    let (found, rest) = next_word(Place::Call, rest)?;
    match call_number(found) {
        Some(call) => Ok((call, rest)),
        None => Err(LineFault::Word {
            place: Place::Call,
            found,
        }),
    }
}

/// The number of a cell or a TRX.
#[tactic(auto, unfolding(crate::specs::Lines::octet_at))]
fn number(place: Place, rest: Rest<'_>) -> Result<(u8, Rest<'_>), LineFault<'_>>
    ensures { result_map_both (λ r. (r.0, option_map (λ text. text.now) r.1)) fault_of result ≡
        said.octet_at place (option_map (λ text. text.now) rest.entry) }
{
    let (found, rest) = next_word(place, rest)?;
    match octet(found) {
        Some(number) => Ok((number, rest)),
        None => Err(LineFault::Word { place, found }),
    }
}

/// A TRX of a cell.
#[tactic(auto, unfolding(crate::specs::Lines::station_at))]
pub(crate) fn station(rest: Rest<'_>) -> Result<((u8, u8), Rest<'_>), LineFault<'_>>
    ensures { result_map_both (λ r. (r.0, option_map (λ text. text.now) r.1)) fault_of result ≡
        said.station_at (option_map (λ text. text.now) rest.entry) }
{
    let (cell, rest) = number(Place::Cell, rest)?;
    let (trx, rest) = number(Place::Trx, rest)?;
    Ok(((cell, trx), rest))
}

/// A timeslot, or a half of one.
#[tactic(auto, unfolding(crate::specs::Lines::timeslot_at))]
fn slot(rest: Rest<'_>) -> Result<((u8, Sub), Rest<'_>), LineFault<'_>>
    ensures { result_map_both (λ r. (r.0, option_map (λ text. text.now) r.1)) fault_of result ≡
        said.timeslot_at (option_map (λ text. text.now) rest.entry) }
{
    let (found, rest) = next_word(Place::Timeslot, rest)?;
    match timeslot(found) {
        Some(slot) => Ok((slot, rest)),
        None => Err(LineFault::Word {
            place: Place::Timeslot,
            found,
        }),
    }
}

/// A channel.
#[tactic(auto, unfolding(crate::specs::Lines::channel_at))]
pub(crate) fn channel(rest: Rest<'_>) -> Result<(ChanId, Rest<'_>), LineFault<'_>>
    ensures { result_map_both (λ r. (r.0, option_map (λ text. text.now) r.1)) fault_of result ≡
        said.channel_at (option_map (λ text. text.now) rest.entry) }
{
    let ((cell, trx), rest) = station(rest)?;
    let ((tn, sub), rest) = slot(rest)?;
    Ok((ChanId { cell, trx, tn, sub }, rest))
}

/// Whether something is on.
#[tactic(auto, unfolding(crate::specs::Lines::switch_at))]
pub(crate) fn on_or_off(rest: Rest<'_>) -> Result<(bool, Rest<'_>), LineFault<'_>>
    ensures { result_map_both (λ r. (r.0, option_map (λ text. text.now) r.1)) fault_of result ≡
        said.switch_at (option_map (λ text. text.now) rest.entry) }
{
    let (found, rest) = next_word(Place::Switch, rest)?;
    match switch(found) {
        Some(is_on) => Ok((is_on, rest)),
        None => Err(LineFault::Word {
            place: Place::Switch,
            found,
        }),
    }
}

/// A timing advance.
#[tactic(auto, unfolding(crate::specs::Lines::advance_at))]
pub(crate) fn timing_advance(rest: Rest<'_>) -> Result<(u8, Rest<'_>), LineFault<'_>>
    ensures { result_map_both (λ r. (r.0, option_map (λ text. text.now) r.1)) fault_of result ≡
        said.advance_at (option_map (λ text. text.now) rest.entry) }
{
    let (found, rest) = next_word(Place::Advance, rest)?;
    match advance(found) {
        Some(number) => Ok((number, rest)),
        None => Err(LineFault::Word {
            place: Place::Advance,
            found,
        }),
    }
}

/// The name of a timer.
#[tactic(auto, unfolding(crate::specs::Lines::timer_at))]
fn timer_name(rest: Rest<'_>) -> Result<(TimerName, Rest<'_>), LineFault<'_>>
    ensures { result_map_both (λ r. (r.0, option_map (λ text. text.now) r.1)) fault_of result ≡
        said.timer_at (option_map (λ text. text.now) rest.entry) }
{
    let (found, rest) = next_word(Place::Timer, rest)?;
    match timer(found) {
        Some(name) => Ok((name, rest)),
        None => Err(LineFault::Word {
            place: Place::Timer,
            found,
        }),
    }
}

/// A timer of this name, and whose it is.
#[tactic(auto, unfolding(crate::specs::Lines::timer_of))]
fn timer_of(name: TimerName, rest: Rest<'_>) -> Result<(TimerKey, Rest<'_>), LineFault<'_>>
    ensures { result_map_both (λ r. (r.0, option_map (λ text. text.now) r.1)) fault_of result ≡
        said.timer_of name (option_map (λ text. text.now) rest.entry) }
{
    match name {
        TimerName::Call(timer) => {
            let (call, rest) = call(rest)?;
            Ok((TimerKey::Call { call, timer }, rest))
        }
        TimerName::Channel(timer) => {
            let (chan, rest) = channel(rest)?;
            Ok((TimerKey::Channel { chan, timer }, rest))
        }
    }
}

/// A timer, and whose it is.
#[tactic(auto, unfolding(crate::specs::Lines::key_at))]
pub(crate) fn timer_key(rest: Rest<'_>) -> Result<(TimerKey, Rest<'_>), LineFault<'_>>
    ensures { result_map_both (λ r. (r.0, option_map (λ text. text.now) r.1)) fault_of result ≡
        said.key_at (option_map (λ text. text.now) rest.entry) }
{
    let (name, rest) = timer_name(rest)?;
    timer_of(name, rest)
}

/// The word of a place that has one alone.
#[tactic(auto, unfolding(crate::specs::Lines::only_at))]
pub(crate) fn only_word<'a>(
    place: Place,
    word: &str,
    rest: Rest<'a>,
) -> Result<Rest<'a>, LineFault<'a>>
    ensures { result_map_both (λ r. option_map (λ text. text.now) r) fault_of result ≡
        said.only_at place word.now (option_map (λ text. text.now) rest.entry) }
{
    let (found, rest) = next_word(place, rest)?;
    match only(word, found) {
        Some(()) => Ok(rest),
        None => Err(LineFault::Word { place, found }),
    }
}

/// Nothing stands behind the words that were read.
pub(crate) fn end(rest: Rest<'_>) -> Result<(), LineFault<'_>>
    ensures { read_of result ≡ said.end_at (option_map (λ text. text.now) rest.entry) }
{
    match rest {
        Some(text) => {
            let (word, _) = cut_word(text);
            Err(LineFault::Behind(word))
        }
        None => Ok(()),
    }
}
