//! Events from words.
//!
//! A number has decimal digits alone, and no zero in front of another digit.
ghost use Rattle.std.specs.Prelude.{◌≡◌, ◌↔◌, Some, option_map, IfSome};
ghost use Rattle.std.specs.List.{list_all};
ghost use Rattle.std.specs.Char.{is_ascii_digit};
ghost use Rattle.radio_book.specs.declared.event.Event.{Event};
ghost use Rattle.event_text.specs.Text.{event_text, Fits};
ghost use Rattle.event_text.specs.Events.{event_of};
ghost use Rattle.event_text.specs.Reading as said;

use channel_fsm::{ChanId, Sub};
use radio_book::event::{Event, Kind, Timer, Why};

/// A text up to its first blank, and what stands behind that. `None` if it has no blank.
fn first_word(text: &str) -> Option<(&str, &str)>
    ensures { option_map (λ cut. (cut.0.now, cut.1.now)) result ≡ said.cut_at 32 text.now }
{
    text.split_once(' ')
}

/// A text up to its first `/`, and what stands behind that. `None` if it has none.
fn first_part(text: &str) -> Option<(&str, &str)>
    ensures { option_map (λ cut. (cut.0.now, cut.1.now)) result ≡ said.cut_at 47 text.now }
{
    text.split_once('/')
}

/// Whether a text has decimal digits alone.
fn is_digits(text: &str) -> bool
    ensures { result ≡ list_all is_ascii_digit text.now }
{
    text.bytes().all(|byte| byte.is_ascii_digit())
}

/// Whether a text has decimal digits alone, and no zero in front of another.
fn is_plain(text: &str) -> bool
    ensures { result ≡ said.is_plain text.now }
{
    is_digits(text) && (text.len() < 2 || !text.starts_with('0'))
}

/// The number from 0 to 65535 that a text writes.
fn call(text: &str) -> Option<u16>
    ensures { result ≡ said.number_of 65536 text.now }
{
    if is_plain(text) {
        text.parse().ok()
    } else {
        None
    }
}

/// The number from 0 to 255 that a text writes.
fn octet(text: &str) -> Option<u8>
    ensures { result ≡ said.number_of 256 text.now }
{
    if is_plain(text) {
        text.parse().ok()
    } else {
        None
    }
}

/// The half of a timeslot that a text writes.
fn half(text: &str) -> Option<Sub>
    ensures { result ≡ said.half_of text.now }
{
    match text {
        "0" => Some(Sub::Half0),
        "1" => Some(Sub::Half1),
        _ => None,
    }
}

/// `TN` is the whole timeslot, `TN/0` and `TN/1` are its halves.
#[tactic(auto, unfolding(crate::specs::Reading::timeslot_of))]
fn timeslot(text: &str) -> Option<(u8, Sub)>
    ensures { result ≡ said.timeslot_of text.now }
{
    match first_part(text) {
        None => Some((octet(text)?, Sub::Full)),
        Some((tn, behind)) => Some((octet(tn)?, half(behind)?)),
    }
}

/// `CELL/TRX/` and a timeslot or a half of one.
#[tactic(auto, unfolding(crate::specs::Reading::channel_of))]
fn channel(text: &str) -> Option<ChanId>
    ensures { result ≡ said.channel_of text.now }
{
    let (cell, text) = first_part(text)?;
    let (trx, text) = first_part(text)?;
    let (cell, trx) = (octet(cell)?, octet(trx)?);
    let (tn, sub) = timeslot(text)?;
    Some(ChanId { cell, trx, tn, sub })
}

/// The kind of an attempt of this name.
fn kind(text: &str) -> Option<Kind>
    ensures { result ≡ said.kind_of text.now }
{
    match text {
        "internal" => Some(Kind::Internal),
        "incoming" => Some(Kind::Incoming),
        _ => None,
    }
}

/// The cause of an undo of this name.
fn why(text: &str) -> Option<Why>
    ensures { result ≡ said.why_of text.now }
{
    match text {
        "asked" => Some(Why::Asked),
        "t3103" => Some(Why::Expired(Timer::T3103)),
        "t7" => Some(Why::Expired(Timer::T7)),
        "t8" => Some(Why::Expired(Timer::T8)),
        _ => None,
    }
}

/// `CALL CHANNEL`
#[tactic(auto, unfolding(crate::specs::Reading::open_of))]
fn open(text: &str) -> Option<Event>
    ensures { result ≡ said.open_of text.now }
{
    let (number, chan) = first_word(text)?;
    Some(Event::Open(call(number)?, channel(chan)?))
}

/// `CALL KIND CHANNEL`
#[tactic(auto, unfolding(crate::specs::Reading::take_of))]
fn take(text: &str) -> Option<Event>
    ensures { result ≡ said.take_of text.now }
{
    let (number, text) = first_word(text)?;
    let (from, chan) = first_word(text)?;
    Some(Event::Take(call(number)?, kind(from)?, channel(chan)?))
}

/// `CALL NUMBER`
#[tactic(auto, unfolding(crate::specs::Reading::reserve_of))]
fn reserve(text: &str) -> Option<Event>
    ensures { result ≡ said.reserve_of text.now }
{
    let (number, reference) = first_word(text)?;
    Some(Event::Reserve(call(number)?, octet(reference)?))
}

/// `CALL WHY`
#[tactic(auto, unfolding(crate::specs::Reading::undo_of))]
fn undo(text: &str) -> Option<Event>
    ensures { result ≡ said.undo_of text.now }
{
    let (number, cause) = first_word(text)?;
    Some(Event::Undo(call(number)?, why(cause)?))
}

/// The event of a first word and of the text behind its blank.
fn event(word: &str, text: &str) -> Option<Event>
    ensures { result ≡ said.event_at word.now text.now }
{
    match word {
        "open" => open(text),
        "clear" => Some(Event::Clear(call(text)?)),
        "look" => Some(Event::Look(call(text)?)),
        "take" => take(text),
        "reserve" => reserve(text),
        "activate" => Some(Event::Activate(call(text)?)),
        "undo" => undo(text),
        "confirm" => Some(Event::Confirm(channel(text)?)),
        "refuse" => Some(Event::Refuse(channel(text)?)),
        "released" => Some(Event::Released(channel(text)?)),
        "command" => Some(Event::Command(call(text)?)),
        "complete" => Some(Event::Complete(call(text)?)),
        "detect" => Some(Event::Detect(channel(text)?)),
        "owner" => Some(Event::Owner(channel(text)?)),
        "require" => Some(Event::Require(call(text)?)),
        "order" => Some(Event::Order(call(text)?)),
        "left" => Some(Event::Left(call(text)?)),
        _ => None,
    }
}

/// The event whose text this is: its words, with one blank between any two, as [`EventText`](crate::writing::EventText)
/// writes them. `None` if the text is no event's: a zero stands in front of a number, a number is beyond its type, something
/// stands too much. It takes no memory.
pub fn read_event(text: &str) -> Option<Event>
    ensures read { (e : Event) → Fits e → (result ≡ Some e) ↔ (text.now ≡ event_text e) }
    ensures fits { IfSome result Fits }
    ensures value { result ≡ event_of text.now }
{
    let (word, text) = first_word(text)?;
    event(word, text)
}
