//! Events in words.
ghost use Rattle.std.specs.Prelude.{Some};
ghost use Rattle.event_text.specs.Text.{kind_word, why_word, event_text};

use radio_book::event::{Event, Kind, Timer, Why};
use std::fmt;

/// Where the call of an attempt comes from, in small letters.
#[derive(Clone, Copy)]
struct KindText(Kind);

impl fmt::Display for KindText {
    ghost output = { λ text. Some (kind_word text.0) };

    fn fmt<W: fmt::Write>(&self, f: &mut fmt::Formatter<W>) -> fmt::Result {
        f.write_str(match self.0 {
            Kind::Internal => "internal",
            Kind::Incoming => "incoming",
        })
    }
}

/// Why an attempt is taken back: `asked`, or the timer that expired in small letters.
#[derive(Clone, Copy)]
struct WhyText(Why);

impl fmt::Display for WhyText {
    ghost output = { λ text. Some (why_word text.0) };

    fn fmt<W: fmt::Write>(&self, f: &mut fmt::Formatter<W>) -> fmt::Result {
        f.write_str(match self.0 {
            Why::Asked => "asked",
            Why::Expired(Timer::T3103) => "t3103",
            Why::Expired(Timer::T7) => "t7",
            Why::Expired(Timer::T8) => "t8",
        })
    }
}

/// An event in words: its kind in small letters and what it names, with one blank between any two. Numbers are in
/// decimal digits, channels as `cell/trx/tn`, with `/0` or `/1` behind it for a half.
#[derive(Clone, Copy)]
pub struct EventText(pub Event);

impl fmt::Display for EventText {
    ghost output = { λ text. Some (event_text text.0) };

    fn fmt<W: fmt::Write>(&self, f: &mut fmt::Formatter<W>) -> fmt::Result {
        match self.0 {
            Event::Open(call, chan) => write!(f, "open {call} {chan}"),
            Event::Clear(call) => write!(f, "clear {call}"),
            Event::Look(call) => write!(f, "look {call}"),
            Event::Take(call, kind, chan) => write!(f, "take {call} {} {chan}", KindText(kind)),
            Event::Reserve(call, number) => write!(f, "reserve {call} {number}"),
            Event::Activate(call) => write!(f, "activate {call}"),
            Event::Undo(call, why) => write!(f, "undo {call} {}", WhyText(why)),
            Event::Confirm(chan) => write!(f, "confirm {chan}"),
            Event::Refuse(chan) => write!(f, "refuse {chan}"),
            Event::Released(chan) => write!(f, "released {chan}"),
            Event::Command(call) => write!(f, "command {call}"),
            Event::Complete(call) => write!(f, "complete {call}"),
            Event::Detect(chan) => write!(f, "detect {chan}"),
            Event::Owner(chan) => write!(f, "owner {chan}"),
            Event::Require(call) => write!(f, "require {call}"),
            Event::Order(call) => write!(f, "order {call}"),
            Event::Left(call) => write!(f, "left {call}"),
        }
    }
}
