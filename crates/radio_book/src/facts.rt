//! The facts about each event that don't depend on the book: a row for each.
ghost use Rattle.std.specs.Prelude.{◌≡◌, Some, true};
ghost use Rattle.radio_book.specs.Kinds.{call_in, channel_in};
ghost use Rattle.radio_book.specs.Facts.{facts_about, by_call, by_station, growth_of, event_facts};

use crate::event::{Event, Kind};
use channel_fsm::ChanId;

/// Whom an event is about.
#[derive(Clone, Copy, Debug, PartialEq, Eq)]
pub enum About {
    /// The call that it is asked for.
    Call(u16),
    /// The channel that a station's message is about, or for which the call is asked.
    Channel(ChanId),
}

impl About {
    /// The call, where it is a call's.
    #[inline(always)]
    pub fn call(self) -> Option<u16>
        ensures call { result ≡ call_in self }
    {
        match self {
            About::Call(call) => Some(call),
            About::Channel(_) => None,
        }
    }

    /// The channel, where it is about one.
    #[inline(always)]
    pub fn channel(self) -> Option<ChanId>
        ensures channel { result ≡ channel_in self }
    {
        match self {
            About::Call(_) => None,
            About::Channel(chan) => Some(chan),
        }
    }
}

/// What an event is in the life of its call, once it is accepted.
#[derive(Clone, Copy, Debug, PartialEq, Eq)]
pub enum Milestone {
    /// The call is opened.
    Opened,
    /// An attempt at handover begins: a channel is taken, or one is required of another controller.
    Began,
    /// The mobile is sent to the attempt's channel.
    Commanded,
    /// The attempt is completed: the call is served on its channel.
    Completed,
    /// The attempt is taken back.
    Undone,
}

/// What an event may make grow, once it is accepted.
#[derive(Clone, Copy, Debug, PartialEq, Eq)]
pub enum Growth {
    /// The calls, by one.
    OfCalls,
    /// What a call that is there has: by a channel, or by a reference.
    InPlace,
}

/// What an event says by itself.
#[derive(Clone, Copy, Debug, PartialEq, Eq)]
pub struct EventFacts {
    /// Whom it is about.
    pub about: About,
    /// The call to which it gives a channel, and that channel.
    pub gives: Option<(u16, ChanId)>,
    /// The call whose attempt it opens, and the target, where that is a channel of this controller.
    pub opens: Option<(u16, Option<ChanId>)>,
    /// The number of the reference that it reserves.
    pub reserves: Option<u8>,
    /// The call whose attempt it ends: it takes it back, or the call is on its new channel, or has left.
    pub ends: Option<u16>,
    /// The call whose attempt it takes back.
    pub undoes: Option<u16>,
    /// The channel whose release it acknowledges.
    pub releases: Option<ChanId>,
    /// The call whose measurement reports a controller drops: it begins, or is served on another channel from now on, or on
    /// none, or its attempt is taken back.
    pub drops: Option<u16>,
    /// What it is in the life of its call.
    pub milestone: Option<Milestone>,
    /// What it may make grow.
    pub grows: Option<Growth>,
    /// Whether it only asks. Then it changes nothing.
    pub is_question: bool,
}

/// An event of which nothing is said but whom it is about.
#[inline(always)]
fn facts_about(about: About) -> EventFacts
    ensures { result ≡ facts_about about }
{
    EventFacts {
        about,
        gives: None,
        opens: None,
        reserves: None,
        ends: None,
        undoes: None,
        releases: None,
        drops: None,
        milestone: None,
        grows: None,
        is_question: false,
    }
}

/// An event that is asked for a call.
#[inline(always)]
fn by_call(call: u16) -> EventFacts
    ensures { result ≡ by_call call }
{
    facts_about(About::Call(call))
}

/// An event about a channel.
#[inline(always)]
fn by_station(chan: ChanId) -> EventFacts
    ensures { result ≡ by_station chan }
{
    facts_about(About::Channel(chan))
}

/// An event that only asks.
#[inline(always)]
fn question(about: About) -> EventFacts
    ensures { result ≡ record (facts_about about) { is_question = true } }
{
    EventFacts {
        is_question: true,
        ..facts_about(about)
    }
}

/// An event by which a call comes to a milestone.
#[inline(always)]
fn reaching(call: u16, milestone: Milestone) -> EventFacts
    ensures { result ≡ record (by_call call) { milestone = Some milestone } }
{
    EventFacts {
        milestone: Some(milestone),
        ..by_call(call)
    }
}

/// An event by which an attempt opens.
#[inline(always)]
fn opening(call: u16, target: Option<ChanId>) -> EventFacts
    ensures { result ≡ record (by_call call)
        { opens = Some (call, target); milestone = Some Milestone.Began } }
{
    EventFacts {
        opens: Some((call, target)),
        ..reaching(call, Milestone::Began)
    }
}

/// An event by which an attempt reserves a reference.
#[inline(always)]
fn reserving(call: u16, number: u8) -> EventFacts
    ensures { result ≡ record (by_call call) { reserves = Some number; grows = Some Growth.InPlace } }
{
    EventFacts {
        reserves: Some(number),
        grows: Some(Growth::InPlace),
        ..by_call(call)
    }
}

/// An event by which an attempt ends.
#[inline(always)]
fn ending(call: u16, milestone: Option<Milestone>) -> EventFacts
    ensures { result ≡ record (by_call call)
        { ends = Some call; drops = Some call; milestone = milestone } }
{
    EventFacts {
        ends: Some(call),
        drops: Some(call),
        milestone,
        ..by_call(call)
    }
}

/// What grows where an attempt takes a channel: a call that comes from another controller is new in the book.
#[inline(always)]
fn growth_of(kind: Kind) -> Growth
    ensures { result ≡ growth_of kind }
{
    match kind {
        Kind::Internal => Growth::InPlace,
        Kind::Incoming => Growth::OfCalls,
    }
}

/// What an event says by itself.
#[inline(always)]
pub fn facts_of(event: Event) -> EventFacts
    ensures facts { result ≡ event_facts event }
{
    match event {
        Event::Open(call, chan) => EventFacts {
            gives: Some((call, chan)),
            drops: Some(call),
            grows: Some(Growth::OfCalls),
            ..reaching(call, Milestone::Opened)
        },
        Event::Clear(call) => EventFacts {
            drops: Some(call),
            ..by_call(call)
        },
        Event::Look(call) => question(About::Call(call)),
        Event::Take(call, kind, chan) => EventFacts {
            gives: Some((call, chan)),
            grows: Some(growth_of(kind)),
            ..opening(call, Some(chan))
        },
        Event::Reserve(call, number) => reserving(call, number),
        Event::Activate(call) | Event::Order(call) => by_call(call),
        Event::Command(call) => reaching(call, Milestone::Commanded),
        Event::Complete(call) => ending(call, Some(Milestone::Completed)),
        Event::Undo(call, _) => EventFacts {
            undoes: Some(call),
            ..ending(call, Some(Milestone::Undone))
        },
        Event::Confirm(chan) | Event::Refuse(chan) | Event::Detect(chan) => by_station(chan),
        Event::Released(chan) => EventFacts {
            releases: Some(chan),
            ..by_station(chan)
        },
        Event::Owner(chan) => question(About::Channel(chan)),
        Event::Require(call) => opening(call, None),
        Event::Left(call) => ending(call, None),
    }
}
