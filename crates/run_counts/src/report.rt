//! What is counted, and in which cell.
ghost use Rattle.std.specs.Prelude.{◌≡◌};
ghost use Rattle.run_counts.specs.Reports as said;

use crate::told::{Cause, Told, Way};
use radio_book::event::{AttemptKind, Event, Kind, Why};

/// What is counted.
#[derive(Clone, Copy, PartialEq, Eq)]
pub enum What {
    /// A call was opened, which asks for the activation of its channel.
    Opened,
    /// A call was cleared.
    Cleared,
    /// The activation of an attempt's channel was asked for.
    Activated,
    /// A channel was activated.
    Confirmed,
    /// An attempt at handover opened.
    Began(AttemptKind),
    /// The call of an attempt has moved, here or to another controller; of which kind that was, where the lines tell.
    Completed(Option<AttemptKind>),
    /// An attempt was taken back.
    Undone(Cause),
    /// No channel was free.
    TurnedAway,
    /// The octets of an input are no message.
    Fault,
    /// A message of this name came.
    Received(usize),
    /// A message of this name was sent.
    Sent(usize),
}

/// Something that is counted, the cell that it is about, where it is told of one, and the cell of this controller that an
/// attempt leads to which opens or is completed.
#[derive(Clone, Copy, PartialEq, Eq)]
pub struct Report {
    pub cell: Option<u8>,
    pub to: Option<u8>,
    pub what: What,
}

/// What the lines told of the input that is handled now.
#[derive(Clone, Copy)]
pub(crate) struct Standing {
    /// The cell of its message.
    pub(crate) cell: Option<u8>,
    /// Why an attempt is taken back that it undoes.
    pub(crate) cause: Cause,
    /// The home cell of the record that the book replied last.
    pub(crate) home: Option<u8>,
    /// Which way the attempt leads that opened last, or that this record has.
    pub(crate) way: Option<Way>,
}

impl Standing {
    /// Before the first input.
    pub(crate) fn first() -> Standing
        ensures { result ≡ said.first_standing }
    {
        Standing {
            cell: None,
            cause: Cause::Untold,
            home: None,
            way: None,
        }
    }
}

/// The home cell that is known once a reply told one or not.
fn known_home(standing: Standing, home: Option<u8>) -> Option<u8>
    ensures { result ≡ said.known_home standing home }
{
    match home {
        Some(home) => Some(home),
        None => standing.home,
    }
}

/// Which way the attempt leads that opens by an accepted event; another event leaves what is known.
fn opened_way(known: Option<Way>, event: Event) -> Option<Way>
    ensures { result ≡ said.opened_way known event }
{
    match event {
        Event::Take(_, Kind::Internal, chan) => Some(Way {
            kind: AttemptKind::Internal,
            target: Some(chan.cell),
        }),
        Event::Take(_, Kind::Incoming, chan) => Some(Way {
            kind: AttemptKind::Incoming,
            target: Some(chan.cell),
        }),
        Event::Open(..)
        | Event::Clear(_)
        | Event::Look(_)
        | Event::Reserve(..)
        | Event::Activate(_)
        | Event::Command(_)
        | Event::Complete(_)
        | Event::Undo(..)
        | Event::Confirm(_)
        | Event::Refuse(_)
        | Event::Detect(_)
        | Event::Released(_)
        | Event::Owner(_)
        | Event::Require(_)
        | Event::Order(_)
        | Event::Left(_) => known,
    }
}

/// Which way is known once an event was accepted or not, and the reply told one or not.
fn way_behind(known: Option<Way>, event: Event, is_accepted: bool, told: Option<Way>) -> Option<Way>
    ensures { result ≡ said.way_behind known event is_accepted told }
{
    match told {
        Some(way) => Some(way),
        None if is_accepted => opened_way(known, event),
        None => known,
    }
}

/// What the lines told of the input that is handled, behind one that tells this.
pub(crate) fn standing_behind(standing: Standing, told: Told) -> Standing
    ensures { result ≡ said.standing_behind standing told }
{
    match told {
        Told::Input { cell, cause, .. } => Standing {
            cell,
            cause,
            home: None,
            way: None,
        },
        Told::Asked {
            event,
            is_accepted,
            home,
            way,
        } => Standing {
            home: known_home(standing, home),
            way: way_behind(standing.way, event, is_accepted, way),
            ..standing
        },
        Told::NoneFree { .. } | Told::Sent { .. } | Told::Fault | Told::Nothing => standing,
    }
}

/// Why an attempt is taken back that an undo ends: because a timer ran out, or for what the input is.
fn cause_of(standing: Standing, why: Why) -> Cause
    ensures { result ≡ said.cause_of standing why }
{
    match why {
        Why::Asked => standing.cause,
        Why::Expired(_) => Cause::Timer,
    }
}

/// A report of this, which leads nowhere.
fn report_at(cell: Option<u8>, what: What) -> Report
    ensures { result ≡ said.report_at cell what }
{
    Report {
        cell,
        to: None,
        what,
    }
}

/// The cell that an attempt leads to, where that is known.
fn target_of(way: Option<Way>) -> Option<u8>
    ensures { result ≡ said.target_of way }
{
    match way {
        Some(way) => way.target,
        None => None,
    }
}

/// Of which kind an attempt is, where that is known.
fn kind_of(way: Option<Way>) -> Option<AttemptKind>
    ensures { result ≡ said.kind_of way }
{
    match way {
        Some(way) => Some(way.kind),
        None => None,
    }
}

/// What an event counts as that was accepted.
fn accepted(standing: Standing, event: Event, home: Option<u8>) -> Option<Report>
    ensures { result ≡ said.accepted standing event home }
{
    match event {
        Event::Open(_, chan) => Some(report_at(Some(chan.cell), What::Opened)),
        Event::Clear(_) => Some(report_at(home, What::Cleared)),
        Event::Take(_, Kind::Internal, chan) => Some(Report {
            cell: home,
            to: Some(chan.cell),
            what: What::Began(AttemptKind::Internal),
        }),
        Event::Take(_, Kind::Incoming, chan) => Some(Report {
            cell: Some(chan.cell),
            to: Some(chan.cell),
            what: What::Began(AttemptKind::Incoming),
        }),
        Event::Require(_) => Some(report_at(home, What::Began(AttemptKind::Outgoing))),
        Event::Activate(_) => Some(report_at(target_of(standing.way), What::Activated)),
        Event::Confirm(chan) => Some(report_at(Some(chan.cell), What::Confirmed)),
        Event::Complete(_) => Some(Report {
            cell: home,
            to: target_of(standing.way),
            what: What::Completed(kind_of(standing.way)),
        }),
        Event::Left(_) => Some(report_at(home, What::Completed(Some(AttemptKind::Outgoing)))),
        Event::Undo(_, why) => Some(report_at(home, What::Undone(cause_of(standing, why)))),
        Event::Look(_)
        | Event::Reserve(..)
        | Event::Command(_)
        | Event::Refuse(_)
        | Event::Detect(_)
        | Event::Released(_)
        | Event::Owner(_)
        | Event::Order(_) => None,
    }
}

/// What an event counts as. One that is refused doesn't count.
fn event_report(
    standing: Standing,
    event: Event,
    is_accepted: bool,
    home: Option<u8>,
) -> Option<Report>
    ensures { result ≡ said.event_report standing event is_accepted home }
{
    if is_accepted {
        accepted(standing, event, known_home(standing, home))
    } else {
        None
    }
}

/// What a message counts as that an input is.
fn input_report(cell: Option<u8>, name: Option<usize>) -> Option<Report>
    ensures { result ≡ said.input_report cell name }
{
    match name {
        Some(name) => Some(report_at(cell, What::Received(name))),
        None => None,
    }
}

/// What a line counts as that tells this.
pub(crate) fn report_of(standing: Standing, told: Told) -> Option<Report>
    ensures { result ≡ said.report_of standing told }
{
    match told {
        Told::Input { cell, name, .. } => input_report(cell, name),
        Told::Asked {
            event,
            is_accepted,
            home,
            way: _,
        } => event_report(standing, event, is_accepted, home),
        Told::NoneFree { cell } => Some(report_at(Some(cell), What::TurnedAway)),
        Told::Sent { cell, name } => Some(report_at(cell, What::Sent(name))),
        Told::Fault => Some(report_at(standing.cell, What::Fault)),
        Told::Nothing => None,
    }
}
