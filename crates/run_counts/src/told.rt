//! What a line of a trace tells, as far as it is counted.
ghost use Rattle.std.specs.Prelude.{◌≡◌};
ghost use Rattle.run_counts.specs.Reports as said;

use channel_fsm::ChanId;
use radio_book::event::{AttemptKind, CallRecord, Event, Reply};

/// Why an attempt at handover is taken back.
#[derive(Clone, Copy, PartialEq, Eq)]
pub enum Cause {
    /// A station refused to activate its channel.
    ActivationRefused,
    /// The mobile came back to the channel that it was sent from.
    MobileReturned,
    /// A timer that guards it ran out.
    Timer,
    /// The switching centre rejected it.
    CentreRejected,
    /// An operator took it back.
    Operator,
    /// Its call is cleared.
    CallCleared,
    /// The lines don't tell.
    Untold,
}

/// Which way an attempt at handover leads.
#[derive(Clone, Copy, PartialEq, Eq)]
pub struct Way {
    pub kind: AttemptKind,
    /// The cell of this controller that it is to lead to. `None` where it leads to another controller.
    pub target: Option<u8>,
}

/// What a line of a trace tells, as far as it is counted. A cell is a number from 0 to 255. A name is that of a message: its
/// place among the names that came so far.
#[derive(Clone, Copy)]
pub enum Told {
    /// An input is handled: the cell of a message on Abis, why an attempt is taken back that this input undoes, and the name
    /// of the message, if there is one.
    Input {
        cell: Option<u8>,
        cause: Cause,
        name: Option<usize>,
    },
    /// The book was asked: the event, and whether it was accepted; of the record that the book replied, where it replied one,
    /// the home cell (that of the serving channel, or else of the target), and which way the attempt leads that is open.
    Asked {
        event: Event,
        is_accepted: bool,
        home: Option<u8>,
        way: Option<Way>,
    },
    /// No channel of this cell was free.
    NoneFree {
        cell: u8,
    },
    /// A message is sent: its cell, on Abis, and its name.
    Sent {
        cell: Option<u8>,
        name: usize,
    },
    /// The octets of the input are no message.
    Fault,
    /// Nothing that is counted.
    Nothing,
}

/// The cell of a channel, if there is one.
fn cell_of(chan: Option<ChanId>) -> Option<u8>
    ensures { result ≡ said.cell_of chan }
{
    match chan {
        Some(chan) => Some(chan.cell),
        None => None,
    }
}

/// The cell that the attempt of a record is to lead to, where it is one of this controller.
fn target_cell(kept: CallRecord) -> Option<u8>
    ensures { result ≡ said.target_cell kept.attempt }
{
    match kept.attempt {
        Some(attempt) => cell_of(attempt.target),
        None => None,
    }
}

/// The home cell of a record: that in which the call is served, or else that to which it comes.
fn home_of(kept: CallRecord) -> Option<u8>
    ensures { result ≡ said.home_of kept }
{
    match kept.serving {
        Some(chan) => Some(chan.cell),
        None => target_cell(kept),
    }
}

/// Which way the attempt of a record leads, where one is open.
fn way_of(kept: CallRecord) -> Option<Way>
    ensures { result ≡ said.way_in kept.attempt }
{
    match kept.attempt {
        Some(attempt) => Some(Way {
            kind: attempt.kind,
            target: cell_of(attempt.target),
        }),
        None => None,
    }
}

/// What is told where the book was asked an event, and replied this.
pub fn asked(event: Event, reply: Reply) -> Told
    ensures told { result ≡ said.asked event reply }
{
    match reply {
        Reply::Done | Reply::Owned(_) => Told::Asked {
            event,
            is_accepted: true,
            home: None,
            way: None,
        },
        Reply::Record(kept, _) => Told::Asked {
            event,
            is_accepted: true,
            home: home_of(kept),
            way: way_of(kept),
        },
        Reply::Refused(_) => Told::Asked {
            event,
            is_accepted: false,
            home: None,
            way: None,
        },
    }
}
