//! What goes into a base station controller, and what comes out of it: messages as octets, operators' lines, expiries. This
//! crate needs no book. Scripts, traces and captures need only this crate.
#![tactic(auto)]

ghost use Rattle.std.specs.Prelude.{◌≡◌, IfOk, OnErr};
ghost use Rattle.exchange.specs.Inputs.{HoldsOctets};
ghost use Rattle.exchange.specs.Outputs.{octets_sent};

use attempt_journal::Timer;
use bssmap_messages::BssmapFault;
use channel_fsm::{ChanId, Rate};
use octet_elements::Octets;
use rr_messages::RrFault;
use rsl_messages::RslFault;
use std::alloc::{AllocError, Allocator, Global};
use std::fmt;
use thiserror::Error;

mod naming;

pub use naming::chan_of;

/// What an operator asks for. A call is named by its number, 0 to 65535.
#[derive(Clone, Copy, Debug, PartialEq, Eq)]
pub enum Line {
    /// A call begins on this channel (TS 48.058 clause 4.1).
    Open { call: u16, chan: ChanId },
    /// A call begins on some free channel of this cell at a rate (TS 48.058 clause 4.1). Nothing comes of it if none is
    /// free, or if the site has no such cell.
    Seize { call: u16, cell: u8, rate: Rate },
    /// A call is to move to this cell (TS 44.018 clause 3.4.4): an own cell, or an outside cell, numbered from 64. Nothing
    /// comes of it if the site has no such cell.
    Handover { call: u16, cell: u8 },
    /// The handover of a call is undone.
    Undo { call: u16 },
    /// A call ends.
    Clear { call: u16 },
}

/// What a controller is given. A call is named by its number, 0 to 65535.
#[derive(Drop)]
pub enum Inbound<A: Allocator = Global> {
    /// A message on Abis from a TRX of a cell (TS 48.058 clause 8). More than 1,024 octets are none.
    Abis { cell: u8, trx: u8, bytes: Octets<A> },
    /// A message on A about a call (TS 48.008 clause 3.2.1). More than 255 octets are none.
    A { call: u16, bytes: Octets<A> },
    /// A timer that guards a call's handover ran out: T3103 (TS 44.018 clause 11.1.2), T7 or T8 (TS 48.008 clause
    /// 3.1.5).
    Expiry { call: u16, timer: Timer },
    /// What an operator asks for.
    Operator(Line),
}

impl<A: Allocator + Copy> Inbound<A> {
    /// A copy of the input. Memory is asked for, for the octets of a message that has some.
    pub fn copy(&self, alloc: A) -> Result<Inbound<A>, AllocError>
        ensures same { IfOk result (λ copy. copy ≡ self.now) }
        ensures memory { OnErr result (HoldsOctets self.now) }
    {
        match self {
            Inbound::Abis { cell, trx, bytes } => Ok(Inbound::Abis {
                cell: *cell,
                trx: *trx,
                bytes: Octets::new(alloc, bytes.as_slice())?,
            }),
            Inbound::A { call, bytes } => Ok(Inbound::A {
                call: *call,
                bytes: Octets::new(alloc, bytes.as_slice())?,
            }),
            Inbound::Expiry { call, timer } => Ok(Inbound::Expiry {
                call: *call,
                timer: *timer,
            }),
            Inbound::Operator(line) => Ok(Inbound::Operator(*line)),
        }
    }
}

/// What a controller sends: the octets are the canonical text of a message.
#[derive(Debug)]
pub enum Outbound<A: Allocator = Global> {
    /// A message on Abis to a TRX of a cell (TS 48.058 clause 8).
    Abis { cell: u8, trx: u8, bytes: Octets<A> },
    /// A message on A about a call (TS 48.008 clause 3.2.1).
    A { call: u16, bytes: Octets<A> },
}

impl<A: Allocator> Outbound<A> {
    /// Its octets, which are moved out.
    pub fn into_octets(self) -> Octets<A>
        ensures octets { result ≡ octets_sent self }
    {
        match self {
            Outbound::Abis {
                cell: _,
                trx: _,
                bytes,
            } => bytes,
            Outbound::A { call: _, bytes } => bytes,
        }
    }
}

// By hand, as that of a controller.
impl<A: Allocator> Drop for Outbound<A> {
    fn drop(self) {
        match self {
            Outbound::Abis {
                cell: _,
                trx: _,
                bytes: _,
            } => {}
            Outbound::A { call: _, bytes: _ } => {}
        }
    }
}

/// Which text can't be read.
#[derive(Clone, Copy, Debug, PartialEq, Eq)]
pub enum Link {
    /// A message on Abis (TS 48.058).
    Abis,
    /// A message on A (TS 48.008).
    A,
    /// The radio resource message (TS 44.018) inside a message on Abis.
    Rr,
}

impl fmt::Display for Link {
    fn fmt<W: fmt::Write>(&self, f: &mut fmt::Formatter<W>) -> fmt::Result {
        let name = match self {
            Link::Abis => "message on Abis",
            Link::A => "message on A",
            Link::Rr => "radio resource message",
        };
        write!(f, "{name}")
    }
}

/// Why a text can't be read.
#[derive(Clone, Copy, Debug, PartialEq, Eq, Error)]
pub enum Bad {
    /// It is no message on Abis.
    #[error("{0}")]
    Rsl(RslFault),
    /// It is no message on A.
    #[error("{0}")]
    Bssmap(BssmapFault),
    /// It is no radio resource message.
    #[error("{0}")]
    Rr(RrFault),
}

/// Why an input was not handled to its end.
#[derive(Debug, Drop, Error)]
pub enum Fault<A: Allocator = Global> {
    /// A text can't be read. Nothing was asked of the view, and nothing is sent.
    #[error("the {0} can't be read: {1}")]
    Undecoded(Link, Bad),
    /// Memory was refused. What was asked so far stands, and the caller sends these messages, which belong to it, in
    /// their order.
    #[error("memory was refused")]
    NoMemory(Vec<Outbound<A>, A>),
    /// The view's last receipt, of this place (counted from 0), isn't from its desk's history. What was asked so far
    /// stands, and the caller sends these messages, as after `NoMemory`.
    #[error("the receipt of place {0} is of another desk")]
    Desk(usize, Vec<Outbound<A>, A>),
}
