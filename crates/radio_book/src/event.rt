//! What may happen to a radio book, and what it answers: the steps of calls and of handovers (TS 44.018 clause
//! 3.4.4, TS 48.008 clause 3.1.5), and the answers of stations about channels (TS 48.058 clause 4).
ghost use Rattle.std.specs.Prelude.{◌≡◌};
ghost use Rattle.radio_book.specs.Kinds.{is_accepted};

use channel_fsm::{ChanId, ChanState};
pub use radio_tables::kinds::{Attempt, AttemptKind, CallRecord, Reference, Stage, Timer};

/// Where the call of an attempt comes from.
#[derive(Clone, Copy, Debug, PartialEq, Eq)]
pub enum Kind {
    /// A call of this controller moves to another of its cells.
    Internal,
    /// A call of another controller moves to a cell of this one.
    Incoming,
}

/// Why an attempt is taken back.
#[derive(Clone, Copy, Debug, PartialEq, Eq)]
pub enum Why {
    /// A caller asked for it.
    Asked,
    /// A timer that guards it ran out.
    Expired(Timer),
}

/// The events, and why each may be refused. A call is named by its number, 0 to 65535.
#[derive(Clone, Copy, Debug, PartialEq, Eq)]
pub enum Event {
    /// A call begins on a channel, whose CHANNEL ACTIVATION is sent (TS 48.058 clause 8.4.1).
    ///
    /// Refused: `CallExists`, `NoChannel`, `ChannelBusy`.
    Open(u16, ChanId),
    /// A call ends. Where its channel may be active, the RF CHANNEL RELEASE is sent (TS 48.058 clause 8.4.14).
    ///
    /// Refused: `NoCall`, `WrongPhase` (an attempt is open).
    Clear(u16),
    /// Asks for the record of a call.
    ///
    /// Refused: `NoCall`.
    Look(u16),
    /// An attempt opens, and takes a channel of another cell than the call's.
    ///
    /// Refused where the call is of this controller: `NoCall`, `WrongPhase` (an attempt is open, or the serving
    /// channel isn't active), `NoChannel`, `SameCell`, `ChannelBusy`. Where it comes from another: `CallExists`,
    /// `NoChannel`, `ChannelBusy`.
    Take(u16, Kind, ChanId),
    /// An attempt reserves a Handover Reference (TS 44.018 clause 10.5.2.15) in the cell of its channel.
    ///
    /// Refused: `NoCall`, `WrongPhase` (no attempt in [`Stage::Taken`]), `RefBusy`.
    Reserve(u16, u8),
    /// The CHANNEL ACTIVATION (TS 48.058 clause 8.4.1) of an attempt's channel is sent.
    ///
    /// Refused: `NoCall`, `WrongPhase` (no attempt in [`Stage::Reserved`]).
    Activate(u16),
    /// The mobile is sent to an attempt's channel (HANDOVER COMMAND, TS 44.018 clause 3.4.4), and T3103 is armed.
    ///
    /// Refused: `NoCall`, `WrongPhase` (no attempt in [`Stage::Confirmed`]).
    Command(u16),
    /// The mobile has come (HANDOVER COMPLETE, TS 44.018 clause 3.4.4): the call is served on the attempt's channel,
    /// and the RF CHANNEL RELEASE (TS 48.058 clause 8.4.14) of the one before, if it had one, is sent.
    ///
    /// Refused: `NoCall`, `WrongPhase` (no attempt in [`Stage::Commanded`] or [`Stage::Detected`]).
    Complete(u16),
    /// An attempt is taken back. Where its channel may be active, the RF CHANNEL RELEASE is sent (TS 48.058
    /// clause 8.4.14).
    ///
    /// Refused where it was asked: `NoCall`, `WrongPhase` (no attempt is open). Where a timer expired: `NoCall`,
    /// `NotArmed`.
    Undo(u16, Why),
    /// A station activated a channel: CHANNEL ACTIVATION ACKNOWLEDGE (TS 48.058 clause 8.4.2).
    ///
    /// Refused: `Unexpected` (the channel isn't [`ChanState::Pending`]).
    Confirm(ChanId),
    /// A station refused to activate a channel: CHANNEL ACTIVATION NEGATIVE ACKNOWLEDGE (TS 48.058 clause 8.4.3).
    ///
    /// Refused: `Unexpected` (the channel isn't [`ChanState::Pending`]).
    Refuse(ChanId),
    /// A station sees the mobile on the channel that it was sent to: HANDOVER DETECTION (TS 48.058 clause 8.4.7).
    ///
    /// Refused: `Unexpected` (the channel isn't the target of an attempt in [`Stage::Commanded`]).
    Detect(ChanId),
    /// A station released a channel: RF CHANNEL RELEASE ACKNOWLEDGE (TS 48.058 clause 8.4.19).
    ///
    /// Refused: `Unexpected` (the channel isn't [`ChanState::Off`]).
    Released(ChanId),
    /// Asks which call has a channel.
    ///
    /// Refused: `Unexpected` (no call has the channel).
    Owner(ChanId),
    /// The switching centre is asked to move a call to another controller (HANDOVER REQUIRED, TS 48.008 clause
    /// 3.1.5): an attempt opens, and T7 is armed.
    ///
    /// Refused: `NoCall`, `WrongPhase` (an attempt is open, or the serving channel isn't active).
    Require(u16),
    /// The switching centre orders the move (HANDOVER COMMAND, TS 48.008 clause 3.1.5), and the mobile is sent: T7 is
    /// disarmed, and T8 armed.
    ///
    /// Refused: `NoCall`, `WrongPhase` (no attempt in [`Stage::Required`]).
    Order(u16),
    /// The call has left for the other controller (CLEAR COMMAND, TS 48.008 clause 3.1.9): it ends, and the RF CHANNEL
    /// RELEASE (TS 48.058 clause 8.4.14) of its channel is sent.
    ///
    /// Refused: `NoCall`, `WrongPhase` (no attempt in [`Stage::Ordered`]).
    Left(u16),
}

/// Why an event is refused. If several reasons apply, the answer is the first in this order.
#[derive(Clone, Copy, Debug, PartialEq, Eq)]
pub enum Refusal {
    /// The book has no such call.
    NoCall,
    /// The book has the call already.
    CallExists,
    /// The call, or its attempt, is at another stage than the event needs.
    WrongPhase,
    /// The site names no such traffic channel.
    NoChannel,
    /// The channel lies in the cell of the call's serving channel.
    SameCell,
    /// This channel is in the way: it is in use, and is the channel asked for or conflicts with it. It is the first such of
    /// the whole timeslot, its lower and its upper half.
    ChannelBusy(ChanId),
    /// The handover reference is in use: its cell, and its number.
    RefBusy(u8, u8),
    /// The channel does not wait for this message of its station.
    Unexpected(ChanId),
    /// The timer is not armed for the call.
    NotArmed,
}

/// What the book answers to an event.
#[derive(Clone, Copy, Debug, PartialEq, Eq)]
pub enum Reply {
    /// The event was accepted. There is nothing else to say.
    Done,
    /// What the book had of the call, and the state of its serving channel.
    Record(CallRecord, Option<ChanState>),
    /// The channel is used by this call.
    Owned(u16),
    /// The event was refused, and changed nothing.
    Refused(Refusal),
}

impl Reply {
    /// Whether the event was accepted: the reply is no refusal.
    pub fn is_accepted(self) -> bool
        ensures accepted { result ≡ is_accepted self }
    {
        match self {
            Reply::Done | Reply::Record(..) | Reply::Owned(_) => true,
            Reply::Refused(_) => false,
        }
    }
}
