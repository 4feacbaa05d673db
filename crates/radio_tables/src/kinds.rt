//! What tables keep of a call: its record, with the attempt at handover that is open (TS 44.018 clause 3.4.4, TS 48.008
//! clause 3.1.5).
pub use attempt_journal::Timer;
use channel_fsm::ChanId;
pub use dense_tables::Reference;

/// How far an attempt at handover has come.
#[derive(Clone, Copy, Debug, PartialEq, Eq)]
pub enum Stage {
    /// It has a channel.
    Taken,
    /// It has a channel and a handover reference.
    Reserved,
    /// The activation of the channel was sent.
    Sent,
    /// The station refused the activation.
    Refused,
    /// The station activated the channel.
    Confirmed,
    /// The mobile was sent to the channel (HANDOVER COMMAND, TS 44.018 clause 3.4.4).
    Commanded,
    /// The station sees the mobile on the channel (HANDOVER DETECTION, TS 48.058 clause 8.4.7).
    Detected,
    /// The switching centre was asked for a handover to another controller (HANDOVER REQUIRED, TS 48.008 clause
    /// 3.1.5).
    Required,
    /// The mobile was sent to the other controller (HANDOVER COMMAND, TS 48.008 clause 3.1.5).
    Ordered,
}

/// What kind of handover is attempted: within this controller (TS 44.018 clause 3.4.4), towards it from another, or
/// away from it to another (TS 48.008 clause 3.1.5).
#[derive(Clone, Copy, Debug, PartialEq, Eq)]
pub enum AttemptKind {
    /// A call of this controller moves to another of its cells.
    Internal,
    /// A call of another controller moves to a cell of this one.
    Incoming,
    /// A call of this controller moves to a cell of another.
    Outgoing,
}

/// An attempt at handover that is open.
#[derive(Clone, Copy, Debug, PartialEq, Eq)]
pub struct Attempt {
    /// Where the call comes from.
    pub kind: AttemptKind,
    /// How far it has come.
    pub stage: Stage,
    /// The channel that the call is to move to. `None` if it is another controller's.
    pub target: Option<ChanId>,
    /// The handover reference in the target's cell, 0 to 255. `None` in [`Stage::Taken`], and where there is no
    /// target.
    pub reference: Option<u8>,
}

/// What the book has of a call.
#[derive(Clone, Copy, Debug, PartialEq, Eq)]
pub struct CallRecord {
    /// The channel that the call is on. `None` for a call that comes from another controller.
    pub serving: Option<ChanId>,
    /// The attempt that is open. `None` if the call rests on its serving channel.
    pub attempt: Option<Attempt>,
}
