//! Channels of a cell: their names; their states while a station is asked to activate and to release them, and answers (TS
//! 48.058 clause 4); and sets of the timeslots of a TRX.
#![tactic(auto)]

ghost use Rattle.std.specs.Prelude.{◌≡◌, ◌≤◌, ◌↔◌, IsTrue};
ghost use Rattle.channel_fsm.specs.Slots.{conflict, Conflicts};
ghost use Rattle.channel_fsm.specs.Table.{next_state};

use ChanEvent::{Begin, Confirm, Drop, Refuse, Released, Send, SwitchOff, Take};
use ChanState::{Free, Held, Off, On, Pending};
use std::fmt;

pub mod laws;
mod mask;

pub use mask::FreeMask;
pub use timeslots::{Rate, Sub};

/// A channel: one timeslot of one TRX of one cell, or a half of it (TS 45.002 clauses 5 and 6.4.1).
#[derive(Clone, Copy, Debug, PartialEq, Eq, PartialOrd, Ord, Hash)]
pub struct ChanId {
    /// The cell, counted from 0 in the order of the site file; a site has at most 64.
    pub cell: u8,
    /// The TRX of the cell, counted from 0; a cell has at most four.
    pub trx: u8,
    /// The timeslot, 0 to 7.
    pub tn: u8,
    /// Its part of the timeslot.
    pub sub: Sub,
}

impl ChanId {
    /// The channel with this part of the same timeslot.
    pub fn part(self, sub: Sub) -> ChanId
        ensures part { result ≡ record self { sub = sub } }
    {
        ChanId { sub, ..self }
    }
}

/// `cell/trx/tn`, in decimal digits; behind it `/0` or `/1` for a half.
impl fmt::Display for ChanId {
    ghost use Rattle.std.specs.Prelude.{Some};
    ghost use Rattle.channel_fsm.specs.Text.{chan_text};

    ghost output = { λ x. Some (chan_text x) };

    fn fmt<W: fmt::Write>(&self, f: &mut fmt::Formatter<W>) -> fmt::Result {
        match self.sub {
            Sub::Full => write!(f, "{}/{}/{}", self.cell, self.trx, self.tn),
            Sub::Half0 => write!(f, "{}/{}/{}/0", self.cell, self.trx, self.tn),
            Sub::Half1 => write!(f, "{}/{}/{}/1", self.cell, self.trx, self.tn),
        }
    }
}

/// Whether two different channels can't be used at once: they are in one timeslot, and one of them is the whole timeslot.
/// The two halves of a timeslot don't conflict, and a channel doesn't conflict with itself. Takes no memory.
pub fn conflicts(a: ChanId, b: ChanId) -> bool
    ensures value { result ≡ conflict a b }
    ensures shared { IsTrue result ↔ Conflicts a b }
{
    a.cell == b.cell && a.trx == b.trx && a.tn == b.tn && a.sub.overlaps(b.sub)
}

/// What a channel is used for at present.
#[derive(Clone, Copy, Debug, PartialEq, Eq)]
pub enum ChanState {
    /// No call has it, and it is not active.
    Free,
    /// A call has it, and it is not active: the station was not asked to activate it, or refused to.
    Held(u16),
    /// The station was asked to activate it for a call (CHANNEL ACTIVATION, TS 48.058 clause 8.4.1), and has
    /// not answered.
    Pending(u16),
    /// It is active for a call: the station acknowledged its activation (TS 48.058 clause 8.4.2).
    On(u16),
    /// It was, or may have been, active; the station was asked to release it (RF CHANNEL RELEASE, TS 48.058
    /// clause 8.4.14), and has not acknowledged.
    Off,
}

impl ChanState {
    ghost use Rattle.channel_fsm.specs.Slots.{is_used};

    /// Whether a channel in this state is in use: it isn't free.
    pub fn is_used(self) -> bool
        ensures value { result ≡ is_used self }
    {
        match self {
            Free => false,
            Held(_) | Pending(_) | On(_) | Off => true,
        }
    }
}

/// What happens to a channel.
#[derive(Clone, Copy, Debug, PartialEq, Eq)]
pub enum ChanEvent {
    /// A call takes it, and does not ask for it yet.
    Take(u16),
    /// A call takes it, and its CHANNEL ACTIVATION is sent (TS 48.058 clause 8.4.1).
    Begin(u16),
    /// The call that has it asks for it: its CHANNEL ACTIVATION is sent (TS 48.058 clause 8.4.1).
    Send(u16),
    /// The station activated it: CHANNEL ACTIVATION ACKNOWLEDGE (TS 48.058 clause 8.4.2).
    Confirm,
    /// The station refused to activate it: CHANNEL ACTIVATION NEGATIVE ACKNOWLEDGE (TS 48.058 clause 8.4.3).
    Refuse,
    /// It may be active and is used no more: its RF CHANNEL RELEASE is sent (TS 48.058 clause 8.4.14).
    SwitchOff,
    /// It is not active and is used no more.
    Drop,
    /// The station released it: RF CHANNEL RELEASE ACKNOWLEDGE (TS 48.058 clause 8.4.19).
    Released,
}

/// The state of a channel after an event. `None` if the event isn't possible in this state:
///
/// | Event | From | To |
/// |---|---|---|
/// | `Take(c)` | `Free` | `Held(c)` |
/// | `Begin(c)` | `Free` | `Pending(c)` |
/// | `Send(c)` | `Held(c)` | `Pending(c)` |
/// | `Confirm` | `Pending(c)` | `On(c)` |
/// | `Refuse` | `Pending(c)` | `Held(c)` |
/// | `SwitchOff` | `Pending(c)`, `On(c)` | `Off` |
/// | `Drop` | `Held(c)` | `Free` |
/// | `Released` | `Off` | `Free` |
pub fn next(state: ChanState, event: ChanEvent) -> Option<ChanState>
    ensures table { result ≡ next_state state event }
{
    match (state, event) {
        (Free, Take(call)) => Some(Held(call)),
        (Free, Begin(call)) => Some(Pending(call)),
        (Held(call), Send(other)) if call == other => Some(Pending(call)),
        (Pending(call), Confirm) => Some(On(call)),
        (Pending(call), Refuse) => Some(Held(call)),
        (Pending(_) | On(_), SwitchOff) => Some(Off),
        (Held(_), Drop) => Some(Free),
        (Off, Released) => Some(Free),

        (Free, Send(_) | Confirm | Refuse | SwitchOff | Drop | Released) => None,
        (Held(_), Take(_) | Begin(_) | Send(_) | Confirm | Refuse | SwitchOff | Released) => None,
        (Pending(_), Take(_) | Begin(_) | Send(_) | Drop | Released) => None,
        (On(_), Take(_) | Begin(_) | Send(_) | Confirm | Refuse | Drop | Released) => None,
        (Off, Take(_) | Begin(_) | Send(_) | Confirm | Refuse | SwitchOff | Drop) => None,
    }
}
