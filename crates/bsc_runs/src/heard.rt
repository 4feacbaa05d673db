//! What an input says to channels.
ghost use Rattle.std.specs.Prelude.{◌≡◌};
ghost use Rattle.bsc_runs.specs.Heard.{IsSaidAt, Says, chan_of, is_failure, back_on, expired_of};

use channel_fsm::ChanId;
use exchange::Inbound;
use link_machine::{Said, said_by};
use link_tables::{Heard, Timer};
use radio_book::event::Timer as CallTimer;
use station_messages::read_head;
use std::alloc::Allocator;

/// What octets from a TRX of a cell say to a channel. `None` if their head can't be read.
pub fn said_at(cell: u8, trx: u8, octets: &[u8]) -> Option<Said>
    ensures said { IsSaidAt cell trx octets.now result }
{
    match read_head(octets) {
        Ok(head) => Some(said_by(cell, trx, head)),
        Err(_) => None,
    }
}

/// What an input says to a channel. `None` if it is no message of a station, or if its head can't be read.
pub fn said_in<A: Allocator>(input: &Inbound<A>) -> Option<Said>
    ensures said { Says input.now result }
{
    match input {
        Inbound::Abis { cell, trx, bytes } => said_at(*cell, *trx, bytes.as_slice()),
        Inbound::A { .. } | Inbound::Expiry { .. } | Inbound::Operator(_) => None,
    }
}

/// The channel that something is said to.
pub fn chan_of(said: Option<Said>) -> Option<ChanId>
    ensures { result ≡ chan_of said }
{
    match said {
        Some(said) => Some(said.chan),
        None => None,
    }
}

/// Whether a channel hears HANDOVER FAILURE (TS 44.018 clause 9.1.17).
fn is_failure(heard: Option<Heard>) -> bool
    ensures { result ≡ is_failure heard }
{
    match heard {
        Some(Heard::HandoverFailure) => true,
        Some(Heard::ActivationAck | Heard::ActivationNack | Heard::ReleaseAck) => false,
        Some(Heard::ConnectionFailure | Heard::MeasurementResult) => false,
        Some(Heard::HandoverDetection | Heard::HandoverComplete) => false,
        Some(Heard::DataIndication | Heard::EstablishIndication) => false,
        Some(Heard::ReleaseIndication | Heard::LinkLost | Heard::LinkUp) => false,
        Some(Heard::Expired(Timer::Activation | Timer::T3109 | Timer::T3111)) => false,
        Some(Heard::Expired(Timer::Release | Timer::Bar)) => false,
        Some(Heard::BarAsked | Heard::UnbarAsked) | None => false,
    }
}

/// The channel that the mobile says it came back to.
pub fn back_on(said: Option<Said>) -> Option<ChanId>
    ensures { result ≡ back_on said }
{
    match said {
        Some(said) if is_failure(said.heard) => Some(said.chan),
        Some(_) | None => None,
    }
}

/// The timer of a call whose expiry an input tells.
pub fn expired_of<A: Allocator>(input: &Inbound<A>) -> Option<(u16, CallTimer)>
    ensures { result ≡ expired_of input.now }
{
    match input {
        Inbound::Expiry { call, timer } => Some((*call, *timer)),
        Inbound::Abis { .. } | Inbound::A { .. } | Inbound::Operator(_) => None,
    }
}
