//! What a stage says of an attempt at handover: the table of stages.
ghost use Rattle.std.specs.Prelude.{◌≡◌};
ghost use Rattle.std.specs.Option.{option_map};
ghost use Rattle.radio_tables.specs.Stages.{stage_row, stage_allows};

use crate::kinds::{Stage, Timer};
use channel_fsm::ChanState;

impl Stage {
    /// The state that the target is in for a call. `None` in the stages of an outgoing attempt, which has no target.
    pub fn target_state(self, call: u16) -> Option<ChanState>
        ensures state { result ≡ option_map (λ state. state call) (stage_row self).target }
    {
        match self {
            Stage::Taken | Stage::Reserved | Stage::Refused => Some(ChanState::Held(call)),
            Stage::Sent => Some(ChanState::Pending(call)),
            Stage::Confirmed | Stage::Commanded | Stage::Detected => Some(ChanState::On(call)),
            Stage::Required | Stage::Ordered => None,
        }
    }

    /// The attempt has a handover reference.
    pub fn has_reference(self) -> bool
        ensures reference { result ≡ (stage_row self).has_reference }
    {
        match self {
            Stage::Reserved
            | Stage::Sent
            | Stage::Refused
            | Stage::Confirmed
            | Stage::Commanded
            | Stage::Detected => true,
            Stage::Taken | Stage::Required | Stage::Ordered => false,
        }
    }

    /// The timer that is armed (TS 44.018 clause 11.1.2, TS 48.008 clause 3.1.5).
    pub fn timer(self) -> Option<Timer>
        ensures timer { result ≡ (stage_row self).timer }
    {
        match self {
            Stage::Commanded | Stage::Detected => Some(Timer::T3103),
            Stage::Required => Some(Timer::T7),
            Stage::Ordered => Some(Timer::T8),
            Stage::Taken | Stage::Reserved | Stage::Sent | Stage::Refused | Stage::Confirmed =>
                None,
        }
    }

    /// The station may have activated the target.
    pub fn may_be_active(self) -> bool
        ensures may_be_active { result ≡ (stage_row self).may_be_active }
    {
        match self {
            Stage::Sent | Stage::Confirmed | Stage::Commanded | Stage::Detected => true,
            Stage::Taken | Stage::Reserved | Stage::Refused | Stage::Required | Stage::Ordered =>
                false,
        }
    }

    /// A Reserve is not a wrong phase.
    pub fn may_reserve(self) -> bool
        ensures reserve { result ≡ (stage_allows self).reserve }
    {
        match self {
            Stage::Taken => true,
            Stage::Reserved
            | Stage::Sent
            | Stage::Refused
            | Stage::Confirmed
            | Stage::Commanded
            | Stage::Detected
            | Stage::Required
            | Stage::Ordered => false,
        }
    }
}
