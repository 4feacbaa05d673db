//! What a station answers, and what becomes of a channel then.
ghost use Rattle.std.specs.Prelude.{◌≡◌, None, Some};
ghost use Rattle.bts_model.specs.Stations.{at_activation, at_release};

use crate::answer::Answer;
use crate::slots::{Activity, Slot};

/// What becomes of a channel, where it changes, and what the station answers.
#[derive(Clone, Copy)]
pub struct Reaction {
    pub slot: Option<Slot>,
    pub answer: Answer,
}

/// The channel stays as it is.
fn stays(answer: Answer) -> Reaction
    ensures { result ≡ record { slot = None; answer = answer } }
{
    Reaction { slot: None, answer }
}

/// The channel becomes this.
fn becomes(slot: Slot, answer: Answer) -> Reaction
    ensures { result ≡ record { slot = Some slot; answer = answer } }
{
    Reaction {
        slot: Some(slot),
        answer,
    }
}

/// CHANNEL ACTIVATION (TS 48.058 clause 4.1): an inactive channel becomes active, unless a refusal was asked for, which is
/// used up. A channel that is active stays as it is, and so does one of which a part is in use: a channel that it conflicts
/// with is active.
pub fn at_activation(slot: Slot, is_in_use: bool, reference: Option<u8>) -> Reaction
    ensures { result ≡ at_activation slot is_in_use reference }
{
    match slot.activity {
        Activity::Active(_) => stays(Answer::ActivationNack),
        Activity::Inactive => {
            if is_in_use {
                stays(Answer::ActivationNack)
            } else if slot.refuses {
                let refused = Slot {
                    refuses: false,
                    ..slot
                };
                becomes(refused, Answer::ActivationNack)
            } else {
                let active = Slot {
                    activity: Activity::Active(reference),
                    ..slot
                };
                becomes(active, Answer::ActivationAck)
            }
        }
    }
}

/// RF CHANNEL RELEASE (TS 48.058 clause 4.7): the channel is inactive then, and the station says so in any case.
pub fn at_release(slot: Slot) -> Reaction
    ensures { result ≡ at_release slot }
{
    match slot.activity {
        Activity::Active(_) => {
            let released = Slot {
                activity: Activity::Inactive,
                ..slot
            };
            becomes(released, Answer::ReleaseAck)
        }
        Activity::Inactive => stays(Answer::ReleaseAck),
    }
}
