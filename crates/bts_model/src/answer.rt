//! What stations and mobiles answer, and its octets.
ghost use Rattle.std.specs.Prelude.{◌≡◌, ◌<◌, ◌≤◌, length, IfOk};
ghost use Rattle.rsl_messages.specs.Texts.{HasCanonical, canonical_text};
ghost use Rattle.rr_messages.specs.Rr.{rr_text};
ghost use Rattle.bts_model.specs.Answers.{octets_of, indication_octets};

use rr_elements::{ABNORMAL_RELEASE, NORMAL_EVENT, RrCause};
use rr_messages::Rr;
use rsl_messages::values::{EQUIPMENT_FAILURE, MAIN_SIGNALLING};
use rsl_messages::{ChanBits, Octets, Rsl, encode};
use std::alloc::{AllocError, Allocator, Global};

/// What a station says of a channel, or passes on from the mobile on it.
#[derive(Clone, Copy, Debug, PartialEq, Eq)]
pub enum Answer {
    /// CHANNEL ACTIVATION ACKNOWLEDGE.
    ActivationAck,
    /// CHANNEL ACTIVATION NEGATIVE ACKNOWLEDGE.
    ActivationNack,
    /// RF CHANNEL RELEASE ACKNOWLEDGE.
    ReleaseAck,
    /// A mobile reached the channel.
    Detection,
    /// The mobile that reached the channel says so.
    Complete,
    /// The mobile stayed on the channel, or came back to it.
    Failure,
}

/// A message on Abis that a station sends its controller.
#[derive(Debug, Drop)]
pub struct StationOut<A: Allocator = Global> {
    /// The place of the controller's site in the list that the world was made of.
    pub controller: usize,
    pub cell: u8,
    pub trx: u8,
    /// The octets of the message (TS 48.058 clause 8), or what a cut left of it.
    pub bytes: Octets<A>,
}

/// What stations send, or an allocation failure.
pub type Outs<A> = Result<Vec<StationOut<A>, A>, AllocError>;

/// The octets of the message by which a station gives an answer.
pub fn octets_of<A: Allocator + Copy>(
    alloc: A,
    channel: ChanBits,
    answer: Answer,
) -> Result<Vec<u8, A>, AllocError>
    requires timeslot { channel.tn < 8 }
    ensures octets { IfOk result (λ octets. octets.items ≡ octets_of channel answer) }
{
    let message = message_of(alloc, channel, answer)?;
    encode(alloc, &message)
}

/// The message by which a station gives an answer: its own, or DATA INDICATION on the main signalling channel for the
/// mobile's.
fn message_of<A: Allocator + Copy>(
    alloc: A,
    channel: ChanBits,
    answer: Answer,
) -> Result<Rsl<A>, AllocError>
    requires { channel.tn < 8 }
    ensures text { IfOk result (λ message. canonical_text message ≡ octets_of channel answer) }
    ensures canonical { IfOk result HasCanonical }
{
    match answer {
        Answer::ActivationAck => Ok(Rsl::ChannelActivationAck { channel, frame: 0 }),
        Answer::ActivationNack => Ok(Rsl::ChannelActivationNack {
            channel,
            cause: EQUIPMENT_FAILURE,
        }),
        Answer::ReleaseAck => Ok(Rsl::RfChannelReleaseAck { channel }),
        Answer::Detection => Ok(Rsl::HandoverDetection {
            channel,
            delay: Some(0),
        }),
        Answer::Complete => from_mobile(
            alloc,
            channel,
            &Rr::HandoverComplete(RrCause(NORMAL_EVENT)),
        ),
        Answer::Failure => from_mobile(
            alloc,
            channel,
            &Rr::HandoverFailure(RrCause(ABNORMAL_RELEASE)),
        ),
    }
}

/// DATA INDICATION on the main signalling channel, with a message of the mobile (TS 48.058 clause 8.3.2).
fn from_mobile<A: Allocator + Copy>(
    alloc: A,
    channel: ChanBits,
    message: &Rr,
) -> Result<Rsl<A>, AllocError>
    requires channel { channel.tn < 8 }
    requires short { length (rr_text message.now) ≤ 251 }
    ensures text { IfOk result (λ indication. canonical_text indication ≡
        indication_octets channel message.now) }
    ensures canonical { IfOk result HasCanonical }
{
    let octets = rr_messages::encode(alloc, message)?;
    Ok(Rsl::DataIndication {
        channel,
        link: MAIN_SIGNALLING,
        layer3: Octets::from_vec(octets),
    })
}
