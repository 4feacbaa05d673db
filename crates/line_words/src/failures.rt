//! Why messages say that something fails, or is refused.
use crate::causes::{Cause, a_cause, abis_cause, rr_cause};
use crate::content::Content;
use bssmap_messages::Bssmap;
use explanations::cause_name;
use rr_messages::Rr;
use rsl_messages::Rsl;
use std::alloc::Allocator;

/// The cause of a message on Abis by which a station refuses an activation or says that a connection fails.
fn abis_failure<A: Allocator>(message: &Rsl<A>) -> Option<Cause> {
    match message {
        Rsl::ChannelActivationNack { .. } | Rsl::ConnectionFailureIndication { .. } => {
            abis_cause(message)
        }
        Rsl::DataRequest { .. }
        | Rsl::DataIndication { .. }
        | Rsl::ChannelActivation { .. }
        | Rsl::ChannelActivationAck { .. }
        | Rsl::HandoverDetection { .. }
        | Rsl::MeasurementResult { .. }
        | Rsl::RfChannelRelease { .. }
        | Rsl::RfChannelReleaseAck { .. } => None,
    }
}

/// The cause of a message on A by which a handover fails or is refused, or a call is to be cleared because it fails.
fn a_failure<A: Allocator>(message: &Bssmap<A>) -> Option<Cause> {
    match message {
        Bssmap::HandoverRequiredReject { .. }
        | Bssmap::HandoverFailure { .. }
        | Bssmap::ClearRequest { .. } => a_cause(message),
        Bssmap::HandoverRequest { .. }
        | Bssmap::HandoverRequired { .. }
        | Bssmap::HandoverRequestAck { .. }
        | Bssmap::HandoverCommand { .. }
        | Bssmap::HandoverComplete { .. }
        | Bssmap::HandoverPerformed { .. }
        | Bssmap::HandoverDetect
        | Bssmap::ClearCommand { .. }
        | Bssmap::ClearComplete => None,
    }
}

/// The cause for which a mobile says HANDOVER FAILURE.
fn rr_failure(message: &Rr) -> Option<Cause> {
    match message {
        Rr::HandoverFailure(_) => rr_cause(message),
        Rr::HandoverCommand { .. }
        | Rr::HandoverComplete(_)
        | Rr::ChannelRelease(_)
        | Rr::PhysicalInformation(_)
        | Rr::MeasurementReport(_) => None,
    }
}

/// The name of a cause, where there is one.
fn name_of(cause: Option<Cause>) -> Option<&'static str> {
    let (link, cause) = cause?;
    Some(cause_name(link, cause))
}

/// The name of the cause for which a message says that something fails or is refused: CHANNEL ACTIVATION NACK, CONNECTION
/// FAILURE INDICATION, HANDOVER REQUIRED REJECT, HANDOVER FAILURE on A and CLEAR REQUEST. `None` of any other.
pub fn failure_name<A: Allocator>(content: &Content<A>) -> Option<&'static str> {
    match content {
        Content::Abis(_, Some(message)) => name_of(abis_failure(message)),
        Content::A(_, Some(message)) => name_of(a_failure(message)),
        Content::Abis(_, None) | Content::A(_, None) | Content::Rowless(..) | Content::Nothing => {
            None
        }
    }
}

/// The name of the cause for which a mobile says that a handover fails; `None` of any other message.
pub(crate) fn mobile_failure_name(message: &Rr) -> Option<&'static str> {
    name_of(rr_failure(message))
}
