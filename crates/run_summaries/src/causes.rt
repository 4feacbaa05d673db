//! Why an attempt at handover is undone, by the input that undoes it.
ghost use Rattle.std.specs.Prelude.{◌≡◌};
ghost use Rattle.run_summaries.specs.Causes as said;

use bssmap_messages::Bssmap;
use exchange::{Inbound, Line};
use line_words::Content;
use rr_messages::{Rr, decode};
use rsl_messages::Rsl;
use run_counts::Cause;
use std::alloc::Allocator;

/// Whether a message of the radio path is HANDOVER FAILURE.
fn is_failure(message: &Rr) -> bool
    ensures { result ≡ said.is_failure message.now }
{
    match message {
        Rr::HandoverFailure(_) => true,
        Rr::HandoverCommand { .. }
        | Rr::HandoverComplete(_)
        | Rr::ChannelRelease(_)
        | Rr::PhysicalInformation(_)
        | Rr::MeasurementReport(_) => false,
    }
}

/// Whether a mobile says HANDOVER FAILURE by these octets.
fn says_failure(octets: &[u8]) -> bool
    ensures { said.SaysFailure octets.now result }
{
    match decode(octets) {
        Ok(message) => is_failure(&message),
        Err(_) => false,
    }
}

/// Why an attempt is taken back that a mobile's octets undo.
fn cause_of_mobile(octets: &[u8]) -> Cause
    ensures { said.IsCauseOfMobile octets.now result }
{
    if says_failure(octets) {
        Cause::MobileReturned
    } else {
        Cause::Untold
    }
}

/// Why an attempt is taken back that a message on Abis undoes.
fn cause_of_abis<A: Allocator>(message: &Rsl<A>) -> Cause
    ensures { said.IsCauseOfAbis message.now result }
{
    match message {
        Rsl::ChannelActivationNack { .. } => Cause::ActivationRefused,
        Rsl::DataIndication { layer3, .. } => cause_of_mobile(layer3.as_slice()),
        Rsl::DataRequest { .. }
        | Rsl::ChannelActivation { .. }
        | Rsl::ChannelActivationAck { .. }
        | Rsl::ConnectionFailureIndication { .. }
        | Rsl::HandoverDetection { .. }
        | Rsl::MeasurementResult { .. }
        | Rsl::RfChannelRelease { .. }
        | Rsl::RfChannelReleaseAck { .. } => Cause::Untold,
    }
}

/// Why an attempt is taken back that a message on A undoes.
fn cause_of_a<A: Allocator>(message: &Bssmap<A>) -> Cause
    ensures { result ≡ said.cause_of_a message.now }
{
    match message {
        Bssmap::HandoverRequiredReject { .. } => Cause::CentreRejected,
        Bssmap::ClearCommand { .. } => Cause::CallCleared,
        Bssmap::HandoverRequest { .. }
        | Bssmap::HandoverRequired { .. }
        | Bssmap::HandoverRequestAck { .. }
        | Bssmap::HandoverCommand { .. }
        | Bssmap::HandoverComplete { .. }
        | Bssmap::HandoverFailure { .. }
        | Bssmap::HandoverPerformed { .. }
        | Bssmap::HandoverDetect
        | Bssmap::ClearComplete
        | Bssmap::ClearRequest { .. } => Cause::Untold,
    }
}

/// Why an attempt is taken back that what octets are undoes.
fn cause_of_content<A: Allocator>(content: &Content<A>) -> Cause {
    match content {
        Content::Abis(_, Some(message)) => cause_of_abis(message),
        Content::A(_, Some(message)) => cause_of_a(message),
        Content::Abis(_, None) | Content::A(_, None) | Content::Rowless(..) | Content::Nothing => {
            Cause::Untold
        }
    }
}

/// Why an attempt is taken back that an operator's line undoes.
fn cause_of_line(line: Line) -> Cause
    ensures { result ≡ said.cause_of_line line }
{
    match line {
        Line::Undo { .. } => Cause::Operator,
        Line::Clear { .. } => Cause::CallCleared,
        Line::Open { .. } | Line::Seize { .. } | Line::Handover { .. } => Cause::Untold,
    }
}

/// Why an attempt is taken back that an input undoes, which carries this.
pub(crate) fn cause_of<A: Allocator>(input: &Inbound<A>, content: &Content<A>) -> Cause {
    match input {
        Inbound::Abis { .. } | Inbound::A { .. } => cause_of_content(content),
        Inbound::Expiry { .. } => Cause::Timer,
        Inbound::Operator(line) => cause_of_line(*line),
    }
}
