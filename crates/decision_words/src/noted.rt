//! Which call a report counts for.
use channel_fsm::{ChanId, ChanState};
use line_words::Content;
use radio_book::event::{Event, Reply};
use rr_elements::MeasResults;
use rr_messages::Rr;
use rsl_messages::Rsl;
use std::alloc::Allocator;
use trace_text::trace::Step;

/// A report that counts for a call.
#[derive(Clone, Copy)]
pub(crate) struct Noted {
    pub(crate) call: u16,
    /// The channel that serves it.
    pub(crate) chan: ChanId,
    /// Whether it has no attempt at handover.
    pub(crate) is_steady: bool,
    pub(crate) report: MeasResults,
}

/// The report of a mobile (TS 44.018 clause 9.1.21) in a radio resource message.
fn report_of(layer3: &[u8]) -> Option<MeasResults> {
    match rr_messages::decode(layer3).ok()? {
        Rr::MeasurementReport(report) => Some(report),
        Rr::HandoverCommand { .. }
        | Rr::HandoverComplete(_)
        | Rr::HandoverFailure(_)
        | Rr::ChannelRelease(_)
        | Rr::PhysicalInformation(_) => None,
    }
}

/// The channel of a measurement result (TS 48.058 clause 8.4.8), and the radio resource message inside.
fn result_in<A: Allocator>(content: &Content<A>) -> Option<(ChanId, &[u8])> {
    let Content::Abis(
        place,
        Some(
            Rsl::MeasurementResult {
                layer3: Some(layer3),
                ..
            },
        ),
    ) = content
    else {
        return None;
    };
    Some((place.chan?, layer3.as_slice()))
}

/// The call that the book replied to use a channel.
fn owner_in(step: Step) -> Option<u16> {
    match step {
        Step::Asked(Event::Owner(_), Reply::Owned(call)) => Some(call),
        Step::Asked(..) | Step::NoneFree(..) => None,
    }
}

/// Whether the call that the book was asked for has no attempt, where the channel serves it and is on.
fn steady_on(step: Step, chan: ChanId) -> Option<bool> {
    match step {
        Step::Asked(Event::Look(_), Reply::Record(record, Some(ChanState::On(_)))) => {
            if record.serving == Some(chan) {
                Some(record.attempt.is_none())
            } else {
                None
            }
        }
        Step::Asked(..) | Step::NoneFree(..) => None,
    }
}

/// The report in an input, where a controller notes it: it asks whose the channel is, and then for that call, which the channel
/// serves.
pub(crate) fn noted_by<A: Allocator>(content: &Content<A>, steps: &[Step]) -> Option<Noted> {
    let (chan, layer3) = result_in(content)?;
    let report = report_of(layer3)?;
    let [owner, look, ..] = steps else {
        return None;
    };
    let call = owner_in(*owner)?;
    let is_steady = steady_on(*look, chan)?;
    Some(Noted {
        call,
        chan,
        is_steady,
        report,
    })
}

/// What was asked once the report had been noted.
pub(crate) fn behind_noted(steps: &[Step]) -> &[Step] {
    steps.get(2..).unwrap_or(&[])
}
