//! Inputs without effect.
use cell_table::Site;
use channel_fsm::ChanState;
use exchange::{Inbound, Line};
use line_words::Content;
use radio_book::event::{Event, Reply};
use radio_book::facts::facts_of;
use rsl_messages::Rsl;
use run_listeners::{Answer, Turn};
use std::alloc::Allocator;
use trace_text::trace::Step;

/// Whether nothing was asked for an input, and nothing is sent.
pub(crate) fn is_ignored<A: Allocator>(turn: &Turn<A>) -> bool {
    match &turn.answer {
        Answer::Sent(sent) => turn.steps.is_empty() && sent.is_empty(),
        Answer::Undecoded(_) => false,
    }
}

/// Whether an operator's line asks for a free channel of a cell that the site hasn't.
pub(crate) fn is_nowhere<A: Allocator + Copy>(turn: &Turn<A>, site: &Site<A>) -> bool {
    match &turn.input {
        Inbound::Operator(Line::Seize { cell, .. }) => *cell >= site.cells(),
        Inbound::Operator(_) | Inbound::Expiry { .. } | Inbound::Abis { .. } | Inbound::A { .. } =>
            { false }
    }
}

/// Whether a message on Abis is about a channel that the site lacks.
pub(crate) fn is_off_site<A: Allocator + Copy>(content: &Content<A>, site: &Site<A>) -> bool {
    match content {
        Content::Abis(place, Some(_)) => place.chan.is_some_and(|chan| !site.is_traffic(chan)),
        Content::Abis(_, None) | Content::Rowless(..) | Content::A(..) | Content::Nothing => false,
    }
}

/// Whether a step changed nothing: it asked, or was refused. That none is free says enough, but of a call that isn't there.
fn changed_nothing(step: Step, is_of_nobody: bool) -> bool {
    match step {
        Step::Asked(event, reply) => facts_of(event).is_question || !reply.is_accepted(),
        Step::NoneFree(..) => is_of_nobody,
    }
}

/// Whether the book replied that there is no such call.
fn is_of_nobody(steps: &[Step]) -> bool {
    steps.iter().any(|step| match step {
        Step::Asked(Event::Look(_), reply) => !reply.is_accepted(),
        Step::Asked(..) | Step::NoneFree(..) => false,
    })
}

/// Whether the book replied that a channel serves its call and is on.
fn serves<A: Allocator>(step: Step, content: &Content<A>) -> bool {
    match (step, content) {
        (Step::Asked(_, Reply::Record(record, Some(ChanState::On(_)))), Content::Abis(place, _)) =>
            { place.chan.is_some() && record.serving == place.chan }
        _ => false,
    }
}

/// Whether an input is a report of a mobile that is noted: that of the channel that serves its call (TS 48.058 clause 8.4.8).
fn is_noted<A: Allocator>(steps: &[Step], content: &Content<A>) -> bool {
    matches!(
        content,
        Content::Abis(_, Some(Rsl::MeasurementResult { .. }))
    ) && steps.iter().any(|step| serves(*step, content))
}

/// Whether no row goes on with an input at the stage that its call is in: the book was asked, nothing changed, and nothing is
/// sent. A report that is noted isn't one.
pub(crate) fn is_out_of_stage<A: Allocator>(turn: &Turn<A>, content: &Content<A>) -> bool {
    match &turn.answer {
        Answer::Sent(sent) => {
            let is_of_nobody = is_of_nobody(&turn.steps);
            sent.is_empty()
                && !turn.steps.is_empty()
                && turn
                    .steps
                    .iter()
                    .all(|step| changed_nothing(*step, is_of_nobody))
                && !is_noted(&turn.steps, content)
        }
        Answer::Undecoded(_) => false,
    }
}
