//! The events by which an attempt at handover comes to its stage (TS 44.018 clause 3.4.4, TS 48.008 clause 3.1.5).
ghost use Rattle.std.specs.Prelude.{◌≡◌, ◌++◌, Some, OnOk};
ghost use Rattle.opening_events.specs.Opening as spec;

use channel_fsm::ChanId;
use radio_book::event::{Attempt, AttemptKind, Event, Kind, Stage};
use std::alloc::{AllocError, Allocator};

/// An attempt of this kind takes its target.
fn add_taking<A: Allocator>(
    events: &mut Vec<Event, A>,
    call: u16,
    kind: AttemptKind,
    target: ChanId,
) -> Result<(), AllocError>
    ensures { OnOk result (events.new.items ≡ events.old.items ++ spec.taking_events call kind target) }
{
    match kind {
        AttemptKind::Internal => {
            events.extend_from_slice(&[Event::Take(call, Kind::Internal, target)])
        }
        AttemptKind::Incoming => {
            events.extend_from_slice(&[Event::Take(call, Kind::Incoming, target)])
        }
        AttemptKind::Outgoing => Ok(()),
    }
}

/// And comes to a stage, with this reference.
fn add_stage<A: Allocator>(
    events: &mut Vec<Event, A>,
    call: u16,
    target: ChanId,
    number: u8,
    stage: Stage,
) -> Result<(), AllocError>
    ensures { OnOk result (events.new.items ≡ events.old.items ++ spec.stage_events call target number stage) }
{
    let reserve = Event::Reserve(call, number);
    let activate = Event::Activate(call);
    let confirm = Event::Confirm(target);
    let command = Event::Command(call);
    match stage {
        Stage::Taken | Stage::Required | Stage::Ordered => Ok(()),
        Stage::Reserved => events.extend_from_slice(&[reserve]),
        Stage::Sent => events.extend_from_slice(&[reserve, activate]),
        Stage::Refused => events.extend_from_slice(&[reserve, activate, Event::Refuse(target)]),
        Stage::Confirmed => events.extend_from_slice(&[reserve, activate, confirm]),
        Stage::Commanded => events.extend_from_slice(&[reserve, activate, confirm, command]),
        Stage::Detected => {
            events.extend_from_slice(&[reserve, activate, confirm, command, Event::Detect(target)])
        }
    }
}

/// An attempt towards another controller comes to a stage.
fn add_leaving<A: Allocator>(
    events: &mut Vec<Event, A>,
    call: u16,
    stage: Stage,
) -> Result<(), AllocError>
    ensures { OnOk result (events.new.items ≡ events.old.items ++ spec.leaving_events call stage) }
{
    match stage {
        Stage::Required => events.extend_from_slice(&[Event::Require(call)]),
        Stage::Ordered => events.extend_from_slice(&[Event::Require(call), Event::Order(call)]),
        Stage::Taken
        | Stage::Reserved
        | Stage::Sent
        | Stage::Refused
        | Stage::Confirmed
        | Stage::Commanded
        | Stage::Detected => Ok(()),
    }
}

fn number_or_0(reference: Option<u8>) -> u8
    ensures { result ≡ spec.number_or_0 reference }
{
    match reference {
        Some(number) => number,
        None => 0,
    }
}

/// An attempt that takes a target comes to its stage.
fn add_coming<A: Allocator>(
    events: &mut Vec<Event, A>,
    call: u16,
    target: ChanId,
    attempt: Attempt,
) -> Result<(), AllocError>
    ensures { OnOk result (events.new.items ≡ events.old.items
        ++ spec.attempt_events call attempt.kind (Some target) attempt.reference attempt.stage) }
{
    add_taking(events, call, attempt.kind, target)?;
    add_stage(
        events,
        call,
        target,
        number_or_0(attempt.reference),
        attempt.stage,
    )
}

/// The attempt that is open, if one is, comes to its stage.
pub(crate) fn add_opened<A: Allocator>(
    events: &mut Vec<Event, A>,
    call: u16,
    opened: Option<Attempt>,
) -> Result<(), AllocError>
    ensures { OnOk result (events.new.items ≡ events.old.items ++ spec.opened_events call opened) }
{
    let Some(attempt) = opened else {
        return Ok(());
    };
    match attempt.target {
        Some(target) => add_coming(events, call, target, attempt),
        None => add_leaving(events, call, attempt.stage),
    }
}
