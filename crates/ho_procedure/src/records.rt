//! What a row reads in a record.
ghost use Rattle.std.specs.Prelude.{◌≡◌, IfSome, IsSome};
ghost use Rattle.radio_book.specs.Sound.{target_in};
ghost use Rattle.radio_book.specs.Table.{is_target};
ghost use Rattle.ho_procedure.specs.Messages.{is_nameable};
ghost use Rattle.ho_procedure.specs.Procedure.{is_named, serving_rate, is_serving, is_guarded_by, is_commanded, is_required, is_ordered, awaits_order, awaits_leaving, is_own, names_target, names_releases, is_held, is_on, traffic_cell};

use crate::commands::cell_id_at;
use crate::work::Shown;
use attempt_journal::Timer;
use bssmap_messages::CellId;
use cell_table::Site;
use channel_fsm::{ChanId, ChanState, Rate};
use radio_book::event::{Attempt, AttemptKind, CallRecord, Stage};
use std::alloc::Allocator;

/// A message can name the timeslot of the channel.
pub(crate) fn is_nameable(chan: ChanId) -> bool
    ensures { result ≡ is_nameable chan }
{
    chan.tn < 8
}

/// There is a channel, and a message can name it.
pub(crate) fn is_named(chan: Option<ChanId>) -> bool
    ensures { result ≡ is_named chan }
{
    match chan {
        Some(chan) => is_nameable(chan),
        None => false,
    }
}

/// The channel is this one.
pub(crate) fn is_target(chan: ChanId, target: Option<ChanId>) -> bool
    ensures { result ≡ is_target chan target }
{
    match target {
        Some(target) => target == chan,
        None => false,
    }
}

/// The channel is the target of the call's attempt.
pub(crate) fn is_target_in(chan: ChanId, shown: CallRecord) -> bool
    ensures { result ≡ is_target chan (target_in shown) }
{
    match shown.attempt {
        Some(attempt) => is_target(chan, attempt.target),
        None => false,
    }
}

/// The call is served on the channel.
pub(crate) fn is_serving(chan: ChanId, shown: CallRecord) -> bool
    ensures { result ≡ is_serving chan shown }
{
    is_target(chan, shown.serving)
}

/// The rate of the channel on which a call is served; the full rate, where it is served on none.
pub(crate) fn serving_rate(serving: Option<ChanId>) -> Rate
    ensures { result ≡ serving_rate serving }
{
    match serving {
        Some(chan) => chan.sub.rate(),
        None => Rate::Full,
    }
}

/// This timer guards an attempt in the stage.
fn is_guarded_by(timer: Timer, stage: Stage) -> bool
    ensures { result ≡ is_guarded_by timer stage }
{
    stage.timer() == Some(timer)
}

/// The mobile was sent to the target, and hasn't said what came of it.
pub(crate) fn is_commanded(stage: Stage) -> bool
    ensures { result ≡ is_commanded stage }
{
    is_guarded_by(Timer::T3103, stage)
}

/// HANDOVER REQUIRED was sent, and the switching centre hasn't answered.
fn is_required(stage: Stage) -> bool
    ensures { result ≡ is_required stage }
{
    is_guarded_by(Timer::T7, stage)
}

/// The mobile was sent to another controller's cell, and hasn't come back.
pub(crate) fn is_ordered(stage: Stage) -> bool
    ensures { result ≡ is_ordered stage }
{
    is_guarded_by(Timer::T8, stage)
}

/// The attempt waits for the switching centre to order the handover.
pub(crate) fn awaits_order(attempt: Option<Attempt>) -> bool
    ensures { result ≡ awaits_order attempt }
{
    match attempt {
        Some(attempt) => is_required(attempt.stage),
        None => false,
    }
}

/// The attempt waits for the call to have left.
pub(crate) fn awaits_leaving(attempt: Option<Attempt>) -> bool
    ensures { result ≡ awaits_leaving attempt }
{
    match attempt {
        Some(attempt) => is_ordered(attempt.stage),
        None => false,
    }
}

/// The call is one of this controller, which keeps its record once an attempt was taken back.
pub(crate) fn is_own(attempt: Option<Attempt>) -> bool
    ensures { result ≡ is_own attempt }
{
    match attempt {
        Some(attempt) => match attempt.kind {
            AttemptKind::Internal | AttemptKind::Outgoing => true,
            AttemptKind::Incoming => false,
        },
        None => true,
    }
}

/// A message can name the target, where it may be active.
pub(crate) fn names_target(attempt: Option<Attempt>) -> bool
    ensures { result ≡ names_target attempt }
{
    match attempt {
        Some(attempt) => !attempt.stage.may_be_active() || is_named(attempt.target),
        None => true,
    }
}

/// The channel is held: its station refused it.
pub(crate) fn is_held(state: Option<ChanState>) -> bool
    ensures { result ≡ is_held state }
{
    match state {
        Some(ChanState::Held(_)) => true,
        Some(ChanState::Free)
        | Some(ChanState::Pending(_))
        | Some(ChanState::On(_))
        | Some(ChanState::Off)
        | None => false,
    }
}

/// The record names all that is released when its call is cleared.
pub(crate) fn names_releases(shown: Shown) -> bool
    ensures { result ≡ names_releases shown.record shown.state }
{
    let serving_is_named = is_held(shown.state) || is_named(shown.record.serving);
    names_target(shown.record.attempt) && (!is_own(shown.record.attempt) || serving_is_named)
}

/// The channel is active for its call.
pub(crate) fn is_on(state: Option<ChanState>) -> bool
    ensures { result ≡ is_on state }
{
    match state {
        Some(ChanState::On(_)) => true,
        Some(ChanState::Free)
        | Some(ChanState::Held(_))
        | Some(ChanState::Pending(_))
        | Some(ChanState::Off)
        | None => false,
    }
}

/// The cell of a traffic channel of the site, as messages on A name it.
pub(crate) fn traffic_cell<A: Allocator + Copy>(site: &Site<A>, chan: ChanId) -> Option<CellId>
    ensures cell { result ≡ traffic_cell site.now chan }
    ensures area { IfSome result (λ cell. IsSome cell.lac) }
{
    if !site.is_traffic(chan) {
        return None;
    }
    cell_id_at(site, chan.cell)
}
