//! Rows that begin a handover and take it back.
ghost use Rattle.std.specs.Prelude.{◌≡◌, ◌≤◌, ℕ, OnOk, IfErr, IfOk, IsSome, ◌<◌};
ghost use Rattle.ho_procedure.specs.Plan.{Plan, Ends, At};
ghost use Rattle.ho_procedure.specs.Going.{Goes, Passes, then, stops_at};
ghost use Rattle.ho_procedure.specs.Procedure.{activate_plan, reserved_plan, reserve_plan, start_plan, taken_plan, require_plan, move_rest, handover_plan, take_back, undo_plan, expiry_plan};

use super::parts::{ask_done, ask_record, release_target, tell_failure};
use crate::commands::cell_id_at;
use crate::records::{is_nameable, serving_rate};
use crate::view::DeskView;
use crate::work::{Flow, Work};
use attempt_journal::Timer;
use bssmap_messages::CellId;
use bssmap_messages::causes::RADIO_INTERFACE_MESSAGE_FAILURE;
use cell_table::Site;
use channel_fsm::{ChanId, Rate};
use radio_book::event::{Event, Kind, Refusal, Reply, Why};
use radio_desk::desk::DeskFault;
use std::alloc::Allocator;

/// The channel of an attempt with a reference is activated.
#[tactic(auto, using(crate::proofs::Asking::row_steps), unfolding(crate::specs::Procedure::activate_plan))]
fn activate<D: DeskView + Drop, A: Allocator + Copy>(
    work: &mut Work<D, A>,
    call: u16,
    target: ChanId,
    reference: u8,
) -> Result<(), DeskFault>
    requires room { 1 ≤ work.old.owed.room }
    requires timeslot { target.tn < 8 }
    ensures row { OnOk result (Goes D.log D.says work.old
        (activate_plan call target reference) work.new (At Ends)) }
    ensures stops { IfErr result (λ f. Goes D.log D.says work.old
        (activate_plan call target reference) work.new (stops_at f)) }
{
    let Flow::On = ask_done(work, Event::Activate(call))? else {
        return Ok(());
    };
    work.send_target_activation(target, reference);
    Ok(())
}

/// What follows the reservation of a reference for a channel: the channel is activated.
#[tactic(auto, using(crate::proofs::Asking::row_steps))]
fn go_on_reserved<D: DeskView + Drop, A: Allocator + Copy>(
    work: &mut Work<D, A>,
    call: u16,
    target: ChanId,
    reference: u8,
    reply: Reply,
) -> Result<(), DeskFault>
    requires room { 1 ≤ work.old.owed.room }
    requires timeslot { target.tn < 8 }
    ensures row { OnOk result (Goes D.log D.says work.old
        (reserved_plan call target reference reply) work.new (At Ends)) }
    ensures stops { IfErr result (λ f. Goes D.log D.says work.old
        (reserved_plan call target reference reply) work.new (stops_at f)) }
{
    match reply {
        Reply::Done => activate(work, call, target, reference),
        Reply::Record(..) | Reply::Owned(_) | Reply::Refused(_) => Ok(()),
    }
}

/// A reference is reserved for a channel that a message can name.
#[tactic(auto, using(crate::proofs::Asking::row_steps), unfolding(crate::specs::Procedure::reserve_plan))]
fn reserve<D: DeskView + Drop, A: Allocator + Copy>(
    work: &mut Work<D, A>,
    call: u16,
    target: ChanId,
) -> Result<(), DeskFault>
    requires { 1 ≤ work.old.owed.room }
    ensures row { OnOk result (Goes D.log D.says work.old
        (reserve_plan call target) work.new (At Ends)) }
    ensures stops { IfErr result (λ f. Goes D.log D.says work.old
        (reserve_plan call target) work.new (stops_at f)) }
{
    if !is_nameable(target) {
        return Ok(());
    }
    let (reference, reply) = work.reserve(call)?;
    go_on_reserved(work, call, target, reference, reply)
}

/// What follows the take of a channel: a reference is reserved, and the channel activated.
#[tactic(auto, using(crate::proofs::Asking::row_steps), unfolding(crate::specs::Procedure::taken_plan))]
pub(super) fn go_on_taken<D: DeskView + Drop, A: Allocator + Copy>(
    work: &mut Work<D, A>,
    call: u16,
    target: ChanId,
    reply: Reply,
) -> Result<(), DeskFault>
    requires { 1 ≤ work.old.owed.room }
    ensures row { OnOk result (Goes D.log D.says work.old
        (taken_plan call target reply) work.new (At Ends)) }
    ensures stops { IfErr result (λ f. Goes D.log D.says work.old
        (taken_plan call target reply) work.new (stops_at f)) }
{
    match reply {
        Reply::Done => reserve(work, call, target),
        Reply::Record(..) | Reply::Owned(_) | Reply::Refused(_) => Ok(()),
    }
}

/// The switching centre is asked for a handover to a cell of another controller.
#[tactic(auto, using(crate::proofs::Asking::row_steps), unfolding(crate::specs::Procedure::require_plan))]
fn require<D: DeskView + Drop, A: Allocator + Copy>(
    work: &mut Work<D, A>,
    call: u16,
    cell: CellId,
) -> Result<(), DeskFault>
    requires area { IsSome cell.lac }
    ensures row { OnOk result (Goes D.log D.says work.old
        (require_plan call cell) work.new (At Ends)) }
    ensures stops { IfErr result (λ f. Goes D.log D.says work.old
        (require_plan call cell) work.new (stops_at f)) }
{
    work.make_room(1)?;
    let Flow::On = ask_done(work, Event::Require(call))? else {
        return Ok(());
    };
    work.send_handover_required(call, cell);
    Ok(())
}

/// A handover starts to a cell; where an own one has no channel that is free at the rate, the row goes on.
#[tactic(auto, using(crate::proofs::Asking::row_steps, crate::proofs::Going::continues), unfolding(crate::specs::Procedure::start_plan))]
pub(super) fn start<D: DeskView + Drop, A: Allocator + Copy>(
    work: &mut Work<D, A>,
    site: &Site<A>,
    call: u16,
    cell: u8,
    rate: Rate,
) -> Result<Flow, DeskFault>
    ensures goes { IfOk result (λ flow. (tail : Plan) → Passes D.log D.says work.old
        (start_plan site.now call cell rate tail) work.new (then tail flow)) }
    ensures stops { IfErr result (λ f. (tail : Plan) → Goes D.log D.says work.old
        (start_plan site.now call cell rate tail) work.new (stops_at f)) }
{
    if cell >= site.cells() {
        if let Some(outside) = cell_id_at(site, cell) {
            require(work, call, outside)?;
        }
        return Ok(Flow::Over);
    }
    work.make_room(1)?;
    let Some((target, reply)) = work.take(call, Kind::Internal, cell, rate)? else {
        return Ok(Flow::On);
    };
    go_on_taken(work, call, target, reply)?;
    Ok(Flow::Over)
}

/// What follows the look at a call that is to move: it keeps its rate.
#[tactic(auto, using(crate::proofs::Asking::row_steps))]
fn go_on_looked<D: DeskView + Drop, A: Allocator + Copy>(
    work: &mut Work<D, A>,
    site: &Site<A>,
    call: u16,
    cell: u8,
    reply: Reply,
) -> Result<(), DeskFault>
    ensures row { OnOk result (Goes D.log D.says work.old
        (move_rest site.now call cell reply) work.new (At Ends)) }
    ensures stops { IfErr result (λ f. Goes D.log D.says work.old
        (move_rest site.now call cell reply) work.new (stops_at f)) }
{
    match reply {
        Reply::Record(record, _) => {
            let _ = start(work, site, call, cell, serving_rate(record.serving))?;
        }
        Reply::Refused(Refusal::NoCall) => {
            let _ = start(work, site, call, cell, Rate::Full)?;
        }
        Reply::Done
        | Reply::Owned(_)
        | Reply::Refused(
            Refusal::CallExists
            | Refusal::WrongPhase
            | Refusal::NoChannel
            | Refusal::SameCell
            | Refusal::ChannelBusy(_)
            | Refusal::RefBusy(..)
            | Refusal::Unexpected(_)
            | Refusal::NotArmed,
        ) => {}
    }
    Ok(())
}

/// A call is to move to a cell.
#[tactic(auto, using(crate::proofs::Asking::row_steps), unfolding(crate::specs::Procedure::handover_plan))]
pub(crate) fn handover<D: DeskView + Drop, A: Allocator + Copy>(
    work: &mut Work<D, A>,
    site: &Site<A>,
    call: u16,
    cell: u8,
) -> Result<(), DeskFault>
    ensures row { OnOk result (Goes D.log D.says work.old
        (handover_plan site.now call cell) work.new (At Ends)) }
    ensures stops { IfErr result (λ f. Goes D.log D.says work.old
        (handover_plan site.now call cell) work.new (stops_at f)) }
{
    if cell_id_at(site, cell).is_none() {
        return Ok(());
    }
    let reply = work.ask(Event::Look(call))?;
    go_on_looked(work, site, call, cell, reply)
}

/// An operator takes an attempt back: its target is released, and where the call was to come, the switching centre told.
#[tactic(auto, using(crate::proofs::Asking::row_steps), unfolding(crate::specs::Procedure::undo_plan, crate::specs::Procedure::take_back))]
pub(crate) fn undo<D: DeskView + Drop, A: Allocator + Copy>(
    work: &mut Work<D, A>,
    call: u16,
) -> Result<(), DeskFault>
    ensures row { OnOk result (Goes D.log D.says work.old
        (undo_plan call) work.new (At Ends)) }
    ensures stops { IfErr result (λ f. Goes D.log D.says work.old
        (undo_plan call) work.new (stops_at f)) }
{
    work.make_room(2)?;
    let Some(shown) = ask_record(work, Event::Undo(call, Why::Asked))? else {
        return Ok(());
    };
    let Flow::On = release_target(work, shown.record.attempt) else {
        return Ok(());
    };
    tell_failure(work, call, shown.record.attempt);
    Ok(())
}

/// A timer ran out: its attempt is taken back, and its target released.
#[tactic(auto, using(crate::proofs::Asking::row_steps), unfolding(crate::specs::Procedure::expiry_plan))]
pub(crate) fn expire<D: DeskView + Drop, A: Allocator + Copy>(
    work: &mut Work<D, A>,
    call: u16,
    timer: Timer,
) -> Result<(), DeskFault>
    ensures row { OnOk result (Goes D.log D.says work.old
        (expiry_plan call timer) work.new (At Ends)) }
    ensures stops { IfErr result (λ f. Goes D.log D.says work.old
        (expiry_plan call timer) work.new (stops_at f)) }
{
    work.make_room(2)?;
    let Some(shown) = ask_record(work, Event::Undo(call, Why::Expired(timer)))? else {
        return Ok(());
    };
    let Flow::On = release_target(work, shown.record.attempt) else {
        return Ok(());
    };
    match timer {
        Timer::T3103 | Timer::T8 => work.send_clear_request(call, RADIO_INTERFACE_MESSAGE_FAILURE),
        Timer::T7 => {}
    }
    Ok(())
}
