//! Rows of the messages of stations.
ghost use Rattle.std.specs.Prelude.{◌≡◌, ◌≤◌, ◌<◌, ℕ, OnOk, IfErr};
ghost use Rattle.ho_procedure.specs.Plan.{Plan, Ends, At};
ghost use Rattle.ho_procedure.specs.Going.{Goes, Passes, stops_at};
ghost use Rattle.ho_procedure.specs.Procedure.{send_command, internal_command, acknowledge, incoming_command, confirm_rest, confirm_plan, refused_target, refuse_plan, released_plan, connection_failure_plan, tell_detected, detect_rest, detect_plan};

use super::parts::{ask_done, ask_last, ask_record, look, owner, tell_failure};
use crate::commands::command_to;
use crate::records::{is_nameable, is_serving, is_target, is_target_in};
use crate::view::DeskView;
use crate::work::{Flow, Work};
use bssmap_messages::causes::{EQUIPMENT_FAILURE, RADIO_INTERFACE_FAILURE};
use cell_table::Site;
use channel_fsm::ChanId;
use radio_book::event::{Attempt, AttemptKind, Event, Why};
use radio_desk::desk::DeskFault;
use rr_messages::Rr;
use std::alloc::Allocator;

/// The mobile is sent by this command.
#[tactic(auto, using(crate::proofs::Asking::row_steps), unfolding(crate::specs::Procedure::send_command))]
fn send_command<D: DeskView + Drop, A: Allocator + Copy>(
    work: &mut Work<D, A>,
    call: u16,
    serving: ChanId,
    command: &Rr,
) -> Result<(), DeskFault>
    requires room { 1 ≤ work.old.owed.room }
    requires timeslot { serving.tn < 8 }
    ensures row { OnOk result (Goes D.log D.says work.old
        (send_command call serving command.now) work.new (At Ends)) }
    ensures stops { IfErr result (λ f. Goes D.log D.says work.old
        (send_command call serving command.now) work.new (stops_at f)) }
{
    let Flow::On = ask_done(work, Event::Command(call))? else {
        return Ok(());
    };
    work.send_to_mobile(serving, command);
    Ok(())
}

/// The mobile is sent to the target.
#[tactic(auto, using(crate::proofs::Asking::row_steps))]
fn command<D: DeskView + Drop, A: Allocator + Copy>(
    work: &mut Work<D, A>,
    site: &Site<A>,
    call: u16,
    target: ChanId,
    serving: Option<ChanId>,
    reference: Option<u8>,
) -> Result<(), DeskFault>
    requires { 1 ≤ work.old.owed.room }
    ensures row { OnOk result (Goes D.log D.says work.old
        (internal_command site.now call target serving reference) work.new (At Ends)) }
    ensures stops { IfErr result (λ f. Goes D.log D.says work.old
        (internal_command site.now call target serving reference) work.new (stops_at f)) }
{
    let Some(serving) = serving else {
        return Ok(());
    };
    if !is_nameable(serving) {
        return Ok(());
    }
    let Some(reference) = reference else {
        return Ok(());
    };
    let Some(command) = command_to(site, target, reference) else {
        return Ok(());
    };
    send_command(work, call, serving, &command)
}

/// A call that comes has its channel: the switching centre gets the command for its mobile.
#[tactic(auto, using(crate::proofs::Asking::row_steps), unfolding(crate::specs::Procedure::acknowledge))]
fn acknowledge<D: DeskView + Drop, A: Allocator + Copy>(
    work: &mut Work<D, A>,
    call: u16,
    command: &Rr,
) -> Result<(), DeskFault>
    requires { 1 ≤ work.old.owed.room }
    ensures row { OnOk result (Goes D.log D.says work.old
        (acknowledge call command.now) work.new (At Ends)) }
    ensures stops { IfErr result (λ f. Goes D.log D.says work.old
        (acknowledge call command.now) work.new (stops_at f)) }
{
    let Flow::On = ask_done(work, Event::Command(call))? else {
        return Ok(());
    };
    work.send_handover_request_ack(call, command);
    Ok(())
}

/// The mobile of a call that comes is to be sent to the target.
#[tactic(auto, using(crate::proofs::Asking::row_steps))]
fn command_incoming<D: DeskView + Drop, A: Allocator + Copy>(
    work: &mut Work<D, A>,
    site: &Site<A>,
    call: u16,
    target: ChanId,
    reference: Option<u8>,
) -> Result<(), DeskFault>
    requires { 1 ≤ work.old.owed.room }
    ensures row { OnOk result (Goes D.log D.says work.old
        (incoming_command site.now call target reference) work.new (At Ends)) }
    ensures stops { IfErr result (λ f. Goes D.log D.says work.old
        (incoming_command site.now call target reference) work.new (stops_at f)) }
{
    let Some(reference) = reference else {
        return Ok(());
    };
    let Some(command) = command_to(site, target, reference) else {
        return Ok(());
    };
    acknowledge(work, call, &command)
}

/// What follows the look at a call, a channel of which was activated.
#[tactic(auto, using(crate::proofs::Asking::row_steps), unfolding(crate::specs::Procedure::confirm_rest))]
fn confirm_rest<D: DeskView + Drop, A: Allocator + Copy>(
    work: &mut Work<D, A>,
    site: &Site<A>,
    call: u16,
    chan: ChanId,
    serving: Option<ChanId>,
    attempt: Option<Attempt>,
) -> Result<(), DeskFault>
    requires { 1 ≤ work.old.owed.room }
    ensures row { OnOk result (Goes D.log D.says work.old
        (confirm_rest site.now call chan serving attempt) work.new (At Ends)) }
    ensures stops { IfErr result (λ f. Goes D.log D.says work.old
        (confirm_rest site.now call chan serving attempt) work.new (stops_at f)) }
{
    let Some(attempt) = attempt else {
        return Ok(());
    };
    if !is_target(chan, attempt.target) {
        return Ok(());
    }
    match attempt.kind {
        AttemptKind::Internal => command(work, site, call, chan, serving, attempt.reference),
        AttemptKind::Incoming => command_incoming(work, site, call, chan, attempt.reference),
        AttemptKind::Outgoing => ask_last(work, Event::Command(call)),
    }
}

/// A station activated a channel.
#[tactic(auto, using(crate::proofs::Asking::row_steps), unfolding(crate::specs::Procedure::confirm_plan))]
pub(crate) fn confirm<D: DeskView + Drop, A: Allocator + Copy>(
    work: &mut Work<D, A>,
    site: &Site<A>,
    chan: ChanId,
) -> Result<(), DeskFault>
    ensures row { OnOk result (Goes D.log D.says work.old
        (confirm_plan site.now chan) work.new (At Ends)) }
    ensures stops { IfErr result (λ f. Goes D.log D.says work.old
        (confirm_plan site.now chan) work.new (stops_at f)) }
{
    work.make_room(1)?;
    let Some(call) = owner(work, Event::Confirm(chan))? else {
        return Ok(());
    };
    let Some(shown) = look(work, call)? else {
        return Ok(());
    };
    confirm_rest(
        work,
        site,
        call,
        chan,
        shown.record.serving,
        shown.record.attempt,
    )
}

/// The target of an attempt was refused: the attempt is taken back.
#[tactic(auto, using(crate::proofs::Asking::row_steps), unfolding(crate::specs::Procedure::refused_target))]
fn refuse_target<D: DeskView + Drop, A: Allocator + Copy>(
    work: &mut Work<D, A>,
    call: u16,
) -> Result<(), DeskFault>
    requires { 1 ≤ work.old.owed.room }
    ensures row { OnOk result (Goes D.log D.says work.old
        (refused_target call) work.new (At Ends)) }
    ensures stops { IfErr result (λ f. Goes D.log D.says work.old
        (refused_target call) work.new (stops_at f)) }
{
    let Some(shown) = ask_record(work, Event::Undo(call, Why::Asked))? else {
        return Ok(());
    };
    tell_failure(work, call, shown.record.attempt);
    Ok(())
}

/// A station refused to activate a channel.
#[tactic(auto, using(crate::proofs::Asking::row_steps), unfolding(crate::specs::Procedure::refuse_plan))]
pub(crate) fn refuse<D: DeskView + Drop, A: Allocator + Copy>(
    work: &mut Work<D, A>,
    chan: ChanId,
) -> Result<(), DeskFault>
    ensures row { OnOk result (Goes D.log D.says work.old
        (refuse_plan chan) work.new (At Ends)) }
    ensures stops { IfErr result (λ f. Goes D.log D.says work.old
        (refuse_plan chan) work.new (stops_at f)) }
{
    work.make_room(1)?;
    let Some(call) = owner(work, Event::Refuse(chan))? else {
        return Ok(());
    };
    let Some(shown) = look(work, call)? else {
        return Ok(());
    };
    if is_target_in(chan, shown.record) {
        return refuse_target(work, call);
    }
    if is_serving(chan, shown.record) {
        work.send_clear_request(call, EQUIPMENT_FAILURE);
    }
    Ok(())
}

/// A station released a channel.
#[tactic(auto, using(crate::proofs::Asking::row_steps), unfolding(crate::specs::Procedure::released_plan))]
pub(crate) fn release<D: DeskView + Drop, A: Allocator + Copy>(
    work: &mut Work<D, A>,
    chan: ChanId,
) -> Result<(), DeskFault>
    ensures row { OnOk result (Goes D.log D.says work.old
        (released_plan chan) work.new (At Ends)) }
    ensures stops { IfErr result (λ f. Goes D.log D.says work.old
        (released_plan chan) work.new (stops_at f)) }
{
    ask_last(work, Event::Released(chan))
}

/// A station lost the mobile on a channel.
#[tactic(auto, using(crate::proofs::Asking::row_steps), unfolding(crate::specs::Procedure::connection_failure_plan))]
pub(crate) fn fail<D: DeskView + Drop, A: Allocator + Copy>(
    work: &mut Work<D, A>,
    chan: ChanId,
) -> Result<(), DeskFault>
    ensures row { OnOk result (Goes D.log D.says work.old
        (connection_failure_plan chan) work.new (At Ends)) }
    ensures stops { IfErr result (λ f. Goes D.log D.says work.old
        (connection_failure_plan chan) work.new (stops_at f)) }
{
    let Some(call) = owner(work, Event::Owner(chan))? else {
        return Ok(());
    };
    work.make_room(1)?;
    let Some(shown) = look(work, call)? else {
        return Ok(());
    };
    if is_serving(chan, shown.record) && shown.record.attempt.is_none() {
        work.send_clear_request(call, RADIO_INTERFACE_FAILURE);
    }
    Ok(())
}

/// The switching centre is told that the mobile of a call that comes is seen.
#[tactic(auto, using(crate::proofs::Asking::row_steps), unfolding(crate::specs::Procedure::tell_detected))]
fn tell_detected<D: DeskView + Drop, A: Allocator + Copy>(work: &mut Work<D, A>, call: u16)
    requires { 1 ≤ work.old.owed.room }
    ensures row { Goes D.log D.says work.old (tell_detected call) work.new (At Ends) }
{
    work.send_handover_detect(call);
}

/// What follows the look at a call whose mobile is seen on its target.
#[tactic(auto, using(crate::proofs::Asking::row_steps), unfolding(crate::specs::Procedure::detect_rest))]
fn detect_rest<D: DeskView + Drop, A: Allocator + Copy>(
    work: &mut Work<D, A>,
    call: u16,
    attempt: Option<Attempt>,
)
    requires { 1 ≤ work.old.owed.room }
    ensures row { Goes D.log D.says work.old (detect_rest call attempt) work.new (At Ends) }
{
    let Some(attempt) = attempt else {
        return;
    };
    match attempt.kind {
        AttemptKind::Incoming => tell_detected(work, call),
        AttemptKind::Internal | AttemptKind::Outgoing => {}
    }
}

/// A station sees the mobile on the channel that it was sent to.
#[tactic(auto, using(crate::proofs::Asking::row_steps), unfolding(crate::specs::Procedure::detect_plan))]
pub(crate) fn detect<D: DeskView + Drop, A: Allocator + Copy>(
    work: &mut Work<D, A>,
    chan: ChanId,
) -> Result<(), DeskFault>
    ensures row { OnOk result (Goes D.log D.says work.old
        (detect_plan chan) work.new (At Ends)) }
    ensures stops { IfErr result (λ f. Goes D.log D.says work.old
        (detect_plan chan) work.new (stops_at f)) }
{
    work.make_room(1)?;
    let Some(call) = owner(work, Event::Detect(chan))? else {
        return Ok(());
    };
    let Some(shown) = look(work, call)? else {
        return Ok(());
    };
    detect_rest(work, call, shown.record.attempt);
    Ok(())
}
