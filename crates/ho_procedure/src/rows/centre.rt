//! Rows of the messages of the switching centre about a handover between controllers.
ghost use Rattle.std.specs.Prelude.{◌≡◌, ◌≤◌, ◌<◌, IfOk, OnOk, IfErr, length};
ghost use Rattle.ho_procedure.specs.Plan.{Plan, Ends, At};
ghost use Rattle.ho_procedure.specs.Going.{Goes, Passes, then, stops_at};
ghost use Rattle.ho_procedure.specs.Procedure.{once_new, second_choice, admit_plan, request_rest, request_plan, order_channel, order_plan, reject_plan};

use super::handovers::go_on_taken;
use super::parts::{ask_done, look, turn_away};
use crate::records::{awaits_order, is_nameable};
use crate::requests::{PermittedRates, is_speech, own_cell, permits_clear, rates_of};
use crate::view::DeskView;
use crate::work::{Flow, Work};
use bssmap_messages::CellId;
use bssmap_messages::causes::{
    CIPHERING_ALGORITHM_NOT_SUPPORTED, INVALID_MESSAGE_CONTENTS, NO_RADIO_RESOURCE_AVAILABLE,
};
use cell_table::Site;
use channel_fsm::{ChanId, Rate};
use radio_book::event::{Event, Kind, Refusal, Reply, Why};
use radio_desk::desk::DeskFault;
use std::alloc::Allocator;

/// No channel is free at the preferred rate: the other one is tried, where it is permitted.
#[tactic(auto, using(crate::proofs::Asking::row_steps), unfolding(crate::specs::Procedure::second_choice))]
fn take_other<D: DeskView + Drop, A: Allocator + Copy>(
    work: &mut Work<D, A>,
    call: u16,
    cell: u8,
    other: Option<Rate>,
) -> Result<(), DeskFault>
    requires { 1 ≤ work.old.owed.room }
    ensures row { OnOk result (Goes D.log D.says work.old
        (second_choice call cell other) work.new (At Ends)) }
    ensures stops { IfErr result (λ f. Goes D.log D.says work.old
        (second_choice call cell other) work.new (stops_at f)) }
{
    let Some(rate) = other else {
        turn_away(work, call, NO_RADIO_RESOURCE_AVAILABLE);
        return Ok(());
    };
    let Some((target, reply)) = work.take(call, Kind::Incoming, cell, rate)? else {
        turn_away(work, call, NO_RADIO_RESOURCE_AVAILABLE);
        return Ok(());
    };
    go_on_taken(work, call, target, reply)
}

/// A call is to come to this own cell, if there is one, at one of these rates.
#[tactic(auto, using(crate::proofs::Asking::row_steps), unfolding(crate::specs::Procedure::admit_plan))]
fn admit<D: DeskView + Drop, A: Allocator + Copy>(
    work: &mut Work<D, A>,
    call: u16,
    rates: PermittedRates,
    cell: Option<u8>,
) -> Result<(), DeskFault>
    requires { 1 ≤ work.old.owed.room }
    ensures row { OnOk result (Goes D.log D.says work.old
        (admit_plan call rates cell) work.new (At Ends)) }
    ensures stops { IfErr result (λ f. Goes D.log D.says work.old
        (admit_plan call rates cell) work.new (stops_at f)) }
{
    let Some(cell) = cell else {
        turn_away(work, call, INVALID_MESSAGE_CONTENTS);
        return Ok(());
    };
    let Some((target, reply)) = work.take(call, Kind::Incoming, cell, rates.preferred)? else {
        return take_other(work, call, cell, rates.other);
    };
    go_on_taken(work, call, target, reply)
}

/// What follows the look of a HANDOVER REQUEST: a new call is admitted or turned away.
#[tactic(auto, using(crate::proofs::Asking::row_steps), unfolding(crate::specs::Procedure::request_rest))]
fn request_rest<D: DeskView + Drop, A: Allocator + Copy>(
    work: &mut Work<D, A>,
    site: &Site<A>,
    call: u16,
    channel: &[u8],
    encryption: &[u8],
    target: CellId,
) -> Result<(), DeskFault>
    requires { 1 ≤ work.old.owed.room }
    ensures row { OnOk result (Goes D.log D.says work.old
        (request_rest site.now call channel.now encryption.now target) work.new (At Ends)) }
    ensures stops { IfErr result (λ f. Goes D.log D.says work.old
        (request_rest site.now call channel.now encryption.now target) work.new (stops_at f)) }
{
    if !is_speech(channel) {
        turn_away(work, call, NO_RADIO_RESOURCE_AVAILABLE);
        return Ok(());
    }
    if !permits_clear(encryption) {
        turn_away(work, call, CIPHERING_ALGORITHM_NOT_SUPPORTED);
        return Ok(());
    }
    admit(work, call, rates_of(channel), own_cell(site, target))
}

/// A call is looked at; the row goes on where the book has none.
#[tactic(auto, using(crate::proofs::Asking::row_steps), unfolding(crate::specs::Procedure::once_new))]
fn ask_new<D: DeskView + Drop, A: Allocator + Copy>(
    work: &mut Work<D, A>,
    call: u16,
) -> Result<Flow, DeskFault>
    ensures goes { IfOk result (λ flow. (next : Plan) → Passes D.log D.says work.old
        (once_new call next) work.new (then next flow)) }
    ensures stops { IfErr result (λ f. (next : Plan) → Goes D.log D.says work.old
        (once_new call next) work.new (stops_at f)) }
    ensures owed { work.new.owed ≡ work.old.owed }
{
    match work.ask(Event::Look(call))? {
        Reply::Refused(Refusal::NoCall) => Ok(Flow::On),
        Reply::Done
        | Reply::Record(..)
        | Reply::Owned(_)
        | Reply::Refused(
            Refusal::CallExists
            | Refusal::WrongPhase
            | Refusal::NoChannel
            | Refusal::SameCell
            | Refusal::ChannelBusy(_)
            | Refusal::RefBusy(..)
            | Refusal::Unexpected(_)
            | Refusal::NotArmed,
        ) => Ok(Flow::Over),
    }
}

/// HANDOVER REQUEST: a call is to come from another controller, on a channel of this type, with this encryption
/// information, to this cell.
#[tactic(auto, using(crate::proofs::Asking::row_steps), unfolding(crate::specs::Procedure::request_plan))]
pub(crate) fn request<D: DeskView + Drop, A: Allocator + Copy>(
    work: &mut Work<D, A>,
    site: &Site<A>,
    call: u16,
    channel: &[u8],
    encryption: &[u8],
    target: CellId,
) -> Result<(), DeskFault>
    ensures row { OnOk result (Goes D.log D.says work.old
        (request_plan site.now call channel.now encryption.now target) work.new (At Ends)) }
    ensures stops { IfErr result (λ f. Goes D.log D.says work.old
        (request_plan site.now call channel.now encryption.now target) work.new (stops_at f)) }
{
    work.make_room(1)?;
    let Flow::On = ask_new(work, call)? else {
        return Ok(());
    };
    request_rest(work, site, call, channel, encryption, target)
}

/// A call is ordered to another controller's cell: its mobile gets what the switching centre has for it.
#[tactic(auto, using(crate::proofs::Asking::row_steps), unfolding(crate::specs::Procedure::order_channel))]
fn order_channel<D: DeskView + Drop, A: Allocator + Copy>(
    work: &mut Work<D, A>,
    call: u16,
    layer3: &[u8],
    serving: ChanId,
) -> Result<(), DeskFault>
    requires timeslot { serving.tn < 8 }
    requires some { 0 < length layer3.now }
    requires short { length layer3.now ≤ 1015 }
    ensures row { OnOk result (Goes D.log D.says work.old
        (order_channel call layer3.now serving) work.new (At Ends)) }
    ensures stops { IfErr result (λ f. Goes D.log D.says work.old
        (order_channel call layer3.now serving) work.new (stops_at f)) }
{
    work.make_unread_room(layer3.len())?;
    let Flow::On = ask_done(work, Event::Order(call))? else {
        return Ok(());
    };
    work.send_data_request(serving, layer3);
    Ok(())
}

/// HANDOVER COMMAND: the mobile of a call for which HANDOVER REQUIRED was sent is sent to another controller's cell.
#[tactic(auto, using(crate::proofs::Asking::row_steps), unfolding(crate::specs::Procedure::order_plan))]
pub(crate) fn order<D: DeskView + Drop, A: Allocator + Copy>(
    work: &mut Work<D, A>,
    call: u16,
    layer3: &[u8],
) -> Result<(), DeskFault>
    requires some { 0 < length layer3.now }
    requires short { length layer3.now ≤ 1015 }
    ensures row { OnOk result (Goes D.log D.says work.old
        (order_plan call layer3.now) work.new (At Ends)) }
    ensures stops { IfErr result (λ f. Goes D.log D.says work.old
        (order_plan call layer3.now) work.new (stops_at f)) }
{
    let Some(shown) = look(work, call)? else {
        return Ok(());
    };
    if !awaits_order(shown.record.attempt) {
        return Ok(());
    }
    let Some(serving) = shown.record.serving else {
        return Ok(());
    };
    if !is_nameable(serving) {
        return Ok(());
    }
    order_channel(work, call, layer3, serving)
}

/// HANDOVER REQUIRED REJECT: the attempt to leave for another controller's cell is taken back.
#[tactic(auto, using(crate::proofs::Asking::row_steps), unfolding(crate::specs::Procedure::reject_plan))]
pub(crate) fn reject<D: DeskView + Drop, A: Allocator + Copy>(
    work: &mut Work<D, A>,
    call: u16,
) -> Result<(), DeskFault>
    ensures row { OnOk result (Goes D.log D.says work.old
        (reject_plan call) work.new (At Ends)) }
    ensures stops { IfErr result (λ f. Goes D.log D.says work.old
        (reject_plan call) work.new (stops_at f)) }
{
    let Some(shown) = look(work, call)? else {
        return Ok(());
    };
    if awaits_order(shown.record.attempt) {
        work.ask(Event::Undo(call, Why::Asked))?;
    }
    Ok(())
}
