//! Rows that begin and end a call.
ghost use Rattle.std.specs.Prelude.{◌≡◌, ◌≤◌, ◌<◌, ◌+◌, ℕ, Ok, IfOk, OnOk, IfErr, Option, Some, None};
ghost use Rattle.ho_procedure.specs.Plan.{Plan, Ends, At};
ghost use Rattle.ho_procedure.specs.Going.{Goes, Passes, then, stops_at};
ghost use Rattle.ho_procedure.specs.Procedure.{opened_plan, open_plan, seized_plan, seize_plan, told_cause, told_first, told_count, release_serving, clear_all, clear_rest, clear_plan, left_plan, clear_command_rest, clear_command_plan, release_cause};

use super::parts::{ask_done, ask_record, look, release_target};
use crate::records::{awaits_leaving, is_held, is_nameable, is_on, is_own, names_releases};
use crate::view::DeskView;
use crate::work::{Flow, Shown, Work};
use bssmap_messages::causes::CALL_CONTROL;
use channel_fsm::{ChanId, ChanState, Rate};
use radio_book::event::{Event, Refusal, Reply, Why};
use radio_desk::desk::DeskFault;
use rr_elements::{ABNORMAL_RELEASE, NORMAL_EVENT};
use std::alloc::Allocator;

/// The channel of a call that begins is activated.
#[tactic(auto, using(crate::proofs::Asking::row_steps), unfolding(crate::specs::Procedure::opened_plan))]
fn activate<D: DeskView + Drop, A: Allocator + Copy>(work: &mut Work<D, A>, chan: ChanId)
    requires { 1 ≤ work.old.owed.room }
    ensures row { Goes D.log D.says work.old (opened_plan chan) work.new (At Ends) }
{
    if is_nameable(chan) {
        work.send_activation(chan);
    }
}

/// A call begins on a channel, which is activated.
#[tactic(auto, using(crate::proofs::Asking::row_steps), unfolding(crate::specs::Procedure::open_plan))]
pub(crate) fn open<D: DeskView + Drop, A: Allocator + Copy>(
    work: &mut Work<D, A>,
    call: u16,
    chan: ChanId,
) -> Result<(), DeskFault>
    ensures row { OnOk result (Goes D.log D.says work.old
        (open_plan call chan) work.new (At Ends)) }
    ensures stops { IfErr result (λ f. Goes D.log D.says work.old
        (open_plan call chan) work.new (stops_at f)) }
{
    work.make_room(1)?;
    let Flow::On = ask_done(work, Event::Open(call, chan))? else {
        return Ok(());
    };
    activate(work, chan);
    Ok(())
}

/// What follows the choice of a channel for a call that begins: it is activated.
#[tactic(auto, using(crate::proofs::Asking::row_steps), unfolding(crate::specs::Procedure::seized_plan))]
fn go_on_seized<D: DeskView + Drop, A: Allocator + Copy>(
    work: &mut Work<D, A>,
    chan: ChanId,
    reply: Reply,
)
    requires { 1 ≤ work.old.owed.room }
    ensures row { Goes D.log D.says work.old (seized_plan chan reply) work.new (At Ends) }
{
    match reply {
        Reply::Done => activate(work, chan),
        Reply::Record(..) | Reply::Owned(_) | Reply::Refused(_) => {}
    }
}

/// A call begins on some free channel of a cell, which is activated.
#[tactic(auto, using(crate::proofs::Asking::row_steps), unfolding(crate::specs::Procedure::seize_plan))]
pub(crate) fn seize<D: DeskView + Drop, A: Allocator + Copy>(
    work: &mut Work<D, A>,
    call: u16,
    cell: u8,
    rate: Rate,
) -> Result<(), DeskFault>
    ensures row { OnOk result (Goes D.log D.says work.old
        (seize_plan call cell rate) work.new (At Ends)) }
    ensures stops { IfErr result (λ f. Goes D.log D.says work.old
        (seize_plan call cell rate) work.new (stops_at f)) }
{
    work.make_room(1)?;
    let Some((chan, reply)) = work.seize(call, cell, rate)? else {
        return Ok(());
    };
    go_on_seized(work, chan, reply);
    Ok(())
}

/// Where there is a cause, the mobile is told.
#[tactic(auto, using(crate::proofs::Asking::row_steps))]
fn tell_first<D: DeskView + Drop, A: Allocator + Copy>(
    work: &mut Work<D, A>,
    cause: Option<u8>,
    chan: ChanId,
)
    requires room { told_count cause ≤ work.old.owed.room }
    requires timeslot { chan.tn < 8 }
    ensures goes { (tail : Plan) → Passes D.log D.says work.old
        (told_first cause chan tail) work.new tail }
    ensures room { work.old.owed.room ≤ work.new.owed.room + told_count cause }
{
    let Some(cause) = cause else {
        return;
    };
    work.send_channel_release(chan, cause);
}

/// The cause that a mobile is told, where it is on.
fn told_cause(cause: Option<u8>, state: Option<ChanState>) -> Option<u8>
    ensures cause { result ≡ told_cause cause state }
    ensures count { told_count result ≤ told_count cause }
{
    if is_on(state) { cause } else { None }
}

/// The serving channel is released, unless it is held; a mobile that is on is told why.
#[tactic(auto, using(crate::proofs::Asking::row_steps), unfolding(crate::specs::Procedure::release_serving))]
fn release_serving<D: DeskView + Drop, A: Allocator + Copy>(
    work: &mut Work<D, A>,
    cause: Option<u8>,
    shown: Shown,
) -> Flow
    requires { told_count cause + 1 ≤ work.old.owed.room }
    ensures goes { (tail : Plan) → Passes D.log D.says work.old
        (release_serving cause shown.record shown.state tail) work.new (then tail result) }
    ensures room { work.old.owed.room ≤ work.new.owed.room + (told_count cause + 1) }
{
    if is_held(shown.state) {
        return Flow::On;
    }
    let Some(chan) = shown.record.serving else {
        return Flow::Over;
    };
    if !is_nameable(chan) {
        return Flow::Over;
    }
    tell_first(work, told_cause(cause, shown.state), chan);
    work.send_release(chan);
    Flow::On
}

/// The target is released, where it may be active. Where a record remains, the call is cleared, and its serving channel
/// released.
#[tactic(auto, using(crate::proofs::Asking::row_steps), unfolding(crate::specs::Procedure::clear_all))]
fn clear_all<D: DeskView + Drop, A: Allocator + Copy>(
    work: &mut Work<D, A>,
    call: u16,
    cause: Option<u8>,
    shown: Shown,
) -> Result<Flow, DeskFault>
    requires { told_count cause + 2 ≤ work.old.owed.room }
    ensures goes { IfOk result (λ flow. (tail : Plan) → Passes D.log D.says work.old
        (clear_all call cause tail shown.record shown.state) work.new (then tail flow)) }
    ensures stops { IfErr result (λ f. (tail : Plan) → Goes D.log D.says work.old
        (clear_all call cause tail shown.record shown.state) work.new (stops_at f)) }
    ensures room { result ≡ Ok Flow.On →
        work.old.owed.room ≤ work.new.owed.room + (told_count cause + 2) }
{
    if !names_releases(shown) {
        return Ok(Flow::Over);
    }
    let Flow::On = release_target(work, shown.record.attempt) else {
        return Ok(Flow::Over);
    };
    if !is_own(shown.record.attempt) {
        return Ok(Flow::On);
    }
    let Flow::On = ask_done(work, Event::Clear(call))? else {
        return Ok(Flow::Over);
    };
    Ok(release_serving(work, cause, shown))
}

/// What follows the look at a call that is cleared: an attempt that is open is taken back first.
#[tactic(auto, using(crate::proofs::Asking::row_steps), unfolding(crate::specs::Procedure::clear_rest))]
fn clear_rest<D: DeskView + Drop, A: Allocator + Copy>(
    work: &mut Work<D, A>,
    call: u16,
    cause: Option<u8>,
    shown: Shown,
) -> Result<Flow, DeskFault>
    requires { told_count cause + 2 ≤ work.old.owed.room }
    ensures goes { IfOk result (λ flow. (tail : Plan) → Passes D.log D.says work.old
        (clear_rest call cause tail shown.record shown.state) work.new (then tail flow)) }
    ensures stops { IfErr result (λ f. (tail : Plan) → Goes D.log D.says work.old
        (clear_rest call cause tail shown.record shown.state) work.new (stops_at f)) }
    ensures room { result ≡ Ok Flow.On →
        work.old.owed.room ≤ work.new.owed.room + (told_count cause + 2) }
{
    if !names_releases(shown) {
        return Ok(Flow::Over);
    }
    if shown.record.attempt.is_none() {
        return clear_all(work, call, cause, shown);
    }
    let Some(before) = ask_record(work, Event::Undo(call, Why::Asked))? else {
        return Ok(Flow::Over);
    };
    clear_all(work, call, cause, before)
}

/// A call ends.
#[tactic(auto, using(crate::proofs::Asking::row_steps), unfolding(crate::specs::Procedure::clear_plan))]
pub(crate) fn clear<D: DeskView + Drop, A: Allocator + Copy>(
    work: &mut Work<D, A>,
    call: u16,
) -> Result<(), DeskFault>
    ensures row { OnOk result (Goes D.log D.says work.old
        (clear_plan call) work.new (At Ends)) }
    ensures stops { IfErr result (λ f. Goes D.log D.says work.old
        (clear_plan call) work.new (stops_at f)) }
{
    work.make_room(2)?;
    let Some(shown) = look(work, call)? else {
        return Ok(());
    };
    let _ = clear_rest(work, call, None, shown)?;
    Ok(())
}

/// The RR cause of a CHANNEL RELEASE (TS 44.018 clause 10.5.2.31) by the cause of a CLEAR COMMAND (TS 48.008 clause
/// 3.2.2.5): normal event for call control, else abnormal release.
fn release_cause(cause: u8) -> u8
    ensures { result ≡ release_cause cause }
{
    if cause == CALL_CONTROL {
        NORMAL_EVENT
    } else {
        ABNORMAL_RELEASE
    }
}

/// A call has left: its channel is released, and CLEAR COMPLETE says so.
#[tactic(auto, using(crate::proofs::Asking::row_steps), unfolding(crate::specs::Procedure::left_plan))]
fn leave<D: DeskView + Drop, A: Allocator + Copy>(
    work: &mut Work<D, A>,
    call: u16,
    serving: Option<ChanId>,
) -> Result<(), DeskFault>
    requires { 2 ≤ work.old.owed.room }
    ensures row { OnOk result (Goes D.log D.says work.old
        (left_plan call serving) work.new (At Ends)) }
    ensures stops { IfErr result (λ f. Goes D.log D.says work.old
        (left_plan call serving) work.new (stops_at f)) }
{
    let Some(serving) = serving else {
        return Ok(());
    };
    if !is_nameable(serving) {
        return Ok(());
    }
    let Flow::On = ask_done(work, Event::Left(call))? else {
        return Ok(());
    };
    work.send_release(serving);
    work.send_clear_complete(call);
    Ok(())
}

/// What follows the look of a CLEAR COMMAND.
#[tactic(auto, using(crate::proofs::Asking::row_steps), unfolding(crate::specs::Procedure::clear_command_rest))]
fn clear_command_rest<D: DeskView + Drop, A: Allocator + Copy>(
    work: &mut Work<D, A>,
    call: u16,
    cause: u8,
    reply: Reply,
) -> Result<(), DeskFault>
    requires { 4 ≤ work.old.owed.room }
    ensures row { OnOk result (Goes D.log D.says work.old
        (clear_command_rest call cause reply) work.new (At Ends)) }
    ensures stops { IfErr result (λ f. Goes D.log D.says work.old
        (clear_command_rest call cause reply) work.new (stops_at f)) }
{
    match reply {
        Reply::Record(record, state) => {
            if awaits_leaving(record.attempt) {
                return leave(work, call, record.serving);
            }
            let told = Some(release_cause(cause));
            let Flow::On = clear_rest(work, call, told, Shown { record, state })? else {
                return Ok(());
            };
            work.send_clear_complete(call);
            Ok(())
        }
        Reply::Refused(Refusal::NoCall) => {
            work.send_clear_complete(call);
            Ok(())
        }
        Reply::Done
        | Reply::Owned(_)
        | Reply::Refused(
            Refusal::CallExists
            | Refusal::WrongPhase
            | Refusal::NoChannel
            | Refusal::SameCell
            | Refusal::ChannelBusy(_)
            | Refusal::RefBusy(..)
            | Refusal::Unexpected(_)
            | Refusal::NotArmed,
        ) => Ok(()),
    }
}

/// CLEAR COMMAND: a call ends, and CLEAR COMPLETE says so.
#[tactic(auto, using(crate::proofs::Asking::row_steps), unfolding(crate::specs::Procedure::clear_command_plan))]
pub(crate) fn clear_command<D: DeskView + Drop, A: Allocator + Copy>(
    work: &mut Work<D, A>,
    call: u16,
    cause: u8,
) -> Result<(), DeskFault>
    ensures row { OnOk result (Goes D.log D.says work.old
        (clear_command_plan call cause) work.new (At Ends)) }
    ensures stops { IfErr result (λ f. Goes D.log D.says work.old
        (clear_command_plan call cause) work.new (stops_at f)) }
{
    work.make_room(4)?;
    let reply = work.ask(Event::Look(call))?;
    clear_command_rest(work, call, cause, reply)
}
