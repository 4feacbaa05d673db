//! Rows of the messages of mobiles.
ghost use Rattle.std.specs.Prelude.{◌≡◌, ◌≤◌, ◌<◌, ℕ, drop, List, OnOk, IfErr, IsTrue};
ghost use Rattle.ho_procedure.specs.Windows.{with_report};
ghost use Rattle.ho_procedure.specs.Plan.{Plan, Ends, At};
ghost use Rattle.ho_procedure.specs.Going.{Goes, Passes, last_reports, stops_at};
ghost use Rattle.ho_procedure.specs.Procedure.{try_plan, rank_plan, report_plan, internal_complete, incoming_complete, complete_rest, complete_plan, internal_return, tell_returned, outgoing_return, return_rest, return_plan};

use super::handovers::start;
use super::parts::{ask_done, ask_last, ask_record, look, owner, release_target};
use crate::records::{
    is_commanded, is_nameable, is_on, is_ordered, is_serving, is_target, names_target, traffic_cell,
};
use crate::view::DeskView;
use crate::work::{Flow, Work};
use bssmap_messages::causes::REVERSION_TO_OLD_CHANNEL;
use cell_table::Site;
use channel_fsm::{ChanId, Rate};
use ho_candidates::Candidate;
use radio_book::event::{Attempt, AttemptKind, Event, Why};
use radio_desk::desk::DeskFault;
use rr_elements::MeasResults;
use std::alloc::Allocator;

/// A handover starts to the first of these cells that has a channel that is free at the rate.
#[tactic(auto, using(crate::proofs::Asking::row_steps, std::proofs::lemmas::List::drop_all), unfolding(crate::specs::Procedure::try_plan))]
fn try_cells<D: DeskView + Drop, A: Allocator + Copy>(
    work: &mut Work<D, A>,
    site: &Site<A>,
    call: u16,
    rate: Rate,
    candidates: &[Candidate],
) -> Result<(), DeskFault>
    ensures row { OnOk result (Goes D.log D.says work.old
        (try_plan site.now call rate candidates.now) work.new (At Ends)) }
    ensures stops { IfErr result (λ f. Goes D.log D.says work.old
        (try_plan site.now call rate candidates.now) work.new (stops_at f)) }
{
    for candidate in candidates {
        let Flow::On = start(work, site, call, candidate.cell, rate)? else {
            return Ok(());
        };
    }
    Ok(())
}

/// A report is noted; a valid one may start a handover.
#[tactic(auto, using(crate::proofs::Asking::row_steps), unfolding(crate::specs::Procedure::rank_plan))]
fn note_report<D: DeskView + Drop, A: Allocator + Copy>(
    work: &mut Work<D, A>,
    site: &Site<A>,
    call: u16,
    chan: ChanId,
    report: &MeasResults,
    attempt: Option<Attempt>,
) -> Result<(), DeskFault>
    requires ready { IsTrue work.old.windows.is_ready }
    requires width { work.old.windows.width ≡ site.now.handover.window }
    ensures row { OnOk result (Goes D.log D.says work.old
        (rank_plan site.now call chan
        (with_report site.now.handover.window (last_reports work.old.windows call) report.now)
        report.now attempt) work.new (At Ends)) }
    ensures stops { IfErr result (λ f. Goes D.log D.says work.old
        (rank_plan site.now call chan
        (with_report site.now.handover.window (last_reports work.old.windows call) report.now)
        report.now attempt) work.new (stops_at f)) }
{
    work.note(call, report);
    if !report.head().valid || attempt.is_some() {
        return Ok(());
    }
    let candidates = work.rank(site, call, chan.cell)?;
    try_cells(work, site, call, chan.sub.rate(), candidates.as_slice())
}

/// MEASUREMENT REPORT of the mobile on a channel.
#[tactic(auto, using(crate::proofs::Asking::row_steps), unfolding(crate::specs::Procedure::report_plan))]
pub(crate) fn report<D: DeskView + Drop, A: Allocator + Copy>(
    work: &mut Work<D, A>,
    site: &Site<A>,
    chan: ChanId,
    report: &MeasResults,
) -> Result<(), DeskFault>
    requires { work.old.windows.width ≡ site.now.handover.window }
    ensures row { OnOk result (Goes D.log D.says work.old
        (report_plan site.now
        (last_reports work.old.windows) chan report.now) work.new (At Ends)) }
    ensures stops { IfErr result (λ f. Goes D.log D.says work.old
        (report_plan site.now
        (last_reports work.old.windows) chan report.now) work.new (stops_at f)) }
{
    work.make_window()?;
    let Some(call) = owner(work, Event::Owner(chan))? else {
        return Ok(());
    };
    let Some(shown) = look(work, call)? else {
        return Ok(());
    };
    if !(is_serving(chan, shown.record) && is_on(shown.state)) {
        return Ok(());
    }
    note_report(work, site, call, chan, report, shown.record.attempt)
}

/// A call is served on its target: the old channel is released.
#[tactic(auto, using(crate::proofs::Asking::row_steps))]
fn complete_internal<D: DeskView + Drop, A: Allocator + Copy>(
    work: &mut Work<D, A>,
    site: &Site<A>,
    call: u16,
    target: ChanId,
    serving: Option<ChanId>,
) -> Result<(), DeskFault>
    ensures row { OnOk result (Goes D.log D.says work.old
        (internal_complete site.now call target serving) work.new (At Ends)) }
    ensures stops { IfErr result (λ f. Goes D.log D.says work.old
        (internal_complete site.now call target serving) work.new (stops_at f)) }
{
    let Some(old) = serving else {
        return Ok(());
    };
    if !is_nameable(old) {
        return Ok(());
    }
    let Some(cell) = traffic_cell(site, target) else {
        return Ok(());
    };
    work.make_room(2)?;
    let Flow::On = ask_done(work, Event::Complete(call))? else {
        return Ok(());
    };
    work.send_release(old);
    work.send_handover_performed(call, cell);
    Ok(())
}

/// A call that came is served on its target: the switching centre is told, with the mobile's RR cause.
#[tactic(auto, using(crate::proofs::Asking::row_steps), unfolding(crate::specs::Procedure::incoming_complete))]
fn complete_incoming<D: DeskView + Drop, A: Allocator + Copy>(
    work: &mut Work<D, A>,
    call: u16,
    cause: u8,
) -> Result<(), DeskFault>
    ensures row { OnOk result (Goes D.log D.says work.old
        (incoming_complete call cause) work.new (At Ends)) }
    ensures stops { IfErr result (λ f. Goes D.log D.says work.old
        (incoming_complete call cause) work.new (stops_at f)) }
{
    work.make_room(1)?;
    let Flow::On = ask_done(work, Event::Complete(call))? else {
        return Ok(());
    };
    work.send_handover_complete(call, cause);
    Ok(())
}

/// What follows the look at a call, on a channel of which a mobile has come.
#[tactic(auto, using(crate::proofs::Asking::row_steps), unfolding(crate::specs::Procedure::complete_rest))]
fn complete_rest<D: DeskView + Drop, A: Allocator + Copy>(
    work: &mut Work<D, A>,
    site: &Site<A>,
    call: u16,
    cause: u8,
    chan: ChanId,
    serving: Option<ChanId>,
    attempt: Option<Attempt>,
) -> Result<(), DeskFault>
    ensures row { OnOk result (Goes D.log D.says work.old
        (complete_rest site.now call cause chan serving attempt) work.new (At Ends)) }
    ensures stops { IfErr result (λ f. Goes D.log D.says work.old
        (complete_rest site.now call cause chan serving attempt) work.new (stops_at f)) }
{
    let Some(attempt) = attempt else {
        return Ok(());
    };
    if !(is_target(chan, attempt.target) && is_commanded(attempt.stage)) {
        return Ok(());
    }
    match attempt.kind {
        AttemptKind::Internal => complete_internal(work, site, call, chan, serving),
        AttemptKind::Incoming => complete_incoming(work, call, cause),
        AttemptKind::Outgoing => ask_last(work, Event::Complete(call)),
    }
}

/// HANDOVER COMPLETE of the mobile on a channel, with its RR cause.
#[tactic(auto, using(crate::proofs::Asking::row_steps), unfolding(crate::specs::Procedure::complete_plan))]
pub(crate) fn complete<D: DeskView + Drop, A: Allocator + Copy>(
    work: &mut Work<D, A>,
    site: &Site<A>,
    chan: ChanId,
    cause: u8,
) -> Result<(), DeskFault>
    ensures row { OnOk result (Goes D.log D.says work.old
        (complete_plan site.now chan cause) work.new (At Ends)) }
    ensures stops { IfErr result (λ f. Goes D.log D.says work.old
        (complete_plan site.now chan cause) work.new (stops_at f)) }
{
    let Some(call) = owner(work, Event::Owner(chan))? else {
        return Ok(());
    };
    let Some(shown) = look(work, call)? else {
        return Ok(());
    };
    complete_rest(
        work,
        site,
        call,
        cause,
        chan,
        shown.record.serving,
        shown.record.attempt,
    )
}

/// The attempt of a call whose mobile is back is taken back, and its target released.
#[tactic(auto, using(crate::proofs::Asking::row_steps), unfolding(crate::specs::Procedure::internal_return, crate::specs::Procedure::take_back))]
fn return_internal<D: DeskView + Drop, A: Allocator + Copy>(
    work: &mut Work<D, A>,
    call: u16,
) -> Result<(), DeskFault>
    ensures row { OnOk result (Goes D.log D.says work.old
        (internal_return call) work.new (At Ends)) }
    ensures stops { IfErr result (λ f. Goes D.log D.says work.old
        (internal_return call) work.new (stops_at f)) }
{
    work.make_room(1)?;
    let Some(shown) = ask_record(work, Event::Undo(call, Why::Asked))? else {
        return Ok(());
    };
    let _ = release_target(work, shown.record.attempt);
    Ok(())
}

/// The switching centre is told that the mobile is back, with its RR cause.
#[tactic(auto, using(crate::proofs::Asking::row_steps), unfolding(crate::specs::Procedure::tell_returned))]
fn tell_returned<D: DeskView + Drop, A: Allocator + Copy>(
    work: &mut Work<D, A>,
    call: u16,
    cause: u8,
)
    requires { 1 ≤ work.old.owed.room }
    ensures row { Goes D.log D.says work.old (tell_returned call cause) work.new (At Ends) }
{
    work.send_handover_failure(call, REVERSION_TO_OLD_CHANNEL, Some(cause));
}

/// A mobile that was sent to another controller's cell is back on its old channel.
#[tactic(auto, using(crate::proofs::Asking::row_steps), unfolding(crate::specs::Procedure::outgoing_return))]
fn return_outgoing<D: DeskView + Drop, A: Allocator + Copy>(
    work: &mut Work<D, A>,
    call: u16,
    cause: u8,
) -> Result<(), DeskFault>
    ensures row { OnOk result (Goes D.log D.says work.old
        (outgoing_return call cause) work.new (At Ends)) }
    ensures stops { IfErr result (λ f. Goes D.log D.says work.old
        (outgoing_return call cause) work.new (stops_at f)) }
{
    work.make_room(1)?;
    let Some(_) = ask_record(work, Event::Undo(call, Why::Asked))? else {
        return Ok(());
    };
    tell_returned(work, call, cause);
    Ok(())
}

/// What follows the look at a call, whose mobile is back on its serving channel.
#[tactic(auto, using(crate::proofs::Asking::row_steps), unfolding(crate::specs::Procedure::return_rest))]
fn return_rest<D: DeskView + Drop, A: Allocator + Copy>(
    work: &mut Work<D, A>,
    call: u16,
    cause: u8,
    attempt: Option<Attempt>,
) -> Result<(), DeskFault>
    ensures row { OnOk result (Goes D.log D.says work.old
        (return_rest call cause attempt) work.new (At Ends)) }
    ensures stops { IfErr result (λ f. Goes D.log D.says work.old
        (return_rest call cause attempt) work.new (stops_at f)) }
{
    let Some(attempt) = attempt else {
        return Ok(());
    };
    match attempt.kind {
        AttemptKind::Internal => {
            if is_commanded(attempt.stage) && names_target(Some(attempt)) {
                return_internal(work, call)
            } else {
                Ok(())
            }
        }
        AttemptKind::Outgoing => {
            if is_ordered(attempt.stage) {
                return_outgoing(work, call, cause)
            } else {
                Ok(())
            }
        }
        AttemptKind::Incoming => Ok(()),
    }
}

/// HANDOVER FAILURE of the mobile on a channel, with its RR cause.
#[tactic(auto, using(crate::proofs::Asking::row_steps), unfolding(crate::specs::Procedure::return_plan))]
pub(crate) fn return_to<D: DeskView + Drop, A: Allocator + Copy>(
    work: &mut Work<D, A>,
    chan: ChanId,
    cause: u8,
) -> Result<(), DeskFault>
    ensures row { OnOk result (Goes D.log D.says work.old
        (return_plan chan cause) work.new (At Ends)) }
    ensures stops { IfErr result (λ f. Goes D.log D.says work.old
        (return_plan chan cause) work.new (stops_at f)) }
{
    let Some(call) = owner(work, Event::Owner(chan))? else {
        return Ok(());
    };
    let Some(shown) = look(work, call)? else {
        return Ok(());
    };
    if !is_serving(chan, shown.record) {
        return Ok(());
    }
    return_rest(work, call, cause, shown.record.attempt)
}
