//! Parts that several rows have.
ghost use Rattle.std.specs.Prelude.{◌≡◌, ◌≤◌, ◌+◌, ℕ, List, Option, None, true, Ok, OnOk, IfOk, IfErr};
ghost use Rattle.channel_fsm.specs.declared.ChanState.{ChanState};
ghost use Rattle.radio_tables.specs.declared.kinds.CallRecord.{CallRecord};
ghost use Rattle.ho_procedure.specs.Plan.{Plan, Ends, Asks, At, call_dropped};
ghost use Rattle.ho_procedure.specs.Going.{Goes, Passes, last_reports, then, then_of, then_shown, stops_at};
ghost use Rattle.ho_procedure.specs.Procedure.{nothing_more, once_done, once_recorded, owned, looked, release_target, turn_away, failure_of};

use crate::records::is_nameable;
use crate::view::DeskView;
use crate::work::{Flow, Shown, Work};
use bssmap_messages::causes::EQUIPMENT_FAILURE;
use radio_book::event::{Attempt, AttemptKind, Event, Reply};
use radio_desk::desk::DeskFault;
use std::alloc::Allocator;

/// The call that an event of a station concerns, where the book says so.
#[tactic(auto, using(crate::proofs::Asking::row_steps), unfolding(crate::specs::Procedure::owned))]
pub(super) fn owner<D: DeskView + Drop, A: Allocator + Copy>(
    work: &mut Work<D, A>,
    event: Event,
) -> Result<Option<u16>, DeskFault>
    ensures goes { IfOk result (λ found. (next : ℕ → Plan) → Passes D.log D.says work.old
        (owned event next) work.new (then_of next found)) }
    ensures stops { IfErr result (λ f. (next : ℕ → Plan) → Goes D.log D.says work.old
        (owned event next) work.new (stops_at f)) }
    ensures owed { work.new.owed ≡ work.old.owed }
    ensures reports { call_dropped event ≡ None → (call : ℕ) →
        last_reports work.new.windows call ≡ last_reports work.old.windows call }
    ensures width { work.new.windows.width ≡ work.old.windows.width }
    ensures ready { work.old.windows.is_ready ≡ true → work.new.windows.is_ready ≡ true }
{
    match work.ask(event)? {
        Reply::Owned(call) => Ok(Some(call)),
        Reply::Done | Reply::Record(..) | Reply::Refused(_) => Ok(None),
    }
}

/// What the book has of a call, where it has it.
#[tactic(auto, using(crate::proofs::Asking::row_steps), unfolding(crate::specs::Procedure::looked))]
pub(super) fn look<D: DeskView + Drop, A: Allocator + Copy>(
    work: &mut Work<D, A>,
    call: u16,
) -> Result<Option<Shown>, DeskFault>
    ensures goes { IfOk result (λ found. (next : CallRecord → Option ChanState → Plan) →
        Passes D.log D.says work.old (looked call next) work.new (then_shown next found)) }
    ensures stops { IfErr result (λ f. (next : CallRecord → Option ChanState → Plan) →
        Goes D.log D.says work.old (looked call next) work.new (stops_at f)) }
    ensures owed { work.new.owed ≡ work.old.owed }
    ensures reports { (other : ℕ) →
        last_reports work.new.windows other ≡ last_reports work.old.windows other }
    ensures width { work.new.windows.width ≡ work.old.windows.width }
    ensures ready { work.old.windows.is_ready ≡ true → work.new.windows.is_ready ≡ true }
{
    match work.ask(Event::Look(call))? {
        Reply::Record(record, state) => Ok(Some(Shown { record, state })),
        Reply::Done | Reply::Owned(_) | Reply::Refused(_) => Ok(None),
    }
}

/// An event is asked, and the row is over.
#[tactic(auto, using(crate::proofs::Asking::row_steps))]
pub(super) fn ask_last<D: DeskView + Drop, A: Allocator + Copy>(
    work: &mut Work<D, A>,
    event: Event,
) -> Result<(), DeskFault>
    ensures row { OnOk result (Goes D.log D.says work.old
        (Asks event nothing_more) work.new (At Ends)) }
    ensures stops { IfErr result (λ f. Goes D.log D.says work.old
        (Asks event nothing_more) work.new (stops_at f)) }
{
    work.ask(event)?;
    Ok(())
}

/// An event is asked; the row goes on where it is done.
#[tactic(auto, using(crate::proofs::Asking::row_steps), unfolding(crate::specs::Procedure::once_done))]
pub(super) fn ask_done<D: DeskView + Drop, A: Allocator + Copy>(
    work: &mut Work<D, A>,
    event: Event,
) -> Result<Flow, DeskFault>
    ensures goes { IfOk result (λ flow. (next : Plan) → Passes D.log D.says work.old
        (once_done event next) work.new (then next flow)) }
    ensures stops { IfErr result (λ f. (next : Plan) → Goes D.log D.says work.old
        (once_done event next) work.new (stops_at f)) }
    ensures owed { work.new.owed ≡ work.old.owed }
{
    match work.ask(event)? {
        Reply::Done => Ok(Flow::On),
        Reply::Record(..) | Reply::Owned(_) | Reply::Refused(_) => Ok(Flow::Over),
    }
}

/// An event is asked; the row goes on with what it says of its call.
#[tactic(auto, using(crate::proofs::Asking::row_steps), unfolding(crate::specs::Procedure::once_recorded))]
pub(super) fn ask_record<D: DeskView + Drop, A: Allocator + Copy>(
    work: &mut Work<D, A>,
    event: Event,
) -> Result<Option<Shown>, DeskFault>
    ensures goes { IfOk result (λ found. (next : CallRecord → Option ChanState → Plan) →
        Passes D.log D.says work.old (once_recorded event next) work.new
        (then_shown next found)) }
    ensures stops { IfErr result (λ f. (next : CallRecord → Option ChanState → Plan) →
        Goes D.log D.says work.old (once_recorded event next) work.new (stops_at f)) }
    ensures owed { work.new.owed ≡ work.old.owed }
{
    match work.ask(event)? {
        Reply::Record(record, state) => Ok(Some(Shown { record, state })),
        Reply::Done | Reply::Owned(_) | Reply::Refused(_) => Ok(None),
    }
}

/// The target of an attempt is released, where it may be active.
#[tactic(auto, using(crate::proofs::Asking::row_steps), unfolding(crate::specs::Procedure::release_target))]
pub(super) fn release_target<D: DeskView + Drop, A: Allocator + Copy>(
    work: &mut Work<D, A>,
    attempt: Option<Attempt>,
) -> Flow
    requires { 1 ≤ work.old.owed.room }
    ensures goes { (tail : Plan) → Passes D.log D.says work.old
        (release_target attempt tail) work.new (then tail result) }
    ensures room { work.old.owed.room ≤ work.new.owed.room + 1 }
{
    let Some(attempt) = attempt else {
        return Flow::On;
    };
    if !attempt.stage.may_be_active() {
        return Flow::On;
    }
    let Some(target) = attempt.target else {
        return Flow::Over;
    };
    if !is_nameable(target) {
        return Flow::Over;
    }
    work.send_release(target);
    Flow::On
}

/// HANDOVER FAILURE with a cause of this controller: a call can't come from another one.
#[tactic(auto, using(crate::proofs::Asking::row_steps), unfolding(crate::specs::Procedure::turn_away))]
pub(super) fn turn_away<D: DeskView + Drop, A: Allocator + Copy>(
    work: &mut Work<D, A>,
    call: u16,
    cause: u8,
)
    requires { 1 ≤ work.old.owed.room }
    ensures row { Goes D.log D.says work.old (turn_away call cause) work.new (At Ends) }
{
    work.send_handover_failure(call, cause, None);
}

/// The switching centre is told that an attempt to come from another controller was taken back.
#[tactic(auto, using(crate::proofs::Asking::row_steps))]
pub(super) fn tell_failure<D: DeskView + Drop, A: Allocator + Copy>(
    work: &mut Work<D, A>,
    call: u16,
    attempt: Option<Attempt>,
)
    requires { 1 ≤ work.old.owed.room }
    ensures row { Goes D.log D.says work.old (failure_of call attempt) work.new (At Ends) }
{
    let Some(attempt) = attempt else {
        return;
    };
    match attempt.kind {
        AttemptKind::Incoming => turn_away(work, call, EQUIPMENT_FAILURE),
        AttemptKind::Internal | AttemptKind::Outgoing => {}
    }
}
