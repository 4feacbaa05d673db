//! An attempt that is followed along a list of steps, one step after another: how far it has come, which steps stay
//! without it, and which of these were refused for what it holds.
ghost use Rattle.std.specs.Prelude.{◌≡◌, ◌&&◌, not};
ghost use Rattle.radio_tables.specs.Stages.{stage_row};
ghost use Rattle.radio_book.specs.Table.{reference_held};
ghost use Rattle.radio_book.specs.Undone.{is_call, is_channel, is_reference, is_by_call, is_on_target, reserves, releases, comes_from};
ghost use Rattle.radio_book.specs.Found.{ends};
ghost use Rattle.radio_book.specs.Following.{may_be_active, leaves_off, stays, refused_in, holds, number_with, ended_with, after, opening_of, is_over, is_settled_in, is_undone_in};

use crate::event::{Attempt, Reference, Refusal, Reply};
use crate::facts::facts_of;
use crate::kinds::refusal_of;
use crate::undone::StepAt;
use channel_fsm::ChanId;

/// How far an attempt has come.
#[derive(Clone, Copy, Debug, PartialEq, Eq)]
pub enum Phase {
    /// It is open; this is the number of its reference, 0 to 255, once it has reserved one.
    Open(Option<u8>),
    /// It was taken back, and the release of its target is awaited.
    Awaiting,
    /// It was taken back, and nothing of it is left.
    Settled,
    /// It was completed, or its call has left.
    Completed,
}

/// An attempt that opened in a list of steps, and how far it has come after some of them.
#[derive(Clone, Copy, Debug, PartialEq, Eq)]
pub struct Followed {
    /// Whose it is.
    pub call: u16,
    /// The channel that it took. `None` if it is another controller's.
    pub target: Option<ChanId>,
    /// How far it has come.
    pub phase: Phase,
}

pub(crate) fn is_call(call: u16, named: Option<u16>) -> bool
    ensures { result ≡ is_call call named }
{
    match named {
        Some(named) => named == call,
        None => false,
    }
}

fn is_channel(target: Option<ChanId>, named: Option<ChanId>) -> bool
    ensures { result ≡ is_channel target named }
{
    match (target, named) {
        (Some(target), Some(named)) => named == target,
        (Some(_), None) | (None, _) => false,
    }
}

fn is_reference(held: Option<Reference>, named: Option<Reference>) -> bool
    ensures { result ≡ is_reference held named }
{
    match (held, named) {
        (Some(held), Some(named)) => named.cell == held.cell && named.number == held.number,
        (Some(_), None) | (None, _) => false,
    }
}

/// An attempt of the call ends with this step.
fn ends(call: u16, step: &StepAt) -> bool
    ensures { result ≡ ends call step.now }
{
    is_call(call, facts_of(step.event).ends) && refusal_of(step.reply).is_none()
}

fn is_by_call(call: u16, step: &StepAt) -> bool
    ensures { result ≡ is_by_call call step.now }
{
    is_call(call, facts_of(step.event).about.call())
}

/// The attempt of the call reserves a reference with this step.
fn reserves(call: u16, step: &StepAt) -> bool
    ensures { result ≡ reserves call step.now }
{
    is_by_call(call, step)
        && facts_of(step.event).reserves.is_some()
        && refusal_of(step.reply).is_none()
}

fn is_on_target(target: Option<ChanId>, step: &StepAt) -> bool
    ensures { result ≡ is_on_target target step.now }
{
    is_channel(target, facts_of(step.event).about.channel())
}

fn releases(target: Option<ChanId>, step: &StepAt) -> bool
    ensures { result ≡ releases target step.now }
{
    is_channel(target, facts_of(step.event).releases)
}

/// The refusal comes from the target, or from the reference.
fn comes_from(
    target: Option<ChanId>,
    reference: Option<Reference>,
    refusal: Option<Refusal>,
) -> bool
    ensures { result ≡ comes_from target reference refusal }
{
    match refusal {
        Some(Refusal::ChannelBusy(x)) => is_channel(target, Some(x)),
        Some(Refusal::RefBusy(cell, number)) => {
            is_reference(reference, Some(Reference { cell, number }))
        }
        Some(
            Refusal::NoCall
            | Refusal::CallExists
            | Refusal::WrongPhase
            | Refusal::NoChannel
            | Refusal::SameCell
            | Refusal::Unexpected(_)
            | Refusal::NotArmed,
        )
        | None => false,
    }
}

/// The reference with a number in the cell of the target.
fn reference_held(target: Option<ChanId>, number: Option<u8>) -> Option<Reference>
    ensures { result ≡ reference_held target number }
{
    match (target, number) {
        (Some(target), Some(number)) => Some(Reference {
            cell: target.cell,
            number,
        }),
        (Some(_), None) | (None, _) => None,
    }
}

/// The station may have activated the target of the attempt, if there is one.
fn may_be_active(attempt: Option<Attempt>) -> bool
    ensures { result ≡ may_be_active attempt }
{
    match attempt {
        Some(attempt) => attempt.stage.may_be_active(),
        None => false,
    }
}

/// The undo that is answered so left its target off.
fn leaves_off(reply: Reply) -> bool
    ensures { result ≡ leaves_off reply }
{
    match reply {
        Reply::Record(record, _) => may_be_active(record.attempt),
        Reply::Done | Reply::Owned(_) | Reply::Refused(_) => false,
    }
}

/// The number of the call's reference, that of the first step that reserves one.
fn number_with(call: u16, number: Option<u8>, step: &StepAt) -> Option<u8>
    ensures { result ≡ number_with call number step.now }
{
    match number {
        Some(number) => Some(number),
        None => {
            if reserves(call, step) {
                facts_of(step.event).reserves
            } else {
                None
            }
        }
    }
}

/// How far an attempt has come with the step that ends it.
fn ended_with(step: &StepAt) -> Phase
    ensures { result ≡ ended_with step.now }
{
    if facts_of(step.event).undoes.is_none() {
        return Phase::Completed;
    }
    if leaves_off(step.reply) {
        Phase::Awaiting
    } else {
        Phase::Settled
    }
}

impl Followed {
    /// The step stays without the attempt: it is none of the attempt's own, and no station's about its target.
    pub fn stays(&self, step: &StepAt) -> bool
        ensures stays { result ≡ stays self.now step.now }
    {
        match self.phase {
            Phase::Open(_) => !is_by_call(self.call, step) && !is_on_target(self.target, step),
            Phase::Awaiting => !is_on_target(self.target, step),
            Phase::Settled | Phase::Completed => true,
        }
    }

    /// The step was refused for the target, or for the reference, that the attempt holds.
    fn refused(&self, step: &StepAt) -> bool
        ensures { result ≡ refused_in self.now.phase self.now.target step.now }
    {
        let refusal = refusal_of(step.reply);
        match self.phase {
            Phase::Open(number) => comes_from(
                self.target,
                reference_held(self.target, number),
                refusal,
            ),
            Phase::Awaiting => comes_from(self.target, None, refusal),
            Phase::Settled | Phase::Completed => false,
        }
    }

    /// The step stays, and was refused for what the attempt holds.
    pub fn holds(&self, step: &StepAt) -> bool
        ensures holds { result ≡ holds self.now step.now }
    {
        self.stays(step) && self.refused(step)
    }

    fn phase_after(&self, step: &StepAt) -> Phase
        ensures { result ≡ (after self.now step.now).phase }
    {
        match self.phase {
            Phase::Open(number) => {
                if ends(self.call, step) {
                    ended_with(step)
                } else {
                    Phase::Open(number_with(self.call, number, step))
                }
            }
            Phase::Awaiting => {
                if releases(self.target, step) {
                    Phase::Settled
                } else {
                    Phase::Awaiting
                }
            }
            Phase::Settled => Phase::Settled,
            Phase::Completed => Phase::Completed,
        }
    }

    /// The attempt after the step.
    pub fn after(&self, step: &StepAt) -> Followed
        ensures after { result ≡ after self.now step.now }
    {
        Followed {
            call: self.call,
            target: self.target,
            phase: self.phase_after(step),
        }
    }

    /// No step changes what is said of it any more: it was taken back and nothing of it is left, or it ended otherwise.
    pub fn is_over(&self) -> bool
        ensures over { result ≡ is_over self.now }
    {
        match self.phase {
            Phase::Open(_) | Phase::Awaiting => false,
            Phase::Settled | Phase::Completed => true,
        }
    }

    /// It was taken back, and nothing of it is left.
    pub fn is_settled(&self) -> bool
        ensures settled { result ≡ is_settled_in self.now.phase }
    {
        match self.phase {
            Phase::Settled => true,
            Phase::Open(_) | Phase::Awaiting | Phase::Completed => false,
        }
    }

    /// It was taken back.
    pub fn is_undone(&self) -> bool
        ensures undone { result ≡ is_undone_in self.now.phase }
    {
        match self.phase {
            Phase::Awaiting | Phase::Settled => true,
            Phase::Open(_) | Phase::Completed => false,
        }
    }
}

/// The attempt that opens with the step, at its beginning. `None` if none does.
pub fn opening_of(step: &StepAt) -> Option<Followed>
    ensures opening { result ≡ opening_of step.now }
{
    if refusal_of(step.reply).is_some() {
        return None;
    }
    let (call, target) = facts_of(step.event).opens?;
    Some(Followed {
        call,
        target,
        phase: Phase::Open(None),
    })
}
