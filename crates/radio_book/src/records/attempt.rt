//! An attempt takes its steps.
ghost use Rattle.std.specs.Prelude.{◌≡◌, true, OnOk, OnErr, IfOk, None};
ghost use Rattle.std.specs.Option.{option_map};
ghost use Rattle.radio_book.specs.declared.event.Kind.TheVariants as kind;
ghost use Rattle.radio_book.specs.declared.event.Event.TheVariants as event;
ghost use Rattle.channel_fsm.specs.declared.ChanState.TheVariants as state;
ghost use Rattle.radio_book.specs.State.{apply, state_of};
ghost use Rattle.radio_book.specs.Sound.{IsSound};
ghost use Rattle.radio_book.specs.Table.{step, reply_to, row, NeedsRoom, reference_at, reference_held, no_change, with_entry};

use crate::event::{Attempt, Reference, Refusal, Reply, Stage};
use crate::records::Records;
use channel_fsm::{ChanEvent, ChanId, ChanState};
use radio_tables::CallEntry;
use radio_tables::tables::Tables;
use std::alloc::AllocError;

impl<T: Tables> Records<T> {
    #[tactic(auto, using(crate::proofs::RecordFacts::no_entry))]
    pub(super) fn take_internal(&mut self, call: u16, x: ChanId) -> Result<Reply, AllocError>
        requires { IsSound self.old }
        ensures reply { IfOk result (λ reply. reply ≡
            reply_to self.old (event.Take call kind.Internal x)) }
        ensures book { OnOk result (self.new ≡ step self.old (event.Take call kind.Internal x)) }
        ensures unchanged { OnErr result (self.new ≡ self.old) }
        ensures memory { OnErr result (NeedsRoom self.old
            (row self.old (event.Take call kind.Internal x))) }
        ensures in_place { OnErr result (T.may_refuse_in_place ≡ true) }
    {
        let Some(mut entry) = self.entry(call) else {
            return Ok(Reply::Refused(Refusal::NoCall));
        };
        let record = entry.record();
        if record.attempt.is_some() {
            return Ok(Reply::Refused(Refusal::WrongPhase));
        }
        let Some(serving) = record.serving else {
            return Ok(Reply::Refused(Refusal::WrongPhase));
        };
        if !matches!(self.state_of(serving), ChanState::On(_)) {
            return Ok(Reply::Refused(Refusal::WrongPhase));
        }
        if !self.is_traffic(x) {
            return Ok(Reply::Refused(Refusal::NoChannel));
        }
        if serving.cell == x.cell {
            return Ok(Reply::Refused(Refusal::SameCell));
        }
        if let Some(busy) = self.in_way(x) {
            return Ok(Reply::Refused(Refusal::ChannelBusy(busy)));
        }
        self.occupy(x, ChanEvent::Take(call))?;
        entry.take(x);
        self.set_record(call, entry);
        Ok(Reply::Done)
    }

    pub(super) fn take_incoming(&mut self, call: u16, x: ChanId) -> Result<Reply, AllocError>
        requires { IsSound self.old }
        ensures reply { IfOk result (λ reply. reply ≡
            reply_to self.old (event.Take call kind.Incoming x)) }
        ensures book { OnOk result (self.new ≡ step self.old (event.Take call kind.Incoming x)) }
        ensures unchanged { OnErr result (self.new ≡ self.old) }
        ensures memory { OnErr result (NeedsRoom self.old
            (row self.old (event.Take call kind.Incoming x))) }
    {
        self.begin(call, x, CallEntry::coming_to(x), ChanEvent::Take(call))
    }

    pub(super) fn reserve(&mut self, call: u16, number: u8) -> Result<Reply, AllocError>
        requires { IsSound self.old }
        ensures reply { IfOk result (λ reply. reply ≡
            reply_to self.old (event.Reserve call number)) }
        ensures book { OnOk result (self.new ≡ step self.old (event.Reserve call number)) }
        ensures unchanged { OnErr result (self.new ≡ self.old) }
        ensures memory { OnErr result (NeedsRoom self.old
            (row self.old (event.Reserve call number))) }
        ensures in_place { OnErr result (T.may_refuse_in_place ≡ true) }
    {
        let Some(mut entry) = self.entry(call) else {
            return Ok(Reply::Refused(Refusal::NoCall));
        };
        let Some(attempt) = entry.record().attempt else {
            return Ok(Reply::Refused(Refusal::WrongPhase));
        };
        let Stage::Taken = attempt.stage else {
            return Ok(Reply::Refused(Refusal::WrongPhase));
        };
        let Some(target) = attempt.target else {
            return Ok(Reply::Refused(Refusal::WrongPhase));
        };
        let reference = reference_at(target, number);
        if self.user(reference).is_some() {
            return Ok(Reply::Refused(Refusal::RefBusy(target.cell, number)));
        }
        self.use_reference(reference, call)?;
        entry.reserve(attempt, number);
        self.set_record(call, entry);
        Ok(Reply::Done)
    }

    pub(super) fn activate(&mut self, call: u16) -> Reply
        requires { IsSound self.old }
        ensures reply { result ≡ reply_to self.old (event.Activate call) }
        ensures book { self.new ≡ step self.old (event.Activate call) }
    {
        let Some(mut entry) = self.entry(call) else {
            return Reply::Refused(Refusal::NoCall);
        };
        let Some(attempt) = entry.record().attempt else {
            return Reply::Refused(Refusal::WrongPhase);
        };
        let Stage::Reserved = attempt.stage else {
            return Reply::Refused(Refusal::WrongPhase);
        };
        let Some(target) = attempt.target else {
            return Reply::Refused(Refusal::WrongPhase);
        };
        entry.activate(attempt, target);
        self.set_record(call, entry);
        self.send(call, target);
        Reply::Done
    }

    pub(super) fn command(&mut self, call: u16) -> Reply
        ensures reply { result ≡ reply_to self.old (event.Command call) }
        ensures book { self.new ≡ step self.old (event.Command call) }
    {
        let Some(mut entry) = self.entry(call) else {
            return Reply::Refused(Refusal::NoCall);
        };
        let Some(attempt) = entry.record().attempt else {
            return Reply::Refused(Refusal::WrongPhase);
        };
        let Stage::Confirmed = attempt.stage else {
            return Reply::Refused(Refusal::WrongPhase);
        };
        entry.command(attempt);
        self.set_entry(call, entry);
        Reply::Done
    }

    pub(super) fn complete(&mut self, call: u16) -> Reply
        requires { IsSound self.old }
        ensures reply { result ≡ reply_to self.old (event.Complete call) }
        ensures book { self.new ≡ step self.old (event.Complete call) }
    {
        let Some(mut entry) = self.entry(call) else {
            return Reply::Refused(Refusal::NoCall);
        };
        let record = entry.record();
        let Some(attempt) = record.attempt else {
            return Reply::Refused(Refusal::WrongPhase);
        };
        let (Stage::Commanded | Stage::Detected) = attempt.stage else {
            return Reply::Refused(Refusal::WrongPhase);
        };
        entry.complete(attempt.target);
        self.set_entry(call, entry);
        self.switch_off_serving(call, record.serving);
        self.free_reference_of(attempt);
        Reply::Done
    }

    /// The reference of an attempt, if it has one, is no longer in use.
    fn free_reference_of(&mut self, attempt: Attempt)
        ensures { self.new ≡ apply (record no_change
            { reference = option_map (λ k. (k, None)) (reference_held attempt.target attempt.reference) })
            self.old }
    {
        if let (Some(target), Some(number)) = (attempt.target, attempt.reference) {
            self.free_reference(reference_at(target, number));
        }
    }

    /// A held channel of the call is asked for.
    fn send(&mut self, call: u16, x: ChanId)
        requires { state_of self.old x ≡ state.Held call }
        ensures { self.new ≡ apply
            (record no_change { channel = with_entry x (state.Pending call) }) self.old }
    {
        self.step_from(x, ChanState::Held(call), ChanEvent::Send(call));
    }
}

/// The reference with a number in the cell of a channel.
pub(super) fn reference_at(x: ChanId, number: u8) -> Reference
    ensures { result ≡ reference_at x number }
{
    Reference {
        cell: x.cell,
        number,
    }
}
