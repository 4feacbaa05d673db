//! Calls begin and end.
ghost use Rattle.std.specs.Prelude.{◌≡◌, true, OnOk, OnErr, IfOk, Some, None, IsSome};
ghost use Rattle.channel_fsm.specs.Table.{next_state};
ghost use Rattle.std.specs.FinMap as map;
ghost use Rattle.std.specs.Option.{option_map, ForSome};
ghost use Rattle.radio_book.specs.declared.event.Event.TheVariants as event;
ghost use Rattle.cell_table.specs.Site.{is_traffic};
ghost use Rattle.radio_book.specs.State.{apply, state_of, record_of};
ghost use Rattle.channel_fsm.specs.declared.ChanState.TheVariants as state;
ghost use Rattle.radio_book.specs.Channels.{state_after};
ghost use Rattle.radio_book.specs.Sound.{IsSound};
ghost use Rattle.radio_book.specs.Table.{owner, step, reply_to, reply_of, book_after, in_way, begin_row, row, NeedsRoom, no_change, with_entry, left_state};

use crate::event::{Refusal, Reply};
use crate::records::Records;
use channel_fsm::{ChanEvent, ChanId, ChanState};
use radio_tables::CallEntry;
use radio_tables::tables::Tables;
use std::alloc::AllocError;

impl<T: Tables> Records<T> {
    pub(super) fn open(&mut self, call: u16, x: ChanId) -> Result<Reply, AllocError>
        requires { IsSound self.old }
        ensures reply { IfOk result (λ reply. reply ≡ reply_to self.old (event.Open call x)) }
        ensures book { OnOk result (self.new ≡ step self.old (event.Open call x)) }
        ensures unchanged { OnErr result (self.new ≡ self.old) }
        ensures memory { OnErr result (NeedsRoom self.old (row self.old (event.Open call x))) }
    {
        self.begin(call, x, CallEntry::beginning_on(x), ChanEvent::Begin(call))
    }

    /// A call begins with this record on a traffic channel in whose way nothing is, and which takes this step.
    #[tactic(auto, using(crate::proofs::RecordFacts::begin_is_busy, crate::proofs::RecordFacts::no_entry))]
    pub(super) fn begin(
        &mut self,
        call: u16,
        x: ChanId,
        entry: CallEntry,
        event: ChanEvent,
    ) -> Result<Reply, AllocError>
        requires sound { IsSound self.old }
        requires step { IsSome (next_state state.Free event) }
        requires timer { entry.timer ≡ None }
        ensures reply { IfOk result (λ reply. reply ≡
            reply_of (begin_row call x entry.call (state_after state.Free event) (record_of self.old call)
            (is_traffic self.old.site x) (in_way self.old x))) }
        ensures book { OnOk result (self.new ≡
            book_after (begin_row call x entry.call (state_after state.Free event) (record_of self.old call)
            (is_traffic self.old.site x) (in_way self.old x)) self.old) }
        ensures unchanged { OnErr result (self.new ≡ self.old) }
        ensures memory { OnErr result (NeedsRoom self.old
            (begin_row call x entry.call (state_after state.Free event) (record_of self.old call)
            (is_traffic self.old.site x) (in_way self.old x))) }
    {
        if self.record(call).is_some() {
            return Ok(Reply::Refused(Refusal::CallExists));
        }
        if !self.is_traffic(x) {
            return Ok(Reply::Refused(Refusal::NoChannel));
        }
        if let Some(busy) = self.in_way(x) {
            return Ok(Reply::Refused(Refusal::ChannelBusy(busy)));
        }
        self.add_call(call, x, entry, event)?;
        Ok(Reply::Done)
    }

    /// A new call, and its channel: both, or none if memory is refused.
    fn add_call(
        &mut self,
        call: u16,
        x: ChanId,
        entry: CallEntry,
        event: ChanEvent,
    ) -> Result<(), AllocError>
        requires call { record_of self.old call ≡ None }
        requires timer { entry.timer ≡ None }
        requires unarmed { map.get self.old.timers call ≡ None }
        requires traffic { is_traffic self.old.site x ≡ true }
        requires channel { map.get self.old.channels x ≡ None }
        requires step { IsSome (next_state state.Free event) }
        ensures book { OnOk result (self.new ≡ apply
            (record no_change
            { channel = with_entry x (state_after state.Free event); call = with_entry call entry.call })
            self.old) }
        ensures unchanged { OnErr result (self.new ≡ self.old) }
    {
        self.insert_call(call, entry)?;
        let occupied = self.occupy(x, event);
        if occupied.is_err() {
            self.remove_unarmed(call);
        }
        occupied
    }

    pub(super) fn clear(&mut self, call: u16) -> Reply
        requires { IsSound self.old }
        ensures reply { result ≡ reply_to self.old (event.Clear call) }
        ensures book { self.new ≡ step self.old (event.Clear call) }
    {
        let Some(record) = self.record(call) else {
            return Reply::Refused(Refusal::NoCall);
        };
        if record.attempt.is_some() {
            return Reply::Refused(Refusal::WrongPhase);
        }
        self.release_serving(call, record.serving);
        self.remove_unarmed(call);
        Reply::Done
    }

    /// A call no longer uses the channel that it is on, if it is on one.
    fn release_serving(&mut self, call: u16, serving: Option<ChanId>)
        requires { ForSome serving (λ x. owner (state_of self.old x) ≡ Some call) }
        ensures { self.new ≡ apply (record no_change
            { channel = option_map (λ x. (x, left_state (state_of self.old x))) serving }) self.old }
    {
        if let Some(x) = serving {
            self.release(call, x);
        }
    }

    /// A channel is no longer used by the call that it served.
    fn release(&mut self, call: u16, x: ChanId)
        requires { owner (state_of self.old x) ≡ Some call }
        ensures { self.new ≡ apply (record no_change
            { channel = Some (x, left_state (state_of self.old x)) }) self.old }
    {
        let state = self.state_of(x);
        match state {
            ChanState::Held(_) => self.step_from(x, state, ChanEvent::Drop),
            ChanState::Pending(_) | ChanState::On(_) => {
                self.step_from(x, state, ChanEvent::SwitchOff)
            }
            ChanState::Free | ChanState::Off => unreachable!(),
        }
    }

    pub(super) fn look(&self, call: u16) -> Reply
        ensures { result ≡ reply_to self.now (event.Look call) }
    {
        match self.record(call) {
            Some(record) => self.record_reply(record),
            None => Reply::Refused(Refusal::NoCall),
        }
    }
}
