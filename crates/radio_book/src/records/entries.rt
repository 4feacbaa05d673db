//! What stands in the tables at one place, read and changed.
ghost use Rattle.std.specs.Prelude.{◌≡◌, ◌≢◌, ◌<◌, ◌&&◌, true, length, Some, None, OnOk, OnErr, IfSome, IsSome};
ghost use Rattle.std.specs.FinMap as map;
ghost use Rattle.std.specs.Option.{option_map};
ghost use Rattle.cell_table.specs.Site.{TrafficLiesWithin, is_traffic};
ghost use Rattle.channel_fsm.specs.declared.ChanState.TheVariants as chan;
ghost use Rattle.radio_tables.specs.State.{with_kept};
ghost use Rattle.radio_book.specs.State.{apply, state_of, record_of};
ghost use Rattle.radio_book.specs.Sound.{IsSound};
ghost use Rattle.channel_fsm.specs.Slots.{is_used};
ghost use Rattle.timeslots.specs.Parts.{needs};
ghost use Rattle.radio_book.specs.Table.{in_way, no_change, with_entry, without_entry};

use crate::event::{CallRecord, Reference, Timer};
use crate::records::Records;
use channel_fsm::{ChanId, ChanState, Sub};
use radio_tables::CallEntry;
use radio_tables::tables::Tables;
use std::alloc::AllocError;

impl<T: Tables> Records<T> {
    /// The number of the site's own cells. Its contract also says where the site's traffic channels lie.
    pub(super) fn cells(&self) -> u8
        ensures value { result ≡ length self.now.site.cells }
        ensures traffic { TrafficLiesWithin self.now.site }
    {
        self.tables.cells()
    }

    pub(super) fn is_traffic(&self, x: ChanId) -> bool
        ensures { result ≡ is_traffic self.now.site x }
    {
        self.tables.is_traffic(x)
    }

    /// The state of a channel in use.
    pub(super) fn channel(&self, x: ChanId) -> Option<ChanState>
        ensures { result ≡ map.get self.now.channels x }
    {
        self.tables.channel(x)
    }

    /// The state of a channel; one that isn't in use has that of a free one.
    pub(crate) fn state_of(&self, x: ChanId) -> ChanState
        ensures { result ≡ state_of self.now x }
    {
        self.channel(x).unwrap_or(ChanState::Free)
    }

    /// Whether a part of a channel's timeslot is in its way.
    fn is_in_way(&self, x: ChanId, sub: Sub) -> bool
        ensures { result ≡ (needs x.sub sub && is_used (state_of self.now (record x { sub = sub }))) }
    {
        x.sub.needs(sub) && self.state_of(x.part(sub)).is_used()
    }

    /// The first channel in the way of one, the whole timeslot before its halves: that one, or what conflicts with it.
    pub(super) fn in_way(&self, x: ChanId) -> Option<ChanId>
        ensures { result ≡ in_way self.now x }
    {
        if self.is_in_way(x, Sub::Full) {
            return Some(x.part(Sub::Full));
        }
        if self.is_in_way(x, Sub::Half0) {
            return Some(x.part(Sub::Half0));
        }
        if self.is_in_way(x, Sub::Half1) {
            return Some(x.part(Sub::Half1));
        }
        None
    }

    /// A free traffic channel comes into use.
    pub(super) fn use_channel(&mut self, x: ChanId, busy: ChanState) -> Result<(), AllocError>
        requires traffic { is_traffic self.old.site x ≡ true }
        requires free { map.get self.old.channels x ≡ None }
        requires busy { busy ≢ chan.Free }
        ensures ok { OnOk result
            (self.new ≡ apply (record no_change { channel = with_entry x busy }) self.old) }
        ensures err { OnErr result (self.new ≡ self.old) }
        ensures in_place { OnErr result (T.may_refuse_in_place ≡ true) }
    {
        self.tables.occupy(x, busy)
    }

    /// A channel in use comes to another state of use.
    pub(super) fn move_channel(&mut self, x: ChanId, busy: ChanState)
        requires used { IsSome (map.get self.old.channels x) }
        requires busy { busy ≢ chan.Free }
        ensures { self.new ≡ apply (record no_change { channel = with_entry x busy }) self.old }
    {
        self.tables.move_channel(x, busy);
    }

    pub(super) fn vacate_channel(&mut self, x: ChanId)
        ensures { self.new ≡ apply (record no_change { channel = without_entry x }) self.old }
    {
        self.tables.vacate_channel(x);
    }

    /// What is kept of a call.
    pub(super) fn entry(&self, call: u16) -> Option<CallEntry>
        ensures call { option_map (λ kept. kept.call) result ≡ record_of self.now call }
        ensures timer { IfSome result (λ kept. kept.timer ≡ map.get self.now.timers call) }
    {
        self.tables.entry(call)
    }

    pub(crate) fn record(&self, call: u16) -> Option<CallRecord>
        ensures { result ≡ record_of self.now call }
    {
        self.tables.record_of(call)
    }

    /// The timer that is armed for a call.
    #[tactic(auto, using(crate::proofs::RecordFacts::unarmed))]
    pub(crate) fn timer(&self, call: u16) -> Option<Timer>
        requires { IsSound self.now }
        ensures { result ≡ map.get self.now.timers call }
    {
        match self.entry(call) {
            Some(entry) => entry.timer(),
            None => None,
        }
    }

    /// A call begins.
    fn add_entry(&mut self, call: u16, entry: CallEntry) -> Result<(), AllocError>
        requires { record_of self.old call ≡ None }
        ensures ok { OnOk result (self.new ≡ with_kept self.old call entry) }
        ensures err { OnErr result (self.new ≡ self.old) }
    {
        self.tables.add_call(call, entry)
    }

    /// A call begins, for which no timer is armed.
    pub(super) fn insert_call(&mut self, call: u16, entry: CallEntry) -> Result<(), AllocError>
        requires call { record_of self.old call ≡ None }
        requires timer { entry.timer ≡ None }
        requires unarmed { map.get self.old.timers call ≡ None }
        ensures ok { OnOk result
            (self.new ≡ apply (record no_change { call = with_entry call entry.call }) self.old) }
        ensures err { OnErr result (self.new ≡ self.old) }
    {
        self.add_entry(call, entry)?;
        Ok(())
    }

    /// A call has this record and this timer from now on.
    pub(super) fn set_entry(&mut self, call: u16, entry: CallEntry)
        requires { IsSome (record_of self.old call) }
        ensures { self.new ≡ apply (record no_change
            { call = with_entry call entry.call; timer = Some (call, entry.timer) }) self.old }
    {
        self.tables.set_entry(call, entry);
    }

    /// Something else is kept of a call, with the timer that was kept of it.
    fn keep_timer(&mut self, call: u16, entry: CallEntry)
        requires call { IsSome (record_of self.old call) }
        requires timer { entry.timer ≡ map.get self.old.timers call }
        ensures { self.new ≡ with_kept self.old call entry }
    {
        self.tables.set_record(call, entry);
    }

    /// A call has this record from now on, and the timer that it had.
    pub(super) fn set_record(&mut self, call: u16, entry: CallEntry)
        requires call { IsSome (record_of self.old call) }
        requires timer { entry.timer ≡ map.get self.old.timers call }
        ensures { self.new ≡ apply (record no_change { call = with_entry call entry.call }) self.old }
    {
        self.keep_timer(call, entry);
    }

    /// A call has this timer from now on, and the record that it had.
    pub(super) fn set_timer(&mut self, call: u16, entry: CallEntry)
        requires { record_of self.old call ≡ Some entry.call }
        ensures { self.new ≡ apply (record no_change { timer = Some (call, entry.timer) }) self.old }
    {
        self.set_entry(call, entry);
    }

    /// The record and the timer are gone.
    pub(super) fn remove_call(&mut self, call: u16)
        ensures { self.new ≡ apply (record no_change
            { call = without_entry call; timer = without_entry call }) self.old }
    {
        self.tables.remove_call(call);
    }

    /// The record is gone, beside which no timer is armed.
    pub(super) fn remove_unarmed(&mut self, call: u16)
        requires { map.get self.old.timers call ≡ None }
        ensures { self.new ≡ apply (record no_change { call = without_entry call }) self.old }
    {
        self.remove_call(call);
    }

    /// The call whose a reference is.
    pub(super) fn user(&self, reference: Reference) -> Option<u16>
        ensures { result ≡ map.get self.now.references reference }
    {
        self.tables.reference(reference)
    }

    /// A reference of an own cell comes into use.
    pub(super) fn use_reference(
        &mut self,
        reference: Reference,
        call: u16,
    ) -> Result<(), AllocError>
        requires cell { reference.cell < length self.old.site.cells }
        requires free { map.get self.old.references reference ≡ None }
        ensures ok { OnOk result
            (self.new ≡ apply (record no_change { reference = with_entry reference call }) self.old) }
        ensures err { OnErr result (self.new ≡ self.old) }
        ensures in_place { OnErr result (T.may_refuse_in_place ≡ true) }
    {
        self.tables.add_reference(reference, call)
    }

    pub(super) fn free_reference(&mut self, reference: Reference)
        ensures { self.new ≡ apply (record no_change { reference = without_entry reference }) self.old }
    {
        self.tables.remove_reference(reference);
    }
}
