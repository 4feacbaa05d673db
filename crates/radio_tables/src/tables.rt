//! The operations of all kinds of tables.
ghost use Rattle.std.specs.Prelude.{◌≡◌, ◌≢◌, ◌↔◌, ◌<◌, Bool, true, Some, None, OnOk, OnErr, IfSome, IfNone, IfOk, IsSome, IsTrue, length};
ghost use Rattle.std.specs.FinMap as map;
ghost use Rattle.std.specs.Option.{option_map};
ghost use Rattle.channel_fsm.specs.declared.ChanState.TheVariants as chan;
ghost use Rattle.cell_table.specs.Site.{TrafficLiesWithin, is_traffic};
ghost use Rattle.radio_tables.specs.State.{State, with_channel, with_kept, without_call, with_reference};
ghost use Rattle.radio_tables.specs.Choice.{IsFreeAt, NoneFree, NoneFreeAt, IsFreeCount};

use crate::entry::CallEntry;
use crate::kinds::{CallRecord, Reference};
use channel_fsm::{ChanId, ChanState, Rate};
use std::alloc::AllocError;

/// Tables of channels, calls and references over a site. Contracts see them as finite maps. A free channel has no entry, nor
/// has a call that isn't there, or a reference that isn't in use. The timers are the armed ones.
///
/// A change without a new call is a change in place. Each kind of tables says whether memory may be refused to such a
/// change.
pub trait Tables: Drop {
    // what the tables say
    ghost state: { Self → State };

    // a change in place may be refused memory
    ghost may_refuse_in_place: { Bool };

    /// The number of the site's own cells. Its contract also says where the site's traffic channels lie.
    fn cells(&self) -> u8
        ensures value { result ≡ length (state self.now).site.cells }
        ensures traffic { TrafficLiesWithin (state self.now).site };

    /// Whether the site names the channel for traffic.
    fn is_traffic(&self, x: ChanId) -> bool
        ensures value { result ≡ is_traffic (state self.now).site x };

    /// The state of a channel; `None` if it isn't in use.
    fn channel(&self, x: ChanId) -> Option<ChanState>
        ensures value { result ≡ map.get (state self.now).channels x };

    /// A traffic channel comes into use: a change in place.
    fn occupy(&mut self, x: ChanId, busy: ChanState) -> Result<(), AllocError>
        requires traffic { is_traffic (state self.old).site x ≡ true }
        requires free { map.get (state self.old).channels x ≡ None }
        requires busy { busy ≢ chan.Free }
        ensures ok { OnOk result (state self.new ≡ with_channel (state self.old) x (Some busy)) }
        ensures err { OnErr result (state self.new ≡ state self.old) }
        ensures in_place { OnErr result (may_refuse_in_place ≡ true) };

    /// A channel in use comes to another state of use.
    fn move_channel(&mut self, x: ChanId, busy: ChanState)
        requires used { IsSome (map.get (state self.old).channels x) }
        requires busy { busy ≢ chan.Free }
        ensures moved { state self.new ≡ with_channel (state self.old) x (Some busy) };

    /// A channel is no longer in use.
    fn vacate_channel(&mut self, x: ChanId)
        ensures freed { state self.new ≡ with_channel (state self.old) x None };

    /// What is kept of a call; `None` if it isn't there.
    fn entry(&self, call: u16) -> Option<CallEntry>
        ensures call { option_map (λ kept. kept.call) result ≡ map.get (state self.now).calls call }
        ensures timer { IfSome result (λ kept. kept.timer ≡ map.get (state self.now).timers call) };

    /// The record of a call; `None` if it isn't there.
    fn record_of(&self, call: u16) -> Option<CallRecord>
        ensures value { result ≡ map.get (state self.now).calls call };

    /// A call begins. Memory is asked for.
    fn add_call(&mut self, call: u16, entry: CallEntry) -> Result<(), AllocError>
        requires new { map.get (state self.old).calls call ≡ None }
        ensures ok { OnOk result (state self.new ≡ with_kept (state self.old) call entry) }
        ensures err { OnErr result (state self.new ≡ state self.old) };

    /// Replaces what is kept of a call that is there.
    fn set_entry(&mut self, call: u16, entry: CallEntry)
        requires there { IsSome (map.get (state self.old).calls call) }
        ensures kept { state self.new ≡ with_kept (state self.old) call entry };

    /// Replaces what is kept of a call that is there, and keeps its timer.
    fn set_record(&mut self, call: u16, entry: CallEntry)
        requires there { IsSome (map.get (state self.old).calls call) }
        requires timer { entry.timer ≡ map.get (state self.old).timers call }
        ensures kept { state self.new ≡ with_kept (state self.old) call entry };

    /// A call ends.
    fn remove_call(&mut self, call: u16)
        ensures gone { state self.new ≡ without_call (state self.old) call };

    /// The call that has a reference; `None` if it isn't in use.
    fn reference(&self, reference: Reference) -> Option<u16>
        ensures value { result ≡ map.get (state self.now).references reference };

    /// A reference of an own cell comes into use: a change in place.
    fn add_reference(&mut self, reference: Reference, call: u16) -> Result<(), AllocError>
        requires cell { reference.cell < length (state self.old).site.cells }
        requires free { map.get (state self.old).references reference ≡ None }
        ensures ok { OnOk result (state self.new ≡ with_reference (state self.old) reference (Some call)) }
        ensures err { OnErr result (state self.new ≡ state self.old) }
        ensures in_place { OnErr result (may_refuse_in_place ≡ true) };

    /// A reference is no longer in use.
    fn remove_reference(&mut self, reference: Reference)
        ensures dropped { state self.new ≡ with_reference (state self.old) reference None };

    /// How many channels are in use.
    fn channels(&self) -> usize
        ensures count { result ≡ map.len (state self.now).channels };

    /// How many calls there are.
    fn calls(&self) -> usize
        ensures count { result ≡ map.len (state self.now).calls };

    /// How many references are in use.
    fn references(&self) -> usize
        ensures count { result ≡ map.len (state self.now).references };

    /// How many timers are armed.
    fn timers(&self) -> usize
        ensures count { result ≡ map.len (state self.now).timers };

    /// The free traffic channel of a cell at a rate with the lowest TRX, then timeslot, then half. The contract allows any
    /// free one.
    fn some_free(&self, cell: u8, rate: Rate) -> Option<ChanId>
        ensures found { IfSome result (λ x. IsFreeAt (state self.now) cell rate x) }
        ensures none { IfNone result (NoneFreeAt (state self.now) cell rate) };

    /// How many traffic channels of a cell are free, of both rates.
    fn free_in(&self, cell: u8) -> u32
        ensures count { IsFreeCount (state self.now) cell result }
        ensures none { (result ≡ 0) ↔ NoneFree (state self.now) cell };

    /// Whether two tables have the same contents.
    fn is_same(&self, other: &Self) -> bool
        ensures same { IsTrue result ↔ (state self.now ≡ state other.now) };
}

/// Tables that can be copied, because their allocator can be.
pub trait CopyTables: Tables {
    /// A copy of the tables. Memory is asked for.
    fn copy(&self) -> Result<Self, AllocError>
        ensures copy { IfOk result (λ copy. Self.state copy ≡ Self.state self.now) };
}
