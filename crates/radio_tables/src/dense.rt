//! Tables in which everything has a place.
ghost use Rattle.std.specs.Prelude.{◌≡◌, ◌↔◌, IfOk, IsTrue, is_some, cond, false};
ghost use Rattle.radio_tables.specs.State.{empty_book};
ghost use Rattle.radio_tables.specs.Dense.{timer_in};

use crate::entry::CallEntry;
use crate::kinds::CallRecord;
use crate::tables::{CopyTables, Tables};
use cell_table::Site;
use channel_fsm::{ChanId, ChanState, Rate};
use dense_tables::calls::{CallSlots, Entry};
use dense_tables::channels::ChannelStates;
use dense_tables::{Reference, ReferenceRows};
use std::alloc::{AllocError, Allocator, Global};
use std::marker::Model;
use std::sync::Arc;

/// Tables in which each channel has a place by the site, each call a slot by its number, and each reference a place in its
/// cell's row. Memory is asked for only when they are made, when they are copied, and when a call is added.
#[derive(Drop)]
pub struct DenseTables<A: Allocator = Global> {
    channels: ChannelStates<A>,
    calls: CallSlots<CallEntry, A>,
    references: ReferenceRows<A>,
    // how many timers are armed
    armed: usize,
}

impl<A: Allocator> Model for DenseTables<A> {
    ghost use Rattle.radio_tables.specs.State.{State, state_code};
    ghost use Rattle.radio_tables.specs.Dense.{IsTable, records_of, armed_of};

    ghost Value = { State };

    ghost coded = { state_code };

    ghost view = { λ tables. record {
      site = tables.channels.site;
      channels = tables.channels.states;
      calls = records_of tables.calls;
      references = tables.references.users;
      timers = armed_of tables.calls;
    } };

    ghost invariant = { λ tables. IsTable tables.channels.site tables.calls tables.references.cells tables.armed };
}

impl Entry for CallEntry {
    fn is_same(&self, other: &CallEntry) -> bool {
        *self == *other
    }

    ghost clones = { λ entry copy same. same };
}

impl<A: Allocator + Copy> DenseTables<A> {
    /// Tables over a site in which nothing is in use.
    pub fn new(alloc: A, site: Arc<Site<A>, A>) -> Result<DenseTables<A>, AllocError>
        ensures empty { IfOk result (λ tables. tables ≡ empty_book site.value) }
    {
        let cells = site.cells();
        let channels = ChannelStates::new(alloc, site)?;
        let calls = CallSlots::new(alloc)?;
        let references = ReferenceRows::new(alloc, cells)?;
        Ok(DenseTables {
            channels,
            calls,
            references,
            armed: 0,
        })
    }
}

impl<A: Allocator> DenseTables<A> {
    /// The site.
    pub fn site(&self) -> &Arc<Site<A>, A>
        ensures site { result.now.value ≡ self.now.site }
    {
        self.channels.site()
    }
}

impl<A: Allocator + Copy> CopyTables for DenseTables<A> {
    fn copy(&self) -> Result<DenseTables<A>, AllocError> {
        let channels = self.channels.copy()?;
        let calls = self.calls.copy()?;
        let references = self.references.copy()?;
        Ok(DenseTables {
            channels,
            calls,
            references,
            armed: self.armed,
        })
    }
}

impl<A: Allocator> Tables for DenseTables<A> {
    ghost state = { λ t. t };

    ghost may_refuse_in_place = { false };

    fn cells(&self) -> u8 {
        let _ = &self.armed;
        self.references.cells()
    }

    fn is_traffic(&self, x: ChanId) -> bool {
        self.channels.is_traffic(x)
    }

    fn channel(&self, x: ChanId) -> Option<ChanState> {
        self.channels.get(x)
    }

    fn occupy(&mut self, x: ChanId, busy: ChanState) -> Result<(), AllocError> {
        self.channels.set(x, busy);
        Ok(())
    }

    fn move_channel(&mut self, x: ChanId, busy: ChanState) {
        self.channels.replace(x, busy);
    }

    fn vacate_channel(&mut self, x: ChanId) {
        self.channels.free(x);
    }

    fn entry(&self, call: u16) -> Option<CallEntry> {
        match self.calls.get(call) {
            Some(entry) => Some(entry.copy()),
            None => None,
        }
    }

    fn record_of(&self, call: u16) -> Option<CallRecord> {
        match self.calls.get(call) {
            Some(entry) => Some(entry.record()),
            None => None,
        }
    }

    fn add_call(&mut self, call: u16, entry: CallEntry) -> Result<(), AllocError> {
        let armed = count_of(entry.is_armed());
        self.calls.add(call, entry)?;
        // Called for its clause alone: no more timers are armed than there are calls.
        let _calls = self.calls.len();
        self.armed += armed;
        Ok(())
    }

    fn set_entry(&mut self, call: u16, entry: CallEntry) {
        let armed = count_of(entry.is_armed());
        let old = self.calls.set(call, entry);
        let before = count_of(old.is_armed());
        // Called for its clause alone, as above.
        let _calls = self.calls.len();
        self.armed = self.armed - before + armed;
    }

    fn set_record(&mut self, call: u16, entry: CallEntry) {
        self.calls.set(call, entry);
    }

    fn remove_call(&mut self, call: u16) {
        let old = self.calls.remove(call);
        let before = count_armed(old);
        self.armed -= before;
    }

    fn reference(&self, reference: Reference) -> Option<u16> {
        self.references.get(reference)
    }

    fn add_reference(&mut self, reference: Reference, call: u16) -> Result<(), AllocError> {
        self.references.set(reference, call);
        Ok(())
    }

    fn remove_reference(&mut self, reference: Reference) {
        self.references.remove(reference);
    }

    fn channels(&self) -> usize {
        self.channels.len()
    }

    fn calls(&self) -> usize {
        self.calls.len()
    }

    fn references(&self) -> usize {
        self.references.len()
    }

    fn timers(&self) -> usize {
        self.armed
    }

    fn some_free(&self, cell: u8, rate: Rate) -> Option<ChanId> {
        self.channels.lowest_free(cell, rate)
    }

    fn free_in(&self, cell: u8) -> u32 {
        self.channels.free_in(cell)
    }

    fn is_same(&self, other: &DenseTables<A>) -> bool {
        self.channels.is_same(&other.channels)
            && self.calls.is_same(&other.calls)
            && self.references.is_same(&other.references)
    }
}

/// How many timers are armed for a call of which this was kept.
fn count_armed(kept: Option<CallEntry>) -> usize
    ensures { result ≡ cond (is_some (timer_in kept)) 1 0 }
{
    match kept {
        Some(entry) => count_of(entry.is_armed()),
        None => 0,
    }
}

/// One, or none.
fn count_of(armed: bool) -> usize
    ensures { result ≡ cond armed 1 0 }
{
    if armed { 1 } else { 0 }
}
