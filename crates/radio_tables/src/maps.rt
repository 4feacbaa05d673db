//! Tables as trees.
ghost use Rattle.std.specs.Prelude.{◌≡◌, ◌/◌, ◌%◌, ◌&&◌, true, find};
ghost use Rattle.cell_table.specs.Limits.{timeslots_of_trx};
ghost use Rattle.std.specs.Cmp.{partial_equiv_from_equiv};
ghost use Rattle.radio_tables.specs.Same.{is_same, is_same-IsEquivalence};
ghost use Rattle.radio_tables.specs.State.{empty_book, state_of, state_code};
ghost use Rattle.radio_tables.specs.Places.{sub_at, is_free_traffic, has_rate, is_free_at, channels_of, free_in};
ghost use Rattle.channel_fsm.specs.Slots.{is_used};
ghost use Rattle.timeslots.specs.Parts.{needs};

use crate::entry::CallEntry;
use crate::kinds::{CallRecord, Reference};
use crate::tables::{CopyTables, Tables};
use crate::trees::{Calls, Channels, References};
use cell_table::Site;
use cell_table::laws::same_sites_are_equal;
use cell_table::limits::{MOST_TRX, TIMESLOTS_OF_TRX};
use channel_fsm::{ChanId, ChanState, Rate, Sub};
use std::alloc::{AllocError, Allocator, Global};
use std::marker::Model;
use std::sync::Arc;

/// The timeslots of a TRX.
const TIMESLOTS: u8 = TIMESLOTS_OF_TRX as u8;

/// A timeslot has three parts: the whole of it, and its halves.
const PARTS: u8 = 3;

/// How many channels a cell can have.
const PLACES: u8 = MOST_TRX as u8 * TIMESLOTS * PARTS;

/// Tables that keep in trees what is in use. Each key that comes into use asks for memory.
#[derive(Drop)]
pub struct MapTables<A: Allocator = Global> {
    site: Arc<Site<A>, A>,
    channels: Channels<A>,
    calls: Calls<A>,
    references: References<A>,
}

impl<A: Allocator> Model for MapTables<A> {
    ghost use Rattle.radio_tables.specs.State.{State, state_code};

    ghost Value = { State };

    ghost coded = { state_code };

    ghost view = { λ tables. record {
      site = tables.site.value;
      channels = tables.channels;
      calls = tables.calls.records;
      references = tables.references;
      timers = tables.calls.armed;
    } };
}

impl<A: Allocator> PartialEq for MapTables<A> {
    ghost eq = { is_same state_code };

    ghost laws = { partial_equiv_from_equiv (is_same-IsEquivalence state_code) };

    fn eq(&self, other: &MapTables<A>) -> bool {
        same_sites_are_equal();
        self.site == other.site
            && self.channels == other.channels
            && self.calls == other.calls
            && self.references == other.references
    }
}

impl<A: Allocator + Copy> MapTables<A> {
    /// Tables over a site in which nothing is in use. No memory is asked for.
    pub fn new(alloc: A, site: Arc<Site<A>, A>) -> MapTables<A>
        ensures empty { result ≡ empty_book site.value }
    {
        MapTables {
            site,
            channels: Channels::new(alloc),
            calls: Calls::new(alloc),
            references: References::new(alloc),
        }
    }

    /// The site, which never changes.
    pub fn site(&self) -> &Arc<Site<A>, A>
        ensures site { result.now.value ≡ self.now.site }
    {
        &self.site
    }

    fn state_of(&self, x: ChanId) -> ChanState
        ensures { result ≡ state_of self.now x }
    {
        self.channels.get(x).unwrap_or(ChanState::Free)
    }

    /// Whether a part of a channel's timeslot is in its way.
    fn is_in_way(&self, x: ChanId, sub: Sub) -> bool
        ensures { result ≡ (needs x.sub sub && is_used (state_of self.now (record x { sub = sub }))) }
    {
        x.sub.needs(sub) && self.state_of(x.part(sub)).is_used()
    }

    fn is_free_traffic(&self, x: ChanId) -> bool
        ensures { result ≡ is_free_traffic self.now x }
    {
        self.site.is_traffic(x)
            && !self.is_in_way(x, Sub::Full)
            && !self.is_in_way(x, Sub::Half0)
            && !self.is_in_way(x, Sub::Half1)
    }

    fn is_free_at(&self, rate: Rate, x: ChanId) -> bool
        ensures { result ≡ is_free_at self.now rate x }
    {
        has_rate(rate, x.sub) && self.is_free_traffic(x)
    }

    fn first_free(&self, cell: u8, rate: Rate) -> Option<ChanId>
        ensures { result ≡ find (is_free_at self.now rate) (channels_of cell) }
    {
        for place in 0..PLACES {
            let x = channel_at(cell, place);
            if self.is_free_at(rate, x) {
                return Some(x);
            }
        }
        None
    }

    fn count_free(&self, cell: u8) -> u32
        ensures { result ≡ free_in self.now cell }
    {
        let mut count: u32 = 0;
        for place in 0..PLACES {
            count += u32::from(self.is_free_traffic(channel_at(cell, place)));
        }
        count
    }
}

impl<A: Allocator + Copy> CopyTables for MapTables<A> {
    fn copy(&self) -> Result<MapTables<A>, AllocError> {
        let site = self.site.clone()?;
        let channels = self.channels.copy()?;
        let calls = self.calls.copy()?;
        let references = self.references.copy()?;
        Ok(MapTables {
            site,
            channels,
            calls,
            references,
        })
    }
}

impl<A: Allocator + Copy> Tables for MapTables<A> {
    ghost state = { λ t. t };

    ghost may_refuse_in_place = { true };

    fn cells(&self) -> u8 {
        self.site.cells()
    }

    fn is_traffic(&self, x: ChanId) -> bool {
        self.site.is_traffic(x)
    }

    fn channel(&self, x: ChanId) -> Option<ChanState> {
        self.channels.get(x)
    }

    fn occupy(&mut self, x: ChanId, busy: ChanState) -> Result<(), AllocError> {
        self.channels.insert(x, busy)
    }

    fn move_channel(&mut self, x: ChanId, busy: ChanState) {
        self.channels.replace(x, busy);
    }

    fn vacate_channel(&mut self, x: ChanId) {
        self.channels.remove(x);
    }

    fn entry(&self, call: u16) -> Option<CallEntry> {
        self.calls.entry(call)
    }

    fn record_of(&self, call: u16) -> Option<CallRecord> {
        match self.calls.entry(call) {
            Some(entry) => Some(entry.record()),
            None => None,
        }
    }

    fn add_call(&mut self, call: u16, entry: CallEntry) -> Result<(), AllocError> {
        self.calls.insert(call, entry)
    }

    fn set_entry(&mut self, call: u16, entry: CallEntry) {
        self.calls.replace(call, entry);
    }

    fn set_record(&mut self, call: u16, entry: CallEntry) {
        self.calls.replace(call, entry);
    }

    fn remove_call(&mut self, call: u16) {
        self.calls.remove(call);
    }

    fn reference(&self, reference: Reference) -> Option<u16> {
        self.references.get(reference)
    }

    fn add_reference(&mut self, reference: Reference, call: u16) -> Result<(), AllocError> {
        self.references.insert(reference, call)
    }

    fn remove_reference(&mut self, reference: Reference) {
        self.references.remove(reference);
    }

    fn channels(&self) -> usize {
        self.channels.len()
    }

    fn calls(&self) -> usize {
        self.calls.len()
    }

    fn references(&self) -> usize {
        self.references.len()
    }

    fn timers(&self) -> usize {
        self.calls.armed()
    }

    fn some_free(&self, cell: u8, rate: Rate) -> Option<ChanId> {
        // Called for its clause alone: no channel of the cell lies beyond those that are looked at.
        let _cells = self.site.cells();
        self.first_free(cell, rate)
    }

    fn free_in(&self, cell: u8) -> u32 {
        // Called for its clause alone, as above.
        let _cells = self.site.cells();
        self.count_free(cell)
    }

    fn is_same(&self, other: &MapTables<A>) -> bool {
        *self == *other
    }
}

/// The channel at a place among those that a cell can have.
fn channel_at(cell: u8, place: u8) -> ChanId
    ensures { result ≡ record { cell = cell; trx = place / 24; tn = place / 3 % timeslots_of_trx; sub = sub_at (place % 3) } }
{
    ChanId {
        cell,
        trx: place / (TIMESLOTS * PARTS),
        tn: place / PARTS % TIMESLOTS,
        sub: sub_at(place % PARTS),
    }
}

/// The part of a timeslot with this number.
fn sub_at(number: u8) -> Sub
    ensures { result ≡ sub_at number }
{
    if number == 0 {
        Sub::Full
    } else if number == 1 {
        Sub::Half0
    } else {
        Sub::Half1
    }
}

/// Whether a part of a timeslot carries speech at this rate.
fn has_rate(rate: Rate, sub: Sub) -> bool
    ensures { result ≡ has_rate rate sub }
{
    match (rate, sub) {
        (Rate::Full, Sub::Full) => true,
        (Rate::Full, Sub::Half0 | Sub::Half1) => false,
        (Rate::Half, Sub::Full) => false,
        (Rate::Half, Sub::Half0 | Sub::Half1) => true,
    }
}
