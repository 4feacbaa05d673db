//! The states of a site's channels, each at its channel's place.
ghost use Rattle.std.specs.Prelude.{◌≡◌, ◌≢◌, ◌↔◌, ◌<◌, ℕ, IsTrue, Some, None, IfOk, IfSome, IfNone, IsSome, is_some, length, true, cond, slice_index_or};
ghost use Rattle.std.specs.FinMap as map;
ghost use Rattle.channel_fsm.specs.declared.ChanId.{ChanId};
ghost use Rattle.channel_fsm.specs.declared.ChanState.TheVariants as chan;
ghost use Rattle.cell_table.specs.Site.{is_traffic};
ghost use Rattle.dense_tables.specs.Channels.{all_free, with_state, busy, channel_at, IsFreeAt, IsNoLater, NoneFreeAt, free_in};

mod masks;
mod places;

use crate::blocks::copy_of;
use cell_table::Site;
use cell_table::limits::MOST_CELLS;
use channel_fsm::{ChanId, ChanState, FreeMask, Rate};
use masks::{count_in, lowest_in, masks_of, set_timeslot};
use places::{PLACES, channel_at, place_in, places_of};
use std::alloc::{AllocError, Allocator, Global};
use std::marker::Model;
use std::sync::Arc;

/// The state of each traffic channel of a site, by its place there. The place of every channel that a site can have is noted
/// once. Each TRX has a mask for each part of a timeslot, of the traffic timeslots in whose way nothing is. Only making and
/// copying it asks for memory.
#[derive(Drop)]
pub struct ChannelStates<A: Allocator = Global> {
    site: Arc<Site<A>, A>,
    states: Vec<ChanState, A>,
    places: Vec<Option<u16>, A>,
    masks: Vec<FreeMask, A>,
    // how many channels are in use
    used: usize,
}

impl<A: Allocator> Model for ChannelStates<A> {
    ghost use Rattle.dense_tables.specs.Channels.{Channels, channels_code, states_of, IsTable};

    ghost Value = { Channels };

    ghost coded = { channels_code };

    ghost view = { λ table. record {
      site = table.site.value;
      states = states_of table.site.value table.states.items;
    } };

    ghost invariant = { λ table. IsTable table.site.value table.states.items table.places.items
        table.masks.items table.used };
}

impl<A: Allocator + Copy> ChannelStates<A> {
    /// All channels of a site are free.
    pub fn new(alloc: A, site: Arc<Site<A>, A>) -> Result<ChannelStates<A>, AllocError>
        ensures free { IfOk result (λ table. table ≡ all_free site.value) }
    {
        // Called for its clauses alone: what holds of every site, and where its traffic channels lie.
        let _cells = site.cells();
        let states = free_states(alloc, site.channels())?;
        let places = places_of(alloc, &site)?;
        let masks = masks_of(alloc, &site)?;
        Ok(ChannelStates {
            site,
            states,
            places,
            masks,
            used: 0,
        })
    }

    /// A copy of the states; both share the site.
    pub fn copy(&self) -> Result<ChannelStates<A>, AllocError>
        ensures copy { IfOk result (λ copy. copy ≡ self.now) }
    {
        let site = self.site.clone()?;
        let states = copy_of(&self.states)?;
        let places = copy_of(&self.places)?;
        let masks = copy_of(&self.masks)?;
        Ok(ChannelStates {
            site,
            states,
            places,
            masks,
            used: self.used,
        })
    }
}

impl<A: Allocator> ChannelStates<A> {
    /// The site.
    pub fn site(&self) -> &Arc<Site<A>, A>
        ensures site { result.now.value ≡ self.now.site }
    {
        &self.site
    }

    /// Whether the site names the channel for traffic.
    pub fn is_traffic(&self, x: ChanId) -> bool
        ensures value { result ≡ is_traffic self.now.site x }
    {
        place_in(&self.places, x).is_some()
    }

    /// How many channels are in use: have a state.
    pub fn len(&self) -> usize
        ensures count { result ≡ map.len self.now.states }
    {
        self.used
    }

    /// The state of a channel; `None` if it isn't in use.
    pub fn get(&self, x: ChanId) -> Option<ChanState>
        ensures value { result ≡ map.get self.now.states x }
    {
        let place = place_in(&self.places, x)?;
        busy(self.states[place])
    }

    /// A traffic channel is in use from now on, and has this state.
    pub fn set(&mut self, x: ChanId, state: ChanState)
        requires traffic { is_traffic self.old.site x ≡ true }
        requires busy { state ≢ chan.Free }
        ensures set { self.new ≡ with_state self.old x (Some state) }
    {
        self.write(x, state);
    }

    /// A channel in use has another state of use from now on.
    pub fn replace(&mut self, x: ChanId, state: ChanState)
        requires used { IsSome (map.get self.old.states x) }
        requires busy { state ≢ chan.Free }
        ensures replaced { self.new ≡ with_state self.old x (Some state) }
    {
        // It stays out of its mask, and counted.
        if let Some(place) = place_in(&self.places, x) {
            self.states[place] = state;
        }
    }

    /// A channel is in use no more.
    pub fn free(&mut self, x: ChanId)
        ensures freed { self.new ≡ with_state self.old x None }
    {
        self.write(x, ChanState::Free);
    }

    /// The traffic channel of a cell at a rate, in whose way nothing is, with the lowest TRX, then timeslot, then half.
    pub fn lowest_free(&self, cell: u8, rate: Rate) -> Option<ChanId>
        ensures found { IfSome result (λ x. IsFreeAt self.now cell rate x) }
        ensures lowest { IfSome result (λ x. (y : ChanId) → IsFreeAt self.now cell rate y →
            IsNoLater x y) }
        ensures none { IfNone result (NoneFreeAt self.now cell rate) }
    {
        if usize::from(cell) < MOST_CELLS {
            lowest_in(&self.masks, cell, rate)
        } else {
            None
        }
    }

    /// How many traffic channels of a cell have nothing in their way.
    pub fn free_in(&self, cell: u8) -> u32
        ensures count { result ≡ free_in self.now cell }
    {
        if usize::from(cell) < MOST_CELLS {
            count_in(&self.masks, cell)
        } else {
            0
        }
    }

    /// Whether the sites are equal, and the same channels have the same states.
    pub fn is_same(&self, other: &ChannelStates<A>) -> bool
        ensures same { IsTrue result ↔ (self.now ≡ other.now) }
    {
        self.site == other.site && self.used == other.used && same_states(self, other)
    }

    /// Another state of a channel. One that isn't for traffic is never in use.
    fn write(&mut self, x: ChanId, state: ChanState)
        requires { busy state ≢ None → is_traffic self.old.site x ≡ true }
        ensures { self.new ≡ with_state self.old x (busy state) }
    {
        if let Some(place) = place_in(&self.places, x) {
            let old = self.states[place];
            self.states[place] = state;
            set_timeslot(&mut self.masks, &self.places, &self.states, x);
            self.used = self.used - count_of(old) + count_of(state);
        }
    }
}

/// The state, where it is that of a channel in use.
fn busy(state: ChanState) -> Option<ChanState>
    ensures { result ≡ busy state }
{
    match state {
        ChanState::Free => None,
        ChanState::Held(_) | ChanState::Pending(_) | ChanState::On(_) | ChanState::Off => {
            Some(state)
        }
    }
}

/// How many channels with this state are in use: one, or none.
fn count_of(state: ChanState) -> usize
    ensures { result ≡ cond (is_some (busy state)) 1 0 }
{
    match state {
        ChanState::Free => 0,
        ChanState::Held(_) | ChanState::Pending(_) | ChanState::On(_) | ChanState::Off => 1,
    }
}

/// So many free channels.
fn free_states<A: Allocator>(alloc: A, count: usize) -> Result<Vec<ChanState, A>, AllocError>
    ensures len { IfOk result (λ states. length states.items ≡ count) }
    ensures free { IfOk result (λ states. (place : ℕ) →
        slice_index_or states.items place chan.Free ≡ chan.Free) }
{
    Vec::from_elem(alloc, ChanState::Free, count)
}

/// Whether the same channels have the same states, of all that a site can have.
fn same_states<A: Allocator>(one: &ChannelStates<A>, other: &ChannelStates<A>) -> bool
    ensures { IsTrue result ↔ ((number : ℕ) → number < 6144 →
        map.get one.now.states (channel_at number) ≡ map.get other.now.states (channel_at number)) }
{
    for number in 0..PLACES {
        let x = channel_at(number);
        if !same_busy(one.get(x), other.get(x)) {
            return false;
        }
    }
    true
}

/// Whether two channels have the same state, or both are free.
fn same_busy(one: Option<ChanState>, other: Option<ChanState>) -> bool
    ensures { IsTrue result ↔ (one ≡ other) }
{
    match (one, other) {
        (Some(one), Some(other)) => same_state(one, other),
        (None, None) => true,
        (Some(_), None) | (None, Some(_)) => false,
    }
}

/// Whether two states are the same.
fn same_state(one: ChanState, other: ChanState) -> bool
    ensures { IsTrue result ↔ (one ≡ other) }
{
    one == other
}
