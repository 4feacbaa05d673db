//! Where the calls of a storm begin, and where they try to go.
ghost use Rattle.std.specs.Prelude.{◌≡◌, ◌<◌, ◌/◌, ◌%◌, ℕ, length, IfOk, IfErr, MatchOption, slice_get};
ghost use Rattle.storms.specs.Trips.{habit_of, trip_of, trips_of};
ghost use Rattle.storms.specs.Width.{place_in, traffic_of, needed, AllHave, IsWide, IsShortCell, IsShortage, IsTripFault};

use bts_model::Habit;
use cell_table::Site;
use cell_table::limits::{MOST_TRX, TIMESLOTS_OF_TRX};
use channel_fsm::{ChanId, Sub};
use std::alloc::{AllocError, Allocator};
use thiserror::Error;

/// The timeslots of a cell that has as many TRX as a cell may have.
const SLOTS: u8 = (MOST_TRX * TIMESLOTS_OF_TRX) as u8;

/// What a site lacks for a storm of so many calls.
#[derive(Clone, Copy, Debug, PartialEq, Eq, Error)]
pub enum Shortage {
    /// A call has no other cell to go to.
    #[error("a storm needs two cells")]
    OneCell,
    /// A cell has fewer full-rate traffic channels than the calls that begin in it, and as many that come, need.
    #[error("cell {cell} has {channels} full rate channels, and needs {needed}")]
    Channels {
        cell: u8,
        channels: usize,
        needed: usize,
    },
}

/// Why no trips are made.
#[derive(Clone, Copy, Debug)]
pub(crate) enum TripFault {
    /// The site is too small for so many.
    Short(Shortage),
    /// Memory was refused.
    NoMemory,
}

impl From<AllocError> for TripFault {
    ghost use Rattle.storms.specs.declared.trip.TripFault.TheVariants.{NoMemory};

    ghost from_gives = { λ _ fault. fault ≡ NoMemory };

    fn from(_: AllocError) -> TripFault {
        TripFault::NoMemory
    }
}

/// What a call of a storm does.
#[derive(Clone, Copy, Debug, PartialEq, Eq)]
pub(crate) struct Trip {
    /// The call's number.
    pub(crate) call: u16,
    /// The channel that it is opened on.
    pub(crate) from: ChanId,
    /// The cell that it tries to move to.
    pub(crate) to: u8,
    /// What its mobile does when it is commanded there.
    pub(crate) habit: Habit,
}

/// The channel at a place among the full-rate ones that a cell can have, by TRX and timeslot.
fn place_in(cell: u8, place: u8) -> ChanId
    ensures { result ≡ place_in cell place }
{
    ChanId {
        cell,
        trx: place / TIMESLOTS_OF_TRX as u8,
        tn: place % TIMESLOTS_OF_TRX as u8,
        sub: Sub::Full,
    }
}

/// How many full-rate traffic channels a cell has.
fn channels_in<A: Allocator + Copy>(site: &Site<A>, cell: u8) -> usize
    ensures { result ≡ length (traffic_of site.now cell) }
{
    let mut count = 0usize;
    for place in 0..SLOTS {
        count += usize::from(site.is_traffic(place_in(cell, place)));
    }
    count
}

/// The channel at a place among the full-rate traffic channels of a cell, by TRX and timeslot.
fn channel_at<A: Allocator + Copy>(site: &Site<A>, cell: u8, place: u16) -> Option<ChanId>
    ensures { result ≡ slice_get (traffic_of site.now cell) place }
{
    let mut left = place;
    for slot in 0..SLOTS {
        let chan = place_in(cell, slot);
        if site.is_traffic(chan) {
            if left == 0 {
                return Some(chan);
            }
            left -= 1;
        }
    }
    None
}

/// The first cell that has fewer than so many full-rate traffic channels, and how many it has.
fn short_cell<A: Allocator + Copy>(site: &Site<A>, many: usize) -> Option<(u8, usize)>
    ensures { MatchOption result (AllHave site.now many (length site.now.cells))
        (λ short. IsShortCell site.now many short.0 short.1) }
{
    for cell in 0..site.cells() {
        let channels = channels_in(site, cell);
        if channels < many {
            return Some((cell, channels));
        }
    }
    None
}

/// How many full-rate traffic channels each of so many cells needs. The calls that begin in a cell stay there or go to the
/// next, so it has to have twice as many as the most that begin in one.
fn needed(cells: u8, calls: u16) -> usize
    requires { 0 < cells }
    ensures { result ≡ needed cells calls }
{
    2 * usize::from(calls).div_ceil(usize::from(cells))
}

/// What a site lacks for so many calls, if anything.
fn shortage_of<A: Allocator + Copy>(site: &Site<A>, calls: u16) -> Option<Shortage>
    ensures { MatchOption result (IsWide site.now calls) (λ shortage. IsShortage site.now calls shortage) }
{
    let cells = site.cells();
    if cells < 2 {
        return Some(Shortage::OneCell);
    }
    let needed = needed(cells, calls);
    match short_cell(site, needed) {
        Some((cell, channels)) => Some(Shortage::Channels {
            cell,
            channels,
            needed,
        }),
        None => None,
    }
}

/// What mobiles of calls with this number do: those of even numbers arrive, those of odd numbers return.
fn habit_of(call: u16) -> Habit
    ensures { result ≡ habit_of call }
{
    if call.is_multiple_of(2) {
        Habit::Arrive
    } else {
        Habit::Return
    }
}

/// The trip of a call: calls are dealt out to the cells in turn, and each tries the next cell. Nothing where the call's cell
/// has no channel left for it.
fn trip_of<A: Allocator + Copy>(site: &Site<A>, call: u16) -> Option<Trip>
    ensures { result ≡ trip_of site.now call }
{
    let cells = u16::from(site.cells());
    let from = channel_at(site, (call % cells) as u8, call / cells)?;
    Some(Trip {
        call,
        from,
        to: ((u32::from(call) + 1) % u32::from(cells)) as u8,
        habit: habit_of(call),
    })
}

/// The trips of so many calls, by their numbers from 0 on. Memory is asked for only where the site is wide enough.
pub(crate) fn trips_of<A: Allocator + Copy>(
    alloc: A,
    site: &Site<A>,
    calls: u16,
) -> Result<Vec<Trip, A>, TripFault>
    ensures wide { IfOk result (λ _. IsWide site.now calls) }
    ensures trips { IfOk result (λ trips. trips.items ≡ trips_of site.now calls) }
    ensures short { IfErr result (λ fault. IsTripFault site.now calls fault) }
{
    if let Some(shortage) = shortage_of(site, calls) {
        return Err(TripFault::Short(shortage));
    }
    let mut trips = Vec::with_capacity(alloc, usize::from(calls))?;
    for call in 0..calls {
        if let Some(trip) = trip_of(site, call) {
            trips.push(trip).map_err(AllocError::from)?;
        }
    }
    Ok(trips)
}
