//! A handover reference is chosen: the lowest that is free.
ghost use Rattle.std.specs.Prelude.{◌≡◌};
ghost use Rattle.radio_book.specs.Sound.{IsSound};
ghost use Rattle.radio_book.specs.State.{record_of};
ghost use Rattle.radio_book.specs.Choice.{IsNumberFree, MayReserve, taken_channel};

use crate::event::{CallRecord, Reference};
use crate::records::Records;
use cell_table::limits::{MOST_TRX, TIMESLOTS_OF_TRX};
use channel_fsm::ChanId;
use radio_tables::tables::Tables;

/// How many channels a cell can have: three in a timeslot, the whole of it and its halves.
const PLACES: u8 = MOST_TRX as u8 * TIMESLOTS_OF_TRX as u8 * 3;

impl<T: Tables> Records<T> {
    /// The number that a call may reserve: a free one in the cell of the channel that its attempt has
    /// taken, and 0 where it has none.
    pub fn choose_number(&self, call: u16) -> u8
        requires { IsSound self.now }
        ensures { MayReserve self.now (taken_channel (record_of self.now call)) result }
    {
        match taken_channel(self.record(call)) {
            Some(target) => self.free_number(target.cell),
            None => 0,
        }
    }

    /// The lowest number whose reference in the cell isn't in use. There is one, since those in use are of
    /// attempts with different channels of the cell, and those are no more than its places.
    fn free_number(&self, cell: u8) -> u8
        requires { IsSound self.now }
        ensures { IsNumberFree self.now cell result }
    {
        // Called for its clause alone: a cell has no more channels than places by the limits of every site.
        let _cells = self.cells();
        for number in 0..PLACES + 1 {
            if self.user(Reference { cell, number }).is_none() {
                return number;
            }
        }
        unreachable!()
    }
}

/// The channel of an attempt that may reserve a reference.
fn taken_channel(found: Option<CallRecord>) -> Option<ChanId>
    ensures { result ≡ taken_channel found }
{
    let attempt = found?.attempt?;
    if attempt.stage.may_reserve() {
        attempt.target
    } else {
        None
    }
}
