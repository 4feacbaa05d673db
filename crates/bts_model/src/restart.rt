//! A station that restarts, and what its controller hears of that.
ghost use Rattle.std.specs.Prelude.{◌≡◌, ◌<◌, ◌++◌, map, true, IfOk, OnOk, OnErr};
ghost use Rattle.rsl_messages.specs.Texts.{HasCanonical, canonical_text};
ghost use Rattle.bts_model.specs.Answers.{out_of};
ghost use Rattle.bts_model.specs.World.{slot_in, is_active};
ghost use Rattle.bts_model.specs.Restarts.{restarts, is_meant, part_of, failure, failure_octets, failures_on, failures_of, failures_if, failures, HasActive, HasActiveThat};

use crate::answer::{Outs, StationOut};
use crate::departure::send;
use crate::place::{Place, bits_of};
use crate::slots::{Slots, is_active};
use crate::trx::Trx;
use channel_fsm::{ChanId, Sub};
use rsl_messages::values::EQUIPMENT_FAILURE;
use rsl_messages::{ChanBits, Rsl, encode};
use std::alloc::{AllocError, Allocator};

/// A station that restarts: that of one TRX, or those of all TRX of a cell. One that the world lacks is passed over.
#[derive(Clone, Copy, Debug, PartialEq, Eq)]
pub struct Restart {
    /// The place of the controller's site in the list that the world was made of.
    pub controller: usize,
    pub cell: u8,
    /// The one TRX; all of the cell, where there is none.
    pub trx: Option<u8>,
}

impl Restart {
    /// Whether a TRX of a cell restarts.
    pub(crate) fn has(self, controller: usize, cell: u8, trx: u8) -> bool
        ensures { result ≡ restarts self controller cell trx }
    {
        self.controller == controller && self.cell == cell && is_meant(self.trx, trx)
    }
}

/// Whether a TRX is the one, or any is meant.
fn is_meant(one: Option<u8>, trx: u8) -> bool
    ensures { result ≡ is_meant one trx }
{
    match one {
        None => true,
        Some(one) => one == trx,
    }
}

/// CONNECTION FAILURE INDICATION (TS 48.058 clause 8.4.4).
fn failure_of<A: Allocator>(channel: ChanBits) -> Rsl<A>
    requires { channel.tn < 8 }
    ensures text { canonical_text result ≡ failure_octets channel }
    ensures canonical { HasCanonical result }
{
    Rsl::ConnectionFailureIndication {
        channel,
        cause: EQUIPMENT_FAILURE,
    }
}

/// A part of a timeslot of a TRX.
fn part_of(trx: &Trx, tn: u8, sub: Sub) -> Place
    ensures { result ≡ part_of trx.now tn sub }
{
    Place {
        controller: trx.controller,
        channel: ChanId {
            cell: trx.cell,
            trx: trx.trx,
            tn,
            sub,
        },
    }
}

/// Appends that a channel failed, where it is active.
fn add_failure<A: Allocator + Copy>(
    alloc: A,
    slots: &Slots<A>,
    place: Place,
    outs: &mut Vec<StationOut<A>, A>,
) -> Result<(), AllocError>
    requires { place.channel.tn < 8 }
    ensures failure { OnOk result (outs.new.items ≡
        outs.old.items ++ map out_of (failure slots.now place)) }
    ensures memory { OnErr result (is_active (slot_in slots.now place).activity ≡ true) }
{
    if is_active(slots.get(place).activity) {
        let octets = encode(alloc, &failure_of(bits_of(place.channel)))?;
        send(alloc, outs, place, octets.as_slice())
    } else {
        Ok(())
    }
}

/// Appends that the channels of a timeslot failed, of those that are active.
fn add_failures_on<A: Allocator + Copy>(
    alloc: A,
    slots: &Slots<A>,
    trx: &Trx,
    tn: u8,
    outs: &mut Vec<StationOut<A>, A>,
) -> Result<(), AllocError>
    requires { tn < 8 }
    ensures failures { OnOk result (outs.new.items ≡
        outs.old.items ++ map out_of (failures_on slots.now trx.now tn)) }
    ensures memory { OnErr result (HasActive slots.now trx.now) }
{
    add_failure(alloc, slots, part_of(trx, tn, Sub::Full), outs)?;
    add_failure(alloc, slots, part_of(trx, tn, Sub::Half0), outs)?;
    add_failure(alloc, slots, part_of(trx, tn, Sub::Half1), outs)
}

/// Appends that the channels of a TRX failed, of those that are active.
fn add_failures_of<A: Allocator + Copy>(
    alloc: A,
    slots: &Slots<A>,
    trx: &Trx,
    outs: &mut Vec<StationOut<A>, A>,
) -> Result<(), AllocError>
    ensures failures { OnOk result (outs.new.items ≡
        outs.old.items ++ map out_of (failures_of slots.now trx.now)) }
    ensures memory { OnErr result (HasActive slots.now trx.now) }
{
    for tn in 0..8 {
        add_failures_on(alloc, slots, trx, tn, outs)?;
    }
    Ok(())
}

/// Appends that the channels of a TRX failed, of those that are active, where it restarts.
fn add_failures_if<A: Allocator + Copy>(
    alloc: A,
    slots: &Slots<A>,
    restart: Restart,
    trx: &Trx,
    outs: &mut Vec<StationOut<A>, A>,
) -> Result<(), AllocError>
    ensures failures { OnOk result (outs.new.items ≡
        outs.old.items ++ map out_of (failures_if slots.now restart trx.now)) }
    ensures memory { OnErr result (HasActiveThat slots.now restart) }
{
    if restart.has(trx.controller, trx.cell, trx.trx) {
        add_failures_of(alloc, slots, trx, outs)
    } else {
        Ok(())
    }
}

/// That the active channels of a station failed which restarts, by TRX and timeslot.
pub fn failures<A: Allocator + Copy>(
    alloc: A,
    trxs: &[Trx],
    slots: &Slots<A>,
    restart: Restart,
) -> Outs<A>
    ensures failures { IfOk result (λ outs. outs.items ≡
        map out_of (failures trxs.now slots.now restart)) }
    ensures memory { OnErr result (HasActiveThat slots.now restart) }
{
    let mut outs = Vec::new(alloc);
    for trx in trxs {
        add_failures_if(alloc, slots, restart, trx, &mut outs)?;
    }
    Ok(outs)
}
