//! How answers leave a station: as octets, with what befalls them.
ghost use Rattle.std.specs.Prelude.{◌≡◌, ◌≢◌, ◌<◌, ◌++◌, ◌∷◌, [], map, IfOk, OnOk, OnErr};
ghost use Rattle.std.specs.Option.{option_or};
ghost use Rattle.bts_model.specs.Answers.{out_of};
ghost use Rattle.bts_model.specs.Impairments.{cut_to, once_or_twice};
ghost use Rattle.bts_model.specs.Departures.{departed, all_departed, used_up, slot_after};

use crate::answer::{Answer, Outs, StationOut, octets_of};
use crate::place::{Place, bits_of};
use crate::slots::{Impairment, Slot};
use rsl_messages::Octets;
use std::alloc::{AllocError, Allocator};

/// Cuts octets to the first, so many, where that was asked for.
fn cut<A: Allocator>(octets: &mut Vec<u8, A>, most: Option<u8>)
    ensures { octets.new.items ≡ cut_to most octets.old.items }
{
    if let Some(most) = most {
        octets.truncate(usize::from(most));
    }
}

/// Appends octets that a station sends about a channel.
pub fn send<A: Allocator + Copy>(
    alloc: A,
    outs: &mut Vec<StationOut<A>, A>,
    place: Place,
    octets: &[u8],
) -> Result<(), AllocError>
    ensures { OnOk result (outs.new.items ≡ outs.old.items ++ out_of (place, octets.now) ∷ []) }
{
    outs.push(StationOut {
        controller: place.controller,
        cell: place.channel.cell,
        trx: place.channel.trx,
        bytes: Octets::new(alloc, octets)?,
    })?;
    Ok(())
}

/// Appends them once, or twice where that was asked for.
fn send_copies<A: Allocator + Copy>(
    alloc: A,
    outs: &mut Vec<StationOut<A>, A>,
    place: Place,
    octets: &[u8],
    is_doubled: bool,
) -> Result<(), AllocError>
    ensures { OnOk result (outs.new.items ≡
        outs.old.items ++ map out_of (once_or_twice is_doubled (place, octets.now))) }
{
    if is_doubled {
        send(alloc, outs, place, octets)?;
        send(alloc, outs, place, octets)
    } else {
        send(alloc, outs, place, octets)
    }
}

/// Appends what is sent about a channel that gives an answer.
fn depart<A: Allocator + Copy>(
    alloc: A,
    outs: &mut Vec<StationOut<A>, A>,
    place: Place,
    impairment: Impairment,
    answer: Answer,
) -> Result<(), AllocError>
    requires { place.channel.tn < 8 }
    ensures { OnOk result (outs.new.items ≡
        outs.old.items ++ map out_of (departed impairment place answer)) }
{
    let mut octets = octets_of(alloc, bits_of(place.channel), answer)?;
    cut(&mut octets, impairment.cut);
    send_copies(alloc, outs, place, octets.as_slice(), impairment.doubles)
}

/// What is sent about a channel that gives these answers, none of which a hold keeps. What befalls the next answer befalls
/// the first of them alone.
pub fn all_departed<A: Allocator + Copy>(
    alloc: A,
    place: Place,
    impairment: Impairment,
    answers: &[Answer],
) -> Outs<A>
    requires { place.channel.tn < 8 }
    ensures outs { IfOk result (λ outs. outs.items ≡
        map out_of (all_departed impairment place answers.now)) }
    ensures memory { OnErr result (answers.now ≢ []) }
{
    let mut outs = Vec::new(alloc);
    let mut next = impairment;
    for answer in answers {
        depart(alloc, &mut outs, place, next, *answer)?;
        next = Impairment::none();
    }
    Ok(outs)
}

/// What becomes of a channel once an answer has left it, where it changes: what befell the answer is used up.
fn used_up(slot: Slot) -> Option<Slot>
    ensures { result ≡ used_up slot }
{
    if slot.impairment.is_some() {
        Some(Slot {
            impairment: Impairment::none(),
            ..slot
        })
    } else {
        None
    }
}

/// What is left of a slot once these answers have left.
fn slot_after(slot: Slot, answers: &[Answer]) -> Option<Slot>
    ensures { result ≡ slot_after slot answers.now }
{
    match answers {
        [] => None,
        [_, ..] => used_up(slot),
    }
}

/// What becomes of a channel that changes, maybe, and that these answers leave then.
pub fn changed_and_left(change: Option<Slot>, known: Slot, answers: &[Answer]) -> Option<Slot>
    ensures { result ≡ option_or (slot_after known answers.now) change }
{
    slot_after(known, answers).or(change)
}
