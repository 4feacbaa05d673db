//! A long course of events at the largest site, 64 cells with four TRX each, half of whose timeslots carry halves too, asked
//! of both kinds of tables. What comes next follows from one number, so the course is the same each time.
use super::both_tables::{Sound, dense, trees};
use super::{equals_at, holds_at, part_at};
use cell_table::Site;
use channel_fsm::ChanState::{On, Pending};
use channel_fsm::{ChanId, Rate};
use radio_book::event::Event::{
    Activate, Clear, Command, Complete, Confirm, Detect, Left, Look, Open, Order, Owner, Refuse,
    Released, Require, Reserve, Take, Undo,
};
use radio_book::event::Kind::{Incoming, Internal};
use radio_book::event::Why::{Asked, Expired};
use radio_book::event::{Attempt, CallRecord, Event, Stage, Timer};
use radio_tables::kinds::Reference;
use radio_tables::tables::Tables;
use sample_sites::site_of_halves;
use std::alloc::{AllocError, Global};
use std::process::Abort;
use std::sync::Arc;
use std::test::Fail;

// How often a thousand events are asked, behind which all that the tables hold is compared.
const THOUSANDS: u16 = 20;

// Numbers that follow one from the other, each as if by chance.
#[derive(Clone, Copy)]
struct Dice {
    last: u64,
}

impl Dice {
    fn roll(&mut self) -> u16 {
        self.last = self
            .last
            .wrapping_mul(6_364_136_223_846_793_005)
            .wrapping_add(1_442_695_040_888_963_407);
        (self.last / 4_294_967_296 % 65_536) as u16
    }
}

// What an event is made of, as the dice say: one of 256 calls, from 0 to 65535, a channel, a number, and which of several.
#[derive(Clone, Copy)]
struct Rolled {
    call: u16,
    chan: ChanId,
    number: u8,
    which: u16,
}

fn roll_all(dice: &mut Dice) -> Rolled {
    Rolled {
        call: (dice.roll() % 256).wrapping_mul(257),
        chan: part_at(dice.roll()),
        number: (dice.roll() % 256) as u8,
        which: dice.roll(),
    }
}

// Any event.
fn any_event(rolled: Rolled) -> Event {
    let Rolled {
        call,
        chan,
        number,
        which,
    } = rolled;
    match which % 20 {
        0 => Open(call, chan),
        1 => Clear(call),
        2 => Look(call),
        3 => Take(call, Internal, chan),
        4 => Take(call, Incoming, chan),
        5 => Reserve(call, number),
        6 => Activate(call),
        7 => Command(call),
        8 => Complete(call),
        9 => Undo(call, Asked),
        10 => Undo(call, Expired(Timer::T3103)),
        11 => Undo(call, Expired(Timer::T7)),
        12 => Undo(call, Expired(Timer::T8)),
        13 => Confirm(chan),
        14 => Refuse(chan),
        15 => Detect(chan),
        16 => Owner(chan),
        17 => Require(call),
        18 => Order(call),
        _ => Left(call),
    }
}

// One of two, the first three times out of four.
fn mostly(rolled: Rolled, often: Event, seldom: Event) -> Event {
    if rolled.which % 4 == 0 { seldom } else { often }
}

// What takes an attempt further, or ends it.
fn step_of(attempt: Attempt, rolled: Rolled) -> Event {
    let call = rolled.call;
    let target = attempt.target.unwrap_or(rolled.chan);
    match attempt.stage {
        Stage::Taken => Reserve(call, rolled.number),
        Stage::Reserved => Activate(call),
        Stage::Sent => mostly(rolled, Confirm(target), Refuse(target)),
        Stage::Refused => Undo(call, Asked),
        Stage::Confirmed => Command(call),
        Stage::Commanded => mostly(rolled, Detect(target), Undo(call, Expired(Timer::T3103))),
        Stage::Detected => mostly(rolled, Complete(call), Undo(call, Asked)),
        Stage::Required => mostly(rolled, Order(call), Undo(call, Expired(Timer::T7))),
        Stage::Ordered => mostly(rolled, Undo(call, Expired(Timer::T8)), Left(call)),
    }
}

// What begins an attempt of a call that rests, or ends the call.
fn leaves_rest(rolled: Rolled) -> Event {
    let call = rolled.call;
    match rolled.which % 4 {
        0 => Clear(call),
        1 => Require(call),
        _ => Take(call, Internal, rolled.chan),
    }
}

// What goes on with a call that has no attempt.
fn goes_on<T: Tables>(tables: &T, serving: Option<ChanId>, rolled: Rolled) -> Event {
    let serving = serving.unwrap_or(rolled.chan);
    match tables.channel(serving) {
        Some(Pending(_)) => mostly(rolled, Confirm(serving), Refuse(serving)),
        Some(On(_)) => leaves_rest(rolled),
        Some(_) | None => Clear(rolled.call),
    }
}

// What goes on with a call, or begins it.
fn next_of<T: Tables>(tables: &T, rolled: Rolled) -> Event {
    let (call, chan) = (rolled.call, rolled.chan);
    let Some(entry) = tables.entry(call) else {
        return mostly(rolled, Open(call, chan), Take(call, Incoming, chan));
    };
    let record = entry.record();
    match record.attempt {
        Some(attempt) => step_of(attempt, rolled),
        None => goes_on(tables, record.serving, rolled),
    }
}

// Of eight events five go on with a call, two say that a channel was released, and one is any.
fn event_of<T: Tables>(tables: &T, dice: &mut Dice) -> Event {
    let rolled = roll_all(dice);
    match dice.roll() % 8 {
        0 => any_event(rolled),
        1 | 2 => Released(rolled.chan),
        _ => next_of(tables, rolled),
    }
}

// The next events are answered alike, and behind each both hold as much. How many did it ask?
fn answer_alike<S: Tables, T: Tables>(
    rt: &impl Abort,
    one: &mut Sound<S>,
    other: &mut Sound<T>,
    dice: &mut Dice,
) -> Result<(), AllocError> {
    for _ in 0..1000u16 {
        let event = event_of(other.tables(), dice);
        let reply = one.step(event)?;
        equals_at(rt, other.step(event)?, reply, event);
        equals_at(rt, other.usage(), one.usage(), event);
    }
    Ok(())
}

fn channels_are_alike<S: Tables, T: Tables>(rt: &impl Abort, one: &S, other: &T) {
    for place in 0..6144u16 {
        let x = part_at(place);
        equals_at(rt, other.channel(x), one.channel(x), x);
    }
}

fn choice_is_alike<S: Tables, T: Tables>(
    rt: &impl Abort,
    one: &S,
    other: &T,
    cell: u8,
    rate: Rate,
) {
    let found = other.some_free(cell, rate);
    equals_at(rt, found, one.some_free(cell, rate), (cell, rate));
}

fn choices_are_alike<S: Tables, T: Tables>(rt: &impl Abort, one: &S, other: &T) {
    for cell in 0..65u8 {
        choice_is_alike(rt, one, other, cell, Rate::Full);
        choice_is_alike(rt, one, other, cell, Rate::Half);
        equals_at(rt, other.free_in(cell), one.free_in(cell), cell);
    }
}

// The record of a call, and the timer that is armed for it.
fn kept<T: Tables>(tables: &T, call: u16) -> Option<(CallRecord, Option<Timer>)> {
    let entry = tables.entry(call)?;
    Some((entry.record(), entry.timer()))
}

fn calls_are_alike<S: Tables, T: Tables>(rt: &impl Abort, one: &S, other: &T) {
    for number in 0..65_536u32 {
        let call = number as u16;
        equals_at(rt, kept(other, call), kept(one, call), call);
    }
}

fn references_are_alike<S: Tables, T: Tables>(rt: &impl Abort, one: &S, other: &T) {
    for place in 0..64u16 * 256 {
        let reference = Reference {
            cell: (place / 256) as u8,
            number: (place % 256) as u8,
        };
        let user = one.reference(reference);
        equals_at(rt, other.reference(reference), user, reference);
    }
}

fn are_alike<S: Tables, T: Tables>(rt: &impl Abort, one: &S, other: &T) {
    channels_are_alike(rt, one, other);
    choices_are_alike(rt, one, other);
    calls_are_alike(rt, one, other);
    references_are_alike(rt, one, other);
}

// Attempts of all stages are open, so the course has come far.
fn is_rich<T: Tables>(rt: &impl Abort, tables: &Sound<T>, thousand: u16) {
    let usage = tables.usage();
    let least = usage.references.min(usage.timers);
    holds_at(rt, 5 <= least && 50 <= usage.calls, (thousand, usage));
}

fn go_alike<S: Tables, T: Tables>(
    rt: &impl Abort,
    one: &mut Sound<S>,
    other: &mut Sound<T>,
) -> Result<(), AllocError> {
    let mut dice = Dice { last: 2026 };
    for thousand in 0..THOUSANDS {
        answer_alike(rt, one, other, &mut dice)?;
        are_alike(rt, one.tables(), other.tables());
        is_rich(rt, other, thousand);
    }
    Ok(())
}

fn largest_site(alloc: Global) -> Result<Arc<Site<Global>>, Fail> {
    let text = site_of_halves(alloc, 64, 4)?;
    let site = Site::read(alloc, alloc, &text)?;
    Ok(Arc::new(alloc, site)?)
}

#[test]
fn both_kinds_of_tables_go_alike(rt: HostRuntime) -> Result<(), Fail> {
    let site = largest_site(rt.alloc())?;
    let mut one = trees(rt.alloc(), site.clone()?);
    let mut other = dense(rt.alloc(), site)?;
    go_alike(&rt, &mut one, &mut other)?;
    Ok(())
}
