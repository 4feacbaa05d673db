//! A history of ten thousand events with five hundred undone attempts: run once more, and audited.
ghost use Rattle.std.specs.Prelude.{◌<◌};

use crate::fault::Fault;
use crate::life::{CALL, CELLS, cell_of, chan_at, quiet_book};
use crate::varying::Varying;
use radio_book::event::{Event, Kind, Reply, Why};
use radio_book::run::run;
use radio_desk::audit::Audit;
use radio_desk::desk::{Desk, DeskFault};
use radio_desk::seat::Seat;
use std::alloc::{AllocError, Global};

/// How many attempts are opened and undone.
const ATTEMPTS: u16 = 500;

/// The call that begins and ends while an attempt is open.
const OTHER: u16 = CALL + 1;

/// Twenty events: a call begins, an attempt of it goes as far as the HANDOVER COMMAND, another call begins and ends, the
/// attempt is undone and its channel released, and the call ends. All but the last are accepted.
fn undone_amid_a_call(cell: u8) -> [Event; 20]
    requires { cell < 64 }
{
    let serving = chan_at(cell, 0);
    let target = chan_at((cell + 1) % CELLS, 0);
    let other = chan_at(cell, 1);
    [
        Event::Open(CALL, serving),
        Event::Confirm(serving),
        Event::Take(CALL, Kind::Internal, target),
        Event::Reserve(CALL, 0),
        Event::Activate(CALL),
        Event::Confirm(target),
        Event::Command(CALL),
        Event::Open(OTHER, other),
        Event::Confirm(other),
        Event::Owner(other),
        Event::Look(OTHER),
        Event::Clear(OTHER),
        Event::Released(other),
        Event::Undo(CALL, Why::Asked),
        Event::Released(target),
        Event::Look(CALL),
        Event::Owner(serving),
        Event::Clear(CALL),
        Event::Released(serving),
        Event::Look(CALL),
    ]
}

/// The cell in which an attempt's call begins: one after the other, from the first on.
fn cell_of_attempt(first: u8, attempt: u16) -> u8
    ensures { result < 64 }
{
    first.wrapping_add((attempt % 256) as u8) % CELLS
}

/// The ten thousand events; the first call begins in this cell.
fn events_from(alloc: Global, first: u8) -> Result<Vec<Event>, AllocError> {
    let mut events = Vec::new(alloc);
    for attempt in 0..ATTEMPTS {
        let cell = cell_of_attempt(first, attempt);
        events.extend_from_slice(&undone_amid_a_call(cell))?;
    }
    Ok(events)
}

/// How many of the replies accept their event.
fn accepted_in(replies: &[Reply]) -> u64 {
    let mut sum = 0u64;
    for reply in replies {
        let accepted = match reply {
            Reply::Refused(_) => 0,
            Reply::Done | Reply::Record(_, _) | Reply::Owned(_) => 1,
        };
        sum = sum.wrapping_add(accepted);
    }
    sum
}

/// Runs the ten thousand events in each iteration, from the empty book of 64 cells. The first call begins in the cell that
/// the first octet names, modulo 64. The sum is the number of events that are accepted, 9,500 each time.
pub fn run_histories(alloc: Global, octets: &mut Varying, count: u64) -> Result<u64, Fault> {
    let book = quiet_book(alloc)?;
    let events = events_from(alloc, cell_of(octets.at(0)))?;
    let mut sum = 0u64;
    for _ in 0..count {
        let (_, replies) = run(alloc, &book, &events)?;
        sum = sum.wrapping_add(accepted_in(&replies));
    }
    Ok(sum)
}

/// Asks a desk an event.
fn ask(desk: &mut Desk, seat: &mut Seat, event: Event) -> Result<(), Fault> {
    match desk.judge(seat, event) {
        Ok(_) => Ok(()),
        Err(DeskFault::NoMemory) => Err(Fault::NoMemory),
        Err(DeskFault::Foreign(_)) => Err(Fault::Setting),
    }
}

/// A desk over the empty book of 64 cells that was asked these events.
fn desk_of(alloc: Global, events: &[Event]) -> Result<Desk, Fault> {
    let mut desk = Desk::new(alloc, quiet_book(alloc)?)?;
    let mut seat = Seat::new();
    for event in events {
        ask(&mut desk, &mut seat, *event)?;
    }
    Ok(desk)
}

/// How many attempts an audit found, where they left no trace.
fn attempts_of(audit: Audit) -> Result<u64, Fault> {
    if audit.same {
        Ok(audit.attempts as u64)
    } else {
        Err(Fault::Setting)
    }
}

/// Audits a desk in each iteration that was asked the ten thousand events. The sum is the number of attempts that were
/// undone and are settled, 500 each time.
pub fn audit_histories(alloc: Global, octets: &mut Varying, count: u64) -> Result<u64, Fault> {
    let events = events_from(alloc, cell_of(octets.at(0)))?;
    let desk = desk_of(alloc, &events)?;
    let mut sum = 0u64;
    for _ in 0..count {
        sum = sum.wrapping_add(attempts_of(desk.audit()?)?);
    }
    Ok(sum)
}
