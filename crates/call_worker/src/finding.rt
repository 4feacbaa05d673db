//! Which worker an input is for.
ghost use Rattle.std.specs.Prelude.{◌≡◌, ◌≢◌, ◌↔◌, ◌++◌, ℕ, List, Err, IfOk, OnErr};
ghost use Rattle.radio_desk.specs.Receipts.{Receipt};
ghost use Rattle.rsl_messages.specs.declared.fault.RslFault.{RslFault};
ghost use Rattle.rsl_messages.specs.declared.fault.RslFault.TheVariants.{NoMemory};
ghost use Rattle.rsl_messages.specs.declared.message.Rsl.{Rsl};
ghost use Rattle.rsl_messages.specs.Texts.{IsTextOf, HasFault};
ghost use Rattle.exchange.specs.Naming.{chan_of};
ghost use Rattle.call_worker.specs.Giving.{Tells, owner_or, call_of, IsOwnerNumber, IsNumberOf, IsUnreadableHere};

use crate::fault::GiveFault;
use channel_fsm::ChanId;
use exchange::{Inbound, Line, chan_of};
use ho_procedure::shared::Shared;
use ho_procedure::view::DeskView;
use radio_book::ask::Ask;
use radio_book::event::{Event, Reply};
use radio_desk::desk::DeskFault;
use rsl_messages::{Rsl, RslFault, decode};
use std::alloc::{AllocError, Allocator};
use std::sync::Wait;

/// How a fault of octets is told.
fn told(fault: RslFault) -> GiveFault
    ensures tells { Tells fault result }
    ensures alive { (n : ℕ) → result ≢ GiveFault.Ended n }
{
    match fault {
        RslFault::NoMemory => GiveFault::NoMemory,
        RslFault::NotRsl
        | RslFault::UnknownType(_)
        | RslFault::Missing(_)
        | RslFault::BadElement(_)
        | RslFault::Torn(_)
        | RslFault::TooLong => GiveFault::Undecoded(fault),
    }
}

/// Reads a message on Abis.
fn read_abis<A: Allocator + Copy>(alloc: A, octets: &[u8]) -> Result<Rsl<A>, GiveFault>
    ensures text { IfOk result (λ message. IsTextOf message octets.now) }
    ensures undecoded { (f : RslFault) → (result ≡ Err (GiveFault.Undecoded f)) ↔
        ((f ≢ NoMemory) × HasFault A octets.now f) }
    ensures alive { (n : ℕ) → result ≢ Err (GiveFault.Ended n) }
{
    rsl_messages::reading_is_unique::<A>();
    match decode(alloc, octets) {
        Ok(message) => Ok(message),
        Err(fault) => Err(told(fault)),
    }
}

/// The call that a reply names, or the cell.
fn owner_or(cell: u8, reply: Reply) -> usize
    ensures { result ≡ owner_or cell reply }
{
    match reply {
        Reply::Owned(call) => usize::from(call),
        Reply::Done | Reply::Record(..) | Reply::Refused(_) => usize::from(cell),
    }
}

/// The number of the call that has a channel, by what the desk answers. It is that of the cell where none has it, and where
/// the office has a receipt, and the desk doesn't know the last one.
fn ask_owner<R: Wait + Drop, A: Allocator + Copy>(
    front: &mut Shared<R, A>,
    cell: u8,
    chan: ChanId,
) -> Result<usize, AllocError>
    ensures ok { IfOk result (λ number. (asked : List Receipt) ×
        (front.new ≡ front.old ++ asked) × IsOwnerNumber front.old cell chan asked number) }
    ensures kept { OnErr result (front.new ≡ front.old) }
{
    match front.ask(Ask::Event(Event::Owner(chan))) {
        Ok(Some(receipt)) => Ok(owner_or(cell, receipt.reply)),
        // an event is always answered
        Ok(None) => unreachable!(),
        Err(DeskFault::Foreign(_)) => Ok(usize::from(cell)),
        Err(DeskFault::NoMemory) => Err(AllocError),
    }
}

/// The number by which a message on Abis finds its worker.
fn owner_number<R: Wait + Drop, A: Allocator + Copy>(
    alloc: A,
    front: &mut Shared<R, A>,
    cell: u8,
    trx: u8,
    octets: &[u8],
) -> Result<usize, GiveFault>
    ensures ok { IfOk result (λ number. (asked : List Receipt) ×
        (front.new ≡ front.old ++ asked) ×
        ((message : Rsl A) × IsTextOf message octets.now ×
        IsOwnerNumber front.old cell (chan_of cell trx message) asked number)) }
    ensures undecoded { (f : RslFault) → (result ≡ Err (GiveFault.Undecoded f)) ↔
        ((f ≢ NoMemory) × HasFault A octets.now f) }
    ensures kept { OnErr result (front.new ≡ front.old) }
    ensures alive { (n : ℕ) → result ≢ Err (GiveFault.Ended n) }
{
    let message = match read_abis(alloc, octets) {
        Ok(message) => message,
        Err(fault) => return Err(fault),
    };
    let chan = chan_of(cell, trx, &message);
    match ask_owner(front, cell, chan) {
        Ok(number) => Ok(number),
        Err(AllocError) => Err(GiveFault::NoMemory),
    }
}

/// The call that an operator's line is about.
fn call_of(line: &Line) -> u16
    ensures { result ≡ call_of line.now }
{
    match line {
        Line::Open { call, .. }
        | Line::Seize { call, .. }
        | Line::Handover { call, .. }
        | Line::Undo { call }
        | Line::Clear { call } => *call,
    }
}

/// The number by which an input finds its worker: that of its call. For a message on Abis the front asks whose its channel
/// is; at `Err` it asked nothing.
pub(crate) fn number_of<R: Wait + Drop, A: Allocator + Copy>(
    alloc: A,
    front: &mut Shared<R, A>,
    input: &Inbound<A>,
) -> Result<usize, GiveFault>
    ensures ok { IfOk result (λ number. (asked : List Receipt) ×
        (front.new ≡ front.old ++ asked) × IsNumberOf front.old input.now asked number) }
    ensures undecoded { (f : RslFault) → (result ≡ Err (GiveFault.Undecoded f)) ↔
        IsUnreadableHere input.now f }
    ensures kept { OnErr result (front.new ≡ front.old) }
    ensures alive { (n : ℕ) → result ≢ Err (GiveFault.Ended n) }
{
    match input {
        Inbound::Abis { cell, trx, bytes } => {
            owner_number(alloc, front, *cell, *trx, bytes.as_slice())
        }
        Inbound::A { call, .. } | Inbound::Expiry { call, .. } => Ok(usize::from(*call)),
        Inbound::Operator(line) => Ok(usize::from(call_of(line))),
    }
}
