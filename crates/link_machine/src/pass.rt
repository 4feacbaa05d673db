//! What all channels of a site do, one after the other.
ghost use Rattle.std.specs.Prelude.{◌≡◌, ◌++◌, ℕ, OnOk, OnErr};
ghost use Rattle.link_machine.specs.Machine.{quiet, is_quiet, told_of, moved_until, done_until, all_moved, all_done};
ghost use Rattle.link_machine.specs.Passes.{passed};

use crate::calls::CallFacts;
use crate::channel::Channel;
use crate::moving::{Done, Moved, TurnFacts, linked, settled, still};
use link_tables::Act;
use radio_book::book::Book;
use std::alloc::{AllocError, Allocator};

/// What all channels of a site are told.
#[derive(Clone, Copy, Debug, PartialEq, Eq)]
pub enum Pass {
    /// The link of a TRX of a cell has come up, or is lost.
    Link { cell: u8, trx: u8, is_up: bool },
    /// The controller has had a turn.
    Turn(TurnFacts),
}

/// What a channel does.
fn passed<A: Allocator + Copy>(
    book: &Book<A>,
    calls: &[CallFacts],
    pass: Pass,
    channel: Channel,
) -> Moved
    ensures { result ≡ passed book.now calls.now pass channel }
{
    match pass {
        Pass::Link { cell, trx, is_up } => {
            if channel.chan.cell == cell && channel.chan.trx == trx {
                linked(book, calls, channel, is_up)
            } else {
                still(channel)
            }
        }
        Pass::Turn(turn) => settled(book, calls, channel, turn),
    }
}

/// Whether these are no acts.
fn is_nothing(acts: [Option<Act>; 3]) -> bool
    ensures { result ≡ quiet acts }
{
    match acts {
        [None, None, None] => true,
        [Some(_), _, _] | [None, Some(_), _] | [None, None, Some(_)] => false,
    }
}

/// Whether a channel does nothing.
fn is_quiet(done: Done) -> bool
    ensures { result ≡ is_quiet done }
{
    is_nothing(done.acts) && is_nothing(done.bar) && done.clock.is_none()
}

/// Appends what a channel does, if it does anything.
pub fn push_done<A: Allocator>(out: &mut Vec<Done, A>, done: Done) -> Result<(), AllocError>
    ensures told { OnOk result (out.new.items ≡ out.old.items ++ told_of done) }
    ensures unchanged { OnErr result (out.new.items ≡ out.old.items) }
{
    if is_quiet(done) {
        return Ok(());
    }
    out.push(done)?;
    Ok(())
}

/// Tells all channels something, and appends what each does. If memory is refused, only the first channels have moved, and
/// exactly what they do was appended.
pub fn go_through<A: Allocator + Copy>(
    book: &Book<A>,
    calls: &[CallFacts],
    pass: Pass,
    channels: &mut Vec<Channel, A>,
    out: &mut Vec<Done, A>,
) -> Result<(), AllocError>
    ensures channels { OnOk result (channels.new.items ≡
        all_moved (passed book.now calls.now pass) channels.old.items) }
    ensures done { OnOk result (out.new.items ≡
        out.old.items ++ all_done (passed book.now calls.now pass) channels.old.items) }
    ensures told { OnErr result ((n : ℕ) ×
        (channels.new.items ≡ moved_until (passed book.now calls.now pass) n channels.old.items) ×
        (out.new.items ≡ out.old.items ++
        done_until (passed book.now calls.now pass) n channels.old.items)) }
{
    for place in 0..channels.len() {
        let moved = passed(book, calls, pass, channels[place]);
        push_done(out, moved.done)?;
        channels[place] = moved.channel;
    }
    Ok(())
}
