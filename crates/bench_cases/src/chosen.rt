//! Attempts at handover whose channel and reference the book chooses, each undone.
use crate::fault::Fault;
use crate::life::{CALL, accepted, busy_book, halves_text, site_text};
use crate::varying::Varying;
use channel_fsm::Rate;
use radio_book::book::Book;
use radio_book::event::{Event, Kind, Reply, Why};
use std::alloc::{AllocError, Global};

/// How many cells may be picked: all but cell 0, in which the call is served.
const TARGETS: u32 = 63;

/// Picks cells by a linear congruence modulo 2^32: after the same seed the same ones.
#[derive(Clone, Copy)]
struct Picker {
    number: u32,
}

impl Picker {
    /// The next cell, 1 to 63. It is taken from the upper half of the number, as the lowest bits soon repeat.
    fn pick(&mut self) -> u8 {
        self.number = self
            .number
            .wrapping_mul(1_664_525)
            .wrapping_add(1_013_904_223);
        (self.number / 65_536 % TARGETS) as u8 + 1
    }
}

/// 1 for an event that was accepted, 0 for one that was refused.
fn counted(reply: Reply) -> u64 {
    u64::from(reply.is_accepted())
}

/// An attempt of the call in this cell, undone. The sum is the number of its three events that the book accepts.
fn attempt(book: &mut Book, rate: Rate, cell: u8) -> Result<u64, Fault> {
    let Some((_, taken)) = book.take_any(CALL, Kind::Internal, cell, rate)? else {
        return Err(Fault::Setting);
    };
    let (_, reserved) = book.reserve_any(CALL)?;
    let undone = accepted(book, Event::Undo(CALL, Why::Asked))?;
    Ok(
        counted(taken)
            .wrapping_add(counted(reserved))
            .wrapping_add(undone),
    )
}

/// Attempts of the call, one in each iteration, in the cells that are picked after a seed.
fn attempts(book: &mut Book, rate: Rate, seed: u8, count: u64) -> Result<u64, Fault> {
    let mut picker = Picker {
        number: u32::from(seed),
    };
    let mut sum = 0u64;
    for _ in 0..count {
        sum = sum.wrapping_add(attempt(book, rate, picker.pick())?);
    }
    Ok(sum)
}

/// The site file of 64 cells, which has halves where channels of half rate are to be chosen.
fn text_at(alloc: Global, rate: Rate) -> Result<String, AllocError> {
    match rate {
        Rate::Full => site_text(alloc, 0),
        Rate::Half => halves_text(alloc),
    }
}

/// An attempt in each iteration, in a book in which 1,024 other calls are steady on 64 cells. The call is steady in cell 0;
/// the first octet of iteration 0 is the seed by which the cells of all attempts are picked. Of each of these the book
/// chooses a free channel at this rate, and a free reference; then the attempt is undone. The sum is the number of events
/// that the book accepts, three for each attempt.
pub fn choose_by_steps(
    alloc: Global,
    rate: Rate,
    octets: &mut Varying,
    count: u64,
) -> Result<u64, Fault> {
    let seed = octets.at(0).first().copied().unwrap_or(0);
    let text = text_at(alloc, rate)?;
    let mut book = busy_book(alloc, text.as_str(), rate)?;
    attempts(&mut book, rate, seed, count)
}
