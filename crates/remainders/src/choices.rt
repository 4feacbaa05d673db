//! Channels that were chosen.
use channel_fsm::{ChanId, Rate};
use radio_book::book::Book;
use radio_book::event::Event;
use std::alloc::{AllocError, Allocator};

/// A channel of a cell that was chosen at a rate, or that none was free.
#[derive(Clone, Copy, Debug, PartialEq, Eq)]
pub struct Choice {
    /// The number of its line, counted from 1.
    pub line: usize,
    /// How many events were asked before it. The next is the one that takes the channel.
    pub before: usize,
    pub cell: u8,
    pub rate: Rate,
    /// The channel. `None` if none was free: then it is no event.
    pub chosen: Option<ChanId>,
}

/// Whether a book without attempts would give another channel than was chosen, or one where none was free, and the book
/// with them wouldn't.
fn gives_other<A: Allocator + Copy>(alone: &Book<A>, whole: &Book<A>, choice: &Choice) -> bool {
    let Choice {
        line: _,
        before: _,
        cell,
        rate,
        chosen,
    } = *choice;
    let given = alone.free_channel(cell, rate);
    given.is_some() && given != chosen && given != whole.free_channel(cell, rate)
}

/// The choices that would come out otherwise, as far as the events were asked that stay.
#[derive(Drop)]
struct Walk<'a, A: Allocator + Copy> {
    /// The book with the attempts, and without them.
    whole: Book<A>,
    alone: Book<A>,
    /// The places of the events that stay, and the choices, that weren't come to yet.
    kept: &'a [usize],
    choices: &'a [Choice],
    lines: Vec<usize, A>,
}

impl<A: Allocator + Copy> Walk<'_, A> {
    /// Whether the event at a place stays.
    fn stays(&self, place: usize) -> bool {
        self.kept.first() == Some(&place)
    }

    /// Looks at a choice. One of an event that doesn't stay isn't made.
    fn look_at(&mut self, choice: &Choice) -> Result<(), AllocError> {
        let is_made = choice.chosen.is_none() || self.stays(choice.before);
        if is_made && gives_other(&self.alone, &self.whole, choice) {
            self.lines.push(choice.line)?;
        }
        Ok(())
    }

    /// Looks at the choices before the event at a place.
    fn look_before(&mut self, place: usize) -> Result<(), AllocError> {
        let mut left = self.choices;
        while let [choice, others @ ..] = left {
            if choice.before > place {
                break;
            }
            self.look_at(choice)?;
            left = others;
        }
        self.choices = left;
        Ok(())
    }

    /// Asks the event at a place: where it stays, without the attempts, too.
    fn ask(&mut self, place: usize, event: Event) -> Result<(), AllocError> {
        self.whole.step(event)?;
        if let [kept, others @ ..] = self.kept
            && *kept == place
        {
            self.alone.step(event)?;
            self.kept = others;
        }
        Ok(())
    }
}

/// The lines of the choices that would come out otherwise without the events that don't stay, upwards: at that point the book,
/// asked those alone that stand at the places that stay, gives another channel than was chosen, or one where none was free, and
/// after all events it wouldn't.
pub fn other_choices<A: Allocator + Copy>(
    alloc: A,
    book: &Book<A>,
    events: &[Event],
    kept: &[usize],
    choices: &[Choice],
) -> Result<Vec<usize, A>, AllocError> {
    let mut walk = Walk {
        whole: book.copy()?,
        alone: book.copy()?,
        kept,
        choices,
        lines: Vec::new(alloc),
    };
    for (place, event) in events.iter().enumerate() {
        walk.look_before(place)?;
        walk.ask(place, *event)?;
    }
    walk.look_before(events.len())?;
    Ok(walk.lines)
}
