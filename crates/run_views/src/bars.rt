//! The bars of attempts that were undone.
ghost use Rattle.std.specs.Prelude.{◌<◌};

use crate::attempts::Attempts;
use chart::{Bar, Side};
use std::alloc::{AllocError, Allocator, Global};

/// So many bars stand beside one another on a side; where more attempts are open at once, the others lie on the last.
const TRACKS: usize = 8;

/// The row in which each track is free again.
#[derive(Clone, Copy)]
struct Tracks {
    free: [u32; TRACKS],
}

impl Tracks {
    /// Each track is free.
    fn new() -> Tracks {
        Tracks { free: [0; TRACKS] }
    }

    /// Takes the first track that is free in a row, up to another row, or the last track.
    fn take(&mut self, first: u32, last: u32) -> u32
        ensures { result < 8 }
    {
        let track = self
            .free
            .iter()
            .position(|free| *free <= first)
            .unwrap_or(TRACKS - 1);
        if let Some(free) = self.free.get_mut(track) {
            *free = last.saturating_add(1).max(*free);
        }
        u32::try_from(track).unwrap_or(0)
    }
}

/// A bar, with its text.
#[derive(Drop)]
pub(crate) struct Marked<A: Allocator = Global> {
    first: u32,
    last: u32,
    side: Side,
    track: u32,
    text: String<A>,
}

/// Adds the bars of the attempts of a controller that were undone. The last of all rows is this one.
pub(crate) fn push_marked<A: Allocator + Copy>(
    alloc: A,
    attempts: &Attempts<A>,
    side: Side,
    last_of_all: u32,
    marked: &mut Vec<Marked<A>, A>,
) -> Result<(), AllocError> {
    let mut tracks = Tracks::new();
    for attempt in attempts.all() {
        if let Some(last) = attempt.last_of(last_of_all) {
            marked.push(Marked {
                first: attempt.first,
                last,
                side,
                track: tracks.take(attempt.first, last),
                text: format!(in alloc; "call {}", attempt.call)?,
            })?;
        }
    }
    Ok(())
}

/// A bar as a picture has it with so many rows from this one on; nothing where it stands along none of them.
fn bar_along<A: Allocator>(bar: &Marked<A>, first: u32, rows: u32) -> Option<Bar<'_>> {
    if bar.last < first || bar.first >= first.saturating_add(rows) {
        return None;
    }
    Some(Bar {
        first: bar.first.saturating_sub(first),
        last: bar.last.saturating_sub(first),
        goes_on: bar.first < first,
        side: bar.side,
        track: bar.track,
        text: bar.text.as_str(),
    })
}

/// The bars as a picture has them with so many rows from this one on.
pub(crate) fn bars_of<A: Allocator + Copy>(
    alloc: A,
    marked: &[Marked<A>],
    first: u32,
    rows: u32,
) -> Result<Vec<Bar<'_>, A>, AllocError> {
    let mut bars = Vec::new(alloc);
    for bar in marked {
        if let Some(bar) = bar_along(bar, first, rows) {
            bars.push(bar)?;
        }
    }
    Ok(bars)
}
