//! The points of a run at which attempts are open.
use crate::interrupted::Interruption;
use lab_script::script::Side;
use radio_book::event::{Event, Reply};
use radio_book::facts::facts_of;
use run_listeners::{Source, Turn};
use std::alloc::{AllocError, Allocator, Global};
use trace_text::trace::Step;

/// An attempt that is open.
#[derive(Clone, Copy, Debug, PartialEq, Eq)]
struct Open {
    side: Side,
    call: u16,
    /// The place of the event that opened it, among all that its controller was asked, counted from 0.
    opening: usize,
}

/// A point at which an attempt is open.
#[derive(Clone, Copy, Debug, PartialEq, Eq)]
pub struct Point {
    /// Where an operator is to undo the attempt.
    pub undo: Interruption,
    /// The place of the event that opened it, among all that its controller was asked, counted from 0.
    pub opening: usize,
}

/// How many events each controller was asked.
#[derive(Clone, Copy)]
struct Asked {
    first: usize,
    peer: usize,
}

impl Asked {
    /// One more is asked; how many were before.
    fn count(&mut self, side: Side) -> usize {
        let count = match side {
            Side::First => &mut self.first,
            Side::Peer => &mut self.peer,
        };
        let before = *count;
        *count = before.saturating_add(1);
        before
    }
}

/// The attempts that are open behind what came of a run so far.
#[derive(Drop)]
struct OpenAttempts<A: Allocator = Global> {
    open: Vec<Open, A>,
    asked: Asked,
}

impl<A: Allocator + Copy> OpenAttempts<A> {
    /// Nothing was asked yet.
    fn new(alloc: A) -> OpenAttempts<A> {
        OpenAttempts {
            open: Vec::new(alloc),
            asked: Asked { first: 0, peer: 0 },
        }
    }

    /// The attempt of a call is over.
    fn end(&mut self, side: Side, call: u16) {
        self.open
            .retain(|open| open.side != side || open.call != call);
    }

    /// An event was accepted, at a place of all that its controller was asked.
    fn accept(&mut self, side: Side, opening: usize, event: Event) -> Result<(), AllocError> {
        let facts = facts_of(event);
        if let Some((call, _)) = facts.opens {
            self.open.push(Open {
                side,
                call,
                opening,
            })?;
        }
        if let Some(call) = facts.ends {
            self.end(side, call);
        }
        Ok(())
    }

    /// An event was asked of a controller's book, which replied so.
    fn ask(&mut self, side: Side, event: Event, reply: Reply) -> Result<(), AllocError> {
        let place = self.asked.count(side);
        if reply.is_accepted() {
            self.accept(side, place, event)?;
        }
        Ok(())
    }

    /// What came of an input.
    fn go_on(&mut self, turn: &Turn<A>) -> Result<(), AllocError> {
        for step in &turn.steps {
            match step {
                Step::Asked(event, reply) => self.ask(turn.side, *event, *reply)?,
                Step::NoneFree(..) => {}
            }
        }
        Ok(())
    }

    /// Adds the points right behind so many inputs.
    fn add_points(&self, behind: usize, points: &mut Vec<Point, A>) -> Result<(), AllocError> {
        for open in &self.open {
            points.push(Point {
                undo: Interruption {
                    behind,
                    side: open.side,
                    call: open.call,
                },
                opening: open.opening,
            })?;
        }
        Ok(())
    }
}

/// Whether the line that gave the last of so many inputs gives another at once, so that nobody comes between the two: the next is
/// one of the script, and no line begins there.
fn is_within<A: Allocator>(next: Option<&Turn<A>>, starts: &[usize], behind: usize) -> bool {
    match next {
        Some(turn) => turn.source == Source::Script && !starts.contains(&behind),
        None => false,
    }
}

/// The points of a run at which an attempt is open: after each input, each open attempt, in the order in which they opened,
/// but not between the inputs that one line gives at once. `starts` says for each line how many inputs come before it.
pub fn points_of<A: Allocator + Copy>(
    alloc: A,
    turns: &[Turn<A>],
    starts: &[usize],
) -> Result<Vec<Point, A>, AllocError> {
    let mut open = OpenAttempts::new(alloc);
    let mut points = Vec::new(alloc);
    for (place, turn) in turns.iter().enumerate() {
        let behind = place.saturating_add(1);
        open.go_on(turn)?;
        if !is_within(turns.get(behind), starts, behind) {
            open.add_points(behind, &mut points)?;
        }
    }
    Ok(points)
}
