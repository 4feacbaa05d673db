//! A run in which an operator undoes an attempt.
use crate::deaf::Deaf;
use exchange::{Inbound, Line};
use lab_runs::course::{Course, MOST_ANSWERS, Run, drop_rest};
use lab_runs::run::{Sites, fresh_course, script_items};
use lab_runs::waiting::Waiting;
use lab_script::script::{Given, Item, Side};
use run_listeners::LabFault;
use std::alloc::Allocator;
use std::collections::VecDeque;

/// Where an operator undoes an attempt at handover, in addition to the script.
#[derive(Clone, Copy, Debug, PartialEq, Eq)]
pub struct Interruption {
    /// After this number of inputs, of the script and of simulators.
    pub behind: usize,
    /// The controller.
    pub side: Side,
    /// The call of the attempt.
    pub call: u16,
}

/// A script that is being played, in which an operator takes an attempt back.
#[derive(Drop)]
struct Interrupted<A: Allocator + Copy> {
    course: Course<A>,
    /// What simulators sent, and wasn't handled yet.
    waiting: Waiting<A>,
    undo: Interruption,
}

impl<A: Allocator + Copy> Interrupted<A> {
    /// Does what a line of a script gives; each is for a controller that is there. What simulators answer waits.
    fn begin(&mut self, item: Item<A>, deaf: &mut Deaf) -> Result<(), LabFault> {
        if self.course.controllers.has(item.side) {
            self.course.begin(item, &mut self.waiting, deaf)
        } else {
            Ok(())
        }
    }

    /// The operator takes the attempt back, where that is due.
    fn interrupt(&mut self, deaf: &mut Deaf) -> Result<(), LabFault> {
        if self.course.turns.len() != self.undo.behind {
            return Ok(());
        }
        let undo = Inbound::Operator(Line::Undo {
            call: self.undo.call,
        });
        let item = Item {
            side: self.undo.side,
            given: Given::Input(undo),
        };
        self.begin(item, deaf)
    }

    /// Handles what simulators sent first; nothing if nothing waits. Answers whether something did.
    fn answer(&mut self, deaf: &mut Deaf) -> Result<bool, LabFault> {
        let Some(arrival) = self.waiting.pop_front() else {
            return Ok(false);
        };
        self.course.arrive(arrival, &mut self.waiting, deaf)?;
        self.interrupt(deaf)?;
        Ok(true)
    }

    /// Does what a line of a script gives, and then what waits behind that, until nothing of it is left.
    fn follow(&mut self, item: Item<A>, deaf: &mut Deaf) -> Result<(), LabFault> {
        self.begin(item, deaf)?;
        self.interrupt(deaf)?;
        for _ in 0..MOST_ANSWERS {
            if !self.answer(deaf)? {
                return Ok(());
            }
        }
        drop_rest(&mut self.waiting, deaf)
    }
}

/// Does what the lines of a script give over empty books of the sites, in their order, and right behind one input, be it a
/// simulator's, what an operator gives who takes an attempt back. Nothing where a line of the script can't be read.
pub(crate) fn play_interrupted<A: Allocator + Copy>(
    alloc: A,
    sites: Sites<A>,
    script: &str,
    undo: Interruption,
) -> Result<Option<Run<A>>, LabFault> {
    let mut deaf = Deaf::new();
    let Some(items) = script_items(alloc, script, sites.peer.is_some(), &mut deaf)? else {
        return Ok(None);
    };
    let mut playing = Interrupted {
        course: fresh_course(alloc, sites)?,
        waiting: VecDeque::new(alloc),
        undo,
    };
    for item in items {
        playing.follow(item, &mut deaf)?;
    }
    let Interrupted {
        course,
        waiting: _,
        undo: _,
    } = playing;
    Ok(Some(course.into_run()))
}
