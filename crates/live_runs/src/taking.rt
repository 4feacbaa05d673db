//! A live controller, which is given its lines one by one.
ghost use Rattle.std.specs.Prelude.{◌≡◌, ◌↔◌, ◌≤◌, ◌∷◌, [], ◌||◌, true, false, IsTrue, length, IfOk, OnOk, OnErr};
ghost use Rattle.lab_script.specs.Script.{is_item_there};
ghost use Rattle.lab_runs.specs.Turns.{is_attach};
ghost use Rattle.lab_runs.specs.Course.{BeginsWith, IsAnewAt, has_peer, has_simulators};
ghost use Rattle.live_runs.specs.Lines.{can_be_read};
ghost use Rattle.live_runs.specs.Live.{Goes, Rests, Takes, history_of, IsShort};

use crate::line::{Said, read_line};
use lab_runs::course::Course;
use lab_script::script::Item;
use radio_book::book::Book;
use run_listeners::{LabFault, Listener};
use std::alloc::{AllocError, Allocator, Global};

/// A controller that is given its lines one by one, and the simulators around it once a line has attached them. Of what came
/// of a line only the book's history is kept.
#[derive(Drop)]
pub struct Live<A: Allocator + Copy = Global> {
    /// The controller, and the simulators around it.
    pub course: Course<A>,
    alloc: A,
}

impl<A: Allocator + Copy> Live<A> {
    /// A controller over a book, which has been given nothing yet. No simulators are attached.
    pub fn over(alloc: A, book: Book<A>) -> Result<Live<A>, AllocError>
        ensures opening { IfOk result (λ live. BeginsWith book live.course.controllers.first) }
        ensures peer { IfOk result (λ live. has_peer live.course ≡ false) }
        ensures sim { IfOk result (λ live. has_simulators live.course ≡ false) }
    {
        Ok(Live {
            course: Course::over(alloc, book)?,
            alloc,
        })
    }

    /// Begins the desk anew with today's book exactly if its history has `entries` entries or more. The answer is whether it
    /// did. Memory is asked for a copy of the book; if it is refused, the history is as it was.
    pub fn rest(&mut self, entries: usize) -> Result<bool, AllocError>
        ensures rested { OnOk result (Rests self.old self.new) }
        ensures when { IfOk result (λ anew. IsTrue anew ↔
            (entries ≤ length (history_of self.old.course))) }
        ensures refused { OnErr result ((entries ≤ length (history_of self.old.course)) ×
            (history_of self.new.course ≡ history_of self.old.course)) }
        ensures short { OnOk result (IsShort entries self.new.course) }
        ensures anew { result ≡ Ok true → IsAnewAt self.old.course.controllers.first self.new.course.controllers.first }
    {
        if self.course.controllers.first_entries() < entries {
            return Ok(false);
        }
        self.course.begin_anew()?;
        Ok(true)
    }

    /// Does what a line gives, and then what simulators answer to that, until nothing of it is left.
    fn follow<L: Listener<A>>(&mut self, item: Item<A>, listener: &mut L) -> Result<(), LabFault>
        requires there { is_item_there (has_peer self.old.course) item ≡ true }
        ensures goes { OnOk result (Goes (item ∷ []) self.old self.new) }
        ensures sim { OnOk result (has_simulators self.new.course ≡
            is_attach item.given || has_simulators self.old.course) }
    {
        self.course.follow(item, listener)?;
        self.course.forget_turns();
        Ok(())
    }

    /// Takes a line, given without its line feed: handles what it gives, and tells a listener what came of it. If it can't
    /// be read, nothing changes and nobody is told anything. The answer is whether it could be read.
    ///
    /// Once memory was refused (`NoMemory`), or the listener couldn't write (`Write`), only this is promised of the
    /// controller: what it asked of its book stands. What it owes was told.
    pub fn take<L: Listener<A>>(&mut self, line: &[u8], listener: &mut L) -> Result<bool, LabFault>
        requires alone { has_peer self.old.course ≡ false }
        ensures takes { OnOk result (Takes true line.now self.old self.new) }
        ensures read { IfOk result (λ read. read ≡ can_be_read (has_simulators self.old.course) line.now) }
        ensures unreadable { result ≡ Ok false → self.new ≡ self.old }
    {
        let said = read_line(self.alloc, line, self.course.has_simulators())?;
        match said {
            Said::Unreadable => Ok(false),
            Said::Nothing => Ok(true),
            Said::Gives(item) => {
                self.follow(item, listener)?;
                Ok(true)
            }
        }
    }
}
