//! A seat at a shared desk that reports the progress of calls to a gate.
ghost use Rattle.std.specs.Prelude.{◌≡◌, length};
ghost use Rattle.call_worker.specs.Points.{point_at, point_of, told_of};

use ho_procedure::shared::Shared;
use ho_procedure::view::DeskView;
use radio_book::ask::Ask;
use radio_book::event::Event;
use radio_book::facts::{Milestone, facts_of};
use radio_desk::desk::DeskFault;
use radio_desk::seat::Receipt;
use std::alloc::{Allocator, Global};
use std::marker::Model;
use std::sync::{Arc, Wait};

/// How far the handover of a call has come.
#[derive(Clone, Copy, Debug, PartialEq, Eq)]
pub enum Point {
    /// The mobile is to be sent to the target: a Command was accepted.
    Commanded,
    /// The attempt has ended: a Complete or an Undo was accepted.
    Answered,
}

/// A gate, which each worker passes on its own thread, without holding a lock. So a gate may hold one worker back while
/// others go on.
pub trait Gate {
    /// The call (0 to 65535) has come to this point.
    fn pass(&self, call: u16, point: Point);
}

/// A seat at a shared desk, and the gate that it reports to. Contracts see its receipts.
#[derive(Drop)]
pub struct Gated<R: Wait + Drop, G: Gate + Drop, A: Allocator = Global> {
    shared: Shared<R, A>,
    gate: Arc<G, A>,
}

impl<R: Wait + Drop, G: Gate + Drop, A: Allocator> Model for Gated<R, G, A> {
    ghost use Rattle.std.specs.Prelude.{List};
    ghost use Rattle.radio_desk.specs.Receipts.{Receipt};

    ghost Value = { List Receipt };

    ghost view = { λ gated. gated.shared };
}

/// The point to which a call comes at a milestone.
fn point_at(milestone: Milestone) -> Option<Point>
    ensures { result ≡ point_at milestone }
{
    match milestone {
        Milestone::Opened | Milestone::Began => None,
        Milestone::Commanded => Some(Point::Commanded),
        Milestone::Completed | Milestone::Undone => Some(Point::Answered),
    }
}

/// The call that comes to a point by the event, once it is accepted.
fn point_of(event: Event) -> Option<(u16, Point)>
    ensures { result ≡ point_of event }
{
    let facts = facts_of(event);
    let call = facts.about.call()?;
    let point = point_at(facts.milestone?)?;
    Some((call, point))
}

/// What a gate is told of a receipt.
fn told_of(receipt: &Receipt) -> Option<(u16, Point)>
    ensures { result ≡ told_of receipt.now }
{
    if !receipt.reply.is_accepted() {
        return None;
    }
    point_of(receipt.event)
}

impl<R: Wait + Drop, G: Gate + Drop, A: Allocator + Copy> Gated<R, G, A> {
    pub(crate) fn new(shared: Shared<R, A>, gate: Arc<G, A>) -> Gated<R, G, A>
        ensures { result ≡ shared }
    {
        Gated { shared, gate }
    }

    /// How many receipts it has.
    pub(crate) fn len(&self) -> usize
        ensures { result ≡ length self.now }
    {
        self.shared.len()
    }

    pub(crate) fn into_shared(self) -> Shared<R, A>
        ensures { result ≡ self }
    {
        let Gated { shared, gate: _ } = self;
        shared
    }

    fn tell(&self, receipt: &Receipt) {
        if let Some((call, point)) = told_of(receipt) {
            self.gate.pass(call, point);
        }
    }
}

impl<R: Wait + Drop, G: Gate + Drop, A: Allocator + Copy> DeskView for Gated<R, G, A> {
    ghost use Rattle.radio_desk.specs.Receipts.{Joined, receipted};

    ghost log = { λ gated. receipted gated };

    ghost says = { λ gated log claim. Unit {0} };

    ghost judged = { λ before receipt after. Joined before receipt after };

    // The desk's lock is given back before the gate is told.
    fn ask(&mut self, ask: Ask) -> Result<Option<Receipt>, DeskFault> {
        let answer = self.shared.ask(ask)?;
        if let Some(receipt) = &answer {
            self.tell(receipt);
        }
        Ok(answer)
    }
}
