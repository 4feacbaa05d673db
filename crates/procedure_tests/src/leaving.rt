//! A view of a desk that doesn't know its seat any more.
ghost use Rattle.std.specs.Prelude.{◌≡◌, IfErr};

use ho_procedure::solo::Solo;
use ho_procedure::view::DeskView;
use radio_book::ask::Ask;
use radio_desk::desk::{Desk, DeskFault};
use radio_desk::seat::Receipt;
use std::alloc::{Allocator, Global};
use std::marker::Model;

/// A desk of one's own, which doesn't know its seat any more once it has judged so many events. Contracts see it as the
/// desk.
#[derive(Drop)]
pub struct Leaving<A: Allocator = Global> {
    solo: Solo<A>,
    events: usize,
}

impl<A: Allocator> Model for Leaving<A> {
    ghost use Rattle.radio_desk.specs.Desk.{DeskState, desk_code};

    ghost Value = { DeskState };

    ghost coded = { desk_code };

    ghost view = { λ leaving. leaving.solo };
}

impl<A: Allocator + Copy> Leaving<A> {
    /// A desk that knows its seat until it has judged so many events.
    pub fn new(desk: Desk<A>, events: usize) -> Leaving<A>
        ensures desk { result ≡ desk }
    {
        Leaving {
            solo: Solo::new(desk),
            events,
        }
    }

    /// The receipt that isn't known is one of place 7.
    fn sits(&self) -> Result<(), DeskFault>
        ensures place { IfErr result (λ f. f ≡ DeskFault.Foreign 7) }
    {
        if self.solo.desk().len() < self.events {
            Ok(())
        } else {
            Err(DeskFault::Foreign(7))
        }
    }
}

impl<A: Allocator + Copy> DeskView for Leaving<A> {
    ghost use Rattle.radio_desk.specs.Desk.{IsJudged};
    ghost use Rattle.procedure_tests.specs.Leaving.{IsSaidAfter};

    ghost log = { λ leaving. leaving.history };

    ghost says = { λ leaving log claim. IsSaidAfter leaving.opening log claim };

    ghost judged = { λ before receipt after. IsJudged before receipt after };

    fn ask(&mut self, ask: Ask) -> Result<Option<Receipt>, DeskFault> {
        self.sits()?;
        self.solo.ask(ask)
    }
}
