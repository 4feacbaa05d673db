//! A desk with only one caller.
ghost use Rattle.std.specs.Prelude.{◌≡◌, ◌⊎◌, ◌∷◌, ◌++◌, [], ℕ, List, Ok, Err, None, IfOk, IfErr, OnErr, IfSome, MatchOption};
ghost use Rattle.radio_book.specs.declared.event.Event.{Event};
ghost use Rattle.radio_book.specs.Asks.{IsAsked, NoneFor};
ghost use Rattle.radio_book.specs.Table.{row, NeedsRoom};
ghost use Rattle.radio_desk.specs.Desk.{IsJudged, LacksRoom};
ghost use Rattle.ho_procedure.specs.Claims.{Entry, Claim, UnknownReceipt, IsFor, SaysNone, SaysChosen, SaysRefused, IsForeign, IsNoMemory, IsTrueAfter};

use crate::view::{DeskView, OwnDesk};
use radio_book::ask::Ask;
use radio_desk::desk::{Desk, DeskFault};
use radio_desk::seat::{Receipt, Seat};
use std::alloc::{AllocError, Allocator, Global};
use std::marker::Model;

/// A desk with its only caller. Contracts see it as the desk.
///
/// It says that no channel of a cell is free only where the desk's book has none, chooses what is free there, and its
/// desk never finds it foreign: it asks each time from a new seat, since a desk that nobody else asks has no receipt to
/// compare. Nor does it say that memory may be refused for an `Undo` or a `Released` that is accepted, or to take a channel
/// where none is free.
pub struct Solo<A: Allocator = Global> {
    desk: Desk<A>,
}

// By hand, as that of a controller.
impl<A: Allocator> Drop for Solo<A> {
    fn drop(self) {
        let Solo { desk: _ } = self;
    }
}

impl<A: Allocator> Model for Solo<A> {
    ghost use Rattle.radio_desk.specs.Desk.{DeskState, desk_code};

    ghost Value = { DeskState };

    ghost coded = { desk_code };

    ghost view = { λ solo. solo.desk };
}

impl<A: Allocator> Solo<A> {
    /// A desk, whose seats are all new.
    pub fn new(desk: Desk<A>) -> Solo<A>
        ensures desk { result ≡ desk }
    {
        Solo { desk }
    }

    /// Its desk.
    pub fn desk(&self) -> &Desk<A>
        ensures desk { result.now ≡ self.now }
    {
        &self.desk
    }
}

impl<A: Allocator + Copy> DeskView for Solo<A> {
    ghost use Rattle.radio_desk.specs.Desk.{IsJudged};
    ghost use Rattle.ho_procedure.specs.Claims.{IsTrueAfter};

    ghost log = { λ solo. solo.history };

    ghost says = { λ solo log claim. IsTrueAfter solo.opening log claim };

    ghost judged = { λ before receipt after. IsJudged before receipt after };

    // The trait's clauses once more; that no channel is found where none is free; and that memory is refused only where the desk
    // may be refused it.
    #[inline(always)]
    fn ask(&mut self, ask: Ask) -> Result<Option<Receipt>, DeskFault>
        ensures ok { IfOk result (λ answer. MatchOption answer
            ((self.new.history ≡ self.old.history) ×
            SaysNone (IsTrueAfter self.old.opening self.old.history) ask)
            (λ r. IsFor ask r.event ×
            SaysChosen (IsTrueAfter self.old.opening self.old.history) ask r.event ×
            (self.new.history ≡ self.old.history ++ (r.event, r.reply) ∷ []))) }
        ensures receipt { IfOk result (λ answer. IfSome answer
            (λ r. IsJudged self.old r self.new)) }
        ensures err { OnErr result (self.new.history ≡ self.old.history) }
        ensures foreign { IfErr result (λ f. (place : ℕ) → IsForeign f place →
            IsTrueAfter self.old.opening self.old.history (UnknownReceipt place)) }
        ensures memory { IfErr result (λ f. IsNoMemory f →
            SaysRefused (IsTrueAfter self.old.opening self.old.history) ask) }
        ensures looked { NoneFor self.old.book ask → result ≡ Ok None }
        ensures refused { result ≡ Err DeskFault.NoMemory → LacksRoom self.old ⊎
            ((e : Event) × IsAsked self.old.book ask e ×
            NeedsRoom self.old.book (row self.old.book e)) }
        ensures said { (es : List Entry) → (claim : Claim) →
            IsTrueAfter self.new.opening es claim → IsTrueAfter self.old.opening es claim }
    {
        let _entries = self.desk.len();
        self.desk.ask(&mut Seat::new(), ask)
    }
}

impl<A: Allocator + Copy> OwnDesk for Solo<A> {
    ghost desk = { λ solo. solo };

    fn begin_anew(&mut self) -> Result<(), AllocError> {
        self.desk.begin_anew()
    }
}
