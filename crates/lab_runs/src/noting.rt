//! A view of a desk that notes when no channel was free, for a trace.
ghost use Rattle.std.specs.Prelude.{◌≡◌, ◌∷◌, ◌++◌, [], ℕ, List, All, drop, length, IfOk, IfErr, OnOk, OnErr, IfSome, MatchOption};
ghost use Rattle.radio_desk.specs.Desk.{IsJudged, IsAnew};
ghost use Rattle.ho_procedure.specs.Claims.{Entry, Claim, IsForeign, IsNoMemory, UnknownReceipt, IsFor, SaysNone, SaysChosen, SaysRefused};
ghost use Rattle.lab_runs.specs.Notes.{IsTrueNote, sought_by, notes_after};
ghost use Rattle.lab_runs.specs.Turns.{history_of, says};

use channel_fsm::Rate;
use ho_procedure::solo::Solo;
use ho_procedure::view::{DeskView, OwnDesk};
use radio_book::ask::Ask;
use radio_desk::desk::{Desk, DeskFault};
use radio_desk::seat::Receipt;
use std::alloc::{AllocError, Allocator, Global};
use std::marker::Model;

/// A channel of a cell was asked for, and none was free at this rate.
#[derive(Clone, Copy, Debug, PartialEq, Eq)]
pub struct Note {
    /// How many events had been asked before.
    pub place: usize,
    pub cell: u8,
    pub rate: Rate,
}

/// A desk without other callers, and a note of each time that no channel of a cell was free, in order. Contracts see the
/// desk and the notes. Room for a note is made first, so memory may be refused whenever a channel is taken.
#[derive(Drop)]
pub struct Noting<A: Allocator = Global> {
    solo: Solo<A>,
    notes: Vec<Note, A>,
}

impl<A: Allocator> Model for Noting<A> {
    ghost use Rattle.std.specs.Prelude.{All};
    ghost use Rattle.lab_runs.specs.Notes.{NotingState, noting_code, IsTrueNote};

    ghost Value = { NotingState };

    ghost coded = { noting_code };

    ghost view = { λ noting. record { desk = noting.solo; notes = noting.notes.items } };

    ghost invariant = { λ noting. All (IsTrueNote noting.solo) noting.notes.items };
}

impl<A: Allocator + Copy> Noting<A> {
    /// A desk; nothing is noted yet.
    pub fn new(alloc: A, desk: Desk<A>) -> Noting<A>
        ensures desk { result.desk ≡ desk }
        ensures notes { result.notes ≡ [] }
    {
        Noting {
            solo: Solo::new(desk),
            notes: Vec::new(alloc),
        }
    }

    /// The desk.
    pub fn desk(&self) -> &Desk<A>
        ensures desk { result.now ≡ self.now.desk }
    {
        self.solo.desk()
    }

    /// How many notes there are.
    pub fn noted(&self) -> usize
        ensures len { result ≡ length self.now.notes }
    {
        self.notes.len()
    }

    /// The notes from a place in their list on; none past the last. Its contract also says that each note is true.
    pub fn notes_from(&self, place: usize) -> &[Note]
        ensures notes { result.now ≡ drop place self.now.notes }
        ensures each { All (IsTrueNote self.now.desk) result.now }
    {
        self.notes.as_slice().get(place..).unwrap_or(&[])
    }
}

impl<A: Allocator + Copy> DeskView for Noting<A> {
    ghost use Rattle.radio_desk.specs.Desk.{IsJudged};
    ghost use Rattle.lab_runs.specs.Turns.{history_of, says};

    ghost log = { history_of };

    ghost says = { says };

    ghost judged = { λ noting receipt after. IsJudged noting.desk receipt after.desk × (after.notes ≡ noting.notes) };

    // The trait's clauses once more, and that each time that no channel is free is noted.
    fn ask(&mut self, ask: Ask) -> Result<Option<Receipt>, DeskFault>
        ensures ok { IfOk result (λ answer. MatchOption answer
            ((history_of self.new ≡ history_of self.old) ×
            SaysNone (says self.old (history_of self.old)) ask)
            (λ r. IsFor ask r.event × SaysChosen (says self.old (history_of self.old)) ask r.event ×
            (history_of self.new ≡ history_of self.old ++ (r.event, r.reply) ∷ []))) }
        ensures noted { IfOk result (λ answer. self.new.notes ≡ notes_after self.old ask answer) }
        ensures receipt { IfOk result (λ answer. IfSome answer
            (λ r. IsJudged self.old.desk r self.new.desk × (self.new.notes ≡ self.old.notes))) }
        ensures err { OnErr result (history_of self.new ≡ history_of self.old) }
        ensures foreign { IfErr result (λ f. (place : ℕ) → IsForeign f place →
            says self.old (history_of self.old) (UnknownReceipt place)) }
        ensures memory { IfErr result (λ f. IsNoMemory f →
            SaysRefused (says self.old (history_of self.old)) ask) }
        ensures said { (es : List Entry) → (claim : Claim) →
            says self.new es claim → says self.old es claim }
    {
        let Some((cell, rate)) = sought_by(ask) else {
            return self.solo.ask(ask);
        };
        self.notes.reserve(1)?;
        match self.solo.ask(ask)? {
            Some(receipt) => Ok(Some(receipt)),
            None => {
                let place = self.solo.desk().len();
                self.notes.push_reserved(Note { place, cell, rate });
                Ok(None)
            }
        }
    }
}

/// The cell and the rate of a channel that is asked for.
fn sought_by(ask: Ask) -> Option<(u8, Rate)>
    ensures { result ≡ sought_by ask }
{
    match ask {
        Ask::Take(_, _, cell, rate) | Ask::Open(_, cell, rate) => Some((cell, rate)),
        Ask::Event(_) | Ask::Reserve(_) => None,
    }
}

impl<A: Allocator + Copy> OwnDesk for Noting<A> {
    ghost desk = { λ noting. noting.desk };

    // The trait's clauses once more, and that nothing is noted any more.
    fn begin_anew(&mut self) -> Result<(), AllocError>
        ensures anew { OnOk result (IsAnew self.old.desk self.new.desk) }
        ensures log { OnOk result (history_of self.new ≡ []) }
        ensures notes { OnOk result (self.new.notes ≡ []) }
        ensures unchanged { OnErr result (self.new ≡ self.old) }
    {
        self.solo.begin_anew()?;
        self.notes.clear();
        Ok(())
    }
}
