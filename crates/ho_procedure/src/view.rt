//! How a controller asks the book.
ghost use Rattle.std.specs.Prelude.{◌≡◌, ◌∷◌, ◌++◌, [], ℕ, List, IfOk, IfErr, OnOk, OnErr, IfSome, MatchOption};
ghost use Rattle.channel_fsm.specs.declared.ChanId.{ChanId};
ghost use Rattle.timeslots.specs.Parts.{rate_of};
ghost use Rattle.radio_desk.specs.Receipts.{Receipt};
ghost use Rattle.radio_desk.specs.Desk.{DeskState, IsAnew};
ghost use Rattle.ho_procedure.specs.Claims.{Entry, Claim, NoneFree, Chosen, UnknownReceipt, MayBeRefused, TakeMayBeRefused, IsFor, SaysNone, SaysChosen, SaysRefused, IsForeign, IsNoMemory};

use channel_fsm::Rate;
use radio_book::ask::Ask;
use radio_book::event::{Event, Kind};
use radio_desk::desk::DeskFault;
use radio_desk::seat::Receipt;
use std::alloc::AllocError;

/// A way to ask the book: at a desk of one's own, or at one that threads share. Contracts see what it was asked, each
/// event with its reply, as its log.
///
/// An answered event joins the log with its reply. After a fault, and where no channel is free, the log is as it was. What
/// it says after a call it would have said before: so it says of one book that it began with. `Foreign` it answers only
/// where it says that the desk doesn't know the view's last receipt, of the place that it answers; a view that never says
/// so is never foreign. `NoMemory` it answers only where it says that memory may be refused: for the event; for a Reserve of
/// the call, whatever the number; or where a channel of the cell is taken at the rate, for a handover or for a call that
/// begins.
pub trait DeskView {
    ghost log: { Self → List Entry };

    // what it says of its book, or of its last receipt, where it makes this claim after these entries
    ghost says: { Self → List Entry → Claim → Type 0 };

    // what a receipt says of the view before and after
    ghost judged: { Self → Receipt → Self → Type 0 };

    /// Asks an event, or one on what is free (`Desk::ask`). A refused event is answered, too, with its refusal. `None`: no channel
    /// is free for what is asked, as in a cell that the site lacks, and nothing was asked.
    ///
    /// `Foreign`: the view's last receipt, of this place, isn't from its desk's history. `NoMemory`: memory was
    /// refused.
    fn ask(&mut self, ask: Ask) -> Result<Option<Receipt>, DeskFault>
        ensures ok { IfOk result (λ answer. MatchOption answer
            ((log self.new ≡ log self.old) × SaysNone (says self.old (log self.old)) ask)
            (λ r. IsFor ask r.event × SaysChosen (says self.old (log self.old)) ask r.event ×
            (log self.new ≡ log self.old ++ (r.event, r.reply) ∷ []))) }
        ensures receipt { IfOk result (λ answer. IfSome answer
            (λ r. judged self.old r self.new)) }
        ensures err { OnErr result (log self.new ≡ log self.old) }
        ensures foreign { IfErr result (λ f. (place : ℕ) → IsForeign f place →
            says self.old (log self.old) (UnknownReceipt place)) }
        ensures memory { IfErr result (λ f. IsNoMemory f →
            SaysRefused (says self.old (log self.old)) ask) }
        ensures said { (es : List Entry) → (claim : Claim) →
            says self.new es claim → says self.old es claim };

    /// Asks this event: it is always answered. Faults as of `ask`.
    final fn judge(&mut self, event: Event) -> Result<Receipt, DeskFault>
        ensures ok { IfOk result (λ r. (r.event ≡ event) ×
            (log self.new ≡ log self.old ++ (r.event, r.reply) ∷ [])) }
        ensures receipt { IfOk result (λ r. judged self.old r self.new) }
        ensures err { OnErr result (log self.new ≡ log self.old) }
        ensures foreign { IfErr result (λ f. (place : ℕ) → IsForeign f place →
            says self.old (log self.old) (UnknownReceipt place)) }
        ensures memory { IfErr result (λ f. IsNoMemory f →
            says self.old (log self.old) (MayBeRefused event)) }
        ensures said { (es : List Entry) → (claim : Claim) →
            says self.new es claim → says self.old es claim }
    {
        match self.ask(Ask::Event(event))? {
            Some(receipt) => Ok(receipt),
            None => unreachable!(),
        }
    }

    /// Asks a Take of some channel of a cell that is free at a rate. `None` if there is none, and faults, as of `ask`.
    final fn judge_take(
        &mut self,
        call: u16,
        kind: Kind,
        cell: u8,
        rate: Rate,
    ) -> Result<Option<Receipt>, DeskFault>
        ensures ok { IfOk result (λ answer. MatchOption answer
            ((log self.new ≡ log self.old) × says self.old (log self.old) (NoneFree cell rate))
            (λ r. ((x : ChanId) × (x.cell ≡ cell) × (rate_of x.sub ≡ rate) × (r.event ≡ Event.Take call kind x)) ×
            says self.old (log self.old) (Chosen r.event) ×
            (log self.new ≡ log self.old ++ (r.event, r.reply) ∷ []))) }
        ensures receipt { IfOk result (λ answer. IfSome answer
            (λ r. judged self.old r self.new)) }
        ensures err { OnErr result (log self.new ≡ log self.old) }
        ensures foreign { IfErr result (λ f. (place : ℕ) → IsForeign f place →
            says self.old (log self.old) (UnknownReceipt place)) }
        ensures memory { IfErr result (λ f. IsNoMemory f →
            says self.old (log self.old) (TakeMayBeRefused cell rate)) }
        ensures said { (es : List Entry) → (claim : Claim) →
            says self.new es claim → says self.old es claim }
    {
        self.ask(Ask::Take(call, kind, cell, rate))
    }

    /// Asks an Open on some channel of a cell that is free at a rate. `None` if there is none, and faults, as of `ask`.
    final fn judge_open(
        &mut self,
        call: u16,
        cell: u8,
        rate: Rate,
    ) -> Result<Option<Receipt>, DeskFault>
        ensures ok { IfOk result (λ answer. MatchOption answer
            ((log self.new ≡ log self.old) × says self.old (log self.old) (NoneFree cell rate))
            (λ r. ((x : ChanId) × (x.cell ≡ cell) × (rate_of x.sub ≡ rate) × (r.event ≡ Event.Open call x)) ×
            says self.old (log self.old) (Chosen r.event) ×
            (log self.new ≡ log self.old ++ (r.event, r.reply) ∷ []))) }
        ensures receipt { IfOk result (λ answer. IfSome answer
            (λ r. judged self.old r self.new)) }
        ensures err { OnErr result (log self.new ≡ log self.old) }
        ensures foreign { IfErr result (λ f. (place : ℕ) → IsForeign f place →
            says self.old (log self.old) (UnknownReceipt place)) }
        ensures memory { IfErr result (λ f. IsNoMemory f →
            says self.old (log self.old) (TakeMayBeRefused cell rate)) }
        ensures said { (es : List Entry) → (claim : Claim) →
            says self.new es claim → says self.old es claim }
    {
        self.ask(Ask::Open(call, cell, rate))
    }

    /// Asks a Reserve of some free Handover Reference, a number from 0 to 255 (TS 44.018 clause 10.5.2.15), in the cell
    /// of the call's target: it is always answered. Faults as of `ask`.
    final fn judge_reserve(&mut self, call: u16) -> Result<Receipt, DeskFault>
        ensures ok { IfOk result (λ r. ((n : ℕ) × (r.event ≡ Event.Reserve call n)) ×
            says self.old (log self.old) (Chosen r.event) ×
            (log self.new ≡ log self.old ++ (r.event, r.reply) ∷ [])) }
        ensures receipt { IfOk result (λ r. judged self.old r self.new) }
        ensures err { OnErr result (log self.new ≡ log self.old) }
        ensures foreign { IfErr result (λ f. (place : ℕ) → IsForeign f place →
            says self.old (log self.old) (UnknownReceipt place)) }
        ensures memory { IfErr result (λ f. IsNoMemory f →
            (n : ℕ) → says self.old (log self.old) (MayBeRefused (Event.Reserve call n))) }
        ensures said { (es : List Entry) → (claim : Claim) →
            says self.new es claim → says self.old es claim }
    {
        match self.ask(Ask::Reserve(call))? {
            Some(receipt) => Ok(receipt),
            None => unreachable!(),
        }
    }
}

/// A view of a desk that nobody else asks. So the desk may begin anew, without a caller whose receipts it would forget.
pub trait OwnDesk: DeskView {
    // the desk that it asks
    ghost desk: { Self → DeskState };

    /// Its desk begins anew with today's book (`Desk::begin_anew`), and nothing was asked of it since. Memory is asked for, for a
    /// copy of the book; where it is refused, nothing changes.
    fn begin_anew(&mut self) -> Result<(), AllocError>
        ensures anew { OnOk result (IsAnew (desk self.old) (desk self.new)) }
        ensures log { OnOk result (Self.log self.new ≡ []) }
        ensures unchanged { OnErr result (self.new ≡ self.old) };
}
