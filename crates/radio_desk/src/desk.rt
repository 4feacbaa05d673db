//! The desk: an opening book, the history of what was asked since, and the book that it leads to.
ghost use Rattle.std.specs.Prelude.{◌≡◌, ◌≢◌, ◌↔◌, ◌⊎◌, IsTrue, false, ◌+◌, ◌≤◌, ◌++◌, ◌∷◌, ℕ, [], length, vec_len, vec_capacity, Option, None, Some, Ok, Err, MatchOption, IfOk, IfSome, OnOk, OnErr, slice_get};
ghost use Rattle.radio_book.specs.declared.event.Event.{Event};
ghost use Rattle.radio_book.specs.declared.event.Kind.{Kind};
ghost use Rattle.radio_book.specs.declared.facts.Milestone.TheVariants as milestone;
ghost use Rattle.radio_book.specs.Run.{Leads};
ghost use Rattle.radio_book.specs.Table.{row, reply_to, NeedsRoom, MayBeRefused};
ghost use Rattle.radio_book.specs.Choice.{NoneFreeAt, TakesFree, OpensFree, ReservesFree};
ghost use Rattle.radio_book.specs.Kinds.{is_accepted};
ghost use Rattle.radio_book.specs.Owed.{owed, is_owed};
ghost use Rattle.radio_book.specs.Asks.{IsAsked, NoneFor, MayLackMemory};
ghost use Rattle.radio_desk.specs.Desk.{IsOwedAsk, IsEntryOf, HoldsLast, IsForeign, IsJudged, IsSameDesk, IsAnew, LacksRoom};
ghost use Rattle.radio_desk.specs.Receipts.{Receipt};
ghost use Rattle.radio_desk.specs.Tally.{count_of};
ghost use Rattle.radio_desk.specs.Audit.{IsAuditOf};

use crate::audit::{Audit, audit_of};
use crate::entry::is_entry;
use crate::room::{answer, make_room};
use crate::seat::{Receipt, Seat};
use crate::tally::{Tally, tally_of};
use channel_fsm::Rate;
use radio_book::ask::Ask;
use radio_book::book::Book;
use radio_book::event::{Event, Kind, Reply};
use std::alloc::{AllocError, Allocator, Global};
use std::marker::Model;
use thiserror::Error;

/// Why a desk judges nothing.
#[derive(Clone, Copy, Debug, PartialEq, Eq, Error)]
pub enum DeskFault {
    /// The last receipt of the seat, of this place, isn't from this desk's history.
    #[error("the receipt of place {0} is of another desk")]
    Foreign(usize),
    /// Memory was refused.
    #[error("memory was refused")]
    NoMemory,
}

impl From<AllocError> for DeskFault {
    ghost use Rattle.std.specs.Prelude.{◌≡◌};
    ghost use Rattle.radio_desk.specs.declared.desk.DeskFault.TheVariants.{NoMemory};

    ghost from_gives = { λ _ fault. fault ≡ NoMemory };

    fn from(_: AllocError) -> DeskFault {
        DeskFault::NoMemory
    }
}

/// A book with its history: the book that it opened with, every event that was judged since with its reply, and the book
/// that they lead to. Contracts see these three, and how many more entries the history takes without memory: at any time
/// one for each open attempt and each channel in use, which are owed an `Undo` and a `Released`.
pub struct Desk<A: Allocator = Global> {
    opening: Book<A>,
    history: Vec<(Event, Reply), A>,
    book: Book<A>,
}

/// Written by hand, so that it is proved here alone: crates above would prove a derived one anew.
impl<A: Allocator> Drop for Desk<A> {
    fn drop(self) {
        let Desk {
            opening: _,
            history: _,
            book: _,
        } = self;
    }
}

impl<A: Allocator> Model for Desk<A> {
    ghost use Rattle.std.specs.Prelude.{◌-◌, vec_len, vec_capacity};
    ghost use Rattle.radio_desk.specs.Desk.{DeskState, IsInOrder, desk_code};

    ghost Value = { DeskState };

    ghost coded = { desk_code };

    ghost view = { λ desk. record {
      opening = desk.opening;
      book = desk.book;
      history = desk.history.items;
      room = vec_capacity desk.history - vec_len desk.history;
    } };

    ghost invariant = { λ desk. IsInOrder (record {
      opening = desk.opening;
      book = desk.book;
      history = desk.history.items;
      room = vec_capacity desk.history - vec_len desk.history;
    }) };
}

impl<A: Allocator + Copy> Desk<A> {
    /// A desk that opens with this book, and has been asked nothing yet. Memory is asked for: for the copy of the book that
    /// is kept, and for the room that is kept for what is owed in it.
    pub fn new(alloc: A, book: Book<A>) -> Result<Desk<A>, AllocError>
        ensures opening { IfOk result (λ desk. desk.opening ≡ book) }
        ensures book { IfOk result (λ desk. desk.book ≡ book) }
        ensures history { IfOk result (λ desk. desk.history ≡ []) }
    {
        let opening = book.copy()?;
        let mut history = Vec::new(alloc);
        make_room(&mut history, &book)?;
        Ok(Desk {
            opening,
            history,
            book,
        })
    }

    /// How many events were judged. Its contract also says that the history leads from the opening book to the book, and has
    /// room for all that is owed there.
    pub fn len(&self) -> usize
        ensures len { result ≡ length self.now.history }
        ensures legal { Leads self.now.opening self.now.history self.now.book }
        ensures room { owed self.now.book ≤ self.now.room }
    {
        self.history.len()
    }

    /// The entry at a place, counted from 0. `None` past the last.
    pub fn entry(&self, place: usize) -> Option<&(Event, Reply)>
        ensures entry { MatchOption result (slice_get self.now.history place ≡ None)
            (λ entry. slice_get self.now.history place ≡ Some entry.now) }
    {
        self.history.get(place)
    }

    /// Whether the receipt is of this history: its event with its reply is at its place.
    pub fn has(&self, receipt: &Receipt) -> bool
        ensures entry { IsTrue result ↔ IsEntryOf self.now.history receipt.now }
    {
        has_entry(self.history.as_slice(), receipt)
    }

    /// How many calls began, how many attempts at handover, and how many of these were completed or taken back, by the
    /// events that were accepted.
    pub fn tally(&self) -> Tally
        ensures calls { result.calls ≡ count_of milestone.Opened self.now.history }
        ensures attempts { result.attempts ≡ count_of milestone.Began self.now.history }
        ensures completed { result.completed ≡ count_of milestone.Completed self.now.history }
        ensures undone { result.undone ≡ count_of milestone.Undone self.now.history }
    {
        tally_of(self.history.as_slice())
    }

    /// Takes out of the history all attempts at handover that were undone and are settled, together: how many they are, where
    /// the first entry stands that was refused because one of them had the channel or the reference, and whether the entries
    /// that remain, asked alone, lead to the same book and get the same replies. Where no entry was refused so, they do.
    ///
    /// Takes the time of one run of what remains, and of two looks at each entry for the open attempts of its cell, or of the
    /// calls that share the row of its call. Memory is asked for, for a copy of the book, lists as long as the history, and,
    /// twice, 1,280 rows of places.
    pub fn audit(&self) -> Result<Audit, AllocError>
        ensures audit { IfOk result (IsAuditOf self.now) }
    {
        let alloc = *self.history.allocator();
        audit_of(alloc, self.opening(), self.history.as_slice(), self.book())
    }

    /// The book that it opened with.
    pub fn opening(&self) -> &Book<A>
        ensures opening { result.now ≡ self.now.opening }
    {
        &self.opening
    }

    /// The book after all that was judged.
    pub fn book(&self) -> &Book<A>
        ensures book { result.now ≡ self.now.book }
    {
        &self.book
    }

    /// Asks the book what [`Book::choose`] chooses there, judges it as [`Book::step`] does, and keeps it with its reply,
    /// also where it is refused. The receipt is the seat's last from then on. `None` exactly if no channel is free for what
    /// is asked, is no entry, changes nothing and takes no memory.
    ///
    /// `Foreign`, which is looked at first exactly if the history doesn't hold the seat's last receipt. After either fault
    /// desk and seat are as they were; after `NoMemory` the history may have got room.
    ///
    /// An accepted `Undo` or `Released` takes no memory and is never refused any: its entry has the room that was kept for
    /// it, and the history gets no other. Before any other event changes the book, room is made for its entry and for what is
    /// owed because of it.
    // Compiled into its callers, so that a receipt that neither seat nor caller keeps is never written.
    #[inline(always)]
    pub fn ask(&mut self, seat: &mut Seat, ask: Ask) -> Result<Option<Receipt>, DeskFault>
        ensures foreign { (place : ℕ) → (result ≡ Err (DeskFault.Foreign place)) ↔
            IsForeign self.old.history seat.old place }
        ensures held { OnOk result (HoldsLast self.old.history seat.old) }
        ensures none { result ≡ Ok None → NoneFor self.old.book ask }
        ensures looked { HoldsLast self.old.history seat.old → NoneFor self.old.book ask →
            result ≡ Ok None }
        ensures kept { result ≡ Ok None → IsSameDesk self.old self.new × (seat.new ≡ seat.old) }
        ensures none_takes_none { result ≡ Ok None → self.new.room ≡ self.old.room }
        ensures event { IfOk result (λ answer. IfSome answer
            (λ receipt. IsAsked self.old.book ask receipt.event)) }
        ensures judged { IfOk result (λ answer. IfSome answer
            (λ receipt. IsJudged self.old receipt self.new)) }
        ensures seat { IfOk result (λ answer. IfSome answer
            (λ receipt. seat.new ≡ Some receipt)) }
        ensures unchanged { OnErr result (IsSameDesk self.old self.new × (seat.new ≡ seat.old)) }
        ensures foreign_takes_none { (place : ℕ) → result ≡ Err (DeskFault.Foreign place) →
            self.new.room ≡ self.old.room }
        ensures memory { result ≡ Err DeskFault.NoMemory → LacksRoom self.old ⊎
            ((e : Event) × IsAsked self.old.book ask e ×
            NeedsRoom self.old.book (row self.old.book e)) }
        ensures begins { result ≡ Err DeskFault.NoMemory →
            LacksRoom self.old ⊎ MayLackMemory ask }
        ensures owed { IsOwedAsk self.old.book ask → result ≢ Err DeskFault.NoMemory }
        ensures takes_none { IsOwedAsk self.old.book ask →
            OnOk result (self.new.room + 1 ≡ self.old.room) }
    {
        if let Some(place) = foreign_place(self.history.as_slice(), seat) {
            return Err(DeskFault::Foreign(place));
        }
        let Some(event) = self.book.choose(ask) else {
            return Ok(None);
        };
        let reply = answer(&mut self.history, &mut self.book, event)?;
        Ok(Some(enter(&mut self.history, seat, event, reply)))
    }

    /// Asks this event, as [`Desk::ask`] does: it is always answered.
    #[inline(always)]
    pub fn judge(&mut self, seat: &mut Seat, event: Event) -> Result<Receipt, DeskFault>
        ensures foreign { (place : ℕ) → (result ≡ Err (DeskFault.Foreign place)) ↔
            IsForeign self.old.history seat.old place }
        ensures held { OnOk result (HoldsLast self.old.history seat.old) }
        ensures event { IfOk result (λ receipt. receipt.event ≡ event) }
        ensures judged { IfOk result (λ receipt. IsJudged self.old receipt self.new) }
        ensures seat { IfOk result (λ receipt. seat.new ≡ Some receipt) }
        ensures unchanged { OnErr result (IsSameDesk self.old self.new × (seat.new ≡ seat.old)) }
        ensures foreign_takes_none { (place : ℕ) → result ≡ Err (DeskFault.Foreign place) →
            self.new.room ≡ self.old.room }
        ensures memory { result ≡ Err DeskFault.NoMemory →
            LacksRoom self.old ⊎ NeedsRoom self.old.book (row self.old.book event) }
        ensures begins { result ≡ Err DeskFault.NoMemory →
            LacksRoom self.old ⊎ MayBeRefused false event }
        ensures owed { IsTrue (is_owed event) →
            IsTrue (is_accepted (reply_to self.old.book event)) →
            result ≢ Err DeskFault.NoMemory }
        ensures takes_none { IsTrue (is_owed event) →
            IsTrue (is_accepted (reply_to self.old.book event)) →
            OnOk result (self.new.room + 1 ≡ self.old.room) }
    {
        match self.ask(seat, Ask::Event(event))? {
            Some(receipt) => Ok(receipt),
            None => unreachable!(),
        }
    }

    /// Asks a `Take` of some channel of a cell that is free at a rate, as [`Desk::ask`] does.
    pub fn judge_take(
        &mut self,
        seat: &mut Seat,
        call: u16,
        kind: Kind,
        cell: u8,
        rate: Rate,
    ) -> Result<Option<Receipt>, DeskFault>
        ensures foreign { (place : ℕ) → (result ≡ Err (DeskFault.Foreign place)) ↔
            IsForeign self.old.history seat.old place }
        ensures held { OnOk result (HoldsLast self.old.history seat.old) }
        ensures none { result ≡ Ok None → NoneFreeAt self.old.book cell rate }
        ensures looked { HoldsLast self.old.history seat.old → NoneFreeAt self.old.book cell rate →
            result ≡ Ok None }
        ensures kept { result ≡ Ok None → IsSameDesk self.old self.new × (seat.new ≡ seat.old) }
        ensures takes_none { result ≡ Ok None → self.new.room ≡ self.old.room }
        ensures event { IfOk result (λ answer. IfSome answer
            (λ receipt. TakesFree self.old.book call kind cell rate receipt.event)) }
        ensures judged { IfOk result (λ answer. IfSome answer
            (λ receipt. IsJudged self.old receipt self.new)) }
        ensures seat { IfOk result (λ answer. IfSome answer
            (λ receipt. seat.new ≡ Some receipt)) }
        ensures unchanged { OnErr result (IsSameDesk self.old self.new × (seat.new ≡ seat.old)) }
        ensures foreign_takes_none { (place : ℕ) → result ≡ Err (DeskFault.Foreign place) →
            self.new.room ≡ self.old.room }
        ensures memory { result ≡ Err DeskFault.NoMemory → LacksRoom self.old ⊎
            ((e : Event) × TakesFree self.old.book call kind cell rate e ×
            NeedsRoom self.old.book (row self.old.book e)) }
        ensures begins { result ≡ Err DeskFault.NoMemory →
            LacksRoom self.old ⊎ (kind ≡ Kind.Incoming) }
    {
        self.ask(seat, Ask::Take(call, kind, cell, rate))
    }

    /// Asks an `Open` on some channel of a cell that is free at a rate, as [`Desk::ask`] does.
    pub fn judge_open(
        &mut self,
        seat: &mut Seat,
        call: u16,
        cell: u8,
        rate: Rate,
    ) -> Result<Option<Receipt>, DeskFault>
        ensures foreign { (place : ℕ) → (result ≡ Err (DeskFault.Foreign place)) ↔
            IsForeign self.old.history seat.old place }
        ensures held { OnOk result (HoldsLast self.old.history seat.old) }
        ensures none { result ≡ Ok None → NoneFreeAt self.old.book cell rate }
        ensures looked { HoldsLast self.old.history seat.old → NoneFreeAt self.old.book cell rate →
            result ≡ Ok None }
        ensures kept { result ≡ Ok None → IsSameDesk self.old self.new × (seat.new ≡ seat.old) }
        ensures takes_none { result ≡ Ok None → self.new.room ≡ self.old.room }
        ensures event { IfOk result (λ answer. IfSome answer
            (λ receipt. OpensFree self.old.book call cell rate receipt.event)) }
        ensures judged { IfOk result (λ answer. IfSome answer
            (λ receipt. IsJudged self.old receipt self.new)) }
        ensures seat { IfOk result (λ answer. IfSome answer
            (λ receipt. seat.new ≡ Some receipt)) }
        ensures unchanged { OnErr result (IsSameDesk self.old self.new × (seat.new ≡ seat.old)) }
        ensures foreign_takes_none { (place : ℕ) → result ≡ Err (DeskFault.Foreign place) →
            self.new.room ≡ self.old.room }
        ensures memory { result ≡ Err DeskFault.NoMemory → LacksRoom self.old ⊎
            ((e : Event) × OpensFree self.old.book call cell rate e ×
            NeedsRoom self.old.book (row self.old.book e)) }
    {
        self.ask(seat, Ask::Open(call, cell, rate))
    }

    /// Asks a `Reserve` of some free reference, as [`Desk::ask`] does: it is always answered. Memory is asked for the history
    /// alone.
    pub fn judge_reserve(&mut self, seat: &mut Seat, call: u16) -> Result<Receipt, DeskFault>
        ensures foreign { (place : ℕ) → (result ≡ Err (DeskFault.Foreign place)) ↔
            IsForeign self.old.history seat.old place }
        ensures held { OnOk result (HoldsLast self.old.history seat.old) }
        ensures event { IfOk result (λ receipt. ReservesFree self.old.book call receipt.event) }
        ensures judged { IfOk result (λ receipt. IsJudged self.old receipt self.new) }
        ensures seat { IfOk result (λ receipt. seat.new ≡ Some receipt) }
        ensures unchanged { OnErr result (IsSameDesk self.old self.new × (seat.new ≡ seat.old)) }
        ensures foreign_takes_none { (place : ℕ) → result ≡ Err (DeskFault.Foreign place) →
            self.new.room ≡ self.old.room }
        ensures memory { result ≡ Err DeskFault.NoMemory → LacksRoom self.old }
    {
        match self.ask(seat, Ask::Reserve(call))? {
            Some(receipt) => Ok(receipt),
            None => unreachable!(),
        }
    }

    /// Begins anew with today's book: it is the opening one from now on, and the history is empty. The history keeps its
    /// memory, so that there is room for what is owed.
    ///
    /// A seat with a receipt of before is foreign from now on, as [`Desk::judge`] says, until the history has an entry like
    /// the receipt's at its place. Memory is asked for, for a copy of the book; where it is refused, nothing changes.
    pub fn begin_anew(&mut self) -> Result<(), AllocError>
        ensures anew { OnOk result (IsAnew self.old self.new) }
        ensures foreign { OnOk result ((r : Receipt) → IsForeign self.new.history (Some r) r.place) }
        ensures unchanged { OnErr result (self.new ≡ self.old) }
    {
        self.opening = self.book.copy()?;
        self.history.clear();
        Ok(())
    }
}

/// The place of the seat's last receipt, where the history doesn't hold it.
#[inline(always)]
fn foreign_place(history: &[(Event, Reply)], seat: &Seat) -> Option<usize>
    ensures { MatchOption result (HoldsLast history.now seat.now)
        (λ place. IsForeign history.now seat.now place) }
{
    let last = seat.last()?;
    if has_entry(history, &last) {
        None
    } else {
        Some(last.place)
    }
}

/// At the receipt's place stands its event with its reply.
fn has_entry(history: &[(Event, Reply)], receipt: &Receipt) -> bool
    ensures { IsTrue result ↔ IsEntryOf history.now receipt.now }
{
    match history.get(receipt.place) {
        Some(entry) => is_entry(entry, receipt.event, receipt.reply),
        None => false,
    }
}

/// Appends an entry, for which there is room, and gives the seat its receipt.
fn enter<A: Allocator + Copy>(
    history: &mut Vec<(Event, Reply), A>,
    seat: &mut Seat,
    event: Event,
    reply: Reply,
) -> Receipt
    requires room { vec_len history.old + 1 ≤ vec_capacity history.old }
    ensures receipt { result ≡ record {
      place = length history.old.items;
      event = event;
      reply = reply;
    } }
    ensures history { history.new.items ≡ history.old.items ++ (event, reply) ∷ [] }
    ensures len { vec_len history.new ≡ vec_len history.old + 1 }
    ensures capacity { vec_capacity history.new ≡ vec_capacity history.old }
    ensures seat { seat.new ≡ Some result }
{
    let receipt = Receipt {
        place: history.len(),
        event,
        reply,
    };
    history.push_reserved((event, reply));
    seat.keep(receipt);
    receipt
}
