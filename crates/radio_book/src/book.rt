//! The radio book.
ghost use Rattle.std.specs.Prelude.{◌≡◌, ◌↔◌, ℕ, Option, Ok, None, IsOk, OnOk, OnErr, IfOk, IfSome, MatchOption, IsTrue, false};
ghost use Rattle.std.specs.FinMap as map;
ghost use Rattle.radio_book.specs.State.{empty_book, state_code, state_of, record_of};
ghost use Rattle.radio_tables.specs.Same.{is_same, is_same-IsEquivalence};
ghost use Rattle.std.specs.Cmp.{partial_equiv_from_equiv};
ghost use Rattle.radio_book.specs.Sound.{IsSound};
ghost use Rattle.channel_fsm.specs.declared.ChanState.{ChanState};
ghost use Rattle.radio_tables.specs.declared.kinds.CallRecord.{CallRecord};
ghost use Rattle.radio_book.specs.declared.event.Event.{Event};
ghost use Rattle.radio_book.specs.declared.event.Kind.{Kind};
ghost use Rattle.radio_book.specs.declared.event.Why.{Why};
ghost use Rattle.radio_book.specs.Journal.{journal_of, run_back};
ghost use Rattle.radio_book.specs.Table.{owner, step, reply_to, row, NeedsRoom, MayNeedRoom, MayBeRefused};
ghost use Rattle.radio_book.specs.Asks.{IsAsked, NoneFor, MayLackMemory};
ghost use Rattle.radio_book.specs.Choice.{IsFreeAt, NoneFree, NoneFreeAt, TakesFree, OpensFree, ReservesFree, IsFreeCount};

use crate::ask::Ask;
use crate::event::{CallRecord, Event, Kind, Reply, Timer};
use crate::records::Records;
use cell_table::Site;
use channel_fsm::{ChanId, ChanState, Rate};
use radio_tables::DenseTables;
use std::alloc::{AllocError, Allocator, Global};
use std::marker::Model;
use std::sync::Arc;

/// How much a book holds.
#[derive(Clone, Copy, Debug, PartialEq, Eq)]
pub struct Usage {
    /// Channels in use.
    pub channels: usize,
    /// Calls that have a record.
    pub calls: usize,
    /// Handover references in use.
    pub references: usize,
    /// Armed timers.
    pub timers: usize,
}

/// The book of a site: the state of each channel in use, the record of each call, and the handover
/// references and timers that attempts hold. It is sound at all times.
pub struct Book<A: Allocator = Global> {
    records: Records<DenseTables<A>>,
}

/// Written by hand, so that it is proved here alone: crates above would prove the drops of all parts anew for a derived one.
impl<A: Allocator> Drop for Book<A> {
    fn drop(self) {
        let Book { records: _ } = self;
    }
}

impl<A: Allocator> Model for Book<A> {
    ghost use Rattle.radio_book.specs.State.{State, state_code};
    ghost use Rattle.radio_book.specs.Sound.{IsSound};

    ghost Value = { State };

    ghost coded = { state_code };

    ghost view = { λ book. book.records };

    ghost invariant = { λ book. IsSound book.records };
}

/// Two books are equal where their sites, the states of their channels, the records of their calls, their references in
/// use and their armed timers are equal. Takes no memory.
impl<A: Allocator> PartialEq for Book<A> {
    ghost eq = { is_same state_code };

    ghost laws = { partial_equiv_from_equiv (is_same-IsEquivalence state_code) };

    fn eq(&self, other: &Book<A>) -> bool
        ensures value { result ≡ is_same state_code self.now other.now }
        ensures same { IsTrue result ↔ (self.now ≡ other.now) }
    {
        self.records.is_same(&other.records)
    }
}

impl<A: Allocator> Eq for Book<A> {
    ghost laws = { is_same-IsEquivalence state_code };
}

impl<A: Allocator + Copy> Book<A> {
    /// The book of a site in which nothing is in use. Memory is asked for.
    pub fn new(alloc: A, site: Arc<Site<A>, A>) -> Result<Book<A>, AllocError>
        ensures empty { IfOk result (λ book. book ≡ empty_book site.value) }
    {
        let tables = DenseTables::new(alloc, site)?;
        Ok(Book {
            records: Records::over(tables),
        })
    }

    /// The site, which never changes.
    pub fn site(&self) -> &Arc<Site<A>, A>
        ensures site { result.now.value ≡ self.now.site }
    {
        self.records.tables().site()
    }

    /// A copy. Memory is asked for.
    pub fn copy(&self) -> Result<Book<A>, AllocError>
        ensures copy { IfOk result (λ book. book ≡ self.now) }
    {
        let records = self.records.copy()?;
        Ok(Self { records })
    }

    /// How much the book holds. Its contract also says that every book is sound.
    pub fn usage(&self) -> Usage
        ensures channels { result.channels ≡ map.len self.now.channels }
        ensures calls { result.calls ≡ map.len self.now.calls }
        ensures references { result.references ≡ map.len self.now.references }
        ensures timers { result.timers ≡ map.len self.now.timers }
        ensures sound { IsSound self.now }
    {
        Usage {
            channels: self.records.channels(),
            calls: self.records.calls(),
            references: self.records.references(),
            timers: self.records.timers(),
        }
    }

    /// How many calls have a record. Its contract also says that every book is sound.
    pub fn calls(&self) -> usize
        ensures calls { result ≡ map.len self.now.calls }
        ensures sound { IsSound self.now }
    {
        self.records.calls()
    }

    /// How many channels are in use.
    pub fn channels(&self) -> usize
        ensures channels { result ≡ map.len self.now.channels }
    {
        self.records.channels()
    }

    /// The state of a channel; one that isn't in use has that of a free one. Takes no memory.
    pub fn state(&self, chan: ChanId) -> ChanState
        ensures state { result ≡ state_of self.now chan }
    {
        self.records.state_of(chan)
    }

    /// The call that has a channel; `None` if it is free, or off. Takes no memory.
    pub fn owner(&self, chan: ChanId) -> Option<u16>
        ensures owner { result ≡ owner (state_of self.now chan) }
    {
        self.records.owner_of(chan)
    }

    /// The record of a call; `None` if there is no such call. Takes no memory.
    pub fn record(&self, call: u16) -> Option<CallRecord>
        ensures record { result ≡ record_of self.now call }
    {
        self.records.record(call)
    }

    /// The timer that is armed for a call; `None` if none is, or if there is no such call. Takes no memory.
    pub fn timer(&self, call: u16) -> Option<Timer>
        ensures timer { result ≡ map.get self.now.timers call }
    {
        self.records.timer(call)
    }

    /// Does nothing; its contract hands out that every book is sound.
    pub(crate) fn sound(&self)
        ensures { IsSound self.now }
    {
        let _ = &self.records;
    }

    /// Judges one event by the table: its refusal, or what it changes and its answer. A refused event
    /// changes nothing.
    ///
    /// Only an accepted event that begins a call asks for memory: `Open`, and a `Take` of kind `Incoming`. If memory is
    /// refused, the book is as it was.
    pub fn step(&mut self, event: Event) -> Result<Reply, AllocError>
        ensures reply { IfOk result (λ reply. reply ≡ reply_to self.old event) }
        ensures book { OnOk result (self.new ≡ step self.old event) }
        ensures unchanged { OnErr result (self.new ≡ self.old) }
        ensures memory { OnErr result (NeedsRoom self.old (row self.old event)) }
        ensures kinds { OnErr result (MayNeedRoom event) }
        ensures begins { OnErr result (MayBeRefused false event) }

        // An undo leads where the inverses of the attempt that is shown lead, run last first.
        ensures inverses { (c : ℕ) (why : Why) (shown : CallRecord) (state : Option ChanState) →
            event ≡ Event.Undo c why → result ≡ Ok (Reply.Record shown state) →
            self.new ≡ run_back c (journal_of shown.attempt) self.old }
    {
        self.records.step(event)
    }

    /// Some free traffic channel of the cell at a rate: one where neither it nor a channel that conflicts with it is in
    /// use. `None` says that there is none, as in a cell that the site lacks. Any free channel meets the contract; this
    /// body answers that of the lowest TRX, then timeslot, then half.
    pub fn free_channel(&self, cell: u8, rate: Rate) -> Option<ChanId>
        ensures free { MatchOption result (NoneFreeAt self.now cell rate)
            (λ x. IsFreeAt self.now cell rate x) }
    {
        self.records.choose_channel(cell, rate)
    }

    /// The event that is asked: the one that is named, or one on what is free. `None` says that no channel is free, as in a
    /// cell that the site lacks. Any free channel meets the contract, and any free number; this body answers the channel of the
    /// lowest TRX, then timeslot, then half, and the lowest number.
    #[inline(always)]
    pub fn choose(&self, ask: Ask) -> Option<Event>
        ensures event { MatchOption result (NoneFor self.now ask) (λ e. IsAsked self.now ask e) }
    {
        match ask {
            Ask::Event(event) => Some(event),
            Ask::Take(call, kind, cell, rate) => {
                let chan = self.records.choose_channel(cell, rate)?;
                Some(Event::Take(call, kind, chan))
            }
            Ask::Open(call, cell, rate) => {
                let chan = self.records.choose_channel(cell, rate)?;
                Some(Event::Open(call, chan))
            }
            Ask::Reserve(call) => Some(Event::Reserve(call, self.records.choose_number(call))),
        }
    }

    /// Judges the event that is asked, as [`Book::choose`] chooses it and [`Book::step`] judges it. The answer is the event,
    /// with its reply. It is `None` exactly if no channel is free; nothing changes then.
    pub fn ask(&mut self, ask: Ask) -> Result<Option<(Event, Reply)>, AllocError>
        ensures none { (result ≡ Ok None) ↔ NoneFor self.old ask }
        ensures kept { result ≡ Ok None → self.new ≡ self.old }
        ensures event { IfOk result (λ chosen. IfSome chosen
            (λ asked. IsAsked self.old ask asked.0)) }
        ensures reply { IfOk result (λ chosen. IfSome chosen
            (λ asked. asked.1 ≡ reply_to self.old asked.0)) }
        ensures book { IfOk result (λ chosen. IfSome chosen
            (λ asked. self.new ≡ step self.old asked.0)) }
        ensures unchanged { OnErr result (self.new ≡ self.old) }
        ensures memory { OnErr result ((e : Event) × IsAsked self.old ask e ×
            NeedsRoom self.old (row self.old e)) }
        ensures begins { OnErr result (MayLackMemory ask) }
    {
        let Some(event) = self.choose(ask) else {
            return Ok(None);
        };
        let reply = self.step(event)?;
        Ok(Some((event, reply)))
    }

    /// A `Take` of some free channel of the cell at a rate, judged as by [`Book::step`], with its answer. `None` says that
    /// there is none, as in a cell that the site lacks. Memory is asked for only where the `Take` is of kind `Incoming` and
    /// is accepted. Any free channel meets the contract; this body takes that of the lowest TRX, then timeslot, then half.
    pub fn take_any(
        &mut self,
        call: u16,
        kind: Kind,
        cell: u8,
        rate: Rate,
    ) -> Result<Option<(Event, Reply)>, AllocError>
        ensures none { (result ≡ Ok None) ↔ NoneFreeAt self.old cell rate }
        ensures kept { result ≡ Ok None → self.new ≡ self.old }
        ensures event { IfOk result (λ chosen. IfSome chosen
            (λ taken. TakesFree self.old call kind cell rate taken.0)) }
        ensures reply { IfOk result (λ chosen. IfSome chosen
            (λ taken. taken.1 ≡ reply_to self.old taken.0)) }
        ensures book { IfOk result (λ chosen. IfSome chosen
            (λ taken. self.new ≡ step self.old taken.0)) }
        ensures unchanged { OnErr result (self.new ≡ self.old) }
        ensures memory { OnErr result ((e : Event) × TakesFree self.old call kind cell rate e ×
            NeedsRoom self.old (row self.old e)) }
        ensures begins { OnErr result (kind ≡ Kind.Incoming) }
    {
        self.ask(Ask::Take(call, kind, cell, rate))
    }

    /// An `Open` on some free channel of the cell at a rate, judged as by [`Book::step`], with its answer. `None` says that
    /// there is none, as in a cell that the site lacks. Memory is asked for only where the `Open` is accepted. Any free
    /// channel meets the contract; this body takes that of the lowest TRX, then timeslot, then half.
    pub fn open_any(
        &mut self,
        call: u16,
        cell: u8,
        rate: Rate,
    ) -> Result<Option<(Event, Reply)>, AllocError>
        ensures none { (result ≡ Ok None) ↔ NoneFreeAt self.old cell rate }
        ensures kept { result ≡ Ok None → self.new ≡ self.old }
        ensures event { IfOk result (λ chosen. IfSome chosen
            (λ opened. OpensFree self.old call cell rate opened.0)) }
        ensures reply { IfOk result (λ chosen. IfSome chosen
            (λ opened. opened.1 ≡ reply_to self.old opened.0)) }
        ensures book { IfOk result (λ chosen. IfSome chosen
            (λ opened. self.new ≡ step self.old opened.0)) }
        ensures unchanged { OnErr result (self.new ≡ self.old) }
        ensures memory { OnErr result ((e : Event) × OpensFree self.old call cell rate e ×
            NeedsRoom self.old (row self.old e)) }
    {
        self.ask(Ask::Open(call, cell, rate))
    }

    /// A `Reserve` of a number whose reference in the cell of the call's target isn't in use, judged as by
    /// [`Book::step`], with its answer. There is always one: a cell has no more than 96 channels. Where the
    /// call has no attempt that waits for a reference, it is `Reserve(call, 0)`, and the answer its refusal.
    /// Any such number meets the contract; this body takes the lowest. No memory is asked for, and none is refused.
    pub fn reserve_any(&mut self, call: u16) -> Result<(Event, Reply), AllocError>
        ensures event { IfOk result (λ chosen. ReservesFree self.old call chosen.0) }
        ensures reply { IfOk result (λ chosen. chosen.1 ≡ reply_to self.old chosen.0) }
        ensures book { IfOk result (λ chosen. self.new ≡ step self.old chosen.0) }
        ensures always { IsOk result }
    {
        match self.ask(Ask::Reserve(call))? {
            Some(asked) => Ok(asked),
            None => unreachable!(),
        }
    }

    /// How many traffic channels of the cell are free, of both rates: 0 for a cell that the site lacks, and exactly if
    /// [`Book::take_any`] finds none of either rate.
    pub fn free_in(&self, cell: u8) -> u32
        ensures count { IsFreeCount self.now cell result }
        ensures none { (result ≡ 0) ↔ NoneFree self.now cell }
    {
        self.records.free_in(cell)
    }
}
