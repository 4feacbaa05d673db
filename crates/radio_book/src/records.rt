//! The tables of a book, and what each event does to them: written once, for all kinds of tables. [`Book`](crate::book::Book)
//! has these over dense tables, and keeps them sound.
ghost use Rattle.std.specs.Prelude.{◌≡◌, ◌↔◌, OnOk, OnErr, IfOk, IfSome, IfNone, IsTrue};
ghost use Rattle.std.specs.FinMap as map;
ghost use Rattle.radio_book.specs.State.{state_of};
ghost use Rattle.radio_book.specs.Sound.{IsSound};
ghost use Rattle.radio_book.specs.Choice.{IsFreeAt, NoneFree, NoneFreeAt, IsFreeCount};
ghost use Rattle.radio_book.specs.Table.{step, reply_to, row, NeedsRoom, MayNeedRoom, MayBeRefused, record_reply};

mod attempt;
mod calling;
mod channels;
mod choice;
mod entries;
mod outgoing;
mod station;
mod undo;

use crate::event::{CallRecord, Event, Kind, Reply};
use channel_fsm::{ChanId, ChanState, Rate};
use radio_tables::tables::{CopyTables, Tables};
use std::alloc::AllocError;
use std::marker::Model;

/// The tables of a book. Any tables: whether they are sound, the book says.
#[derive(Drop)]
pub struct Records<T: Tables> {
    tables: T,
}

impl<T: Tables> Model for Records<T> {
    ghost use Rattle.radio_tables.specs.State.{State, state_code};

    ghost Value = { State };

    ghost coded = { state_code };

    ghost view = { λ records. T.state records.tables };
}

impl<T: Tables> Records<T> {
    /// What these tables say.
    pub fn over(tables: T) -> Records<T>
        ensures { result ≡ T.state tables }
    {
        Records { tables }
    }

    /// The tables, to be asked what a book has no words for.
    pub fn tables(&self) -> &T
        ensures { T.state result.now ≡ self.now }
    {
        &self.tables
    }

    /// Whether two of them say the same. Takes no memory.
    pub fn is_same(&self, other: &Records<T>) -> bool
        ensures { IsTrue result ↔ (self.now ≡ other.now) }
    {
        self.tables.is_same(&other.tables)
    }

    /// How many channels are in use.
    pub fn channels(&self) -> usize
        ensures { result ≡ map.len self.now.channels }
    {
        self.tables.channels()
    }

    /// How many calls have a record.
    pub fn calls(&self) -> usize
        ensures { result ≡ map.len self.now.calls }
    {
        self.tables.calls()
    }

    /// How many handover references are in use.
    pub fn references(&self) -> usize
        ensures { result ≡ map.len self.now.references }
    {
        self.tables.references()
    }

    /// How many timers are armed.
    pub fn timers(&self) -> usize
        ensures { result ≡ map.len self.now.timers }
    {
        self.tables.timers()
    }

    /// A free traffic channel of the cell at a rate.
    pub fn choose_channel(&self, cell: u8, rate: Rate) -> Option<ChanId>
        ensures found { IfSome result (λ x. IsFreeAt self.now cell rate x) }
        ensures none { IfNone result (NoneFreeAt self.now cell rate) }
    {
        self.tables.some_free(cell, rate)
    }

    /// How many traffic channels of the cell are free.
    pub fn free_in(&self, cell: u8) -> u32
        ensures count { IsFreeCount self.now cell result }
        ensures none { (result ≡ 0) ↔ NoneFree self.now cell }
    {
        self.tables.free_in(cell)
    }

    /// What the table says. Memory may be refused to an event that begins a call; to another, only where it may be refused to
    /// a change in place.
    pub fn step(&mut self, event: Event) -> Result<Reply, AllocError>
        requires { IsSound self.old }
        ensures reply { IfOk result (λ reply. reply ≡ reply_to self.old event) }
        ensures book { OnOk result (self.new ≡ step self.old event) }
        ensures unchanged { OnErr result (self.new ≡ self.old) }
        ensures memory { OnErr result (NeedsRoom self.old (row self.old event)) }
        ensures kinds { OnErr result (MayNeedRoom event) }
        ensures in_place { OnErr result (MayBeRefused T.may_refuse_in_place event) }
    {
        match event {
            Event::Open(call, x) => self.open(call, x),
            Event::Clear(call) => Ok(self.clear(call)),
            Event::Look(call) => Ok(self.look(call)),
            Event::Take(call, Kind::Internal, x) => self.take_internal(call, x),
            Event::Take(call, Kind::Incoming, x) => self.take_incoming(call, x),
            Event::Reserve(call, number) => self.reserve(call, number),
            Event::Activate(call) => Ok(self.activate(call)),
            Event::Undo(call, why) => Ok(self.undo(call, why)),
            Event::Confirm(x) => Ok(self.confirm(x)),
            Event::Refuse(x) => Ok(self.refuse(x)),
            Event::Released(x) => Ok(self.released(x)),
            Event::Command(call) => Ok(self.command(call)),
            Event::Complete(call) => Ok(self.complete(call)),
            Event::Detect(x) => Ok(self.detect(x)),
            Event::Owner(x) => Ok(self.owner(x)),
            Event::Require(call) => Ok(self.require(call)),
            Event::Order(call) => Ok(self.order(call)),
            Event::Left(call) => Ok(self.left(call)),
        }
    }

    /// The record, and the state of its serving channel.
    fn record_reply(&self, found: CallRecord) -> Reply
        ensures { result ≡ record_reply found (state_of self.now) }
    {
        match found.serving {
            Some(x) => Reply::Record(found, Some(self.state_of(x))),
            None => Reply::Record(found, None),
        }
    }
}

impl<T: CopyTables> Records<T> {
    /// A copy. Memory is asked for.
    pub fn copy(&self) -> Result<Records<T>, AllocError>
        ensures { IfOk result (λ copy. copy ≡ self.now) }
    {
        let tables = self.tables.copy()?;
        Ok(Records { tables })
    }
}
