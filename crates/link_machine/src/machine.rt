//! All channels of a site.
ghost use Rattle.std.specs.Prelude.{◌≡◌, ◌↔◌, ◌++◌, ℕ, map, position, replicate, Ok, None, IfOk, OnOk, OnErr, slice_set};
ghost use Rattle.cell_table.specs.Site.{channels, index_of};
ghost use Rattle.radio_book.specs.Kinds.{call_of};
ghost use Rattle.link_machine.specs.Attempts.{undone_on, ended_at, done_at};
ghost use Rattle.link_machine.specs.Channels.{fresh, listed, owes};
ghost use Rattle.link_machine.specs.Calls.{plain, facts_of};
ghost use Rattle.link_machine.specs.Laws.{AllAgree};
ghost use Rattle.link_machine.specs.Machine.{all_moved, all_done, channel_at, one_moved, one_done, owed_of, opened, paid, first_owed, first_paid, moved_until, done_until, IsOwedNothing};
ghost use Rattle.link_machine.specs.Moving.{told};
ghost use Rattle.link_machine.specs.Passes.{passed};
ghost use Rattle.link_machine.specs.Timers.{change_by, followed_by, ran_out, is_running};

use crate::attempts::{end_on, undone_on};
use crate::calls::{CallFacts, facts_of};
use crate::channel::{Bar, Channel, InPlace};
use crate::moving::{Done, TurnFacts, Word, told};
use crate::pass::{Pass, go_through};
use crate::timers::{TimerChange, change_of, is_armed, with_timer};
use cell_table::Site;
use channel_fsm::ChanId;
use radio_book::book::Book;
use radio_book::event::{Event, Reply, Timer};
use radio_book::facts;
use std::alloc::{AllocError, Allocator, Global};
use std::sync::Arc;

/// How many numbers calls have.
const CALLS: usize = 65_536;

/// The channels of a site at their stations, and what is known of calls. Memory is asked for only when it is made, and when
/// something is appended to a caller's list.
#[derive(Drop)]
pub struct Machine<A: Allocator = Global> {
    site: Arc<Site<A>, A>,
    channels: Vec<Channel, A>,
    calls: Vec<CallFacts, A>,
}

/// Appends a channel at rest, if there is one.
fn push_fresh<A: Allocator>(
    found: &mut Vec<Channel, A>,
    chan: Option<ChanId>,
) -> Result<(), AllocError>
    ensures { OnOk result (found.new.items ≡ found.old.items ++ map fresh (listed chan)) }
{
    match chan {
        Some(chan) => {
            found.push(Channel::new(chan))?;
            Ok(())
        }
        None => Ok(()),
    }
}

/// Each traffic channel of a site at rest, by its place there.
fn fresh_channels<A: Allocator + Copy>(
    alloc: A,
    site: &Site<A>,
) -> Result<Vec<Channel, A>, AllocError>
    ensures fresh { IfOk result (λ found. found.items ≡ map fresh (channels site.now)) }
{
    let mut found = Vec::new(alloc);
    for place in 0..site.channels() {
        push_fresh(&mut found, site.chan_at(place))?;
    }
    Ok(found)
}

/// So many calls of which nothing is known.
fn plain_calls<A: Allocator>(alloc: A, count: usize) -> Result<Vec<CallFacts, A>, AllocError>
    ensures plain { IfOk result (λ calls. calls.items ≡ replicate count plain) }
{
    Vec::from_elem(alloc, CallFacts::PLAIN, count)
}

/// The place of the first channel about which the controller is owed something.
fn first_owing(channels: &[Channel]) -> Option<usize>
    ensures { result ≡ position owes channels.now }
{
    channels.iter().position(|channel| owes(channel))
}

/// Whether the controller is owed something about a channel.
fn owes(channel: &Channel) -> bool
    ensures { result ≡ owes channel.now }
{
    channel.owed.is_some()
}

/// What the controller is owed about a channel.
fn owed_of(channel: Channel) -> Option<(ChanId, InPlace)>
    ensures { result ≡ owed_of channel }
{
    match channel.owed {
        Some(what) => Some((channel.chan, what)),
        None => None,
    }
}

/// The bar of a channel about which the controller reads what it was owed. A bar that is opened has this number.
fn opened(number: u16, owed: Option<InPlace>, bar: Option<Bar>) -> Option<Bar>
    ensures { result ≡ opened number owed bar }
{
    match owed {
        Some(InPlace::OpenBar(kind)) => Some(Bar { call: number, kind }),
        Some(InPlace::Refusal | InPlace::Release | InPlace::Failure) => bar,
        Some(InPlace::EndBar(_)) | None => bar,
    }
}

/// A channel about which the controller reads what it was owed.
fn paid(number: u16, channel: Channel) -> Channel
    ensures { result ≡ paid number channel }
{
    Channel {
        owed: None,
        bar: opened(number, channel.owed, channel.bar),
        ..channel
    }
}

impl<A: Allocator + Copy> Machine<A> {
    /// A machine with all channels of a site at rest, no station there, and nothing known of calls.
    pub fn new(alloc: A, site: Arc<Site<A>, A>) -> Result<Machine<A>, AllocError>
        ensures site { IfOk result (λ machine. machine.site.value ≡ site.value) }
        ensures channels { IfOk result (λ machine. machine.channels.items ≡
            map fresh (channels site.value)) }
        ensures calls { IfOk result (λ machine. machine.calls.items ≡ replicate CALLS plain) }
    {
        let channels = fresh_channels(alloc, &site)?;
        let calls = plain_calls(alloc, CALLS)?;
        Ok(Machine {
            site,
            channels,
            calls,
        })
    }

    /// What is known of a channel of the site; `None` for any other.
    pub fn channel(&self, chan: ChanId) -> Option<Channel>
        ensures channel { result ≡ channel_at self.now.site.value self.now.channels.items chan }
    {
        let place = self.site.index_of(chan)?;
        self.channels.get(place).copied()
    }

    /// What is known of all channels of the site, by their places there.
    pub fn channels(&self) -> &[Channel]
        ensures channels { result.now ≡ self.now.channels.items }
    {
        self.channels.as_slice()
    }

    /// What is known of a call.
    pub fn facts(&self, call: u16) -> CallFacts
        ensures facts { result ≡ facts_of self.now.calls.items call }
    {
        facts_of(&self.calls, call)
    }

    /// Sets what is known of a call.
    pub fn set_facts(&mut self, call: u16, facts: CallFacts)
        ensures calls { self.new.calls.items ≡ slice_set self.old.calls.items call facts }
        ensures channels { self.new.channels.items ≡ self.old.channels.items }
        ensures site { self.new.site.value ≡ self.old.site.value }
    {
        let place = usize::from(call);
        if place < self.calls.len() {
            self.calls[place] = facts;
        }
    }

    /// Tells a channel something; the channel does what its row says. `None`, and nothing is done, if the site has no such
    /// channel.
    pub fn tell(&mut self, book: &Book<A>, chan: ChanId, word: Word) -> Option<Done>
        ensures done { result ≡ one_done (told book.now self.old.calls.items word)
            self.old.site.value self.old.channels.items chan }
        ensures channels { self.new.channels.items ≡ one_moved (told book.now self.old.calls.items word)
            self.old.site.value self.old.channels.items chan }
        ensures calls { self.new.calls.items ≡ self.old.calls.items }
        ensures site { self.new.site.value ≡ self.old.site.value }
    {
        let place = self.site.index_of(chan)?;
        let channel = *self.channels.get(place)?;
        let moved = told(book, &self.calls, channel, word);
        self.channels[place] = moved.channel;
        Some(moved.done)
    }

    /// What the controller is owed about the first channel, by place, about which it is owed anything; it is no longer owed
    /// then. A bar that is to be opened has this number from then on. `None` exactly if the controller is owed nothing.
    pub fn take_owed(&mut self, number: u16) -> Option<(ChanId, InPlace)>
        ensures owed { result ≡ first_owed self.old.channels.items }
        ensures channels { self.new.channels.items ≡ first_paid number self.old.channels.items }
        ensures none { (result ≡ None) ↔ IsOwedNothing self.old.channels.items }
        ensures calls { self.new.calls.items ≡ self.old.calls.items }
        ensures site { self.new.site.value ≡ self.old.site.value }
    {
        let place = first_owing(&self.channels)?;
        let channel = *self.channels.get(place)?;
        self.channels[place] = paid(number, channel);
        owed_of(channel)
    }

    /// Notes that a timer of a call ran out: it runs no longer. If it doesn't run, returns `false`, and nothing changes.
    pub fn run_out(&mut self, call: u16, timer: Timer) -> bool
        ensures ran { result ≡ is_running self.old.calls.items call timer }
        ensures calls { self.new.calls.items ≡ ran_out self.old.calls.items call timer }
        ensures channels { self.new.channels.items ≡ self.old.channels.items }
        ensures site { self.new.site.value ≡ self.old.site.value }
    {
        let known = self.facts(call);
        if !is_armed(timer, known.timer) {
            return false;
        }
        self.set_facts(
            call,
            CallFacts {
                timer: None,
                ..known
            },
        );
        true
    }

    /// Makes the timer of a call run exactly if the book has it armed. Returns what stops and starts; `None` if nothing does.
    pub fn follow_call(&mut self, book: &Book<A>, call: u16) -> Option<TimerChange>
        ensures change { result ≡ change_by book.now self.old.calls.items (Some call) }
        ensures calls { self.new.calls.items ≡ followed_by book.now self.old.calls.items (Some call) }
        ensures channels { self.new.channels.items ≡ self.old.channels.items }
        ensures site { self.new.site.value ≡ self.old.site.value }
    {
        let known = self.facts(call);
        let timer = book.timer(call);
        self.set_facts(call, with_timer(known, book.record(call), timer));
        change_of(call, known.timer, timer)
    }

    /// Follows an event of the turn that the book has just had: from now on the timer of the event's call runs exactly if
    /// the book has it armed. Returns what stops and starts; `None` if nothing does. All events of a turn have to be
    /// followed.
    pub fn follow(&mut self, book: &Book<A>, event: Event) -> Option<TimerChange>
        ensures change { result ≡ change_by book.now self.old.calls.items (call_of event) }
        ensures calls { self.new.calls.items ≡
            followed_by book.now self.old.calls.items (call_of event) }
        ensures channels { self.new.channels.items ≡ self.old.channels.items }
        ensures site { self.new.site.value ≡ self.old.site.value }
    {
        let call = facts::facts_of(event).about.call()?;
        self.follow_call(book, call)
    }

    /// Follows an event of a turn, with its reply. If it undoes an attempt at handover, the channel that serves its call
    /// tells a failure that was kept, or drops it. `back` is the channel that the mobile says it came back to.
    pub fn end_attempt(
        &mut self,
        book: &Book<A>,
        event: Event,
        reply: Reply,
        back: Option<ChanId>,
    ) -> Option<Done>
        ensures done { result ≡ done_at book.now self.old.calls.items back
            self.old.site.value self.old.channels.items (undone_on event reply) }
        ensures channels { self.new.channels.items ≡ ended_at book.now self.old.calls.items back
            self.old.site.value self.old.channels.items (undone_on event reply) }
        ensures calls { self.new.calls.items ≡ self.old.calls.items }
        ensures site { self.new.site.value ≡ self.old.site.value }
    {
        let chan = undone_on(event, reply)?;
        self.tell(book, chan, Word::AttemptEnded(end_on(back, chan)))
    }

    /// Tells that the link of a TRX of a cell has come up, or is lost: each of its channels does what its row says. Channels
    /// that agreed with the book still agree with it, unless the controller is owed something about them. If memory is
    /// refused, the channels that have moved are the first ones of the site, and `out` has what they do.
    pub fn link(
        &mut self,
        book: &Book<A>,
        cell: u8,
        trx: u8,
        is_up: bool,
        out: &mut Vec<Done, A>,
    ) -> Result<(), AllocError>
        ensures channels { OnOk result (self.new.channels.items ≡
            all_moved (passed book.now self.old.calls.items (Pass.Link cell trx is_up))
            self.old.channels.items) }
        ensures done { OnOk result (out.new.items ≡ out.old.items ++
            all_done (passed book.now self.old.calls.items (Pass.Link cell trx is_up))
            self.old.channels.items) }
        ensures told { OnErr result ((n : ℕ) ×
            (self.new.channels.items ≡ moved_until (passed book.now self.old.calls.items
            (Pass.Link cell trx is_up)) n self.old.channels.items) ×
            (out.new.items ≡ out.old.items ++ done_until (passed book.now self.old.calls.items
            (Pass.Link cell trx is_up)) n self.old.channels.items)) }
        ensures agree { OnOk result (AllAgree book.now self.old.channels.items →
            AllAgree book.now self.new.channels.items) }
        ensures calls { self.new.calls.items ≡ self.old.calls.items }
        ensures site { self.new.site.value ≡ self.old.site.value }
    {
        let pass = Pass::Link { cell, trx, is_up };
        go_through(book, &self.calls, pass, &mut self.channels, out)
    }

    /// Tells that the controller has had a turn. Each channel about which it is owed nothing does what its row says, if the
    /// book has changed it, and is barred if it is to be. After this each channel agrees with the book, unless the
    /// controller is owed something about it. If memory is refused, the channels that have moved are the first ones of the
    /// site, and `out` has what they do.
    pub fn settle(
        &mut self,
        book: &Book<A>,
        turn: TurnFacts,
        out: &mut Vec<Done, A>,
    ) -> Result<(), AllocError>
        ensures channels { OnOk result (self.new.channels.items ≡
            all_moved (passed book.now self.old.calls.items (Pass.Turn turn)) self.old.channels.items) }
        ensures done { OnOk result (out.new.items ≡ out.old.items ++
            all_done (passed book.now self.old.calls.items (Pass.Turn turn)) self.old.channels.items) }
        ensures told { OnErr result ((n : ℕ) ×
            (self.new.channels.items ≡ moved_until (passed book.now self.old.calls.items
            (Pass.Turn turn)) n self.old.channels.items) ×
            (out.new.items ≡ out.old.items ++ done_until (passed book.now self.old.calls.items
            (Pass.Turn turn)) n self.old.channels.items)) }
        ensures agree { OnOk result (AllAgree book.now self.new.channels.items) }
        ensures calls { self.new.calls.items ≡ self.old.calls.items }
        ensures site { self.new.site.value ≡ self.old.site.value }
    {
        let pass = Pass::Turn(turn);
        go_through(book, &self.calls, pass, &mut self.channels, out)
    }
}
