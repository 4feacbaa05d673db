//! A controller and its links.
ghost use Rattle.std.specs.Prelude.{◌≡◌, ◌++◌, slice_set, Ok, IfOk, IfErr, OnOk, OnErr};
ghost use Rattle.radio_book.specs.Run.{Leads};
ghost use Rattle.lab_runs.specs.Turns.{IsTurn};
ghost use Rattle.link_machine.specs.Laws.{AllAgree};
ghost use Rattle.link_machine.specs.declared.pass.Pass.{Pass};
ghost use Rattle.link_machine.specs.Moving.{told};
ghost use Rattle.link_machine.specs.Passes.{passed};
ghost use Rattle.link_machine.specs.Machine.{one_done, one_moved, all_moved, all_done, first_owed, first_paid, IsOwedNothing};
ghost use Rattle.link_machine.specs.Timers.{TimersRun};
ghost use Rattle.bsc_runs.specs.Heard.{expired_of, back_on};
ghost use Rattle.bsc_runs.specs.Owed.{next_for};
ghost use Rattle.bsc_runs.specs.Sent.{sent_away};
ghost use Rattle.bsc_runs.specs.Turns.{known_before, Follows, FollowsSoFar, Gives, Stops};

use crate::heard::{back_on, chan_of, expired_of, said_in};
use crate::in_place::{Next, next_for};
use crate::sent::sent_away;
use crate::steps::{Acts, Given, follow_turn};
use channel_fsm::{ChanId, ChanState};
use exchange::Inbound;
use ho_procedure::controller::Controller;
use lab_runs::noting::Noting;
use lab_runs::turn::{Spare, TurnFault, take_turn};
use lab_script::script::Side;
use link_machine::{CallFacts, Done, Machine, Said, TurnFacts, Word};
use link_tables::Heard;
use radio_book::book::Book;
use run_listeners::{Source, Turn};
use std::alloc::{AllocError, Allocator, Global};

/// Why the consequences of an input aren't returned.
#[derive(Drop)]
pub enum LinksFault<A: Allocator = Global> {
    /// Why what came of it isn't returned.
    Turn(TurnFault<A>),
    /// Memory was refused, so what is to be done isn't returned for all links. This came of the input.
    Links(Turn<A>),
}

/// A controller of a site, and the links of its stations.
#[derive(Drop)]
pub struct Links<A: Allocator + Copy = Global> {
    controller: Controller<Noting<A>, A>,
    machine: Machine<A>,
}

/// What the book has of the channel that an input is about.
fn known_before<A: Allocator + Copy>(
    book: &Book<A>,
    chan: Option<ChanId>,
) -> Option<(ChanId, ChanState)>
    ensures known { result ≡ known_before book.now chan }
{
    match chan {
        Some(chan) => Some((chan, book.state(chan))),
        None => None,
    }
}

impl<A: Allocator + Copy> Links<A> {
    /// A controller and its links, as they are.
    pub fn new(controller: Controller<Noting<A>, A>, machine: Machine<A>) -> Links<A>
        ensures controller { result.controller ≡ controller }
        ensures machine { result.machine ≡ machine }
    {
        Links {
            controller,
            machine,
        }
    }

    /// The book. Its contract also says that the desk's history leads to it.
    pub fn book(&self) -> &Book<A>
        ensures book { result.now ≡ self.now.controller.0.desk.book }
        ensures legal { Leads self.now.controller.0.desk.opening self.now.controller.0.desk.history
            self.now.controller.0.desk.book }
    {
        let desk = self.controller.view().desk();
        let _events = desk.len();
        desk.book()
    }

    /// The channels and the calls, as far as the book doesn't describe them.
    pub fn machine(&self) -> &Machine<A>
        ensures machine { result.now ≡ self.now.machine }
    {
        &self.machine
    }

    /// Sets what is known of a call.
    pub fn set_facts(&mut self, call: u16, facts: CallFacts)
        ensures calls { self.new.machine.calls.items ≡
            slice_set self.old.machine.calls.items call facts }
        ensures channels { self.new.machine.channels.items ≡ self.old.machine.channels.items }
        ensures controller { self.new.controller ≡ self.old.controller }
        ensures site { self.new.machine.site.value ≡ self.old.machine.site.value }
    {
        self.machine.set_facts(call, facts)
    }

    /// Tells what is heard about a channel. Returns what the channel does by its row. `None`, and nothing is done, if the site
    /// has no such channel.
    pub fn hear(&mut self, chan: ChanId, heard: Heard) -> Option<Done>
        ensures done { result ≡ one_done (told self.old.controller.0.desk.book
            self.old.machine.calls.items (Word.Heard heard)) self.old.machine.site.value
            self.old.machine.channels.items chan }
        ensures channels { self.new.machine.channels.items ≡
            one_moved (told self.old.controller.0.desk.book self.old.machine.calls.items
            (Word.Heard heard)) self.old.machine.site.value self.old.machine.channels.items chan }
        ensures controller { self.new.controller ≡ self.old.controller }
        ensures calls { self.new.machine.calls.items ≡ self.old.machine.calls.items }
        ensures site { self.new.machine.site.value ≡ self.old.machine.site.value }
    {
        let book = self.controller.view().desk().book();
        self.machine.tell(book, chan, Word::Heard(heard))
    }

    /// Tells that the link of a TRX of a cell has come up, or is lost: its channels do what their rows say. If memory is
    /// refused, the channels that have moved are the first ones of the site.
    pub fn link(
        &mut self,
        cell: u8,
        trx: u8,
        is_up: bool,
        out: &mut Vec<Done, A>,
    ) -> Result<(), AllocError>
        ensures channels { OnOk result (self.new.machine.channels.items ≡
            all_moved (passed self.old.controller.0.desk.book self.old.machine.calls.items
            (Pass.Link cell trx is_up)) self.old.machine.channels.items) }
        ensures done { OnOk result (out.new.items ≡ out.old.items ++
            all_done (passed self.old.controller.0.desk.book self.old.machine.calls.items
            (Pass.Link cell trx is_up)) self.old.machine.channels.items) }
        ensures agree { OnOk result (
            AllAgree self.old.controller.0.desk.book self.old.machine.channels.items →
            AllAgree self.old.controller.0.desk.book self.new.machine.channels.items) }
        ensures controller { self.new.controller ≡ self.old.controller }
        ensures calls { self.new.machine.calls.items ≡ self.old.machine.calls.items }
        ensures site { self.new.machine.site.value ≡ self.old.machine.site.value }
    {
        let book = self.controller.view().desk().book();
        self.machine.link(book, cell, trx, is_up, out)
    }

    /// The links follow a turn, before which the book had this of the channel that its input is about.
    fn follow(
        &mut self,
        turn: Turn<A>,
        said: Option<Said>,
        known: Option<(ChanId, ChanState)>,
        out: &mut Acts<A>,
    ) -> Result<Turn<A>, LinksFault<A>>
        ensures turn { IfOk result (λ same. same ≡ turn) }
        ensures follows { OnOk result (Follows self.old.controller.0.desk.book (expired_of turn.input)
            (record { about = known; sent_away = sent_away turn.answer }) (back_on said)
            self.old.machine.site.value turn.steps.items
            (record {
              calls = self.old.machine.calls.items;
              channels = self.old.machine.channels.items;
              timers = out.old.timers.items;
              done = out.old.done.items;
            })
            (record {
              calls = self.new.machine.calls.items;
              channels = self.new.machine.channels.items;
              timers = out.new.timers.items;
              done = out.new.done.items;
            })) }
        ensures fault { IfErr result (λ fault. fault ≡ LinksFault.Links turn) }
        ensures so_far { OnErr result (FollowsSoFar self.old.controller.0.desk.book (expired_of turn.input)
            (record { about = known; sent_away = sent_away turn.answer }) turn.steps.items
            (record {
              calls = self.old.machine.calls.items;
              channels = self.old.machine.channels.items;
              timers = out.old.timers.items;
              done = out.old.done.items;
            })
            (record {
              calls = self.new.machine.calls.items;
              channels = self.new.machine.channels.items;
              timers = out.new.timers.items;
              done = out.new.done.items;
            })) }
        ensures agree { OnOk result (AllAgree self.old.controller.0.desk.book
            self.new.machine.channels.items) }
        ensures controller { self.new.controller ≡ self.old.controller }
        ensures site { self.new.machine.site.value ≡ self.old.machine.site.value }
    {
        let given = Given {
            expired: expired_of(&turn.input),
            turn: TurnFacts {
                about: known,
                sent_away: sent_away(&turn.answer),
            },
            back: back_on(said),
        };
        let book = self.controller.view().desk().book();
        match follow_turn(&mut self.machine, book, turn.steps.as_slice(), given, out) {
            Ok(()) => Ok(turn),
            Err(AllocError) => Err(LinksFault::Links(turn)),
        }
    }

    /// The controller handles an input, and its links follow. Returns what came of it, and appends what is to be done at the
    /// links. After this, all channels agree with the book, except those about which the controller is owed something; and
    /// timers of calls run exactly if the book has them armed, if this was so before. If memory is refused after the turn,
    /// what was appended so far is done.
    pub fn give(
        &mut self,
        alloc: A,
        source: Source,
        input: Inbound<A>,
        spare: Spare<A>,
        out: &mut Acts<A>,
    ) -> Result<Turn<A>, LinksFault<A>>
        ensures turn { IfOk result (λ turn. IsTurn self.old.controller turn self.new.controller) }
        ensures input { IfOk result (λ turn. turn.input ≡ input) }
        ensures gives { IfOk result (λ turn. Gives self.old.controller.0.desk.book turn
            self.new.controller.0.desk.book self.old.machine.site.value
            (record {
              calls = self.old.machine.calls.items;
              channels = self.old.machine.channels.items;
              timers = out.old.timers.items;
              done = out.old.done.items;
            })
            (record {
              calls = self.new.machine.calls.items;
              channels = self.new.machine.channels.items;
              timers = out.new.timers.items;
              done = out.new.done.items;
            })) }
        ensures stops { IfErr result (λ fault. Stops self.old.controller input self.new.controller
            (record {
              calls = self.old.machine.calls.items;
              channels = self.old.machine.channels.items;
              timers = out.old.timers.items;
              done = out.old.done.items;
            })
            (record {
              calls = self.new.machine.calls.items;
              channels = self.new.machine.channels.items;
              timers = out.new.timers.items;
              done = out.new.done.items;
            }) fault) }
        ensures agree { OnOk result (AllAgree self.new.controller.0.desk.book
            self.new.machine.channels.items) }
        ensures timers { OnOk result (
            TimersRun self.old.controller.0.desk.book self.old.machine.calls.items →
            TimersRun self.new.controller.0.desk.book self.new.machine.calls.items) }
        ensures site { self.new.machine.site.value ≡ self.old.machine.site.value }
    {
        let said = said_in(&input);
        let known = known_before(self.book(), chan_of(said));
        match take_turn(
            alloc,
            &mut self.controller,
            Side::First,
            source,
            input,
            spare,
        ) {
            Ok(turn) => self.follow(turn, said, known, out),
            Err(fault) => Err(LinksFault::Turn(fault)),
        }
    }

    /// What the controller is to be given next in another's place. What it was owed about this channel isn't owed any
    /// longer. A bar is opened with the number `fresh`, which no call has. `Settled` says that it is owed nothing.
    pub fn next_in_place(&mut self, alloc: A, fresh: u16) -> Result<Next<A>, AllocError>
        ensures next { IfOk result (λ next. next ≡ next_for self.old.controller.0.desk.book fresh
            (first_owed self.old.machine.channels.items)) }
        ensures settled { result ≡ Ok Next.Settled → IsOwedNothing self.new.machine.channels.items }
        ensures channels { self.new.machine.channels.items ≡
            first_paid fresh self.old.machine.channels.items }
        ensures controller { self.new.controller ≡ self.old.controller }
        ensures calls { self.new.machine.calls.items ≡ self.old.machine.calls.items }
        ensures site { self.new.machine.site.value ≡ self.old.machine.site.value }
    {
        let owed = self.machine.take_owed(fresh);
        next_for(alloc, self.controller.view().desk().book(), fresh, owed)
    }
}
