//! The consequences of a turn's steps at the links.
ghost use Rattle.std.specs.Prelude.{◌≡◌, ◌+◌, ◌<◌, ◌≤◌, ◌++◌, [], length, vec_len, vec_capacity, OnOk, OnErr};
ghost use Rattle.link_machine.specs.Laws.{AllAgree};
ghost use Rattle.bsc_runs.specs.Steps.{followed_step, step_changes, followed_steps, steps_changes, ended_step, step_done, ended_steps, steps_done, refollowed, expiry_changes};
ghost use Rattle.bsc_runs.specs.Steps.{calls_behind, changes_behind};
ghost use Rattle.bsc_runs.specs.Turns.{channels_behind, done_behind, TimersSoFar, ChannelsSoFar, Follows, FollowsSoFar};

use channel_fsm::ChanId;
use link_machine::{Done, Machine, TimerChange, TurnFacts};
use radio_book::book::Book;
use radio_book::event::Timer;
use std::alloc::{AllocError, Allocator, Global};
use trace_text::trace::Step;

/// What is to be done at the links, in order: for timers of calls, and for channels.
#[derive(Drop)]
pub struct Acts<A: Allocator = Global> {
    pub timers: Vec<TimerChange, A>,
    pub done: Vec<Done, A>,
}

impl<A: Allocator + Copy> Acts<A> {
    /// Nothing to be done.
    pub fn new(alloc: A) -> Acts<A>
        ensures timers { result.timers.items ≡ [] }
        ensures done { result.done.items ≡ [] }
    {
        Acts {
            timers: Vec::new(alloc),
            done: Vec::new(alloc),
        }
    }
}

/// If a timer of a call ran out, makes it run again exactly if the book has it armed. If memory is refused, nothing
/// changes.
fn follow_expiry<A: Allocator + Copy>(
    machine: &mut Machine<A>,
    book: &Book<A>,
    expired: Option<(u16, Timer)>,
    out: &mut Vec<TimerChange, A>,
) -> Result<(), AllocError>
    ensures calls { OnOk result (machine.new.calls.items ≡
        refollowed book.now expired machine.old.calls.items) }
    ensures changes { OnOk result (out.new.items ≡ out.old.items ++
        expiry_changes book.now expired machine.old.calls.items) }
    ensures unchanged { OnErr result (machine.new.calls.items ≡ machine.old.calls.items) }
    ensures untold { OnErr result (out.new.items ≡ out.old.items) }
    ensures channels { machine.new.channels.items ≡ machine.old.channels.items }
    ensures site { machine.new.site.value ≡ machine.old.site.value }
{
    let Some((call, timer)) = expired else {
        return Ok(());
    };
    out.reserve(1)?;
    machine.run_out(call, timer);
    if let Some(change) = machine.follow_call(book, call) {
        out.push_reserved(change);
    }
    Ok(())
}

/// The timer of a step's call follows the book.
fn follow_step<A: Allocator + Copy>(
    machine: &mut Machine<A>,
    book: &Book<A>,
    step: &Step,
    out: &mut Vec<TimerChange, A>,
)
    requires room { vec_len out.old < vec_capacity out.old }
    ensures calls { machine.new.calls.items ≡ followed_step book.now machine.old.calls.items step.now }
    ensures changes { out.new.items ≡ out.old.items ++
        step_changes book.now machine.old.calls.items step.now }
    ensures len { vec_len out.new ≤ vec_len out.old + 1 }
    ensures capacity { vec_capacity out.new ≡ vec_capacity out.old }
    ensures channels { machine.new.channels.items ≡ machine.old.channels.items }
    ensures site { machine.new.site.value ≡ machine.old.site.value }
{
    match step {
        Step::Asked(event, _) => {
            if let Some(change) = machine.follow(book, *event) {
                out.push_reserved(change);
            }
        }
        Step::NoneFree(..) => {}
    }
}

/// The timers of all steps' calls follow the book.
fn follow_steps<A: Allocator + Copy>(
    machine: &mut Machine<A>,
    book: &Book<A>,
    steps: &[Step],
    out: &mut Vec<TimerChange, A>,
)
    requires room { vec_len out.old + length steps.now ≤ vec_capacity out.old }
    ensures calls { machine.new.calls.items ≡
        followed_steps book.now machine.old.calls.items steps.now }
    ensures changes { out.new.items ≡ out.old.items ++
        steps_changes book.now machine.old.calls.items steps.now }
    ensures channels { machine.new.channels.items ≡ machine.old.channels.items }
    ensures site { machine.new.site.value ≡ machine.old.site.value }
{
    match steps {
        [] => {}
        [step, rest @ ..] => {
            follow_step(machine, book, step, out);
            follow_steps(machine, book, rest, out)
        }
    }
}

/// Ends the attempt that a step undoes.
fn end_step<A: Allocator + Copy>(
    machine: &mut Machine<A>,
    book: &Book<A>,
    step: &Step,
    back: Option<ChanId>,
    out: &mut Vec<Done, A>,
)
    requires room { vec_len out.old < vec_capacity out.old }
    ensures channels { machine.new.channels.items ≡
        ended_step book.now machine.old.calls.items back
        machine.old.site.value machine.old.channels.items step.now }
    ensures done { out.new.items ≡ out.old.items ++
        step_done book.now machine.old.calls.items back
        machine.old.site.value machine.old.channels.items step.now }
    ensures len { vec_len out.new ≤ vec_len out.old + 1 }
    ensures capacity { vec_capacity out.new ≡ vec_capacity out.old }
    ensures calls { machine.new.calls.items ≡ machine.old.calls.items }
    ensures site { machine.new.site.value ≡ machine.old.site.value }
{
    match step {
        Step::Asked(event, reply) => {
            if let Some(done) = machine.end_attempt(book, *event, *reply, back) {
                out.push_reserved(done);
            }
        }
        Step::NoneFree(..) => {}
    }
}

/// Ends the attempts that steps undo.
fn end_steps<A: Allocator + Copy>(
    machine: &mut Machine<A>,
    book: &Book<A>,
    steps: &[Step],
    back: Option<ChanId>,
    out: &mut Vec<Done, A>,
)
    requires room { vec_len out.old + length steps.now ≤ vec_capacity out.old }
    ensures channels { machine.new.channels.items ≡
        ended_steps book.now machine.old.calls.items back
        machine.old.site.value machine.old.channels.items steps.now }
    ensures done { out.new.items ≡ out.old.items ++
        steps_done book.now machine.old.calls.items back
        machine.old.site.value machine.old.channels.items steps.now }
    ensures calls { machine.new.calls.items ≡ machine.old.calls.items }
    ensures site { machine.new.site.value ≡ machine.old.site.value }
{
    match steps {
        [] => {}
        [step, rest @ ..] => {
            end_step(machine, book, step, back, out);
            end_steps(machine, book, rest, back, out)
        }
    }
}

/// The timers that a turn is about follow the book: the timer of its input, if the input is an expiry, and those of its
/// steps' calls. If memory is refused, only the input's timer may have followed.
fn follow_timers<A: Allocator + Copy>(
    machine: &mut Machine<A>,
    book: &Book<A>,
    expired: Option<(u16, Timer)>,
    steps: &[Step],
    out: &mut Vec<TimerChange, A>,
) -> Result<(), AllocError>
    ensures calls { OnOk result (machine.new.calls.items ≡
        calls_behind book.now expired machine.old.calls.items steps.now) }
    ensures changes { OnOk result (out.new.items ≡ out.old.items ++
        changes_behind book.now expired machine.old.calls.items steps.now) }
    ensures told { OnErr result (TimersSoFar book.now expired machine.old.calls.items out.old.items
        machine.new.calls.items out.new.items) }
    ensures channels { machine.new.channels.items ≡ machine.old.channels.items }
    ensures site { machine.new.site.value ≡ machine.old.site.value }
{
    follow_expiry(machine, book, expired, out)?;
    out.reserve(steps.len())?;
    follow_steps(machine, book, steps, out);
    Ok(())
}

/// Each channel does what its row says after a turn, and then the attempts end that the turn undid. If memory is refused,
/// the channels that have moved are the first ones of the site, and `out` has what they do.
fn follow_channels<A: Allocator + Copy>(
    machine: &mut Machine<A>,
    book: &Book<A>,
    turn: TurnFacts,
    back: Option<ChanId>,
    steps: &[Step],
    out: &mut Vec<Done, A>,
) -> Result<(), AllocError>
    ensures channels { OnOk result (machine.new.channels.items ≡
        channels_behind book.now turn back machine.old.site.value steps.now
        machine.old.calls.items machine.old.channels.items) }
    ensures done { OnOk result (out.new.items ≡ out.old.items ++
        done_behind book.now turn back machine.old.site.value steps.now
        machine.old.calls.items machine.old.channels.items) }
    ensures told { OnErr result (ChannelsSoFar book.now turn machine.old.calls.items
        machine.old.channels.items out.old.items machine.new.channels.items out.new.items) }
    ensures agree { OnOk result (AllAgree book.now machine.new.channels.items) }
    ensures calls { machine.new.calls.items ≡ machine.old.calls.items }
    ensures site { machine.new.site.value ≡ machine.old.site.value }
{
    machine.settle(book, turn, out)?;
    out.reserve(steps.len())?;
    end_steps(machine, book, steps, back, out);
    Ok(())
}

/// What a turn is about, as far as its links need it.
#[derive(Clone, Copy, Debug, PartialEq, Eq)]
pub struct Given {
    /// The timer of a call that ran out.
    pub expired: Option<(u16, Timer)>,
    /// The turn, as far as channels need it.
    pub turn: TurnFacts,
    /// The channel that the mobile says it came back to.
    pub back: Option<ChanId>,
}

/// Carries out the consequences of a turn at the links: timers of calls follow the book, each channel does what its row
/// says, and the attempts end that the turn undid. If memory is refused, `out` has what was done until then.
pub fn follow_turn<A: Allocator + Copy>(
    machine: &mut Machine<A>,
    book: &Book<A>,
    steps: &[Step],
    given: Given,
    out: &mut Acts<A>,
) -> Result<(), AllocError>
    ensures follows { OnOk result (Follows book.now given.expired given.turn given.back
        machine.old.site.value steps.now
        (record {
          calls = machine.old.calls.items;
          channels = machine.old.channels.items;
          timers = out.old.timers.items;
          done = out.old.done.items;
        })
        (record {
          calls = machine.new.calls.items;
          channels = machine.new.channels.items;
          timers = out.new.timers.items;
          done = out.new.done.items;
        })) }
    ensures so_far { OnErr result (FollowsSoFar book.now given.expired given.turn steps.now
        (record {
          calls = machine.old.calls.items;
          channels = machine.old.channels.items;
          timers = out.old.timers.items;
          done = out.old.done.items;
        })
        (record {
          calls = machine.new.calls.items;
          channels = machine.new.channels.items;
          timers = out.new.timers.items;
          done = out.new.done.items;
        })) }
    ensures agree { OnOk result (AllAgree book.now machine.new.channels.items) }
    ensures site { machine.new.site.value ≡ machine.old.site.value }
{
    follow_timers(machine, book, given.expired, steps, &mut out.timers)?;
    follow_channels(machine, book, given.turn, given.back, steps, &mut out.done)
}
