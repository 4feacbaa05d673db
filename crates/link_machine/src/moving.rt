//! What one channel does.
ghost use Rattle.std.specs.Prelude.{◌≡◌};
ghost use Rattle.link_machine.specs.Moving.{still, moved_by, clocked, is_of_station, is_unheard, hears, is_clock, ended, told, linked, agreed, before_of, standing, keeping, kept, is_from_air, bar_phase, is_call, still_barred, settled_by, settled};

use crate::calls::{CallFacts, facts_of, holder_of, is_target};
use crate::channel::{Bar, Channel};
use channel_fsm::{ChanId, ChanState};
use link_tables::{
    Act, AttemptEnd, Circumstances, Heard, Lchan, Step, Timer, bar, end_attempt, hear, settle,
};
use radio_book::book::Book;
use std::alloc::Allocator;

/// What a channel is told.
#[derive(Clone, Copy, Debug, PartialEq, Eq)]
pub enum Word {
    /// This is heard about it.
    Heard(Heard),
    /// An attempt at handover of its call has ended in this way.
    AttemptEnded(AttemptEnd),
}

/// A turn of the controller, as far as channels ask.
#[derive(Clone, Copy, Debug, PartialEq, Eq)]
pub struct TurnFacts {
    /// The channel about which the controller was given an input, and its state in the book before.
    pub about: Option<(ChanId, ChanState)>,
    /// The channel on which the controller sent CHANNEL RELEASE.
    pub sent_away: Option<ChanId>,
}

/// What a channel does, in order: what its row says, then how it is barred, and then what the clock of its bar does.
#[derive(Clone, Copy, Debug, PartialEq, Eq)]
pub struct Done {
    pub chan: ChanId,
    pub acts: [Option<Act>; 3],
    pub bar: [Option<Act>; 3],
    pub clock: Option<Act>,
}

/// A channel after what it does.
#[derive(Clone, Copy, Debug, PartialEq, Eq)]
pub struct Moved {
    pub channel: Channel,
    pub done: Done,
}

/// A channel that does nothing.
pub fn still(channel: Channel) -> Moved
    ensures { result ≡ still channel }
{
    Moved {
        channel,
        done: Done {
            chan: channel.chan,
            acts: [None, None, None],
            bar: [None, None, None],
            clock: None,
        },
    }
}

/// A channel after a step of its row. `owner` is the call that has it.
fn moved_by(channel: Channel, owner: Option<u16>, step: Step) -> Moved
    ensures { result ≡ moved_by owner channel step }
{
    let acts = step.acts;
    Moved {
        channel: channel.after(owner, step),
        done: Done {
            chan: channel.chan,
            acts,
            bar: [None, None, None],
            clock: None,
        },
    }
}

/// The same, with the clock of the channel's bar. `ran` says whether it ran before.
fn clocked(ran: bool, moved: Moved) -> Moved
    ensures { result ≡ clocked ran moved }
{
    let (channel, clock) = moved.channel.with_clock(ran);
    Moved {
        channel,
        done: Done {
            clock,
            ..moved.done
        },
    }
}

/// Whether a station says this.
fn is_of_station(heard: Heard) -> bool
    ensures { result ≡ is_of_station heard }
{
    match heard {
        Heard::ActivationAck | Heard::ActivationNack | Heard::ReleaseAck => true,
        Heard::ConnectionFailure | Heard::MeasurementResult => true,
        Heard::HandoverDetection | Heard::HandoverComplete | Heard::HandoverFailure => true,
        Heard::DataIndication | Heard::EstablishIndication | Heard::ReleaseIndication => true,
        Heard::Expired(_) | Heard::LinkLost | Heard::LinkUp => false,
        Heard::BarAsked | Heard::UnbarAsked => false,
    }
}

/// Whether a station says this, and its link isn't there.
fn is_unheard(channel: Channel, heard: Heard) -> bool
    ensures { result ≡ is_unheard channel heard }
{
    is_of_station(heard) && !channel.has_link
}

/// A channel about which something is heard. What a station says while its link isn't there is counted.
fn heard<A: Allocator + Copy>(
    book: &Book<A>,
    calls: &[CallFacts],
    channel: Channel,
    heard: Heard,
) -> Moved
    ensures { result ≡ hears book.now calls.now channel heard }
{
    let owner = book.owner(channel.chan);
    if is_unheard(channel, heard) {
        let counted = Step {
            acts: [Some(Act::Count), None, None],
            next: channel.lchan,
        };
        return moved_by(channel, owner, counted);
    }
    let holder = holder_of(book, calls, channel.chan, channel.bar);
    moved_by(channel, owner, hear(channel.lchan, heard, holder))
}

/// Whether the clock of a bar ran out.
fn is_clock(heard: Heard) -> bool
    ensures { result ≡ is_clock heard }
{
    match heard {
        Heard::Expired(Timer::Bar) => true,
        Heard::Expired(Timer::Activation | Timer::T3109 | Timer::T3111 | Timer::Release) => false,
        Heard::ActivationAck | Heard::ActivationNack | Heard::ReleaseAck => false,
        Heard::ConnectionFailure | Heard::MeasurementResult => false,
        Heard::HandoverDetection | Heard::HandoverComplete | Heard::HandoverFailure => false,
        Heard::DataIndication | Heard::EstablishIndication | Heard::ReleaseIndication => false,
        Heard::LinkLost | Heard::LinkUp | Heard::BarAsked | Heard::UnbarAsked => false,
    }
}

/// A channel whose call's attempt has ended: a failure that was kept is told or dropped.
fn ended(channel: Channel, owner: Option<u16>, end: AttemptEnd) -> Moved
    ensures { result ≡ ended owner channel end }
{
    if !channel.keeps_failure {
        return still(channel);
    }
    let channel = Channel {
        keeps_failure: false,
        ..channel
    };
    moved_by(channel, owner, end_attempt(channel.lchan, end))
}

/// A channel that is told something, and what it does.
pub fn told<A: Allocator + Copy>(
    book: &Book<A>,
    calls: &[CallFacts],
    channel: Channel,
    word: Word,
) -> Moved
    ensures told { result ≡ told book.now calls.now word channel }
{
    match word {
        Word::Heard(it) => clocked(
            channel.bar_runs && !is_clock(it),
            heard(book, calls, channel, it),
        ),
        Word::AttemptEnded(end) => {
            let owner = book.owner(channel.chan);
            clocked(channel.bar_runs, ended(channel, owner, end))
        }
    }
}

/// A channel of a TRX whose link has come up, or is lost, and what it does.
pub fn linked<A: Allocator + Copy>(
    book: &Book<A>,
    calls: &[CallFacts],
    channel: Channel,
    is_up: bool,
) -> Moved
    ensures linked { result ≡ linked book.now calls.now is_up channel }
{
    let it = if is_up {
        Heard::LinkUp
    } else {
        Heard::LinkLost
    };
    let channel = Channel {
        has_link: is_up,
        ..channel
    };
    clocked(channel.bar_runs, heard(book, calls, channel, it))
}

/// A state of the book with which a channel agrees.
fn agreed(lchan: Lchan) -> ChanState
    ensures { result ≡ agreed lchan }
{
    match lchan {
        Lchan::Rest | Lchan::Closing => ChanState::Free,
        Lchan::Activating | Lchan::Reopening => ChanState::Pending(0),
        Lchan::On | Lchan::Lost => ChanState::On(0),
        Lchan::Mobile | Lchan::Guard | Lchan::Releasing => ChanState::Off,
    }
}

/// What the book had of a channel before a turn: one about which nothing was given agreed with it.
fn before_of(turn: TurnFacts, channel: Channel) -> ChanState
    ensures { result ≡ before_of turn.about channel }
{
    match turn.about {
        Some((chan, before)) if chan == channel.chan => before,
        Some(_) | None => agreed(channel.lchan),
    }
}

/// How things stand with a channel behind a turn that left it so in the book.
fn standing(turn: TurnFacts, channel: Channel) -> Circumstances
    ensures { result ≡ standing turn channel }
{
    Circumstances {
        has_link: channel.has_link,
        said_channel_release: is_target(channel.chan, turn.sent_away),
        is_bar: channel.bar.is_some(),
    }
}

/// Whether a failure may be kept in a state: the channel is in use.
fn keeping(lchan: Lchan) -> bool
    ensures { result ≡ keeping lchan }
{
    match lchan {
        Lchan::On | Lchan::Lost => true,
        Lchan::Rest | Lchan::Activating | Lchan::Mobile | Lchan::Guard => false,
        Lchan::Releasing | Lchan::Closing | Lchan::Reopening => false,
    }
}

/// A channel that forgets what was kept of a use that is over.
fn kept(channel: Channel) -> Channel
    ensures { result ≡ kept channel }
{
    Channel {
        keeps_failure: channel.keeps_failure && keeping(channel.lchan),
        ..channel
    }
}

/// Whether a call came from the air.
fn is_from_air(calls: &[CallFacts], call: Option<u16>) -> bool
    ensures { result ≡ is_from_air calls.now call }
{
    match call {
        Some(call) => facts_of(calls, call).is_from_air,
        None => false,
    }
}

/// A channel that is barred, where it is to be, once the controller is owed nothing about it.
fn bar_phase(
    channel: Channel,
    owner: Option<u16>,
    step: Step,
    now: ChanState,
    is_from_air: bool,
) -> Moved
    ensures { result ≡ bar_phase owner channel step now is_from_air }
{
    let acts = step.acts;
    if !channel.is_to_be_barred || channel.owed.is_some() {
        return Moved {
            channel,
            done: Done {
                chan: channel.chan,
                acts,
                bar: [None, None, None],
                clock: None,
            },
        };
    }
    let channel = Channel {
        is_to_be_barred: false,
        ..channel
    };
    let barred = bar(channel.lchan, now, is_from_air);
    let others = barred.acts;
    Moved {
        channel: channel.after(owner, barred),
        done: Done {
            chan: channel.chan,
            acts,
            bar: others,
            clock: None,
        },
    }
}

/// Whether the owner is this call.
fn is_call(call: u16, owner: Option<u16>) -> bool
    ensures { result ≡ is_call call owner }
{
    match owner {
        Some(owner) => owner == call,
        None => false,
    }
}

/// A bar, if its call still has the channel.
fn still_barred(bar: Option<Bar>, owner: Option<u16>) -> Option<Bar>
    ensures { result ≡ still_barred owner bar }
{
    match bar {
        Some(bar) if is_call(bar.call, owner) => Some(bar),
        Some(_) | None => None,
    }
}

/// A channel that the book has so behind a turn, for this call, and what it does.
fn settled_by(
    calls: &[CallFacts],
    turn: TurnFacts,
    channel: Channel,
    now: ChanState,
    owner: Option<u16>,
) -> Moved
    ensures { result ≡ settled_by calls.now turn channel now owner }
{
    let channel = Channel {
        bar: still_barred(channel.bar, owner),
        ..channel
    };
    let step = settle(
        channel.lchan,
        before_of(turn, channel),
        now,
        standing(turn, channel),
    );
    bar_phase(
        kept(channel.after(owner, step)),
        owner,
        step,
        now,
        is_from_air(calls, owner),
    )
}

/// A channel after a turn of the controller, and what it does. If the controller is still owed something about it, it waits.
pub fn settled<A: Allocator + Copy>(
    book: &Book<A>,
    calls: &[CallFacts],
    channel: Channel,
    turn: TurnFacts,
) -> Moved
    ensures settled { result ≡ settled book.now calls.now turn channel }
{
    if channel.owed.is_some() {
        return clocked(channel.bar_runs, still(channel));
    }
    let chan = channel.chan;
    let moved = settled_by(calls, turn, channel, book.state(chan), book.owner(chan));
    clocked(channel.bar_runs, moved)
}
