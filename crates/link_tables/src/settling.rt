//! What a channel does when the book has changed.
ghost use Rattle.std.specs.Prelude.{◌≡◌};
ghost use Rattle.channel_fsm.specs.declared.ChanState.TheVariants as book;
ghost use Rattle.link_tables.specs.Settling.{settled_step, is_pending};

use crate::{Act, ChanState, Circumstances, Lchan, Step, Timer};
use Act::{
    Bar, KeepActivation, RefuseInPlace, ReleaseInPlace, SendActivation, SendChannelRelease,
    SendDeactivateSacch, SendRelease, Start, Stop,
};
use Lchan::{Activating, Closing, Guard, Lost, Mobile, On, Releasing, Reopening, Rest};

/// What a channel does after a turn of the controller, and its state afterwards: the rows of docs/LINKS.md for what the book
/// says now. The turn changed the channel in the book from `before` to `now`.
pub fn settle(lchan: Lchan, before: ChanState, now: ChanState, circumstances: Circumstances) -> Step
    ensures table { result ≡ settled_step lchan before now circumstances }
{
    match now {
        ChanState::Free | ChanState::Held(_) => idle(lchan, before, circumstances),
        ChanState::Pending(call) => pending(lchan, before, call, circumstances),
        ChanState::On(call) => on(lchan, before, call, circumstances),
        ChanState::Off => off(lchan, before, circumstances),
    }
}

/// No call has the channel, or one that doesn't use it. What may be active is released.
fn idle(lchan: Lchan, before: ChanState, circumstances: Circumstances) -> Step
    ensures free { result ≡ settled_step lchan before book.Free circumstances }
{
    let stop = lchan.timer().map(Stop);
    if !circumstances.has_link {
        return Step {
            acts: [stop, None, None],
            next: Rest,
        };
    }
    match lchan {
        Rest | Closing => Step::none(lchan),
        Activating | On | Mobile | Guard | Lost => Step {
            acts: [stop, Some(SendRelease), None],
            next: Closing,
        },
        Releasing | Reopening => Step {
            acts: [stop, None, None],
            next: Closing,
        },
    }
}

/// A call asked for the channel, or asks for it still.
fn pending(lchan: Lchan, before: ChanState, call: u16, circumstances: Circumstances) -> Step
    ensures pending { result ≡ settled_step lchan before (book.Pending call) circumstances }
{
    let stop = lchan.timer().map(Stop);
    if !circumstances.has_link {
        return Step {
            acts: [stop, Some(RefuseInPlace), None],
            next: Rest,
        };
    }
    // A bar uses no channel; and who asks still hasn't read the refusal that the station gave.
    let is_refused = circumstances.is_bar || is_pending(before);
    match lchan {
        Rest | Closing if is_refused => Step::one(RefuseInPlace, lchan),
        Rest => Step::two(SendActivation, Start(Timer::Activation), Activating),
        Closing => Step::two(KeepActivation, Start(Timer::Activation), Reopening),
        On => Step::three(SendRelease, RefuseInPlace, Bar, Closing),
        Activating | Reopening => Step::none(lchan),
        Mobile | Guard | Lost => Step {
            acts: [stop, Some(SendRelease), Some(RefuseInPlace)],
            next: Closing,
        },
        Releasing => Step::three(
            Stop(Timer::Release),
            KeepActivation,
            Start(Timer::Activation),
            Reopening,
        ),
    }
}

/// Whether a call asks for a channel in this state.
fn is_pending(book: ChanState) -> bool
    ensures value { result ≡ is_pending book }
{
    match book {
        ChanState::Pending(_) => true,
        ChanState::Free | ChanState::Held(_) | ChanState::On(_) | ChanState::Off => false,
    }
}

/// A call has the channel, and its station activated it.
fn on(lchan: Lchan, before: ChanState, call: u16, circumstances: Circumstances) -> Step
    ensures on { result ≡ settled_step lchan before (book.On call) circumstances }
{
    match lchan {
        On | Lost => Step::none(lchan),
        Rest | Activating | Mobile | Guard | Releasing | Closing | Reopening => Step {
            acts: [lchan.timer().map(Stop), None, None],
            next: Lost,
        },
    }
}

/// The channel was used, or may have been, and is used no more.
fn off(lchan: Lchan, before: ChanState, circumstances: Circumstances) -> Step
    ensures off { result ≡ settled_step lchan before book.Off circumstances }
{
    if !circumstances.has_link {
        return Step {
            acts: [lchan.timer().map(Stop), Some(ReleaseInPlace), None],
            next: Rest,
        };
    }
    match lchan {
        Activating => Step::three(
            Stop(Timer::Activation),
            SendRelease,
            Start(Timer::Release),
            Releasing,
        ),
        Reopening => Step::two(Stop(Timer::Activation), Start(Timer::Release), Releasing),
        On if circumstances.said_channel_release => Step::three(
            SendChannelRelease,
            SendDeactivateSacch,
            Start(Timer::T3109),
            Mobile,
        ),
        On | Lost => Step::two(SendRelease, Start(Timer::Release), Releasing),
        Rest | Closing => Step::one(ReleaseInPlace, lchan),
        Mobile | Guard | Releasing => Step::none(lchan),
    }
}
