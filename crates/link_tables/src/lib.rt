//! What a controller does with the links of its stations: the table of a traffic channel (osmo-bsc's lchan FSM), and bars.
//! docs/LINKS.md has its rows, by number. A row takes no memory and reads no octets.
#![tactic(auto)]

ghost use Rattle.std.specs.Prelude.{◌≡◌};
ghost use Rattle.link_tables.specs.Acts.{timer_of, nothing, one, two, three};

mod bars;
mod failures;
mod hearing;
pub mod laws;
mod settling;

pub use bars::{bar, clock_change, has_clock};
pub use channel_fsm::ChanState;
pub use failures::end_attempt;
pub use hearing::hear;
pub use settling::settle;

/// What a station was told of a traffic channel, and what is awaited of it.
#[derive(Clone, Copy, Debug, PartialEq, Eq)]
pub enum Lchan {
    /// It isn't active there.
    Rest,
    /// CHANNEL ACTIVATION was sent (TS 48.058 clause 8.4.1), and isn't answered yet.
    Activating,
    /// It is active there.
    On,
    /// CHANNEL RELEASE was sent to the mobile, which hasn't released the link yet (TS 44.018 clause 3.4.13.1).
    Mobile,
    /// The mobile has released the link. The channel stays active for a while, so that the last frame is acknowledged.
    Guard,
    /// RF CHANNEL RELEASE was sent (TS 48.058 clause 8.4.14), and isn't answered yet.
    Releasing,
    /// RF CHANNEL RELEASE was sent. The call that had the channel doesn't wait for the answer, but the channel does.
    Closing,
    /// As `Closing`, but a call has the channel. Its CHANNEL ACTIVATION is sent after the answer.
    Reopening,
    /// It was active there when the link was lost. A call still has it, and is to be ended.
    Lost,
}

impl Lchan {
    /// The timer that runs in this state.
    pub fn timer(self) -> Option<Timer>
        ensures timer { result ≡ timer_of self }
    {
        match self {
            Lchan::Activating | Lchan::Reopening => Some(Timer::Activation),
            Lchan::Mobile => Some(Timer::T3109),
            Lchan::Guard => Some(Timer::T3111),
            Lchan::Releasing => Some(Timer::Release),
            Lchan::Rest | Lchan::On | Lchan::Closing | Lchan::Lost => None,
        }
    }
}

/// The timers of a channel.
#[derive(Clone, Copy, Debug, PartialEq, Eq)]
pub enum Timer {
    /// How long a station may take to answer CHANNEL ACTIVATION.
    Activation,
    /// How long a mobile may take to release the link (TS 44.018 clause 11.1.2).
    T3109,
    /// How long a channel stays active after that (TS 44.018 clause 11.1.2).
    T3111,
    /// How long a station may take to answer RF CHANNEL RELEASE.
    Release,
    /// How long a bar holds a channel.
    Bar,
}

/// What is heard about a channel: from its station, by the names of TS 48.058 clause 8; from a timer; about its link; from
/// an operator.
#[derive(Clone, Copy, Debug, PartialEq, Eq)]
pub enum Heard {
    ActivationAck,
    ActivationNack,
    ReleaseAck,
    ConnectionFailure,
    HandoverDetection,
    /// A DATA INDICATION with HANDOVER COMPLETE (TS 44.018 clause 9.1.16).
    HandoverComplete,
    /// A DATA INDICATION with HANDOVER FAILURE (TS 44.018 clause 9.1.17): the mobile came back.
    HandoverFailure,
    MeasurementResult,
    /// Any other DATA INDICATION.
    DataIndication,
    EstablishIndication,
    /// RELEASE INDICATION for the main link, SAPI 0.
    ReleaseIndication,
    /// A timer ran out.
    Expired(Timer),
    /// The link of its TRX is gone.
    LinkLost,
    /// The link of its TRX has come.
    LinkUp,
    /// An operator bars it.
    BarAsked,
    /// An operator ends its bar.
    UnbarAsked,
}

/// What ends a bar: a call number that only keeps calls away from a channel.
#[derive(Clone, Copy, Debug, PartialEq, Eq)]
pub enum BarKind {
    /// A clock ends it, where its channel is at rest.
    Timed,
    /// No clock ends it.
    Lasting,
}

/// Who has a channel.
#[derive(Clone, Copy, Debug, PartialEq, Eq)]
pub enum Holder {
    /// No call has it: it is free.
    Nobody,
    /// No call has it any more, and the book waits for its release.
    Past,
    /// A bar has it.
    Barred(BarKind),
    /// A call has it.
    Call(Use),
}

/// What a call uses a channel for, as far as rows ask.
#[derive(Clone, Copy, Debug, PartialEq, Eq)]
pub struct Use {
    /// The call is served on it, and has an attempt at handover.
    pub leaves: bool,
    /// The call is to arrive on it, and its mobile was told to leave its channel.
    pub arrives: bool,
    /// The call is served on it, and its mobile was told to leave it.
    pub returns: bool,
    /// The call's measurement reports are used.
    pub reports: bool,
}

/// The circumstances after a turn in which the book has changed.
#[derive(Clone, Copy, Debug, PartialEq, Eq)]
pub struct Circumstances {
    /// The link of the channel's TRX is there.
    pub has_link: bool,
    /// In this turn the controller sent CHANNEL RELEASE on the channel.
    pub said_channel_release: bool,
    /// The call that has it is a bar.
    pub is_bar: bool,
}

/// How an attempt at handover ended, seen from the channel that served its call when it began.
#[derive(Clone, Copy, Debug, PartialEq, Eq)]
pub enum AttemptEnd {
    /// The mobile is on another channel.
    Arrived,
    /// The mobile came back: HANDOVER FAILURE (TS 44.018 clause 3.4.4.4).
    CameBack,
    /// It was undone, and nothing was heard of the mobile.
    TakenBack,
}

/// What is done, one thing at a time.
#[derive(Clone, Copy, Debug, PartialEq, Eq)]
pub enum Act {
    /// The controller is given what was heard.
    Give,
    /// What was heard is passed on to the rows of the call.
    Pass,
    /// What was heard isn't expected, and is counted.
    Count,
    /// In the station's place the controller is given CHANNEL ACTIVATION NEGATIVE ACKNOWLEDGE, cause 20.
    RefuseInPlace,
    /// In the station's place the controller is given RF CHANNEL RELEASE ACKNOWLEDGE.
    ReleaseInPlace,
    /// In the station's place the controller is given CONNECTION FAILURE INDICATION, cause 20.
    FailInPlace,
    /// The failure is kept until the call's attempt has ended: see [`end_attempt`].
    KeepFailure,
    /// CHANNEL ACTIVATION is sent, as the controller wrote it.
    SendActivation,
    /// CHANNEL ACTIVATION isn't sent yet, and is kept.
    KeepActivation,
    /// RF CHANNEL RELEASE is sent.
    SendRelease,
    /// CHANNEL RELEASE is sent to the mobile, as the controller wrote it, in a DATA REQUEST.
    SendChannelRelease,
    /// DEACTIVATE SACCH is sent (TS 48.058 clause 8.4.5).
    SendDeactivateSacch,
    /// A timer starts, or starts again if it is running.
    Start(Timer),
    /// A timer stops if it is running.
    Stop(Timer),
    /// The channel is to be barred after the controller's turn: see [`bar`].
    Bar,
    /// The call that holds the channel becomes its bar.
    BarByHolder,
    /// A call with an unused number is opened on the channel, as its bar.
    OpenBar(BarKind),
    /// The call that is the bar is cleared.
    EndBar,
}

/// What a row does, in order, and the state after it.
#[derive(Clone, Copy, Debug, PartialEq, Eq)]
pub struct Step {
    pub acts: [Option<Act>; 3],
    pub next: Lchan,
}

impl Step {
    /// Does these things, in order.
    fn three(first: Act, second: Act, third: Act, next: Lchan) -> Step
        ensures step { result ≡ record { acts = three first second third; next = next } }
    {
        Step {
            acts: [Some(first), Some(second), Some(third)],
            next,
        }
    }

    /// Does these things, in order.
    fn two(first: Act, second: Act, next: Lchan) -> Step
        ensures step { result ≡ record { acts = two first second; next = next } }
    {
        Step {
            acts: [Some(first), Some(second), None],
            next,
        }
    }

    /// Does this alone.
    fn one(act: Act, next: Lchan) -> Step
        ensures step { result ≡ record { acts = one act; next = next } }
    {
        Step {
            acts: [Some(act), None, None],
            next,
        }
    }

    /// Does nothing.
    fn none(next: Lchan) -> Step
        ensures step { result ≡ record { acts = nothing; next = next } }
    {
        Step {
            acts: [None, None, None],
            next,
        }
    }
}
