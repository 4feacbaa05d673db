//! A traffic channel, as far as the book doesn't describe it.
ghost use Rattle.std.specs.Prelude.{◌≡◌};
ghost use Rattle.link_machine.specs.Channels.{timed_by, ends_bar, noting, after, fresh, kind_of, is_to_run, with_clock};

use channel_fsm::ChanId;
use link_tables::{Act, BarKind, Lchan, Step, clock_change, has_clock};

/// An input about a channel that the controller is given in another's place, and hasn't read yet.
#[derive(Clone, Copy, Debug, PartialEq, Eq)]
pub enum InPlace {
    /// CHANNEL ACTIVATION NEGATIVE ACKNOWLEDGE, cause 20, in its station's place.
    Refusal,
    /// RF CHANNEL RELEASE ACKNOWLEDGE, in its station's place.
    Release,
    /// CONNECTION FAILURE INDICATION, cause 20, in its station's place.
    Failure,
    /// An operator's line that opens a call with an unused number on it, as its bar.
    OpenBar(BarKind),
    /// An operator's line that clears the call that is its bar.
    EndBar(u16),
}

/// A bar: the number of the call that has a channel, and only keeps others away from it.
#[derive(Clone, Copy, Debug, PartialEq, Eq)]
pub struct Bar {
    pub call: u16,
    /// What ends it. Once its end is owed to the controller, no clock does.
    pub kind: BarKind,
}

/// What is known of a traffic channel besides the book.
#[derive(Clone, Copy, Debug, PartialEq, Eq)]
pub struct Channel {
    pub chan: ChanId,
    /// What its station was told about it.
    pub lchan: Lchan,
    /// Whether the link of its TRX is there.
    pub has_link: bool,
    /// Its bar. After each turn this is the call that has the channel, or there is no bar.
    pub bar: Option<Bar>,
    /// Whether the clock of its bar runs.
    pub bar_runs: bool,
    /// Whether it is to be barred, once the controller has read what it is owed.
    pub is_to_be_barred: bool,
    /// Whether a failure of it is kept until its call's attempt at handover has ended.
    pub keeps_failure: bool,
    /// The input that the controller is owed.
    pub owed: Option<InPlace>,
}

impl Channel {
    /// A channel at rest, whose station isn't there.
    pub fn new(chan: ChanId) -> Channel
        ensures fresh { result ≡ fresh chan }
    {
        Channel {
            chan,
            lchan: Lchan::Rest,
            has_link: false,
            bar: None,
            bar_runs: false,
            is_to_be_barred: false,
            keeps_failure: false,
            owed: None,
        }
    }

    /// The kind of its bar, if it has one.
    pub(crate) fn bar_kind(self) -> Option<BarKind>
        ensures { result ≡ kind_of self.bar }
    {
        match self.bar {
            Some(bar) => Some(bar.kind),
            None => None,
        }
    }

    /// The channel, after its bar is to end.
    fn ending_bar(self) -> Channel
        ensures { result ≡ ends_bar self self.bar }
    {
        match self.bar {
            Some(bar) => Channel {
                bar: Some(Bar {
                    kind: BarKind::Lasting,
                    ..bar
                }),
                owed: Some(InPlace::EndBar(bar.call)),
                ..self
            },
            None => self,
        }
    }

    /// The channel after an act. `owner` is the call that has it.
    #[tactic(auto, unfolding(crate::specs::Channels::noting))]
    fn noting(self, owner: Option<u16>, act: Option<Act>) -> Channel
        ensures { result ≡ noting owner self act }
    {
        match act {
            Some(Act::RefuseInPlace) => Channel {
                owed: Some(InPlace::Refusal),
                ..self
            },
            Some(Act::ReleaseInPlace) => Channel {
                owed: Some(InPlace::Release),
                ..self
            },
            Some(Act::FailInPlace) => Channel {
                owed: Some(InPlace::Failure),
                ..self
            },
            Some(Act::KeepFailure) => Channel {
                keeps_failure: true,
                ..self
            },
            Some(Act::Bar) => Channel {
                is_to_be_barred: true,
                ..self
            },
            Some(Act::BarByHolder) => Channel {
                bar: timed_by(owner),
                ..self
            },
            Some(Act::OpenBar(kind)) => Channel {
                owed: Some(InPlace::OpenBar(kind)),
                ..self
            },
            Some(Act::EndBar) => self.ending_bar(),
            Some(Act::Give | Act::Pass | Act::Count) => self,
            Some(Act::SendActivation | Act::KeepActivation | Act::SendRelease) => self,
            Some(Act::SendChannelRelease | Act::SendDeactivateSacch) => self,
            Some(Act::Start(_) | Act::Stop(_)) => self,
            None => self,
        }
    }

    /// The channel after a step of its row. `owner` is the call that has it.
    pub(crate) fn after(self, owner: Option<u16>, step: Step) -> Channel
        ensures { result ≡ after owner self step }
    {
        let [first, second, third] = step.acts;
        Channel {
            lchan: step.next,
            ..self
        }
        .noting(owner, first)
        .noting(owner, second)
        .noting(owner, third)
    }

    /// The channel with the clock of its bar, and what starts or stops. The clock runs exactly if the channel is at rest, and
    /// has a bar that a clock ends. `ran` says whether it ran before.
    pub(crate) fn with_clock(self, ran: bool) -> (Channel, Option<Act>)
        ensures { result ≡ with_clock ran self }
    {
        let runs = has_clock(self.lchan, self.bar_kind());
        let channel = Channel {
            bar_runs: runs,
            ..self
        };
        (channel, clock_change(ran, runs))
    }
}

/// The bar that a call becomes.
fn timed_by(owner: Option<u16>) -> Option<Bar>
    ensures { result ≡ timed_by owner }
{
    match owner {
        Some(call) => Some(Bar {
            call,
            kind: BarKind::Timed,
        }),
        None => None,
    }
}
