//! What a channel does when something is heard about it.
ghost use Rattle.std.specs.Prelude.{◌≡◌, if◌then◌else◌};
ghost use Rattle.link_tables.specs.declared.Lchan.TheVariants as state;
ghost use Rattle.link_tables.specs.declared.Heard.TheVariants as message;
ghost use Rattle.link_tables.specs.declared.Act.TheVariants as act;
ghost use Rattle.link_tables.specs.Acts.{nothing, one, two};
ghost use Rattle.link_tables.specs.Hearing.{heard_step, nobody, barred, timed, leaves, arrives, returns, reports};

use crate::{Act, BarKind, Heard, Holder, Lchan, Step, Timer};
use Act::{
    Bar, Count, EndBar, FailInPlace, Give, KeepFailure, OpenBar, Pass, RefuseInPlace,
    ReleaseInPlace, SendActivation, SendRelease, Start, Stop,
};
use Holder::{Barred, Call, Nobody, Past};
use Lchan::{Activating, Closing, Guard, Lost, Mobile, On, Releasing, Reopening, Rest};

/// What a channel does when this is heard about it, and its state afterwards: the rows of docs/LINKS.md for what is heard.
/// Anything that no row names is counted, and changes nothing.
pub fn hear(lchan: Lchan, heard: Heard, holder: Holder) -> Step
    ensures table { result ≡ heard_step lchan heard holder }
{
    match heard {
        Heard::ActivationAck => activation_ack(lchan, holder),
        Heard::ActivationNack => activation_nack(lchan, holder),
        Heard::ReleaseAck => release_ack(lchan, holder),
        Heard::ConnectionFailure => connection_failure(lchan, holder),
        Heard::HandoverDetection => handover_detection(lchan, holder),
        Heard::HandoverComplete => handover_complete(lchan, holder),
        Heard::HandoverFailure => handover_failure(lchan, holder),
        Heard::MeasurementResult => measurement_result(lchan, holder),
        Heard::DataIndication => data_indication(lchan, holder),
        Heard::EstablishIndication => establish_indication(lchan, holder),
        Heard::ReleaseIndication => release_indication(lchan, holder),
        Heard::Expired(timer) => expired(lchan, timer, holder),
        Heard::LinkLost => link_lost(lchan, holder),
        Heard::LinkUp => Step::none(lchan),
        Heard::BarAsked => bar_asked(lchan, holder),
        Heard::UnbarAsked => unbar_asked(lchan, holder),
    }
}

impl Holder {
    fn is_nobody(self) -> bool
        ensures value { result ≡ nobody self }
    {
        match self {
            Nobody => true,
            Past | Barred(_) | Call(_) => false,
        }
    }

    fn is_barred(self) -> bool
        ensures value { result ≡ barred self }
    {
        match self {
            Barred(_) => true,
            Nobody | Past | Call(_) => false,
        }
    }

    fn is_timed(self) -> bool
        ensures value { result ≡ timed self }
    {
        match self {
            Barred(BarKind::Timed) => true,
            Nobody | Past | Barred(BarKind::Lasting) | Call(_) => false,
        }
    }

    fn leaves(self) -> bool
        ensures value { result ≡ leaves self }
    {
        match self {
            Call(call) => call.leaves,
            Nobody | Past | Barred(_) => false,
        }
    }

    fn arrives(self) -> bool
        ensures value { result ≡ arrives self }
    {
        match self {
            Call(call) => call.arrives,
            Nobody | Past | Barred(_) => false,
        }
    }

    fn returns(self) -> bool
        ensures value { result ≡ returns self }
    {
        match self {
            Call(call) => call.returns,
            Nobody | Past | Barred(_) => false,
        }
    }

    fn reports(self) -> bool
        ensures value { result ≡ reports self }
    {
        match self {
            Call(call) => call.reports,
            Nobody | Past | Barred(_) => false,
        }
    }
}

fn activation_ack(lchan: Lchan, holder: Holder) -> Step
    ensures table { result ≡ heard_step lchan message.ActivationAck holder }
{
    match lchan {
        Activating => Step::two(Stop(Timer::Activation), Give, On),
        Rest => stray(holder),
        // The activation that it answers was given up, and its release is awaited, or was.
        On | Mobile | Guard | Releasing | Closing | Reopening | Lost => Step::one(Count, lchan),
    }
}

fn activation_nack(lchan: Lchan, holder: Holder) -> Step
    ensures table { result ≡ heard_step lchan message.ActivationNack holder }
{
    match lchan {
        Activating => Step::three(Stop(Timer::Activation), Give, Bar, Rest),
        Rest | On | Mobile | Guard | Releasing | Closing | Reopening | Lost => Step::one(
            Count, lchan,
        ),
    }
}

fn release_ack(lchan: Lchan, holder: Holder) -> Step
    ensures table { result ≡ heard_step lchan message.ReleaseAck holder }
{
    match lchan {
        Mobile => Step::two(Stop(Timer::T3109), Give, Rest),
        Guard => Step::two(Stop(Timer::T3111), Give, Rest),
        Releasing => Step::two(Stop(Timer::Release), Give, Rest),
        Closing => closed(holder),
        Reopening => Step::two(SendActivation, Start(Timer::Activation), Activating),
        Rest | Activating | On | Lost => Step::one(Count, lchan),
    }
}

/// The station that a channel awaited has released it, or is gone: that ends its bar.
fn closed(holder: Holder) -> Step
    ensures barred { result.acts ≡ (if barred holder then one act.EndBar else nothing) }
    ensures rest { result.next ≡ state.Rest }
{
    if holder.is_barred() {
        return Step::one(EndBar, Rest);
    }
    Step::none(Rest)
}

/// A station that speaks on a channel at rest has it active, by an activation that was given up, or by itself. Where no call has
/// it, it is released: once, since the answer is awaited then.
fn stray(holder: Holder) -> Step
    ensures acts { result.acts ≡ (if nobody holder then two act.SendRelease act.Count else one act.Count) }
    ensures state { result.next ≡ (if nobody holder then state.Closing else state.Rest) }
{
    if holder.is_nobody() {
        return Step::two(SendRelease, Count, Closing);
    }
    Step::one(Count, Rest)
}

fn connection_failure(lchan: Lchan, holder: Holder) -> Step
    ensures table { result ≡ heard_step lchan message.ConnectionFailure holder }
{
    match lchan {
        On if holder.leaves() => Step::two(Give, KeepFailure, On),
        On => Step::one(Give, On),
        Rest => stray(holder),
        Activating | Mobile | Guard | Releasing | Closing | Reopening | Lost => Step::one(
            Count, lchan,
        ),
    }
}

fn handover_detection(lchan: Lchan, holder: Holder) -> Step
    ensures table { result ≡ heard_step lchan message.HandoverDetection holder }
{
    match lchan {
        On | Lost => arrival(lchan, holder),
        Rest => stray(holder),
        Activating | Mobile | Guard | Releasing | Closing | Reopening => Step::one(Count, lchan),
    }
}

fn handover_complete(lchan: Lchan, holder: Holder) -> Step
    ensures table { result ≡ heard_step lchan message.HandoverComplete holder }
{
    match lchan {
        On | Lost => arrival(lchan, holder),
        Rest => stray(holder),
        Activating | Mobile | Guard | Releasing | Closing | Reopening => Step::one(Count, lchan),
    }
}

/// The mobile came back. It is a stranger where none was told to leave.
fn handover_failure(lchan: Lchan, holder: Holder) -> Step
    ensures table { result ≡ heard_step lchan message.HandoverFailure holder }
{
    match lchan {
        On | Lost if holder.returns() => Step::one(Give, lchan),
        Rest => stray(holder),
        On | Activating | Mobile | Guard | Releasing | Closing | Reopening | Lost => Step::one(
            Count, lchan,
        ),
    }
}

/// A mobile arrives. It is a stranger where none was told to leave for this channel. Where the link was lost, it shows that the
/// station went on.
fn arrival(lchan: Lchan, holder: Holder) -> Step
    ensures acts { result.acts ≡ one (if arrives holder then act.Give else act.Count) }
    ensures state { result.next ≡ (if arrives holder then state.On else lchan) }
{
    if holder.arrives() {
        return Step::one(Give, On);
    }
    Step::one(Count, lchan)
}

fn measurement_result(lchan: Lchan, holder: Holder) -> Step
    ensures table { result ≡ heard_step lchan message.MeasurementResult holder }
{
    match lchan {
        On if holder.reports() => Step::one(Give, On),
        Rest => stray(holder),
        On | Activating | Mobile | Guard | Releasing | Closing | Reopening | Lost => Step::one(
            Count, lchan,
        ),
    }
}

fn data_indication(lchan: Lchan, holder: Holder) -> Step
    ensures table { result ≡ heard_step lchan message.DataIndication holder }
{
    match lchan {
        On | Lost => Step::one(Pass, lchan),
        Rest => stray(holder),
        Activating | Mobile | Guard | Releasing | Closing | Reopening => Step::one(Count, lchan),
    }
}

fn establish_indication(lchan: Lchan, holder: Holder) -> Step
    ensures table { result ≡ heard_step lchan message.EstablishIndication holder }
{
    match lchan {
        On | Lost => Step::one(Pass, lchan),
        Rest => stray(holder),
        Activating | Mobile | Guard | Releasing | Closing | Reopening => Step::one(Count, lchan),
    }
}

fn release_indication(lchan: Lchan, holder: Holder) -> Step
    ensures table { result ≡ heard_step lchan message.ReleaseIndication holder }
{
    match lchan {
        Mobile => Step::two(Stop(Timer::T3109), Start(Timer::T3111), Guard),
        On | Lost => Step::one(Pass, lchan),
        Rest | Activating | Guard | Releasing | Closing | Reopening => Step::one(Count, lchan),
    }
}

/// A timer that doesn't run in this state is counted. No timer ends `Closing`: its station alone does.
fn expired(lchan: Lchan, timer: Timer, holder: Holder) -> Step
    ensures table { result ≡ heard_step lchan (message.Expired timer) holder }
{
    match (timer, lchan) {
        (Timer::Activation, Activating) => Step::three(SendRelease, RefuseInPlace, Bar, Closing),
        (Timer::Activation, Reopening) => Step::two(RefuseInPlace, Bar, Closing),
        (Timer::T3109, Mobile) => Step::two(SendRelease, Start(Timer::Release), Releasing),
        (Timer::T3111, Guard) => Step::two(SendRelease, Start(Timer::Release), Releasing),
        (Timer::Release, Releasing) => Step::two(ReleaseInPlace, Bar, Closing),
        (Timer::Bar, Rest) if holder.is_timed() => Step::one(EndBar, Rest),

        (Timer::Activation, Rest | On | Mobile | Guard) => Step::one(Count, lchan),
        (Timer::Activation, Releasing | Closing | Lost) => Step::one(Count, lchan),
        (Timer::T3109, Rest | Activating | On | Guard) => Step::one(Count, lchan),
        (Timer::T3109, Releasing | Closing | Reopening | Lost) => Step::one(Count, lchan),
        (Timer::T3111, Rest | Activating | On | Mobile) => Step::one(Count, lchan),
        (Timer::T3111, Releasing | Closing | Reopening | Lost) => Step::one(Count, lchan),
        (Timer::Release, Rest | Activating | On | Mobile | Guard) => Step::one(Count, lchan),
        (Timer::Release, Closing | Reopening | Lost) => Step::one(Count, lchan),
        (Timer::Bar, Rest | Activating | On | Mobile | Guard) => Step::one(Count, lchan),
        (Timer::Bar, Releasing | Closing | Reopening | Lost) => Step::one(Count, lchan),
    }
}

/// With its link a channel is at rest; whoever waits for its station is given an answer in the station's place.
fn link_lost(lchan: Lchan, holder: Holder) -> Step
    ensures table { result ≡ heard_step lchan message.LinkLost holder }
{
    match lchan {
        Activating | Reopening => Step::two(Stop(Timer::Activation), RefuseInPlace, Rest),
        On if holder.leaves() => Step::two(FailInPlace, KeepFailure, Lost),
        On => Step::one(FailInPlace, Lost),
        Mobile => Step::two(Stop(Timer::T3109), ReleaseInPlace, Rest),
        Guard => Step::two(Stop(Timer::T3111), ReleaseInPlace, Rest),
        Releasing => Step::two(Stop(Timer::Release), ReleaseInPlace, Rest),
        Closing => closed(holder),
        Rest | Lost => Step::none(lchan),
    }
}

fn bar_asked(lchan: Lchan, holder: Holder) -> Step
    ensures table { result ≡ heard_step lchan message.BarAsked holder }
{
    match lchan {
        Rest if holder.is_nobody() => Step::one(OpenBar(BarKind::Lasting), Rest),
        Rest | Activating | On | Mobile | Guard => Step::one(Count, lchan),
        Releasing | Closing | Reopening | Lost => Step::one(Count, lchan),
    }
}

fn unbar_asked(lchan: Lchan, holder: Holder) -> Step
    ensures table { result ≡ heard_step lchan message.UnbarAsked holder }
{
    match lchan {
        Rest | Closing if holder.is_barred() => Step::one(EndBar, lchan),
        Rest | Activating | On | Mobile | Guard => Step::one(Count, lchan),
        Releasing | Closing | Reopening | Lost => Step::one(Count, lchan),
    }
}
