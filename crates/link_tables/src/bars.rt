//! Bars, which keep calls away from a channel that its station refused, or about which it was silent.
ghost use Rattle.std.specs.Prelude.{◌≡◌, Some};
ghost use Rattle.link_tables.specs.Bars.{bar_step, has_clock, clock_change};

use crate::{Act, BarKind, ChanState, Lchan, Step, Timer};

/// Bars a channel, once the controller has read that it was refused, or that nothing more is awaited of it. If a call that
/// came from the air holds it, this call becomes its bar. A call of an operator or of the centre keeps the channel. If the
/// channel is free, a new call is opened on it as its bar.
pub fn bar(lchan: Lchan, book: ChanState, is_from_air: bool) -> Step
    ensures table { result ≡ bar_step lchan book is_from_air }
{
    match book {
        ChanState::Free => Step::one(Act::OpenBar(BarKind::Timed), lchan),
        ChanState::Held(_) if is_from_air => Step::one(Act::BarByHolder, lchan),
        ChanState::Held(_) | ChanState::Pending(_) | ChanState::On(_) | ChanState::Off =>
            Step::none(lchan),
    }
}

/// Whether the clock of a bar runs: at rest that of a bar which a clock ends. The station ends the bar of a channel that awaits it.
pub fn has_clock(lchan: Lchan, bar: Option<BarKind>) -> bool
    ensures clock { result ≡ has_clock lchan bar }
{
    match (lchan, bar) {
        (Lchan::Rest, Some(BarKind::Timed)) => true,
        (Lchan::Rest, Some(BarKind::Lasting) | None) => false,
        (Lchan::Activating | Lchan::On | Lchan::Mobile | Lchan::Guard, _) => false,
        (Lchan::Releasing | Lchan::Closing | Lchan::Reopening | Lchan::Lost, _) => false,
    }
}

/// What starts or stops, where the clock of a bar ran or not, and is to run or not.
pub fn clock_change(runs: bool, is_to_run: bool) -> Option<Act>
    ensures change { result ≡ clock_change runs is_to_run }
{
    match (runs, is_to_run) {
        (false, true) => Some(Act::Start(Timer::Bar)),
        (true, false) => Some(Act::Stop(Timer::Bar)),
        (false, false) | (true, true) => None,
    }
}
