//! Failures that were kept while their call had an attempt at handover.
ghost use Rattle.std.specs.Prelude.{◌≡◌};
ghost use Rattle.link_tables.specs.Failures.{ended_step};

use crate::{Act, AttemptEnd, Lchan, Step};

/// What a channel with a kept failure does when the attempt has ended. The controller is told of the failure if the call is
/// still on this channel, unless the channel is on and its mobile said itself that it is there.
pub fn end_attempt(lchan: Lchan, end: AttemptEnd) -> Step
    ensures table { result ≡ ended_step lchan end }
{
    let is_told = match lchan {
        Lchan::On => end == AttemptEnd::TakenBack,
        Lchan::Lost => end != AttemptEnd::Arrived,
        Lchan::Rest | Lchan::Activating | Lchan::Mobile | Lchan::Guard => false,
        Lchan::Releasing | Lchan::Closing | Lchan::Reopening => false,
    };
    if is_told {
        return Step::one(Act::FailInPlace, lchan);
    }
    Step::none(lchan)
}
