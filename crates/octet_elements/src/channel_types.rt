//! Channel types: which traffic channel of a timeslot octets name, alike in a channel description (TS 44.018 clauses
//! 10.5.2.5 and 10.5.2.5a) and in a channel number (TS 48.058 clause 9.3.1).
ghost use Rattle.std.specs.Prelude.{◌≡◌, ◌≢◌, ◌<◌, ◌^◌, IfSome, IfNone};
ghost use Rattle.octet_elements.specs.ChannelTypes.{type_of, sub_of};
ghost use Rattle.timeslots.specs.declared.Sub.{Sub};

use timeslots::Sub;

/// The channel type of a traffic channel with its associated channels, in five bits.
#[inline]
pub fn channel_type(sub: Sub) -> u8
    ensures number { result ≡ type_of sub }
    ensures range { result < 2 ^ 5 }
{
    match sub {
        Sub::Full => 1,
        Sub::Half0 => 2,
        Sub::Half1 => 3,
    }
}

/// The part of a timeslot that a traffic channel with this channel type has; `None` if no traffic channel of one timeslot
/// has it.
#[inline]
#[tactic(auto, unfolding(crate::specs::ChannelTypes::sub_of, crate::specs::ChannelTypes::subs))]
pub fn sub_of_type(number: u8) -> Option<Sub>
    ensures sub { result ≡ sub_of number }
    ensures found { IfSome result (λ sub. number ≡ type_of sub) }
    ensures none { IfNone result ((sub : Sub) → number ≢ type_of sub) }
{
    match number {
        1 => Some(Sub::Full),
        2 => Some(Sub::Half0),
        3 => Some(Sub::Half1),
        _ => None,
    }
}
