//! The part of its timeslot that a traffic channel has, and the rate at which it carries speech.
#![tactic(auto)]

ghost use Rattle.std.specs.Prelude.{◌≡◌, ◌≤◌};
ghost use Rattle.timeslots.specs.Parts.{rate_of, sub_number, overlap, needs};

/// The rate at which a traffic channel carries speech (TS 45.002 clause 3.2).
#[derive(Clone, Copy, Debug, PartialEq, Eq)]
pub enum Rate {
    /// Full rate, TCH/F.
    Full,
    /// Half rate, TCH/H.
    Half,
}

/// The part of its timeslot that a channel has: all of it, or one of its two subchannels (TS 45.002 clause 6.4.1).
///
/// ```text
/// +-------------------+
/// |       Full        |
/// +---------+---------+
/// |  Half0  |  Half1  |
/// +---------+---------+
/// ```
#[derive(Clone, Copy, Debug, PartialEq, Eq, PartialOrd, Ord, Hash)]
pub enum Sub {
    /// The whole timeslot, a full-rate channel.
    Full,
    /// Subchannel 0, a half-rate channel.
    Half0,
    /// Subchannel 1, a half-rate channel.
    Half1,
}

impl Sub {
    /// The rate of such a channel.
    pub fn rate(self) -> Rate
        ensures rate { result ≡ rate_of self }
    {
        match self {
            Sub::Full => Rate::Full,
            Sub::Half0 | Sub::Half1 => Rate::Half,
        }
    }

    /// Its place among the parts of a timeslot: 0 is the whole of it, 1 and 2 are its halves.
    pub fn number(self) -> u8
        ensures value { result ≡ sub_number self }
        ensures most { result ≤ 2 }
    {
        match self {
            Sub::Full => 0,
            Sub::Half0 => 1,
            Sub::Half1 => 2,
        }
    }

    /// Whether it is another part of a timeslot, and overlaps this one.
    pub fn overlaps(self, other: Sub) -> bool
        ensures value { result ≡ overlap self other }
    {
        match (self, other) {
            (Sub::Full, Sub::Half0 | Sub::Half1) => true,
            (Sub::Half0 | Sub::Half1, Sub::Full) => true,
            (Sub::Full, Sub::Full) => false,
            (Sub::Half0 | Sub::Half1, Sub::Half0 | Sub::Half1) => false,
        }
    }

    /// Whether a channel with this part of a timeslot can be used only if the other part isn't: they are the same part, or
    /// they overlap.
    pub fn needs(self, other: Sub) -> bool
        ensures value { result ≡ needs self other }
    {
        match (self, other) {
            (Sub::Full, _) | (_, Sub::Full) => true,
            (Sub::Half0, Sub::Half0) | (Sub::Half1, Sub::Half1) => true,
            (Sub::Half0, Sub::Half1) | (Sub::Half1, Sub::Half0) => false,
        }
    }
}
