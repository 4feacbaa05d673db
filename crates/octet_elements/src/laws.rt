//! Laws of elements.
ghost use Rattle.octet_elements.specs.ChannelTypes.{TypesAreUnique};
ghost use Rattle.octet_elements.specs.Elements.{SplitIsUnique, SpellingIsUnique};

/// Octets that begin with an element begin with no other.
pub fn spelling_is_unique()
    ensures unique { SpellingIsUnique }
{}

/// Octets are elements, whole or torn, in one way only.
pub fn split_is_unique()
    ensures unique { SplitIsUnique }
{}

/// A channel type is that of one traffic channel at most, and what is read of a type is the channel that has it.
pub fn channel_types_are_unique()
    ensures unique { TypesAreUnique }
{}
