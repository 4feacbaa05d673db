//! Why octets or fields are no element.

use thiserror::Error;

/// Why octets or fields are no element, in the order in which they are looked for.
#[derive(Clone, Copy, Debug, PartialEq, Eq, Error)]
pub enum ElementFault {
    /// There are fewer octets than the element has, or more.
    #[error("the element has another length")]
    Length,
    /// The type isn't that of a traffic channel of one timeslot.
    #[error("the channel is no traffic channel of one timeslot")]
    BadType,
    /// The channel hops: H is 1.
    #[error("the channel hops")]
    Hopping,
    /// A value is wider than its field. Only `new` answers it.
    #[error("a field does not fit its bits")]
    BadRange,
}
