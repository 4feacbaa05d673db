//! Why a text can't be written as a message.
ghost use Rattle.std.specs.Prelude.{◌≡◌};

use crate::field_fault::{FieldFault, Shown};
use std::alloc::AllocError;
use thiserror::Error;

/// Why a text can't be written as a message. What of the text is shown is so as [`Shown`] shows it.
#[derive(Clone, Copy, Debug, PartialEq, Eq, Error)]
pub enum MessageFault<'a> {
    // What stands before the first field is no name of a message of the link.
    #[error("{} is no message of the link", Shown(.0))]
    Name(&'a str),
    // Layer 3 stands in words behind what is no name of a message that has one.
    #[error("{} is no message that has layer 3", Shown(.0))]
    NoLayer3(&'a str),
    // What stands as layer 3 has no name of a radio resource message.
    #[error("{} is no radio resource message", Shown(.0))]
    Layer3(&'a str),
    // A field is missing, unknown, twice, or out of its range.
    #[error(transparent)]
    Field(FieldFault<'a>),
    // There are not as many neighbours as the count says.
    #[error("count is {count}, but n is given {found} times (none with count 7)")]
    Neighbours { count: u8, found: usize },
    // Each field is in its range, and the message has no canonical text.
    #[error("the message, or a list of octets in it, is too long to be written")]
    TooLong,
    // Memory was refused.
    #[error("memory was refused")]
    NoMemory,
}

impl<'a> From<FieldFault<'a>> for MessageFault<'a> {
    ghost use Rattle.encoded_messages.specs.Faults.{from_field};

    ghost from_gives = { λ field fault. fault ≡ from_field field };

    fn from(fault: FieldFault<'a>) -> MessageFault<'a> {
        match fault {
            FieldFault::NoMemory => MessageFault::NoMemory,
            fault => MessageFault::Field(fault),
        }
    }
}

impl From<AllocError> for MessageFault<'_> {
    ghost use Rattle.encoded_messages.specs.declared.fault.MessageFault.TheVariants.{NoMemory};

    ghost from_gives = { λ _ fault. fault ≡ NoMemory };

    fn from(_: AllocError) -> Self {
        MessageFault::NoMemory
    }
}
