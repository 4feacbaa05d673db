//! Why octets are no radio resource message.

use rr_elements::ElementFault;
use thiserror::Error;

/// Why octets are no radio resource message.
#[derive(Clone, Copy, Debug, PartialEq, Eq, Error)]
pub enum RrFault {
    /// There is no octet, or the first is not 06.
    #[error("not a radio resource message")]
    NotRr,
    /// No message has this type.
    #[error("unknown message type 0x{0:02x}")]
    UnknownType(u8),
    /// The type is missing, or the mandatory part is cut.
    #[error("the message is cut")]
    Short,
    /// An element of the mandatory part cannot be used.
    #[error("{0}")]
    Element(ElementFault),
    /// Memory was refused. No call of this crate answers it, since a message holds no list; it is
    /// for callers that keep reading and writing under one type.
    #[error("memory was refused")]
    NoMemory,
}

impl From<ElementFault> for RrFault {
    ghost use Rattle.std.specs.Prelude.{◌≡◌};
    ghost use Rattle.rr_messages.specs.declared.fault.RrFault.TheVariants.{Element};

    ghost from_gives = { λ fault e. e ≡ Element fault };

    fn from(fault: ElementFault) -> RrFault {
        RrFault::Element(fault)
    }
}
