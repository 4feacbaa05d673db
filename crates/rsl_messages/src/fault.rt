//! Why octets are no message.
ghost use Rattle.std.specs.Prelude.{◌≡◌, ◌↔◌, IsTrue};

use octet_elements::ValueFault;
use std::alloc::AllocError;
use thiserror::Error;

/// Why octets are no message. Faults are looked for in this order: `TooLong`, `NotRsl`, `Torn(1)`,
/// `UnknownType`, `Torn` with a later offset, then `Missing` or `BadElement` element by element in
/// the order in which the message is written; `NoMemory` is last.
#[derive(Clone, Copy, PartialEq, Eq, Debug, Error)]
pub enum RslFault {
    /// There is no octet, or the first is not the discriminator of a message that is read here.
    #[error("not a message of radio link layer or dedicated channel management")]
    NotRsl,
    /// The discriminator has no message of this type.
    #[error("unknown message type 0x{0:02x}")]
    UnknownType(u8),
    /// The mandatory element with this identifier is not there.
    #[error("element 0x{0:02x} is missing")]
    Missing(u8),
    /// The element with this identifier has a value that can't be read.
    #[error("element 0x{0:02x} is bad")]
    BadElement(u8),
    /// The element at this offset, counted from the first octet, is cut. At offset 1 the
    /// type is missing.
    #[error("torn at offset {0}")]
    Torn(usize),
    /// There are more than 1,024 octets.
    #[error("longer than 1,024 octets")]
    TooLong,
    /// Memory ran out.
    #[error("memory was refused")]
    NoMemory,
}

impl RslFault {
    /// Memory was refused: the octets may be a message.
    pub fn is_memory(self) -> bool
        ensures { IsTrue result ↔ (self ≡ RslFault.NoMemory) }
    {
        match self {
            Self::NoMemory => true,
            Self::NotRsl
            | Self::UnknownType(_)
            | Self::Missing(_)
            | Self::BadElement(_)
            | Self::Torn(_)
            | Self::TooLong => false,
        }
    }
}

impl From<AllocError> for RslFault {
    ghost use Rattle.rsl_messages.specs.declared.fault.RslFault.TheVariants.{NoMemory};

    ghost from_gives = { λ _ e. e ≡ NoMemory };

    fn from(_error: AllocError) -> RslFault {
        RslFault::NoMemory
    }
}

impl From<ValueFault> for RslFault {
    ghost use Rattle.rsl_messages.specs.Values.{fault_of};

    ghost from_gives = { λ e f. f ≡ fault_of e };

    fn from(fault: ValueFault) -> RslFault {
        match fault {
            ValueFault::Absent(identifier) => RslFault::Missing(identifier),
            ValueFault::Bad(identifier) => RslFault::BadElement(identifier),
        }
    }
}
