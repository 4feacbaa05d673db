//! Why octets are no message.
ghost use Rattle.std.specs.Prelude.{◌≡◌, ◌↔◌, IsTrue};
ghost use Rattle.bssmap_messages.specs.declared.fault.BssmapFault.TheVariants.{NoMemory};
ghost use Rattle.bssmap_messages.specs.Values.{fault_of};

use octet_elements::ValueFault;
use std::alloc::AllocError;
use thiserror::Error;

/// Why octets are no message. Faults are looked for in the order in which they stand here, but
/// `Torn` comes before `Missing` and `BadElement`, and these two come element by element in the
/// order in which the message is written; `NoMemory` is last.
#[derive(Clone, Copy, PartialEq, Eq, Debug, Error)]
pub enum BssmapFault {
    /// There is no octet, or the first, the discriminator, is not 0.
    #[error("not a BSSMAP message")]
    NotBssmap,
    /// There is no length octet, it doesn't count the octets that follow it, or it is 0 or above 253.
    #[error("wrong length octet")]
    Length,
    /// No message that is read here has this type.
    #[error("unknown message type 0x{0:02x}")]
    UnknownType(u8),
    /// The mandatory element with this identifier is not there; 0x12 where there is no classmark.
    #[error("element 0x{0:02x} is missing")]
    Missing(u8),
    /// The element with this identifier has a value that can't be read.
    #[error("element 0x{0:02x} is bad")]
    BadElement(u8),
    /// The element at this offset, counted from the message's first octet, is cut.
    #[error("torn at offset {0}")]
    Torn(usize),
    /// Memory ran out.
    #[error("memory was refused")]
    NoMemory,
}

impl BssmapFault {
    /// Memory was refused: the octets may be a message.
    pub fn is_memory(self) -> bool
        ensures { IsTrue result ↔ (self ≡ NoMemory) }
    {
        match self {
            Self::NoMemory => true,
            Self::NotBssmap
            | Self::Length
            | Self::UnknownType(_)
            | Self::Missing(_)
            | Self::BadElement(_)
            | Self::Torn(_) => false,
        }
    }
}

impl From<AllocError> for BssmapFault {
    ghost from_gives = { λ _ e. e ≡ NoMemory };

    fn from(_error: AllocError) -> BssmapFault {
        BssmapFault::NoMemory
    }
}

impl From<ValueFault> for BssmapFault {
    ghost from_gives = { λ e f. f ≡ fault_of e };

    fn from(fault: ValueFault) -> BssmapFault {
        match fault {
            ValueFault::Absent(identifier) => BssmapFault::Missing(identifier),
            ValueFault::Bad(identifier) => BssmapFault::BadElement(identifier),
        }
    }
}
