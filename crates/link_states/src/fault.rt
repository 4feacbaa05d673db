//! Why octets are no note.
use octet_elements::ValueFault;
use thiserror::Error;

/// Why octets are no note: the first that is so, `Torn` first, and then element by element in the order in which they are written.
#[derive(Clone, Copy, Debug, PartialEq, Eq, Error)]
pub enum StateFault {
    /// The element at this offset is cut.
    #[error("torn at offset {0}")]
    Torn(usize),
    /// The element with this identifier isn't there.
    #[error("element {0} is missing")]
    Missing(u8),
    /// The element with this identifier has a value that can't be read.
    #[error("element {0} is bad")]
    Bad(u8),
    /// Memory was refused. Reading asks for none.
    #[error("memory was refused")]
    NoMemory,
}

impl From<ValueFault> for StateFault {
    ghost use Rattle.std.specs.Prelude.{◌≡◌};
    ghost use Rattle.link_states.specs.Forms.{fault_of};

    ghost from_gives = { λ e f. f ≡ fault_of e };

    fn from(fault: ValueFault) -> StateFault {
        match fault {
            ValueFault::Absent(identifier) => StateFault::Missing(identifier),
            ValueFault::Bad(identifier) => StateFault::Bad(identifier),
        }
    }
}
