//! Why the fields of a message can't be read.
use std::fmt;
use thiserror::Error;

/// What the value of a field may be.
#[derive(Clone, Copy, Debug, PartialEq, Eq)]
pub enum Allowed {
    /// A number from 0 to this one.
    Number(u16),
    /// A number from 0 to 255, or `0x` and two hexadecimal digits.
    Cause,
    /// A number from 0 to 255, or `-`.
    OptionalOctet,
    /// A timeslot, and behind it the half of it that a half-rate channel has.
    TrafficChannel,
    /// 0 or 1.
    Flag,
    /// So many octets or more, in hexadecimal.
    Octets(usize),
    /// So many octets or more, in hexadecimal, or `-`.
    OptionalOctets(usize),
    /// A cell with its location area.
    Cell,
    /// Cells with their location areas, and a comma between any two.
    Cells,
    /// What was measured of a neighbour: level, position and code.
    Neighbour,
}

/// At least so many octets, in words.
#[derive(Clone, Copy)]
struct AtLeast(usize);

impl fmt::Display for AtLeast {
    fn fmt<W: fmt::Write>(&self, f: &mut fmt::Formatter<W>) -> fmt::Result {
        match self.0 {
            0 => write!(f, "octets in hexadecimal"),
            1 => write!(f, "one octet or more in hexadecimal"),
            least => write!(f, "{least} octets or more in hexadecimal"),
        }
    }
}

impl fmt::Display for Allowed {
    fn fmt<W: fmt::Write>(&self, f: &mut fmt::Formatter<W>) -> fmt::Result {
        match self {
            Allowed::Number(most) => write!(f, "0 to {most}"),
            Allowed::Cause => write!(f, "0 to 255"),
            Allowed::OptionalOctet => write!(f, "0 to 255, or -"),
            Allowed::TrafficChannel => write!(f, "0 to 7, with /0 or /1 at the end for half rate"),
            Allowed::Flag => write!(f, "0 or 1"),
            Allowed::Octets(least) => write!(f, "{}", AtLeast(*least)),
            Allowed::OptionalOctets(least) => write!(f, "{}, or -", AtLeast(*least)),
            Allowed::Cell => write!(f, "a cell with its location area, as in 23/102"),
            Allowed::Cells => write!(
                f,
                "a list of cells with their location areas, as in 23/102,23/103"
            ),
            Allowed::Neighbour => write!(
                f,
                "a level 0 to 63, a position 0 to 31 and a code 0 to 63, as in 40/2/21"
            ),
        }
    }
}

/// The most characters of a text that a reason shows.
const MOST_SHOWN: usize = 60;

/// The front of a text that a reason doesn't show whole.
fn front(text: &str) -> Option<&str> {
    let (end, _) = text.char_indices().nth(MOST_SHOWN)?;
    text.get(..end)
}

/// A text as a reason shows it: in quotes, with its control characters escaped. A longer one, which may fill a screen, is
/// cut behind its first 60 characters, and `..` stands behind the quotes.
#[derive(Clone, Copy)]
pub struct Shown<'a>(pub &'a str);

impl fmt::Display for Shown<'_> {
    fn fmt<W: fmt::Write>(&self, f: &mut fmt::Formatter<W>) -> fmt::Result {
        match front(self.0) {
            Some(front) => write!(f, "{front:?}.."),
            None => write!(f, "{:?}", self.0),
        }
    }
}

/// Why the fields of a message can't be read. What of the text is shown is so as [`Shown`] shows it.
#[derive(Clone, Copy, Debug, PartialEq, Eq, Error)]
pub enum FieldFault<'a> {
    // A word that is no field of the message.
    #[error("{} is no field of the message", Shown(.0))]
    Unknown(&'a str),
    // A field that is missing.
    #[error("{0} is missing")]
    Missing(&'static str),
    // A field that stands twice.
    #[error("{0} is given twice")]
    Twice(&'static str),
    // A field whose value is another than it may be.
    #[error("{key} is {allowed}, found {}", Shown(.value))]
    Value {
        key: &'static str,
        value: &'a str,
        allowed: Allowed,
    },
    // Memory was refused.
    #[error("memory was refused")]
    NoMemory,
}
