//! Why a line has no effect.
use std::fmt;

/// Why a line that asks its controller's book has no effect.
#[derive(Clone, Copy, Debug, PartialEq, Eq)]
pub enum Unmet {
    /// There is no such call.
    NoCall(u16),
    /// The call is on no channel: it comes from another controller, and hasn't come yet.
    NoChannel(u16),
    /// `neighbour` isn't in the neighbour list of `cell`.
    NoNeighbour { cell: u8, neighbour: u8 },
    /// The release of no channel that the call had is awaited.
    NoRelease(u16),
    /// A report can't say this.
    NoReport,
    /// No call is in a cell that has these neighbours in its list.
    Nobody,
}

impl fmt::Display for Unmet {
    fn fmt<W: fmt::Write>(&self, f: &mut fmt::Formatter<W>) -> fmt::Result {
        match self {
            Unmet::NoCall(call) => write!(f, "there is no call {call}"),
            Unmet::NoChannel(call) => write!(f, "call {call} is on no channel"),
            Unmet::NoNeighbour { cell, neighbour } => {
                write!(
                    f,
                    "cell {neighbour} isn't in the neighbour list of cell {cell}"
                )
            }
            Unmet::NoRelease(call) => { write!(f, "no channel of call {call} awaits its release") }
            Unmet::NoReport => write!(f, "a report can't say this"),
            Unmet::Nobody => write!(f, "no call is in a cell with these neighbours"),
        }
    }
}
