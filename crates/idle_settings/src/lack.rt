//! What there isn't that a line of a script names.
use channel_fsm::ChanId;
use lab_script::script::Side;
use std::fmt;
use timeslots::Rate;

/// What there isn't that a line names: its controller's site lacks it, or its book.
#[derive(Clone, Copy, Debug, PartialEq, Eq)]
pub enum Lack {
    /// A cell.
    Cell(Side, u8),
    /// A TRX of a cell that there is.
    Trx(Side, u8, u8),
    /// A channel that carries traffic.
    Channel(Side, ChanId),
    /// Any traffic channel of this rate, of a cell that there is.
    Rate(Side, u8, Rate),
    /// A call.
    Call(u16),
}

/// A controller's site, as it is spoken of.
fn site_of(side: Side) -> &'static str {
    match side {
        Side::First => "the site",
        Side::Peer => "the second controller's site",
    }
}

impl fmt::Display for Lack {
    fn fmt<W: fmt::Write>(&self, f: &mut fmt::Formatter<W>) -> fmt::Result {
        match *self {
            Lack::Cell(side, cell) => write!(f, "{} has no cell {cell}", site_of(side)),
            Lack::Trx(side, cell, trx) => {
                write!(f, "{} has no TRX {trx} in cell {cell}", site_of(side))
            }
            Lack::Channel(side, chan) => write!(f, "{} has no channel {chan}", site_of(side)),
            Lack::Rate(side, cell, Rate::Full) => {
                write!(
                    f,
                    "{} has no full-rate channel in cell {cell}",
                    site_of(side)
                )
            }
            Lack::Rate(side, cell, Rate::Half) => {
                write!(
                    f,
                    "{} has no half-rate channel in cell {cell}",
                    site_of(side)
                )
            }
            Lack::Call(call) => write!(f, "there is no call {call}"),
        }
    }
}
