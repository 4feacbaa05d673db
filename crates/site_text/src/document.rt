//! Where the tables of a site file stand.
use cell_table::Key;
use cell_table::limits::FIRST_OUTSIDE;
use std::fmt;
use toml::Value;

/// Where a table stands: cells and TRX are counted from 0 in the order of the file, outside cells from 64 too.
#[derive(Clone, Copy)]
pub enum Place {
    Top,
    Handover,
    Cell(usize),
    Trx(usize, usize),
    Outside(usize),
}

impl fmt::Display for Place {
    fn fmt<W: fmt::Write>(&self, f: &mut fmt::Formatter<W>) -> fmt::Result {
        match self {
            Place::Top => write!(f, "the file"),
            Place::Handover => write!(f, "handover"),
            Place::Cell(cell) => write!(f, "cell {cell}"),
            Place::Trx(cell, trx) => write!(f, "cell {cell}, trx {trx}"),
            Place::Outside(cell) => {
                let number = cell.saturating_add(usize::from(FIRST_OUTSIDE));
                write!(f, "outside {cell} (cell {number})")
            }
        }
    }
}

/// The entries of the array at a key; none where there is no array.
pub fn entries(table: &Value, key: Key) -> &[Value] {
    match table.get(key.name()) {
        Some(value) => match value.as_array() {
            Some(found) => found.as_slice(),
            None => &[],
        },
        None => &[],
    }
}
