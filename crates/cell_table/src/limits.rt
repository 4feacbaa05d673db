//! The limits of a site: how much it may have, and how great its numbers may be. Each limit is here once, and once among the
//! definitions (law [`limits_are_those_defined`](crate::laws::limits_are_those_defined)).

/// The most own cells of a site.
pub const MOST_CELLS: usize = 64;

/// The most outside cells of a site.
pub const MOST_OUTSIDE: usize = 64;

/// The number of the first outside cell: own cells have the numbers below.
pub const FIRST_OUTSIDE: u8 = MOST_CELLS as u8;

/// The most TRX of a cell.
pub const MOST_TRX: usize = 4;

/// The timeslots of a TRX, numbered from 0 (TS 45.002 clause 4.3.2).
pub const TIMESLOTS_OF_TRX: usize = 8;

/// The most carriers of a BA list.
pub const MOST_NEIGHBOURS: usize = 32;

/// The most reports of a window.
pub const MOST_REPORTS: usize = 32;

/// The greatest RXLEV (TS 45.008 clause 8.1.4).
pub const MOST_LEVEL: u16 = 63;

/// The greatest location area code and cell identity: each has two octets (TS 23.003 clauses 4.1 and 4.3.1).
pub const MOST_CODE: u16 = 65535;

/// The greatest carrier, an ARFCN (TS 45.005 clause 2).
pub const MOST_CARRIER: u16 = 1023;

/// The greatest network and base station colour code: each has three bits (TS 23.003 clause 4.3.2).
pub const MOST_COLOUR: u16 = 7;

/// The greatest power level (TS 45.005 clause 4.1.1).
pub const MOST_POWER: u16 = 31;
