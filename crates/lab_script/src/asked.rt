//! What lines ask that is found by the book's record once they are played.
use bts_model::Answer;

/// Whose mobile reports.
#[derive(Clone, Copy, Debug, PartialEq, Eq)]
pub enum Whom {
    /// That of this call.
    Call(u16),
    /// That of each call which is on a channel.
    All,
}

/// A neighbour that a mobile hears.
#[derive(Clone, Copy, Debug, PartialEq, Eq)]
pub struct Heard {
    /// The cell: an own one, or one of another controller.
    pub cell: u8,
    /// RXLEV-NCELL, 0 to 63 (TS 44.018 clause 10.5.2.20).
    pub level: u8,
}

/// How many neighbours a report has at most (TS 44.018 clause 10.5.2.20).
pub const MOST_HEARD: usize = 6;

/// What a mobile measures, and what its station says with that (TS 48.058 clause 8.4.8).
#[derive(Clone, Copy, Debug, PartialEq, Eq)]
pub struct Report {
    /// RXLEV-FULL and RXLEV-SUB, 0 to 63.
    pub full: u8,
    pub sub: u8,
    /// RXQUAL-FULL and RXQUAL-SUB, 0 to 7.
    pub qfull: u8,
    pub qsub: u8,
    /// DTX-USED.
    pub dtx: bool,
    /// The timing advance, 0 to 63, where the station tells it (TS 48.058 clause 9.3.10).
    pub ta: Option<u8>,
    /// The power level of the station (TS 48.058 clause 9.3.4).
    pub power: u8,
    /// The neighbours, in their order; behind the last no place is used.
    pub heard: [Option<Heard>; MOST_HEARD],
    /// How often it comes, 1 to 255.
    pub times: u8,
}

/// What a line asks of the controller's book when it is played.
#[derive(Clone, Copy, Debug, PartialEq, Eq)]
pub enum Asked {
    /// The reports that stations pass on.
    Report { whom: Whom, report: Report },
    /// What a station says of the channel of a call that this concerns.
    Answer { call: u16, answer: Answer },
}
