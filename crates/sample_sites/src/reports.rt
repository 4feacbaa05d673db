//! Measurement reports for tests: how they are made of few fields stands here once, whoever reads them.

use rr_elements::{ElementFault, MeasHead, MeasResults, Ncell};

/// The head of a report of a serving cell at level 30 and of one neighbour.
pub const HEAD: MeasHead = MeasHead {
    ba: false,
    dtx: false,
    full: 30,
    ba3g: false,
    valid: true,
    sub: 30,
    si23: false,
    qfull: 0,
    qsub: 0,
    count: 1,
};

/// A neighbour at level 40, with position 2 and code 21.
pub const NEIGHBOUR: Ncell = Ncell {
    level: 40,
    position: 2,
    bsic: 21,
};

/// The most neighbours of a report.
const MOST: usize = 6;

/// What a report says, its fields not yet known to fit their bits: DTX-USED, RXLEV-FULL, RXLEV-SUB, whether it is
/// valid, and the level, position and code of each neighbour, at most six.
#[derive(Clone, Copy)]
pub struct Said {
    pub dtx: bool,
    pub full: u8,
    pub sub: u8,
    pub valid: bool,
    pub neighbours: &'static [(u8, u8, u8)],
}

fn neighbour_at(neighbours: &[(u8, u8, u8)], place: usize) -> Ncell {
    let (level, position, bsic) = neighbours.get(place).copied().unwrap_or((0, 0, 0));
    Ncell {
        level,
        position,
        bsic,
    }
}

/// The report that says this.
pub fn report(said: Said) -> Result<MeasResults, ElementFault> {
    let count = said.neighbours.len().min(MOST);
    let head = MeasHead {
        dtx: said.dtx,
        full: said.full,
        valid: said.valid,
        sub: said.sub,
        count: count as u8,
        ..HEAD
    };
    let places = [
        neighbour_at(said.neighbours, 0),
        neighbour_at(said.neighbours, 1),
        neighbour_at(said.neighbours, 2),
        neighbour_at(said.neighbours, 3),
        neighbour_at(said.neighbours, 4),
        neighbour_at(said.neighbours, 5),
    ];
    MeasResults::new(head, &places[..count])
}
