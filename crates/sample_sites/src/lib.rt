//! Site files for tests and for the bench, with channels that they name, and what mobiles report there: each stands here once,
//! whoever reads it.
#![tactic(auto)]

pub mod reports;

use channel_fsm::{ChanId, Sub};
use std::alloc::{AllocError, Global};
use std::fmt::Write;

/// Two cells and one of another controller, with every key that a site file has. In cell 0 timeslots 2 and 3 of TRX 0
/// carry traffic, in cell 1 timeslot 3 of TRX 1.
pub const THREE_CHANNELS: &str = "[handover]
window = 2
margin = 3
minimum = 10
[[cell]]
lac = 23
ci = 100
bcch = 60
ncc = 1
bcc = 1
power = 5
ba = [62, 70, 871]
trx = [{ arfcn = 60, tch = [2, 3] }]
[[cell]]
lac = 23
ci = 101
bcch = 871
ncc = 2
bcc = 5
power = 5
ba = [60]
trx = [{ arfcn = 871, tch = [] }, { arfcn = 875, tch = [3] }]
[[outside]]
lac = 23
ci = 102
bcch = 62
ncc = 3
bcc = 0
";

/// Another controller: the one cell that [`THREE_CHANNELS`] has as its outside cell, with one channel.
pub const PEER: &str = "[handover]
window = 2
margin = 3
minimum = 10
[[cell]]
lac = 23
ci = 102
bcch = 62
ncc = 3
bcc = 0
power = 7
ba = []
trx = [{ arfcn = 62, tch = [1] }]
";

/// The first channel of cell 0 in [`THREE_CHANNELS`].
pub const OTHER: ChanId = ChanId {
    cell: 0,
    trx: 0,
    tn: 2,
    sub: Sub::Full,
};

/// The channel beside it.
pub const HOME: ChanId = ChanId {
    cell: 0,
    trx: 0,
    tn: 3,
    sub: Sub::Full,
};

/// The one channel of cell 1 there.
pub const TARGET: ChanId = ChanId {
    cell: 1,
    trx: 1,
    tn: 3,
    sub: Sub::Full,
};

/// What [`THREE_CHANNELS`] says of its last TRX, and the same where its timeslot also carries halves.
pub const HALVED: (&str, &str) = (
    "{ arfcn = 875, tch = [3] }",
    "{ arfcn = 875, tch = [3], half = [3] }",
);

/// The lower half of [`TARGET`] there.
pub const LOWER: ChanId = ChanId {
    cell: 1,
    trx: 1,
    tn: 3,
    sub: Sub::Half0,
};

/// The upper half of it.
pub const UPPER: ChanId = ChanId {
    cell: 1,
    trx: 1,
    tn: 3,
    sub: Sub::Half1,
};

/// One cell, in which timeslots 5 and 3 of TRX 1 and 6 and 2 of TRX 2 carry traffic, named in this order.
pub const SCATTERED: &str = "[handover]
window = 1
margin = 0
minimum = 0
[[cell]]
lac = 1
ci = 0
bcch = 60
ncc = 1
bcc = 1
power = 5
ba = []
trx = [{ arfcn = 60, tch = [] }, { arfcn = 61, tch = [5, 3] }, { arfcn = 62, tch = [6, 2] }]
";

/// Three cells, two of them on one carrier, and three of others, one of them on carrier 0. The neighbour list of cell 0
/// is 10, 20, 30, 0, that of cell 2 is 10, 20: each has its own carrier too.
pub const CROWDED: &str = "[handover]
window = 3
margin = 2
minimum = 8
[[cell]]
lac = 1
ci = 0
bcch = 10
ncc = 1
bcc = 2
power = 5
ba = [0, 30, 20, 10]
trx = [{ arfcn = 10, tch = [1] }]
[[cell]]
lac = 1
ci = 1
bcch = 20
ncc = 0
bcc = 0
power = 5
ba = [10]
trx = [{ arfcn = 20, tch = [1] }]
[[cell]]
lac = 1
ci = 2
bcch = 20
ncc = 7
bcc = 7
power = 5
ba = [20, 10]
trx = [{ arfcn = 20, tch = [1] }]
[[outside]]
lac = 2
ci = 0
bcch = 0
ncc = 3
bcc = 4
[[outside]]
lac = 2
ci = 1
bcch = 30
ncc = 0
bcc = 1
[[outside]]
lac = 2
ci = 2
bcch = 40
ncc = 0
bcc = 1
";

/// A cell, and one of another controller with the same location area code and cell identity, which is refused.
pub const SAME_IDENTITY: &str = "[handover]
window = 2
margin = 3
minimum = 10
[[cell]]
lac = 23
ci = 100
bcch = 60
ncc = 1
bcc = 1
power = 5
ba = []
trx = [{ arfcn = 60, tch = [2] }]
[[outside]]
lac = 23
ci = 100
bcch = 62
ncc = 3
bcc = 0
";

/// A cell without a traffic channel, which is refused.
pub const NO_TRAFFIC: &str = "[handover]
window = 2
margin = 3
minimum = 10
[[cell]]
lac = 23
ci = 100
bcch = 60
ncc = 1
bcc = 1
power = 5
ba = []
trx = [{ arfcn = 60, tch = [] }]
";

/// No cell, which is refused.
pub const NO_CELL: &str = "[handover]\nwindow = 2\nmargin = 3\nminimum = 10\n";

/// Appends a TRX on this carrier, with what else is said of it: `first` is that of the broadcast channel, whose timeslot 0
/// carries no traffic.
fn push_trx(text: &mut String, carrier: u32, first: bool, more: &str) -> Result<(), AllocError> {
    text.push_str(if first { "trx = [" } else { ", " })?;
    let zero = if first { "" } else { "0, " };
    write!(
        text,
        "{{ arfcn = {carrier}, tch = [{zero}1, 2, 3, 4, 5, 6, 7]{more} }}"
    )
}

/// Appends cell `ci` with so many TRX, of each of which more is said.
fn push_cell(text: &mut String, ci: u16, trx: u16, more: &str) -> Result<(), AllocError> {
    let bcch = u32::from(ci) * u32::from(trx);
    writeln!(
        text,
        "[[cell]]\nlac = 1\nci = {ci}\nbcch = {bcch}\nncc = 0\nbcc = 0\npower = 0\nba = []"
    )?;
    for place in 0..trx {
        push_trx(text, bcch + u32::from(place), place == 0, more)?;
    }
    text.push_str("]\n")
}

/// So many cells with so many TRX each, and so many cells of others. Every timeslot carries traffic but timeslot 0 of
/// each cell's first TRX.
///
/// Cell `n` has cell identity `n` in area 1, and its TRX have the carriers from `n * trx` on; outside cell `n` has cell
/// identity `n` in area 2 and carrier `n`. Nothing is looked at: numbers out of their ranges make a text that
/// `Site::read` refuses.
pub fn site_of_cells(
    alloc: Global,
    cells: u16,
    trx: u16,
    outside: u16,
) -> Result<String, AllocError> {
    let mut text = String::from_str(alloc, NO_CELL)?;
    for ci in 0..cells {
        push_cell(&mut text, ci, trx, "")?;
    }
    for ci in 0..outside {
        writeln!(
            text,
            "[[outside]]\nlac = 2\nci = {ci}\nbcch = {ci}\nncc = 1\nbcc = 0"
        )?;
    }
    Ok(text)
}

/// So many cells with so many TRX each, as those of [`site_of_cells`], whose timeslots 1, 3, 5 and 7 also carry halves.
pub fn site_of_halves(alloc: Global, cells: u16, trx: u16) -> Result<String, AllocError> {
    let mut text = String::from_str(alloc, NO_CELL)?;
    for ci in 0..cells {
        push_cell(&mut text, ci, trx, ", half = [1, 3, 5, 7]")?;
    }
    Ok(text)
}

/// A text with the first place of `old` replaced by `new`. None where `old` doesn't stand in it.
pub fn changed(
    alloc: Global,
    text: &str,
    old: &str,
    new: &str,
) -> Result<Option<String>, AllocError> {
    let Some((before, after)) = text.split_once(old) else {
        return Ok(None);
    };
    let mut changed = String::from_str(alloc, before)?;
    changed.push_str(new)?;
    changed.push_str(after)?;
    Ok(Some(changed))
}
