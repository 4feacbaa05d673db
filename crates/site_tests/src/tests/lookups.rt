//! What a site answers. What it answers of other sites `check.t` of `tests/commands` shows.
use super::{SITE, changed, equals, equals_at};
use cell_table::Site;
use channel_fsm::{ChanId, Sub};
use sample_sites::{HALVED, HOME, LOWER, OTHER, TARGET, UPPER};
use std::alloc::Global;
use std::process::Abort;
use std::test::Fail;

/// Channels, and the place of each among the traffic channels.
type Placed = (ChanId, Option<usize>);

/// A channel that the site doesn't have.
const NONE_THERE: ChanId = ChanId {
    cell: 1,
    trx: 0,
    tn: 3,
    sub: Sub::Full,
};

const PLACES: &[Placed] = &[
    (OTHER, Some(0)),
    (HOME, Some(1)),
    (TARGET, Some(2)),
    (NONE_THERE, None),
    (LOWER, None),
];

/// Where a timeslot also carries halves, they come behind the whole of it.
const PLACES_OF_HALVES: &[Placed] = &[(TARGET, Some(2)), (LOWER, Some(3)), (UPPER, Some(4))];

fn have_places(rt: &impl Abort, site: &Site<Global>, places: &[Placed]) {
    for (chan, place) in places {
        equals_at(rt, site.index_of(*chan), *place, chan);
        equals_at(rt, site.is_traffic(*chan), place.is_some(), chan);
    }
}

/// Cells, and the location area code and cell identity of each, its carrier and both colour codes.
type Identity = (
    u8,
    Option<u16>,
    Option<u16>,
    Option<u16>,
    Option<u8>,
    Option<u8>,
);

/// An own cell, an outside cell and none.
const IDENTITIES: &[Identity] = &[
    (1, Some(23), Some(101), Some(871), Some(2), Some(5)),
    (64, Some(23), Some(102), Some(62), Some(3), Some(0)),
    (2, None, None, None, None, None),
];

fn says_of_cells(rt: &impl Abort, site: &Site<Global>) {
    for (cell, lac, ci, bcch, ncc, bcc) in IDENTITIES {
        let cell = *cell;
        let (codes, carrier) = ((site.lac(cell), site.ci(cell)), site.bcch(cell));
        equals_at(rt, (codes, carrier), ((*lac, *ci), *bcch), cell);
        equals_at(rt, (site.ncc(cell), site.bcc(cell)), (*ncc, *bcc), cell);
    }
    equals(rt, (site.power(1), site.trx(1)), (Some(5), Some(2)));
    equals(rt, site.ba(0), Some([62, 70, 871].as_slice()));
    equals(rt, site.arfcn(1, 1), Some(875));
    equals(rt, site.tch(0, 0), Some([2, 3].as_slice()));
}

#[test]
fn a_site_says_what_its_file_does(rt: HostRuntime) -> Result<(), Fail> {
    let site = Site::read(rt.alloc(), rt.alloc(), SITE)?;
    let rule = (site.window(), site.margin(), site.minimum());
    equals(&rt, rule, (2, 3, 10));
    equals(&rt, (site.cells(), site.outside_cells()), (2, 1));
    says_of_cells(&rt, &site);
    equals(&rt, site.cell_of(23, 102), Some(64));
    have_places(&rt, &site, PLACES);
    Ok(())
}

#[test]
fn halves_have_places(rt: HostRuntime) -> Result<(), Fail> {
    let (whole, halved) = HALVED;
    let text = changed(&rt, rt.alloc(), whole, halved)?;
    let site = Site::read(rt.alloc(), rt.alloc(), text.as_str())?;
    have_places(&rt, &site, PLACES_OF_HALVES);
    equals(&rt, site.channels(), 5);
    equals(&rt, site.half(1, 1), Some([3].as_slice()));
    equals(&rt, site.traffic_mask(1, 1, Sub::Half1), 8);
    Ok(())
}

/// What names a cell: a cell, a position in its neighbour list, and a base station identity code; and the cell.
type Named = ((u8, u8, u8), Option<u8>);

/// In the site as it stands, with `ba = [62, 70, 871]` in cell 0: no cell has the carrier 70, and the list ends behind 871.
const AS_IT_STANDS: &[Named] = &[
    ((0, 0, 24), Some(64)),
    ((0, 2, 21), Some(1)),
    ((0, 1, 0), None),
    ((0, 3, 0), None),
];

/// With `ba = [0, 871, 62]` in cell 0: the list has 62 and 871, and carrier 0 last.
const WITH_CARRIER_0: &[Named] = &[
    ((0, 0, 24), Some(64)),
    ((0, 1, 21), Some(1)),
    ((0, 2, 24), None),
];

fn names(rt: &impl Abort, site: &Site<Global>, rows: &[Named]) {
    for ((cell, position, bsic), wanted) in rows {
        let found = site.by_bsic(*cell, *position, *bsic);
        equals_at(rt, found, *wanted, (cell, position, bsic));
        if let Some(neighbour) = *wanted {
            let name = site.reported_as(*cell, neighbour);
            equals_at(rt, name, Some((*position, *bsic)), (cell, neighbour));
        }
    }
}

/// The rows name what is reported in the site file with the first place of a text replaced.
fn names_in(
    rt: &(impl AllocGlobal + Abort),
    old: &str,
    new: &str,
    rows: &[Named],
) -> Result<(), Fail> {
    let text = changed(rt, rt.alloc(), old, new)?;
    names(
        rt,
        &Site::read(rt.alloc(), rt.alloc(), text.as_str())?,
        rows,
    );
    Ok(())
}

#[test]
fn reports_name_neighbours(rt: HostRuntime) -> Result<(), Fail> {
    let list = "ba = [62, 70, 871]";
    names_in(&rt, list, list, AS_IT_STANDS)?;
    names_in(&rt, list, "ba = [0, 871, 62]", WITH_CARRIER_0)
}
