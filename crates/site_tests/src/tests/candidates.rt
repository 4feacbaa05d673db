//! The candidates that windows of reports give: each sum is worked out by hand.
ghost use Rattle.std.specs.Prelude.{◌≡◌, ◌≤◌};

use super::{AllocError, Said, Window, add_all, changed, holds_at};
use cell_table::Site;
use ho_candidates::{Candidate, candidates};
use refusing_heap::RefusingHeap;
use sample_sites::{CROWDED, THREE_CHANNELS};
use std::process::Abort;

const QUIET: Said = Said {
    dtx: false,
    full: 0,
    sub: 0,
    valid: true,
    neighbours: &[],
};

/// Cell 0 serves with 30, and names cell 1 by position 2 and code 21, and cell 64 by position 0 and code 24.
const SERVING: Said = Said {
    full: 30,
    sub: 30,
    ..QUIET
};

const AT_40: Said = Said {
    neighbours: &[(40, 2, 21)],
    ..SERVING
};

const AT_33: Said = Said {
    neighbours: &[(33, 2, 21)],
    ..SERVING
};

const AT_32: Said = Said {
    neighbours: &[(32, 2, 21)],
    ..SERVING
};

const BOTH_AT_40: Said = Said {
    neighbours: &[(40, 0, 24), (40, 2, 21)],
    ..SERVING
};

const CELL_64_AHEAD: Said = Said {
    neighbours: &[(50, 0, 24), (45, 2, 21)],
    ..SERVING
};

/// Which cell serves, the reports that a window is given, and the candidates with their sums.
type Row = (u8, &'static [Said], &'static [(u8, u32)]);

/// Two reports count; a candidate needs 6 more than the serving cell, and 20.
const TWO_REPORTS: &[Row] = &[
    // one report isn't enough
    (0, &[AT_40], &[]),
    // the serving cell has 60: 80 and 66 reach 66, and 64 doesn't
    (0, &[AT_40, AT_40], &[(1, 80)]),
    (0, &[AT_33, AT_33], &[(1, 66)]),
    (0, &[AT_32, AT_32], &[]),
    // the larger sum first, and the lower cell first where sums are equal
    (0, &[BOTH_AT_40, BOTH_AT_40], &[(1, 80), (64, 80)]),
    (0, &[BOTH_AT_40, CELL_64_AHEAD], &[(64, 90), (1, 85)]),
    // no own cell serves
    (64, &[BOTH_AT_40, BOTH_AT_40], &[]),
    // the serving cell has nothing, and the minimum is 20
    (
        0,
        &[
            QUIET,
            Said {
                neighbours: &[(20, 0, 24)],
                ..QUIET
            },
        ],
        &[(64, 20)],
    ),
    // an invalid report doesn't count, and the oldest is forgotten
    (
        0,
        &[
            AT_40,
            Said {
                valid: false,
                ..AT_40
            },
        ],
        &[],
    ),
    (0, &[AT_40, AT_33, AT_32], &[]),
];

/// One report counts, and nothing is needed: each cell of the list is a candidate, the lower first.
const ONE_REPORT: &[Row] = &[(0, &[QUIET], &[(1, 0), (64, 0)])];

/// In cell 0: itself by (0, 10), cell 1 by (1, 0), cell 2 by (1, 63), cell 65 by (2, 1), cell 64 by (3, 28).
const FROM_CELL_0: Said = Said {
    neighbours: &[(63, 0, 10), (8, 1, 0), (9, 1, 63), (8, 2, 1), (20, 3, 28)],
    ..QUIET
};

/// In cell 2: cell 0 by (0, 10), cell 1 by (1, 0), itself by (1, 63).
const FROM_CELL_2: Said = Said {
    full: 10,
    neighbours: &[(63, 1, 63), (30, 1, 0), (30, 0, 10)],
    ..QUIET
};

/// Three reports count; a candidate needs 6 more than the serving cell, and 24. A cell in its own list is none.
const THREE_REPORTS: &[Row] = &[
    (
        0,
        &[FROM_CELL_0, FROM_CELL_0, FROM_CELL_0],
        &[(64, 60), (2, 27), (1, 24), (65, 24)],
    ),
    (
        2,
        &[FROM_CELL_2, FROM_CELL_2, FROM_CELL_2],
        &[(0, 90), (1, 90)],
    ),
];

fn hold_candidates(rt: &impl Abort, found: &[Candidate], wanted: &[(u8, u32)]) {
    holds_at(rt, found.len() == wanted.len(), wanted);
    for ((cell, sum), each) in wanted.iter().zip(found) {
        holds_at(rt, each.cell == *cell && each.sum == *sum, wanted);
    }
}

/// How many reports a window of the site has.
fn width_of(rt: &impl Abort, site: &Site) -> usize
    ensures value { result ≡ site.now.handover.window }
    ensures some { 1 ≤ result }
    ensures most { result ≤ 32 }
{
    let width = usize::from(site.window());
    assert!(rt; 1 <= width && width <= 32);
    width
}

fn hold<R: Abort + AllocGlobal>(rt: &R, site: &Site, (cell, reports, wanted): Row) {
    let mut window = Window::new(rt.alloc(), width_of(rt, site)).expect(rt, "memory");
    add_all(rt, &mut window, reports);
    let found = candidates(rt.alloc(), &window, site, cell).expect(rt, "memory");
    hold_candidates(rt, found.as_slice(), wanted);
}

fn hold_all<R: Abort + AllocGlobal>(rt: &R, text: &str, rows: &[Row]) {
    let site = Site::read(rt.alloc(), rt.alloc(), text).expect(rt, text);
    for row in rows {
        hold(rt, &site, *row);
    }
}

#[test]
fn windows_give_their_candidates(rt: HostRuntime) -> Result<(), AllocError> {
    let two = "window = 2\nmargin = 3\nminimum = 10";
    let one = "window = 1\nmargin = 0\nminimum = 0";
    let text = changed(&rt, rt.alloc(), two, one)?;
    hold_all(&rt, THREE_CHANNELS, TWO_REPORTS);
    hold_all(&rt, text.as_str(), ONE_REPORT);
    hold_all(&rt, CROWDED, THREE_REPORTS);
    Ok(())
}

/// How many requests were refused in turn, until the candidates were listed.
fn refusals<R: Abort + AllocGlobal>(rt: &R, site: &Site, reports: &[Said]) -> u64 {
    let mut window = Window::new(rt.alloc(), width_of(rt, site)).expect(rt, "memory");
    add_all(rt, &mut window, reports);
    let mut refused = 0;
    for n in 1..100 {
        let heap = RefusingHeap::refusing_nth(rt.alloc(), n);
        let answer = candidates(&heap, &window, site, 0);
        holds_at(rt, answer.is_err() == heap.was_refused(), n);
        if answer.is_ok() {
            break;
        }
        refused = n;
    }
    refused
}

#[test]
fn each_refused_request_is_answered(rt: HostRuntime) {
    let site = Site::read(rt.alloc(), rt.alloc(), THREE_CHANNELS).expect(&rt, "a site");
    let refused = refusals(&rt, &site, &[BOTH_AT_40, BOTH_AT_40]);
    holds_at(&rt, 0 < refused && refused < 99, (refused, "requests"));
    // no candidate, no memory
    holds_at(&rt, refusals(&rt, &site, &[AT_40]) == 0, "none");
}
