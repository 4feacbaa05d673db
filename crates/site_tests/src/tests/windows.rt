//! Windows of reports: each sum is worked out by hand.
use super::{Said, Window, add_all, equals_at, holds_at};
use refusing_heap::RefusingHeap;
use std::alloc::{Allocator, Global};
use std::process::Abort;

const SERVING: Said = Said {
    dtx: false,
    full: 30,
    sub: 30,
    valid: true,
    neighbours: &[],
};

const AT_40: Said = Said {
    neighbours: &[(40, 2, 21)],
    ..SERVING
};

/// What a window of two reports is given, and then how many count, the serving sum, and the sum of position 2 and code 21.
type Row = (&'static [Said], (usize, u32, u32));

const ROWS: &[Row] = &[
    (&[], (0, 0, 0)),
    // with DTX the subset counts
    (
        &[Said {
            dtx: true,
            sub: 20,
            ..SERVING
        }],
        (1, 20, 0),
    ),
    // the first of two neighbours with one position and code; others are other cells
    (
        &[Said {
            neighbours: &[(9, 3, 21), (8, 2, 20), (10, 2, 21), (50, 2, 21)],
            ..SERVING
        }],
        (1, 30, 10),
    ),
    // a report without the neighbour adds 0 to its sum
    (&[AT_40, SERVING], (2, 60, 40)),
    // the oldest goes where the window is full
    (
        &[
            AT_40,
            Said { full: 2, ..AT_40 },
            Said { full: 4, ..SERVING },
        ],
        (2, 6, 40),
    ),
    // an invalid report neither counts nor drives another out
    (
        &[
            Said { full: 1, ..AT_40 },
            Said { full: 2, ..SERVING },
            Said {
                valid: false,
                ..AT_40
            },
        ],
        (2, 3, 40),
    ),
];

/// A window has so many reports, and these sums.
fn hold<A: Allocator>(
    rt: &impl Abort,
    window: &Window<A>,
    (len, serving, named): (usize, u32, u32),
) {
    let found = (window.len(), window.serving_sum(), window.sum_of(2, 21));
    equals_at(rt, found, (len, serving, named), "reports and sums");
    holds_at(rt, window.is_empty() == (len == 0), len);
}

/// Plays the rows in one window, which is cleared for each. It asks for no memory.
fn hold_all(rt: &impl Abort, heap: &RefusingHeap<Global>, window: &mut Window<&RefusingHeap>) {
    heap.refuse_from_now();
    for (reports, wanted) in ROWS {
        window.clear();
        add_all(rt, window, reports);
        hold(rt, window, *wanted);
    }
    holds_at(rt, !heap.was_refused(), "no memory is asked for");
}

#[test]
fn the_last_valid_reports_count(rt: HostRuntime) {
    let heap = RefusingHeap::ample(rt.alloc());
    hold_all(&rt, &heap, &mut Window::new(&heap, 2).expect(&rt, "memory"));
}

#[test]
fn a_window_is_made_unless_memory_is_refused(rt: HostRuntime) {
    let heap = RefusingHeap::refusing_nth(rt.alloc(), 1);
    holds_at(&rt, Window::new(&heap, 32).is_err(), "refused");
    holds_at(&rt, Window::new(&heap, 32).is_ok(), "made");
    equals_at(&rt, heap.requests(), 2, "requests");
}
