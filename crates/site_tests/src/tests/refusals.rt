//! Which texts are a site file: worked ones, and those where memory is refused. More texts, and what is said of them, stand in
//! `tests/commands`: `check.t`, `faulty_sites.t` and `sites.t`.
use super::{SITE, changed, equals, equals_at, holds_at};
use cell_table::SiteFault::{Missing, NoMemory, NoTraffic, Range, Toml, Twice};
use cell_table::{Key, Site, SiteFault, What};
use refusing_heap::RefusingHeap;
use std::alloc::Global;
use std::process::Abort;
use std::test::Fail;

/// A text of the site file, what stands in its place, and why the site is refused. Where it isn't, there is none.
const WORKED: &[(&str, &str, Option<SiteFault>)] = &[
    ("[handover]", "[", Some(Toml)),
    ("[handover]", "[other]", Some(Missing(Key::Handover))),
    ("window = 2", "window = 33", Some(Range(Key::Window))),
    ("window = 2", "window = 32", None),
    ("arfcn = 871", "arfcn = 870", Some(Range(Key::Arfcn))),
    ("tch = [2, 3]", "tch = [0]", Some(Range(Key::Tch))),
    ("ci = 101", "ci = 100", Some(Twice(What::Identity))),
    (
        "bcch = 62\nncc = 3\nbcc = 0",
        "bcch = 60\nncc = 1\nbcc = 1",
        Some(Twice(What::Colour)),
    ),
    ("arfcn = 875", "arfcn = 871", Some(Twice(What::Carrier))),
    ("tch = [2, 3]", "tch = [3, 3]", Some(Twice(What::Slot))),
    ("ba = [60]", "ba = [60, 60]", Some(Twice(What::Neighbour))),
    ("tch = [3]", "tch = [3], half = [4]", Some(Range(Key::Half))),
    ("tch = [2, 3]", "tch = []", Some(NoTraffic(0))),
];

/// Whole texts that are refused, and why.
const TEXTS: &[(&str, SiteFault)] = &[
    ("", Missing(Key::Handover)),
    (
        "[handover]\nwindow = 2\nmargin = 3\nminimum = 10\n",
        Missing(Key::Cell),
    ),
    (
        "cell = []\n[handover]\nwindow = 2\nmargin = 3\nminimum = 10\n",
        Range(Key::Cell),
    ),
];

/// The text is read so. What isn't a site asks for no memory but `toml`'s.
fn is_read_so(rt: &impl Abort, alloc: Global, text: &str, wanted: Option<SiteFault>) {
    let heap = RefusingHeap::ample(alloc);
    equals_at(rt, Site::read(&heap, alloc, text).err(), wanted, text);
    holds_at(rt, wanted.is_none() || heap.requests() == 0, text);
}

#[test]
fn worked_texts_are_read_or_refused(rt: HostRuntime) -> Result<(), Fail> {
    for (old, new, wanted) in WORKED {
        let text = changed(&rt, rt.alloc(), *old, *new)?;
        is_read_so(&rt, rt.alloc(), &text, *wanted);
    }
    for (text, fault) in TEXTS {
        is_read_so(&rt, rt.alloc(), *text, Some(*fault));
    }
    Ok(())
}

/// Whether the site file is read over a heap; where it isn't, that is since memory was refused.
fn is_read(rt: &impl Abort, scratch: Global, heap: &RefusingHeap) -> bool {
    let fault = Site::read(heap, scratch, SITE).err();
    equals(rt, fault, heap.was_refused().then_some(SiteFault::NoMemory));
    fault.is_none()
}

#[test]
fn each_refused_request_is_an_allocation_failure(rt: HostRuntime) {
    let mut refusals = 0;
    for n in 1..100 {
        let heap = RefusingHeap::refusing_nth(rt.alloc(), n);
        if is_read(&rt, rt.alloc(), &heap) {
            break;
        }
        refusals = n;
    }
    // A site is kept in one piece.
    equals(&rt, refusals, 1);
}

#[test]
fn comparing_sites_takes_no_memory(rt: HostRuntime) -> Result<(), Fail> {
    let heap = RefusingHeap::refusing_nth(rt.alloc(), 4);
    let one = Site::read(&heap, rt.alloc(), SITE)?;
    let same = Site::read(&heap, rt.alloc(), SITE)?;
    let text = changed(&rt, rt.alloc(), "tch = [2, 3]", "tch = [3, 2]")?;
    let other = Site::read(&heap, rt.alloc(), text.as_str())?;
    equals(&rt, (one == same, one == other), (true, false));
    equals(&rt, heap.requests(), 3);
    Ok(())
}

/// Faults, and how each is printed.
const FAULTS: &[(SiteFault, &str)] = &[
    (Toml, "the text isn't TOML"),
    (Missing(Key::Handover), "the key handover is missing"),
    (
        Range(Key::Tch),
        "the value of tch is of another kind than allowed, or out of its range",
    ),
    (Twice(What::Identity), "two cells have the same lac and ci"),
    (
        Twice(What::Colour),
        "two cells have the same bcch, ncc and bcc",
    ),
    (
        Twice(What::Carrier),
        "two trx of a cell have the same arfcn",
    ),
    (
        Twice(What::Slot),
        "a trx names a timeslot twice in tch or in half",
    ),
    (Twice(What::Neighbour), "a cell names a carrier twice in ba"),
    (NoTraffic(7), "cell 7 has no traffic timeslot at tch"),
    (NoMemory, "memory is refused"),
];

#[test]
fn faults_are_printed(rt: HostRuntime) -> Result<(), Fail> {
    for (fault, text) in FAULTS {
        let printed = format!(in rt.alloc(); "{fault}")?;
        equals_at(&rt, printed.as_str(), *text, fault);
    }
    Ok(())
}
