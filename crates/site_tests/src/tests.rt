//! What no clause says of a site file and of what is reported in its cells: that a file can be read, what is printed of its
//! faults, and a few sites, reports and sums that were worked out by hand.
ghost use Rattle.std.specs.Prelude.{◌≡◌};

mod candidates;
mod lookups;
mod refusals;
mod windows;

use measurements::Window;
use sample_sites::THREE_CHANNELS as SITE;
use sample_sites::reports::{Said, report};
use std::alloc::{AllocError, Allocator, Global};
use std::fmt::Debug;
use std::process::Abort;

// Each test asserts by these: an assertion in a function of its own is proved once, and a call of it costs little.

/// What was found is what was wanted.
fn equals<T: Copy + Debug + PartialEq>(rt: &impl Abort, found: T, wanted: T) {
    assert_eq!(rt; found, wanted);
}

/// What was found at this place is what was wanted.
fn equals_at<T: Copy + Debug + PartialEq, W: Copy + Debug>(
    rt: &impl Abort,
    found: T,
    wanted: T,
    at: W,
) {
    assert_eq!(rt; found, wanted, "{at:?}");
}

/// This is so at this place.
fn holds_at<W: Copy + Debug>(rt: &impl Abort, is_so: bool, at: W) {
    assert!(rt; is_so, "{at:?}");
}

/// The site file with the first place of a text replaced.
fn changed(rt: &impl Abort, alloc: Global, old: &str, new: &str) -> Result<String, AllocError> {
    Ok(sample_sites::changed(alloc, SITE, old, new)?.expect(rt, old))
}

/// Gives a window these reports.
fn add_all<A: Allocator>(rt: &impl Abort, window: &mut Window<A>, reports: &[Said])
    ensures width { window.new.width ≡ window.old.width }
{
    for said in reports {
        window.add(&report(*said).expect(rt, "each field fits its bits"));
    }
}
