//! What no clause says of a controller with its links: refused memory, and printed texts.
mod lines;

use refusing_heap::RefusingHeap;
use std::fmt::Debug;
use std::process::Abort;
use std::test::Fail;

// Each test asserts by these: an assertion in a function of its own is proved once, and a call of it costs little.

/// What was found at this place is what was wanted.
fn equals_at<T: Copy + Debug + PartialEq, W: Copy + Debug>(
    rt: &impl Abort,
    found: T,
    wanted: T,
    at: W,
) {
    assert_eq!(rt; found, wanted, "{at:?}");
}

/// This is so at this place.
fn holds_at<W: Copy + Debug>(rt: &impl Abort, is_so: bool, at: W) {
    assert!(rt; is_so, "{at:?}");
}
