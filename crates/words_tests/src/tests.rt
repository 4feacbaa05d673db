//! What no clause says of words, scripts, charts and captures: refused memory, writes and reads that fail, small pieces, and
//! printed texts that no command line in `tests/commands` shows.
mod drawn;
mod encoded;
mod expected;
mod files;
mod keeping;
mod lines;
mod octets;
mod packets;
mod reasoned;
mod said;
mod scripts;

use refusing_heap::RefusingHeap;
use std::alloc::Global;
use std::fmt::Debug;
use std::process::Abort;
use std::test::Fail;

// Each test asserts by these: an assertion in a function of its own is proved once, and a call of it costs little.

/// What was found is what was wanted.
fn equals<T: Copy + Debug + PartialEq>(rt: &impl Abort, found: T, wanted: T) {
    assert_eq!(rt; found, wanted);
}

/// What was found at this place is what was wanted.
fn equals_at<T: Copy + Debug + PartialEq, W: Copy + Debug>(
    rt: &impl Abort,
    found: T,
    wanted: T,
    at: W,
) {
    assert_eq!(rt; found, wanted, "{at:?}");
}

/// This is so at this place.
fn holds_at<W: Copy + Debug>(rt: &impl Abort, is_so: bool, at: W) {
    assert!(rt; is_so, "{at:?}");
}
