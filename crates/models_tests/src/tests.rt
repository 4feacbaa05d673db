//! What no clause of a simulator says: that its calls succeed, and that a few courses, worked out by hand from the standards,
//! are what stations, mobiles and the centre should do.
mod centre;
mod courses;
mod halves;
mod moves;
mod restarts;
mod stations;

use std::fmt::Debug;
use std::process::Abort;

// Each test asserts by this: an assertion in a function of its own is proved once, and a call of it costs little.

/// This is so at this place.
fn holds_at<W: Copy + Debug>(rt: &impl Abort, is_so: bool, at: W) {
    assert!(rt; is_so, "{at:?}");
}
