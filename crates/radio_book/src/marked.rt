//! A list of events, marked by an attempt among them that was undone.
use std::alloc::{Allocator, Global};

/// A list of events, marked by an attempt among them that was undone.
#[derive(Drop)]
pub struct Marks<A: Allocator = Global> {
    /// Where those events stand that stay without the attempt, upwards.
    pub others: Vec<usize, A>,
    /// No release of the attempt's channel is still awaited.
    pub settled: bool,
    /// Where those of the others stand that were refused because the attempt's target was in the way, or because it had the
    /// reference, upwards.
    pub held: Vec<usize, A>,
}
