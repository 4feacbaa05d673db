//! Messages of simulators that wait for their controllers.
use exchange::Inbound;
use lab_script::script::Side;
use std::alloc::{Allocator, Global};
use std::collections::VecDeque;

/// A message that a simulator sends a controller.
#[derive(Drop)]
pub struct Arrival<A: Allocator = Global> {
    /// The controller.
    pub side: Side,
    pub input: Inbound<A>,
}

/// Messages of simulators that wait for their controllers, the oldest first.
pub type Waiting<A> = VecDeque<Arrival<A>, A>;
