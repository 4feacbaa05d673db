//! One input, and what came of it.
use exchange::{Bad, Inbound, Outbound};
use lab_script::script::Side;
use std::alloc::{Allocator, Global};
use trace_text::trace::Step;

/// Where an input comes from.
#[derive(Clone, Copy, Debug, PartialEq, Eq)]
pub enum Source {
    /// A line of the script gives it.
    Script,
    /// A simulated station, or the simulated switching centre, sends it.
    Simulator,
}

/// What a controller answered to an input.
#[derive(Drop)]
pub enum Answer<A: Allocator = Global> {
    /// It sent these messages.
    Sent(Vec<Outbound<A>, A>),
    /// The input's octets are no message, or those of the radio resource message inside are none. Nothing was asked, and
    /// nothing is sent.
    Undecoded(Bad),
}

/// An input, what the controller asked of its book, and what it answered.
#[derive(Drop)]
pub struct Turn<A: Allocator = Global> {
    /// The controller.
    pub side: Side,
    /// Where the input comes from.
    pub source: Source,
    /// What the controller was given.
    pub input: Inbound<A>,
    /// What it asked of its book: each event with its reply, and each cell without a free channel, in order.
    pub steps: Vec<Step, A>,
    /// What it sent, or why its octets can't be read.
    pub answer: Answer<A>,
}
