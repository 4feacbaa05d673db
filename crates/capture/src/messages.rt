//! The messages of a run as a capture.
//!
//! Each message that comes to a controller, or that it sends, is a packet. The second at which it is seen is the number of
//! the input that was handled, counted from 1 over all controllers.
use crate::capture::{Capture, CaptureFault};
use crate::path::{Path, Side, Way, Wire};
use exchange::{Inbound, Outbound};
use std::alloc::{AllocError, Allocator, Global};
use trace_text::trace::{Mark, TraceLine};

/// A capture of the lines that were added.
#[derive(Drop)]
pub struct RunCapture<A: Allocator = Global> {
    capture: Capture<A>,
    inputs: u32,
    left_out: u64,
}

/// The controller of a mark.
fn side_of(mark: Mark) -> Side {
    match mark {
        Mark::Alone | Mark::First => Side::First,
        Mark::Peer => Side::Peer,
    }
}

impl<A: Allocator + Copy> RunCapture<A> {
    /// A capture without a message.
    pub fn new(alloc: A) -> Result<Self, AllocError> {
        Ok(RunCapture {
            capture: Capture::new(alloc)?,
            inputs: 0,
            left_out: 0,
        })
    }

    /// Adds a message. If memory is refused nothing changes.
    fn add(&mut self, mark: Mark, way: Way, wire: Wire, octets: &[u8]) -> Result<(), AllocError> {
        let path = Path {
            side: side_of(mark),
            link: wire,
        };
        match self.capture.add(self.inputs, path, way, octets) {
            Ok(()) => Ok(()),
            Err(CaptureFault::TooLong) => {
                self.left_out = self.left_out.saturating_add(1);
                Ok(())
            }
            Err(CaptureFault::NoMemory) => Err(AllocError),
        }
    }

    /// Adds the message of an input; an expiry and an operator's line add nothing.
    fn add_input(&mut self, mark: Mark, input: &Inbound<A>) -> Result<(), AllocError> {
        match input {
            Inbound::Abis { cell, trx, bytes } => {
                let (cell, trx) = (*cell, *trx);
                self.add(
                    mark,
                    Way::Received,
                    Wire::Abis { cell, trx },
                    bytes.as_slice(),
                )
            }
            Inbound::A { call, bytes } => {
                self.add(
                    mark,
                    Way::Received,
                    Wire::A { call: *call },
                    bytes.as_slice(),
                )
            }
            Inbound::Expiry { .. } | Inbound::Operator(_) => Ok(()),
        }
    }

    /// Adds a message that is sent.
    fn add_sent(&mut self, mark: Mark, sent: &Outbound<A>) -> Result<(), AllocError> {
        match sent {
            Outbound::Abis { cell, trx, bytes } => {
                let (cell, trx) = (*cell, *trx);
                self.add(mark, Way::Sent, Wire::Abis { cell, trx }, bytes.as_slice())
            }
            Outbound::A { call, bytes } => {
                self.add(mark, Way::Sent, Wire::A { call: *call }, bytes.as_slice())
            }
        }
    }

    /// Adds the message of a line; a line without one adds nothing. A message with over 65,492 octets on Abis, or over 255
    /// on A, is left out. If memory is refused nothing is added.
    pub fn add_line(&mut self, mark: Mark, line: &TraceLine<'_, A>) -> Result<(), AllocError> {
        match line {
            TraceLine::Input(input) => {
                self.inputs = self.inputs.saturating_add(1);
                self.add_input(mark, *input)
            }
            TraceLine::Sent(sent) => self.add_sent(mark, *sent),
            TraceLine::Step(_) | TraceLine::Fault(_) | TraceLine::Limit | TraceLine::End(_) => Ok(
                (),
            ),
        }
    }

    /// The file's octets so far, or since they were forgotten last.
    pub fn octets(&self) -> &[u8] {
        self.capture.octets()
    }

    /// Forgets the file's octets so far, once they stand in the file.
    pub fn forget_octets(&mut self) {
        self.capture.forget_octets();
    }

    /// How many messages were too long for a packet, and left out.
    pub fn left_out(&self) -> u64 {
        self.left_out
    }
}
