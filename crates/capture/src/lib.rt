//! The messages of a run as a capture file, which Wireshark opens without settings.
//!
//! Of a live controller these are the messages that it was given and that it said, and not what went over the links. A bridge
//! answers in the place of stations that say nothing or aren't there. It keeps messages back, changes some and drops some. So a
//! packet from a station's address may never have come from that station.
//!
//! Each message is one packet, a segment of TCP in an internet datagram: on Abis in a frame of IPA on port 3003, on A in
//! SCCP unitdata in a frame of IPA on port 5000. Sequence numbers go on, so that no packet looks like one that is sent
//! again. Addresses tell the link, where N is 1, of a second controller 2:
//!
//! - the controller is 10.0.0.N;
//! - a TRX of a cell is 10.N.CELL.TRX, as 10.1.0.3;
//! - the switching centre, about a call, is 10.X.Y.Z: Z are the last two digits of the call's number, Y the two before
//!   them, and X is 100 N and what is left. Call 1 of the first controller is at 10.100.0.1, call 40000 of the second at
//!   10.204.0.0.
#![tactic(auto)]

mod capture;
mod checksum;
mod frame;
mod laws;
mod messages;
mod numbers;
mod packet;
mod path;
mod segment;

pub use capture::{Capture, CaptureFault};
pub use laws::{checks_succeed, far_is_unique};
pub use messages::RunCapture;
pub use path::{Path, Side, Way, Wire};
