//! The parts of a capture file.
ghost use Rattle.std.specs.Prelude.{◌≡◌, ◌+◌, ◌≤◌, length};
ghost use Rattle.octet_elements.specs.Writing.{HasRoom, Adds};
ghost use Rattle.capture.specs.Packet.{file_header, packet_header, packet};

use crate::numbers::four;
use crate::segment::{Segment, internet_header, stream_header};
use octet_elements::append_octets;
use std::alloc::Allocator;

/// What a capture file begins with.
pub fn file_header() -> [u8; 24]
    ensures header { result ≡ file_header }
{
    [
        0xA1, 0xB2, 0xC3, 0xD4, 0, 2, 0, 4, 0, 0, 0, 0, 0, 0, 0, 0, 0, 0, 0xFF, 0xFF, 0, 0, 0, 101,
    ]
}

/// What a packet begins with that was seen at this second and has so many octets.
fn packet_header(seconds: u32, len: u32) -> [u8; 16]
    ensures { result ≡ packet_header seconds len }
{
    let [t3, t2, t1, t0] = four(seconds);
    let [n3, n2, n1, n0] = four(len);
    [t3, t2, t1, t0, 0, 0, 0, 0, n3, n2, n1, n0, n3, n2, n1, n0]
}

/// Appends a segment as a packet that was seen at this second. The list has room for it.
#[tactic(auto, unfolding(crate::specs::Packet::packet))]
pub fn append_packet<A: Allocator>(
    out: &mut Vec<u8, A>,
    seconds: u32,
    segment: &Segment,
    load: &[u8],
)
    requires short { length load.now ≤ 65495 }
    requires room { HasRoom (packet seconds segment.now load.now) out.old }
    ensures packet { Adds (packet seconds segment.now load.now) out.old out.new }
{
    append_octets(out, &packet_header(seconds, 40 + load.len() as u32));
    append_octets(out, &internet_header(segment, load));
    append_octets(out, &stream_header(segment, load));
    append_octets(out, load);
}
