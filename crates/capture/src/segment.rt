//! A segment of TCP in an internet datagram.
ghost use Rattle.std.specs.Prelude.{◌≡◌, ◌+◌, ◌≤◌, ◌++◌, length};
ghost use Rattle.capture.specs.Datagram.{ipv4_header, tcp_header, pseudo_header, header_sum, segment_sum, total_len};

use crate::checksum::checksum;
use crate::numbers::{four, two};

/// Where a segment comes from and goes to, and its place in the stream.
#[derive(Clone, Copy, PartialEq, Eq, Debug)]
pub struct Segment {
    /// The address of the sender.
    pub source: u32,
    /// The address of the receiver.
    pub destination: u32,
    /// The port of both.
    pub port: u16,
    /// The sequence number of the first octet.
    pub sequence: u32,
    /// The sequence number of the next octet the other way.
    pub acknowledgment: u32,
}

/// The internet header of a datagram with so many octets.
fn ipv4_header(segment: &Segment, total: u16, sum: u16) -> [u8; 20]
    ensures { result ≡ ipv4_header segment.now total sum }
{
    let [len1, len0] = two(total);
    let [sum1, sum0] = two(sum);
    let [s3, s2, s1, s0] = four(segment.source);
    let [d3, d2, d1, d0] = four(segment.destination);
    [
        69, 0, len1, len0, 0, 0, 64, 0, 64, 6, sum1, sum0, s3, s2, s1, s0, d3, d2, d1, d0,
    ]
}

/// The header of TCP.
fn tcp_header(segment: &Segment, sum: u16) -> [u8; 20]
    ensures { result ≡ tcp_header segment.now sum }
{
    let [port1, port0] = two(segment.port);
    let [s3, s2, s1, s0] = four(segment.sequence);
    let [a3, a2, a1, a0] = four(segment.acknowledgment);
    let [sum1, sum0] = two(sum);
    [
        port1, port0, port1, port0, s3, s2, s1, s0, a3, a2, a1, a0, 80, 24, 255, 255, sum1, sum0,
        0, 0,
    ]
}

/// The pseudo header of a segment with so many octets, and behind it the header of TCP without its checksum.
fn summed_head(segment: &Segment, len: u16) -> [u8; 32]
    ensures { result ≡ pseudo_header segment.now len ++ tcp_header segment.now 0 }
{
    let [s3, s2, s1, s0] = four(segment.source);
    let [d3, d2, d1, d0] = four(segment.destination);
    let [len1, len0] = two(len);
    let [port1, port0] = two(segment.port);
    let [q3, q2, q1, q0] = four(segment.sequence);
    let [a3, a2, a1, a0] = four(segment.acknowledgment);
    [
        s3, s2, s1, s0, d3, d2, d1, d0, 0, 6, len1, len0, port1, port0, port1, port0, q3, q2, q1,
        q0, a3, a2, a1, a0, 80, 24, 255, 255, 0, 0, 0, 0,
    ]
}

/// The internet header of the datagram with this load.
pub fn internet_header(segment: &Segment, load: &[u8]) -> [u8; 20]
    requires short { length load.now ≤ 65495 }
    ensures header { result ≡ ipv4_header segment.now (total_len load.now)
        (header_sum segment.now load.now) }
{
    let total = (40 + load.len()) as u16;
    let sum = checksum(&[], &ipv4_header(segment, total, 0));
    ipv4_header(segment, total, sum)
}

/// The header of TCP of the segment with this load.
pub fn stream_header(segment: &Segment, load: &[u8]) -> [u8; 20]
    requires short { length load.now ≤ 65495 }
    ensures header { result ≡ tcp_header segment.now (segment_sum segment.now load.now) }
{
    let len = (20 + load.len()) as u16;
    let sum = checksum(&summed_head(segment, len), load);
    tcp_header(segment, sum)
}
