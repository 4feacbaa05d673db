//! Between which ends a message goes, and how these are told by addresses and ports.
ghost use Rattle.std.specs.Prelude.{◌≡◌, ◌<◌, ◌+◌, ◌*◌};
ghost use Rattle.capture.specs.Ends.{address, number_of, near, far, port_of, segment, behind, begun};

use crate::segment::Segment;

/// Which of two controllers.
#[derive(Clone, Copy, PartialEq, Eq, Debug)]
pub enum Side {
    /// The first, or the only one.
    First,
    /// The second.
    Peer,
}

/// A controller's link.
#[derive(Clone, Copy, PartialEq, Eq, Debug)]
pub enum Wire {
    /// Abis, to a TRX of a cell.
    Abis { cell: u8, trx: u8 },
    /// A, to the switching centre, about a call.
    A { call: u16 },
}

/// A controller and one of its links.
#[derive(Clone, Copy, PartialEq, Eq, Debug)]
pub struct Path {
    pub side: Side,
    pub link: Wire,
}

/// Which way a message goes.
#[derive(Clone, Copy, PartialEq, Eq, Debug)]
pub enum Way {
    /// The controller sends it.
    Sent,
    /// The controller receives it.
    Received,
}

/// How far the TCP stream of a path has come: the next sequence number each way.
#[derive(Clone, Copy, PartialEq, Eq, Debug)]
pub struct Stream {
    /// Of what the controller sends.
    pub sent: u32,
    /// Of what it receives.
    pub received: u32,
}

/// The address 10.b.c.d.
fn address(b: u8, c: u8, d: u8) -> u32
    ensures { result ≡ address b c d }
{
    167_772_160 + u32::from(b) * 65_536 + u32::from(c) * 256 + u32::from(d)
}

/// The number of a controller.
fn number_of(side: Side) -> u8
    ensures { result ≡ number_of side }
{
    match side {
        Side::First => 1,
        Side::Peer => 2,
    }
}

/// The address of the other end of a link.
pub fn far(side: Side, link: Wire) -> u32
    ensures far { result ≡ far side link }
{
    let number = number_of(side);
    match link {
        Wire::Abis { cell, trx } => address(number, cell, trx),
        Wire::A { call } => address(
            100 * number + (call / 100 / 100) as u8,
            (call / 100 % 100) as u8,
            (call % 100) as u8,
        ),
    }
}

/// The port of a link.
fn port_of(link: Wire) -> u16
    ensures { result ≡ port_of link }
{
    match link {
        Wire::Abis { .. } => 3003,
        Wire::A { .. } => 5000,
    }
}

/// A stream that nothing was sent in.
pub fn begun() -> Stream
    ensures begun { result ≡ begun }
{
    Stream {
        sent: 1,
        received: 1,
    }
}

/// The next segment of the stream of a path.
pub fn segment(path: Path, way: Way, stream: Stream) -> Segment
    ensures segment { result ≡ segment path way stream }
{
    let near = address(0, 0, number_of(path.side));
    let far = far(path.side, path.link);
    let port = port_of(path.link);
    match way {
        Way::Sent => Segment {
            source: near,
            destination: far,
            port,
            sequence: stream.sent,
            acknowledgment: stream.received,
        },
        Way::Received => Segment {
            source: far,
            destination: near,
            port,
            sequence: stream.received,
            acknowledgment: stream.sent,
        },
    }
}

/// The stream behind a segment with so many octets of data.
pub fn behind(way: Way, stream: Stream, len: u32) -> Stream
    ensures behind { result ≡ behind way stream len }
{
    match way {
        Way::Sent => Stream {
            sent: stream.sent.wrapping_add(len),
            received: stream.received,
        },
        Way::Received => Stream {
            sent: stream.sent,
            received: stream.received.wrapping_add(len),
        },
    }
}
