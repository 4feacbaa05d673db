//! A capture file in the making.
ghost use Rattle.std.specs.Prelude.{◌≡◌, ◌≤◌, ◌<◌, ◌↔◌, ℕ, [], length, Err, IfOk, OnOk, OnErr};
ghost use Rattle.capture.specs.Ends.{begun};
ghost use Rattle.capture.specs.Frames.{frame, limit};
ghost use Rattle.capture.specs.Packet.{file_header};

use crate::frame::{frame, limit};
use crate::packet::{append_packet, file_header};
use crate::path::{Path, Stream, Way, begun, behind, far, segment};
use octet_elements::append_octets;
use std::alloc::{AllocError, Allocator, Global};
use std::collections::BTreeMap;
use thiserror::Error;

/// Why a message isn't captured.
#[derive(Clone, Copy, PartialEq, Eq, Debug, Error)]
pub enum CaptureFault {
    /// No packet can carry it: it has over 65,492 octets on Abis, or over 255 on A.
    #[error("the message is too long for a packet")]
    TooLong,
    /// Memory ran out.
    #[error("memory was refused")]
    NoMemory,
}

impl From<AllocError> for CaptureFault {
    ghost use Rattle.std.specs.Prelude.{◌≡◌};
    ghost use Rattle.capture.specs.declared.capture.CaptureFault.TheVariants.{NoMemory};

    ghost from_gives = { λ _ e. e ≡ NoMemory };

    fn from(_error: AllocError) -> CaptureFault {
        CaptureFault::NoMemory
    }
}

/// The octets of a capture file, and how far each of its TCP streams has come.
#[derive(Drop)]
pub struct Capture<A: Allocator = Global> {
    octets: Vec<u8, A>,
    // by the address of the end that isn't the controller
    streams: BTreeMap<u32, Stream, A>,
}

impl<A: Allocator + Copy> Capture<A> {
    ghost use Rattle.capture.specs.Capture.{octets_of, stream_of, Adds, AddsFrame, IsUnchanged, IsNew};

    /// A capture of no message: the file's header alone.
    pub fn new(alloc: A) -> Result<Self, AllocError>
        ensures empty { IfOk result IsNew }
    {
        let mut octets = Vec::with_capacity(alloc, 24)?;
        append_octets(&mut octets, &file_header());
        Ok(Capture {
            octets,
            streams: BTreeMap::new(alloc),
        })
    }

    /// The file's octets so far.
    pub fn octets(&self) -> &[u8]
        ensures octets { result.now ≡ octets_of self.now }
    {
        self.octets.as_slice()
    }

    /// Forgets the file's octets so far, once they stand in the file: what is added goes on behind them.
    pub fn forget_octets(&mut self)
        ensures octets { octets_of self.new ≡ [] }
        ensures streams { (address : ℕ) → stream_of self.new address ≡ stream_of self.old address }
    {
        self.octets.clear();
    }

    /// How far the stream to this address has come.
    fn stream(&self, address: u32) -> Stream
        ensures { result ≡ stream_of self.now address }
    {
        self.streams.get(&address).copied().unwrap_or(begun())
    }

    /// Adds the packet of a message in its frame. If memory is refused nothing changes.
    #[tactic(auto, using(crate::proofs::FrameLens::packet_len))]
    fn add_frame(
        &mut self,
        seconds: u32,
        path: Path,
        way: Way,
        frame: &[u8],
    ) -> Result<(), AllocError>
        requires short { length frame.now ≤ 65495 }
        ensures ok { OnOk result (AddsFrame self.old self.new seconds path way frame.now) }
        ensures err { OnErr result (IsUnchanged self.old self.new) }
    {
        let address = far(path.side, path.link);
        let stream = self.stream(address);
        self.octets.reserve(56 + frame.len())?;
        self.streams
            .insert(address, behind(way, stream, frame.len() as u32))?;
        append_packet(
            &mut self.octets,
            seconds,
            &segment(path, way, stream),
            frame,
        );
        Ok(())
    }

    /// Adds a message that was seen at this second. It is added whole, or nothing changes.
    #[tactic(auto, using(crate::proofs::FrameLens::frame_fits))]
    pub fn add(
        &mut self,
        seconds: u32,
        path: Path,
        way: Way,
        message: &[u8],
    ) -> Result<(), CaptureFault>
        ensures ok { OnOk result (Adds self.old self.new seconds path way message.now) }
        ensures err { OnErr result (IsUnchanged self.old self.new) }
        ensures too_long { (result ≡ Err CaptureFault.TooLong) ↔ (limit path.link < length message.now) }
    {
        if limit(path.link) < message.len() {
            return Err(CaptureFault::TooLong);
        }
        let frame = frame(*self.octets.allocator(), path.link, message)?;
        self.add_frame(seconds, path, way, &frame)?;
        Ok(())
    }
}
