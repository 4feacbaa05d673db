//! Messages in the frames of their links.
ghost use Rattle.std.specs.Prelude.{◌≡◌, ◌≤◌, IfOk, length};
ghost use Rattle.capture.specs.Frames.{frame, ipa, unitdata, bssap, limit};

use crate::numbers::two;
use crate::path::Wire;
use octet_elements::append_octets;
use std::alloc::{AllocError, Allocator};

/// How many octets a message on a link may have.
pub fn limit(link: Wire) -> usize
    ensures limit { result ≡ limit link }
{
    match link {
        Wire::Abis { .. } => 65_492,
        Wire::A { .. } => 255,
    }
}

/// A message on Abis, behind IPA's header.
fn abis_frame<A: Allocator>(alloc: A, message: &[u8]) -> Result<Vec<u8, A>, AllocError>
    requires { length message.now ≤ 65492 }
    ensures { IfOk result (λ f. f.items ≡ ipa 0 message.now) }
{
    let [len1, len0] = two(message.len() as u16);
    let mut frame = Vec::with_capacity(alloc, 3 + message.len())?;
    append_octets(&mut frame, &[len1, len0, 0]);
    append_octets(&mut frame, message);
    Ok(frame)
}

/// A message on A, behind IPA's header and unitdata's fixed part and addresses.
fn a_frame<A: Allocator>(alloc: A, message: &[u8]) -> Result<Vec<u8, A>, AllocError>
    requires { length message.now ≤ 255 }
    ensures { IfOk result (λ f. f.items ≡ ipa 253 (unitdata bssap bssap message.now)) }
{
    let len = message.len() as u8;
    let [len1, len0] = two(12 + u16::from(len));
    let mut frame = Vec::with_capacity(alloc, 15 + message.len())?;
    append_octets(
        &mut frame,
        &[len1, len0, 0xFD, 9, 0, 3, 5, 7, 2, 66, 254, 2, 66, 254, len],
    );
    append_octets(&mut frame, message);
    Ok(frame)
}

/// A message as it lies in the TCP stream of its link.
#[tactic(auto, unfolding(crate::specs::Frames::frame))]
pub fn frame<A: Allocator>(alloc: A, link: Wire, message: &[u8]) -> Result<Vec<u8, A>, AllocError>
    requires short { length message.now ≤ limit link }
    ensures frame { IfOk result (λ f. f.items ≡ frame link message.now) }
{
    match link {
        Wire::Abis { .. } => abis_frame(alloc, message),
        Wire::A { .. } => a_frame(alloc, message),
    }
}
