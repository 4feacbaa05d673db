//! Radio resource messages.
use super::{RefusingHeap, equals};
use rr_messages::{decode, encode, encode_into};
use std::alloc::AllocError;
use std::process::Abort;

/// Reads octets, and writes what they say over a heap.
pub(super) fn again<'a>(
    rt: &impl Abort,
    heap: &'a RefusingHeap,
    octets: &[u8],
) -> Result<(), AllocError> {
    let message = decode(octets).expect(rt, "a message");
    equals(rt, encode(heap, &message)?.as_slice(), octets);
    let mut out = Vec::new(heap);
    encode_into(&message, &mut out)?;
    equals(rt, out.as_slice(), octets);
    Ok(())
}
