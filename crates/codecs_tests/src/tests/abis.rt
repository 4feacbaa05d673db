//! Messages on Abis.
use super::{RefusingHeap, equals, equals_at, octets_of};
use rsl_messages::{RslFault, decode, encode, encode_into, fits};
use std::alloc::AllocError;
use std::process::Abort;

/// Reads octets over a heap, and writes what they say over the same.
pub(super) fn again<'a>(
    rt: &impl Abort,
    heap: &'a RefusingHeap,
    octets: &[u8],
    lists: u64,
) -> Result<(), AllocError> {
    let message = match decode(heap, octets) {
        Ok(message) => message,
        Err(fault) => {
            equals(rt, fault, RslFault::NoMemory);
            return Err(AllocError);
        }
    };
    assert!(rt; fits(&message));
    equals_at(rt, heap.requests(), lists, octets);
    equals(rt, encode(heap, &message)?.as_slice(), octets);
    let mut out = Vec::new(heap);
    encode_into(&message, &mut out)?;
    equals(rt, out.as_slice(), octets);
    Ok(())
}

/// Octets that are no message, and why, even where a list is whole: an element that is cut, another discriminator, a list
/// behind which something is cut, a type that is missing behind a list, a list that may not be empty.
const FAULTS: &[(&str, RslFault)] = &[
    ("082201", RslFault::Torn(2)),
    ("04", RslFault::NotRsl),
    ("0821010b030006010009", RslFault::Torn(9)),
    ("0821010b060100", RslFault::Missing(3)),
    ("0828010b1b0019010004000b0000", RslFault::BadElement(0x0B)),
];

/// They ask for no memory.
#[test]
fn other_octets_are_no_message(rt: HostRuntime) {
    let heap = RefusingHeap::refusing_from(rt.alloc(), 1);
    for (text, fault) in FAULTS {
        let found = decode(&heap, &octets_of(&rt, *text)).err();
        equals_at(&rt, found, Some(*fault), text);
    }
    equals(&rt, heap.requests(), 0);
}
