//! Messages on A.
use super::{RefusingHeap, equals, equals_at, octets_of};
use bssmap_messages::{BssmapFault, CellId, decode, encode, encode_into, fits, target_of};
use std::alloc::AllocError;
use std::process::Abort;

/// Reads octets over a heap, and writes what they say over the same.
pub(super) fn again<'a>(
    rt: &impl Abort,
    heap: &'a RefusingHeap,
    octets: &[u8],
    lists: u64,
) -> Result<(), AllocError> {
    let message = match decode(heap, octets) {
        Ok(message) => message,
        Err(fault) => {
            equals(rt, fault, BssmapFault::NoMemory);
            return Err(AllocError);
        }
    };
    assert!(rt; fits(&message));
    equals_at(rt, heap.requests(), lists, octets);
    equals(rt, encode(heap, &message)?.as_slice(), octets);
    let mut out = Vec::new(heap);
    encode_into(&message, &mut out)?;
    equals(rt, out.as_slice(), octets);
    Ok(())
}

/// Texts, and the cell that each asks for.
const TARGETS: &[(&str, Option<CellId>)] = &[
    (
        "0019100b030108010a01011d330505010017006605050100170065",
        Some(CellId {
            lac: Some(23),
            ci: 101,
        }),
    ),
    ("000c1104010c1b1a050100170066", None),
];

#[test]
fn a_request_is_for_a_cell(rt: HostRuntime) {
    for (text, target) in TARGETS {
        let message = decode(rt.alloc(), &octets_of(&rt, *text)).expect(&rt, *text);
        equals_at(&rt, target_of(&message).copied(), *target, text);
    }
}

/// Octets that are no message, and why: an element that is cut behind the length octet, a wrong length, a cell too few.
const FAULTS: &[(&str, BssmapFault)] = &[
    ("0003160405", BssmapFault::Torn(3)),
    ("00051b", BssmapFault::Length),
    (
        "0012100b030108010a01011d3305050100170066",
        BssmapFault::Missing(5),
    ),
];

/// They ask for no memory.
#[test]
fn other_octets_are_no_message(rt: HostRuntime) {
    let heap = RefusingHeap::refusing_from(rt.alloc(), 1);
    for (text, fault) in FAULTS {
        let found = decode(&heap, &octets_of(&rt, *text)).err();
        equals_at(&rt, found, Some(*fault), text);
    }
    equals(&rt, heap.requests(), 0);
}
