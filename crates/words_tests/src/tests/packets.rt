//! Messages in a capture file, where memory is refused. What stands in the file `tests/commands/view_files.t` shows.
use super::{Fail, RefusingHeap, equals_at, holds_at};
use capture::{Capture, CaptureFault, Path, Side, Way, Wire};
use std::alloc::Global;
use std::process::Abort;

/// The first controller's link to TRX 0 of cell 0.
const ABIS: Path = Path {
    side: Side::First,
    link: Wire::Abis { cell: 0, trx: 0 },
};

/// Its link to the switching centre, about call 1.
const A: Path = Path {
    side: Side::First,
    link: Wire::A { call: 1 },
};

const ACTIVATION: &[u8] = &[
    0x08, 0x21, 0x01, 0x0B, 0x03, 0x00, 0x06, 0x04, 0x00, 0x01, 0x08, 0x01,
];

const REQUIRED: &[u8] = &[
    0x00, 0x0C, 0x11, 0x04, 0x01, 0x0C, 0x1B, 0x1A, 0x05, 0x01, 0x00, 0x17, 0x00, 0x66,
];

/// Captures a message. Where memory is refused the file stays as it was, and asked again it is captured.
fn captures(
    rt: &impl Abort,
    heap: &RefusingHeap,
    capture: &mut Capture<&RefusingHeap>,
    second: u32,
    path: Path,
    message: &[u8],
) {
    let (len, refused) = (capture.octets().len(), heap.refused());
    let answer = capture.add(second, path, Way::Sent, message);
    if refused == heap.refused() {
        holds_at(rt, answer.is_ok(), second);
    } else {
        holds_at(rt, answer == Err(CaptureFault::NoMemory), second);
        equals_at(rt, capture.octets().len(), len, second);
        let again = capture.add(second, path, Way::Sent, message);
        holds_at(rt, again.is_ok(), second);
    }
}

/// The file of two messages.
fn captured(alloc: Global) -> Result<Vec<u8>, Fail> {
    let mut capture = Capture::new(alloc)?;
    capture.add(1, ABIS, Way::Sent, ACTIVATION)?;
    capture.add(4, A, Way::Sent, REQUIRED)?;
    Ok(Vec::from_slice(alloc, capture.octets())?)
}

#[test]
fn refused_memory_leaves_the_file_as_it_was(rt: HostRuntime) -> Result<(), Fail> {
    let wanted = captured(rt.alloc())?;
    let heap = RefusingHeap::refusing_nth(rt.alloc(), 1);
    holds_at(&rt, Capture::new(&heap).is_err(), "the header");
    let mut last = 0;
    for n in 2..100 {
        let heap = RefusingHeap::refusing_nth(rt.alloc(), n);
        let mut capture = Capture::new(&heap)?;
        captures(&rt, &heap, &mut capture, 1, ABIS, ACTIVATION);
        captures(&rt, &heap, &mut capture, 4, A, REQUIRED);
        holds_at(&rt, capture.octets() == wanted.as_slice(), n);
        last = n;
        if !heap.was_refused() {
            break;
        }
    }
    // five requests at least were refused before none was
    holds_at(&rt, last >= 7, last);
    Ok(())
}

// Faults, and how each is printed.
const FAULTS: &[(CaptureFault, &str)] = &[
    (
        CaptureFault::TooLong,
        "the message is too long for a packet",
    ),
    (CaptureFault::NoMemory, "memory was refused"),
];

#[test]
fn faults_say_why(rt: HostRuntime) -> Result<(), Fail> {
    for (fault, wanted) in FAULTS {
        let said = fault.to_string(rt.alloc())?;
        equals_at(&rt, said.as_str(), *wanted, wanted);
    }
    Ok(())
}
