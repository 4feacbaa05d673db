use super::equals_at;
use super::failing::Failing;
use lab::LabFault;
use lab::decoded::LinkName;
use lab::encoded::encode_run;
use refusing_heap::RefusingHeap;

/// A message in words.
const COMPLETE: &str = "HANDOVER COMPLETE cause=0";

#[test]
fn a_refused_request_and_a_failed_write(rt: HostRuntime) {
    let heap = RefusingHeap::refusing_from(rt.alloc(), 1);
    let mut out = Vec::new(rt.alloc());
    let mut errors = Vec::new(rt.alloc());
    let ended = encode_run(&heap, LinkName::Rr, COMPLETE, &mut out, &mut errors);
    equals_at(&rt, ended, Err(LabFault::NoMemory), "a refused request");
    let lengths = (out.len(), errors.len());
    equals_at(&rt, lengths, (0, 0), "octets without memory");
    let mut out = Failing::after(rt.alloc(), 1);
    let ended = encode_run(rt.alloc(), LinkName::Rr, COMPLETE, &mut out, &mut errors);
    equals_at(&rt, ended, Err(LabFault::Write), "a failed write");
}
