//! What gates are told: that a call is commanded to move, and that its attempt has its answer, of no other event and of none that
//! is refused.
use super::offices::{Course, Hall, Left, are_ok, at_a_desk, empty_desk, give_all};
use crate::bag::Taken;
use call_worker::{Gate, Point};
use sample_sites::THREE_CHANNELS;
use std::alloc::Global;
use std::process::Abort;
use std::sync::{Arc, Mutex, Wait};
use std::test::Fail;
use std::thread::Threads;

/// Inputs by which every event is asked. Call 300 is taken back where it has no attempt, on the target, by T3103, where the
/// station refuses, by T7 and by T8; it arrives once, and at last leaves. Call 65535 comes in, and arrives.
const INPUTS: &str = "open 300 0 0 3
abis 0 0 0822010b081234
undo 300
handover 300 1
abis 1 1 0822010b080000
abis 1 1 0827010b1102
undo 300
abis 1 1 0833010b
handover 300 1
abis 1 1 0822010b080000
expire 300 T3103
abis 1 1 0833010b
handover 300 1
abis 1 1 0823010b1a0120
handover 300 64
expire 300 T7
handover 300 1
abis 1 1 0822010b080000
abis 1 1 0302010b02000b0003062c00
abis 0 0 0833010b
handover 300 64
a 300 000c131709062bd5670ba36b2a05
expire 300 T8
handover 300 64
a 300 000c131709062bd5670ba36b2a05
a 300 000420040109
abis 1 1 0833010b
a 65535 0019100b030108010a01011d330505010017006605050100170065
abis 1 1 0822010b080000
abis 1 1 0302010b02000b0003062c00
expire 65535 T3103
clear 65535";

/// What the gate is told of these, in this order.
const TOLD: &[(u16, Point)] = &[
    (300, Point::Commanded),
    (300, Point::Answered),
    (300, Point::Commanded),
    (300, Point::Answered),
    (300, Point::Answered),
    (300, Point::Answered),
    (300, Point::Commanded),
    (300, Point::Answered),
    (300, Point::Answered),
    (65535, Point::Commanded),
    (65535, Point::Answered),
];

/// Keeps what it is told.
#[derive(Drop)]
struct Listening<R: Wait + Drop> {
    rt: R,
    told: Mutex<Vec<(u16, Point)>>,
}

impl<R: Wait + Drop> Gate for Listening<R> {
    fn pass(&self, call: u16, point: Point) {
        let mut told = self.told.lock(&self.rt);
        // what isn't kept for want of memory is missed at the end
        let _ = told.push((call, point));
    }
}

/// The gate was told just this.
fn are_told(rt: &impl Abort, told: &[(u16, Point)]) {
    assert!(rt; told.len() == TOLD.len(), "{told:?}");
    for (one, other) in told.iter().zip(TOLD) {
        assert!(rt; *one == *other, "{told:?}");
    }
}

/// One worker, which handles the inputs in their order.
struct Told;

impl Course for Told {
    fn give<R: Threads + Wait + Abort + AllocGlobal + Drop>(
        &self,
        rt: &R,
        hall: &mut Hall<R, Global>,
        _taken: &Taken,
    ) {
        give_all(rt, hall, INPUTS);
    }

    fn see<R: Wait + Abort + AllocGlobal + Drop>(
        &self,
        rt: &R,
        left: &Left<R, Global>,
    ) -> Result<(), Fail> {
        let worker = left.workers.first().ok_or("no worker")?;
        are_ok(rt, &worker.taken);
        Ok(())
    }
}

#[test]
fn a_gate_is_told_of_commands_and_answers_alone(rt: HostRuntime) -> Result<(), Fail> {
    let gate = Arc::new(
        rt.alloc(),
        Listening {
            rt: rt.clone()?,
            told: Mutex::new(Vec::new(rt.alloc())),
        },
    )?;
    let told = Arc::try_clone(&gate)?;
    let desk = empty_desk(rt.alloc(), rt.alloc(), THREE_CHANNELS)?;
    at_a_desk(&rt, desk, told, 1, &Told)?;
    let told = gate.told.lock(&rt);
    are_told(&rt, &told);
    Ok(())
}
