//! What a worker looks at is the book behind all that it asked itself, and behind what others did: one desk.
use super::offices::{Course, Hall, Left, are_ok, at_an_office, give_each};
use crate::bag::Taken;
use channel_fsm::ChanId;
use radio_book::event::{Event, Refusal, Reply};
use radio_desk::seat::Receipt;
use sample_sites::{HOME, TARGET, THREE_CHANNELS};
use std::alloc::Global;
use std::process::Abort;
use std::sync::Wait;
use std::test::Fail;
use std::thread::Threads;

/// Call 1 is handed over. Call 2 may begin on the channel that it left, but not on the one that it came to. Then both end.
const INPUTS: &str = "open 1 0 0 3
abis 0 0 0822010b081234
handover 1 1
abis 1 1 0822010b080000
abis 1 1 0302010b02000b0003062c00
open 2 1 1 3
abis 0 0 0833010b
open 2 0 0 3
clear 1
clear 2";

/// The channel that a look at the call showed last.
fn shown_last(receipts: &[Receipt], call: u16) -> Option<ChanId> {
    let mut shown = None;
    for receipt in receipts {
        if let (Event::Look(other), Reply::Record(record, _)) = (receipt.event, receipt.reply) {
            if other == call {
                shown = record.serving;
            }
        }
    }
    shown
}

/// This was asked, and got this reply.
fn is_among(receipts: &[Receipt], event: Event, reply: Reply) -> bool {
    let mut found = false;
    for receipt in receipts {
        found |= receipt.event == event && receipt.reply == reply;
    }
    found
}

/// Call 1 was shown on the channel that it came to.
fn came_to_its_target(rt: &impl Abort, receipts: &[Receipt]) {
    assert!(rt; is_among(receipts, Event::Complete(1), Reply::Done));
    assert!(rt; shown_last(receipts, 1) == Some(TARGET));
}

/// Call 2 met call 1 on that channel, and got the one that call 1 left.
fn met_the_other(rt: &impl Abort, receipts: &[Receipt]) {
    let busy = Reply::Refused(Refusal::ChannelBusy(TARGET));
    assert!(rt; is_among(receipts, Event::Open(2, TARGET), busy));
    assert!(rt; is_among(receipts, Event::Open(2, HOME), Reply::Done));
    assert!(rt; shown_last(receipts, 2) == Some(HOME));
}

/// Each worker saw what the other had done.
fn saw_each_other<R: Wait + Abort + Drop>(rt: &R, left: &Left<R, Global>) -> Result<(), Fail> {
    let one = left.workers.get(1).ok_or("no worker")?;
    let other = left.workers.first().ok_or("no worker")?;
    came_to_its_target(rt, &one.receipts);
    met_the_other(rt, &other.receipts);
    are_ok(rt, &one.taken);
    are_ok(rt, &other.taken);
    Ok(())
}

/// Two calls, each with a worker of its own.
struct Moved;

impl Course for Moved {
    fn give<R: Threads + Wait + Abort + AllocGlobal + Drop>(
        &self,
        rt: &R,
        hall: &mut Hall<R, Global>,
        taken: &Taken,
    ) {
        give_each(rt, hall, taken, INPUTS);
    }

    fn see<R: Wait + Abort + AllocGlobal + Drop>(
        &self,
        rt: &R,
        left: &Left<R, Global>,
    ) -> Result<(), Fail> {
        saw_each_other(rt, left)
    }
}

#[test]
fn a_worker_sees_what_it_and_others_did(rt: HostRuntime) -> Result<(), Fail> {
    at_an_office(&rt, THREE_CHANNELS, 2, &Moved)
}
