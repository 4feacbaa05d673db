//! One worker, and a controller that asks a desk of its own, handle the same inputs.
use super::gathering::are_compared;
use super::offices::{
    Course, Hall, Left, at_an_office, empty_desk, give_all, inputs_of, sent_lines, shared_site,
};
use crate::bag::Taken;
use exchange::{Inbound, Outbound};
use ho_procedure::controller::Controller;
use ho_procedure::solo::Solo;
use radio_book::event::{Event, Reply};
use radio_desk::desk::Desk;
use radio_desk::seat::Receipt;
use sample_sites::THREE_CHANNELS;
use std::alloc::{AllocError, Global};
use std::process::Abort;
use std::sync::Wait;
use std::test::Fail;
use std::thread::Threads;

/// A handover that arrives, one that a timer ends, one that comes in and finds no free channel, a message that isn't read,
/// and calls that end.
const INPUTS: &str = "open 1 0 0 3
abis 0 0 0822010b081234
handover 1 1
abis 1 1 0822010b080000
abis 1 1 0827010b1102
abis 1 1 0302010b02000b0003062c00
abis 0 0 0833010b
open 2 0 0 2
abis 0 0 0822010a081234
handover 2 64
expire 2 T7
a 9 0019100b030108010a01011d330505010017006605050100170065
a 1 00051b
handover 7 1
clear 2
a 1 000420040109";

/// A controller that asks a desk of its own.
type Radio = Controller<Solo<Global>, Global>;

/// What it leaves: its desk's history, and what it sent.
#[derive(Drop)]
struct Alone {
    entries: Vec<(Event, Reply)>,
    sent: String,
}

/// Appends messages.
fn push_all(
    sent: &mut Vec<Outbound<Global>, Global>,
    out: Vec<Outbound<Global>, Global>,
) -> Result<(), AllocError> {
    for message in out {
        sent.push(message)?;
    }
    Ok(())
}

/// A controller handles an input. What it can't read it passes over.
fn handle_one(
    radio: &mut Radio,
    input: Inbound<Global>,
    sent: &mut Vec<Outbound<Global>, Global>,
) -> Result<(), AllocError> {
    match radio.handle(input) {
        Ok(out) => push_all(sent, out),
        Err(_) => Ok(()),
    }
}

/// It handles these inputs, and appends what it sends.
fn handle_all(
    radio: &mut Radio,
    inputs: Vec<Inbound<Global>, Global>,
    sent: &mut Vec<Outbound<Global>, Global>,
) -> Result<(), AllocError> {
    for input in inputs {
        handle_one(radio, input, sent)?;
    }
    Ok(())
}

/// The entries of a desk's history.
fn entries_of(alloc: Global, desk: &Desk<Global>) -> Result<Vec<(Event, Reply)>, AllocError> {
    let mut entries = Vec::new(alloc);
    for place in 0..desk.len() {
        if let Some(entry) = desk.entry(place) {
            entries.push(*entry)?;
        }
    }
    Ok(entries)
}

/// A controller handles the inputs, and sends these lines.
fn lines_by(rt: &impl Abort, alloc: Global, radio: &mut Radio) -> Result<String, Fail> {
    let mut sent = Vec::new(alloc);
    handle_all(radio, inputs_of(rt, alloc, INPUTS), &mut sent)?;
    sent_lines(alloc, &sent)
}

fn left_by(rt: &impl Abort, alloc: Global, radio: &mut Radio) -> Result<Alone, Fail> {
    let sent = lines_by(rt, alloc, radio)?;
    Ok(Alone {
        entries: entries_of(alloc, radio.view().desk())?,
        sent,
    })
}

/// What a controller leaves that handles the inputs alone.
fn left_alone(rt: &impl Abort, alloc: Global) -> Result<Alone, Fail> {
    let site = shared_site(alloc, alloc, THREE_CHANNELS)?;
    let desk = empty_desk(alloc, alloc, THREE_CHANNELS)?;
    left_by(
        rt,
        alloc,
        &mut Controller::new(alloc, Solo::new(desk), site),
    )
}

/// The receipts are these entries, one for each, in their order.
fn are_entries(rt: &impl Abort, receipts: &[Receipt], entries: &[(Event, Reply)]) {
    assert!(rt; receipts.len() == entries.len());
    for (receipt, (event, reply)) in receipts.iter().zip(entries) {
        assert!(rt; receipt.event == *event && receipt.reply == *reply);
    }
}

/// All that the office asked is whose a channel is.
fn are_owners(rt: &impl Abort, front: &[Receipt]) {
    assert!(rt; front.len() == 6);
    for receipt in front {
        assert!(rt; matches!(receipt.event, Event::Owner(_)));
    }
}

/// A worker got what the controller's desk says, and sent what the controller sent. The office's lists are the desk's history;
/// with one receipt repeated, changed or left out they aren't.
fn is_same<R: Wait + Abort + AllocGlobal + Drop>(
    rt: &R,
    left: &Left<R, Global>,
    alone: &Alone,
) -> Result<(), Fail> {
    let worker = left.workers.first().ok_or("no worker")?;
    are_entries(rt, &worker.receipts, &alone.entries);
    are_owners(rt, &left.front);
    let sent = sent_lines(rt.alloc(), &worker.links.sent)?;
    assert!(rt; sent.as_str() == alone.sent.as_str(), "{sent}");
    are_compared(rt, &left.desk, &left.front, &worker.receipts)
}

/// One worker handles the inputs, as a controller did.
#[derive(Drop)]
struct Together {
    alone: Alone,
}

impl Course for Together {
    fn give<R: Threads + Wait + Abort + AllocGlobal + Drop>(
        &self,
        rt: &R,
        hall: &mut Hall<R, Global>,
        _taken: &Taken,
    ) {
        give_all(rt, hall, INPUTS);
    }

    fn see<R: Wait + Abort + AllocGlobal + Drop>(
        &self,
        rt: &R,
        left: &Left<R, Global>,
    ) -> Result<(), Fail> {
        is_same(rt, left, &self.alone)
    }
}

#[test]
fn one_worker_does_what_a_controller_does(rt: HostRuntime) -> Result<(), Fail> {
    let alone = left_alone(&rt, rt.alloc())?;
    at_an_office(&rt, THREE_CHANNELS, 1, &Together { alone })
}
