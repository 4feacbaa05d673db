//! Messages in words, where memory is refused. What is written for each message, and why a text says none,
//! `tests/commands` shows.
use super::{Fail, Global, RefusingHeap, equals_at, holds_at};
use encoded_messages::{MessageFault, encode_a, encode_abis, encode_rr};
use std::alloc::Allocator;
use std::process::Abort;

/// Texts with lists and without, each behind its link, and the octets of each.
const TEXTS: &str = "\
rr HANDOVER COMMAND arfcn=871 ncc=2 bcc=5 tn=3 tsc=5 carrier=875 reference=42 atc=0 power=5 -> 062bd5670ba36b2a05
rr HANDOVER COMMAND arfcn=871 ncc=2 bcc=5 tn=3/0 tsc=5 carrier=875 reference=42 atc=0 power=5 -> 062bd56713a36b2a05
rr MEASUREMENT REPORT ba=0 dtx=0 full=30 ba3g=0 valid=1 sub=30 si23=0 qfull=0 qsub=0 count=1 n=40/2/21 -> 06151e1e006812a000000000000000000000
a HANDOVER REQUEST channel=010801 encryption=01 classmark=331981 serving=23/102 target=23/101 -> 001c100b030108010a010112033319810505010017006605050100170065
a HANDOVER REQUIRED cause=12 response=1 cells=23/102 -> 000c1104010c1b1a050100170066
a CLEAR COMPLETE -> 000121
abis CHANNEL ACTIVATION tn=3 activation=2 mode=00010801 reference=42 -> 0821010b0302060400010801092a
abis CHANNEL ACTIVATION tn=3/0 activation=2 mode=00010901 reference=0 -> 0821011303020604000109010900
abis RF CHANNEL RELEASE tn=7/1 -> 082e011f
abis MEASUREMENT RESULT tn=3 number=0 uplink=001e00 power=0 layer3=- -> 0828010b1b001903001e000400
abis MEASUREMENT RESULT tn=3 number=0 uplink=001e00 power=0 layer3=062c00 -> 0828010b1b001903001e0004000b0003062c00
";

/// The octets of a text behind its link.
fn encoded<'a, A: Allocator + Copy>(
    alloc: A,
    link: &str,
    text: &'a str,
) -> Result<Vec<u8, A>, MessageFault<'a>> {
    match link {
        "rr" => encode_rr(alloc, text),
        "a" => encode_a(alloc, text),
        _ => encode_abis(alloc, text),
    }
}

/// Whether a text was written over a heap that refuses this request, as these octets, and met no refusal.
fn is_written_without(rt: &impl Abort, alloc: Global, row: (&str, &str, &str), n: u64) -> bool {
    let (link, text, wanted) = row;
    let heap = RefusingHeap::refusing_nth(alloc, n);
    match encoded(&heap, link, text) {
        Ok(octets) => {
            let written = hex::encode(alloc, &octets).expect(rt, text);
            equals_at(rt, written.as_str(), wanted, text);
            holds_at(rt, !heap.was_refused(), (text, n));
            true
        }
        Err(fault) => {
            let is_refused = fault == MessageFault::NoMemory && heap.was_refused();
            holds_at(rt, is_refused, (text, n));
            false
        }
    }
}

#[test]
fn texts_are_written_unless_memory_is_refused(rt: HostRuntime) -> Result<(), Fail> {
    for line in TEXTS.lines() {
        let (link, rest) = line.split_once(' ').ok_or("a link")?;
        let (text, octets) = rest.split_once(" -> ").ok_or("an arrow")?;
        let row = (link, text, octets);
        let tried = (1..50).position(|n| is_written_without(&rt, rt.alloc(), row, n));
        holds_at(&rt, tried.is_some_and(|tried| tried >= 1), text);
    }
    Ok(())
}
