//! A run is printed with words, and with what was decided, where memory is refused. What is printed then `views.t` and
//! `decisions.t` of `tests/commands` show.
use super::{SITE, holds_at, is_whole_or_cut};
use lab::LabFault;
use lab::run::{Status, run_for};
use refusing_heap::RefusingHeap;
use run_views::Viewer;
use std::alloc::{Allocator, Global};
use std::io::Write;
use std::process::Abort;
use std::str;
use std::test::Fail;
use view_options::Views;

/// Words, and what was decided by reports.
const SHOWN: Views<'_> = Views {
    words: true,
    state: false,
    decisions: true,
    pcap: None,
    chart: None,
    summary: None,
    lines: false,
    call: None,
};

/// Runs a script over one site, with these views.
fn show<A: Allocator + Copy, W: Write>(
    alloc: A,
    scratch: Global,
    script: &str,
    out: &mut W,
) -> Result<Status, LabFault> {
    let mut viewer = Viewer::new(alloc, &SHOWN, false, out)?;
    run_for(alloc, scratch, SITE, None, script, &mut viewer)
}

/// A mobile is sent away by its reports, and comes back: the script, and the lines of its trace with their words.
const RETURNED: (&str, &str) = (
    "open 1 0 0 3
abis 0 0 0822010b080000
abis 0 0 0828010b1b001903001e0004000b001206151e1e006812a000000000000000000000
abis 0 0 0828010b1b001903001e0004000b001206151e1e006812a000000000000000000000
abis 1 1 0822010b080000
abis 0 0 0302010b02000b0003062801
abis 1 1 0833010b
",
    "in open 1 0 0 3 # call 1
event open 1 0/0/3 -> done # call 1
out abis 0 0 0821010b0300060400010801 # call 1; CHANNEL ACTIVATION tn=3 activation=0 mode=00010801 reference=-
in abis 0 0 0822010b080000 # call 1; CHANNEL ACTIVATION ACK tn=3 frame=0
event confirm 0/0/3 -> owned 1 # call 1
event look 1 -> record 0/0/3 on # call 1
in abis 0 0 0828010b1b001903001e0004000b001206151e1e006812a000000000000000000000 # call 1; MEASUREMENT RESULT tn=3 number=0 uplink=001e00 power=0 layer3=06151e1e006812a000000000000000000000; MEASUREMENT REPORT ba=0 dtx=0 full=30 ba3g=0 valid=1 sub=30 si23=0 qfull=0 qsub=0 count=1 n=40/2/21
event owner 0/0/3 -> owned 1 # call 1
event look 1 -> record 0/0/3 on # call 1
decision call 1 window 1 of 2: serving 30, margin asks 33, minimum asks 10
decision call 1 neighbour 2/21 level 40: cell 1, sum 40
decision call 1 no candidate: the window isn't full
in abis 0 0 0828010b1b001903001e0004000b001206151e1e006812a000000000000000000000 # call 1; MEASUREMENT RESULT tn=3 number=0 uplink=001e00 power=0 layer3=06151e1e006812a000000000000000000000; MEASUREMENT REPORT ba=0 dtx=0 full=30 ba3g=0 valid=1 sub=30 si23=0 qfull=0 qsub=0 count=1 n=40/2/21
event owner 0/0/3 -> owned 1 # call 1
event look 1 -> record 0/0/3 on # call 1
event take 1 internal 1/1/3 -> done # call 1
event reserve 1 0 -> done # call 1
event activate 1 -> done # call 1
out abis 1 1 0821010b03020604000108010900 # call 1; CHANNEL ACTIVATION tn=3 activation=2 mode=00010801 reference=0
decision call 1 window 2 of 2: serving 60, margin asks 66, minimum asks 20
decision call 1 neighbour 2/21 level 40: cell 1, sum 80
decision call 1 candidate 1: tried, a channel is taken
in abis 1 1 0822010b080000 # call 1; CHANNEL ACTIVATION ACK tn=3 frame=0
event confirm 1/1/3 -> owned 1 # call 1
event look 1 -> record 0/0/3 on internal confirmed 1/1/3 0 # call 1
event command 1 -> done # call 1
out abis 0 0 0301010b02000b0009062bd5670ba36b0005 # call 1; DATA REQUEST tn=3 link=0 layer3=062bd5670ba36b0005; HANDOVER COMMAND arfcn=871 ncc=2 bcc=5 tn=3 tsc=5 carrier=875 reference=0 atc=0 power=5
in abis 0 0 0302010b02000b0003062801 # call 1; DATA INDICATION tn=3 link=0 layer3=062801; HANDOVER FAILURE cause=1; abnormal release, unspecified
event owner 0/0/3 -> owned 1 # call 1
event look 1 -> record 0/0/3 on internal commanded 1/1/3 0 # call 1
event undo 1 asked -> record 0/0/3 on internal commanded 1/1/3 0 # call 1
out abis 1 1 082e010b # call 1; RF CHANNEL RELEASE tn=3
in abis 1 1 0833010b # call 1; RF CHANNEL RELEASE ACK tn=3
event released 1/1/3 -> done # call 1
end channels=1 calls=1 references=0 timers=0 # this is left
",
);

/// Whether the run is printed whole where the nth request for memory is refused. Where that ends it, a front of it was
/// printed.
fn is_whole(rt: &(impl AllocGlobal + Abort), n: u64) -> Result<bool, Fail> {
    let heap = RefusingHeap::refusing_nth(rt.alloc(), n);
    let (script, trace) = RETURNED;
    let mut out = Vec::new(rt.alloc());
    let ended = show(&heap, rt.alloc(), script, &mut out);
    is_whole_or_cut(rt, &heap, (ended, str::from_utf8(&out)?), trace, n);
    Ok(!heap.was_refused())
}

#[test]
fn refused_memory_ends_a_trace_in_mid_stream(rt: HostRuntime) -> Result<(), Fail> {
    for n in 1..1_000 {
        if is_whole(&rt, n)? {
            return Ok(());
        }
    }
    holds_at(&rt, false, "some run isn't refused");
    Ok(())
}
