//! Runs over a heap that refuses a request, and to a writer that fails.
use super::failing::Failing;
use super::{ONE_CALL, SITE, equals_at, holds_at, is_whole_or_cut, printed};
use lab::LabFault;
use lab::run::{Status, lab_run};
use refusing_heap::RefusingHeap;
use sample_sites::{NO_TRAFFIC, PEER, SAME_IDENTITY};
use std::alloc::Global;
use std::process::Abort;
use std::str;
use std::test::Fail;

/// A handover to the end, and its trace.
const HANDOVER: (&str, &str) = (
    "open 1 0 0 3
abis 0 0 0822010b081234
handover 1 1
abis 1 1 0822010b080000
abis 1 1 0827010b1102
abis 1 1 0302010b02000b0003062c00
abis 0 0 0833010b
",
    "in open 1 0 0 3
event open 1 0/0/3 -> done
out abis 0 0 0821010b0300060400010801
in abis 0 0 0822010b081234
event confirm 0/0/3 -> owned 1
event look 1 -> record 0/0/3 on
in handover 1 1
event look 1 -> record 0/0/3 on
event take 1 internal 1/1/3 -> done
event reserve 1 0 -> done
event activate 1 -> done
out abis 1 1 0821010b03020604000108010900
in abis 1 1 0822010b080000
event confirm 1/1/3 -> owned 1
event look 1 -> record 0/0/3 on internal confirmed 1/1/3 0
event command 1 -> done
out abis 0 0 0301010b02000b0009062bd5670ba36b0005
in abis 1 1 0827010b1102
event detect 1/1/3 -> owned 1
event look 1 -> record 0/0/3 on internal detected 1/1/3 0
in abis 1 1 0302010b02000b0003062c00
event owner 1/1/3 -> owned 1
event look 1 -> record 0/0/3 on internal detected 1/1/3 0
event complete 1 -> done
out abis 0 0 082e010b
out a 1 000b1704010c05050100170065
in abis 0 0 0833010b
event released 0/0/3 -> done
end channels=1 calls=1 references=0 timers=0
",
);

/// A call comes from another controller, and no channel is free; the encryption permits no call in clear; no such cell.
const TURNED_AWAY: (&str, &str) = (
    "open 1 1 1 3
abis 1 1 0822010b080000
a 9 0019100b030108010a01011d330505010017006605050100170065
a 9 0019100b030108010a01021d330505010017006605050100170065
a 9 0019100b030108010a01011d330505010017006605050100170063
",
    "in open 1 1 1 3
event open 1 1/1/3 -> done
out abis 1 1 0821010b0300060400010801
in abis 1 1 0822010b080000
event confirm 1/1/3 -> owned 1
event look 1 -> record 1/1/3 on
in a 9 0019100b030108010a01011d330505010017006605050100170065
event look 9 -> refused 1
none free 1
out a 9 000416040121
in a 9 0019100b030108010a01021d330505010017006605050100170065
event look 9 -> refused 1
out a 9 000416040140
in a 9 0019100b030108010a01011d330505010017006605050100170063
event look 9 -> refused 1
out a 9 000416040151
end channels=1 calls=1 references=0 timers=0
",
);

/// Octets that are no message.
const UNREADABLE: (&str, &str) = (
    "abis 0 0 082201
abis 0 0 04
a 1 00051b
a 9 0012100b030108010a01011d3305050100170066
",
    "in abis 0 0 082201
fault abis 5 2
in abis 0 0 04
fault abis 1
in a 1 00051b
fault a 2
in a 9 0012100b030108010a01011d3305050100170066
fault a 4 5
end channels=0 calls=0 references=0 timers=0
",
);

/// A handover whose timer runs out behind the detection, and once more.
const RUNS_OUT: (&str, &str) = (
    "open 1 0 0 3
abis 0 0 0822010b081234
handover 1 1
abis 1 1 0822010b080000
abis 1 1 0827010b1102
expire 1 T3103
expire 1 T3103
",
    "in open 1 0 0 3
event open 1 0/0/3 -> done
out abis 0 0 0821010b0300060400010801
in abis 0 0 0822010b081234
event confirm 0/0/3 -> owned 1
event look 1 -> record 0/0/3 on
in handover 1 1
event look 1 -> record 0/0/3 on
event take 1 internal 1/1/3 -> done
event reserve 1 0 -> done
event activate 1 -> done
out abis 1 1 0821010b03020604000108010900
in abis 1 1 0822010b080000
event confirm 1/1/3 -> owned 1
event look 1 -> record 0/0/3 on internal confirmed 1/1/3 0
event command 1 -> done
out abis 0 0 0301010b02000b0009062bd5670ba36b0005
in abis 1 1 0827010b1102
event detect 1/1/3 -> owned 1
event look 1 -> record 0/0/3 on internal detected 1/1/3 0
in expire 1 T3103
event undo 1 t3103 -> record 0/0/3 on internal detected 1/1/3 0
out abis 1 1 082e010b
out a 1 000422040100
in expire 1 T3103
event undo 1 t3103 -> refused 9
end channels=2 calls=1 references=0 timers=0
",
);

/// A call comes from another controller, to the end.
const COMES: (&str, &str) = (
    "a 9 0019100b030108010a01011d330505010017006605050100170065
abis 1 1 0822010b080000
abis 1 1 0827010b1102
abis 1 1 0302010b02000b0003062c00
",
    "in a 9 0019100b030108010a01011d330505010017006605050100170065
event look 9 -> refused 1
event take 9 incoming 1/1/3 -> done
event reserve 9 0 -> done
event activate 9 -> done
out abis 1 1 0821010b03020604000108010900
in abis 1 1 0822010b080000
event confirm 1/1/3 -> owned 9
event look 9 -> record - - incoming confirmed 1/1/3 0
event command 9 -> done
out a 9 000c121709062bd5670ba36b0005
in abis 1 1 0827010b1102
event detect 1/1/3 -> owned 9
event look 9 -> record - - incoming detected 1/1/3 0
out a 9 00011b
in abis 1 1 0302010b02000b0003062c00
event owner 1/1/3 -> owned 9
event look 9 -> record - - incoming detected 1/1/3 0
event complete 9 -> done
out a 9 0003141500
end channels=1 calls=1 references=0 timers=0
",
);

/// A call is sent to another controller, and its mobile comes back.
const COMES_BACK: (&str, &str) = (
    "open 1 0 0 3
abis 0 0 0822010b081234
handover 1 64
a 1 000c131709062bd5670ba36b2a05
abis 0 0 0302010b02000b0003062800
",
    "in open 1 0 0 3
event open 1 0/0/3 -> done
out abis 0 0 0821010b0300060400010801
in abis 0 0 0822010b081234
event confirm 0/0/3 -> owned 1
event look 1 -> record 0/0/3 on
in handover 1 64
event look 1 -> record 0/0/3 on
event require 1 -> done
out a 1 000c1104010c1b1a050100170066
in a 1 000c131709062bd5670ba36b2a05
event look 1 -> record 0/0/3 on outgoing required - -
event order 1 -> done
out abis 0 0 0301010b02000b0009062bd5670ba36b2a05
in abis 0 0 0302010b02000b0003062800
event owner 0/0/3 -> owned 1
event look 1 -> record 0/0/3 on outgoing ordered - -
event undo 1 asked -> record 0/0/3 on outgoing ordered - -
out a 1 00061604010a1500
end channels=1 calls=1 references=0 timers=0
",
);

/// The centre ends a call, and once more.
const ENDED: (&str, &str) = (
    "open 1 0 0 3
abis 0 0 0822010b081234
a 1 000420040109
a 1 000420040109
",
    "in open 1 0 0 3
event open 1 0/0/3 -> done
out abis 0 0 0821010b0300060400010801
in abis 0 0 0822010b081234
event confirm 0/0/3 -> owned 1
event look 1 -> record 0/0/3 on
in a 1 000420040109
event look 1 -> record 0/0/3 on
event clear 1 -> done
out abis 0 0 0301010b02000b0003060d00
out abis 0 0 082e010b
out a 1 000121
in a 1 000420040109
event look 1 -> refused 1
out a 1 000121
end channels=1 calls=0 references=0 timers=0
",
);

/// A call moves to the other controller, with simulated stations and a simulated switching centre.
const MOVES: (&str, &str) = (
    "sim\nopen 1 0 0 3\nhandover 1 64\n",
    "1: in open 1 0 0 3
1: event open 1 0/0/3 -> done
1: out abis 0 0 0821010b0300060400010801
1: in abis 0 0 0822010b080000
1: event confirm 0/0/3 -> owned 1
1: event look 1 -> record 0/0/3 on
1: in handover 1 64
1: event look 1 -> record 0/0/3 on
1: event require 1 -> done
1: out a 1 000c1104010c1b1a050100170066
2: in a 40000 0019100b030108010a01011d330505010017006405050100170066
2: event look 40000 -> refused 1
2: event take 40000 incoming 0/0/1 -> done
2: event reserve 40000 0 -> done
2: event activate 40000 -> done
2: out abis 0 0 0821010903020604000108010900
2: in abis 0 0 08220109080000
2: event confirm 0/0/1 -> owned 40000
2: event look 40000 -> record - - incoming confirmed 0/0/1 0
2: event command 40000 -> done
2: out a 40000 000c121709062b183e09003e0007
1: in a 1 000c131709062b183e09003e0007
1: event look 1 -> record 0/0/3 on outgoing required - -
1: event order 1 -> done
1: out abis 0 0 0301010b02000b0009062b183e09003e0007
2: in abis 0 0 082701091100
2: event detect 0/0/1 -> owned 40000
2: event look 40000 -> record - - incoming detected 0/0/1 0
2: out a 40000 00011b
2: in abis 0 0 0302010902000b0003062c00
2: event owner 0/0/1 -> owned 40000
2: event look 40000 -> record - - incoming detected 0/0/1 0
2: event complete 40000 -> done
2: out a 40000 0003141500
1: in a 1 00042004010b
1: event look 1 -> record 0/0/3 on outgoing ordered - -
1: event left 1 -> done
1: out abis 0 0 082e010b
1: out a 1 000121
1: in abis 0 0 0833010b
1: event released 0/0/3 -> done
1: end channels=0 calls=0 references=0 timers=0
2: end channels=1 calls=1 references=0 timers=0
",
);

/// Scripts with the traces that a person worked out, over one site, and over two.
const RUNS: &[(Option<&str>, (&str, &str))] = &[
    (None, ONE_CALL),
    (None, HANDOVER),
    (None, TURNED_AWAY),
    (None, UNREADABLE),
    (None, RUNS_OUT),
    (None, COMES),
    (None, COMES_BACK),
    (None, ENDED),
    (Some(PEER), MOVES),
];

/// A site, a script with what they print, how that ends, and in how many writes at least.
const WRITES: &[(&str, (&str, &str), Status, u64)] = &[
    (SITE, ONE_CALL, Status::Done, 13),
    (SITE, HANDOVER, Status::Done, 28),
    ("", ("", "site 2 handover\n"), Status::Refused, 1),
    ("[", ("", "site 1\n"), Status::Refused, 1),
    (
        "handover = 3",
        ("", "site 3 handover\n"),
        Status::Refused,
        1,
    ),
    (SAME_IDENTITY, ("", "site 4 identity\n"), Status::Refused, 1),
    (NO_TRAFFIC, ("", "site 5 0\n"), Status::Refused, 1),
    (SITE, ("undo", "line 1\n"), Status::Refused, 1),
    (
        SITE,
        (
            "abis 0 0 04",
            "in abis 0 0 04\nfault abis 1\nend channels=0 calls=0 references=0 timers=0\n",
        ),
        Status::Done,
        3,
    ),
];

/// A run has ended so; it printed a front of the wanted text where that is a fault, and else all of it.
fn prints_unless(
    rt: &impl Abort,
    (ended, text): (Result<Status, LabFault>, &str),
    expected: Result<Status, LabFault>,
    wanted: &str,
) {
    equals_at(rt, ended, expected, text);
    match expected {
        Ok(_) => equals_at(rt, text, wanted, "a run without a fault"),
        Err(_) => holds_at(rt, wanted.starts_with(text), text),
    }
}

/// Behind what was printed an input comes next, or the end: of a turn that was cut off nothing is printed.
fn ends_at_a_turn(rt: &impl Abort, text: &str, trace: &str, n: u64) {
    let rest = trace.strip_prefix(text).unwrap_or("");
    let line = match rest.split_once(": ") {
        Some(("1" | "2", line)) => line,
        Some(_) | None => rest,
    };
    let is_so = line.is_empty() || line.starts_with("in ") || line.starts_with("end ");
    holds_at(rt, is_so, (n, text));
}

/// Whether a run over a heap that refuses this request met no refusal. Once memory was refused nothing more is printed. (A
/// list is asked for in smaller pieces where a request for it is refused, so that a refused request may be made up for.)
fn traces_without(
    rt: &impl Abort,
    alloc: Global,
    peer: Option<&str>,
    (script, trace): (&str, &str),
    n: u64,
) -> Result<bool, Fail> {
    let heap = RefusingHeap::refusing_nth(alloc, n);
    let (ended, text) = printed(&heap, alloc, SITE, peer, script)?;
    is_whole_or_cut(rt, &heap, (ended, text.as_str()), trace, n);
    ends_at_a_turn(rt, &text, trace, n);
    Ok(!heap.was_refused())
}

/// Each request of a run is refused in turn.
fn is_traced_without(
    rt: &(impl AllocGlobal + Abort),
    peer: Option<&str>,
    run: (&str, &str),
) -> Result<(), Fail> {
    for n in 1..2000 {
        if traces_without(rt, rt.alloc(), peer, run, n)? {
            holds_at(rt, 10 < n, (n, "requests"));
            return Ok(());
        }
    }
    Err(Fail::from("two thousand requests"))
}

#[test]
fn nothing_is_printed_once_memory_was_refused(rt: HostRuntime) -> Result<(), Fail> {
    for (peer, run) in RUNS {
        is_traced_without(&rt, *peer, *run)?;
    }
    Ok(())
}

/// Whether a run met no failing write, where so many come before it. Behind it nothing is written.
fn writes_all(
    rt: &impl Abort,
    alloc: Global,
    site: &str,
    (script, wanted): (&str, &str),
    status: Status,
    before: u64,
) -> Result<bool, Fail> {
    let mut out = Failing::after(alloc, before);
    let ended = lab_run(alloc, alloc, site, None, script, &mut out);
    let expected = if out.failed {
        Err(LabFault::Write)
    } else {
        Ok(status)
    };
    equals_at(rt, out.behind, 0, (before, "a write behind it"));
    prints_unless(rt, (ended, str::from_utf8(&out.text)?), expected, wanted);
    Ok(expected.is_ok())
}

/// How many writes failed in turn, from the first on, before a run met none that fails.
fn failures_of(
    rt: &(impl AllocGlobal + Abort),
    site: &str,
    row: (&str, &str),
    status: Status,
) -> Result<u64, Fail> {
    for before in 0..1000 {
        if writes_all(rt, rt.alloc(), site, row, status, before)? {
            return Ok(before);
        }
    }
    Err(Fail::from("a thousand writes"))
}

#[test]
fn each_write_fails(rt: HostRuntime) -> Result<(), Fail> {
    for (site, row, status, at_least) in WRITES {
        let tried = failures_of(&rt, *site, *row, *status)?;
        holds_at(&rt, *at_least <= tried, (tried, "writes"));
    }
    Ok(())
}
