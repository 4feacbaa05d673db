use super::failing::Failing;
use super::{equals_at, holds_at};
use lab::LabFault;
use lab::decoded::{LinkName, decode_run};
use lab::run::Status;
use refusing_heap::RefusingHeap;
use std::alloc::{Allocator, Global};
use std::process::Abort;
use std::test::Fail;

/// A message that keeps an octet list, and what it prints.
const ACTIVATION: (&str, &str) = (
    "0821010B0302060400010801092A",
    "CHANNEL ACTIVATION tn=3 activation=2 mode=00010801 reference=42",
);

/// A message on A that keeps a list of cells, and what it prints.
const REQUIRED: (&str, &str) = (
    "000c1104010c1b1a050100170066",
    "HANDOVER REQUIRED cause=12 response=1 cells=23/102",
);

/// Texts that take memory, and how many requests at least: the octets of the text, and what the message keeps.
const REQUESTS: &[(LinkName, (&str, &str), u64)] = &[
    (LinkName::Rr, ("062c00", "HANDOVER COMPLETE cause=0"), 1),
    (LinkName::A, REQUIRED, 2),
    (LinkName::Abis, ACTIVATION, 2),
];

/// Texts that take no memory.
const NO_REQUESTS: &[(LinkName, (&str, &str))] = &[
    (LinkName::Rr, ("", "fault rr 1")),
    (LinkName::A, ("", "fault a 1")),
    (LinkName::Abis, ("", "fault abis 1")),
    (LinkName::Rr, ("062c0g", "hex")),
    (LinkName::Abis, ("082e010b0", "hex")),
];

/// Texts that are printed by different ways to a write.
const WRITES: &[(LinkName, (&str, &str))] = &[
    (LinkName::Abis, ACTIVATION),
    (LinkName::Rr, ("062c00", "HANDOVER COMPLETE cause=0")),
    (LinkName::A, REQUIRED),
    (LinkName::A, ("0003160405", "fault a 6 3")),
    (LinkName::Abis, ("082201", "fault abis 5 2")),
    (LinkName::Rr, ("06ff", "fault rr 2 255")),
    (LinkName::Rr, ("0g", "hex")),
];

/// What a text printed, and how it ended.
fn printed<A: Allocator + Copy>(
    alloc: A,
    scratch: Global,
    link: LinkName,
    text: &str,
) -> Result<(Result<Status, LabFault>, String), Fail> {
    let mut out = Vec::new(scratch);
    let status = decode_run(alloc, link, text, &mut out);
    Ok((status, String::from_utf8(out)?))
}

/// A text ends so and prints this one line.
fn prints<A: Allocator + Copy>(
    rt: &impl Abort,
    alloc: A,
    scratch: Global,
    link: LinkName,
    ended: Status,
    (hex, line): (&str, &str),
) -> Result<(), Fail> {
    let (status, text) = printed(alloc, scratch, link, hex)?;
    equals_at(
        rt,
        (status, text.strip_suffix('\n')),
        (Ok(ended), Some(line)),
        hex,
    );
    Ok(())
}

/// What may fail while a text is read and printed.
#[derive(Clone, Copy)]
enum Failure {
    /// A request for memory.
    Request,
    /// A write.
    Write,
}

/// Whether a text was printed over a heap that refuses this request, and met no refusal.
fn prints_without(
    rt: &impl Abort,
    alloc: Global,
    link: LinkName,
    (hex, wanted): (&str, &str),
    n: u64,
) -> Result<bool, Fail> {
    let heap = RefusingHeap::refusing_nth(alloc, n);
    let (status, text) = printed(&heap, alloc, link, hex)?;
    let (ended, line) = if heap.was_refused() {
        (Err(LabFault::NoMemory), None)
    } else {
        (Ok(Status::Done), Some(wanted))
    };
    equals_at(rt, (status, text.strip_suffix('\n')), (ended, line), n);
    equals_at(rt, text.is_empty(), line.is_none(), n);
    Ok(line.is_some())
}

/// Whether a text met no failing write, where the n-th fails.
fn writes_all(
    rt: &impl Abort,
    alloc: Global,
    n: u64,
    link: LinkName,
    (hex, wanted): (&str, &str),
) -> Result<bool, Fail> {
    let mut out = Failing::after(alloc, n.saturating_sub(1));
    let status = decode_run(alloc, link, hex, &mut out);
    let text = String::from_utf8(out.text)?;
    if out.failed {
        equals_at(rt, status, Err(LabFault::Write), n);
        holds_at(rt, wanted.starts_with(text.as_str()), (n, text.as_str()));
        return Ok(false);
    }
    holds_at(rt, status.is_ok(), n);
    equals_at(rt, text.strip_suffix('\n'), Some(wanted), n);
    Ok(true)
}

/// How many requests or writes failed in turn before a text was read and printed.
fn failures_of(
    rt: &(impl AllocGlobal + Abort),
    failure: Failure,
    link: LinkName,
    row: (&str, &str),
) -> Result<u64, Fail> {
    for n in 1..100 {
        let is_whole = match failure {
            Failure::Request => prints_without(rt, rt.alloc(), link, row, n)?,
            Failure::Write => writes_all(rt, rt.alloc(), n, link, row)?,
        };
        if is_whole {
            return Ok(n - 1);
        }
    }
    Err(Fail::from("a hundredth request or write"))
}

#[test]
fn each_request_for_memory_is_refused(rt: HostRuntime) -> Result<(), Fail> {
    for (link, row, at_least) in REQUESTS {
        let tried = failures_of(&rt, Failure::Request, *link, *row)?;
        holds_at(&rt, *at_least <= tried, (row.0, tried, "requests"));
    }
    Ok(())
}

#[test]
fn texts_that_take_no_memory(rt: HostRuntime) -> Result<(), Fail> {
    for (link, row) in NO_REQUESTS {
        let heap = RefusingHeap::refusing_from(rt.alloc(), 1);
        prints(&rt, &heap, rt.alloc(), *link, Status::Refused, *row)?;
    }
    Ok(())
}

#[test]
fn each_write_fails(rt: HostRuntime) -> Result<(), Fail> {
    for (link, row) in WRITES {
        let tried = failures_of(&rt, Failure::Write, *link, *row)?;
        holds_at(&rt, 1 <= tried, (row.0, tried, "writes"));
    }
    Ok(())
}
