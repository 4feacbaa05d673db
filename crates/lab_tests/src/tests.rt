//! What no clause says, and no command line shows: refused memory, and failing writes.
mod decoded;
mod encoded;
mod failing;
mod program;
mod refusals;
mod rewound;
mod shown;
mod storm_runs;
mod tested;
mod viewed;

use lab::LabFault;
use lab::run::{Status, lab_run};
use refusing_heap::RefusingHeap;
use sample_sites::THREE_CHANNELS as SITE;
use std::alloc::{Allocator, Global};
use std::fmt::Debug;
use std::fs;
use std::process::Abort;
use std::rt::Files;
use std::test::Fail;

// Each test asserts by these: an assertion in a function of its own is proved once, and a call of it costs little.

/// What was found at this place is what was wanted.
fn equals_at<T: Copy + Debug + PartialEq, W: Copy + Debug>(
    rt: &impl Abort,
    found: T,
    wanted: T,
    at: W,
) {
    assert_eq!(rt; found, wanted, "{at:?}");
}

/// This is so at this place.
fn holds_at<W: Copy + Debug>(rt: &impl Abort, is_so: bool, at: W) {
    assert!(rt; is_so, "{at:?}");
}

/// A call from its begin to its end, and what it prints.
const ONE_CALL: (&str, &str) = (
    "open 1 0 0 3\nabis 0 0 0822010b081234\nclear 1\nabis 0 0 0833010b\n",
    "in open 1 0 0 3
event open 1 0/0/3 -> done
out abis 0 0 0821010b0300060400010801
in abis 0 0 0822010b081234
event confirm 0/0/3 -> owned 1
event look 1 -> record 0/0/3 on
in clear 1
event look 1 -> record 0/0/3 on
event clear 1 -> done
out abis 0 0 082e010b
in abis 0 0 0833010b
event released 0/0/3 -> done
end channels=0 calls=0 references=0 timers=0
",
);

/// Writes files, each with its text, into the folder that a test runs in.
fn write_files(rt: &(impl Files + AllocGlobal), files: &[(&str, &str)]) -> Result<(), Fail> {
    for (path, text) in files {
        fs::write(rt, *path, *text)?;
    }
    Ok(())
}

/// Removes files from it.
fn remove_files(rt: &(impl Files + AllocGlobal), paths: &[&str]) -> Result<(), Fail> {
    for path in paths {
        fs::remove_file(rt, *path)?;
    }
    Ok(())
}

/// What a run over a site, and over a peer's where there is one, printed, and how it ended.
fn printed<A: Allocator + Copy>(
    alloc: A,
    scratch: Global,
    site: &str,
    peer: Option<&str>,
    script: &str,
) -> Result<(Result<Status, LabFault>, String), Fail> {
    let mut out = Vec::new(scratch);
    let status = lab_run(alloc, scratch, site, peer, script, &mut out);
    Ok((status, String::from_utf8(out)?))
}

/// A command has printed all of a text, or a front of it where memory was refused.
fn is_whole_or_cut(
    rt: &impl Abort,
    heap: &RefusingHeap,
    (ended, text): (Result<Status, LabFault>, &str),
    wanted: &str,
    n: u64,
) {
    holds_at(rt, wanted.starts_with(text), (n, text));
    match ended {
        Ok(Status::Done) => equals_at(rt, text, wanted, n),
        Err(LabFault::NoMemory) => holds_at(rt, heap.was_refused(), n),
        _ => holds_at(rt, false, (n, text)),
    }
}
