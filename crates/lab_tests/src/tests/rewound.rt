//! An undone attempt is taken out, unless memory is refused. What is printed of others `rewind.t` of `tests/commands` shows.
use super::{SITE, holds_at, is_whole_or_cut};
use lab::LabFault;
use lab::rewound::rewind_run;
use lab::run::Status;
use refusing_heap::RefusingHeap;
use std::alloc::{Allocator, Global};
use std::process::Abort;
use std::test::Fail;

/// A handover that is taken back, and whose release is acknowledged.
const UNDONE: &str = "in open 1 0 0 3
event open 1 0/0/3 -> done
out abis 0 0 0821010b0300060400010801
event confirm 0/0/3 -> owned 1
event look 1 -> record 0/0/3 on
event take 1 internal 1/1/3 -> done
event reserve 1 0 -> done
event activate 1 -> done
event undo 1 asked -> record 0/0/3 on internal sent 1/1/3 0
event released 1/1/3 -> done
end channels=1 calls=1 references=0 timers=0
";

/// What is printed of the attempt that opens in its line 6.
const TAKEN_OUT: &str = "others 3\nsettled yes\nheld -\nchoices -\nsame\n";

/// What an attempt's taking out printed, and how it ended.
fn printed<A: Allocator + Copy>(
    alloc: A,
    scratch: Global,
    line: usize,
) -> Result<(Result<Status, LabFault>, String), Fail> {
    let mut out = Vec::new(scratch);
    let status = rewind_run(alloc, scratch, SITE, UNDONE, line, &mut out);
    Ok((status, String::from_utf8(out)?))
}

/// Whether a run over a heap that refuses this request met no refusal. A list is asked for in smaller pieces where a
/// request for it is refused, so that a refused request may be made up for.
fn runs_without(rt: &impl Abort, alloc: Global, n: u64) -> Result<bool, Fail> {
    let heap = RefusingHeap::refusing_nth(alloc, n);
    let (status, text) = printed(&heap, alloc, 6)?;
    is_whole_or_cut(rt, &heap, (status, text.as_str()), TAKEN_OUT, n);
    Ok(!heap.was_refused())
}

#[test]
fn each_request_of_a_rewind_is_refused(rt: HostRuntime) -> Result<(), Fail> {
    for n in 1..1000 {
        if runs_without(&rt, rt.alloc(), n)? {
            holds_at(&rt, 10 < n, (n, "requests"));
            return Ok(());
        }
    }
    holds_at(&rt, false, "a thousand requests");
    Ok(())
}
