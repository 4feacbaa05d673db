//! What a script expects is compared with what came, unless memory is refused. Which is the first that isn't met, and how that
//! is printed, `tests/commands` shows: `expectations.t`, `record.t` and `test.t`.
use super::{Global, RefusingHeap, equals_at, holds_at};
use std::process::Abort;
use tested_scripts::{CameLine, find_difference};

/// A line that came, and is no message.
fn plain(text: &'static str) -> CameLine<'static> {
    CameLine { text, words: "" }
}

/// Whether a comparison over a heap that refuses this request met no refusal.
fn compares_without(rt: &impl Abort, alloc: Global, n: u64) -> bool {
    let heap = RefusingHeap::refusing_nth(alloc, n);
    let came = [plain("a"), plain("b"), plain("c"), plain("d")];
    match find_difference(&heap, &["#> a", "#> ..", "#> d"], &came) {
        Ok(found) => equals_at(rt, (found.is_none(), heap.was_refused()), (true, false), n),
        Err(_) => holds_at(rt, heap.was_refused(), n),
    }
    !heap.was_refused()
}

#[test]
fn each_request_for_memory_is_refused(rt: HostRuntime) {
    let mut tried = 0_u64;
    for n in 1..100 {
        if compares_without(&rt, rt.alloc(), n) {
            break;
        }
        tried = n;
    }
    holds_at(&rt, 2 < tried && tried < 99, (tried, "requests"));
}
