//! Scripts are read, unless memory is refused. What their lines give, and why a line can't be read, `tests/commands` shows:
//! `script_lines.t` and `unreadable_lines.t`.
use super::{Global, RefusingHeap, equals_at, holds_at};
use lab_script::script::{ScriptFault, read_script};
use std::process::Abort;

/// A script of each line that there is, for two controllers.
const SCRIPT: &str = "# a comment\r\n \t\nopen 0001 255 254 07\r\nhandover 2 255
undo 65535
clear 0
expire 1 T3103
expire 1 T7
2: expire 2 T8
abis 255 1 0822010B08AbCd
2: a 7 0000
sim
refuse 255 254 7
2: hold 255 254 7/1
let 255 254 7
mobile 255 254 7 arrive
mobile 255 254 7 return
mobile 255 254 7 vanish
double 255 254 7
cut 255 254 7/0 255
2: cut 255 254 7/1 001
2: hangup 9
open 3 0 1 07/0
open 4 0 1 0/1
seize 5 06 full
2: seize 6 0 half
abis 255 1 CHANNEL ACTIVATION NACK cause=32 tn=3/1
2: a 7 CLEAR COMMAND cause=9
report 7 full=30 n=1:40,64:63
2: report all n=- times=3 dtx qsub=1 qfull=2 sub=0 full=63 power=4 ta=63
2: answer 65535 released
hold 255 254 7 complete
2: mobile 8 vanish";

/// Whether a script was read over a heap that refuses this request, and met no refusal.
fn reads_without(rt: &impl Abort, alloc: Global, n: u64) -> bool {
    let heap = RefusingHeap::refusing_nth(alloc, n);
    let fault = read_script(&heap, SCRIPT, true).err();
    let wanted = heap.was_refused().then_some(ScriptFault::NoMemory);
    equals_at(rt, fault, wanted, n);
    fault.is_none()
}

#[test]
fn each_request_for_memory_is_refused(rt: HostRuntime) {
    let mut tried = 0u64;
    for n in 1..100 {
        if reads_without(&rt, rt.alloc(), n) {
            break;
        }
        tried = n;
    }
    // the list of items, and the octets of each message
    holds_at(&rt, 3 <= tried && tried < 99, (tried, "requests"));
}
