//! What is printed with words and with what the book holds, where memory is refused: what the controller owes of a line is
//! printed as in a trace without views.
use super::{RULES, common_lines, fresh_book, holds};
use exchange::Outbound;
use live_runs::{LiveFault, live_run};
use octet_elements::Octets;
use refusing_heap::RefusingHeap;
use run_listeners::{LabFault, Listener};
use run_views::{LiveViewer, open_sheets};
use std::io::Write;
use std::process::Abort;
use std::rt::Files;
use std::str;
use std::test::Fail;
use trace_text::trace::Mark;
use view_options::Views;

/// Both views that are printed, and no file.
const VIEWS: Views<'_> = Views {
    words: true,
    state: true,
    decisions: false,
    pcap: None,
    chart: None,
    summary: None,
    lines: false,
    call: None,
};

/// Lines of a call that is cleared while it has an attempt: four messages are sent then.
const LINES: &str = "open 1 0 0 3
abis 0 0 0822010b081234
handover 1 1
a 1 000420040109";

/// What they print with both views.
const TRACE: &str = "in open 1 0 0 3 # call 1
event open 1 0/0/3 -> done # call 1
out abis 0 0 0821010b0300060400010801 # call 1; CHANNEL ACTIVATION tn=3 activation=0 mode=00010801 reference=-
state channel 0/0/3 pending call 1
state call 1 record 0/0/3 pending
in abis 0 0 0822010b081234 # call 1; CHANNEL ACTIVATION ACK tn=3 frame=4660
event confirm 0/0/3 -> owned 1 # call 1
event look 1 -> record 0/0/3 on # call 1
state channel 0/0/3 on call 1
state call 1 record 0/0/3 on
in handover 1 1 # call 1
event look 1 -> record 0/0/3 on # call 1
event take 1 internal 1/1/3 -> done # call 1
event reserve 1 0 -> done # call 1
event activate 1 -> done # call 1
out abis 1 1 0821010b03020604000108010900 # call 1; CHANNEL ACTIVATION tn=3 activation=2 mode=00010801 reference=0
state channel 0/0/3 on call 1
state channel 1/1/3 pending call 1
state call 1 record 0/0/3 on internal sent 1/1/3 0
state reference 1 0 call 1
in a 1 000420040109 # call 1; CLEAR COMMAND cause=9; call control
event look 1 -> record 0/0/3 on internal sent 1/1/3 0 # call 1
event undo 1 asked -> record 0/0/3 on internal sent 1/1/3 0 # call 1
event clear 1 -> done # call 1
out abis 1 1 082e010b # call 1; RF CHANNEL RELEASE tn=3
out abis 0 0 0301010b02000b0003060d00 # call 1; DATA REQUEST tn=3 link=0 layer3=060d00; CHANNEL RELEASE cause=0; normal event
out abis 0 0 082e010b # call 1; RF CHANNEL RELEASE tn=3
out a 1 000121 # call 1; CLEAR COMPLETE
state channel 0/0/3 off
state channel 1/1/3 off
end channels=2 calls=0 references=0 timers=0 # this is left
state channel 0/0/3 off
state channel 1/1/3 off
";

/// Whether a line is the first that is told of an input, or of the end.
fn begins(line: &str) -> bool {
    line.starts_with("in ") || line.starts_with("end ")
}

/// A line without its words.
fn without_words(line: &str) -> &str {
    match line.split_once(" # ") {
        Some((front, _)) => front,
        None => line,
    }
}

/// How many messages the trace has behind so many lines, up to the next input.
fn messages_behind(told: usize) -> usize {
    TRACE
        .lines()
        .skip(told)
        .take_while(|line| !begins(line))
        .filter(|line| line.starts_with("out "))
        .count()
}

/// What was printed behind so many lines are messages without words: the first that the trace has behind so many. How many they
/// are.
fn are_messages(rt: &impl Abort, printed: &str, told: usize, behind: usize) -> usize {
    let mut messages = TRACE
        .lines()
        .skip(behind)
        .filter(|line| line.starts_with("out "));
    let mut count = 0usize;
    for line in printed.lines().skip(told) {
        let is_next = messages.next().map(without_words) == Some(line);
        holds(rt, is_next, printed);
        count = count.saturating_add(1);
    }
    count
}

/// What was printed is a front of the trace, and then messages without words. Where the front ends within what is told of an
/// input, they are all messages that it lacks; how many they are. Else they are some of the next input, and none is counted.
fn owed_in(rt: &impl Abort, printed: &str) -> usize {
    let told = common_lines(printed, TRACE);
    match TRACE.lines().nth(told) {
        Some(next) if !begins(next) => {
            let owed = are_messages(rt, printed, told, told);
            holds(rt, owed == messages_behind(told), printed);
            owed
        }
        Some(_) | None => {
            are_messages(rt, printed, told, told.saturating_add(1));
            0
        }
    }
}

/// Runs the lines over a heap, with both views.
fn run_over<R: Files + AllocGlobal, W: Write, E: Write>(
    rt: &R,
    heap: &RefusingHeap,
    views: &Views<'_>,
    out: &mut W,
    errors: &mut E,
) -> Result<(), LiveFault> {
    let book = fresh_book(heap, rt.alloc())?;
    let Some(sheets) = open_sheets(rt, views, &[], out, errors)? else {
        return Err(LiveFault::Write);
    };
    let mut viewer = LiveViewer::new(heap, views, sheets, out, errors)?;
    let mut input = LINES.as_bytes();
    let ended = live_run(heap, book, RULES, &mut input, &mut viewer, errors);
    let written = viewer.finish(errors);
    ended?;
    Ok(written?)
}

/// Whether the lines are run over a heap that refuses this request without meeting that; and how many messages were owed.
fn runs_without<R: Files + AllocGlobal + Abort>(rt: &R, n: u64) -> Result<(bool, usize), Fail> {
    let heap = RefusingHeap::refusing_nth(rt.alloc(), n);
    let mut out = Vec::new(rt.alloc());
    let ended = run_over(rt, &heap, &VIEWS, &mut out, &mut Vec::new(rt.alloc()));
    let printed = str::from_utf8(&out)?;
    let owed = owed_in(rt, printed);
    match ended {
        Ok(()) => {
            holds(rt, !heap.was_refused() && printed == TRACE, printed);
            Ok((true, owed))
        }
        Err(LiveFault::NoMemory) => {
            holds(rt, heap.was_refused(), printed);
            Ok((false, owed))
        }
        Err(_) => Err(Fail::from("it fails otherwise")),
    }
}

/// At each request that is refused, in turn, the lines up to there are printed with views, and then what is owed. Where what came
/// of an input was told in part, more than one message is owed at some.
#[test]
fn each_request_is_refused_with_views(rt: HostRuntime) -> Result<(), Fail> {
    let mut tried = 0u64;
    let mut owing = 0usize;
    for n in 1..1000 {
        let (is_done, owed) = runs_without(&rt, n)?;
        if is_done {
            break;
        }
        tried = n;
        owing = owing.max(owed);
    }
    holds(&rt, 10 < tried && tried < 999, "requests");
    holds(&rt, 1 < owing, "only one message is ever owed");
    Ok(())
}

/// A viewer hears what is owed.
fn hears_owed<R: Files + AllocGlobal, W: Write, E: Write>(
    rt: &R,
    messages: &[Outbound],
    views: &Views<'_>,
    out: &mut W,
    errors: &mut E,
) -> Result<(), LabFault> {
    let Some(sheets) = open_sheets(rt, views, &[], out, errors)? else {
        return Err(LabFault::Write);
    };
    let mut viewer = LiveViewer::new(rt.alloc(), views, sheets, out, errors)?;
    let heard = viewer.hear_owed(Mark::First, messages);
    let written = viewer.finish(errors);
    heard?;
    written
}

/// Where it isn't told what came of a line, it prints what is owed all the same.
#[test]
fn what_is_owed_of_a_line_that_is_not_told_is_printed(rt: HostRuntime) -> Result<(), Fail> {
    let messages = [
        Outbound::Abis {
            cell: 1,
            trx: 1,
            bytes: Octets::new(rt.alloc(), &[0x08, 0x2e, 0x01, 0x0b])?,
        },
        Outbound::A {
            call: 300,
            bytes: Octets::new(rt.alloc(), &[0x00, 0x01, 0x21])?,
        },
    ];
    let mut out = Vec::new(rt.alloc());
    let heard = hears_owed(&rt, &messages, &VIEWS, &mut out, &mut Vec::new(rt.alloc()));
    let printed = str::from_utf8(&out)?;
    let wanted = "1: out abis 1 1 082e010b\n1: out a 300 000121\n";
    holds(&rt, heard.is_ok() && printed == wanted, printed);
    Ok(())
}
