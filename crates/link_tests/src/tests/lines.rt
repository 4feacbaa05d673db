//! Lines of a controller with its links: what is read and written again, why a line can't be read, and what is done, in words.
use super::{Fail, RefusingHeap, equals_at, holds_at};
use attempt_journal::Timer;
use channel_fsm::{ChanId, Sub};
use link_exchange::{LinkOutput, TimerKey, Why};
use link_lines::{LineFault, LinkInputText, LinkLine, LinkOutputText, read_link_line};
use link_tables::Timer as ChannelTimer;
use octet_elements::Octets;
use std::alloc::{AllocError, Allocator, Global};
use std::process::Abort;

/// Lines, and how what they give is written.
const READ: &[(&str, &str)] = &[
    ("begin", "begin"),
    ("up 0 1", "up 0 1"),
    ("down 255 03", "down 255 3"),
    ("up centre", "up centre"),
    ("down centre", "down centre"),
    ("abis 0 0 0833010B", "abis 0 0 0833010b"),
    ("abis 0 0 RF CHANNEL RELEASE ACK tn=3", "abis 0 0 0833010b"),
    ("a 65535 0000", "a 65535 0000"),
    ("for abis 1 2 0833010b", "for abis 1 2 0833010b"),
    ("for a 7 CLEAR COMMAND cause=9", "for a 7 000420040109"),
    ("send abis 1 2 082e010b", "send abis 1 2 082e010b"),
    ("send a 7 000121", "send a 7 000121"),
    ("expired T3103 5", "expired T3103 5"),
    ("expired T7 5", "expired T7 5"),
    ("expired T8 00005", "expired T8 5"),
    ("expired activation 0 0 3", "expired activation 0 0 3"),
    ("expired T3109 0 0 3/0", "expired T3109 0 0 3/0"),
    ("expired T3111 0 0 3/1", "expired T3111 0 0 3/1"),
    ("expired release 1 2 7", "expired release 1 2 7"),
    ("expired bar 1 2 7", "expired bar 1 2 7"),
    ("open 1 0 0 3/1", "open 1 0 0 3/1"),
    ("seize 1 0 half", "seize 1 0 half"),
    ("handover 1 64", "handover 1 64"),
    ("undo 1", "undo 1"),
    ("clear 1", "clear 1"),
    ("bar 0 0 3", "bar 0 0 3"),
    ("unbar 0 0 3/1", "unbar 0 0 3/1"),
    ("away 1 on", "away 1 on"),
    ("away 1 off", "away 1 off"),
    ("reports 1 on", "reports 1 on"),
    ("reports 1 off", "reports 1 off"),
    ("advance 1 63", "advance 1 63"),
    ("set commands bridge", "set commands bridge"),
];

/// Lines that can't be read, and why.
const WRONG: &[(&str, &str)] = &[
    ("up", "CELL is missing"),
    ("up 0", "TRX is missing"),
    ("up 256 0", "CELL is 0 to 255, found \"256\""),
    ("up  0 0", "CELL is 0 to 255, found \"\""),
    ("up 0 0 0", "nothing may follow the last word, found \"0\""),
    ("up centre ", "CELL is 0 to 255, found \"centre\""),
    (
        "begin now",
        "nothing may follow the last word, found \"now\"",
    ),
    (
        "expired T9 1",
        "TIMER is T3103, T7, T8, activation, T3109, T3111, release or bar, found \"T9\"",
    ),
    (
        "expired T3103 0 0 3",
        "nothing may follow the last word, found \"0\"",
    ),
    ("expired T3109 0", "TRX is missing"),
    (
        "bar 0 0 8",
        "TN is 0 to 7, with /0 or /1 behind it for half rate, found \"8\"",
    ),
    ("away 1", "on or off is missing"),
    ("away 1 yes", "the last word is on or off, found \"yes\""),
    ("advance 1 64", "N is 0 to 63, found \"64\""),
    ("set", "commands is missing"),
    (
        "set words bridge",
        "what is set is commands, found \"words\"",
    ),
    (
        "set commands here",
        "commands are set to bridge, found \"here\"",
    ),
    ("for", "a message is missing"),
    (
        "for open 1 0 0 3",
        "a message begins with abis or a, found \"open\"",
    ),
    (
        "send abis 0 0 082",
        "HEX is one octet or more, each in two hexadecimal digits, found 082",
    ),
    ("abis 0", "TRX is missing in abis CELL TRX HEX"),
    (
        "open 1 0 0 3 4",
        "nothing may follow open CALL CELL TRX TN, found 4",
    ),
    (
        "expire 1 T7",
        "a line begins with abis, a, expired, up, down, open, seize, handover, undo, clear, bar, unbar, for, send, away, \
reports, advance, set, begin, calls, summary, or with #, found \"expire\"",
    ),
];

/// What a line gives is written so.
fn is_written(rt: &impl Abort, alloc: Global, text: &str, wanted: &str) -> Result<(), AllocError> {
    match read_link_line(alloc, text) {
        Ok(LinkLine::Input(input)) => {
            let written = format!(in alloc; "{}", LinkInputText(&input))?;
            equals_at(rt, written.as_str(), wanted, text);
        }
        Ok(LinkLine::Nothing | LinkLine::Calls | LinkLine::Summary) | Err(_) => {
            holds_at(rt, false, text);
        }
    }
    Ok(())
}

#[test]
fn lines_are_read_and_written(rt: HostRuntime) -> Result<(), Fail> {
    for (text, wanted) in READ {
        is_written(&rt, rt.alloc(), *text, *wanted)?;
    }
    Ok(())
}

/// Why a line can't be read.
fn reason_is(rt: &impl Abort, alloc: Global, text: &str, wanted: &str) -> Result<(), AllocError> {
    match read_link_line(alloc, text) {
        Ok(_) => holds_at(rt, false, text),
        Err(fault) => {
            let said = format!(in alloc; "{fault}")?;
            equals_at(rt, said.as_str(), wanted, text);
        }
    }
    Ok(())
}

#[test]
fn lines_that_cant_be_read_have_a_reason(rt: HostRuntime) -> Result<(), Fail> {
    for (text, wanted) in WRONG {
        reason_is(&rt, rt.alloc(), *text, *wanted)?;
    }
    Ok(())
}

/// A full-rate channel.
const WHOLE: ChanId = ChanId {
    cell: 1,
    trx: 2,
    tn: 3,
    sub: Sub::Full,
};

/// What is done without a message, and how it is told.
const DONE: &[(Done, &str)] = &[
    (
        Done::Start(TimerKey::Call {
            call: 9,
            timer: Timer::T3103,
        }),
        "start T3103 9",
    ),
    (
        Done::Stop(TimerKey::Channel {
            chan: WHOLE,
            timer: ChannelTimer::Release,
        }),
        "stop release 1 2 3",
    ),
    (Done::Count(Why::Unexpected), "count unexpected"),
    (Done::Count(Why::NoMessage), "count no message"),
    (Done::Count(Why::NoChannel), "count no channel"),
    (Done::Count(Why::NoStation), "count no station"),
    (Done::Count(Why::NoLink), "count no link"),
    (Done::Count(Why::NoTimer), "count no timer"),
    (Done::Count(Why::NoCall), "count no call"),
    (Done::Count(Why::NotNow), "count not now"),
];

/// What is done without a message.
#[derive(Clone, Copy, Debug)]
enum Done {
    Start(TimerKey),
    Stop(TimerKey),
    Count(Why),
}

impl Done {
    fn output(self) -> LinkOutput {
        match self {
            Done::Start(key) => LinkOutput::Start(key),
            Done::Stop(key) => LinkOutput::Stop(key),
            Done::Count(why) => LinkOutput::Count(why),
        }
    }
}

#[test]
fn what_is_done_is_told(rt: HostRuntime) -> Result<(), Fail> {
    for (done, wanted) in DONE {
        let told = format!(in rt.alloc(); "{}", LinkOutputText(&done.output()))?;
        equals_at(&rt, told.as_str(), *wanted, done);
    }
    Ok(())
}

/// A message, told so.
fn is_told(
    rt: &impl Abort,
    alloc: Global,
    output: LinkOutput,
    wanted: &str,
) -> Result<(), AllocError> {
    let told = format!(in alloc; "{}", LinkOutputText(&output))?;
    equals_at(rt, told.as_str(), wanted, wanted);
    Ok(())
}

#[test]
fn messages_are_told(rt: HostRuntime) -> Result<(), Fail> {
    let (cell, trx, call) = (1, 2, 7);
    let alloc = rt.alloc();
    let bytes = Octets::new(alloc, &[8, 0x2e, 1, 0x0b])?;
    is_told(
        &rt,
        alloc,
        LinkOutput::OutAbis { cell, trx, bytes },
        "out abis 1 2 082e010b",
    )?;
    let bytes = Octets::new(alloc, &[0, 1, 0x21])?;
    is_told(
        &rt,
        alloc,
        LinkOutput::OutA { call, bytes },
        "out a 7 000121",
    )?;
    let bytes = Octets::new(alloc, &[2, 9])?;
    is_told(
        &rt,
        alloc,
        LinkOutput::PassAbis { cell, trx, bytes },
        "pass abis 1 2 0209",
    )?;
    let bytes = Octets::new(alloc, &[2, 9])?;
    is_told(
        &rt,
        alloc,
        LinkOutput::SaidAbis { cell, trx, bytes },
        "said abis 1 2 0209",
    )?;
    let bytes = Octets::new(alloc, &[0, 1, 0x21])?;
    is_told(
        &rt,
        alloc,
        LinkOutput::SaidA { call, bytes },
        "said a 7 000121",
    )?;
    Ok(())
}

/// Whether a line is read over a heap that refuses its first request.
fn lacks_memory(alloc: Global, text: &str) -> bool {
    let heap = RefusingHeap::refusing_nth(alloc, 1);
    matches!(read_link_line(&heap, text), Err(LineFault::NoMemory))
}

#[test]
fn only_messages_take_memory(rt: HostRuntime) {
    for text in ["abis 0 0 0833010b", "for a 7 000121", "send a 7 000121"] {
        holds_at(&rt, lacks_memory(rt.alloc(), text), text);
    }
    for text in ["up 0 0", "open 1 0 0 3", "abis 0 0 083", "bar 0 0 3", ""] {
        holds_at(&rt, !lacks_memory(rt.alloc(), text), text);
    }
}
