//! Allocation failures while an input is handled: each request for memory that it makes is refused in turn.
use super::controllers::{Radio, are_handled, input_of, opened, sent_lines};
use super::requests::{
    BEGINNING, BEGINNINGS, CALLS, CANDIDATES, COMING, LEAVING, MOVES, ROOM_COMES_FIRST,
    TWO_NEIGHBOURS, TWO_PARTS,
};
use exchange::{Fault, Outbound};
use refusing_heap::RefusingHeap;
use sample_sites::THREE_CHANNELS;
use std::alloc::Global;
use std::process::Abort;
use std::test::Fail;
use trace_text::trace::{Mark, Step, print_steps};

/// An input to a controller of a site, what came before, what comes of it, and how many requests it makes at least. Behind
/// what came before the history gets so many entries more.
#[derive(Clone, Copy)]
struct Case<'a> {
    site: &'a str,
    beginning: &'a str,
    before: &'a str,
    more: u8,
    input: &'a str,
    comes: &'a str,
    requests: u64,
}

/// The first line of a text, and what stands behind it.
fn cut_line(text: &str) -> (&str, &str) {
    text.split_once('\n').unwrap_or((text, ""))
}

/// The lines of the beginning of this name.
fn beginning_of(name: &str) -> Option<&'static str> {
    for (known, lines) in BEGINNINGS {
        if *known == name {
            return Some(*lines);
        }
    }
    None
}

/// The beginning that is gone on from, and the lines behind that.
fn cut_beginning(lines: &str) -> Result<(&'static str, &str), Fail> {
    match lines.strip_prefix("from ") {
        Some(text) => {
            let (name, lines) = cut_line(text);
            Ok((beginning_of(name).ok_or("no such beginning")?, lines))
        }
        None => Ok(("", lines)),
    }
}

/// The case that lines say.
fn case_of<'a>(site: &'a str, lines: &'a str) -> Result<Case<'a>, Fail> {
    let (beginning, lines) = cut_beginning(lines)?;
    let (before, counted) = lines.rsplit_once("\nin ").unwrap_or(("", lines));
    let (input, lines) = cut_line(counted);
    let (comes, number) = lines.split_once("requests ").ok_or("no requests")?;
    Ok(Case {
        site,
        beginning,
        before,
        more: 0,
        input,
        comes,
        requests: number.trim().parse()?,
    })
}

/// What a controller asked from this place of its history on, as lines of a trace.
fn asked_lines<'a>(
    scratch: Global,
    radio: &Radio<&'a RefusingHeap>,
    place: usize,
) -> Result<String, Fail> {
    let desk = radio.view().desk();
    let mut out = Vec::new(scratch);
    for k in place..desk.len() {
        if let Some((event, reply)) = desk.entry(k) {
            print_steps(&mut out, Mark::Alone, &[Step::Asked(*event, *reply)])?;
        }
    }
    Ok(String::from_utf8(out)?)
}

/// What an input leads to up to its event of this number, counted from 0: the events before that, and the messages that
/// stand before it.
fn cut_before(scratch: Global, comes: &str, number: usize) -> Result<(String, String), Fail> {
    let mut asked = String::new(scratch);
    let mut sent = String::new(scratch);
    let mut events = 0usize;
    for line in comes.lines() {
        if line.starts_with("event ") {
            if events == number {
                break;
            }
            events = events.saturating_add(1);
            push_line(&mut asked, line)?;
        } else {
            push_line(&mut sent, line)?;
        }
    }
    Ok((asked, sent))
}

fn push_line(text: &mut String, line: &str) -> Result<(), Fail> {
    text.push_str(line)?;
    Ok(text.push('\n')?)
}

/// So many first events of a case were asked, and the messages are those that stand before the next.
fn comes_so(
    rt: &impl Abort,
    scratch: Global,
    asked: &str,
    sent: &str,
    number: usize,
    case: Case<'_>,
) -> Result<(), Fail> {
    let (wanted, owed) = cut_before(scratch, case.comes, number)?;
    assert!(rt; asked == wanted.as_str(), "{}: {asked}", case.input);
    assert!(rt; sent == owed.as_str(), "{}: {asked}{sent}", case.input);
    Ok(())
}

/// An input was handled, or memory was refused.
fn ends_so<'a>(
    rt: &impl Abort,
    scratch: Global,
    heap: &'a RefusingHeap,
    asked: &str,
    answer: &Result<Vec<Outbound<&'a RefusingHeap>, &'a RefusingHeap>, Fault<&'a RefusingHeap>>,
    case: Case<'_>,
) -> Result<(), Fail> {
    match answer {
        Ok(sent) => {
            assert!(rt; !heap.was_refused(), "{}", case.input);
            let sent = sent_lines(scratch, sent)?;
            comes_so(rt, scratch, asked, &sent, usize::MAX, case)
        }
        Err(Fault::NoMemory(sent)) => {
            assert!(rt; heap.was_refused(), "{}", case.input);
            let sent = sent_lines(scratch, sent)?;
            comes_so(rt, scratch, asked, &sent, asked.lines().count(), case)
        }
        Err(Fault::Undecoded(..) | Fault::Desk(..)) => {
            assert!(rt; false, "{}", case.input);
            Ok(())
        }
    }
}

/// An acknowledgement that is refused, since its channel isn't in use. It makes no room but for its entry.
const REFUSED: &str = "abis 0 0 0833010a";

/// A controller is given what comes before the input of a case.
fn begins<'a>(
    rt: &impl Abort,
    heap: &'a RefusingHeap,
    radio: &mut Radio<&'a RefusingHeap>,
    case: Case<'_>,
) {
    are_handled(rt, heap, radio, case.beginning);
    are_handled(rt, heap, radio, case.before);
    for _ in 0..case.more {
        are_handled(rt, heap, radio, REFUSED);
    }
}

/// How many requests for memory a controller's heap had when the input of a case came, which ended so.
fn requests_before<'a>(
    rt: &impl Abort,
    scratch: Global,
    heap: &'a RefusingHeap,
    radio: &mut Radio<&'a RefusingHeap>,
    case: Case<'_>,
) -> Result<u64, Fail> {
    begins(rt, heap, radio, case);
    let input = input_of(rt, heap, case.input);
    let (requests, place) = (heap.requests(), radio.view().desk().len());
    let answer = radio.handle(input);
    let asked = asked_lines(scratch, radio, place)?;
    ends_so(rt, scratch, heap, &asked, &answer, case)?;
    Ok(requests)
}

/// How many requests for memory a new controller makes of a case.
fn requests_of(
    rt: &impl Abort,
    scratch: Global,
    heap: &RefusingHeap,
    case: Case<'_>,
) -> Result<u64, Fail> {
    requests_before(
        rt,
        scratch,
        heap,
        &mut opened(heap, scratch, case.site)?,
        case,
    )
}

/// How many requests for memory a case makes where a heap refuses none.
fn requests_made(rt: &(impl AllocGlobal + Abort), case: Case<'_>) -> Result<u64, Fail> {
    requests_of(rt, rt.alloc(), &RefusingHeap::ample(rt.alloc()), case)
}

/// Whether the request of this number was made, and refused.
fn is_refused(rt: &(impl AllocGlobal + Abort), case: Case<'_>, request: u64) -> Result<bool, Fail> {
    let heap = RefusingHeap::refusing_nth(rt.alloc(), request);
    requests_of(rt, rt.alloc(), &heap, case)?;
    Ok(heap.was_refused())
}

/// Each request of a case is answered: at least so many.
fn is_answered(rt: &(impl AllocGlobal + Abort), case: Case<'_>) -> Result<(), Fail> {
    let first = requests_made(rt, case)?;
    let mut tried = 0u64;
    for n in 1..100 {
        if !is_refused(rt, case, first.saturating_add(n))? {
            break;
        }
        tried = n;
    }
    assert!(rt;
        case.requests <= tried && tried < 99,
        "{}: {tried}",
        case.input
    );
    Ok(())
}

/// Each case of a text is answered.
fn are_answered(rt: &(impl AllocGlobal + Abort), site: &str, cases: &str) -> Result<(), Fail> {
    for lines in cases.split("\n\n") {
        is_answered(rt, case_of(site, lines)?)?;
    }
    Ok(())
}

#[test]
fn refused_memory_is_answered(rt: HostRuntime) -> Result<(), Fail> {
    are_answered(&rt, THREE_CHANNELS, BEGINNING)?;
    are_answered(&rt, THREE_CHANNELS, CALLS)?;
    are_answered(&rt, THREE_CHANNELS, MOVES)?;
    are_answered(&rt, THREE_CHANNELS, COMING)?;
    are_answered(&rt, THREE_CHANNELS, LEAVING)?;
    are_answered(&rt, TWO_NEIGHBOURS, CANDIDATES)
}

/// How many entries more histories get, so that somewhere each event of a row finds its history full.
const LENGTHS: u8 = 20;

/// What a controller of a heap owes after the input of a case, where memory was refused.
fn owed_lines(
    rt: &impl Abort,
    scratch: Global,
    heap: &RefusingHeap,
    case: Case<'_>,
) -> Result<String, Fail> {
    let mut radio = opened(heap, scratch, case.site)?;
    begins(rt, heap, &mut radio, case);
    match radio.handle(input_of(rt, heap, case.input)) {
        Err(Fault::NoMemory(sent)) => sent_lines(scratch, &sent),
        Ok(_) | Err(Fault::Undecoded(..) | Fault::Desk(..)) => Ok(String::new(scratch)),
    }
}

/// Whether one of the first requests of a case, once it is refused, leaves this message owed.
fn is_owed(rt: &(impl AllocGlobal + Abort), case: Case<'_>, message: &str) -> Result<bool, Fail> {
    let first = requests_made(rt, case)?;
    for n in 1..20 {
        let heap = RefusingHeap::refusing_nth(rt.alloc(), first.saturating_add(n));
        if owed_lines(rt, rt.alloc(), &heap, case)?.as_str() == message {
            return Ok(true);
        }
    }
    Ok(false)
}

/// Whether a case is answered at each length of the history, and leaves this message owed at one of them.
fn is_owed_at_some_length(
    rt: &(impl AllocGlobal + Abort),
    case: Case<'_>,
    message: &str,
) -> Result<bool, Fail> {
    let mut found = false;
    for more in 0..LENGTHS {
        let case = Case { more, ..case };
        is_answered(rt, case)?;
        found = found || is_owed(rt, case, message)?;
    }
    Ok(found)
}

#[test]
fn a_message_between_two_events_is_owed(rt: HostRuntime) -> Result<(), Fail> {
    for lines in TWO_PARTS.split("\n\n") {
        let case = case_of(THREE_CHANNELS, lines)?;
        let owed = is_owed_at_some_length(&rt, case, "out abis 1 1 082e010b\n")?;
        assert!(&rt; owed, "{lines}");
    }
    Ok(())
}

/// Memory was refused, and nothing is owed.
fn owes_nothing<'a>(
    answer: &Result<Vec<Outbound<&'a RefusingHeap>, &'a RefusingHeap>, Fault<&'a RefusingHeap>>,
) -> bool {
    match answer {
        Err(Fault::NoMemory(owed)) => owed.is_empty(),
        Ok(_) | Err(Fault::Undecoded(..) | Fault::Desk(..)) => false,
    }
}

/// Where the first request of a case is refused, nothing is asked, and nothing owed.
fn asks_nothing(rt: &(impl AllocGlobal + Abort), case: Case<'_>) -> Result<(), Fail> {
    let request = requests_made(rt, case)?.saturating_add(1);
    let heap = RefusingHeap::refusing_nth(rt.alloc(), request);
    let mut radio = opened(&heap, rt.alloc(), case.site)?;
    begins(rt, &heap, &mut radio, case);
    let place = radio.view().desk().len();
    let answer = radio.handle(input_of(rt, &heap, case.input));
    let stopped = owes_nothing(&answer);
    let asked = radio.view().desk().len().saturating_sub(place);
    assert!(rt; stopped && asked == 0, "{}: {asked}", case.input);
    Ok(())
}

#[test]
fn room_comes_before_the_first_event(rt: HostRuntime) -> Result<(), Fail> {
    for lines in ROOM_COMES_FIRST.split("\n\n") {
        for more in 0..LENGTHS {
            let case = case_of(THREE_CHANNELS, lines)?;
            asks_nothing(&rt, Case { more, ..case })?;
        }
    }
    Ok(())
}
