//! Memory is refused in each call of a book, in a rewind, which asks two runs, and in marks, which ask one.
use super::Ask::{OpenAny, Step, TakeAny};
use super::{
    ACTIVATE, Ask, COMMAND, COMPLETE, CONFIRM, RELEASED, RESERVE, STEADY, TAKE, UNDO, book_of,
    channel_at, equals_at, holds, holds_at, put_to_book, step_all,
};
use cell_table::Site;
use radio_book::book::{Book, Usage};
use radio_book::event::Event::{
    Clear, Confirm, Detect, Left, Look, Open, Order, Owner, Refuse, Released, Require, Take,
};
use radio_book::event::Kind::Incoming;
use radio_book::event::Reply::Done;
use radio_book::event::{Event, Reply};
use radio_book::marks::marks;
use radio_book::rewind::{RewindFault, rewind};
use refusing_heap::RefusingHeap;
use sample_sites::{HOME, OTHER, TARGET, THREE_CHANNELS, site_of_cells};
use std::alloc::AllocError;
use std::process::Abort;
use std::sync::Arc;
use std::test::Fail;

// What is tried of a book whose heap refuses memory.
#[derive(Clone, Copy)]
enum Trial<'a> {
    Nothing,
    // This is asked, and where memory was refused, once more. It is done.
    Answered(Ask),
    // All this is asked when no memory is left, and the book holds so much then.
    WithoutMemory(&'a [Event], Usage),
    Rewound(&'a [Event], &'a [usize]),
    Marked(&'a [Event], &'a [usize]),
    Compared,
    Copied,
}

fn reply_to(book: &mut Book<&RefusingHeap>, ask: Ask) -> Result<Option<Reply>, AllocError> {
    match put_to_book(book, ask)? {
        Some((_, reply)) => Ok(Some(reply)),
        None => Ok(None),
    }
}

// Where memory was refused, and only there, the book holds what it did, and answers the second time.
fn is_answered(
    rt: &impl Abort,
    book: &mut Book<&RefusingHeap>,
    heap: &RefusingHeap,
    ask: Ask,
) -> Result<(), AllocError> {
    let before = book.usage();
    let mut reply = reply_to(book, ask);
    let at = (ask, heap.refusals());
    equals_at(rt, reply.is_err(), heap.was_refused(), at);
    if reply.is_err() {
        equals_at(rt, book.usage(), before, at);
        reply = reply_to(book, ask);
    }
    equals_at(rt, reply, Ok(Some(Done)), at);
    Ok(())
}

fn needs_no_memory(
    rt: &impl Abort,
    book: &mut Book<&RefusingHeap>,
    heap: &RefusingHeap,
    events: &[Event],
    usage: Usage,
) -> Result<(), AllocError> {
    heap.refuse_from_now();
    step_all(book, events)?;
    equals_at(rt, heap.refused(), 0, events);
    equals_at(rt, book.usage(), usage, events);
    Ok(())
}

// Where memory was refused that is answered, or, where less did as well, what is answered with ample memory.
fn is_rewound<'a>(
    rt: &impl Abort,
    book: &Book<&'a RefusingHeap>,
    heap: &'a RefusingHeap,
    events: &[Event],
    others: &[usize],
) {
    let at = heap.refusals();
    match rewind(heap, book, events, 0) {
        Ok(rewound) => holds_at(rt, rewound.others.as_slice() == others, at),
        Err(fault) => {
            let tells_refusal = heap.was_refused() && fault == RewindFault::NoMemory;
            holds_at(rt, tells_refusal, (at, fault));
        }
    }
}

// The marks of an attempt are found, or memory was refused.
fn is_marked<'a>(
    rt: &impl Abort,
    book: &Book<&'a RefusingHeap>,
    heap: &'a RefusingHeap,
    events: &[Event],
    others: &[usize],
) {
    let at = heap.refusals();
    match marks(heap, book, events, 0) {
        Ok(found) => holds_at(rt, found.others.as_slice() == others, at),
        Err(fault) => {
            let tells_refusal = heap.was_refused() && fault == RewindFault::NoMemory;
            holds_at(rt, tells_refusal, (at, fault));
        }
    }
}

fn is_compared(
    rt: &impl Abort,
    book: &Book<&RefusingHeap>,
    heap: &RefusingHeap,
) -> Result<(), AllocError> {
    let copy = book.copy()?;
    let before = heap.requests();
    holds_at(rt, *book == copy, "a copy");
    equals_at(rt, heap.requests(), before, "no request");
    Ok(())
}

// Where memory was refused, and only there, there is no copy.
fn is_copied(rt: &impl Abort, book: &Book<&RefusingHeap>, heap: &RefusingHeap) {
    let is_same = match book.copy() {
        Ok(copy) => *book == copy,
        Err(AllocError) => false,
    };
    equals_at(rt, is_same, !heap.was_refused(), heap.refusals());
}

fn is_tried<'a>(
    rt: &impl Abort,
    book: &mut Book<&'a RefusingHeap>,
    heap: &'a RefusingHeap,
    trial: Trial<'_>,
) -> Result<(), AllocError> {
    match trial {
        Trial::Nothing => Ok(()),
        Trial::Answered(ask) => is_answered(rt, book, heap, ask),
        Trial::WithoutMemory(events, usage) => needs_no_memory(rt, book, heap, events, usage),
        Trial::Rewound(events, others) => {
            is_rewound(rt, book, heap, events, others);
            Ok(())
        }
        Trial::Marked(events, others) => {
            is_marked(rt, book, heap, events, others);
            Ok(())
        }
        Trial::Compared => is_compared(rt, book, heap),
        Trial::Copied => {
            is_copied(rt, book, heap);
            Ok(())
        }
    }
}

// What came before: so many calls have begun on the first channels of the site, and events.
#[derive(Clone, Copy)]
struct Before<'a> {
    site: &'a str,
    calls: u16,
    events: &'a [Event],
}

fn begin(book: &mut Book<&RefusingHeap>, before: Before<'_>) -> Result<(), AllocError> {
    for call in 0..before.calls {
        let call = call.wrapping_add(1);
        book.step(Open(call, channel_at(call)))?;
    }
    step_all(book, before.events)
}

#[derive(Clone, Copy)]
struct Requests {
    made: u64,
    refused: u64,
}

fn counts<'a>(
    rt: &impl Abort,
    book: &mut Book<&'a RefusingHeap>,
    heap: &'a RefusingHeap,
    before: Before<'_>,
    trial: Trial<'_>,
) -> Result<Requests, Fail> {
    begin(book, before)?;
    is_tried(rt, book, heap, trial)?;
    Ok(Requests {
        made: heap.requests(),
        refused: heap.refused(),
    })
}

// Tries it of a book on a heap that refuses the n-th request. One call while the heap and the book are owned keeps this
// cheap to prove.
fn tried_refusing(
    rt: &(impl AllocGlobal + Abort),
    n: u64,
    before: Before<'_>,
    trial: Trial<'_>,
) -> Result<Requests, Fail> {
    let heap = RefusingHeap::refusing_nth(rt.alloc(), n);
    let mut book = book_of(&heap, rt.alloc(), before.site)?;
    counts(rt, &mut book, &heap, before, trial)
}

// Tries it with each request refused in turn that comes behind what was before, until one meets no refusal: so many are at
// least there.
fn meets_each_refusal(
    rt: &(impl AllocGlobal + Abort),
    least: u64,
    before: Before<'_>,
    trial: Trial<'_>,
) -> Result<(), Fail> {
    let first = tried_refusing(rt, u64::MAX, before, Trial::Nothing)?.made;
    let mut tried = 0u64;
    for n in 1..100 {
        let requests = tried_refusing(rt, first.saturating_add(n), before, trial)?;
        if requests.refused == 0 {
            break;
        }
        tried = n;
    }
    holds_at(rt, least <= tried && tried < 99, tried);
    Ok(())
}

// What takes memory, behind so many calls, on a site of two cells with 31 channels each: the first call, and one where the
// slots of 16 are full.
type Takes = (u16, &'static [Ask]);

const TAKES: &[Takes] = &[
    (
        0,
        &[
            Step(Open(1, HOME)),
            Step(Take(1, Incoming, TARGET)),
            TakeAny(1, Incoming, 1),
            OpenAny(1, 1),
        ],
    ),
    (
        16,
        &[
            Step(Open(17, TARGET)),
            Step(Take(17, Incoming, TARGET)),
            TakeAny(17, Incoming, 1),
            OpenAny(17, 1),
        ],
    ),
];

fn each_meets_each_refusal(
    rt: &(impl AllocGlobal + Abort),
    before: Before<'_>,
    asks: &[Ask],
) -> Result<(), Fail> {
    for ask in asks {
        meets_each_refusal(rt, 1, before, Trial::Answered(*ask))?;
    }
    Ok(())
}

#[test]
fn each_refusal_of_memory_is_answered(rt: HostRuntime) -> Result<(), Fail> {
    let site = site_of_cells(rt.alloc(), 2, 4, 0)?;
    for (calls, asks) in TAKES {
        let before = Before {
            site: &site,
            calls: *calls,
            events: &[],
        };
        each_meets_each_refusal(&rt, before, *asks)?;
    }
    Ok(())
}

// Call 1 rests on the site of three channels.
const AT_REST: Before<'static> = Before {
    site: THREE_CHANNELS,
    calls: 0,
    events: STEADY,
};

// A call begins between the steps of an attempt that is undone.
const TAKEN_BACK: &[Event] = &[
    TAKE,
    RESERVE,
    ACTIVATE,
    CONFIRM,
    Open(2, OTHER),
    COMMAND,
    UNDO,
    RELEASED,
];

#[test]
fn each_refusal_of_memory_in_a_rewind_is_answered(rt: HostRuntime) -> Result<(), Fail> {
    meets_each_refusal(&rt, 3, AT_REST, Trial::Rewound(TAKEN_BACK, &[4]))
}

#[test]
fn each_refusal_of_memory_in_marks_is_answered(rt: HostRuntime) -> Result<(), Fail> {
    meets_each_refusal(&rt, 2, AT_REST, Trial::Marked(TAKEN_BACK, &[4]))
}

// Call 1 has an attempt with a reference, and call 2 has begun.
const TWO_CALLS: Before<'static> = Before {
    site: THREE_CHANNELS,
    calls: 0,
    events: &[Open(1, HOME), Open(2, OTHER), Confirm(HOME), TAKE, RESERVE],
};

// Two calls rest.
const TWO_AT_REST: Before<'static> = Before {
    site: THREE_CHANNELS,
    calls: 0,
    events: &[Open(1, HOME), Open(2, OTHER), Confirm(HOME)],
};

// That no other event than Open and an incoming Take may be refused memory is in the contract.
const TAKES_NONE: &[Event] = &[
    TAKE,
    RESERVE,
    ACTIVATE,
    CONFIRM,
    Refuse(OTHER),
    COMMAND,
    Detect(TARGET),
    UNDO,
    RELEASED,
    TAKE,
    RESERVE,
    ACTIVATE,
    CONFIRM,
    COMMAND,
    Owner(TARGET),
    COMPLETE,
    Released(HOME),
    Look(1),
    Require(1),
    Order(1),
    Left(1),
    Clear(2),
    Open(3, TARGET),
];

#[test]
fn what_takes_no_memory_succeeds_without(rt: HostRuntime) -> Result<(), Fail> {
    // the channel of call 1 is off, so call 3 is refused
    let trial = Trial::WithoutMemory(TAKES_NONE, holds(1, 0, 0, 0));
    tried_refusing(&rt, u64::MAX, TWO_AT_REST, trial)?;
    Ok(())
}

// A call begins in the room of one that is gone.
const TAKES_ROOM: &[Event] = &[Clear(2), Open(3, TARGET)];

#[test]
fn a_call_begins_in_the_room_of_another(rt: HostRuntime) -> Result<(), Fail> {
    let trial = Trial::WithoutMemory(TAKES_ROOM, holds(3, 2, 0, 0));
    tried_refusing(&rt, u64::MAX, TWO_AT_REST, trial)?;
    Ok(())
}

#[test]
fn comparing_takes_no_memory(rt: HostRuntime) -> Result<(), Fail> {
    tried_refusing(&rt, u64::MAX, TWO_CALLS, Trial::Compared)?;
    Ok(())
}

#[test]
fn each_refusal_of_memory_in_a_copy_is_answered(rt: HostRuntime) -> Result<(), Fail> {
    meets_each_refusal(&rt, 4, TWO_CALLS, Trial::Copied)
}

// A book is made of a site on a heap that refuses the n-th request: where it was refused, and only there, there is none. How
// many requests had the site?
fn requests_before<'a>(
    rt: &impl Abort,
    heap: &'a RefusingHeap,
    site: Arc<Site<&'a RefusingHeap>, &'a RefusingHeap>,
) -> u64 {
    let before = heap.requests();
    let usage = match Book::new(heap, site) {
        Ok(book) => Some(book.usage()),
        Err(AllocError) => None,
    };
    let wanted = if heap.was_refused() {
        None
    } else {
        Some(holds(0, 0, 0, 0))
    };
    equals_at(rt, usage, wanted, heap.refusals());
    before
}

fn is_made(rt: &(impl AllocGlobal + Abort), heap: &RefusingHeap) -> Result<u64, Fail> {
    let site = Site::read(heap, rt.alloc(), THREE_CHANNELS)?;
    Ok(requests_before(rt, heap, Arc::new(heap, site)?))
}

#[test]
fn each_refusal_of_memory_in_a_new_book_is_answered(rt: HostRuntime) -> Result<(), Fail> {
    let before = is_made(&rt, &RefusingHeap::ample(rt.alloc()))?;
    let mut refused = 0u64;
    for n in 1..100 {
        let heap = RefusingHeap::refusing_nth(rt.alloc(), before.saturating_add(n));
        is_made(&rt, &heap)?;
        if !heap.was_refused() {
            break;
        }
        refused = n;
    }
    holds_at(&rt, 4 <= refused && refused < 99, refused);
    Ok(())
}
