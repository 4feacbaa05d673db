//! A line for each undone attempt of a trace.
use crate::ranges::{Numbers, Ranges};
use crate::sides::{first_unmarked, is_of_two, side_text};
use cell_table::Site;
use lab_runs::run::{Sites, Status, read_sites, refuse_site};
use radio_book::book::Book;
use radio_book::event::{Event, Reply};
use radio_book::facts::facts_of;
use radio_book::rewind::{RewindFault, Rewound, rewind};
use read_traces::choices::{Texts, choices_of_trace, event_lines};
use read_traces::reading::{Told, fresh_book, refuse_line, told_entries};
use read_traces::rewound::is_same;
use remainders::{Choice, other_choices, print_difference};
use run_listeners::{LabFault, Printing};
use std::alloc::{Allocator, Global};
use std::io::Write;
use trace_entries::entries::{Entry, first_unreadable};
use trace_text::trace::{Mark, ReplyText};

/// What the trace of one controller tells, and the empty book of its site.
#[derive(Drop)]
struct ToldSide<A: Allocator> {
    mark: Mark,
    book: Book<A>,
    told: Told<A>,
    choices: Vec<Choice, A>,
}

/// Where an undone attempt opens: the line, the place among all events, and the call.
#[derive(Clone, Copy)]
struct Opening {
    line: usize,
    at: usize,
    call: u16,
}

/// Whether an event takes back the attempt of a call, and the book did.
fn is_undo_of(call: u16, event: Event, reply: Reply) -> bool {
    reply.is_accepted() && facts_of(event).undoes == Some(call)
}

/// What the book replied where the attempt of a call was taken back that opened at a place: the call's record before that.
fn undo_reply(call: u16, at: usize, events: &[Event], replies: &[Reply]) -> Option<Reply> {
    for (event, reply) in events.iter().zip(replies.iter()).skip(at) {
        if is_undo_of(call, *event, *reply) {
            return Some(*reply);
        }
    }
    None
}

/// The kind and the stage in the text of a record with an attempt, `record SERVING STATE KIND STAGE ..`.
fn kind_and_stage(record: &str) -> (&str, &str) {
    let mut words = record.split(' ').skip(3);
    (words.next().unwrap_or("-"), words.next().unwrap_or("-"))
}

/// Prints of which attempt a line is: where it opened, its call, its kind, and the stage in which it was taken back.
fn print_opening<A: Allocator + Copy, W: Write>(
    alloc: A,
    side: &ToldSide<A>,
    opening: Opening,
    rewound: &Rewound<A>,
    out: &mut W,
) -> Result<(), LabFault> {
    let Opening { line, at, call } = opening;
    let record = match undo_reply(call, at, &side.told.events, &rewound.whole_replies) {
        Some(reply) => ReplyText(reply).to_string(alloc)?,
        None => String::new(alloc),
    };
    let (kind, stage) = kind_and_stage(record.as_str());
    let mark = side.mark;
    Ok(write!(out, "{mark}line {line} call {call} {kind} {stage}")?)
}

/// Prints what stays without an attempt, and what was refused or would be chosen otherwise for its sake.
fn print_remainder<A: Allocator + Copy, W: Write>(
    alloc: A,
    side: &ToldSide<A>,
    rewound: &Rewound<A>,
    out: &mut W,
) -> Result<(), LabFault> {
    let Told { entries, events } = &side.told;
    let others = Ranges {
        entries,
        places: &rewound.others,
    };
    let settled = if rewound.settled { "yes" } else { "no" };
    write!(out, " others {others} settled {settled}")?;
    match rewound.held.and_then(|at| entries.get(at)) {
        Some(held) => write!(out, " held {}", held.line())?,
        None => write!(out, " held -")?,
    }
    let choices = other_choices(alloc, &side.book, events, &rewound.others, &side.choices)?;
    Ok(write!(out, " choices {}", Numbers(&choices))?)
}

/// Prints whether an attempt left a trace, and what differs first where it did, and ends the line; answers whether it left
/// none.
fn print_verdict<A: Allocator + Copy, W: Write>(
    alloc: A,
    side: &ToldSide<A>,
    rewound: &Rewound<A>,
    out: &mut W,
) -> Result<bool, LabFault> {
    if is_same(rewound) {
        writeln!(out, " same")?;
        return Ok(true);
    }
    let Told { entries, events } = &side.told;
    let lines = event_lines(alloc, entries)?;
    write!(out, " differs: ")?;
    print_difference(alloc, &side.book, events, &rewound.others, &lines, out)?;
    writeln!(out)?;
    Ok(false)
}

/// Prints the line of an undone attempt; answers whether it left no trace.
fn print_attempt<A: Allocator + Copy, W: Write>(
    alloc: A,
    side: &ToldSide<A>,
    opening: Opening,
    rewound: &Rewound<A>,
    out: &mut W,
) -> Result<bool, LabFault> {
    print_opening(alloc, side, opening, rewound, out)?;
    print_remainder(alloc, side, rewound, out)?;
    print_verdict(alloc, side, rewound, out)
}

/// Prints the line of the attempt that opens in an entry at a place, where it is undone later; answers whether it left no
/// trace.
fn list_entry<A: Allocator + Copy, W: Write>(
    alloc: A,
    side: &ToldSide<A>,
    entry: &Entry,
    at: usize,
    out: &mut W,
) -> Result<bool, LabFault> {
    let Some((call, _)) = facts_of(entry.event).opens else {
        return Ok(true);
    };
    let opening = Opening {
        line: entry.line(),
        at,
        call,
    };
    match rewind(alloc, &side.book, &side.told.events, at) {
        Ok(rewound) => print_attempt(alloc, side, opening, &rewound, out),
        Err(RewindFault::NoAttempt) => Ok(true),
        Err(RewindFault::NoMemory) => Err(LabFault::NoMemory),
    }
}

/// Prints the lines of a controller's undone attempts; answers whether none left a trace.
fn list_side<A: Allocator + Copy, W: Write>(
    alloc: A,
    side: &ToldSide<A>,
    out: &mut W,
) -> Result<bool, LabFault> {
    let mut is_same = true;
    for (at, entry) in side.told.entries.iter().enumerate() {
        is_same = list_entry(alloc, side, entry, at, out)? && is_same;
    }
    Ok(is_same)
}

/// What a controller's trace tells over its site; nothing if a line of it can't be read, or has another reply than the book
/// gives, and then the number of the first such was printed.
fn told_side<A: Allocator + Copy, W: Write>(
    alloc: A,
    mark: Mark,
    site: Site<A>,
    texts: Texts<'_>,
    out: &mut W,
) -> Result<Option<ToldSide<A>>, LabFault> {
    if let Some(number) = first_unreadable(texts.trace) {
        refuse_line(number, out)?;
        return Ok(None);
    }
    let book = fresh_book(alloc, site)?;
    let Some(told) = told_entries(alloc, &book, texts.trace, out)? else {
        return Ok(None);
    };
    let choices = choices_of_trace(alloc, texts, &told)?;
    Ok(Some(ToldSide {
        mark,
        book,
        told,
        choices,
    }))
}

/// How a list ended, of attempts none of which left a trace or not.
fn status_of(is_same: bool) -> Status {
    if is_same {
        Status::Done
    } else {
        Status::Differs
    }
}

/// The texts of the sites and of a trace, and memory that serves while the sites' are read.
#[derive(Clone, Copy)]
struct SidesTexts<'a> {
    scratch: Global,
    site: &'a str,
    peer: &'a str,
    trace: &'a str,
}

impl<'a> SidesTexts<'a> {
    /// Those of the first controller, of which this is the trace.
    fn first(self, trace: &'a str) -> Texts<'a> {
        Texts {
            scratch: self.scratch,
            site: self.site,
            trace,
        }
    }

    /// Those of the second one, of which this is the trace.
    fn second(self, trace: &'a str) -> Texts<'a> {
        Texts {
            scratch: self.scratch,
            site: self.peer,
            trace,
        }
    }
}

/// Lists the attempts of one controller.
fn list_one<A: Allocator + Copy, W: Write>(
    alloc: A,
    site: Site<A>,
    texts: Texts<'_>,
    out: &mut W,
) -> Result<Status, LabFault> {
    let Some(side) = told_side(alloc, Mark::Alone, site, texts, out)? else {
        return Ok(Status::Refused);
    };
    Ok(status_of(list_side(alloc, &side, out)?))
}

/// Lists the attempts of two controllers, each by itself. Both are read before anything is printed.
fn list_two<A: Allocator + Copy, W: Write>(
    alloc: A,
    site: Site<A>,
    peer: Site<A>,
    texts: SidesTexts<'_>,
    out: &mut W,
) -> Result<Status, LabFault> {
    if let Some(number) = first_unmarked(texts.trace) {
        return refuse_line(number, out);
    }
    let trace = side_text(alloc, Mark::First, texts.trace)?;
    let Some(first) = told_side(alloc, Mark::First, site, texts.first(&trace), out)? else {
        return Ok(Status::Refused);
    };
    let trace = side_text(alloc, Mark::Peer, texts.trace)?;
    let Some(second) = told_side(alloc, Mark::Peer, peer, texts.second(&trace), out)? else {
        return Ok(Status::Refused);
    };
    let is_first_same = list_side(alloc, &first, out)?;
    let is_second_same = list_side(alloc, &second, out)?;
    Ok(status_of(is_first_same && is_second_same))
}

/// Lists the attempts of a trace over sites that were read.
fn list_sides<A: Allocator + Copy, W: Write>(
    alloc: A,
    sites: Sites<A>,
    texts: SidesTexts<'_>,
    out: &mut W,
) -> Result<Status, LabFault> {
    let Sites { first, peer } = sites;
    match peer {
        Some(peer) if is_of_two(texts.trace) => list_two(alloc, first, peer, texts, out),
        Some(_) | None => list_one(alloc, first, texts.first(texts.trace), out),
    }
}

/// Takes each undone attempt out of a trace, one at a time, over a site, or over two sites for a trace of two controllers,
/// all given as texts. Prints a line for each to `out`, in the order in which they opened; those of the second controller
/// come after those of the first, each after its controller's mark.
///
/// A line has `line` and the line in which the attempt opened, counted from 1; `call` and its call; its kind, and the stage
/// in which it was undone; and then, as in [`rewind_run`](read_traces::rewound::rewind_run), `others` with the lines of the
/// other events, `settled`, `held`, `choices`, and `same` or `differs: ` and the first difference. The answer is `Differs`
/// if one differs, else `Done`.
///
/// What `rewind_run` refuses is refused here, with the same line, and nothing else is printed. A trace of two controllers is
/// also refused if there is no second site, or if a line of one of them has no mark. `scratch` serves while the sites are
/// read, `alloc` for all else. Once memory was refused (`NoMemory`), or `out` can't be written to (`Write`), nothing more is
/// printed.
pub fn list_run<A: Allocator + Copy, W: Write>(
    alloc: A,
    scratch: Global,
    site: &str,
    peer: Option<&str>,
    trace: &str,
    out: &mut W,
) -> Result<Status, LabFault> {
    let texts = SidesTexts {
        scratch,
        site,
        peer: peer.unwrap_or(""),
        trace,
    };
    match read_sites(alloc, scratch, site, peer) {
        Ok(sites) => list_sides(alloc, sites, texts, out),
        Err(fault) => refuse_site::<A, _>(fault, &mut Printing::new(out)),
    }
}
