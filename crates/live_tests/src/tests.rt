//! What no clause says, and no command line shows: what is printed where memory is refused, at each request in turn, and what
//! comes of a reader that fails and of one that gives little at a time.
mod viewed;

use cell_table::Site;
use live_runs::{LiveFault, Rules, live_run};
use radio_book::book::Book;
use refusing_heap::RefusingHeap;
use run_listeners::LivePrinting;
use sample_sites::THREE_CHANNELS as SITE;
use std::alloc::{AllocError, Global};
use std::io::{self, BufReader, ErrorKind, Read};
use std::process::Abort;
use std::str;
use std::sync::Arc;
use std::test::Fail;

/// Lines of a handover, and what they print.
const LINES: &str = "open 1 0 0 3
abis 0 0 0822010b081234
frobnicate
handover 1 1
undo 1";

const TRACE: &str = "in open 1 0 0 3
event open 1 0/0/3 -> done
out abis 0 0 0821010b0300060400010801
in abis 0 0 0822010b081234
event confirm 0/0/3 -> owned 1
event look 1 -> record 0/0/3 on
line 3
in handover 1 1
event look 1 -> record 0/0/3 on
event take 1 internal 1/1/3 -> done
event reserve 1 0 -> done
event activate 1 -> done
out abis 1 1 0821010b03020604000108010900
in undo 1
event undo 1 asked -> record 0/0/3 on internal sent 1/1/3 0
out abis 1 1 082e010b
end channels=2 calls=1 references=0 timers=0
";

/// This is so.
fn holds(rt: &impl Abort, is_so: bool, what: &str) {
    assert!(rt; is_so, "{what}");
}

/// How many lines two texts have in common at their fronts.
fn common_lines(one: &str, other: &str) -> usize {
    one.lines()
        .zip(other.lines())
        .take_while(|(one, other)| *one == *other)
        .count()
}

/// Whether what was printed is a front of the trace; or one that ends in front of a line's messages, and then some of those.
/// Answers how many such messages there are.
fn owed_in(rt: &impl Abort, printed: &str) -> usize {
    let same = common_lines(printed, TRACE);
    let mut owed = TRACE
        .lines()
        .skip(same)
        .filter(|line| line.starts_with("out "));
    let mut count = 0usize;
    for line in printed.lines().skip(same) {
        holds(rt, owed.next() == Some(line), printed);
        count = count.saturating_add(1);
    }
    count
}

/// How lines are taken here: the desk begins anew soon.
const RULES: Rules = Rules {
    first: 1,
    entries: 3,
    sims: true,
};

/// The empty book of the site.
fn fresh_book<'a>(
    heap: &'a RefusingHeap,
    alloc: Global,
) -> Result<Book<&'a RefusingHeap>, LiveFault> {
    match Site::read(heap, alloc, SITE) {
        Ok(site) => {
            let site = Arc::new(heap, site).map_err(AllocError::from)?;
            Ok(Book::new(heap, site)?)
        }
        Err(_) => Err(LiveFault::NoMemory),
    }
}

/// Runs the lines over a heap; how that ended, and what it printed.
fn run_over(
    alloc: Global,
    heap: &RefusingHeap,
) -> Result<(Result<(), LiveFault>, Vec<u8>), AllocError> {
    let mut out = Vec::new(alloc);
    let book = match fresh_book(heap, alloc) {
        Ok(book) => book,
        Err(fault) => return Ok((Err(fault), out)),
    };
    let mut input = LINES.as_bytes();
    let ended = live_run(
        heap,
        book,
        RULES,
        &mut input,
        &mut LivePrinting::new(&mut out),
        &mut io::sink(),
    );
    Ok((ended, out))
}

/// Whether the lines are run over a heap that refuses this request without meeting that; and how many messages were owed.
fn runs_without(rt: &impl Abort, alloc: Global, n: u64) -> Result<(bool, usize), Fail> {
    let heap = RefusingHeap::refusing_nth(alloc, n);
    let (ended, out) = run_over(alloc, &heap)?;
    let printed = str::from_utf8(&out)?;
    let owed = owed_in(rt, printed);
    match ended {
        Ok(()) => {
            holds(rt, !heap.was_refused(), printed);
            holds(rt, printed == TRACE, printed);
            Ok((true, owed))
        }
        Err(LiveFault::NoMemory) => {
            holds(rt, heap.was_refused(), printed);
            Ok((false, owed))
        }
        Err(_) => Err(Fail::from("it fails otherwise")),
    }
}

/// At each request that is refused, in turn, the trace up to a line is printed, and then what the controller owes; and it owes
/// something at some.
#[test]
fn each_request_for_memory_is_refused(rt: HostRuntime) -> Result<(), Fail> {
    let mut tried = 0u64;
    let mut owing = 0usize;
    for n in 1..1000 {
        let (is_done, owed) = runs_without(&rt, rt.alloc(), n)?;
        if is_done {
            break;
        }
        tried = n;
        owing = owing.max(owed);
    }
    holds(&rt, 10 < tried && tried < 999, "requests");
    holds(&rt, 0 < owing, "nothing is ever owed");
    Ok(())
}

/// A reader that gives so many octets at a time, and at the end fails or ends.
#[derive(Drop)]
struct Piecewise<'a> {
    octets: &'a [u8],
    piece: usize,
    fails: bool,
}

impl Read for Piecewise<'_> {
    fn read(&mut self, buf: &mut [u8]) -> io::Result<usize> {
        let count = self.piece.min(self.octets.len()).min(buf.len());
        if count == 0 && self.fails {
            return Err(io::Error::from(ErrorKind::ConnectionReset));
        }
        let (front, rest) = self.octets.split_at(count);
        buf[..count].copy_from_slice(front);
        self.octets = rest;
        Ok(count)
    }
}

/// Runs the lines as a reader gives them; how that ended, and what it printed.
fn run_by(alloc: Global, reader: Piecewise<'_>) -> Result<(Result<(), LiveFault>, Vec<u8>), Fail> {
    let site = match Site::read(alloc, alloc, SITE) {
        Ok(site) => site,
        Err(_) => return Err(Fail::from("no site")),
    };
    let book = Book::new(alloc, Arc::new(alloc, site)?)?;
    let mut out = Vec::new(alloc);
    let mut reader = BufReader::with_capacity(alloc, 7, reader)?;
    let ended = live_run(
        alloc,
        book,
        RULES,
        &mut reader,
        &mut LivePrinting::new(&mut out),
        &mut io::sink(),
    );
    Ok((ended, out))
}

/// Lines come in pieces of any length.
#[test]
fn lines_come_in_pieces(rt: HostRuntime) -> Result<(), Fail> {
    for piece in 1..9 {
        let reader = Piecewise {
            octets: LINES.as_bytes(),
            piece,
            fails: false,
        };
        let (ended, out) = run_by(rt.alloc(), reader)?;
        holds(&rt, ended.is_ok(), "it ends");
        holds(&rt, str::from_utf8(&out)? == TRACE, "the trace");
    }
    Ok(())
}

/// A reader fails within a line: what came before is handled, and why it failed is answered.
#[test]
fn a_failing_read_is_told(rt: HostRuntime) -> Result<(), Fail> {
    let reader = Piecewise {
        octets: LINES.as_bytes(),
        piece: 5,
        fails: true,
    };
    let (ended, out) = run_by(rt.alloc(), reader)?;
    match ended {
        Err(LiveFault::Read(error)) => {
            holds(&rt, error.kind() == ErrorKind::ConnectionReset, "the error")
        }
        _ => holds(&rt, false, "no error"),
    }
    let printed = str::from_utf8(&out)?;
    let whole = TRACE.find("in undo 1").unwrap_or(0);
    holds(
        &rt,
        printed.len() == whole && TRACE.starts_with(printed),
        printed,
    );
    Ok(())
}
