//! Messages in the lines of a file, where memory is refused, a read or a write fails. What is said of them,
//! `tests/commands/octet_lines.t` shows.
use super::{Fail, RefusingHeap, equals_at, holds_at};
use decoded_lines::{Asked, Detail, LinesFault, answer_file, answer_lines};
use std::io::{self, Write};
use std::process::Abort;
use std::str;

/// Each message with its own link, and no more than its fields.
const FIELDS: Asked = Asked {
    link: None,
    detail: Detail::Fields,
};

/// A reader that gives a line, and fails behind it.
#[derive(Drop)]
struct Broken<'a>(&'a [u8]);

impl io::Read for Broken<'_> {
    fn read(&mut self, buf: &mut [u8]) -> io::Result<usize> {
        if self.0.is_empty() {
            return Err(io::Error::from(io::ErrorKind::TimedOut));
        }
        self.0.read(buf)
    }
}

#[test]
fn a_reader_that_breaks_off(rt: HostRuntime) -> Result<(), Fail> {
    let mut out = Vec::new(rt.alloc());
    let mut errors = Vec::new(rt.alloc());
    let input = Broken(b"rr 062c00\nrr 06");
    let ended = answer_file(&rt, FIELDS, "-", input, &mut out, &mut errors);
    let (text, said) = (str::from_utf8(&out)?, str::from_utf8(&errors)?);
    let wanted = "1 HANDOVER COMPLETE cause=0\nfile -\n";
    equals_at(&rt, (ended, text), (Ok(false), wanted), said);
    holds_at(&rt, said.starts_with("-: "), said);
    Ok(())
}

/// A writer whose write after so many fails.
#[derive(Drop)]
struct Failing {
    before: u64,
    failed: bool,
}

impl Write for Failing {
    fn write(&mut self, octets: &[u8]) -> io::Result<usize> {
        if self.before == 0 {
            self.failed = true;
            return Err(io::Error::from(io::ErrorKind::Other));
        }
        self.before = self.before.saturating_sub(1);
        Ok(octets.len())
    }

    fn flush(&mut self) -> io::Result<()> {
        Ok(())
    }
}

/// Lines with each kind of answer.
const EACH_KIND: &[u8] =
    b"abis 082e010b0401 # note\nrr 0\nrr 06ff\nx\na 0003211b1b\nabis 0301010b02000b0004062c0077\n";

/// Each message with its own link, and all that is said of it.
const ALL: Asked = Asked {
    link: None,
    detail: Detail::All,
};

/// Whether the answers met no failing write, where the n-th fails.
fn writes_all(rt: &(impl Abort + AllocGlobal), before: u64) -> bool {
    let mut out = Failing {
        before,
        failed: false,
    };
    let mut reader = EACH_KIND;
    let ended = answer_lines(rt.alloc(), ALL, &mut reader, &mut out);
    let same = match ended {
        Ok(_) => !out.failed,
        Err(LinesFault::Write) => out.failed,
        Err(LinesFault::NoMemory) | Err(LinesFault::Read(_)) => false,
    };
    holds_at(rt, same, before);
    !out.failed
}

#[test]
fn each_write_fails(rt: HostRuntime) -> Result<(), Fail> {
    for before in 0..200 {
        if writes_all(&rt, before) {
            holds_at(&rt, 10 <= before, (before, "writes"));
            return Ok(());
        }
    }
    Err(Fail::from("two hundred writes"))
}

/// Lines whose octets, and a message's list, take memory.
const WITH_LISTS: &[u8] =
    b"abis 03 01 01 0b 02 00 0b 00 03 06 2c 00\na 000c1104010c1b1a050100170066\nrr 062c00\n";

/// Whether these lines were refused no memory, where the n-th request is refused.
fn has_memory(rt: &(impl Abort + AllocGlobal), number: u64) -> bool {
    let heap = RefusingHeap::refusing_nth(rt.alloc(), number);
    let mut out = Failing {
        before: u64::MAX,
        failed: false,
    };
    let mut reader = WITH_LISTS;
    let ended = answer_lines(&heap, ALL, &mut reader, &mut out);
    let same = match ended {
        Ok(_) => !heap.was_refused(),
        Err(LinesFault::NoMemory) => heap.was_refused(),
        Err(LinesFault::Write) | Err(LinesFault::Read(_)) => false,
    };
    holds_at(rt, same, ("request", number));
    !heap.was_refused()
}

#[test]
fn each_request_for_memory_is_refused(rt: HostRuntime) -> Result<(), Fail> {
    for number in 1..200 {
        if has_memory(&rt, number) {
            holds_at(&rt, 3 <= number, (number, "requests"));
            return Ok(());
        }
    }
    Err(Fail::from("two hundred requests"))
}
