//! How many lines passed is said on a terminal.
use super::{Fail, equals_at, holds_at};
use screen_text::{Counted, Erasing, Progress};
use std::alloc::Allocator;
use std::cell::RefCell;
use std::io::{self, LineWriter, Write};

/// A writer that takes nothing.
#[derive(Drop)]
struct Closed;

impl Write for Closed {
    fn write(&mut self, _octets: &[u8]) -> io::Result<usize> {
        Err(io::Error::from(io::ErrorKind::BrokenPipe))
    }

    fn flush(&mut self) -> io::Result<()> {
        Err(io::Error::from(io::ErrorKind::BrokenPipe))
    }
}

/// What is written piece by piece.
const PIECES: &[&[u8]] = &[
    b"1..3\n",
    b"",
    b"ok",
    b" 1 - b\nnot ok 2 - c\n# o",
    b"k 9\n",
    b"not okay\nok\n\xff\x00\n",
    b"\n",
    b"not ok",
    b" 3 - d\nok 4",
];

/// All of it.
const WHOLE: &[u8] =
    b"1..3\nok 1 - b\nnot ok 2 - c\n# ok 9\nnot okay\nok\n\xff\x00\n\nnot ok 3 - d\nok 4";

/// What is counted, in steps of so many, and what is said on the terminal while that is written, and once the work ended.
const SAID: &[(Counted, u64, &[u8])] = &[
    (
        Counted::Lines,
        2,
        b"\r\x1b[Klines: 3\r\r\x1b[Klines: 4\r\r\x1b[Klines: 7\r\r\x1b[Klines: 8\r\r\x1b[K",
    ),
    (Counted::Lines, 10_000, b"\r\x1b[K"),
    (
        Counted::Scripts,
        1,
        b"\r\x1b[Kscripts: 2\r\r\x1b[Kscripts: 3\r\r\x1b[K",
    ),
];

/// Writes the pieces, with steps of this many, and ends the work.
fn write_pieces<W: Write + Drop, E: Write + Drop>(
    out: W,
    terminal: E,
    counted: Counted,
    step: u64,
) -> io::Result<W> {
    let mut progress = Progress::new(out, terminal, counted, step.max(1));
    for piece in PIECES {
        progress.write_all(*piece)?;
    }
    progress.flush()?;
    Ok(progress.finish())
}

#[test]
fn octets_pass_and_steps_are_said(rt: HostRuntime) -> Result<(), Fail> {
    for (counted, step, said) in SAID {
        let mut terminal = Vec::new(rt.alloc());
        let out = write_pieces(Vec::new(rt.alloc()), &mut terminal, *counted, *step)?;
        holds_at(&rt, out.as_slice() == WHOLE, counted);
        equals_at(&rt, terminal.as_slice(), *said, step);
    }
    Ok(())
}

#[test]
fn a_closed_terminal_fails_nothing(rt: HostRuntime) -> Result<(), Fail> {
    let out = write_pieces(Vec::new(rt.alloc()), Closed, Counted::Lines, 1)?;
    holds_at(&rt, out.as_slice() == WHOLE, "closed");
    Ok(())
}

#[test]
fn a_closed_writer_fails(rt: HostRuntime) {
    let mut terminal = Vec::new(rt.alloc());
    let mut progress = Progress::new(Closed, &mut terminal, Counted::Lines, 1);
    let written = progress.write(b"ok 1\n");
    let is_closed = written.is_err_and(|error| error.kind() == io::ErrorKind::BrokenPipe);
    holds_at(&rt, is_closed && progress.flush().is_err(), "closed");
    let Closed = progress.finish();
}

/// A terminal, which keeps all that two writers write to it.
struct Screen<'a, A: Allocator>(&'a RefCell<Vec<u8, A>>);

impl<A: Allocator> Drop for Screen<'_, A> {
    fn drop(self) {
        let Screen(_) = self;
    }
}

impl<A: Allocator> Write for Screen<'_, A> {
    fn write(&mut self, octets: &[u8]) -> io::Result<usize> {
        self.0.try_borrow_mut()?.extend_from_slice(octets)?;
        Ok(octets.len())
    }

    fn flush(&mut self) -> io::Result<()> {
        Ok(())
    }
}

/// What is counted, what is written piece by piece, and all that comes to the terminal. What is said is written there behind
/// each line, and taken off before the next.
const SHOWN: &[(Counted, &[&[u8]], &[u8])] = &[
    (
        Counted::Lines,
        &[b"a\nb\n", b"c", b"\n", b"d"],
        b"a\nb\n\r\x1b[Klines: 2\r\r\x1b[Kc\n\r\x1b[Klines: 3\r\r\x1b[Kd",
    ),
    (
        Counted::Scripts,
        &[b"1..2\n", b"ok ", b"1 - a\n", b"not ok 2 - b\n# line 3\n"],
        b"1..2\n\r\x1b[Kscripts: 0\r\r\x1b[Kok 1 - a\n\r\x1b[Kscripts: 1\r\r\x1b[Knot ok 2 - b\n# line 3\n\r\x1b[Kscripts: 2\r\r\x1b[K",
    ),
];

/// Writes the pieces to a terminal, and says there how many lines of them counted.
fn show<W: Write + Drop, E: Write + Drop>(
    out: W,
    terminal: E,
    counted: Counted,
    pieces: &[&[u8]],
) -> io::Result<()> {
    let mut erasing = Erasing::new(out, terminal, counted);
    for piece in pieces {
        erasing.write_all(*piece)?;
    }
    erasing.finish().flush()
}

#[test]
fn what_is_said_is_erased_and_said_again(rt: HostRuntime) -> Result<(), Fail> {
    for (counted, pieces, shown) in SHOWN {
        let screen = RefCell::new(Vec::new(rt.alloc()));
        let lines = LineWriter::new(rt.alloc(), Screen(&screen))?;
        show(lines, Screen(&screen), *counted, *pieces)?;
        let came = screen.into_inner();
        equals_at(&rt, came.as_slice(), *shown, counted);
    }
    Ok(())
}
