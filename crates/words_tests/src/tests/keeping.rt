//! Why a write failed is kept.
use super::{Fail, equals_at, holds_at};
use screen_text::Keeping;
use std::io::{self, BufWriter, ErrorKind, Write};

/// A writer that answers each call by the next of these: it takes all, or has an error of this kind. Behind them it takes all.
#[derive(Drop)]
struct Answers<'a> {
    left: &'a [Option<ErrorKind>],
}

impl Answers<'_> {
    /// The next answer.
    fn next(&mut self) -> io::Result<()> {
        let Some((answer, left)) = self.left.split_first() else {
            return Ok(());
        };
        self.left = left;
        match answer {
            Some(kind) => Err(io::Error::from(*kind)),
            None => Ok(()),
        }
    }
}

impl Write for Answers<'_> {
    fn write(&mut self, octets: &[u8]) -> io::Result<usize> {
        self.next()?;
        Ok(octets.len())
    }

    fn flush(&mut self) -> io::Result<()> {
        self.next()
    }
}

/// What a writer answers to writes and flushes in turn, and the kind of the error that is kept.
const KEPT: &[(&[Option<ErrorKind>], Option<ErrorKind>)] = &[
    (&[None, None], None),
    (
        &[
            None,
            Some(ErrorKind::BrokenPipe),
            Some(ErrorKind::StorageFull),
        ],
        Some(ErrorKind::BrokenPipe),
    ),
    (
        &[Some(ErrorKind::Interrupted), Some(ErrorKind::StorageFull)],
        Some(ErrorKind::StorageFull),
    ),
];

/// Writes and flushes in turn, until all answers are used. That a call fails ends nothing here.
fn call_all(keeping: &mut Keeping<Answers<'_>>) {
    for _ in 0..4 {
        let _ = keeping.write(b"ok 1\n");
        let _ = keeping.flush();
    }
}

#[test]
fn the_first_error_is_kept(rt: HostRuntime) {
    for (answers, wanted) in KEPT {
        let mut keeping = Keeping::new(Answers { left: *answers });
        call_all(&mut keeping);
        let kept = keeping.error().map(|error| error.kind());
        equals_at(&rt, kept, *wanted, answers);
    }
}

#[test]
fn an_error_in_the_middle_is_kept_where_the_end_can_be_written(
    rt: HostRuntime,
) -> Result<(), Fail> {
    // the buffer is full at the third line, which its writer has no room for; later it has
    let full = &[Some(ErrorKind::StorageFull)];
    let buffered = BufWriter::with_capacity(
        rt.alloc(),
        12,
        Answers {
            left: full.as_slice(),
        },
    )?;
    let mut keeping = Keeping::new(buffered);
    let mut failed = 0;
    for _ in 0..3 {
        if keeping.write_all(b"ok 1\n").is_err() {
            failed = 1;
        }
    }
    holds_at(&rt, failed == 1 && keeping.flush().is_ok(), "the end");
    let kept = keeping.error().map(|error| error.kind());
    equals_at(&rt, kept, Some(ErrorKind::StorageFull), "kept");
    Ok(())
}
