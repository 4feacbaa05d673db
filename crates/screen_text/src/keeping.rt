//! The first error of a writer.
use std::io::{self, ErrorKind, Write};

/// Passes octets on to `out` as they are, and keeps the first error that it answers, so that whoever wrote through others
/// can say at the end why that failed. A call that was only interrupted isn't kept: it is tried again.
#[derive(Drop)]
pub struct Keeping<W> {
    out: W,
    error: Option<io::Error>,
}

impl<W: Write> Keeping<W> {
    ghost use Rattle.std.specs.Prelude.{◌≡◌, None, option_map};
    ghost use Rattle.screen_text.specs.Keeping.{out_of, error_of, IsKept};

    /// A writer to `out`, which hasn't failed yet.
    pub fn new(out: W) -> Keeping<W>
        ensures out { out_of result ≡ out }
        ensures error { error_of result ≡ None }
    {
        Keeping { out, error: None }
    }

    /// The first error that was answered.
    pub fn error(&self) -> Option<&io::Error>
        ensures { option_map (λ error. error.now) result ≡ error_of self.now }
    {
        self.error.as_ref()
    }

    /// Keeps an error, if it is the first.
    fn keep(&mut self, error: &io::Error)
        ensures out { out_of self.new ≡ out_of self.old }
        ensures kept { IsKept error.now (error_of self.old) (error_of self.new) }
    {
        if self.error.is_none() && error.kind() != ErrorKind::Interrupted {
            self.error = Some(*error);
        }
    }
}

impl<W: Write> Write for Keeping<W> {
    ghost use Rattle.std.specs.Prelude.{◌≡◌, OnOk, IfErr};
    ghost use Rattle.std.specs.Io.{WritesAtMost};
    ghost use Rattle.std.specs.Io.KnownBytes.{Appends, Keeps, WriteAppends};
    ghost use Rattle.screen_text.specs.Keeping.{out_of, error_of, IsKept};

    ghost contents = { λ k. W.contents (out_of k) };

    /// Passes on as many octets as `out` takes of them.
    fn write(&mut self, octets: &[u8]) -> io::Result<usize>
        ensures bound { WritesAtMost result octets.now }
        ensures bytes { WriteAppends (W.contents (out_of self.old)) (W.contents (out_of self.new))
            result octets.now }
        ensures ok { OnOk result (error_of self.new ≡ error_of self.old) }
        ensures err { IfErr result (λ error. IsKept error (error_of self.old) (error_of self.new)) }
    {
        match self.out.write(octets) {
            Ok(passed) => Ok(passed),
            Err(error) => {
                self.keep(&error);
                Err(error)
            }
        }
    }

    /// Passes all octets on at once, as `out` does it: a trace is written in many small pieces.
    #[inline(always)]
    fn write_all(&mut self, octets: &[u8]) -> io::Result<()>
        ensures bytes { OnOk result (Appends (W.contents (out_of self.old))
            (W.contents (out_of self.new)) octets.now) }
        ensures ok { OnOk result (error_of self.new ≡ error_of self.old) }
        ensures err { IfErr result (λ error. IsKept error (error_of self.old) (error_of self.new)) }
    {
        match self.out.write_all(octets) {
            Ok(()) => Ok(()),
            Err(error) => {
                self.keep(&error);
                Err(error)
            }
        }
    }

    fn flush(&mut self) -> io::Result<()>
        ensures bytes { Keeps (W.contents (out_of self.old)) (W.contents (out_of self.new)) }
        ensures ok { OnOk result (error_of self.new ≡ error_of self.old) }
        ensures err { IfErr result (λ error. IsKept error (error_of self.old) (error_of self.new)) }
    {
        match self.out.flush() {
            Ok(()) => Ok(()),
            Err(error) => {
                self.keep(&error);
                Err(error)
            }
        }
    }
}
