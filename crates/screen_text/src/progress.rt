//! Progress on a terminal of its own.
ghost use Rattle.std.specs.Prelude.{◌≡◌, ◌<◌, ◌/◌};
ghost use Rattle.screen_text.specs.Lines.{with_text, at_begin};

use crate::tally::{Counted, Tally, erase};
use std::io::{self, Write};

/// Passes octets on to `out` as they are, and says on `terminal` how many lines of them counted, each `step` such lines: in
/// one line of the terminal, in place of what was said there before. The cursor stands at the line's begin then, so that
/// what is written to the terminal next stands in its place.
///
/// What can't be written to the terminal is left out: it fails nothing.
#[derive(Drop)]
pub struct Progress<W, E> {
    out: W,
    terminal: E,
    /// How many lines make a step: at least 1.
    step: u64,
    tally: Tally,
    ghost stepping: { 0 < step },
}

impl<W: Write + Drop, E: Write + Drop> Progress<W, E> {
    ghost use Rattle.screen_text.specs.Progress.{out_of, terminal_of, counted_of, stand_of, step_of};

    /// A writer to `out` that says on `terminal` each `step` lines how many counted. None did yet, and nothing is said.
    pub fn new(out: W, terminal: E, counted: Counted, step: u64) -> Progress<W, E>
        requires { 0 < step }
        ensures out { out_of result ≡ out }
        ensures terminal { terminal_of result ≡ terminal }
        ensures counted { counted_of result ≡ counted }
        ensures step { step_of result ≡ step }
        ensures stand { stand_of result ≡ at_begin }
    {
        Progress {
            out,
            terminal,
            step,
            tally: Tally::new(counted),
        }
    }

    /// Counts the lines of octets that passed, and says the number where that ends a step.
    fn count(&mut self, octets: &[u8])
        ensures out { out_of self.new ≡ out_of self.old }
        ensures counted { counted_of self.new ≡ counted_of self.old }
        ensures step { step_of self.new ≡ step_of self.old }
        ensures stand { stand_of self.new ≡ with_text (counted_of self.old) (stand_of self.old) octets.now }
        ensures quiet { (stand_of self.new).number / step_of self.old ≡ (stand_of self.old).number / step_of self.old →
            terminal_of self.new ≡ terminal_of self.old }
    {
        let steps = self.tally.number() / self.step;
        self.tally.pass_all(octets);
        if self.tally.number() / self.step > steps {
            self.tally.say(&mut self.terminal);
        }
    }

    /// Takes what was said off the terminal, and gives back what octets were passed on to.
    pub fn finish(self) -> W
        ensures { result ≡ out_of self }
    {
        let Progress {
            out,
            mut terminal,
            step: _,
            tally: _,
        } = self;
        erase(&mut terminal);
        out
    }
}

impl<W: Write + Drop, E: Write + Drop> Write for Progress<W, E> {
    ghost use Rattle.std.specs.Prelude.{◌≡◌, ◌/◌, take, IfOk, OnErr};
    ghost use Rattle.std.specs.Io.{WritesAtMost};
    ghost use Rattle.std.specs.Io.KnownBytes.{Keeps, WriteAppends};
    ghost use Rattle.screen_text.specs.Lines.{with_text};
    ghost use Rattle.screen_text.specs.Progress.{out_of, terminal_of, counted_of, stand_of, step_of};

    ghost contents = { λ p. W.contents (out_of p) };

    /// Passes on as many octets as `out` takes of them.
    fn write(&mut self, octets: &[u8]) -> io::Result<usize>
        ensures bound { WritesAtMost result octets.now }
        ensures bytes { WriteAppends (W.contents (out_of self.old)) (W.contents (out_of self.new))
            result octets.now }
        ensures counted { counted_of self.new ≡ counted_of self.old }
        ensures step { step_of self.new ≡ step_of self.old }
        ensures stand { IfOk result (λ n.
            stand_of self.new ≡ with_text (counted_of self.old) (stand_of self.old) (take n octets.now)) }
        ensures err { OnErr result (stand_of self.new ≡ stand_of self.old) }
        ensures quiet { (stand_of self.new).number / step_of self.old ≡ (stand_of self.old).number / step_of self.old →
            terminal_of self.new ≡ terminal_of self.old }
    {
        let passed = self.out.write(octets)?;
        self.count(&octets[..passed]);
        Ok(passed)
    }

    fn flush(&mut self) -> io::Result<()>
        ensures bytes { Keeps (W.contents (out_of self.old)) (W.contents (out_of self.new)) }
        ensures counted { counted_of self.new ≡ counted_of self.old }
        ensures step { step_of self.new ≡ step_of self.old }
        ensures stand { stand_of self.new ≡ stand_of self.old }
        ensures quiet { terminal_of self.new ≡ terminal_of self.old }
    {
        self.out.flush()
    }
}
