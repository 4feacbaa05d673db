//! Progress on the terminal that shows the output.
use crate::tally::{Counted, Tally, erase};
use std::io::{self, Write};

/// Passes octets on to `out`, which shows them on a terminal, as they are, and says on `terminal`, which is the same, how
/// many lines of them counted: below what was shown, wherever its last line has ended. That is taken off the terminal before
/// more is shown, and said again behind it.
///
/// `out` has to show a line by the time that it takes its end, as a `LineWriter` does; else the two come in another order.
/// What can't be said is left out: it fails nothing.
#[derive(Drop)]
pub struct Erasing<W, E> {
    out: W,
    terminal: E,
    tally: Tally,
    /// The number stands on the terminal.
    is_said: bool,
}

impl<W: Write + Drop, E: Write + Drop> Erasing<W, E> {
    ghost use Rattle.std.specs.Prelude.{◌≡◌, ◌≢◌, [], false};
    ghost use Rattle.screen_text.specs.Lines.{at_begin};
    ghost use Rattle.screen_text.specs.Erasing.{out_of, terminal_of, counted_of, stand_of, is_said};

    /// A writer to `out` that says on `terminal` how many lines counted. None did yet, and nothing is said.
    pub fn new(out: W, terminal: E, counted: Counted) -> Erasing<W, E>
        ensures out { out_of result ≡ out }
        ensures terminal { terminal_of result ≡ terminal }
        ensures counted { counted_of result ≡ counted }
        ensures stand { stand_of result ≡ at_begin }
        ensures said { is_said result ≡ false }
    {
        Erasing {
            out,
            terminal,
            tally: Tally::new(counted),
            is_said: false,
        }
    }

    /// Takes what was said off the terminal.
    fn clear(&mut self)
        ensures out { out_of self.new ≡ out_of self.old }
        ensures counted { counted_of self.new ≡ counted_of self.old }
        ensures stand { stand_of self.new ≡ stand_of self.old }
        ensures said { is_said self.new ≡ false }
        ensures quiet { is_said self.old ≡ false → terminal_of self.new ≡ terminal_of self.old }
    {
        if self.is_said {
            erase(&mut self.terminal);
            self.is_said = false;
        }
    }

    /// Says the number where the last line that was shown has ended.
    fn say(&mut self)
        ensures out { out_of self.new ≡ out_of self.old }
        ensures counted { counted_of self.new ≡ counted_of self.old }
        ensures stand { stand_of self.new ≡ stand_of self.old }
        ensures quiet { (stand_of self.old).begun ≢ [] →
            (terminal_of self.new ≡ terminal_of self.old) × (is_said self.new ≡ is_said self.old) }
    {
        if self.tally.is_at_line_begin() {
            self.tally.say(&mut self.terminal);
            self.is_said = true;
        }
    }

    /// Takes what was said off the terminal, and gives back what octets were passed on to.
    pub fn finish(mut self) -> W
        ensures { result ≡ out_of self }
    {
        self.clear();
        let Erasing {
            out,
            terminal: _,
            tally: _,
            is_said: _,
        } = self;
        out
    }
}

impl<W: Write + Drop, E: Write + Drop> Write for Erasing<W, E> {
    ghost use Rattle.std.specs.Prelude.{◌≡◌, ◌≢◌, take, IfOk, OnErr, [], false};
    ghost use Rattle.std.specs.Io.{WritesAtMost};
    ghost use Rattle.std.specs.Io.KnownBytes.{Keeps, WriteAppends};
    ghost use Rattle.screen_text.specs.Lines.{with_text};
    ghost use Rattle.screen_text.specs.Erasing.{out_of, terminal_of, counted_of, stand_of, is_said};

    ghost contents = { λ e. W.contents (out_of e) };

    /// Passes on as many octets as `out` takes of them.
    fn write(&mut self, octets: &[u8]) -> io::Result<usize>
        ensures bound { WritesAtMost result octets.now }
        ensures bytes { WriteAppends (W.contents (out_of self.old)) (W.contents (out_of self.new))
            result octets.now }
        ensures counted { counted_of self.new ≡ counted_of self.old }
        ensures stand { IfOk result (λ n.
            stand_of self.new ≡ with_text (counted_of self.old) (stand_of self.old) (take n octets.now)) }
        ensures err { OnErr result (stand_of self.new ≡ stand_of self.old) }
        // behind a part of a line nothing is said
        ensures within { (stand_of self.new).begun ≢ [] → is_said self.new ≡ false }
        ensures quiet { is_said self.old ≡ false → (stand_of self.new).begun ≢ [] →
            terminal_of self.new ≡ terminal_of self.old }
    {
        self.clear();
        let passed = self.out.write(octets)?;
        self.tally.pass_all(&octets[..passed]);
        self.say();
        Ok(passed)
    }

    fn flush(&mut self) -> io::Result<()>
        ensures bytes { Keeps (W.contents (out_of self.old)) (W.contents (out_of self.new)) }
        ensures counted { counted_of self.new ≡ counted_of self.old }
        ensures stand { stand_of self.new ≡ stand_of self.old }
        ensures said { is_said self.new ≡ is_said self.old }
        ensures quiet { terminal_of self.new ≡ terminal_of self.old }
    {
        self.out.flush()
    }
}
