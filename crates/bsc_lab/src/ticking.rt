//! How far a storm is, on a terminal.
use lab::storm::{Reached, Watch};
use std::io::Write;
use std::time::{Clock, Duration, Instant};

/// After so many seconds, and then each time as many again, a storm says how far it is.
const PERIOD: u64 = 1;

/// Says on a terminal each second how far a storm is: in one line, in place of what was said there before. A storm that
/// takes less says nothing. What can't be written is left out, and where the clock can't be read, nothing is said.
#[derive(Drop)]
pub struct Ticking<'a, C: Clock, T: Write> {
    clock: &'a C,
    terminal: T,
    /// When it was said last, or when it began.
    last: Option<Instant>,
    /// The numbers stand on the terminal.
    is_said: bool,
}

impl<'a, C: Clock, T: Write> Ticking<'a, C, T> {
    /// One that begins now.
    pub fn new(clock: &'a C, terminal: T) -> Ticking<'a, C, T> {
        Ticking {
            clock,
            terminal,
            last: Instant::now(clock).ok(),
            is_said: false,
        }
    }

    /// Whether it is time to say the numbers.
    fn is_due(&self) -> bool {
        let Some(last) = self.last else {
            return false;
        };
        match last.elapsed(self.clock) {
            Ok(passed) => passed >= Duration::from_secs(PERIOD),
            Err(_) => false,
        }
    }

    /// Says the numbers.
    fn say(&mut self, reached: Reached) {
        let Reached {
            opened,
            moved,
            hung_up,
        } = reached;
        let _ = write!(
            self.terminal,
            "\r\x1b[Kcalls opened: {opened}, moved: {moved}, hung up: {hung_up}\r"
        );
        self.last = Instant::now(self.clock).ok();
        self.is_said = true;
    }
}

impl<C: Clock, T: Write> Watch for Ticking<'_, C, T> {
    fn see(&mut self, reached: Reached) {
        if self.is_due() {
            self.say(reached);
        }
    }

    /// Takes what was said off the terminal.
    fn end(&mut self) {
        if self.is_said {
            let _ = write!(self.terminal, "\r\x1b[K");
            self.is_said = false;
        }
    }
}
