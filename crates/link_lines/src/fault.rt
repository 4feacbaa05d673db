//! Why a line can't be read.
use encoded_messages::Shown;
use script_reasons::Reason;
use std::alloc::AllocError;
use std::fmt;
use thiserror::Error;

/// What a word of a line is.
#[derive(Clone, Copy, Debug, PartialEq, Eq)]
pub enum Place {
    /// The number of a call.
    Call,
    /// The number of a cell.
    Cell,
    /// The number of a TRX.
    Trx,
    /// A timeslot, or a half of one.
    Timeslot,
    /// The name of a timer.
    Timer,
    /// `on` or `off`.
    Switch,
    /// A timing advance.
    Advance,
    /// A message, as a line of a script gives it.
    Message,
    /// What is set.
    Setting,
    /// To what it is set.
    Setter,
}

impl Place {
    /// What the word is called, and what it may be.
    fn allowed(self) -> &'static str {
        match self {
            Place::Call => "CALL is 0 to 65535",
            Place::Cell => "CELL is 0 to 255",
            Place::Trx => "TRX is 0 to 255",
            Place::Timeslot => "TN is 0 to 7, with /0 or /1 behind it for half rate",
            Place::Timer => "TIMER is T3103, T7, T8, activation, T3109, T3111, release or bar",
            Place::Switch => "the last word is on or off",
            Place::Advance => "N is 0 to 63",
            Place::Message => "a message begins with abis or a",
            Place::Setting => "what is set is commands",
            Place::Setter => "commands are set to bridge",
        }
    }

    /// What is missing where the word isn't there.
    fn name(self) -> &'static str {
        match self {
            Place::Call => "CALL",
            Place::Cell => "CELL",
            Place::Trx => "TRX",
            Place::Timeslot => "TN",
            Place::Timer => "TIMER",
            Place::Switch => "on or off",
            Place::Advance => "N",
            Place::Message => "a message",
            Place::Setting => "commands",
            Place::Setter => "bridge",
        }
    }
}

impl fmt::Display for Place {
    fn fmt<W: fmt::Write>(&self, f: &mut fmt::Formatter<W>) -> fmt::Result {
        f.write_str(self.allowed())
    }
}

/// What is missing of a line.
#[derive(Clone, Copy)]
struct Named<'a>(&'a Place);

impl fmt::Display for Named<'_> {
    fn fmt<W: fmt::Write>(&self, f: &mut fmt::Formatter<W>) -> fmt::Result {
        f.write_str(self.0.name())
    }
}

/// The first words of lines.
const KEYWORDS: &str =
    "abis, a, expired, up, down, open, seize, handover, undo, clear, bar, unbar, for, send, away, reports, advance, set, begin, \
calls, summary, or with #";

/// Why a line can't be read: the first thing that is wrong with it.
#[derive(Clone, Copy, Debug, PartialEq, Eq, Error)]
pub enum LineFault<'a> {
    /// No line begins with this word.
    #[error("a line begins with {}, found {}", KEYWORDS, Shown(.0))]
    Keyword(&'a str),
    /// A word isn't what stands in its place.
    #[error("{place}, found {}", Shown(.found))]
    Word { place: Place, found: &'a str },
    /// The line ends before a word.
    #[error("{} is missing", Named(.0))]
    Missing(Place),
    /// This word stands behind the last one.
    #[error("nothing may follow the last word, found {}", Shown(.0))]
    Behind(&'a str),
    /// What is wrong with the line of a script that it is, or has.
    #[error("{0}")]
    Script(Reason<'a>),
    /// Memory was refused.
    #[error("memory was refused")]
    NoMemory,
}

impl From<AllocError> for LineFault<'_> {
    ghost use Rattle.std.specs.Prelude.{◌≡◌};
    ghost use Rattle.link_lines.specs.declared.fault.LineFault.TheVariants.{NoMemory};

    ghost from_gives = { λ _ fault. fault ≡ NoMemory };

    fn from(_: AllocError) -> Self {
        LineFault::NoMemory
    }
}
