//! Whether a text is a trace, and whether it has its end.
//!
//! No clause says what is printed: tests show it.
use lab_script::script::without_return;
use lab_words::{TraceEnd, TracePath};
use screen_text::Escaped;
use std::io::{self, Write};

/// How far the lines of one controller have come.
#[derive(Clone, Copy, PartialEq, Eq)]
enum Progress {
    /// There is no line yet.
    Nothing,
    /// There are lines, but none of an input: a list of events has no end.
    Listed,
    /// An input came, and no end behind it.
    Going,
    /// The end came, and no input behind it.
    Ended,
}

/// How a text ends.
#[derive(Clone, Copy)]
enum Ending {
    /// It has no line of a trace.
    NoTrace,
    /// An input has no end behind it, or one of two controllers has none.
    Open,
    /// Neither is so.
    Whole,
}

/// What stands behind a key and a number in decimal with which a text begins.
fn behind_count<'a>(text: &'a str, key: &str) -> Option<&'a str> {
    let counted = text.strip_prefix(key)?;
    let rest = counted.trim_start_matches(|letter: char| letter.is_ascii_digit());
    if rest.len() < counted.len() {
        Some(rest)
    } else {
        None
    }
}

/// Whether a line is the end of a trace, words behind it or not.
fn is_end(line: &str) -> bool {
    let mut rest = line;
    for key in ["end channels=", " calls=", " references=", " timers="] {
        match behind_count(rest, key) {
            Some(behind) => rest = behind,
            None => return false,
        }
    }
    rest.is_empty() || rest.starts_with(" # ")
}

/// Whether a line begins as one that tells what came of an input.
fn is_told(line: &str) -> bool {
    ["event ", "none free ", "out ", "fault "]
        .iter()
        .any(|front| line.starts_with(*front))
}

impl Progress {
    /// How the lines of the only controller end.
    fn ending(self) -> Ending {
        match self {
            Progress::Nothing => Ending::NoTrace,
            Progress::Going => Ending::Open,
            Progress::Listed | Progress::Ended => Ending::Whole,
        }
    }
}

/// How far the lines of a controller have come behind one more of them.
fn advanced(progress: Progress, line: &str) -> Progress {
    if line.starts_with("in ") || line.starts_with("for ") {
        Progress::Going
    } else if is_end(line) {
        Progress::Ended
    } else if progress == Progress::Nothing && is_told(line) {
        Progress::Listed
    } else {
        progress
    }
}

/// The lines of a trace, by their marks.
#[derive(Clone, Copy)]
struct Sides {
    alone: Progress,
    first: Progress,
    peer: Progress,
}

impl Sides {
    /// Before the first line.
    fn new() -> Sides {
        Sides {
            alone: Progress::Nothing,
            first: Progress::Nothing,
            peer: Progress::Nothing,
        }
    }

    /// Behind one more line.
    fn behind(self, line: &str) -> Sides {
        let Sides { alone, first, peer } = self;
        if let Some(line) = line.strip_prefix("1: ") {
            let first = advanced(first, line);
            Sides { first, ..self }
        } else if let Some(line) = line.strip_prefix("2: ") {
            let peer = advanced(peer, line);
            Sides { peer, ..self }
        } else {
            let alone = advanced(alone, line);
            Sides { alone, ..self }
        }
    }

    /// How the lines end. Where some have a mark, those without one are of neither controller.
    fn ending(self) -> Ending {
        let Sides { alone, first, peer } = self;
        match (first, peer) {
            (Progress::Nothing, Progress::Nothing) => alone.ending(),
            (Progress::Going, _) | (_, Progress::Going) => Ending::Open,
            // of two controllers both have an end
            (Progress::Ended, Progress::Nothing | Progress::Listed)
            | (Progress::Nothing | Progress::Listed, Progress::Ended) => Ending::Open,
            (Progress::Ended, Progress::Ended)
            | (Progress::Listed, Progress::Nothing | Progress::Listed)
            | (Progress::Nothing, Progress::Listed) => Ending::Whole,
        }
    }
}

/// How a text ends.
fn ending_of(text: &str) -> Ending {
    let mut sides = Sides::new();
    for line in text.split('\n') {
        sides = sides.behind(without_return(line));
    }
    sides.ending()
}

/// Refuses a text that is no trace: `no trace` is printed, and on `errors` why.
fn refuse_other<W: Write, E: Write>(path: &str, out: &mut W, errors: &mut E) -> io::Result<bool> {
    writeln!(
        errors,
        "{}: this isn't a trace, as run prints it",
        Escaped(path)
    )?;
    writeln!(out, "no trace")?;
    Ok(true)
}

/// Refuses a trace without an end: `no end` is printed, and on `errors` why.
fn refuse_open<W: Write, E: Write>(path: &str, out: &mut W, errors: &mut E) -> io::Result<bool> {
    writeln!(
        errors,
        "{}: no line end follows the last input: the trace is cut off, or its run isn't over (--cut reads it anyway)",
        Escaped(path)
    )?;
    writeln!(out, "no end")?;
    Ok(true)
}

/// Refuses a text that is no trace, and one that has to have its end and lacks it; answers whether it is refused. A list of
/// events, without an input, has no end.
pub(crate) fn refuse_cut<W: Write, E: Write>(
    trace: TracePath<'_>,
    text: &str,
    out: &mut W,
    errors: &mut E,
) -> io::Result<bool> {
    match (ending_of(text), trace.end) {
        (Ending::NoTrace, TraceEnd::Needed | TraceEnd::Optional) => {
            refuse_other(trace.path, out, errors)
        }
        (Ending::Open, TraceEnd::Needed) => refuse_open(trace.path, out, errors),
        (Ending::Open, TraceEnd::Optional)
        | (Ending::Whole, TraceEnd::Needed | TraceEnd::Optional) => Ok(false),
    }
}

/// The whole lines of a text that may be cut.
pub(crate) fn whole_lines(text: &str) -> &str {
    match text.rsplit_once('\n') {
        Some((lines, _cut)) => text.get(..=lines.len()).unwrap_or(text),
        None => "",
    }
}
