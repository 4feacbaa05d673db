//! Which line of a script gave an input.
use lab_script::script::{ScriptFault, read_script};
use run_listeners::Source;
use std::alloc::{AllocError, Allocator, Global};
use std::fmt;

/// Where an input comes from, as it is shown behind its line: ` @12`, or ` @` of a simulator's.
#[derive(Clone, Copy)]
pub(crate) enum Origin {
    /// That isn't shown.
    Untold,
    /// The line of the script, counted from 1.
    Line(usize),
    /// No line.
    Simulator,
}

impl fmt::Display for Origin {
    fn fmt<W: fmt::Write>(&self, f: &mut fmt::Formatter<W>) -> fmt::Result {
        match self {
            Origin::Untold => Ok(()),
            Origin::Line(number) => write!(f, " @{number}"),
            Origin::Simulator => f.write_str(" @"),
        }
    }
}

/// The lines of a script that give something, in their order, and how many of them were played.
#[derive(Drop)]
pub(crate) struct Origins<A: Allocator = Global> {
    numbers: Vec<usize, A>,
    played: usize,
}

/// Whether a line gives something, as it stands behind one that attaches the simulators.
fn gives_item<A: Allocator + Copy>(alloc: A, line: &str) -> Result<bool, AllocError> {
    let script = format!(in alloc; "sim\n{line}")?;
    match read_script(alloc, &script, true) {
        // the first is what attaches the simulators
        Ok(items) => Ok(items.len() > 1),
        Err(ScriptFault::Line(_)) => Ok(false),
        Err(ScriptFault::NoMemory) => Err(AllocError),
    }
}

impl<A: Allocator + Copy> Origins<A> {
    /// Those of a script of which nothing came yet.
    pub(crate) fn new(alloc: A, script: &str) -> Result<Origins<A>, AllocError> {
        let mut numbers = Vec::new(alloc);
        for (index, line) in script.split('\n').enumerate() {
            if gives_item(alloc, line)? {
                numbers.push(index.saturating_add(1))?;
            }
        }
        Ok(Origins { numbers, played: 0 })
    }

    /// The next line that gives something is played.
    pub(crate) fn begin_line(&mut self) {
        self.played = self.played.saturating_add(1);
    }

    /// The line that is played.
    fn line(&self) -> Option<usize> {
        self.numbers.get(self.played.checked_sub(1)?).copied()
    }

    /// Where the next input comes from.
    pub(crate) fn origin_of(&self, source: Source) -> Origin {
        match source {
            Source::Simulator => Origin::Simulator,
            Source::Script => match self.line() {
                Some(number) => Origin::Line(number),
                None => Origin::Untold,
            },
        }
    }
}
