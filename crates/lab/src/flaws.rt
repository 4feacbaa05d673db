//! Flaws of a script, with which it isn't met whatever comes of it, and the test of a script that may have some.
//!
//! No clause says what is printed: tests show it.
use crate::absences::has_absences_alone;
use crate::name_flaws::{FlawedName, say_flawed_names, tell_flawed_name};
use crate::script_files::worse;
use crate::script_notes::{Effects, say_idle_settings, say_never, say_slipped};
use crate::site_files::SiteTexts;
use idle_settings::{Cause, Idle, Lack};
use lab_runs::run::Status;
use run_listeners::LabFault;
use std::alloc::{AllocError, Global};
use std::io::Write;
use tested_scripts::tested::test_run;
use tested_scripts::{Miss, NeverLine, Reasons, Told, lines_of, print_met, print_not_met};

/// A test among others: its number, counted from 1, and its name.
#[derive(Clone, Copy)]
pub(crate) struct Numbered<'a> {
    pub number: usize,
    pub name: &'a str,
}

/// A line up to which a script is run, as it can't be read.
#[derive(Clone, Copy, Debug, PartialEq, Eq)]
pub(crate) struct UnreadLine {
    /// Its number, counted from 1.
    pub number: usize,
    /// Whether it has a name that stands for nothing because a comment before it isn't met.
    pub is_unmet: bool,
}

/// What is known of a script's lines before it is run.
#[derive(Drop)]
pub(crate) struct Marks<'a> {
    /// The numbers of comments that look like expectations, and aren't.
    pub slipped: Vec<usize>,
    /// Names of comments that are misspelt, or seem to be.
    pub names: Vec<FlawedName<'a>>,
    /// The line up to which it is run, where there is one.
    pub unread: Option<UnreadLine>,
}

/// What of a script makes that it isn't met, whatever comes of it.
#[derive(Drop)]
pub(crate) struct Flaws<'a> {
    marks: Marks<'a>,
    /// Lines that come to nothing, and shouldn't.
    idle: Vec<Idle>,
    /// Those of them with which it isn't met.
    flawed: Vec<Idle>,
    /// The numbers of lines that have an effect, where a comment says that they have none.
    unmeant: Vec<usize>,
    /// Lines that nothing can meet, or miss.
    never: Vec<NeverLine<'a>>,
}

/// Whether a line that comes to nothing makes that the script isn't met. An input does where all that is expected behind it is
/// that something doesn't come.
fn is_flaw(lines: &[&str], idle: Idle) -> bool {
    match idle.cause {
        Cause::Input(_) => has_absences_alone(lines, idle.line),
        Cause::Lacks(_) | Cause::Unused(_) | Cause::Again(_) | Cause::Unmet(_) => true,
    }
}

/// Those of the lines of a script that come to nothing which make that it isn't met.
fn flaws_in(alloc: Global, script: &str, idle: &[Idle]) -> Result<Vec<Idle>, AllocError> {
    let lines = lines_of(alloc, script)?;
    let mut flawed = Vec::from_slice(alloc, idle)?;
    flawed.retain(|line| is_flaw(&lines, *line));
    Ok(flawed)
}

/// Says which comments of a script have slipped, and which of their names are misspelt, or seem to be, and answers them.
pub(crate) fn say_marks<'a, E: Write>(
    alloc: Global,
    path: &str,
    script: &'a str,
    errors: &mut E,
) -> Result<Marks<'a>, LabFault> {
    Ok(Marks {
        slipped: say_slipped(alloc, path, script, errors)?,
        names: say_flawed_names(alloc, path, script, errors)?,
        unread: None,
    })
}

/// Says which flaws a script has beside comments that have slipped, and answers all.
pub(crate) fn say_flaws<'a, E: Write>(
    alloc: Global,
    path: &str,
    sites: &SiteTexts,
    script: &'a str,
    marks: Marks<'a>,
    errors: &mut E,
) -> Result<Flaws<'a>, LabFault> {
    let Effects { idle, unmeant } = say_idle_settings(alloc, path, sites, script, errors)?;
    Ok(Flaws {
        marks,
        flawed: flaws_in(alloc, script, &idle)?,
        idle,
        unmeant,
        never: say_never(alloc, path, sites, script, errors)?,
    })
}

/// Tells a line of a script that nothing can meet, or miss.
fn tell_never(
    alloc: Global,
    never: NeverLine<'_>,
    reasons: &mut Reasons<Global>,
) -> Result<(), LabFault> {
    let NeverLine { line, told, why } = never;
    let why = format!(in alloc; "{why}")?;
    let came = why.as_str();
    let miss = match told {
        Told::Expected(expected) => Miss::Differs {
            line,
            expected: Some(expected),
            came: Some(came),
        },
        Told::Refused(refused) => Miss::Begins {
            line,
            refused,
            came,
        },
    };
    reasons.tell(miss)
}

/// Tells lines of a script that come to nothing.
fn tell_idle(idle: &[Idle], reasons: &mut Reasons<Global>) -> Result<(), LabFault> {
    for line in idle {
        reasons.tell(Miss::Idle(line.line))?;
    }
    Ok(())
}

/// Tells lines of a script that come to nothing because a site lacks what they name: they may be why something else doesn't come.
fn tell_causes(idle: &[Idle], reasons: &mut Reasons<Global>) -> Result<(), LabFault> {
    for line in idle {
        match line.cause {
            Cause::Input(Lack::Call(_)) | Cause::Unused(_) | Cause::Again(_) | Cause::Unmet(_) => {}
            Cause::Input(_) | Cause::Lacks(_) => reasons.tell(Miss::Idle(line.line))?,
        }
    }
    Ok(())
}

/// Tells the flaws of a script, as reasons why it isn't met.
fn tell_flaws(
    alloc: Global,
    flaws: &Flaws<'_>,
    reasons: &mut Reasons<Global>,
) -> Result<(), LabFault> {
    for line in &flaws.marks.slipped {
        reasons.tell(Miss::Slipped(*line))?;
    }
    for name in &flaws.marks.names {
        tell_flawed_name(alloc, *name, reasons)?;
    }
    if let Some(line) = flaws.marks.unread {
        reasons.tell(Miss::Unreadable(line.number))?;
    }
    tell_idle(&flaws.flawed, reasons)?;
    for line in &flaws.unmeant {
        reasons.tell(Miss::Differs {
            line: *line,
            expected: Some("no effect"),
            came: Some("an effect"),
        })?;
    }
    for never in &flaws.never {
        tell_never(alloc, *never, reasons)?;
    }
    Ok(())
}

/// How a test ends, by whether its script has flaws, and by how its run ended. One that isn't run to its end is refused, but where
/// that is because a comment isn't met.
fn ended_by(flaws: &Flaws<'_>, has_flaws: bool, run: Status) -> Status {
    match flaws.marks.unread {
        Some(line) if !line.is_unmet || run != Status::Differs => Status::Refused,
        Some(_) | None if has_flaws => worse(Status::Differs, run),
        Some(_) | None => run,
    }
}

/// Tests a script that may have flaws, over sites that can be run over, and prints whether it is met, or why not. With a flaw it
/// isn't met. The reasons stand in the order of the script's lines.
pub(crate) fn test_flawed<W: Write>(
    alloc: Global,
    sites: &SiteTexts,
    script: &str,
    test: Numbered<'_>,
    flaws: &Flaws<'_>,
    out: &mut W,
) -> Result<Status, LabFault> {
    let (first, peer) = (sites.first(), sites.peer());
    let mut reasons = Reasons::new(alloc);
    tell_flaws(alloc, flaws, &mut reasons)?;
    let has_flaws = !reasons.is_empty();
    let run = test_run(alloc, alloc, first, peer, script, &mut reasons)?;
    let ended = ended_by(flaws, has_flaws, run);
    if run == Status::Differs {
        tell_causes(&flaws.idle, &mut reasons)?;
    }
    match ended {
        Status::Done => print_met(out, test.number, test.name)?,
        Status::Differs | Status::Refused => {
            print_not_met(out, test.number, test.name)?;
            reasons.print(out)?;
        }
    }
    Ok(ended)
}
