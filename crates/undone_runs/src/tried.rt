//! A script in which each attempt is undone at each point.
use crate::deaf::LineStarts;
use crate::interrupted::{Interruption, play_interrupted};
use crate::points::{Point, points_of};
use crate::printed::{Sort, Tally, VerdictText, print_verdict};
use crate::verdict::{Verdict, verdict_of};
use cell_table::SiteFault;
use lab_runs::course::Run;
use lab_runs::run::{Sites, Status, play, read_sites};
use lab_script::script::Side;
use radio_book::event::{Event, Reply};
use radio_desk::desk::Desk;
use run_listeners::LabFault;
use std::alloc::{AllocError, Allocator, Global};
use std::io::Write;
use tested_scripts::{Miss, print_miss};

/// A script with its name, its site, and its peer's site if one is given, all as texts.
#[derive(Clone, Copy, Debug, PartialEq, Eq)]
pub struct Trial<'a> {
    pub site: &'a str,
    pub peer: Option<&'a str>,
    pub script: &'a str,
    pub name: &'a str,
}

/// The sites of a trial; nothing if a text describes none.
fn sites_of<A: Allocator + Copy>(
    alloc: A,
    scratch: Global,
    trial: Trial<'_>,
) -> Result<Option<Sites<A>>, LabFault> {
    match read_sites(alloc, scratch, trial.site, trial.peer) {
        Ok(sites) => Ok(Some(sites)),
        Err(SiteFault::NoMemory) => Err(LabFault::NoMemory),
        Err(_) => Ok(None),
    }
}

/// What comes of a trial's script; nothing if it can't be run, and then the listener was told which line can't be read.
fn run_of<A: Allocator + Copy>(
    alloc: A,
    scratch: Global,
    trial: Trial<'_>,
    lines: &mut LineStarts<A>,
) -> Result<Option<Run<A>>, LabFault> {
    match sites_of(alloc, scratch, trial)? {
        Some(sites) => play(alloc, sites, trial.script, lines),
        None => Ok(None),
    }
}

/// The run of the script in which an operator takes an attempt back.
fn undone_run_of<A: Allocator + Copy>(
    alloc: A,
    scratch: Global,
    trial: Trial<'_>,
    undo: Interruption,
) -> Result<Option<Run<A>>, LabFault> {
    match sites_of(alloc, scratch, trial)? {
        Some(sites) => play_interrupted(alloc, sites, trial.script, undo),
        None => Ok(None),
    }
}

/// The desk of a controller of a run; nothing if it isn't there.
fn desk_of<A: Allocator + Copy>(run: &Run<A>, side: Side) -> Option<&Desk<A>> {
    match side {
        Side::First => Some(run.controllers.first.view().desk()),
        Side::Peer => match &run.controllers.peer {
            Some(peer) => Some(peer.view().desk()),
            None => None,
        },
    }
}

/// The entry of what was refused for what an attempt held, if anything was.
fn held_entry<A: Allocator + Copy>(
    desk: &Desk<A>,
    verdict: Option<Verdict>,
) -> Option<(Event, Reply)> {
    desk.entry(verdict?.held?).copied()
}

/// What is said where nothing was undone.
const NOTHING: VerdictText = VerdictText {
    verdict: None,
    held: None,
};

/// What came of an attempt that was taken back, by the desk of its controller.
fn judge<A: Allocator + Copy>(
    alloc: A,
    desk: &Desk<A>,
    opening: usize,
) -> Result<VerdictText, AllocError> {
    let verdict = verdict_of(alloc, desk, opening)?;
    Ok(VerdictText {
        verdict,
        held: held_entry(desk, verdict),
    })
}

/// The verdict on what a run asked its book.
fn judge_run<A: Allocator + Copy>(
    alloc: A,
    run: Option<Run<A>>,
    point: Point,
) -> Result<VerdictText, AllocError> {
    let Some(run) = run else {
        return Ok(NOTHING);
    };
    match desk_of(&run, point.undo.side) {
        Some(desk) => judge(alloc, desk, point.opening),
        None => Ok(NOTHING),
    }
}

/// What comes of an attempt that is taken back at a point of a trial's script.
fn text_at<A: Allocator + Copy>(
    alloc: A,
    scratch: Global,
    trial: Trial<'_>,
    point: Point,
) -> Result<VerdictText, LabFault> {
    let run = undone_run_of(alloc, scratch, trial, point.undo)?;
    Ok(judge_run(alloc, run, point)?)
}

/// Whether that is as it is to be.
fn status_of(text: VerdictText) -> Status {
    match Sort::of(text.verdict) {
        Sort::Same | Sort::Held | Sort::Unsettled => Status::Done,
        Sort::Differs => Status::Differs,
    }
}

/// Prints what comes of an attempt that is taken back at a point, and counts it.
fn tell<W: Write>(
    name: &str,
    point: Point,
    text: VerdictText,
    tally: &mut Tally,
    out: &mut W,
) -> Result<Status, LabFault> {
    tally.count(text.verdict);
    print_verdict(out, tally.next(), name, point, text)?;
    // whoever reads the tests sees each as soon as it ended
    out.flush()?;
    Ok(status_of(text))
}

/// Takes an attempt back at a point of a trial's script, and prints what comes of it.
fn try_point<A: Allocator + Copy, W: Write>(
    alloc: A,
    scratch: Global,
    trial: Trial<'_>,
    point: Point,
    tally: &mut Tally,
    out: &mut W,
) -> Result<Status, LabFault> {
    let text = text_at(alloc, scratch, trial, point)?;
    tell(trial.name, point, text, tally, out)
}

/// Takes back each attempt at each point of what came of a trial's script.
fn try_points<A: Allocator + Copy, W: Write>(
    alloc: A,
    scratch: Global,
    trial: Trial<'_>,
    points: &[Point],
    tally: &mut Tally,
    out: &mut W,
) -> Result<Status, LabFault> {
    let mut ended = Status::Done;
    for point in points {
        match try_point(alloc, scratch, trial, *point, tally, out)? {
            Status::Done => {}
            Status::Differs | Status::Refused => ended = Status::Differs,
        }
    }
    Ok(ended)
}

/// Takes back each attempt at each point of what came of a trial's script, a run.
fn try_run<A: Allocator + Copy, W: Write>(
    alloc: A,
    scratch: Global,
    trial: Trial<'_>,
    run: Run<A>,
    starts: &[usize],
    tally: &mut Tally,
    out: &mut W,
) -> Result<Status, LabFault> {
    let points = points_of(alloc, &run.turns, starts)?;
    try_points(alloc, scratch, trial, &points, tally, out)
}

/// Refuses a trial whose script can't be read, in this line, where one is told.
fn refuse<W: Write>(
    name: &str,
    unreadable: Option<usize>,
    tally: &mut Tally,
    out: &mut W,
) -> Result<Status, LabFault> {
    if let Some(line) = unreadable {
        print_miss(out, tally.next(), name, Miss::Unreadable(line))?;
    }
    Ok(Status::Refused)
}

/// Plays a script once for each attempt and each input after which the attempt is open. (Answers of simulators are inputs
/// too. Between inputs that one line gives at once nothing is undone.) There an operator undoes the attempt, and it is taken
/// out of that run ([`verdict_of`]). Prints a test of TAP for each: the point, and whether nothing differs without the
/// attempt, else what differs; also which event was refused because of what the attempt held, or that the release of its
/// channel is awaited. If neither is the case, nothing differs. `tally` counts all tests.
///
/// The answer is `Done` if in each test nothing differs, or one of these two is the case; else `Differs`. A script with a
/// line that can't be read isn't run: the line's number is printed as a test that isn't met, and the answer is `Refused`. It
/// is `Refused` too if a text describes no site; then nothing is printed. `scratch` serves while sites are read, `alloc` for
/// all else. Once memory was refused (`NoMemory`), or `out` can't be written to (`Write`), nothing more is printed.
pub fn try_undos<A: Allocator + Copy, W: Write>(
    alloc: A,
    scratch: Global,
    trial: Trial<'_>,
    tally: &mut Tally,
    out: &mut W,
) -> Result<Status, LabFault> {
    let mut lines = LineStarts::new(alloc);
    let run = run_of(alloc, scratch, trial, &mut lines)?;
    match run {
        Some(run) => try_run(alloc, scratch, trial, run, &lines.starts, tally, out),
        None => refuse(trial.name, lines.unreadable, tally, out),
    }
}
