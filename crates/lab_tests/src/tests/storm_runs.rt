use super::failing::Failing;
use super::{equals_at, holds_at, remove_files, write_files};
use lab::run::Status;
use lab::storm::{Reached, StormJob, Watch, print_figures, storm_file};
use lab::words::StormSize;
use lab::{LabFault, storm_run};
use radio_desk::audit::Audit;
use radio_desk::tally::Tally;
use refusing_heap::{Refusals, RefusingHeap};
use std::alloc::{AllocError, Global};
use std::process::Abort;
use std::rt::Files;
use std::str;
use std::sync::Wait;
use std::test::Fail;
use std::thread::Threads;
use storms::outcome::Figures;

/// Two cells with seven traffic channels each.
fn site(alloc: Global) -> Result<String, AllocError> {
    sample_sites::site_of_cells(alloc, 2, 1, 0)
}

/// What four calls over it print.
const FOUR_CALLS: &str = "calls 4
attempts 4
completed 2
undone 2
channels in use 0
audit same
";

/// A heap that threads may share. It is never freed.
fn leaked(alloc: Global, refusals: Refusals) -> Result<&'static RefusingHeap, AllocError> {
    Ok(Box::leak(Box::new(alloc, RefusingHeap::new(alloc, refusals))?))
}

/// Whether a storm of four calls over a heap was refused no memory. It has printed all, or was refused some and has printed
/// nothing.
fn storms_over<R: Threads + Wait + Abort + Clone + Drop + Send + 'static>(
    rt: &R,
    alloc: Global,
    site: &str,
    refusals: Refusals,
) -> Result<bool, Fail> {
    let heap = leaked(alloc, refusals)?;
    let mut out = Vec::new(alloc);
    let ended = storm_run(rt, heap, alloc, site, 2, 4, &mut out);
    let wanted = if ended == Err(LabFault::NoMemory) && heap.was_refused() {
        (Err(LabFault::NoMemory), "")
    } else {
        (Ok(Status::Done), FOUR_CALLS)
    };
    equals_at(rt, (ended, str::from_utf8(&out)?), wanted, refusals);
    Ok(!heap.was_refused())
}

/// How many requests were refused in turn, each alone or with all behind it, until a storm met no refusal.
fn refusals_of<R: Threads + Wait + Abort + Clone + Drop + Send + 'static>(
    rt: &R,
    alloc: Global,
    for_good: bool,
) -> Result<u64, Fail> {
    let site = site(alloc)?;
    let mut tried = 0u64;
    for n in 1..4000 {
        let refusals = if for_good {
            Refusals::From(n)
        } else {
            Refusals::Nth(n)
        };
        if storms_over(rt, alloc, &site, refusals)? {
            break;
        }
        tried = n;
    }
    Ok(tried)
}

#[test]
fn each_request_of_a_storm_is_refused(rt: HostRuntime) -> Result<(), Fail> {
    let tried = refusals_of(&rt, rt.alloc(), false)?;
    holds_at(&rt, 100 < tried && tried < 3999, (tried, "requests"));
    Ok(())
}

#[test]
fn a_storm_is_refused_memory_for_good(rt: HostRuntime) -> Result<(), Fail> {
    let tried = refusals_of(&rt, rt.alloc(), true)?;
    holds_at(&rt, 100 < tried && tried < 3999, (tried, "requests"));
    Ok(())
}

/// A storm over a site of a text prints this, with this status, or a front of it where a write fails: each in turn. Answers
/// how many writes failed.
fn failures_of<R: Threads + Wait + Abort + Clone + Drop + Send + 'static>(
    rt: &R,
    alloc: Global,
    site: &str,
    wanted: (Status, &str),
) -> Result<u64, Fail> {
    let (status, text) = wanted;
    for before in 0..100 {
        let mut out = Failing::after(alloc, before);
        let ended = storm_run(rt, alloc, alloc, site, 2, 4, &mut out);
        let printed = str::from_utf8(&out.text)?;
        if !out.failed {
            equals_at(rt, (ended, printed), (Ok(status), text), site);
            return Ok(before);
        }
        equals_at(rt, ended, Err(LabFault::Write), before);
        holds_at(rt, text.starts_with(printed), printed);
    }
    Ok(100)
}

#[test]
fn each_write_of_a_storm_fails(rt: HostRuntime) -> Result<(), Fail> {
    let alloc = rt.alloc();
    let tried = failures_of(&rt, alloc, &site(alloc)?, (Status::Done, FOUR_CALLS))?;
    holds_at(&rt, 5 <= tried && tried < 100, tried);
    let tried = failures_of(&rt, alloc, "", (Status::Refused, "site 2 handover\n"))?;
    holds_at(&rt, 1 <= tried && tried < 100, tried);
    let one = sample_sites::THREE_CHANNELS;
    let tried = failures_of(&rt, alloc, one, (Status::Refused, "site too small\n"))?;
    holds_at(&rt, 1 <= tried && tried < 100, tried);
    Ok(())
}

/// What four calls print whose audit differs: by figures made up here, since no storm is known that tells so.
const DIFFERS: &str = "calls 4
attempts 3
completed 1
undone 2
channels in use 5
audit differs
";

#[test]
fn a_storm_whose_audit_differs_says_so(rt: HostRuntime) -> Result<(), Fail> {
    let figures = Figures {
        tally: Tally {
            calls: 4,
            attempts: 3,
            completed: 1,
            undone: 2,
        },
        channels: 5,
        audit: Audit {
            attempts: 2,
            held: Some(7),
            same: false,
        },
    };
    let mut out = Vec::new(rt.alloc());
    let ended = print_figures(&mut out, figures);
    let wanted = (Ok(Status::Differs), DIFFERS);
    equals_at(&rt, (ended, str::from_utf8(&out)?), wanted, "differs");
    Ok(())
}

/// What was seen of a storm.
#[derive(Drop)]
struct Seen {
    last: Option<Reached>,
    is_rising: bool,
    ends: u64,
}

impl Watch for Seen {
    fn see(&mut self, reached: Reached) {
        if let Some(last) = self.last {
            self.is_rising &= last.opened <= reached.opened
                && last.moved <= reached.moved
                && last.hung_up <= reached.hung_up;
        }
        self.last = Some(reached);
    }

    fn end(&mut self) {
        self.ends = self.ends.saturating_add(1);
    }
}

/// Who watches a storm over the site of a file is told how far it is.
fn is_watched<R: Files + AllocGlobal + Threads + Wait + Abort + Clone + Drop + Send + 'static>(
    rt: &R,
    size: StormSize,
) -> Result<(), Fail> {
    let mut seen = Seen {
        last: None,
        is_rising: true,
        ends: 0,
    };
    let (mut out, mut errors) = (Vec::new(rt.alloc()), Vec::new(rt.alloc()));
    let job = StormJob {
        site: "storm.toml",
        size,
    };
    let ended = storm_file(rt, job, &mut seen, &mut out, &mut errors);
    let texts = (str::from_utf8(&out)?, str::from_utf8(&errors)?);
    equals_at(
        rt,
        (ended, texts),
        (Ok(Status::Done), (FOUR_CALLS, "")),
        "file",
    );
    let last = Reached {
        opened: 4,
        moved: 4,
        hung_up: 4,
    };
    equals_at(
        rt,
        (seen.last, seen.is_rising, seen.ends),
        (Some(last), true, 1),
        "seen",
    );
    Ok(())
}

#[test]
fn a_storm_is_watched(rt: HostRuntime) -> Result<(), Fail> {
    let site = site(rt.alloc())?;
    write_files(&rt, &[("storm.toml", site.as_str())])?;
    let Some(size) = StormSize::new(2, 4) else {
        holds_at(&rt, false, "size");
        return Ok(());
    };
    is_watched(&rt, size)?;
    remove_files(&rt, &["storm.toml"])
}
