//! A disk that is full when a controller goes on.
use super::disk::{Disk, Failure};
use super::lines::LINES;
use super::served::{Course, Host, open, play};
use super::{Scene, first_course, goes_on};
use journal_files::Folder;
use journal_opening::Opened;
use std::alloc::Global;
use std::process::Abort;
use std::test::Fail;

/// Whether the folder has a file of a journal.
fn has_span(host: &Host) -> Result<bool, Fail> {
    match Folder::lock(host, "j")? {
        Some(folder) => Ok(!folder.list()?.spans.is_empty()),
        None => Ok(false),
    }
}

/// Once power has failed a controller goes on with what is left, whatever became of the names that weren't synced.
fn left_goes_on(
    rt: &impl Abort,
    host: &Host,
    scene: &Scene,
    course: &Course,
    number: u32,
) -> Result<(), Fail> {
    for is_named in [false, true] {
        let left = (host.0.left(is_named)?, host.1);
        goes_on(rt, &left, scene, course, number)?;
    }
    Ok(())
}

/// A controller has gone on over a full disk, behind what was heard. All that it has is on the disk.
fn is_whole(
    rt: &impl Abort,
    host: &Host,
    scene: &Scene,
    first: &Course,
    opened: &Opened<'_, Host>,
    number: u32,
) -> Result<(), Fail> {
    let last = opened.journal.last();
    assert!(rt; opened.journal.unroomed().is_some(), "call {number}");
    assert!(rt;
        first.heard <= last,
        "call {number}: heard {}, and {last} is there",
        first.heard
    );
    left_goes_on(rt, host, scene, first, number)
}

/// A controller goes on over a full disk, and takes lines until that has no room for them. What was heard is on the disk; once
/// there is room another one goes on.
fn goes_on_full(
    rt: &impl Abort,
    host: &Host,
    scene: &Scene,
    first: &Course,
    number: u32,
) -> Result<(), Fail> {
    let mut told = Vec::new(host.1);
    let Some(opened) = open(host, &scene.site, None, Some(first.heard), &mut told)? else {
        panic!(rt; "call {number}: it can't be opened");
    };
    is_whole(rt, host, scene, first, &opened, number)?;
    let last = opened.journal.last();
    let second = play(host.1, opened, told)?;
    assert!(rt;
        second.has_ended || last == LINES,
        "call {number}: it has room"
    );
    let course = first.then(host.1, &second)?;
    left_goes_on(rt, host, scene, &course, number)?;
    host.0.fill(false)?;
    goes_on(rt, host, scene, &course, number)
}

/// A call fails; then the disk is full. The answer is whether the call came.
fn is_full_behind(
    rt: &impl Abort,
    alloc: Global,
    scene: &Scene,
    number: u32,
) -> Result<bool, Fail> {
    let host = (Disk::new(alloc, Failure::Refused, number)?, alloc);
    let first = first_course(&host, scene, None)?;
    let came = host.0.has_failed()?;
    host.0.mend()?;
    if has_span(&host)? {
        host.0.fill(true)?;
        goes_on_full(rt, &host, scene, &first, number)?;
    }
    Ok(came)
}

/// Each call fails in turn, and then the disk is full: the next controller goes on all the same.
#[test]
fn a_full_disk_is_gone_on_with(rt: HostRuntime) -> Result<(), Fail> {
    let scene = Scene::new(rt.alloc())?;
    let mut count = 0u32;
    for number in 1..400u32 {
        if !is_full_behind(&rt, rt.alloc(), &scene, number)? {
            break;
        }
        count = number;
    }
    assert!(rt; 40 < count && count < 399, "{count}");
    Ok(())
}

/// A call fails, the disk is full, and power fails at a call of the next controller. What was heard of the first is there.
/// The answer is whether the call came.
fn fails_when_full(
    rt: &impl Abort,
    alloc: Global,
    scene: &Scene,
    before: u32,
    number: u32,
) -> Result<bool, Fail> {
    let host = (Disk::new(alloc, Failure::Refused, before)?, alloc);
    let first = first_course(&host, scene, None)?;
    host.0.fill(true)?;
    host.0.fail(Failure::Power, number)?;
    let mut told = Vec::new(alloc);
    let opened = open(&host, &scene.site, None, None, &mut told)?;
    let came = host.0.has_failed()?;
    assert!(rt; came != opened.is_some(), "call {before}, then {number}");
    left_goes_on(rt, &host, scene, &first, number)?;
    Ok(came)
}

/// Power fails at each call of a controller that goes on over a full disk; one more was refused to the controller before.
#[test]
fn power_fails_on_a_full_disk(rt: HostRuntime) -> Result<(), Fail> {
    let scene = Scene::new(rt.alloc())?;
    for before in [0u32, 30, 31, 32, 33, 34] {
        let mut count = 0u32;
        for number in 1..40u32 {
            if !fails_when_full(&rt, rt.alloc(), &scene, before, number)? {
                break;
            }
            count = number;
        }
        assert!(rt; 10 < count && count < 39, "{count}");
    }
    Ok(())
}
