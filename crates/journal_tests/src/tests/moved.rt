//! A folder that gets another path while a controller has it, and another folder in its place.
use super::disk::Failure;
use super::lines::LINES;
use super::served::{Course, Host, SITE_SUM, open, play};
use super::{Scene, goes_on, host_of};
use journal_files::{BeginFault, Folder};
use journal_opening::Opened;
use journal_resume::head_body;
use std::process::Abort;
use std::test::Fail;

/// Opens the journal.
fn opened<'a>(rt: &impl Abort, host: &'a Host, scene: &Scene) -> Result<Opened<'a, Host>, Fail> {
    let mut told = Vec::new(host.1);
    match open(host, &scene.site, Some(2), None, &mut told)? {
        Some(opened) => Ok(opened),
        None => panic!(rt; "it can't be opened"),
    }
}

/// The folder is moved, and another one stands at its path, with a file of a name that the journal will have.
fn put_another(host: &Host) -> Result<(), Fail> {
    host.0.move_home("old")?;
    host.0.add("j/00000000000000000020.journal")?;
    host.0.add("j/begun.tmp")?;
    Ok(())
}

/// The other folder is as it was.
fn is_untouched(rt: &impl Abort, host: &Host) -> Result<(), Fail> {
    assert_eq!(rt; host.0.count("j")?, 2);
    assert_eq!(rt; host.0.size("j/00000000000000000020.journal")?, 0);
    assert_eq!(rt; host.0.size("j/begun.tmp")?, 0);
    Ok(())
}

/// Back at its path, the folder has all that was heard.
fn goes_back(rt: &impl Abort, host: &Host, scene: &Scene, course: &Course) -> Result<(), Fail> {
    host.0.empty("j")?;
    host.0.move_home("j")?;
    goes_on(rt, host, scene, course, 0)
}

/// The files go with the folder: those that are begun, too, and those that are removed.
#[test]
fn a_moved_folder_has_its_files(rt: HostRuntime) -> Result<(), Fail> {
    let alloc = rt.alloc();
    let host = host_of(alloc, Failure::Refused, 0, true)?;
    let scene = Scene::new(alloc)?;
    let opened = opened(&rt, &host, &scene)?;
    put_another(&host)?;
    let course = play(alloc, opened, Vec::new(alloc))?;
    assert!(rt; !course.has_ended);
    assert_eq!(rt; course.heard, LINES);
    is_untouched(&rt, &host)?;
    // the lock, and the two that are kept of three
    assert_eq!(rt; host.0.count("old")?, 3);
    assert!(rt; 0 < host.0.size("old/00000000000000000040.journal")?);
    goes_back(&rt, &host, &scene, &course)
}

/// Where the system knows no path of an opened folder, the journal is lost with the first file that should be begun: the
/// locked file doesn't stand at the path.
#[test]
fn a_moved_folder_is_lost_by_its_path(rt: HostRuntime) -> Result<(), Fail> {
    let alloc = rt.alloc();
    let host = host_of(alloc, Failure::Refused, 0, false)?;
    let scene = Scene::new(alloc)?;
    let opened = opened(&rt, &host, &scene)?;
    put_another(&host)?;
    let course = play(alloc, opened, Vec::new(alloc))?;
    assert!(rt; course.has_ended);
    assert_eq!(rt; course.heard, 20);
    is_untouched(&rt, &host)?;
    goes_back(&rt, &host, &scene, &course)
}

/// It is lost, and not gone on with, also where nothing stands at the path.
#[test]
fn a_file_of_a_moved_folder_is_unknown(rt: HostRuntime) -> Result<(), Fail> {
    let alloc = rt.alloc();
    let host = host_of(alloc, Failure::Refused, 0, false)?;
    let scene = Scene::new(alloc)?;
    let mut opened = opened(&rt, &host, &scene)?;
    host.0.move_home("old")?;
    let head = head_body(alloc, SITE_SUM, &opened.book)?;
    match opened.journal.begin_span(alloc, head.as_bytes()) {
        Err(BeginFault::Unknown(_)) => {}
        Ok(_) | Err(BeginFault::NotBegun(_)) => panic!(rt; "it goes on"),
    }
    assert_eq!(rt; host.0.count("j")?, 0);
    Ok(())
}

/// A folder that is moved before it is listed is refused where it is known by its path alone.
#[test]
fn a_moved_folder_is_not_listed(rt: HostRuntime) -> Result<(), Fail> {
    for has_handles in [false, true] {
        let host = host_of(rt.alloc(), Failure::Refused, 0, has_handles)?;
        host.0.add("j/00000000000000000000.journal")?;
        match Folder::lock(&host, "j")? {
            Some(folder) => {
                host.0.move_home("old")?;
                assert_eq!(rt; folder.list().is_ok(), has_handles);
                assert_eq!(rt; folder.read_span(0).is_ok(), has_handles);
            }
            None => panic!(rt; "another has it"),
        }
    }
    Ok(())
}
