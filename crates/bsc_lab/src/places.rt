//! The places of standard streams that are closed.
//!
//! A file that is opened gets the lowest number that is free. Where a standard stream was closed before the program began,
//! that is the stream's own: what is printed would stand in the file.
use std::fs::File;
use std::io;
use std::os::fd::{AsRawFd, RawFd};

/// What is opened in the place of a stream: a folder, which each system has. Nothing is read from one, and nothing written to
/// it, also where it is opened once more by a path, as `/dev/stdin`.
const FOLDER: &str = "/";

/// Has the places of the standard streams that are closed, as long as it is there, so that no other file gets them. They stay
/// as good as closed: whatever reads or writes there fails.
#[derive(Drop)]
pub struct Places {
    // of the one with the lowest number, and of those behind it, where more are closed
    first: Option<File>,
    second: Option<File>,
    third: Option<File>,
}

/// A file that was opened, where its number is none above the last of the streams.
fn kept(opened: io::Result<File>, last: RawFd) -> Option<File> {
    let file = opened.ok()?;
    if file.as_raw_fd() <= last {
        Some(file)
    } else {
        None
    }
}

impl Places {
    /// Takes the places of those that are closed. Where the folder can't be opened none is taken.
    pub fn taken(rt: &HostRuntime) -> Places {
        let last = rt.stderr().as_raw_fd();
        Places {
            first: kept(File::open(rt, FOLDER), last),
            second: kept(File::open(rt, FOLDER), last),
            third: kept(File::open(rt, FOLDER), last),
        }
    }
}
