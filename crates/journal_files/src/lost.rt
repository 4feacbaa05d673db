//! A journal that can't be written any more.
use std::io;

/// What a controller does when its journal can't be written any more.
#[derive(Clone, Copy, Debug, PartialEq, Eq)]
pub enum WhenLost {
    /// It ends. Nothing is printed that isn't in the journal.
    End,
    /// It goes on without a journal.
    GoOn,
}

/// How a journal was lost.
#[derive(Clone, Copy, Debug)]
pub enum Lost {
    /// Records couldn't be put on the disk.
    Records(io::Error),
    /// It isn't known whether a file was begun.
    File(io::Error),
}

impl Lost {
    /// What the system said.
    pub fn error(&self) -> io::Error {
        match *self {
            Lost::Records(error) | Lost::File(error) => error,
        }
    }
}
