//! Why a file can't be read.
use super::{Fail, equals};
use screen_text::Reason;
use std::io::{self, ErrorKind};

/// Errors of the system by their numbers (errno of Linux), and what is said of them.
const SAID: &[(i32, &str)] = &[
    (2, "no such file"),
    (13, "no permission"),
    (20, "a part of its path is no folder"),
    (21, "is a folder"),
    (28, "no space left"),
    (30, "can only be read"),
    (32, "nobody reads it any more"),
    (40, "Too many levels of symbolic links (os error 40)"),
    (5, "Input/output error (os error 5)"),
];

/// Kinds of errors, and what is said of one that has a kind and no number: words of ours, or those that Rust's library has for
/// the kind.
const SAID_OF_KINDS: &[(ErrorKind, &str)] = &[
    (ErrorKind::NotFound, "no such file"),
    (ErrorKind::PermissionDenied, "no permission"),
    (ErrorKind::IsADirectory, "is a folder"),
    (ErrorKind::NotADirectory, "a part of its path is no folder"),
    (ErrorKind::ReadOnlyFilesystem, "can only be read"),
    (ErrorKind::StorageFull, "no space left"),
    (ErrorKind::BrokenPipe, "nobody reads it any more"),
    (ErrorKind::AlreadyExists, "entity already exists"),
    (ErrorKind::TimedOut, "timed out"),
];

#[test]
fn errors_are_said(rt: HostRuntime) -> Result<(), Fail> {
    for (number, words) in SAID {
        let error = io::Error::from_raw_os_error(*number);
        let said = format!(in rt.alloc(); "{}", Reason(&error))?;
        equals(&rt, said.as_str(), *words);
    }
    for (kind, words) in SAID_OF_KINDS {
        let error = io::Error::from(*kind);
        let said = format!(in rt.alloc(); "{}", Reason(&error))?;
        equals(&rt, said.as_str(), *words);
    }
    Ok(())
}
