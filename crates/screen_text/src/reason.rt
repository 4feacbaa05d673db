//! Why a file can't be read or written, in a few words for a person.
ghost use Rattle.std.specs.Prelude.{◌≡◌, option_map};
ghost use Rattle.screen_text.specs.Reasons.{words_of};

use std::fmt;
use std::io::{self, ErrorKind};

/// An error of a file, or of standard output, as it is said behind the path and a colon: `no such file`, `is a folder`. An
/// error without words of its own is said as the system does.
#[derive(Clone, Copy)]
pub struct Reason<'a>(pub &'a io::Error);

/// What is said of the errors that a person meets. All others, and those that the system may get, have its own words.
fn words_of(kind: ErrorKind) -> Option<&'static str>
    ensures { option_map (λ words. words.now) result ≡ words_of kind }
{
    match kind {
        ErrorKind::NotFound => Some("no such file"),
        ErrorKind::PermissionDenied => Some("no permission"),
        ErrorKind::IsADirectory => Some("is a folder"),
        ErrorKind::NotADirectory => Some("a part of its path is no folder"),
        ErrorKind::ReadOnlyFilesystem => Some("can only be read"),
        ErrorKind::StorageFull => Some("no space left"),
        ErrorKind::BrokenPipe => Some("nobody reads it any more"),
        _ => None,
    }
}

impl fmt::Display for Reason<'_> {
    ghost use Rattle.std.specs.IoError.{error_kind};
    ghost use Rattle.screen_text.specs.Reasons.{words_of};

    ghost output = { λ reason. words_of (error_kind reason.0.now) };

    fn fmt<W: fmt::Write>(&self, f: &mut fmt::Formatter<W>) -> fmt::Result {
        match words_of(self.0.kind()) {
            Some(words) => f.write_str(words),
            None => write!(f, "{}", self.0),
        }
    }
}
