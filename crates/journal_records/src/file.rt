//! A journal's file: its first line has its kind and the version of its form.
ghost use Rattle.std.specs.Prelude.{◌≡◌, ◌↔◌, ◌++◌, Err, IfOk, MatchOption};
ghost use Rattle.journal_records.specs.Files.{kind, first_line, Begins};

use thiserror::Error;

/// By this a file is known as a journal.
const KIND: &[u8] = b"gofnild journal ";

/// The first line of a journal's file: its kind, and the version of its form.
pub const FIRST_LINE: &[u8] = b"gofnild journal 1\n";

/// Why a file isn't read as a journal.
#[derive(Clone, Copy, Debug, PartialEq, Eq, Error)]
pub enum FileFault {
    /// It doesn't begin like a journal.
    #[error("the file isn't a journal")]
    NotAJournal,
    /// It is a journal of another version.
    #[error("the file is a journal of an unknown version")]
    UnknownVersion,
}

/// What stands behind the front of some octets, where they begin with it.
fn behind<'a>(front: &[u8], octets: &'a [u8]) -> Option<&'a [u8]>
    ensures { MatchOption result (Begins front.now octets.now → ⊥)
        (λ rest. Begins front.now octets.now × (octets.now ≡ front.now ++ rest.now)) }
{
    if octets.len() < front.len() {
        return None;
    }
    let (first, rest) = octets.split_at(front.len());
    if first == front { Some(rest) } else { None }
}

/// The octets after the first line of a journal's file.
///
/// `NotAJournal` exactly if the octets don't begin with the words of a journal. `UnknownVersion` exactly if they do, but the
/// first line is another one.
pub fn behind_first_line<'a>(octets: &'a [u8]) -> Result<&'a [u8], FileFault>
    ensures line { IfOk result (λ rest. octets.now ≡ first_line ++ rest.now) }
    ensures other { (result ≡ Err FileFault.NotAJournal) ↔ (Begins kind octets.now → ⊥) }
    ensures version { (result ≡ Err FileFault.UnknownVersion) ↔
        (Begins kind octets.now × (Begins first_line octets.now → ⊥)) }
{
    if behind(KIND, octets).is_none() {
        return Err(FileFault::NotAJournal);
    }
    match behind(FIRST_LINE, octets) {
        Some(rest) => Ok(rest),
        None => Err(FileFault::UnknownVersion),
    }
}
