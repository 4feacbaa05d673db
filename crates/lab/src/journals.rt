//! The journal of a live controller: what the command line asks of it, and how a run with it ended.
ghost use Rattle.std.specs.Prelude.{◌≡◌, false, None, IsOk, IfOk};

use journal_files::{Lost, WhenLost};
use journal_opening::Asked;
use lab_words::JournalWords;
use live_runs::LiveFault;
use run_listeners::LabFault;
use screen_text::{Escaped, Reason};
use std::io::Write;

/// What words ask of a journal.
pub(crate) fn asked_of(words: JournalWords<'_>) -> Asked<'_>
    ensures folder { result.folder.now ≡ words.entry.folder.now }
    ensures keep { result.keep ≡ words.entry.keep }
    ensures heard { result.heard ≡ words.entry.heard }
{
    Asked {
        folder: words.folder,
        keep: words.keep,
        heard: words.heard,
    }
}

/// How a run with a journal ended. Where it ended because the journal was lost, `errors` says why. One that went on without its
/// journal ends as one whose output couldn't be written.
pub(crate) fn ended_journal<E: Write>(
    ended: Result<(), LiveFault>,
    lost: Option<Lost>,
    lacks_memory: bool,
    words: JournalWords<'_>,
    errors: &mut E,
) -> Result<Result<(), LiveFault>, LabFault>
    ensures ended { IfOk result (λ now. IsOk now → IsOk ended) }
    ensures kept { IfOk result (λ now. IsOk now → lost ≡ None) }
    ensures memory { IfOk result (λ now. IsOk now → lacks_memory ≡ false) }
{
    if lacks_memory {
        return Ok(Err(LiveFault::NoMemory));
    }
    let Some(lost) = lost else {
        return Ok(ended);
    };
    match ended {
        Ok(()) => Ok(Err(LiveFault::Write)),
        Err(LiveFault::Write) if words.when_lost == WhenLost::End => {
            let (folder, error) = (Escaped(words.folder), lost.error());
            writeln!(errors, "{folder}: {}; the controller ends", Reason(&error))?;
            Ok(Err(LiveFault::Write))
        }
        Err(fault) => Ok(Err(fault)),
    }
}
