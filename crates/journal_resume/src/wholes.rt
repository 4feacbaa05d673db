//! All records of a file.
ghost use Rattle.std.specs.Prelude.{◌≢◌, List, Err, IfOk, IfErr};
ghost use Rattle.journal_resume.specs.Resume.{Numbered};
ghost use Rattle.journal_resume.specs.Wholes.{AreAll, IsWhole, IsTraceOf, IsWholeReason};

use crate::ends::is_end;
use journal_records::{FileFault, behind_first_line, first_record};
use thiserror::Error;

/// Why a file can't be read as a journal to its end.
#[derive(Clone, Copy, Debug, PartialEq, Eq, Error)]
pub enum WholeFault {
    /// It isn't a journal of this version.
    #[error("{0}")]
    File(FileFault),
    /// At this octet, counted from 0, there is neither a record nor a record that was cut.
    #[error("the record at octet {0} is damaged")]
    Damaged(usize),
}

/// What stands behind all records with which octets begin.
pub(crate) fn behind_records(octets: &[u8]) -> &[u8]
    ensures { (records : List Numbered) × AreAll records octets.now result.now }
{
    let mut left = octets;
    while let Ok(taken) = first_record(left) {
        left = taken.behind;
    }
    left
}

/// The octets of a journal's file without a record at the end that was cut. The checksums of each record before it are
/// right.
///
/// If it is refused, the file has the fault that is returned.
pub fn whole_octets(octets: &[u8]) -> Result<&[u8], WholeFault>
    ensures whole { IfOk result (λ whole. IsWhole octets.now whole.now) }
    ensures reason { IfErr result (λ fault. IsWholeReason fault octets.now) }
{
    let records = match behind_first_line(octets) {
        Ok(records) => records,
        Err(fault) => return Err(WholeFault::File(fault)),
    };
    let left = behind_records(records);
    let place = octets.len() - left.len();
    if is_end(left) {
        Ok(octets.split_at(place).0)
    } else {
        Err(WholeFault::Damaged(place))
    }
}

/// The octets of a trace, which may be a journal's file. Of such a file, a record at its end that was cut is left out.
///
/// Only a journal's file can be refused; it has the fault that is returned.
pub fn trace_octets(octets: &[u8]) -> Result<&[u8], WholeFault>
    ensures trace { IfOk result (λ trace. IsTraceOf octets.now trace.now) }
    ensures reason { IfErr result (λ fault. IsWholeReason fault octets.now) }
    ensures kind { result ≢ Err (WholeFault.File FileFault.NotAJournal) }
{
    match whole_octets(octets) {
        Ok(whole) => Ok(whole),
        Err(WholeFault::File(FileFault::NotAJournal)) => Ok(octets),
        Err(fault) => Err(fault),
    }
}
