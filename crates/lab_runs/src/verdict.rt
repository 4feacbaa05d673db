//! The result of the audit of a desk's history: a line, and a status.
ghost use Rattle.std.specs.Prelude.{◌≡◌, if◌then◌else◌, codes};
ghost use Rattle.lab_runs.specs.Statuses.{status_of, audit_status};

use crate::run::Status;
use radio_desk::audit::Audit;

/// The status of an audit: whether all settled attempts of a history together left a trace.
pub fn audit_status(audit: &Audit) -> Status
    ensures status { result ≡ audit_status audit.now }
{
    if audit.same {
        Status::Done
    } else {
        Status::Differs
    }
}

/// The line that says whether all settled attempts of a history, taken out together, leave the same book and the same
/// replies, and the status that a program ends with which has nothing else to tell.
pub fn audit_line(audit: &Audit) -> (&'static str, u8)
    ensures line { result.0.now ≡ (if audit.now.same then codes "audit same" else codes "audit differs") }
    ensures status { result.1 ≡ status_of (audit_status audit.now) }
{
    if audit.same {
        ("audit same", 0)
    } else {
        ("audit differs", 1)
    }
}
