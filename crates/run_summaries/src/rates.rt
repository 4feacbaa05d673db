//! How much of what was tried succeeded.
ghost use Rattle.std.specs.Prelude.{◌≡◌};
ghost use Rattle.run_summaries.specs.Rates as said;

use crate::figures::{Scope, count_of};
use radio_book::event::AttemptKind;
use run_counts::{Report, Summary, What};
use std::alloc::Allocator;

/// What may succeed.
#[derive(Clone, Copy)]
pub(crate) enum Tried {
    /// The activation of a channel, of a call or of an attempt.
    Activations,
    /// An attempt at handover of a kind.
    Attempts(AttemptKind),
}

/// What may succeed, with its words, in the order in which it is shown.
pub(crate) const RATES: &[(Tried, &str)] = &[
    (Tried::Activations, "activations confirmed"),
    (
        Tried::Attempts(AttemptKind::Internal),
        "internal attempts completed",
    ),
    (
        Tried::Attempts(AttemptKind::Incoming),
        "incoming attempts completed",
    ),
    (
        Tried::Attempts(AttemptKind::Outgoing),
        "outgoing attempts completed",
    ),
];

/// How many were asked for, and how many of these succeeded.
#[derive(Clone, Copy, Debug, PartialEq, Eq)]
pub(crate) struct Rate {
    pub(crate) asked: u64,
    pub(crate) done: u64,
}

/// How many tenths of a percent so many are of others, rounded down, so that a thousand says that none failed; nothing of none.
fn tenths(done: u64, asked: u64) -> Option<u128>
    ensures { result ≡ said.tenths done asked }
{
    if asked == 0 {
        None
    } else {
        Some(u128::from(done) * 1_000 / u128::from(asked))
    }
}

impl Rate {
    /// In tenths of a percent, rounded down; nothing where nothing was asked for.
    pub(crate) fn tenths(&self) -> Option<u128> {
        tenths(self.done, self.asked)
    }

    /// Whether nothing of it came.
    pub(crate) fn is_empty(&self) -> bool {
        self.asked == 0 && self.done == 0
    }
}

/// How much of something succeeded.
pub(crate) fn rate_of<A: Allocator>(summary: &Summary<A>, scope: Scope, tried: Tried) -> Rate {
    match tried {
        Tried::Activations => {
            let of_calls = count_of(summary, scope, What::Opened);
            let of_attempts = count_of(summary, scope, What::Activated);
            Rate {
                asked: of_calls.saturating_add(of_attempts),
                done: count_of(summary, scope, What::Confirmed),
            }
        }
        Tried::Attempts(kind) => Rate {
            asked: count_of(summary, scope, What::Began(kind)),
            done: count_of(summary, scope, What::Completed(Some(kind))),
        },
    }
}

/// The attempts within this controller from one cell to another, and how many were completed.
fn reported<A: Allocator>(summary: &Summary<A>, from: u8, to: u8) -> Rate {
    let report = |what| Report {
        cell: Some(from),
        to: Some(to),
        what,
    };
    Rate {
        asked: summary.count(report(What::Began(AttemptKind::Internal))),
        done: summary.count(report(What::Completed(Some(AttemptKind::Internal)))),
    }
}

/// The attempts from one cell to another, and how many were completed; `None` for a cell of another controller.
pub(crate) fn moved<A: Allocator>(summary: &Summary<A>, from: Option<u8>, to: Option<u8>) -> Rate {
    match (from, to) {
        (Some(from), Some(to)) => reported(summary, from, to),
        (Some(from), None) => rate_of(
            summary,
            Scope::Cell(from),
            Tried::Attempts(AttemptKind::Outgoing),
        ),
        (None, Some(to)) => rate_of(
            summary,
            Scope::Cell(to),
            Tried::Attempts(AttemptKind::Incoming),
        ),
        (None, None) => Rate { asked: 0, done: 0 },
    }
}

/// So many ends an attempt may have: each cell, and behind them another controller.
pub(crate) const ENDS: u16 = 257;

/// The end at a place: a cell, or behind all of them another controller.
pub(crate) fn end_at(place: u16) -> Option<u8> {
    u8::try_from(place).ok()
}

/// Whether an attempt may have begun at an end.
pub(crate) fn is_begin<A: Allocator>(summary: &Summary<A>, from: Option<u8>) -> bool {
    match from {
        Some(cell) => summary.has_cell(cell),
        None => true,
    }
}

/// Whether an attempt may have led to an end.
pub(crate) fn is_goal<A: Allocator>(summary: &Summary<A>, to: Option<u8>) -> bool {
    match to {
        Some(cell) => summary.leads_to(cell),
        None => true,
    }
}
