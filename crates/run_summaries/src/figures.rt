//! The lines that show the counts of one controller, in all and for each cell.
use radio_book::event::AttemptKind;
use run_counts::{Cause, Summary, What};
use std::alloc::Allocator;

/// Of which reports.
#[derive(Clone, Copy, Debug, PartialEq, Eq)]
pub(crate) enum Scope {
    /// All.
    All,
    /// Those that are told of this cell.
    Cell(u8),
}

/// A figure that is shown.
#[derive(Clone, Copy)]
pub(crate) enum Figure {
    /// How often just this came.
    Of(What),
    /// How many attempts were completed, of whatever kind.
    Completed,
}

/// What is shown of what is counted but messages, with its words, in this order.
pub(crate) const FIGURES: &[(Figure, &str)] = &[
    (Figure::Of(What::Opened), "calls opened"),
    (Figure::Of(What::Cleared), "calls cleared"),
    (
        Figure::Of(What::Began(AttemptKind::Internal)),
        "internal attempts",
    ),
    (
        Figure::Of(What::Began(AttemptKind::Incoming)),
        "incoming attempts",
    ),
    (
        Figure::Of(What::Began(AttemptKind::Outgoing)),
        "outgoing attempts",
    ),
    (Figure::Completed, "completed"),
    (
        Figure::Of(What::Undone(Cause::ActivationRefused)),
        "undone: activation refused",
    ),
    (
        Figure::Of(What::Undone(Cause::MobileReturned)),
        "undone: mobile returned",
    ),
    (Figure::Of(What::Undone(Cause::Timer)), "undone: timer"),
    (
        Figure::Of(What::Undone(Cause::CentreRejected)),
        "undone: rejected by the centre",
    ),
    (
        Figure::Of(What::Undone(Cause::Operator)),
        "undone: operator",
    ),
    (
        Figure::Of(What::Undone(Cause::CallCleared)),
        "undone: call cleared",
    ),
    (
        Figure::Of(What::Undone(Cause::Untold)),
        "undone: cause not told",
    ),
    (Figure::Of(What::TurnedAway), "turned away (none free)"),
    (Figure::Of(What::Fault), "faults"),
];

/// How often something came.
pub(crate) fn count_of<A: Allocator>(summary: &Summary<A>, scope: Scope, what: What) -> u64 {
    match scope {
        Scope::All => summary.count_in_all(what),
        Scope::Cell(cell) => summary.count_in(cell, what),
    }
}

/// The ways in which an attempt counts as completed: its kind is told or not.
const COMPLETED: [What; 4] = [
    What::Completed(Some(AttemptKind::Internal)),
    What::Completed(Some(AttemptKind::Incoming)),
    What::Completed(Some(AttemptKind::Outgoing)),
    What::Completed(None),
];

/// How many attempts were completed.
fn completed<A: Allocator>(summary: &Summary<A>, scope: Scope) -> u64 {
    let mut count: u64 = 0;
    for what in COMPLETED {
        count = count.saturating_add(count_of(summary, scope, what));
    }
    count
}

/// A figure.
pub(crate) fn figure_of<A: Allocator>(summary: &Summary<A>, scope: Scope, figure: Figure) -> u64 {
    match figure {
        Figure::Of(what) => count_of(summary, scope, what),
        Figure::Completed => completed(summary, scope),
    }
}
