//! Counts of calls and handovers in a history.
ghost use Rattle.std.specs.Prelude.{◌≡◌, ◌&&◌};
ghost use Rattle.radio_book.specs.declared.facts.Milestone.TheVariants as milestone;
ghost use Rattle.radio_book.specs.Facts.{event_facts};
ghost use Rattle.radio_book.specs.Kinds.{is_accepted};
ghost use Rattle.radio_desk.specs.Tally.{is_reached, count_of};

use radio_book::event::{Event, Reply};
use radio_book::facts::{Milestone, facts_of};

/// How many events of each kind a history accepted.
#[derive(Clone, Copy, Debug, PartialEq, Eq)]
pub struct Tally {
    /// Calls that were opened.
    pub calls: usize,
    /// Attempts at handover that began: a channel was taken, or one was required of another controller.
    pub attempts: usize,
    /// Attempts that were completed.
    pub completed: usize,
    /// Attempts that were taken back.
    pub undone: usize,
}

/// Whether a milestone was reached that is this one.
fn is_reached(milestone: Milestone, reached: Option<Milestone>) -> bool
    ensures { result ≡ is_reached milestone reached }
{
    matches!(
        (milestone, reached),
        (Milestone::Opened, Some(Milestone::Opened))
            | (Milestone::Began, Some(Milestone::Began))
            | (Milestone::Commanded, Some(Milestone::Commanded))
            | (Milestone::Completed, Some(Milestone::Completed))
            | (Milestone::Undone, Some(Milestone::Undone))
    )
}

/// Whether a call came to a milestone by an event that was accepted.
fn is_counted(milestone: Milestone, event: Event, reply: Reply) -> bool
    ensures { result ≡ (is_accepted reply && is_reached milestone (event_facts event).milestone) }
{
    reply.is_accepted() && is_reached(milestone, facts_of(event).milestone)
}

/// How often calls came to a milestone.
fn count_of(milestone: Milestone, history: &[(Event, Reply)]) -> usize
    ensures { result ≡ count_of milestone history.now }
{
    history
        .iter()
        .filter(|entry| is_counted(milestone, entry.0, entry.1))
        .count()
}

/// How many calls a history opened, how many attempts it began, and how many of these it completed or took back.
pub(crate) fn tally_of(history: &[(Event, Reply)]) -> Tally
    ensures calls { result.calls ≡ count_of milestone.Opened history.now }
    ensures attempts { result.attempts ≡ count_of milestone.Began history.now }
    ensures completed { result.completed ≡ count_of milestone.Completed history.now }
    ensures undone { result.undone ≡ count_of milestone.Undone history.now }
{
    Tally {
        calls: count_of(Milestone::Opened, history),
        attempts: count_of(Milestone::Began, history),
        completed: count_of(Milestone::Completed, history),
        undone: count_of(Milestone::Undone, history),
    }
}
