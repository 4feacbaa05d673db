//! What is owed in a book: the events that are still to come of what is open in it, one to take back each open attempt,
//! and one to acknowledge the release of each channel in use. Ours, of no standard.
ghost use Rattle.std.specs.Prelude.{◌≡◌, ◌≤◌};
ghost use Rattle.radio_book.specs.declared.event.Event.{Event};
ghost use Rattle.radio_book.specs.Owed.{IsOwedWithin, StepsRaise, OwedEventsLower, most_raised, is_owed};

use crate::event::Event;
use crate::facts::facts_of;

/// No more is owed than calls and channels are in use.
pub fn owed_within()
    ensures within { IsOwedWithin }
{}

/// An event raises what is owed by two at most, and no event does but `Open`, `Take` and `Require`.
pub fn steps_raise()
    ensures raise { StepsRaise }
    ensures two { (e : Event) → most_raised e ≤ 2 }
{}

/// An accepted `Undo` or `Released` lowers what is owed.
pub fn owed_events_lower()
    ensures lower { OwedEventsLower }
{}

/// The event is one that is owed: an attempt is taken back, or the release of a channel is acknowledged.
pub fn is_owed(event: Event) -> bool
    ensures owed { result ≡ is_owed event }
{
    let facts = facts_of(event);
    facts.undoes.is_some() || facts.releases.is_some()
}
