//! Attempts at handover that were undone.
ghost use Rattle.std.specs.Prelude.{◌≡◌};
ghost use Rattle.link_machine.specs.Attempts.{shown_on, undone_on, end_on};

use crate::calls::is_target;
use channel_fsm::ChanId;
use link_tables::AttemptEnd;
use radio_book::event::{Event, Reply};
use radio_book::facts;

/// The channel on which the call that a reply shows is served.
fn shown_on(reply: Reply) -> Option<ChanId>
    ensures { result ≡ shown_on reply }
{
    match reply {
        Reply::Record(shown, _) => shown.serving,
        Reply::Done | Reply::Owned(_) | Reply::Refused(_) => None,
    }
}

/// The serving channel of the call whose attempt at handover this event undoes, as its reply shows. `None` if no attempt is
/// undone, or if the call has no serving channel because it came from another controller.
pub fn undone_on(event: Event, reply: Reply) -> Option<ChanId>
    ensures served { result ≡ undone_on event reply }
{
    match facts::facts_of(event).undoes {
        Some(_) => shown_on(reply),
        None => None,
    }
}

/// How an attempt ended that was undone, for the channel that serves its call. `back` is the channel that the mobile says it
/// came back to.
pub fn end_on(back: Option<ChanId>, chan: ChanId) -> AttemptEnd
    ensures end { result ≡ end_on back chan }
{
    if is_target(chan, back) {
        return AttemptEnd::CameBack;
    }
    AttemptEnd::TakenBack
}
