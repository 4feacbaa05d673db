//! Whether two replies are the same, and an entry of the history is the one that a receipt has.
ghost use Rattle.std.specs.Prelude.{◌≡◌, ◌↔◌, IsTrue};

use channel_fsm::ChanState;
use radio_book::event::{CallRecord, Event, Refusal, Reply};

fn same_event(one: Event, other: Event) -> bool
    ensures { IsTrue result ↔ (one ≡ other) }
{
    one == other
}

fn same_refusal(one: Refusal, other: Refusal) -> bool
    ensures { IsTrue result ↔ (one ≡ other) }
{
    one == other
}

fn same_record(one: CallRecord, other: CallRecord) -> bool
    ensures { IsTrue result ↔ (one ≡ other) }
{
    one == other
}

fn same_state(one: Option<ChanState>, other: Option<ChanState>) -> bool
    ensures { IsTrue result ↔ (one ≡ other) }
{
    one == other
}

/// Whether two replies are the same.
pub fn is_same_reply(one: &Reply, other: &Reply) -> bool
    ensures same { IsTrue result ↔ (one.now ≡ other.now) }
{
    match *one {
        Reply::Done => match *other {
            Reply::Done => true,
            Reply::Record(_, _) | Reply::Owned(_) | Reply::Refused(_) => false,
        },
        Reply::Record(record, state) => match *other {
            Reply::Record(found, on) => same_record(record, found) && same_state(state, on),
            Reply::Done | Reply::Owned(_) | Reply::Refused(_) => false,
        },
        Reply::Owned(call) => match *other {
            Reply::Owned(owner) => call == owner,
            Reply::Done | Reply::Record(_, _) | Reply::Refused(_) => false,
        },
        Reply::Refused(refusal) => match *other {
            Reply::Refused(why) => same_refusal(refusal, why),
            Reply::Done | Reply::Record(_, _) | Reply::Owned(_) => false,
        },
    }
}

/// Whether the entry is of this event with this reply.
pub(crate) fn is_entry(entry: &(Event, Reply), event: Event, reply: Reply) -> bool
    ensures { IsTrue result ↔ (entry.now ≡ (event, reply)) }
{
    same_event(entry.0, event) && is_same_reply(&entry.1, &reply)
}
