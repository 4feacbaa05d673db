//! Room in a history, and events that a book answers once their entries have it.
//!
//! A history always has room for all that is owed in its book: an entry for each open attempt, which takes it back, and
//! one for each channel in use, which acknowledges its release. Such an event takes no memory, and its entry has the room
//! that was kept for it. Every other event makes room before the book is asked, for its own entry and for those that are
//! owed from then on, and one of these kinds that is refused makes it once the book has answered. So neither uses the room
//! that is kept.
ghost use Rattle.std.specs.Prelude.{◌≡◌, ◌⊎◌, ◌+◌, ◌-◌, ◌^◌, ◌≤◌, IsTrue, false, IfOk, OnOk, OnErr, IsOk, MatchOption, vec_len, vec_capacity};
ghost use Rattle.radio_book.specs.declared.event.Event.{Event};
ghost use Rattle.radio_book.specs.Kinds.{is_accepted};
ghost use Rattle.radio_book.specs.Owed.{owed, is_owed};
ghost use Rattle.radio_book.specs.Sound.{IsSound};
ghost use Rattle.radio_book.specs.Table.{step, reply_to, row, NeedsRoom, MayBeRefused};
ghost use Rattle.radio_desk.specs.Desk.{LacksCapacity};

use radio_book::book::Book;
use radio_book::event::{Event, Reply};
use radio_book::laws::refused_events_change_nothing;
use radio_book::owed::{is_owed, owed_events_lower, owed_within, steps_raise};
use std::alloc::{AllocError, Allocator};

/// How many entries there is to be room for beside those of the calls and channels in use: that of an event, and the two
/// that may be owed because of it.
const MORE_ENTRIES: usize = 3;

/// Room for an entry of each call and channel, and for three more. `None` if that is no `usize`.
fn entries_for(calls: usize, channels: usize) -> Option<usize>
    ensures { MatchOption result (2 ^ 64 ≤ calls + channels + 3)
        (λ entries. entries ≡ calls + channels + 3) }
{
    calls.checked_add(channels)?.checked_add(MORE_ENTRIES)
}

/// Makes room for all that is owed in the book, and for three entries more. The entries stay, also if memory is refused. Its
/// contract also says that the book is sound.
pub(crate) fn make_room<A: Allocator + Copy>(
    history: &mut Vec<(Event, Reply), A>,
    book: &Book<A>,
) -> Result<(), AllocError>
    ensures room { OnOk result (vec_len history.new + (owed book.now + 3)
        ≤ vec_capacity history.new) }
    ensures full { OnErr result
        (LacksCapacity (vec_capacity history.old) (vec_len history.old) book.now) }
    ensures items { history.new.items ≡ history.old.items }
    ensures len { vec_len history.new ≡ vec_len history.old }
    ensures capacity { vec_capacity history.old ≤ vec_capacity history.new }
    ensures sound { IsSound book.now }
{
    owed_within();
    match entries_for(book.calls(), book.channels()) {
        Some(entries) => history.reserve(entries),
        None => Err(AllocError),
    }
}

/// Asks the book an event once there is room for its entry, and for what is owed because of it.
fn answer_any<A: Allocator + Copy>(
    history: &mut Vec<(Event, Reply), A>,
    book: &mut Book<A>,
    event: Event,
) -> Result<Reply, AllocError>
    ensures reply { IfOk result (λ reply. reply ≡ reply_to book.old event) }
    ensures book { OnOk result (book.new ≡ step book.old event) }
    ensures room { OnOk result (vec_len history.new + (owed book.new + 1)
        ≤ vec_capacity history.new) }
    ensures unchanged { OnErr result (book.new ≡ book.old) }
    ensures memory { OnErr result
        (LacksCapacity (vec_capacity history.old) (vec_len history.old) book.old
        ⊎ NeedsRoom book.old (row book.old event)) }
    ensures begins { OnErr result
        (LacksCapacity (vec_capacity history.old) (vec_len history.old) book.old
        ⊎ MayBeRefused false event) }
    ensures items { history.new.items ≡ history.old.items }
    ensures len { vec_len history.new ≡ vec_len history.old }
    ensures capacity { vec_capacity history.old ≤ vec_capacity history.new }
{
    steps_raise();
    make_room(history, book)?;
    book.step(event)
}

/// Asks the book an event that is owed. No memory is asked for where it is accepted: its entry has the room that was kept
/// for it. Where it is refused, room is made for its entry, as for any other.
fn answer_owed<A: Allocator + Copy>(
    history: &mut Vec<(Event, Reply), A>,
    book: &mut Book<A>,
    event: Event,
) -> Result<Reply, AllocError>
    requires owed { IsTrue (is_owed event) }
    requires room { owed book.old ≤ vec_capacity history.old - vec_len history.old }
    ensures reply { IfOk result (λ reply. reply ≡ reply_to book.old event) }
    ensures book { OnOk result (book.new ≡ step book.old event) }
    ensures room { OnOk result (vec_len history.new + (owed book.new + 1)
        ≤ vec_capacity history.new) }
    ensures accepted { IsTrue (is_accepted (reply_to book.old event)) → IsOk result }
    ensures takes_none { IsTrue (is_accepted (reply_to book.old event)) →
        vec_capacity history.new ≡ vec_capacity history.old }
    ensures unchanged { OnErr result (book.new ≡ book.old) }
    ensures memory { OnErr result
        (LacksCapacity (vec_capacity history.old) (vec_len history.old) book.old) }
    ensures items { history.new.items ≡ history.old.items }
    ensures len { vec_len history.new ≡ vec_len history.old }
    ensures capacity { vec_capacity history.old ≤ vec_capacity history.new }
{
    owed_events_lower();
    refused_events_change_nothing();
    let _calls = book.calls();
    let reply = book.step(event)?;
    if reply.is_accepted() {
        return Ok(reply);
    }
    make_room(history, book)?;
    Ok(reply)
}

/// Asks the book an event, and sees that there is room for its entry beside all that is owed then.
pub(crate) fn answer<A: Allocator + Copy>(
    history: &mut Vec<(Event, Reply), A>,
    book: &mut Book<A>,
    event: Event,
) -> Result<Reply, AllocError>
    requires { owed book.old ≤ vec_capacity history.old - vec_len history.old }
    ensures reply { IfOk result (λ reply. reply ≡ reply_to book.old event) }
    ensures book { OnOk result (book.new ≡ step book.old event) }
    ensures room { OnOk result (vec_len history.new + (owed book.new + 1)
        ≤ vec_capacity history.new) }
    ensures accepted { IsTrue (is_owed event) →
        IsTrue (is_accepted (reply_to book.old event)) → IsOk result }
    ensures takes_none { IsTrue (is_owed event) →
        IsTrue (is_accepted (reply_to book.old event)) →
        vec_capacity history.new ≡ vec_capacity history.old }
    ensures unchanged { OnErr result (book.new ≡ book.old) }
    ensures memory { OnErr result
        (LacksCapacity (vec_capacity history.old) (vec_len history.old) book.old
        ⊎ NeedsRoom book.old (row book.old event)) }
    ensures begins { OnErr result
        (LacksCapacity (vec_capacity history.old) (vec_len history.old) book.old
        ⊎ MayBeRefused false event) }
    ensures items { history.new.items ≡ history.old.items }
    ensures len { vec_len history.new ≡ vec_len history.old }
    ensures capacity { vec_capacity history.old ≤ vec_capacity history.new }
{
    if is_owed(event) {
        answer_owed(history, book, event)
    } else {
        answer_any(history, book, event)
    }
}
