//! What a reply says.
ghost use Rattle.std.specs.Prelude.{◌≡◌};
ghost use Rattle.radio_book.specs.Kinds.{refusal_of};

use crate::event::{Refusal, Reply};

/// Why an event was refused, if it was.
pub fn refusal_of(reply: Reply) -> Option<Refusal>
    ensures { result ≡ refusal_of reply }
{
    match reply {
        Reply::Refused(refusal) => Some(refusal),
        Reply::Done | Reply::Record(_, _) | Reply::Owned(_) => None,
    }
}
