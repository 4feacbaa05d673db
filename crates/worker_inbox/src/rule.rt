//! The rule that an inbox keeps, the steps that keep it, and what each tells the thread that makes it.
ghost use Rattle.std.specs.Prelude.{◌≡◌};

use crossbeam_channel::protocol::{Join, Lesson, Outcome, Protocol, Split};
use std::collections::LinkedList;

/// What a pass may do, and what it has sent and taken. It stands in clauses alone: no value of it is made.
pub struct Log<T> {
    /// It may send.
    pub sends: bool,
    /// It may take.
    pub takes: bool,
    /// What it has sent, in its order.
    pub sent: LinkedList<T>,
    /// What it has taken, in its order.
    pub taken: LinkedList<T>,
}

/// The rule: what was sent is what was taken, followed by what waits.
pub struct InOrder;

impl<T> Protocol<T, Log<T>> for InOrder {
    ghost use Rattle.std.specs.Prelude.{true, []};
    ghost use Rattle.worker_inbox.specs.Inbox.{log, Relayed};

    ghost holds = { Relayed };

    ghost first = { log true true [] [] };
}

/// One pass that may do both is cut into one that may send and one that may take, and the two are joined again.
pub struct Roles;

impl<T> Split<Log<T>> for Roles {
    ghost use Rattle.std.specs.Prelude.{true, false, []};
    ghost use Rattle.worker_inbox.specs.Inbox.{log};

    ghost left = { λ v. log true false v.sent [] };

    ghost right = { λ v. log false true [] v.taken };
}

impl<T> Join<Log<T>> for Roles {
    ghost use Rattle.std.specs.Prelude.{true, false, []};
    ghost use Rattle.worker_inbox.specs.Inbox.{log};

    ghost both = { λ v w. log true true v.sent w.taken };

    ghost spent = { log false false [] [] };
}

/// A message is sent, at the back.
pub struct Sends;

impl<T> Outcome<T, Log<T>> for Sends {
    ghost use Rattle.std.specs.Prelude.{◌≡◌, ◌∷◌, ◌++◌, []};
    ghost use Rattle.worker_inbox.specs.Inbox.{log};

    ghost then = { λ v x w. w ≡ log v.sends v.takes (v.sent ++ x ∷ []) v.taken };
}

// Where nothing could be sent, nothing is learned.
impl<T> Lesson<T, Log<T>> for Sends {
    ghost fact = { λ v items. Unit {0} };
}

/// A message is taken, from the front.
pub struct Takes;

impl<T> Outcome<T, Log<T>> for Takes {
    ghost use Rattle.std.specs.Prelude.{◌≡◌, ◌∷◌, ◌++◌, []};
    ghost use Rattle.worker_inbox.specs.Inbox.{log};

    ghost then = { λ v x w. w ≡ log v.sends v.takes v.sent (v.taken ++ x ∷ []) };
}

// Where nothing could be taken, nothing is learned.
impl<T> Lesson<T, Log<T>> for Takes {
    ghost fact = { λ v items. Unit {0} };
}

/// What a pass that may do both learns of all that was sent.
pub struct Total;

impl<T> Lesson<T, Log<T>> for Total {
    ghost use Rattle.std.specs.Prelude.{◌≡◌, ◌++◌};

    ghost fact = { λ v items. v.sent ≡ v.taken ++ items };
}
