//! Laws of the table: a step of others commutes with the taking away of what an attempt has. They are of no
//! standard, but ours.
//!
//! While an attempt is open, all that it has may be taken out of the book: its channel, its reference, its
//! timer and itself. A step that is not by the attempt's call, nor a station's on its target, and is not
//! refused for its target or its reference, comes to the same book whether it stands before the taking away
//! or after it, and is answered the same.
//!
//! Once the attempt was undone and its target's release is awaited, the target alone may be taken out. A step
//! that is not a station's on the target, and is not refused for it, commutes with that in the same way, be it
//! by the attempt's call or by another.
//!
//! There is one law for all events, and one that ties the two phases: an undo and then the taking out of the target
//! leave what the taking away of the whole attempt leaves.
//!
//! Four more say what an induction over events needs: such a step leaves the attempt as it is, and the target off
//! while its release is awaited; the opening of an attempt adds what it has, and nothing else; and its own steps
//! change that alone, until one ends it.

ghost use Rattle.radio_book.specs.declared.event.Event.{Event};
ghost use Rattle.radio_book.specs.Others.{CommutesWithUndone, LeavesOpenAttempts, LeavesOffTargets, UndoneIsRemoved, OpeningsAddTheAttempt, OwnStepsChangeTheAttempt};

/// A step of others commutes with the taking away, whichever event it is, in both phases.
pub fn steps_commute()
    ensures commutes { (e : Event) → CommutesWithUndone e }
{}

/// An undo, and then its target out of the book: the attempt is out of the book.
pub fn undone_is_removed()
    ensures removed { UndoneIsRemoved }
{}

/// The opening of an attempt adds to the book what the attempt has, and nothing else.
pub fn openings_add_the_attempt()
    ensures added { OpeningsAddTheAttempt }
{}

/// A step of an open attempt's own that doesn't end it, accepted or refused, changes what the attempt has, and nothing
/// else in the book. The attempt stays open, with its target; it gets its reference by the one Reserve that is accepted.
pub fn own_steps_change_the_attempt()
    ensures changed { OwnStepsChangeTheAttempt }
{}

/// A step of others leaves an open attempt as it is.
pub fn steps_leave_open_attempts()
    ensures leaves { (e : Event) → LeavesOpenAttempts e }
{}

/// A step of others leaves the target of an undone attempt off, while its release is awaited.
pub fn steps_leave_off_targets()
    ensures leaves { (e : Event) → LeavesOffTargets e }
{}
