//! Laws of the table, of every book and every event. Ours, of no standard.
ghost use Rattle.radio_book.specs.Run.{StepsKeepSound, RefusedEventsChangeNothing, RunsAreSound, LeadsIsRun};
ghost use Rattle.radio_book.specs.Channels.{ChannelsTakeSteps};
ghost use Rattle.radio_book.specs.Journal.{InversesUndo};
ghost use Rattle.radio_book.specs.NoTrace.{UndoneAttemptsLeaveNoTrace};
ghost use Rattle.radio_book.specs.Following.{UndosShowTheirTargets};
ghost use Rattle.radio_book.specs.Together.{SettledAttemptsLeaveNoTrace};

/// Every event leads from a sound book to a sound one.
pub fn steps_keep_sound()
    ensures sound { StepsKeepSound }
{}

/// A refused event leaves the book as it was.
pub fn refused_events_change_nothing()
    ensures nothing { RefusedEventsChangeNothing }
{}

/// The book of a site is sound after any events.
pub fn runs_are_sound()
    ensures sound { RunsAreSound }
{}

/// The stored inverses of an open attempt, run in reverse order, are its undo.
pub fn inverses_undo()
    ensures undone { InversesUndo }
{}

/// Events with their replies lead to a book exactly if it is the book after them, and these are their replies.
pub fn leads_is_run()
    ensures run { LeadsIsRun }
{}

/// Whatever changes the state of a channel is a step of the channel: one that the event may make it take, and of the one
/// channel that the event may change.
pub fn channels_take_steps()
    ensures steps { ChannelsTakeSteps }
{}

/// An undone attempt leaves no trace. From every sound book, by any events: if the attempt is settled, and none of the other
/// events met a held refusal, the book is the one to which the other events alone lead, and each of them got the same reply.
pub fn undone_attempts_leave_no_trace()
    ensures no_trace { UndoneAttemptsLeaveNoTrace }
{}

/// The record that an undo shows, as it was before, says whether the undo left the attempt's target off, so that a release is
/// awaited: where by its stage it may be active.
pub fn undos_show_their_targets()
    ensures shown { UndosShowTheirTargets }
{}

/// All settled attempts together leave no trace. From every sound book, by any events: if no step was refused because of
/// what one of the undone and settled attempts held, the book is the one to which the remaining steps alone lead, and each
/// of them got the same reply.
pub fn settled_attempts_leave_no_trace()
    ensures no_trace { SettledAttemptsLeaveNoTrace }
{}
