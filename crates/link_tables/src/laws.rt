//! Laws of the table: their clauses are the statements, and their bodies are empty.
ghost use Rattle.link_tables.specs.Laws.{SettledAgrees, HeardAgrees, HeardAsksOnce, SettledAsksOnce, HeardAwaits, SettledAwaits};
ghost use Rattle.link_tables.specs.Laws.{ClosingEnds, HeardRuns, SettledRuns, ClockRuns};

/// After a turn the channel agrees with the book, whatever both were before it: free or held with `Rest` and `Closing`,
/// pending with `Activating` and `Reopening`, on with `On` and `Lost`, off with `Mobile`, `Guard` and `Releasing`. If the
/// controller is given an answer in the station's place, they agree once it has read this answer.
pub fn settled_agrees()
    ensures law { SettledAgrees }
{}

/// What is heard about a channel that agrees with the book leaves this so, or is given to the controller, or both. If it is
/// given, they agree after the turn that follows.
pub fn heard_agrees()
    ensures law { HeardAgrees }
{}

/// A release or an activation is sent only if no release is awaited. A release is awaited exactly if it was sent, wasn't
/// answered, and its link wasn't lost since.
pub fn one_release()
    ensures heard { HeardAsksOnce }
    ensures settled { SettledAsksOnce }
    ensures awaited_where_heard { HeardAwaits }
    ensures awaited_where_settled { SettledAwaits }
{}

/// Only RF CHANNEL RELEASE ACKNOWLEDGE or the end of the link ends `Closing`.
pub fn closing_ends_by_the_station()
    ensures law { ClosingEnds }
{}

/// A channel's timer runs exactly in the state that it belongs to, and the clock of its bar exactly if it is to.
pub fn timers_run_in_their_states()
    ensures heard { HeardRuns }
    ensures settled { SettledRuns }
    ensures bar { ClockRuns }
{}
