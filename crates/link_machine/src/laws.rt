//! Laws of channels and of calls: their clauses are the statements, and their bodies are empty.
ghost use Rattle.link_machine.specs.Laws.{SettledAgrees, ToldAgrees, LinkedAgrees, BarsHold, ToldClocks, LinkedClocks, SettledClocks};
ghost use Rattle.link_machine.specs.Timers.{TimersFollow, NoTimersRun, ChangesFollow};

/// After a turn of the controller a channel agrees with the book, whatever both were before it, unless the controller is
/// still owed something about the channel: free or held with `Rest` and `Closing`, pending with `Activating` and
/// `Reopening`, on with `On` and `Lost`, off with `Mobile`, `Guard` and `Releasing`.
pub fn settled_agrees()
    ensures law { SettledAgrees }
{}

/// If a channel agreed with the book before it was told something, it agrees with it after that, unless the controller is to
/// be given what was told, or is owed something about the channel.
pub fn told_agrees()
    ensures told { ToldAgrees }
    ensures linked { LinkedAgrees }
{}

/// After a turn the bar of a channel is the call that has the channel, unless the controller is still owed something about
/// the channel.
pub fn bars_hold()
    ensures law { BarsHold }
{}

/// The clock of a bar runs exactly if its channel is at rest, and a clock ends the bar. What starts and stops makes this so
/// each time that the channel is told something, and after each turn.
pub fn clocks_run()
    ensures told { ToldClocks }
    ensures linked { LinkedClocks }
    ensures settled { SettledClocks }
{}

/// T3103, T7 and T8 run exactly if a book has them armed. This is so when nothing has happened yet. It is so again after
/// each turn with all its events followed ([`crate::Machine::follow`]). What starts and stops takes the timer of the old note
/// to that of the new one.
pub fn timers_follow()
    ensures follow { TimersFollow }
    ensures begin { NoTimersRun }
    ensures changes { ChangesFollow }
{}
