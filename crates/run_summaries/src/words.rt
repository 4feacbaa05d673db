//! The counts in words.
//!
//! No clause says what is printed: tests show it. `run_counts` says what the numbers are.
use crate::figures::{FIGURES, Figure, Scope, count_of, figure_of};
use crate::rates::{ENDS, RATES, Rate, Tried, end_at, is_begin, is_goal, moved, rate_of};
use crate::runs::RunSummary;
use run_counts::{Summary, What};
use std::alloc::Allocator;
use std::fmt;
use trace_text::trace::Mark;

/// The counts of one controller or two, a line for each figure: `summary`, `all` or a cell, the number, and what was counted,
/// behind the controller's mark where there are two. Behind those of all cells stand the attempts from each cell to each other.
#[derive(Drop)]
pub struct SummaryWords<'a, A: Allocator>(pub &'a RunSummary<A>);

/// What stands in front of a number.
#[derive(Clone, Copy)]
struct Head {
    mark: Mark,
    scope: Scope,
}

impl fmt::Display for Head {
    fn fmt<W: fmt::Write>(&self, f: &mut fmt::Formatter<W>) -> fmt::Result {
        let mark = self.mark;
        match self.scope {
            Scope::All => write!(f, "{mark}summary all     "),
            Scope::Cell(cell) => write!(f, "{mark}summary cell {cell:<3}"),
        }
    }
}

/// Whether a figure is shown: in all that of anything but messages, for a cell and of messages what came.
fn is_shown(scope: Scope, is_message: bool, count: u64) -> bool {
    match scope {
        Scope::All => !is_message || count > 0,
        Scope::Cell(_) => count > 0,
    }
}

/// A figure, where it is shown.
fn write_figure<A: Allocator, W: fmt::Write>(
    f: &mut fmt::Formatter<W>,
    head: Head,
    summary: &Summary<A>,
    shown: Figure,
    words: &str,
) -> fmt::Result {
    let count = figure_of(summary, head.scope, shown);
    if !is_shown(head.scope, false, count) {
        return Ok(());
    }
    writeln!(f, "{head} {count:>7} {words}")
}

/// How often a message came or was sent, where it did.
fn write_message<A: Allocator, W: fmt::Write>(
    f: &mut fmt::Formatter<W>,
    head: Head,
    summary: &Summary<A>,
    what: What,
    direction: &str,
    name: &str,
) -> fmt::Result {
    let count = count_of(summary, head.scope, what);
    if !is_shown(head.scope, true, count) {
        return Ok(());
    }
    writeln!(f, "{head} {count:>7} {direction} {name}")
}

/// Tenths of a percent, as wide as a number.
#[derive(Clone, Copy)]
struct Percent(Option<u128>);

impl fmt::Display for Percent {
    fn fmt<W: fmt::Write>(&self, f: &mut fmt::Formatter<W>) -> fmt::Result {
        match self.0 {
            Some(tenths) => write!(f, "{:>5}.{}", tenths / 10, tenths % 10),
            None => f.write_str("      -"),
        }
    }
}

/// How much of something succeeded: in all also where nothing was tried.
fn write_rate<A: Allocator, W: fmt::Write>(
    f: &mut fmt::Formatter<W>,
    head: Head,
    summary: &Summary<A>,
    tried: Tried,
    words: &str,
) -> fmt::Result {
    let rate = rate_of(summary, head.scope, tried);
    if head.scope != Scope::All && rate.is_empty() {
        return Ok(());
    }
    let percent = Percent(rate.tenths());
    let Rate { asked, done } = rate;
    writeln!(f, "{head} {percent} % of {words}: {done} of {asked}")
}

/// All figures of a scope.
fn write_figures<A: Allocator, W: fmt::Write>(
    f: &mut fmt::Formatter<W>,
    head: Head,
    summary: &Summary<A>,
) -> fmt::Result {
    for (shown, words) in FIGURES {
        write_figure(f, head, summary, *shown, *words)?;
    }
    Ok(())
}

/// How much of what was tried in a scope succeeded.
fn write_rates<A: Allocator, W: fmt::Write>(
    f: &mut fmt::Formatter<W>,
    head: Head,
    summary: &Summary<A>,
) -> fmt::Result {
    for (tried, words) in RATES {
        write_rate(f, head, summary, *tried, *words)?;
    }
    Ok(())
}

/// All messages of a scope.
fn write_messages<A: Allocator, W: fmt::Write>(
    f: &mut fmt::Formatter<W>,
    head: Head,
    summary: &Summary<A>,
    names: &[String<A>],
) -> fmt::Result {
    for (place, name) in names.iter().enumerate() {
        write_message(f, head, summary, What::Received(place), "in", name)?;
        write_message(f, head, summary, What::Sent(place), "out", name)?;
    }
    Ok(())
}

/// All that is shown of a scope.
fn write_scope<A: Allocator, W: fmt::Write>(
    f: &mut fmt::Formatter<W>,
    head: Head,
    summary: &Summary<A>,
    names: &[String<A>],
) -> fmt::Result {
    write_figures(f, head, summary)?;
    write_rates(f, head, summary)?;
    write_messages(f, head, summary, names)
}

/// An end of an attempt: a cell, or `-` for another controller.
#[derive(Clone, Copy)]
struct End(Option<u8>);

impl fmt::Display for End {
    fn fmt<W: fmt::Write>(&self, f: &mut fmt::Formatter<W>) -> fmt::Result {
        match self.0 {
            Some(cell) => write!(f, "{cell:<3}"),
            None => f.write_str("-  "),
        }
    }
}

/// The attempts from one end to another, where there were some.
fn write_moved<A: Allocator, W: fmt::Write>(
    f: &mut fmt::Formatter<W>,
    mark: Mark,
    summary: &Summary<A>,
    from: Option<u8>,
    to: Option<u8>,
) -> fmt::Result {
    let rate = moved(summary, from, to);
    if rate.is_empty() {
        return Ok(());
    }
    let (from, to) = (End(from), End(to));
    let Rate { asked, done } = rate;
    writeln!(
        f,
        "{mark}summary from {from} to {to} {asked:>7} attempts, {done} completed"
    )
}

/// The attempts from one end to each other.
fn write_from<A: Allocator, W: fmt::Write>(
    f: &mut fmt::Formatter<W>,
    mark: Mark,
    summary: &Summary<A>,
    from: Option<u8>,
) -> fmt::Result {
    for place in 0..ENDS {
        let to = end_at(place);
        if is_goal(summary, to) {
            write_moved(f, mark, summary, from, to)?;
        }
    }
    Ok(())
}

/// The attempts from each end to each other.
fn write_table<A: Allocator, W: fmt::Write>(
    f: &mut fmt::Formatter<W>,
    mark: Mark,
    summary: &Summary<A>,
) -> fmt::Result {
    for place in 0..ENDS {
        let from = end_at(place);
        if is_begin(summary, from) {
            write_from(f, mark, summary, from)?;
        }
    }
    Ok(())
}

/// What is shown of each cell that something is told of.
fn write_cells<A: Allocator, W: fmt::Write>(
    f: &mut fmt::Formatter<W>,
    mark: Mark,
    summary: &Summary<A>,
    names: &[String<A>],
) -> fmt::Result {
    for cell in 0..=u8::MAX {
        if summary.has_cell(cell) {
            let scope = Scope::Cell(cell);
            write_scope(f, Head { mark, scope }, summary, names)?;
        }
    }
    Ok(())
}

/// All that is shown of a controller.
fn write_controller<A: Allocator, W: fmt::Write>(
    f: &mut fmt::Formatter<W>,
    mark: Mark,
    summary: &Summary<A>,
    names: &[String<A>],
) -> fmt::Result {
    let scope = Scope::All;
    write_scope(f, Head { mark, scope }, summary, names)?;
    write_cells(f, mark, summary, names)?;
    write_table(f, mark, summary)
}

impl<A: Allocator + Copy> fmt::Display for SummaryWords<'_, A> {
    fn fmt<W: fmt::Write>(&self, f: &mut fmt::Formatter<W>) -> fmt::Result {
        let run = self.0;
        let names = run.names.texts();
        match &run.peer {
            None => write_controller(f, Mark::Alone, &run.first, names),
            Some(peer) => {
                write_controller(f, Mark::First, &run.first, names)?;
                write_controller(f, Mark::Peer, peer, names)
            }
        }
    }
}
