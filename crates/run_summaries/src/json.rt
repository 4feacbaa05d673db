//! The counts as one JSON object.
//!
//! No clause says what is written: tests show it. `run_counts` says what the numbers are.
use crate::figures::{Figure, Scope, count_of, figure_of};
use crate::rates::{ENDS, Rate, Tried, end_at, is_begin, is_goal, moved, rate_of};
use crate::runs::RunSummary;
use radio_book::event::AttemptKind;
use run_counts::{Cause, Summary, What};
use serde::Serialize;
use std::alloc::{AllocError, Allocator, Global};
use std::collections::BTreeMap;

#[derive(Drop, Serialize)]
struct Calls {
    opened: u64,
    cleared: u64,
}

#[derive(Drop, Serialize)]
struct Attempts {
    internal: u64,
    incoming: u64,
    outgoing: u64,
}

#[derive(Drop, Serialize)]
struct Undone {
    activation_refused: u64,
    mobile_returned: u64,
    timer: u64,
    rejected_by_centre: u64,
    operator: u64,
    call_cleared: u64,
    not_told: u64,
}

/// How many were asked for, and how many succeeded; in percent, with one digit, rounded down.
#[derive(Drop, Serialize)]
struct Success {
    asked: u64,
    done: u64,
    percent: Option<f64>,
}

#[derive(Drop, Serialize)]
struct Rates {
    activations: Success,
    internal: Success,
    incoming: Success,
    outgoing: Success,
}

/// The attempts from one cell to another; `None` for a cell of another controller.
#[derive(Drop, Serialize)]
struct Moved {
    from: Option<u8>,
    to: Option<u8>,
    attempts: u64,
    completed: u64,
}

/// How often each message came, or was sent, by its name.
type Messages<'a> = BTreeMap<&'a str, u64>;

/// All figures of a scope, by their keys.
#[derive(Drop, Serialize)]
struct Figures<'a> {
    #[serde(skip_serializing_if = "Option::is_none")]
    cell: Option<u8>,
    calls: Calls,
    attempts: Attempts,
    completed: u64,
    undone: Undone,
    turned_away: u64,
    faults: u64,
    rates: Rates,
    received: Messages<'a>,
    sent: Messages<'a>,
}

/// Those of a controller.
#[derive(Drop, Serialize)]
struct Controller<'a> {
    all: Figures<'a>,
    cells: Vec<Figures<'a>>,
    handovers: Vec<Moved>,
}

/// Those of one controller or two.
#[derive(Drop, Serialize)]
struct Controllers<'a> {
    controllers: Vec<Controller<'a>>,
}

fn calls_of<A: Allocator>(summary: &Summary<A>, scope: Scope) -> Calls {
    Calls {
        opened: count_of(summary, scope, What::Opened),
        cleared: count_of(summary, scope, What::Cleared),
    }
}

fn attempts_of<A: Allocator>(summary: &Summary<A>, scope: Scope) -> Attempts {
    Attempts {
        internal: count_of(summary, scope, What::Began(AttemptKind::Internal)),
        incoming: count_of(summary, scope, What::Began(AttemptKind::Incoming)),
        outgoing: count_of(summary, scope, What::Began(AttemptKind::Outgoing)),
    }
}

fn undone_of<A: Allocator>(summary: &Summary<A>, scope: Scope) -> Undone {
    Undone {
        activation_refused: count_of(summary, scope, What::Undone(Cause::ActivationRefused)),
        mobile_returned: count_of(summary, scope, What::Undone(Cause::MobileReturned)),
        timer: count_of(summary, scope, What::Undone(Cause::Timer)),
        rejected_by_centre: count_of(summary, scope, What::Undone(Cause::CentreRejected)),
        operator: count_of(summary, scope, What::Undone(Cause::Operator)),
        call_cleared: count_of(summary, scope, What::Undone(Cause::CallCleared)),
        not_told: count_of(summary, scope, What::Undone(Cause::Untold)),
    }
}

/// Tenths of a percent in percent.
fn percent_of(tenths: u128) -> f64 {
    f64::from(u32::try_from(tenths).unwrap_or(u32::MAX)) / 10.0
}

fn success_of(rate: Rate) -> Success {
    Success {
        asked: rate.asked,
        done: rate.done,
        percent: rate.tenths().map(percent_of),
    }
}

fn rates_of<A: Allocator>(summary: &Summary<A>, scope: Scope) -> Rates {
    let success = |tried| success_of(rate_of(summary, scope, tried));
    Rates {
        activations: success(Tried::Activations),
        internal: success(Tried::Attempts(AttemptKind::Internal)),
        incoming: success(Tried::Attempts(AttemptKind::Incoming)),
        outgoing: success(Tried::Attempts(AttemptKind::Outgoing)),
    }
}

/// The messages that came, or those that were sent.
fn messages_of<'a, A: Allocator>(
    alloc: Global,
    summary: &Summary<A>,
    scope: Scope,
    names: &'a [String<A>],
    is_sent: bool,
) -> Result<Messages<'a>, AllocError> {
    let mut messages = BTreeMap::new(alloc);
    for (place, name) in names.iter().enumerate() {
        let what = if is_sent {
            What::Sent(place)
        } else {
            What::Received(place)
        };
        let count = count_of(summary, scope, what);
        if count > 0 {
            messages.insert(name.as_str(), count)?;
        }
    }
    Ok(messages)
}

/// The cell of a scope.
fn cell_of(scope: Scope) -> Option<u8> {
    match scope {
        Scope::All => None,
        Scope::Cell(cell) => Some(cell),
    }
}

/// All figures of a scope.
fn figures_of<'a, A: Allocator>(
    alloc: Global,
    summary: &Summary<A>,
    scope: Scope,
    names: &'a [String<A>],
) -> Result<Figures<'a>, AllocError> {
    let received = messages_of(alloc, summary, scope, names, false)?;
    let sent = messages_of(alloc, summary, scope, names, true)?;
    Ok(Figures {
        cell: cell_of(scope),
        calls: calls_of(summary, scope),
        attempts: attempts_of(summary, scope),
        completed: figure_of(summary, scope, Figure::Completed),
        undone: undone_of(summary, scope),
        turned_away: count_of(summary, scope, What::TurnedAway),
        faults: count_of(summary, scope, What::Fault),
        rates: rates_of(summary, scope),
        received,
        sent,
    })
}

/// The figures of each cell that something is told of.
fn cells_of<'a, A: Allocator>(
    alloc: Global,
    summary: &Summary<A>,
    names: &'a [String<A>],
) -> Result<Vec<Figures<'a>>, AllocError> {
    let mut cells = Vec::new(alloc);
    for cell in 0..=u8::MAX {
        if summary.has_cell(cell) {
            cells.push(figures_of(alloc, summary, Scope::Cell(cell), names)?)?;
        }
    }
    Ok(cells)
}

/// Adds the attempts from one end to each other.
fn push_from<A: Allocator>(
    summary: &Summary<A>,
    from: Option<u8>,
    handovers: &mut Vec<Moved>,
) -> Result<(), AllocError> {
    for place in 0..ENDS {
        let to = end_at(place);
        let rate = moved(summary, from, to);
        if is_goal(summary, to) && !rate.is_empty() {
            handovers.push(Moved {
                from,
                to,
                attempts: rate.asked,
                completed: rate.done,
            })?;
        }
    }
    Ok(())
}

/// The attempts from each end to each other.
fn handovers_of<A: Allocator>(
    alloc: Global,
    summary: &Summary<A>,
) -> Result<Vec<Moved>, AllocError> {
    let mut handovers = Vec::new(alloc);
    for place in 0..ENDS {
        let from = end_at(place);
        if is_begin(summary, from) {
            push_from(summary, from, &mut handovers)?;
        }
    }
    Ok(handovers)
}

/// All figures of a controller.
fn controller_of<'a, A: Allocator>(
    alloc: Global,
    summary: &Summary<A>,
    names: &'a [String<A>],
) -> Result<Controller<'a>, AllocError> {
    let cells = cells_of(alloc, summary, names)?;
    let all = figures_of(alloc, summary, Scope::All, names)?;
    let handovers = handovers_of(alloc, summary)?;
    Ok(Controller {
        all,
        cells,
        handovers,
    })
}

/// All figures of one controller or two.
fn controllers_of<'a, A: Allocator + Copy>(
    alloc: Global,
    run: &'a RunSummary<A>,
) -> Result<Controllers<'a>, AllocError> {
    let names = run.names.texts();
    let mut controllers = Vec::new(alloc);
    controllers.push(controller_of(alloc, &run.first, names)?)?;
    if let Some(peer) = &run.peer {
        controllers.push(controller_of(alloc, peer, names)?)?;
    }
    Ok(Controllers { controllers })
}

/// The counts of one controller or two as one JSON object, in one line without its end.
pub fn json_text<A: Allocator + Copy>(
    alloc: Global,
    run: &RunSummary<A>,
) -> Result<String, AllocError> {
    let controllers = controllers_of(alloc, run)?;
    // numbers and names lack nothing but memory
    serde_json::to_string(alloc, &controllers).map_err(|_| AllocError)
}
