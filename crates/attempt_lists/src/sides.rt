//! The lines of one controller in the trace of two.
use std::alloc::{AllocError, Allocator};
use trace_text::trace::Mark;

/// Whether a trace is of two controllers.
pub fn is_of_two(trace: &str) -> bool {
    trace
        .split('\n')
        .any(|line| line.starts_with("1: ") || line.starts_with("2: "))
}

/// Whether a line is read for what it says of a controller, and doesn't say of which: it has no mark.
fn lacks_mark(line: &str) -> bool {
    line.starts_with("in ") || line.starts_with("event ") || line.starts_with("none free ")
}

/// The first line of a trace of two controllers, counted from 1, that belongs to one of them but has no mark.
pub fn first_unmarked(trace: &str) -> Option<usize> {
    let index = trace.split('\n').position(|line| lacks_mark(line))?;
    Some(index.saturating_add(1))
}

/// A controller's line without its mark; nothing of another's.
fn line_of(mark: Mark, line: &str) -> &str {
    match mark {
        Mark::Alone => line,
        Mark::First => line.strip_prefix("1: ").unwrap_or(""),
        Mark::Peer => line.strip_prefix("2: ").unwrap_or(""),
    }
}

/// The trace of only the controller with this mark: each of its lines is where it was, and the other's lines are empty.
pub fn side_text<A: Allocator + Copy>(
    alloc: A,
    mark: Mark,
    trace: &str,
) -> Result<String<A>, AllocError> {
    let mut side = String::new(alloc);
    for line in trace.split('\n') {
        side.push_str(line_of(mark, line))?;
        side.push_str("\n")?;
    }
    Ok(side)
}
