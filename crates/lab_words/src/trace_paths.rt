//! The paths of traces.

/// Whether a trace needs its end.
#[derive(Clone, Copy, Debug, PartialEq, Eq)]
pub enum TraceEnd {
    /// It does. A trace without its end was cut, or its run isn't over.
    Needed,
    /// It doesn't. What is there of it is read.
    Optional,
}

/// The trace that a command reads.
#[derive(Clone, Copy, Debug, PartialEq, Eq)]
pub struct TracePath<'a> {
    /// The path of its file.
    pub path: &'a str,
    pub end: TraceEnd,
}
