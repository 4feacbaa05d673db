//! The last valid reports of a mobile.
ghost use Rattle.std.specs.Prelude.{◌≡◌, ◌≤◌, [], ◌∷◌, ◌++◌, IfOk, IsTrue, false, ◌↔◌, length};
ghost use Rattle.measurements.specs.Reports.{no_reports, is_valid, last_valid, sum_used, sum_named};

use crate::levels::{neighbour_levels, serving_levels};
use circular_buffer::HeapCircularBuffer;
use rr_elements::MeasResults;
use std::alloc::{AllocError, Allocator, Global};
use std::marker::Model;

/// The last valid reports of a mobile, at most as many as the window has room for. The oldest is forgotten when another one
/// comes and the window is full.
#[derive(Drop)]
pub struct Window<A: Allocator = Global> {
    reports: HeapCircularBuffer<MeasResults, A>,
}

impl<A: Allocator> Model for Window<A> {
    ghost use Rattle.measurements.specs.Reports.{Reports};
    ghost use Rattle.measurements.specs.WindowKept.{IsKept};

    ghost Value = { Reports };

    ghost view = { λ a. record { reports = a.reports.items; width = a.reports.capacity } };

    ghost invariant = { λ a. IsKept (record { reports = a.reports.items; width = a.reports.capacity }) };
}

impl<A: Allocator> Window<A> {
    /// An empty window for the last `width` valid reports, 1 to 32. All its memory is asked for here.
    pub fn new(alloc: A, width: usize) -> Result<Window<A>, AllocError>
        requires some { 1 ≤ width }
        requires most { width ≤ 32 }
        ensures empty { IfOk result (λ window. window ≡ no_reports width) }
    {
        let reports = HeapCircularBuffer::with_capacity(alloc, width)?;
        Ok(Window { reports })
    }

    /// Adds a report. An invalid one (MEAS-VALID is 1) changes nothing. If the window is full, the oldest report is dropped.
    pub fn add(&mut self, report: &MeasResults)
        ensures reports { self.new.reports ≡
            last_valid self.old.width (self.old.reports ++ report.now ∷ []) }
        ensures width { self.new.width ≡ self.old.width }
        ensures invalid { is_valid report.now ≡ false → self.new ≡ self.old }
    {
        if report.head().valid {
            let _forgotten = self.reports.push_back(*report);
        }
    }

    /// Forgets all reports. The memory is kept.
    pub fn clear(&mut self)
        ensures empty { self.new ≡ no_reports self.old.width }
    {
        self.reports.clear();
    }

    /// The number of reports.
    pub fn len(&self) -> usize
        ensures len { result ≡ length self.now.reports }
        ensures most { result ≤ self.now.width }
    {
        self.reports.len()
    }

    /// Whether there is no report.
    pub fn is_empty(&self) -> bool
        ensures empty { IsTrue result ↔ (self.now.reports ≡ []) }
    {
        self.reports.is_empty()
    }

    /// The serving cell's levels, added up over the reports: in each RXLEV-FULL, or RXLEV-SUB where transmission was
    /// discontinuous (DTX-USED is 1). At most 2,016.
    pub fn serving_sum(&self) -> u32
        ensures sum { result ≡ sum_used self.now.reports }
        ensures most { result ≤ 2016 }
    {
        let (older, newer) = self.reports.as_slices();
        serving_levels(older) + serving_levels(newer)
    }

    /// The levels of a neighbour cell, added up over the reports, by its carrier's position in the neighbour list and its
    /// base station identity code: in each that of the first neighbour with both, or 0 if there is none. At most 2,016.
    pub fn sum_of(&self, position: u8, bsic: u8) -> u32
        ensures sum { result ≡ sum_named position bsic self.now.reports }
        ensures most { result ≤ 2016 }
    {
        let (older, newer) = self.reports.as_slices();
        neighbour_levels(older, position, bsic) + neighbour_levels(newer, position, bsic)
    }
}
