//! The last reports of a call.
ghost use Rattle.std.specs.Prelude.{◌≡◌, ◌≤◌, IfSome};

use measurements::Window;
use rr_elements::MeasResults;
use std::alloc::{AllocError, Allocator, Global};
use std::marker::Model;

/// The last valid reports of a call, and how many count.
#[derive(Drop)]
pub(crate) struct Last<A: Allocator = Global> {
    width: usize,
    window: Window<A>,
}

impl<A: Allocator> Model for Last<A> {
    ghost use Rattle.std.specs.Prelude.{◌≡◌};
    ghost use Rattle.measurements.specs.Reports.{Reports};

    ghost Value = { Reports };

    ghost view = { λ last. last.window };

    ghost invariant = { λ last. last.window.width ≡ last.width };
}

impl<A: Allocator> Last<A> {
    /// No report yet; the last `width` valid ones count, 1 to 32.
    pub(crate) fn new(alloc: A, width: usize) -> Result<Last<A>, AllocError>
        requires some { 1 ≤ width }
        requires most { width ≤ 32 }
    {
        let window = Window::new(alloc, width)?;
        Ok(Last { width, window })
    }

    /// Adds a report.
    pub(crate) fn add(&mut self, report: &MeasResults) {
        self.window.add(report);
    }

    /// The reports, where so many count.
    pub(crate) fn of_width(&self, width: usize) -> Option<&Window<A>>
        ensures width { IfSome result (λ window. window.now.width ≡ width) }
    {
        if self.width == width {
            Some(&self.window)
        } else {
            None
        }
    }
}
