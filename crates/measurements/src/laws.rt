//! Laws of windows.
ghost use Rattle.std.specs.Prelude.{◌≡◌, ℕ, List, []};
ghost use Rattle.measurements.specs.Reports.{added, last_valid};
ghost use Rattle.rr_elements.specs.MeasResults.{Results};

/// If reports are added to an empty window, one after the other, it keeps the last valid ones.
pub fn added_reports_are_the_last_valid()
    ensures law { (width : ℕ) (reports : List Results) →
        added width [] reports ≡ last_valid width reports }
{}
