//! Laws of the elements' texts.
ghost use Rattle.std.specs.Prelude.{◌≡◌, ℕ, List, ◌<◌, ◌^◌};
ghost use Rattle.rr_elements.specs.Faults.{HasOtherLength, FaultIsUnique};
ghost use Rattle.rr_elements.specs.CellDescription.{Cell, CellFits, IsCellText, cell_text};
ghost use Rattle.rr_elements.specs.ChanDescription.{Chan, ChanFits, IsChanText, chan_text, HasChanFault};
ghost use Rattle.rr_elements.specs.Power.{PowerCommand, PowerFits, IsPowerText, power_text};
ghost use Rattle.rr_elements.specs.RrCause.{IsCauseText, cause_text};
ghost use Rattle.rr_elements.specs.declared.cause.RrCause.{RrCause};
ghost use Rattle.rr_elements.specs.MeasResults.{Results, ResultsFit, IsResultsText, results_text};

/// What is written of a value is a text of it.
pub fn has_text()
    ensures cell { (v : Cell) → CellFits v → IsCellText v (cell_text v) }
    ensures channel { (v : Chan) → ChanFits v → IsChanText v (chan_text v) }
    ensures power { (v : PowerCommand) → PowerFits v → IsPowerText v (power_text v) }
    ensures cause { (v : RrCause) → v.0 < 2 ^ 8 → IsCauseText v (cause_text v) }
    ensures results { (v : Results) → ResultsFit v → IsResultsText v (results_text v) }
{}

/// No octets are a text of two values.
pub fn one_value()
    ensures cell { (v w : Cell) (octets : List ℕ) → IsCellText v octets → IsCellText w octets →
        v ≡ w }
    ensures channel { (v w : Chan) (octets : List ℕ) → IsChanText v octets → IsChanText w octets →
        v ≡ w }
    ensures power { (v w : PowerCommand) (octets : List ℕ) → IsPowerText v octets →
        IsPowerText w octets → v ≡ w }
    ensures cause { (v w : RrCause) (octets : List ℕ) → IsCauseText v octets →
        IsCauseText w octets → v ≡ w }
    ensures results { (v w : Results) (octets : List ℕ) → IsResultsText v octets →
        IsResultsText w octets → v ≡ w }
{}

/// A text has no fault, and no octets have two.
pub fn one_fault()
    ensures cell { FaultIsUnique IsCellText (HasOtherLength 2) }
    ensures channel { FaultIsUnique IsChanText HasChanFault }
    ensures power { FaultIsUnique IsPowerText (HasOtherLength 1) }
    ensures cause { FaultIsUnique IsCauseText (HasOtherLength 1) }
    ensures results { FaultIsUnique IsResultsText (HasOtherLength 16) }
{}
