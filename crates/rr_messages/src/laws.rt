//! Laws of the messages' texts.
ghost use Rattle.std.specs.Prelude.{◌≡◌, ℕ, List};
ghost use Rattle.rr_elements.specs.Faults.{FaultIsUnique};
ghost use Rattle.rr_messages.specs.declared.message.Rr.{Rr};
ghost use Rattle.rr_messages.specs.Rr.{Fits, IsRrText, HasRrFault, rr_text};

/// Each message has a text, the one that is written, and it is a text of that message alone.
pub fn read_again()
    ensures text { (v : Rr) → Fits v → IsRrText v (rr_text v) }
    ensures again { (v w : Rr) → Fits v → IsRrText w (rr_text v) → w ≡ v }
{}

/// No octets are a text of two messages, so no two messages are written alike.
pub fn one_value()
    ensures texts { (v w : Rr) (octets : List ℕ) → IsRrText v octets → IsRrText w octets → v ≡ w }
    ensures written { (v w : Rr) → Fits v → Fits w → rr_text v ≡ rr_text w → v ≡ w }
{}

/// A text has no fault, and no octets have two.
pub fn one_fault()
    ensures unique { FaultIsUnique IsRrText HasRrFault }
{}
