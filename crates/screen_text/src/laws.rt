//! What counting octet by octet comes to.
ghost use Rattle.screen_text.specs.Lines.{CountsLines};

/// The number that a text gives from the begin on is that of those lines which it ends and which count, up to the highest
/// number of 64 bits.
pub fn lines_are_counted()
    ensures lines { CountsLines }
{}
