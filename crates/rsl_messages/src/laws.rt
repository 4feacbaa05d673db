//! Laws of texts.
ghost use Rattle.octet_elements.specs.Texts.{ReadingIsUnique};
ghost use Rattle.rsl_messages.specs.Texts.{codec, CanonicalIsText};

use std::alloc::Allocator;

/// Octets have one reading: a text has one value and no fault but refused memory, and no octets have
/// two faults.
pub fn reading_is_unique<A: Allocator>()
    ensures unique { ReadingIsUnique (codec A) }
{}

/// The canonical text of a message is a text of it, so reading what was written gives the message exactly if its fields can
/// be said and the text isn't too long.
pub fn canonical_is_text<A: Allocator>()
    ensures text { CanonicalIsText A }
{}
