//! Laws of texts.
ghost use Rattle.octet_elements.specs.Texts.{ReadingIsUnique};
ghost use Rattle.bssmap_messages.specs.Texts.{codec, CanonicalIsText};

use std::alloc::Allocator;

/// Octets have one reading: a text has one value and no fault but refused memory, and no octets have two faults.
pub fn reading_is_unique<A: Allocator>()
    ensures unique { ReadingIsUnique (codec A) }
{}

/// Which messages have a canonical text, which is a text of them, so that reading what was written gives them.
pub fn canonical_is_text<A: Allocator>()
    ensures text { CanonicalIsText A }
{}
