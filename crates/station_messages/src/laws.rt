//! Laws of texts.
ghost use Rattle.octet_elements.specs.Texts.{ReadingIsUnique};
ghost use Rattle.station_messages.specs.Types.{head_codec};
ghost use Rattle.station_messages.specs.Texts.{codec, CanonicalIsText};

/// Octets have either one head or one fault in it.
pub fn heads_are_unique()
    ensures unique { ReadingIsUnique head_codec }
{}

/// Octets have one reading: a text has one value and no fault, and no octets have two faults.
pub fn reading_is_unique()
    ensures unique { ReadingIsUnique codec }
{}

/// The canonical text of a message is a text of it, so reading what was written gives the message, exactly if its timeslot
/// is 0 to 7.
pub fn canonical_is_text()
    ensures text { CanonicalIsText }
{}
