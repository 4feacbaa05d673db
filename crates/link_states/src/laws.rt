//! Laws of notes: their clauses are the statements, and their bodies are empty.
ghost use Rattle.octet_elements.specs.Texts.{ReadingIsUnique};
ghost use Rattle.link_states.specs.Notes.{channel_codec, call_codec, ChannelsAreReadBack, CallsAreReadBack};

/// What is written of a channel is a text of it, so that it is read as what it was.
pub fn channels_are_read_back()
    ensures law { ChannelsAreReadBack }
{}

/// What is written of a call is a text of it, so that it is read as what it was.
pub fn calls_are_read_back()
    ensures law { CallsAreReadBack }
{}

/// Octets have one reading: a text has one value and no fault, and no octets have two faults.
pub fn reading_is_unique()
    ensures channels { ReadingIsUnique channel_codec }
    ensures calls { ReadingIsUnique call_codec }
{}
