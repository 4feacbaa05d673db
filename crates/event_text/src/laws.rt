//! The laws of the texts of events. Ours, of no standard.
ghost use Rattle.event_text.specs.Text.{TextIsUnique};
ghost use Rattle.event_text.specs.Events.{ReadsTexts};

/// No two events have the same text.
pub fn text_is_unique()
    ensures unique { TextIsUnique }
{}

/// An event's text is read as that event, and no other text is.
pub fn reads_texts()
    ensures read { ReadsTexts }
{}
