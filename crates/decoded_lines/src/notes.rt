//! The note of a line, which may be any octets, as a person is shown it.
use screen_text::Escaped;
use std::io::{self, Write};

/// Prints a text with its tabs; what else would steer a terminal is printed by its escape.
fn print_text<W: Write>(text: &str, out: &mut W) -> io::Result<()> {
    for (place, part) in text.split('\t').enumerate() {
        if place > 0 {
            write!(out, "\t")?;
        }
        write!(out, "{}", Escaped(part))?;
    }
    Ok(())
}

/// Prints a note. Its texts are printed as they are shown, with their tabs; each octet that is no text by its number.
pub(crate) fn print_note<W: Write>(note: &[u8], out: &mut W) -> io::Result<()> {
    for chunk in note.utf8_chunks() {
        print_text(chunk.valid(), out)?;
        for octet in chunk.invalid() {
            write!(out, "\\x{octet:02x}")?;
        }
    }
    Ok(())
}
