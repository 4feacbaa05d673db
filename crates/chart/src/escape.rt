//! Texts inside XML.
use std::fmt;

/// A text as it stands in XML (XML 1.0 clauses 2.2 and 2.4), also inside quotes: what would be read as markup is named,
/// and a control character, of which XML has but three, is a `?`.
#[derive(Clone, Copy, Debug)]
pub struct Escaped<'a>(pub &'a str);

/// Prints a character as it stands in XML.
pub(crate) fn print_character<W: fmt::Write>(
    f: &mut fmt::Formatter<W>,
    character: char,
) -> fmt::Result {
    let text = match character {
        '&' => "&amp;",
        '<' => "&lt;",
        '>' => "&gt;",
        '"' => "&quot;",
        '\'' => "&apos;",
        '\u{FFFE}' | '\u{FFFF}' => "?",
        _ if character.is_control() => "?",
        _ => return f.write_char(character),
    };
    f.write_str(text)
}

impl fmt::Display for Escaped<'_> {
    fn fmt<W: fmt::Write>(&self, f: &mut fmt::Formatter<W>) -> fmt::Result {
        for character in self.0.chars() {
            print_character(f, character)?;
        }
        Ok(())
    }
}
