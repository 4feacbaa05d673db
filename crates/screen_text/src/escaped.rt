//! A text as it may be shown to a person on a terminal: characters that would steer the terminal, or that a person can't
//! see, are written by their escapes.
ghost use Rattle.std.specs.Prelude.{◌≡◌, encode_utf8_all};
ghost use Rattle.std.specs.Fmt.{WritesOnOk};
ghost use Rattle.std.specs.Char.Escape.{escape_default};
ghost use Rattle.screen_text.specs.Escapes.{is_unseen, shown_character, shown_text};

use std::fmt;

/// A text whose control characters, and those that can't be seen, look like a space or turn the direction of text, are
/// written by their escapes, as `\n`, `\t`, `\r` and, of all others, `\u{1b}` with the character's number in hexadecimal. All other
/// characters stand as they are, `\` too: what is written is for a person, and isn't read back.
///
/// These can't be seen, look like a space, or turn the direction: U+00A0, U+00AD, U+034F, U+061C, U+115F, U+1160, U+1680,
/// U+17B4, U+17B5, U+180B to U+180F, U+2000 to U+200F, U+2028 to U+202F, U+205F to U+206F, U+2800, U+3000, U+3164, U+FE00
/// to U+FE0F, U+FEFF, U+FFA0, U+FFF9 to U+FFFB, U+1D173 to U+1D17A, U+E0000 to U+E007F, U+E0100 to U+E01EF.
#[derive(Clone, Copy, Debug, PartialEq, Eq)]
pub struct Escaped<'a>(pub &'a str);

/// Whether a character, which is no control character, can't be seen, looks like a space and is another character, or
/// turns the direction of the text behind it.
fn is_unseen(character: char) -> bool
    ensures { result ≡ is_unseen character }
{
    matches!(
        character,
        '\u{A0}'
            | '\u{AD}'
            | '\u{34F}'
            | '\u{61C}'
            | '\u{115F}'..='\u{1160}'
            | '\u{1680}'
            | '\u{17B4}'..='\u{17B5}'
            | '\u{180B}'..='\u{180F}'
            | '\u{2000}'..='\u{200F}'
            | '\u{2028}'..='\u{202F}'
            | '\u{205F}'..='\u{206F}'
            | '\u{2800}'
            | '\u{3000}'
            | '\u{3164}'
            | '\u{FE00}'..='\u{FE0F}'
            | '\u{FEFF}'
            | '\u{FFA0}'
            | '\u{FFF9}'..='\u{FFFB}'
            | '\u{1D173}'..='\u{1D17A}'
            | '\u{E0000}'..='\u{E007F}'
            | '\u{E0100}'..='\u{E01EF}'
    )
}

/// Writes a character's escape.
fn write_escape<W: fmt::Write>(f: &mut fmt::Formatter<W>, escaped: char) -> fmt::Result
    ensures { WritesOnOk W.write_str_gives f.old result
        (encode_utf8_all (escape_default escaped)) f.new }
{
    for character in escaped.escape_default() {
        f.write_char(character)?;
    }
    Ok(())
}

/// Writes a character, or its escape.
fn write_shown<W: fmt::Write>(f: &mut fmt::Formatter<W>, character: char) -> fmt::Result
    ensures { WritesOnOk W.write_str_gives f.old result (shown_character character) f.new }
{
    if character.is_control() || is_unseen(character) {
        write_escape(f, character)
    } else {
        f.write_char(character)
    }
}

/// Writes a text, or of its control characters and those that can't be seen the escapes.
fn write_text<W: fmt::Write>(f: &mut fmt::Formatter<W>, text: &str) -> fmt::Result
    ensures { WritesOnOk W.write_str_gives f.old result (shown_text text.now) f.new }
{
    for character in text.chars() {
        write_shown(f, character)?;
    }
    Ok(())
}

impl fmt::Display for Escaped<'_> {
    ghost use Rattle.std.specs.Prelude.{Some};
    ghost use Rattle.screen_text.specs.Escapes.{shown_text};

    ghost output = { λ escaped. Some (shown_text escaped.0.now) };

    fn fmt<W: fmt::Write>(&self, f: &mut fmt::Formatter<W>) -> fmt::Result {
        write_text(f, self.0)
    }
}

/// What is said behind a text that was shown: a blank that ends it can't be seen.
pub fn end_of(text: &str) -> &'static str {
    if text.ends_with(' ') {
        " (it ends with a blank)"
    } else {
        ""
    }
}
