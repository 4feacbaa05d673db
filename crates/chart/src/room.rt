//! How much room a text takes.
//!
//! The letters of a chart have one width, so that it is known where a text ends.
use crate::escape::{Escaped, print_character};
use std::fmt;

/// How wide a letter is at most, in pixels: six tenths of the size of a font, which is 11, and a little more.
pub(crate) const LETTER: u32 = 7;

/// So many letters stand in this width.
pub(crate) fn letters_in(width: u32) -> u32 {
    width / LETTER
}

/// How many letters wide a character is. Outside ASCII a font may have it twice as wide.
fn letters_of(character: char) -> u32 {
    if character.is_ascii() { 1 } else { 2 }
}

/// How many letters wide a text is: a character of ASCII counts once, any other twice.
pub fn text_room(text: &str) -> u32 {
    let mut room: u32 = 0;
    for character in text.chars() {
        room = room.saturating_add(letters_of(character));
    }
    room
}

/// A text in XML that takes so many letters at most: of a longer one the front stands there, and two dots behind it.
#[derive(Clone, Copy)]
pub(crate) struct Fitted<'a> {
    pub(crate) text: &'a str,
    pub(crate) room: u32,
}

impl Fitted<'_> {
    /// How wide it is, in pixels.
    pub(crate) fn width(&self) -> u32 {
        text_room(self.text).min(self.room).saturating_mul(LETTER)
    }
}

/// Prints the longest front of a text that has so much room.
fn print_front<W: fmt::Write>(f: &mut fmt::Formatter<W>, text: &str, room: u32) -> fmt::Result {
    let mut left = room;
    for character in text.chars() {
        let letters = letters_of(character);
        if letters > left {
            return Ok(());
        }
        left -= letters;
        print_character(f, character)?;
    }
    Ok(())
}

impl fmt::Display for Fitted<'_> {
    fn fmt<W: fmt::Write>(&self, f: &mut fmt::Formatter<W>) -> fmt::Result {
        if text_room(self.text) <= self.room {
            return Escaped(self.text).fmt(f);
        }
        print_front(f, self.text, self.room.saturating_sub(2))?;
        f.write_str("..")
    }
}
