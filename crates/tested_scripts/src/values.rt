//! What the names of a script stand for.
use crate::named::says_names;
use expectations::{Value, cut_name, has_name};
use std::alloc::{AllocError, Allocator, Global};

/// A name, and what it stands for.
#[derive(Drop)]
struct Known<A: Allocator = Global> {
    name: String<A>,
    value: String<A>,
}

/// What names stand for.
#[derive(Drop)]
pub(crate) struct Names<A: Allocator = Global> {
    known: Vec<Known<A>, A>,
}

/// Whether a text is a number.
fn is_number(text: &str) -> bool {
    !text.is_empty() && text.bytes().all(|octet| octet.is_ascii_digit())
}

/// Whether a text is a channel: its cell, its TRX and its timeslot, and which half of it, with slashes between.
fn is_channel(text: &str) -> bool {
    let parts = text.split('/').count();
    (parts == 3 || parts == 4) && text.split('/').all(|part| is_number(part))
}

/// Appends a value to a line that gives something: a channel is written there with blanks between cell, TRX and timeslot.
fn push_value<A: Allocator>(line: &mut String<A>, value: &str) -> Result<(), AllocError> {
    if !is_channel(value) {
        return line.push_str(value);
    }
    for (place, part) in value.split('/').enumerate() {
        match place {
            0 => {}
            1 | 2 => line.push(' ')?,
            _ => line.push('/')?,
        }
        line.push_str(part)?;
    }
    Ok(())
}

impl<A: Allocator + Copy> Names<A> {
    /// None.
    pub(crate) fn new(alloc: A) -> Names<A> {
        Names {
            known: Vec::new(alloc),
        }
    }

    /// What a name stands for.
    fn value_of(&self, name: &str) -> Option<&str> {
        let known = self.known.iter().find(|known| known.name.as_str() == name)?;
        Some(known.value.as_str())
    }

    /// Notes what names stand for that stand for nothing yet.
    pub(crate) fn add(&mut self, alloc: A, values: &[Value<'_, '_>]) -> Result<(), AllocError> {
        for Value { name, value } in values {
            if self.value_of(*name).is_none() {
                self.known.push(Known {
                    name: String::from_str(alloc, *name)?,
                    value: String::from_str(alloc, *value)?,
                })?;
            }
        }
        Ok(())
    }

    /// The first name of a text that stands for nothing.
    pub(crate) fn first_unknown<'t>(&self, text: &'t str) -> Option<&'t str> {
        let mut pieces = text.split('$').skip(1);
        pieces.find_map(|piece| match cut_name(piece) {
            Some((name, _)) if self.value_of(name).is_none() => Some(name),
            Some(_) | None => None,
        })
    }

    /// Appends a part of a text, that stands behind `$`, with what its name stands for.
    fn push_piece(
        &self,
        piece: &str,
        is_line: bool,
        written: &mut String<A>,
    ) -> Result<(), AllocError> {
        let known = match cut_name(piece) {
            Some((name, behind)) => self.value_of(name).map(|value| (value, behind)),
            None => None,
        };
        match known {
            Some((value, behind)) => {
                if is_line && !has_slash(written.as_str(), behind) {
                    push_value(written, value)?;
                } else {
                    written.push_str(value)?;
                }
                written.push_str(behind)
            }
            None => {
                written.push('$')?;
                written.push_str(piece)
            }
        }
    }

    /// A text in which values stand for the names that stand for something.
    fn put(&self, alloc: A, text: &str, is_line: bool) -> Result<String<A>, AllocError> {
        let mut written = String::new(alloc);
        for (place, piece) in text.split('$').enumerate() {
            if place == 0 {
                written.push_str(piece)?;
            } else {
                self.push_piece(piece, is_line, &mut written)?;
            }
        }
        Ok(written)
    }

    /// A comment with values in the place of names. One that says nothing of what comes stays as it is.
    pub(crate) fn put_in(&self, alloc: A, comment: &str) -> Result<String<A>, AllocError> {
        if has_name(comment) && says_names(comment) {
            self.put(alloc, comment, false)
        } else {
            String::from_str(alloc, comment)
        }
    }

    /// A line that gives something, with values in the place of names.
    pub(crate) fn put_in_line(&self, alloc: A, line: &str) -> Result<String<A>, AllocError> {
        self.put(alloc, line, true)
    }
}

/// Whether a slash or an equal sign stands before a name, or a slash behind it.
fn has_slash(before: &str, behind: &str) -> bool {
    before.ends_with("/") || before.ends_with("=") || behind.starts_with("/")
}

/// Whether a text has this name.
pub(crate) fn has_this_name(text: &str, name: &str) -> bool {
    let mut pieces = text.split('$').skip(1);
    pieces.any(|piece| match cut_name(piece) {
        Some((found, _)) => found == name,
        None => false,
    })
}
