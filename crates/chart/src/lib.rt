//! A run as a sequence chart: a picture that stands alone, in SVG.
//!
//! Below a title lanes stand side by side, rows one below the other, and beside the lanes bars along rows that belong
//! together. Behind 760 rows a chart goes on in a further column at the right, so that no picture is over 15,660 pixels high.
//! It is drawn in black and white: what differs, differs in its shape. A text that lacks room is cut, and ends in two dots. A
//! chart of any size is written; it takes no memory.
#![tactic(auto)]

mod escape;
mod layout;
mod room;
mod svg;

pub use escape::Escaped;
pub use room::text_room;

/// A lane.
#[derive(Clone, Copy, Debug)]
pub struct Lane<'a> {
    pub name: &'a str,
    /// So many letters of a text have room between this lane and the next, 14 at least. See [`text_room`].
    pub room: u32,
}

/// How a note is framed.
#[derive(Clone, Copy, Debug, PartialEq, Eq)]
pub enum Frame {
    Thin,
    /// What stands there is marked.
    Thick,
}

/// What happens in a row.
#[derive(Clone, Copy, Debug)]
pub enum Shape<'a> {
    Nothing,
    /// A message from one lane to another, by their places among the lanes. From a lane to itself it is a note there.
    Arrow {
        from: u32,
        to: u32,
        text: &'a str,
    },
    /// A message that somebody in between passes on: an arrow from one lane to another, and one from there to a third.
    Relayed {
        from: u32,
        by: u32,
        to: u32,
        text: &'a str,
        onward: &'a str,
    },
    /// What is done at a lane. Its text may reach from the lane before to the one behind.
    Note {
        lane: u32,
        text: &'a str,
        frame: Frame,
    },
}

/// A row of a chart.
#[derive(Clone, Copy, Debug)]
pub struct Row<'a> {
    /// What this row and those below come of, at the left margin; it may be empty.
    pub heading: &'a str,
    pub shape: Shape<'a>,
}

/// On which side of the lanes a bar stands.
#[derive(Clone, Copy, Debug, PartialEq, Eq)]
pub enum Side {
    /// There bars are hatched.
    Left,
    /// There bars are dotted.
    Right,
}

/// A bar along rows that belong together, from the first to the last of them, counted from 0.
#[derive(Clone, Copy, Debug)]
pub struct Bar<'a> {
    pub first: u32,
    pub last: u32,
    /// Whether it goes on there from an earlier picture, so that it doesn't begin in its first row.
    pub goes_on: bool,
    pub side: Side,
    /// Its place beside other bars on that side, counted from 0. Bars along the same rows have different ones.
    pub track: u32,
    pub text: &'a str,
}

/// A chart. Its `Display` is the SVG.
#[derive(Clone, Copy, Debug)]
pub struct Chart<'a> {
    pub title: &'a str,
    pub lanes: &'a [Lane<'a>],
    pub rows: &'a [Row<'a>],
    pub bars: &'a [Bar<'a>],
    /// What the bars at the left are, where there are some.
    pub left: &'a str,
    /// What the bars at the right are.
    pub right: &'a str,
}
