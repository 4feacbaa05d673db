//! The picture of rows.
use crate::bars::{Marked, bars_of};
use crate::lanes::{Lanes, Post, bars_are};
use chart::{Bar, Chart, Frame, Lane, Row, Shape, Side, text_room};
use run_listeners::LabFault;
use std::alloc::{AllocError, Allocator, Global};
use std::io::{self, Write};

/// What happens in a row.
#[derive(Clone, Copy)]
pub(crate) enum Happening {
    Nothing,
    /// A message.
    Arrow { from: Post, to: Post },
    /// A message that a station passes on.
    Relayed { from: Post, by: Post, to: Post },
    Note { at: Post, frame: Frame },
}

/// A row, with its texts.
#[derive(Drop)]
pub(crate) struct Drawn<A: Allocator = Global> {
    pub(crate) heading: String<A>,
    pub(crate) happening: Happening,
    pub(crate) text: String<A>,
    /// That of a message that is passed on, behind who does.
    pub(crate) onward: String<A>,
}

/// Rows that stand in one picture: the place of the first among all rows, and these.
#[derive(Clone, Copy)]
pub(crate) struct Part<'a, A: Allocator> {
    pub(crate) first: u32,
    pub(crate) rows: &'a [Drawn<A>],
}

/// What is drawn of a run.
#[derive(Clone, Copy)]
pub(crate) struct Drawing<'a, A: Allocator> {
    pub(crate) title: &'a str,
    pub(crate) has_peer: bool,
    pub(crate) part: Part<'a, A>,
    /// The bars along all rows.
    pub(crate) marked: &'a [Marked<A>],
}

/// Somebody who does something in a row has a lane.
fn add_posts(lanes: &mut Lanes, happening: Happening) {
    match happening {
        Happening::Nothing => {}
        Happening::Arrow { from, to } => {
            lanes.add(from);
            lanes.add(to);
        }
        Happening::Relayed { from, by, to } => {
            lanes.add(from);
            lanes.add(by);
            lanes.add(to);
        }
        Happening::Note { at, frame: _ } => lanes.add(at),
    }
}

/// The lanes of those who do something in these rows.
fn lanes_in<A: Allocator>(has_peer: bool, rows: &[Drawn<A>]) -> Lanes {
    let mut lanes = Lanes::new(has_peer);
    for row in rows {
        add_posts(&mut lanes, row.happening);
    }
    lanes
}

/// A row as a chart with these lanes has it.
fn row_of<'a, A: Allocator>(drawn: &'a Drawn<A>, lanes: &Lanes) -> Row<'a> {
    let text = drawn.text.as_str();
    Row {
        heading: drawn.heading.as_str(),
        shape: match drawn.happening {
            Happening::Nothing => Shape::Nothing,
            Happening::Arrow { from, to } => Shape::Arrow {
                from: lanes.place(from),
                to: lanes.place(to),
                text,
            },
            Happening::Relayed { from, by, to } => Shape::Relayed {
                from: lanes.place(from),
                by: lanes.place(by),
                to: lanes.place(to),
                text,
                onward: drawn.onward.as_str(),
            },
            Happening::Note { at, frame } => Shape::Note {
                lane: lanes.place(at),
                text,
                frame,
            },
        },
    }
}

/// The rows as a chart with these lanes has them.
fn rows_of<'a, A: Allocator + Copy>(
    alloc: A,
    drawn: &'a [Drawn<A>],
    lanes: &Lanes,
) -> Result<Vec<Row<'a>, A>, AllocError> {
    let mut rows = Vec::new(alloc);
    for row in drawn {
        rows.push(row_of(row, lanes))?;
    }
    Ok(rows)
}

/// So much of the room between a lane and the next the text of an arrow between two lanes needs: its part of it, where it
/// goes over several.
fn arrow_needs(from: u32, to: u32, lane: u32, letters: u32) -> u32 {
    let first = from.min(to);
    let gaps = from.abs_diff(to).max(1);
    if lane >= first && lane - first < gaps {
        letters.div_ceil(gaps)
    } else {
        0
    }
}

/// So much of the room between a lane and the next a row's text needs: a note's at one of them a half.
fn needs(shape: &Shape<'_>, lane: u32) -> u32 {
    match shape {
        Shape::Arrow { from, to, text } => arrow_needs(*from, *to, lane, text_room(text)),
        Shape::Relayed {
            from,
            by,
            to,
            text,
            onward,
        } => {
            let first = arrow_needs(*from, *by, lane, text_room(text));
            let second = arrow_needs(*by, *to, lane, text_room(onward));
            first.max(second)
        }
        Shape::Note {
            lane: at,
            text,
            frame: _,
        } if *at == lane || at.saturating_sub(1) == lane => text_room(text).div_ceil(2),
        Shape::Nothing | Shape::Note { .. } => 0,
    }
}

/// So many letters have to have room between a lane and the next.
fn room_behind(rows: &[Row<'_>], lane: u32) -> u32 {
    let mut room = 0;
    for row in rows {
        room = needs(&row.shape, lane).max(room);
    }
    room
}

/// So many.
pub(crate) fn count<T>(items: &[T]) -> u32 {
    u32::try_from(items.len()).unwrap_or(u32::MAX)
}

/// The lanes with these names, with as much room as the texts between them need.
fn lanes_of<'a, A: Allocator + Copy>(
    alloc: A,
    names: &'a [String<A>],
    rows: &[Row<'_>],
) -> Result<Vec<Lane<'a>, A>, AllocError> {
    let mut lanes = Vec::new(alloc);
    for name in names {
        let room = room_behind(rows, count(&lanes));
        lanes.push(Lane {
            name: name.as_str(),
            room,
        })?;
    }
    Ok(lanes)
}

/// Prints the chart of these.
fn print_chart<'a, W: Write>(
    out: &mut W,
    title: &'a str,
    has_peer: bool,
    lanes: &'a [Lane<'a>],
    rows: &'a [Row<'a>],
    bars: &'a [Bar<'a>],
) -> io::Result<()> {
    let chart = Chart {
        title,
        lanes,
        rows,
        bars,
        left: bars_are(has_peer, Side::Left),
        right: bars_are(has_peer, Side::Right),
    };
    write!(out, "{chart}")
}

/// Writes a drawing as an SVG that stands alone. Nothing is written where memory is refused.
pub(crate) fn write_drawing<A: Allocator + Copy, W: Write>(
    alloc: A,
    drawing: Drawing<'_, A>,
    out: &mut W,
) -> Result<(), LabFault> {
    let Drawing {
        title,
        has_peer,
        part,
        marked,
    } = drawing;
    let lanes = lanes_in(has_peer, part.rows);
    let rows = rows_of(alloc, part.rows, &lanes)?;
    let names = lanes.names(alloc)?;
    let lanes = lanes_of(alloc, &names, &rows)?;
    let bars = bars_of(alloc, marked, part.first, count(part.rows))?;
    Ok(print_chart(
        out,
        title,
        has_peer,
        lanes.as_slice(),
        rows.as_slice(),
        bars.as_slice(),
    )?)
}
