//! Where the parts of a chart lie, in pixels from its upper left corner.
//!
//! A column has, from left to right: headings, texts of the bars at the left, these bars, lanes, the bars at the right,
//! their texts. Each column is as wide as the others.
ghost use Rattle.std.specs.Prelude.{◌≤◌};

use crate::room::{LETTER, letters_in, text_room};
use crate::{Bar, Chart, Lane, Row, Side};

/// Between two rows.
const ROW: u32 = 20;

/// From the upper edge to the first row: there stand the title, what bars are, and the names of the lanes.
const HEAD: u32 = 84;

/// From the last row to the lower edge: there stand the names of the lanes again.
const FOOT: u32 = 36;

/// So many rows stand between two lines with the names of the lanes.
pub(crate) const PAGE: u32 = 40;

/// So many rows stand in a column: nineteen pages.
pub(crate) const COLUMN: u32 = 760;

/// At the left and the right edge of a column.
pub(crate) const MARGIN: u32 = 12;

/// From the lanes to the bars beside them: half the name of a lane has room there, and the text of a bar that goes on.
const EDGE: u32 = 80;

/// So many letters of a lane's name have room.
pub(crate) const NAME: u32 = 17;

/// From a lane to the end of an arrow's text: the head of an arrow has room there.
pub(crate) const ARROW_END: u32 = 14;

/// So many letters have room between two lanes at least: with the room for the heads of arrows the names of two lanes fit
/// beside one another.
const LEAST_ROOM: u32 = 14;

/// So many letters of a heading have room at most.
const HEADING: u32 = 40;

/// From the left edge of a bar to that of the next.
const TRACK: u32 = 16;

/// So many letters of a bar's text have room where it begins.
pub(crate) const BAR_TEXT: u32 = 12;

/// So many of one that goes on.
pub(crate) const ONWARD_TEXT: u32 = 10;

/// Between bars and their texts.
const BAR_GAP: u32 = 12;

/// At the left and the right of a note's text, together.
pub(crate) const NOTE_MARGIN: u32 = 10;

/// How many there are, where a `u32` has it.
pub(crate) fn count<T>(items: &[T]) -> u32 {
    u32::try_from(items.len()).unwrap_or(u32::MAX)
}

/// So many letters have room between a lane and the next.
fn lane_room(lane: &Lane<'_>) -> u32 {
    lane.room.max(LEAST_ROOM)
}

/// How wide the room between a lane and the next is.
fn lane_width(lane: &Lane<'_>) -> u32 {
    lane_room(lane)
        .saturating_mul(LETTER)
        .saturating_add(2 * ARROW_END)
}

/// So many letters the longest heading has, and 40 at most.
fn heading_room(rows: &[Row<'_>]) -> u32 {
    let mut room = 0;
    for row in rows {
        room = text_room(row.heading).max(room);
    }
    room.min(HEADING)
}

/// So many bars stand beside one another on a side.
fn tracks(bars: &[Bar<'_>], side: Side) -> u32 {
    let mut tracks = 0;
    for bar in bars {
        if bar.side == side {
            tracks = bar.track.saturating_add(1).max(tracks);
        }
    }
    tracks
}

/// How wide the texts of so many bars are.
fn texts_width(tracks: u32) -> u32 {
    if tracks == 0 {
        0
    } else {
        BAR_TEXT * LETTER + BAR_GAP
    }
}

/// The height of a row. Before each page of a column but the first the names of the lanes have a row of their own.
pub(crate) fn row_y(row: u32) -> u32
    ensures { result ≤ 15624 }
{
    let place = row % COLUMN;
    HEAD + (place + place / PAGE) * ROW
}

/// The column of a row.
pub(crate) fn column_of(row: u32) -> u32 {
    row / COLUMN
}

/// Where the parts of a chart lie.
#[derive(Clone, Copy)]
pub(crate) struct Layout<'a> {
    lanes: &'a [Lane<'a>],
    rows: u32,
    /// So many letters of a heading have room.
    pub(crate) headings: u32,
    /// So many bars stand beside one another at the left.
    left: u32,
    /// So many at the right.
    right: u32,
}

impl<'a> Layout<'a> {
    /// Where the parts of this chart lie.
    pub(crate) fn new(chart: &Chart<'a>) -> Layout<'a> {
        Layout {
            lanes: chart.lanes,
            rows: count(chart.rows),
            headings: heading_room(chart.rows),
            left: tracks(chart.bars, Side::Left),
            right: tracks(chart.bars, Side::Right),
        }
    }

    /// How many columns there are.
    pub(crate) fn columns(&self) -> u32 {
        self.rows.div_ceil(COLUMN).max(1)
    }

    /// How many rows stand in a column.
    fn rows_in(&self, column: u32) -> u32
        ensures { result ≤ 760 }
    {
        self.rows
            .saturating_sub(column.saturating_mul(COLUMN))
            .min(COLUMN)
    }

    /// How many pages a column has.
    pub(crate) fn pages_in(&self, column: u32) -> u32 {
        self.rows_in(column).div_ceil(PAGE).max(1)
    }

    /// The last row that is there.
    pub(crate) fn last_row(&self) -> u32 {
        self.rows.saturating_sub(1)
    }

    /// The height of the last row in a column.
    pub(crate) fn last_y(&self, column: u32) -> u32
        ensures { result ≤ 15624 }
    {
        row_y(self.rows_in(column).saturating_sub(1))
    }

    /// How high the chart is.
    pub(crate) fn height(&self) -> u32
        ensures { result ≤ 15660 }
    {
        self.last_y(0) + FOOT
    }

    /// How many bars stand beside one another on a side.
    pub(crate) fn tracks(&self, side: Side) -> u32 {
        match side {
            Side::Left => self.left,
            Side::Right => self.right,
        }
    }

    /// How wide the bars of a side are.
    fn bars_width(&self, side: Side) -> u32 {
        self.tracks(side).saturating_mul(TRACK)
    }

    /// Where the bars at the left begin in a column.
    fn left_bars(&self) -> u32 {
        self.headings
            .saturating_mul(LETTER)
            .saturating_add(MARGIN)
            .saturating_add(texts_width(self.left))
    }

    /// Where a lane stands in a column; one that isn't there, where the last does.
    fn lane_in_column(&self, lane: u32) -> u32 {
        let mut x = self
            .left_bars()
            .saturating_add(self.bars_width(Side::Left))
            .saturating_add(EDGE);
        let before = count(self.lanes).saturating_sub(1).min(lane);
        for lane in self.lanes.iter().take(before as usize) {
            x = x.saturating_add(lane_width(lane));
        }
        x
    }

    /// Where the bars at the right begin in a column.
    fn right_bars(&self) -> u32 {
        self.lane_in_column(u32::MAX).saturating_add(EDGE)
    }

    /// Where the bars of a side begin in a column.
    fn bars_in_column(&self, side: Side) -> u32 {
        match side {
            Side::Left => self.left_bars(),
            Side::Right => self.right_bars(),
        }
    }

    /// How wide a column is.
    fn column_width(&self) -> u32 {
        self.right_bars()
            .saturating_add(self.bars_width(Side::Right))
            .saturating_add(texts_width(self.right))
            .saturating_add(MARGIN)
    }

    /// How wide the chart is.
    pub(crate) fn width(&self) -> u32 {
        self.column_width().saturating_mul(self.columns())
    }

    /// Where a column begins.
    pub(crate) fn column_x(&self, column: u32) -> u32 {
        self.column_width().saturating_mul(column)
    }

    /// Where a lane stands.
    pub(crate) fn lane_x(&self, column: u32, lane: u32) -> u32 {
        self.column_x(column)
            .saturating_add(self.lane_in_column(lane))
    }

    /// From a lane to the next; to the bars, if there is none.
    fn way(&self, lane: u32, next: u32) -> u32 {
        let way = self
            .lane_in_column(next)
            .saturating_sub(self.lane_in_column(lane));
        if way == 0 { EDGE } else { way }
    }

    /// So many letters of a note at a lane have room: its box ends 8 pixels before the lanes, or bars, beside it.
    pub(crate) fn note_room(&self, lane: u32) -> u32 {
        let before = self.way(lane.saturating_sub(1), lane);
        let behind = self.way(lane, lane.saturating_add(1));
        let half = before.min(behind).saturating_sub(8);
        letters_in(half.saturating_mul(2).saturating_sub(NOTE_MARGIN))
    }

    /// Where the bars of a side begin.
    pub(crate) fn bars_x(&self, column: u32, side: Side) -> u32 {
        self.column_x(column)
            .saturating_add(self.bars_in_column(side))
    }

    /// Where a bar begins. The first is the one next to the texts.
    pub(crate) fn bar_x(&self, column: u32, side: Side, track: u32) -> u32 {
        let place = match side {
            Side::Left => track,
            Side::Right => self.right.saturating_sub(track).saturating_sub(1),
        };
        self.bars_x(column, side)
            .saturating_add(place.saturating_mul(TRACK))
    }

    /// Where the text of a bar begins that stands at the right, or ends that stands at the left.
    pub(crate) fn bar_text_x(&self, column: u32, side: Side) -> u32 {
        let x = self.bars_x(column, side);
        match side {
            Side::Left => x.saturating_sub(BAR_GAP),
            Side::Right => x
                .saturating_add(self.bars_width(side))
                .saturating_add(BAR_GAP),
        }
    }

    /// Where the text of a bar that goes on begins at the left, or ends at the right: between bars and lanes.
    pub(crate) fn onward_text_x(&self, column: u32, side: Side) -> u32 {
        let x = self.bars_x(column, side);
        match side {
            Side::Left => x.saturating_add(self.bars_width(side)).saturating_add(4),
            Side::Right => x.saturating_sub(9),
        }
    }
}
