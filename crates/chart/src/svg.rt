//! The SVG of a chart.
use crate::escape::Escaped;
use crate::layout::{
    ARROW_END, BAR_TEXT, COLUMN, Layout, MARGIN, NAME, NOTE_MARGIN, ONWARD_TEXT, PAGE, column_of,
    count, row_y,
};
use crate::room::{Fitted, letters_in};
use crate::{Bar, Chart, Frame, Lane, Row, Shape, Side};
use std::fmt;

/// How wide a bar is.
const BAR: u32 = 11;

/// How a line is drawn that is whole, in words of SVG.
const WHOLE: &str = "";

/// How that between a bar that goes on and its text is drawn.
const DASHES: &str = " stroke-dasharray=\"2 2\"";

/// How that between two columns is drawn.
const DOTS: &str = " stroke-dasharray=\"1 5\"";

/// How an arrow is drawn.
const HEADED: &str = " marker-end=\"url(#head)\"";

/// So many letters have room of what the bars of a side are.
const LEGEND: u32 = 60;

/// On which side of its place a text stands, in words of SVG.
#[derive(Clone, Copy)]
enum Anchor {
    Start,
    Middle,
    End,
}

impl fmt::Display for Anchor {
    fn fmt<W: fmt::Write>(&self, f: &mut fmt::Formatter<W>) -> fmt::Result {
        f.write_str(match self {
            Anchor::Start => "start",
            Anchor::Middle => "middle",
            Anchor::End => "end",
        })
    }
}

/// The pattern of the bars of a side, as what fills them.
fn pattern(side: Side) -> &'static str {
    match side {
        Side::Left => "url(#hatched)",
        Side::Right => "url(#dotted)",
    }
}

/// The other side.
fn opposite(side: Side) -> Side {
    match side {
        Side::Left => Side::Right,
        Side::Right => Side::Left,
    }
}

impl fmt::Display for Chart<'_> {
    fn fmt<W: fmt::Write>(&self, f: &mut fmt::Formatter<W>) -> fmt::Result {
        let layout = Layout::new(self);
        print_head(f, &layout, self.title)?;
        print_title(f, &layout, self.title)?;
        print_legend(f, &layout, self)?;
        print_columns(f, &layout, self.lanes)?;
        print_bars(f, &layout, self.bars)?;
        print_rows(f, &layout, self.rows)?;
        f.write_str("</svg>\n")
    }
}

/// What stands before all shapes, behind the size: the head of an arrow, the patterns of bars, white paper.
const DEFINITIONS: &str = "\
<defs>
<marker id=\"head\" markerWidth=\"10\" markerHeight=\"8\" refX=\"10\" refY=\"4\" orient=\"auto\"><path d=\"M0,0 L10,4 L0,8 z\"/></marker>
<pattern id=\"hatched\" width=\"6\" height=\"6\" patternUnits=\"userSpaceOnUse\"><path d=\"M-1,1 L1,-1 M0,6 L6,0 M5,7 L7,5\" stroke=\"#000\"/></pattern>
<pattern id=\"dotted\" width=\"5\" height=\"5\" patternUnits=\"userSpaceOnUse\"><circle cx=\"2\" cy=\"2\" r=\"1\"/></pattern>
<style>text{paint-order:stroke;stroke:#fff;stroke-width:2px}</style>
</defs>
<rect width=\"100%\" height=\"100%\" fill=\"#fff\"/>
";

/// The size, the title for whoever shows the picture, and what stands before all shapes.
fn print_head<W: fmt::Write>(
    f: &mut fmt::Formatter<W>,
    layout: &Layout<'_>,
    title: &str,
) -> fmt::Result {
    let (width, height) = (layout.width(), layout.height());
    writeln!(
        f,
        "<svg xmlns=\"http://www.w3.org/2000/svg\" width=\"{width}\" height=\"{height}\" viewBox=\"0 0 {width} {height}\" font-family=\"monospace\" font-size=\"11\">"
    )?;
    writeln!(f, "<title>{}</title>", Escaped(title))?;
    f.write_str(DEFINITIONS)
}

/// The title above all columns.
fn print_title<W: fmt::Write>(
    f: &mut fmt::Formatter<W>,
    layout: &Layout<'_>,
    title: &str,
) -> fmt::Result {
    let text = Fitted {
        text: title,
        room: letters_in(layout.width().saturating_sub(2 * MARGIN)),
    };
    writeln!(
        f,
        "<text x=\"{MARGIN}\" y=\"18\" text-anchor=\"start\" font-weight=\"bold\">{text}</text>"
    )
}

/// A text at a place.
fn print_text<W: fmt::Write>(
    f: &mut fmt::Formatter<W>,
    x: u32,
    y: u32,
    anchor: Anchor,
    text: Fitted<'_>,
) -> fmt::Result {
    writeln!(
        f,
        "<text x=\"{x}\" y=\"{y}\" text-anchor=\"{anchor}\">{text}</text>"
    )
}

/// A line between two places.
fn print_line<W: fmt::Write>(
    f: &mut fmt::Formatter<W>,
    from: (u32, u32),
    to: (u32, u32),
    look: &str,
) -> fmt::Result {
    let ((x1, y1), (x2, y2)) = (from, to);
    writeln!(
        f,
        "<line x1=\"{x1}\" y1=\"{y1}\" x2=\"{x2}\" y2=\"{y2}\" stroke=\"#000\"{look}/>"
    )
}

/// How the frame of a box is drawn, in words of SVG.
fn stroke(frame: Frame) -> &'static str {
    match frame {
        Frame::Thin => "",
        Frame::Thick => " stroke-width=\"3\"",
    }
}

/// A box of a width and a height, whose upper left corner is at a place.
fn print_box<W: fmt::Write>(
    f: &mut fmt::Formatter<W>,
    place: (u32, u32),
    size: (u32, u32),
    fill: &str,
    frame: Frame,
) -> fmt::Result {
    let ((x, y), (width, height)) = (place, size);
    let stroke = stroke(frame);
    writeln!(
        f,
        "<rect x=\"{x}\" y=\"{y}\" width=\"{width}\" height=\"{height}\" fill=\"{fill}\" stroke=\"#000\"{stroke}/>"
    )
}

/// What the bars of a side are, where it has some.
fn print_sample<W: fmt::Write>(
    f: &mut fmt::Formatter<W>,
    layout: &Layout<'_>,
    x: u32,
    side: Side,
    text: Fitted<'_>,
) -> fmt::Result {
    if layout.tracks(side) == 0 {
        return Ok(());
    }
    print_box(f, (x, 29), (BAR, 11), pattern(side), Frame::Thin)?;
    print_text(f, x.saturating_add(18), 38, Anchor::Start, text)
}

/// What the bars of each side are, beside one another.
fn print_legend<W: fmt::Write>(
    f: &mut fmt::Formatter<W>,
    layout: &Layout<'_>,
    chart: &Chart<'_>,
) -> fmt::Result {
    let left = Fitted {
        text: chart.left,
        room: LEGEND,
    };
    let right = Fitted {
        text: chart.right,
        room: LEGEND,
    };
    let behind_left = if layout.tracks(Side::Left) == 0 {
        MARGIN
    } else {
        left.width().saturating_add(MARGIN + 40)
    };
    print_sample(f, layout, MARGIN, Side::Left, left)?;
    print_sample(f, layout, behind_left, Side::Right, right)
}

/// The lanes of each column, with their names.
fn print_columns<W: fmt::Write>(
    f: &mut fmt::Formatter<W>,
    layout: &Layout<'_>,
    lanes: &[Lane<'_>],
) -> fmt::Result {
    for column in 0..layout.columns() {
        print_border(f, layout, column)?;
        print_lines(f, layout, lanes, column)?;
        print_heads(f, layout, lanes, column)?;
        print_names(f, layout, lanes, column, layout.last_y(column) + 26)?;
    }
    Ok(())
}

/// A dotted line between a column and the one before.
fn print_border<W: fmt::Write>(
    f: &mut fmt::Formatter<W>,
    layout: &Layout<'_>,
    column: u32,
) -> fmt::Result {
    if column == 0 {
        return Ok(());
    }
    let x = layout.column_x(column);
    print_line(f, (x, 0), (x, layout.height()), DOTS)
}

/// The lines of the lanes in a column.
fn print_lines<W: fmt::Write>(
    f: &mut fmt::Formatter<W>,
    layout: &Layout<'_>,
    lanes: &[Lane<'_>],
    column: u32,
) -> fmt::Result {
    let (top, bottom) = (row_y(0).saturating_sub(18), layout.last_y(column) + 14);
    for lane in 0..count(lanes) {
        let x = layout.lane_x(column, lane);
        print_line(f, (x, top), (x, bottom), WHOLE)?;
    }
    Ok(())
}

/// The names of the lanes before each page of a column.
fn print_heads<W: fmt::Write>(
    f: &mut fmt::Formatter<W>,
    layout: &Layout<'_>,
    lanes: &[Lane<'_>],
    column: u32,
) -> fmt::Result {
    for page in 0..layout.pages_in(column) {
        let y = row_y(page.saturating_mul(PAGE)).saturating_sub(22);
        print_names(f, layout, lanes, column, y)?;
    }
    Ok(())
}

/// The names of the lanes in a column at this height.
fn print_names<W: fmt::Write>(
    f: &mut fmt::Formatter<W>,
    layout: &Layout<'_>,
    lanes: &[Lane<'_>],
    column: u32,
    y: u32,
) -> fmt::Result {
    f.write_str("<g font-weight=\"bold\">\n")?;
    let mut place = 0;
    for lane in lanes {
        let text = Fitted {
            text: lane.name,
            room: NAME,
        };
        print_text(f, layout.lane_x(column, place), y, Anchor::Middle, text)?;
        place = place.saturating_add(1);
    }
    f.write_str("</g>\n")
}

/// The bars.
fn print_bars<W: fmt::Write>(
    f: &mut fmt::Formatter<W>,
    layout: &Layout<'_>,
    bars: &[Bar<'_>],
) -> fmt::Result {
    for bar in bars {
        print_bar(f, layout, bars, bar)?;
    }
    Ok(())
}

/// A bar along the rows that are there, one of these.
fn print_bar<W: fmt::Write>(
    f: &mut fmt::Formatter<W>,
    layout: &Layout<'_>,
    bars: &[Bar<'_>],
    bar: &Bar<'_>,
) -> fmt::Result {
    let last = bar.last.min(layout.last_row());
    if bar.first > last {
        return Ok(());
    }
    print_parts(f, layout, bars, bar, last)?;
    if bar.goes_on {
        return Ok(());
    }
    print_bar_text(f, layout, bar)
}

/// The place in a column, counted from its first row, of the last row there of a bar that ends in this row, there or behind.
fn last_place(last: u32, column: u32) -> u32 {
    last.saturating_sub(column.saturating_mul(COLUMN))
        .min(COLUMN - 1)
}

/// A bar down to this row: a part of it in each column that it goes through. Its text stands beside each further part, but
/// where that is too short for it: more bars end before it there than it has rows, so the text would stand below it.
fn print_parts<W: fmt::Write>(
    f: &mut fmt::Formatter<W>,
    layout: &Layout<'_>,
    bars: &[Bar<'_>],
    bar: &Bar<'_>,
    last: u32,
) -> fmt::Result {
    let begin = column_of(bar.first);
    for column in begin..column_of(last).saturating_add(1) {
        print_part(f, layout, bar, last, column)?;
        let place = onward_place(bars, bar, column);
        if goes_on(bar, column) && place <= last_place(last, column) {
            print_onward_text(f, layout, bar, column, place)?;
        }
    }
    Ok(())
}

/// The part of a bar in a column.
fn print_part<W: fmt::Write>(
    f: &mut fmt::Formatter<W>,
    layout: &Layout<'_>,
    bar: &Bar<'_>,
    last: u32,
    column: u32,
) -> fmt::Result {
    let begin = column.saturating_mul(COLUMN);
    let top = row_y(bar.first.max(begin)).saturating_sub(12);
    let bottom = row_y(last.min(begin.saturating_add(COLUMN - 1))) + 6;
    let x = layout.bar_x(column, bar.side, bar.track);
    let height = bottom.saturating_sub(top);
    print_box(f, (x, top), (BAR, height), pattern(bar.side), Frame::Thin)
}

/// A text on this side of a bar, in a row at this height, and a line between the two.
fn print_label<W: fmt::Write>(
    f: &mut fmt::Formatter<W>,
    y: u32,
    bar_x: u32,
    side: Side,
    x: u32,
    text: Fitted<'_>,
    look: &str,
) -> fmt::Result {
    let (from, to, anchor) = match side {
        Side::Left => (x.saturating_add(4), bar_x, Anchor::End),
        Side::Right => (
            bar_x.saturating_add(BAR),
            x.saturating_sub(4),
            Anchor::Start,
        ),
    };
    let line_y = y.saturating_sub(4);
    print_line(f, (from, line_y), (to, line_y), look)?;
    print_text(f, x, y, anchor, text)
}

/// The text of a bar beside its first row.
fn print_bar_text<W: fmt::Write>(
    f: &mut fmt::Formatter<W>,
    layout: &Layout<'_>,
    bar: &Bar<'_>,
) -> fmt::Result {
    let (column, y) = (column_of(bar.first), row_y(bar.first));
    let x = layout.bar_text_x(column, bar.side);
    let bar_x = layout.bar_x(column, bar.side, bar.track);
    let text = Fitted {
        text: bar.text,
        room: BAR_TEXT,
    };
    print_label(f, y, bar_x, bar.side, x, text, WHOLE)
}

/// Whether a bar ends before another, or with it and stands nearer or began earlier.
fn ends_before(one: &Bar<'_>, other: &Bar<'_>) -> bool {
    if one.last != other.last {
        return one.last < other.last;
    }
    if one.track != other.track {
        return one.track < other.track;
    }
    one.first < other.first
}

/// Whether a bar that began in a column before, or in an earlier picture, goes on in this one.
fn goes_on(bar: &Bar<'_>, column: u32) -> bool {
    let begin = column_of(bar.first);
    (begin < column || (bar.goes_on && begin == column)) && column <= column_of(bar.last)
}

/// The row of the column in which the text of a bar that goes on there stands: so many bars on its side go on there and end
/// before it. So the texts of several bars don't cover one another. The row may lie below the bar.
fn onward_place(bars: &[Bar<'_>], bar: &Bar<'_>, column: u32) -> u32 {
    let mut place: u32 = 0;
    for other in bars {
        if other.side == bar.side && goes_on(other, column) && ends_before(other, bar) {
            place = place.saturating_add(1);
        }
    }
    place
}

/// The text of a bar that goes on in a column, in a row of it: between the bar and the lanes. The line to its bar is dashed.
fn print_onward_text<W: fmt::Write>(
    f: &mut fmt::Formatter<W>,
    layout: &Layout<'_>,
    bar: &Bar<'_>,
    column: u32,
    place: u32,
) -> fmt::Result {
    let y = row_y(place);
    let x = layout.onward_text_x(column, bar.side);
    let bar_x = layout.bar_x(column, bar.side, bar.track);
    let text = Fitted {
        text: bar.text,
        room: ONWARD_TEXT,
    };
    print_label(f, y, bar_x, opposite(bar.side), x, text, DASHES)
}

/// The rows.
fn print_rows<W: fmt::Write>(
    f: &mut fmt::Formatter<W>,
    layout: &Layout<'_>,
    rows: &[Row<'_>],
) -> fmt::Result {
    let mut place = 0;
    for row in rows {
        print_row(f, layout, place, row)?;
        place = place.saturating_add(1);
    }
    Ok(())
}

/// A row at its place.
fn print_row<W: fmt::Write>(
    f: &mut fmt::Formatter<W>,
    layout: &Layout<'_>,
    place: u32,
    row: &Row<'_>,
) -> fmt::Result {
    let (column, y) = (column_of(place), row_y(place));
    print_heading(f, layout, column, y, row.heading)?;
    match row.shape {
        Shape::Nothing => Ok(()),
        Shape::Note { lane, text, frame } => {
            print_note(f, layout, (column, y), lane, text, frame)
        }
        Shape::Arrow { from, to, text } => print_message(f, layout, (column, y), (from, to), text),
        Shape::Relayed {
            from,
            by,
            to,
            text,
            onward,
        } => {
            print_message(f, layout, (column, y), (from, by), text)?;
            print_message(f, layout, (column, y), (by, to), onward)
        }
    }
}

/// A message from one lane to another, in a column at a height.
fn print_message<W: fmt::Write>(
    f: &mut fmt::Formatter<W>,
    layout: &Layout<'_>,
    place: (u32, u32),
    way: (u32, u32),
    text: &str,
) -> fmt::Result {
    let ((column, y), (from, to)) = (place, way);
    let (start, end) = (layout.lane_x(column, from), layout.lane_x(column, to));
    if start == end {
        print_note(f, layout, place, from, text, Frame::Thin)
    } else {
        print_arrow(f, start, end, y, text)
    }
}

/// A heading, if there is one.
fn print_heading<W: fmt::Write>(
    f: &mut fmt::Formatter<W>,
    layout: &Layout<'_>,
    column: u32,
    y: u32,
    text: &str,
) -> fmt::Result {
    if text.is_empty() {
        return Ok(());
    }
    let x = layout.column_x(column).saturating_add(MARGIN);
    let text = Fitted {
        text,
        room: layout.headings,
    };
    print_text(f, x, y, Anchor::Start, text)
}

/// An arrow from one place to another, with its text above it.
fn print_arrow<W: fmt::Write>(
    f: &mut fmt::Formatter<W>,
    start: u32,
    end: u32,
    y: u32,
    text: &str,
) -> fmt::Result {
    print_line(f, (start, y), (end, y), HEADED)?;
    let width = start.abs_diff(end);
    let room = letters_in(width.saturating_sub(2 * ARROW_END));
    let middle = start.min(end).saturating_add(width / 2);
    print_text(
        f,
        middle,
        y.saturating_sub(5),
        Anchor::Middle,
        Fitted { text, room },
    )
}

/// A note in a box at a lane, in a column at a height.
fn print_note<W: fmt::Write>(
    f: &mut fmt::Formatter<W>,
    layout: &Layout<'_>,
    place: (u32, u32),
    lane: u32,
    text: &str,
    frame: Frame,
) -> fmt::Result {
    let (column, y) = place;
    let x = layout.lane_x(column, lane);
    let text = Fitted {
        text,
        room: layout.note_room(lane),
    };
    let width = text.width().saturating_add(NOTE_MARGIN);
    let corner = (x.saturating_sub(width / 2), y.saturating_sub(12));
    print_box(f, corner, (width, 16), "#fff", frame)?;
    print_text(f, x, y, Anchor::Middle, text)
}
