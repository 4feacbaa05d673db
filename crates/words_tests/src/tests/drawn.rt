//! Charts, whatever they are of.
use super::{equals_at, holds_at};
use chart::{Bar, Chart, Escaped, Frame, Lane, Row, Shape, Side, text_room};
use std::alloc::{AllocError, Global};
use std::test::Fail;

/// Where something happens in a row: at no lane, at one, or from one to another.
#[derive(Clone, Copy, Debug)]
enum Place {
    Nowhere,
    At(u32),
    Between(u32, u32),
}

/// A row in short: its heading, where something happens, and the text that stands there.
type Line = (&'static str, Place, &'static str);

/// What happens there.
fn shape_of(place: Place, text: &'static str) -> Shape<'static> {
    match place {
        Place::Nowhere => Shape::Nothing,
        Place::At(lane) => Shape::Note {
            lane,
            text,
            frame: Frame::Thin,
        },
        Place::Between(from, to) => Shape::Arrow { from, to, text },
    }
}

/// The rows of a chart.
fn rows_of(alloc: Global, lines: &[Line]) -> Result<Vec<Row<'static>>, AllocError> {
    let mut rows = Vec::new(alloc);
    for (heading, place, text) in lines {
        rows.push(Row {
            heading: *heading,
            shape: shape_of(*place, *text),
        })?;
    }
    Ok(rows)
}

/// Texts, and how they stand in XML.
const TEXTS: &[(&str, &str)] = &[
    ("", ""),
    ("CHANNEL ACTIVATION tn=3", "CHANNEL ACTIVATION tn=3"),
    ("open 1 -> done", "open 1 -&gt; done"),
    (
        "<text x=\"1\" y='2'/>",
        "&lt;text x=&quot;1&quot; y=&apos;2&apos;/&gt;",
    ),
    ("&amp;", "&amp;amp;"),
    ("a\u{0}b\u{1b}c\nd\te\u{7f}\u{9f}", "a?b?c?d?e??"),
    ("\u{fffe}\u{ffff}\u{fffd}", "??\u{fffd}"),
    ("é ١ 𝄞", "é ١ 𝄞"),
];

#[test]
fn markup_and_control_characters_are_no_text(rt: HostRuntime) -> Result<(), Fail> {
    for (text, expected) in TEXTS {
        let escaped = Escaped(*text).to_string(rt.alloc())?;
        equals_at(&rt, escaped.as_str(), *expected, *text);
    }
    Ok(())
}

/// Texts, and how many letters wide they are.
const ROOMS: &[(&str, u32)] = &[
    ("", 0),
    ("CLEAR REQUEST, call 1", 21),
    ("é١𝄞", 6),
    ("a\n", 2),
];

#[test]
fn what_is_outside_ascii_is_two_letters_wide(rt: HostRuntime) -> Result<(), Fail> {
    for (text, expected) in ROOMS {
        equals_at(&rt, text_room(*text), *expected, *text);
    }
    Ok(())
}

/// Room for thirty letters between the first two lanes, for the fourteen that are always there between the next two.
const LANES: &[Lane<'_>] = &[
    Lane {
        name: "TRX 0/0",
        room: 30,
    },
    Lane {
        name: "controller",
        room: 0,
    },
    Lane {
        name: "centre <1>",
        room: 0,
    },
];

/// A row of each shape; the last arrow goes to its own lane.
const ROWS: &[Line] = &[
    ("in open 1 0 0 3", Place::Nowhere, ""),
    ("", Place::Between(1, 0), "CHANNEL ACTIVATION"),
    ("2", Place::Between(0, 1), "ACK & frame"),
    ("", Place::At(1), "look 1 -> done"),
    ("", Place::Between(2, 2), "itself"),
];

/// Rows 1 to 3 at the left, 2 to the last at the right.
const BARS: &[Bar<'_>] = &[
    Bar {
        first: 1,
        last: 3,
        goes_on: false,
        side: Side::Left,
        track: 0,
        text: "call 1",
    },
    Bar {
        first: 2,
        last: 9,
        goes_on: false,
        side: Side::Right,
        track: 0,
        text: "call 40000",
    },
];

/// From left to right: 12, the heading's 15 letters of 7, 96 for a bar's text, 16 for the bar, 80; a lane at 309. 238 to the
/// next, 126 to the last, 80 to the bar, 16 for it, 96, 12. From the upper edge 84 to the first of five rows, 20 to each
/// next, and 36.
const SVG: &str =
    "<svg xmlns=\"http://www.w3.org/2000/svg\" width=\"877\" height=\"200\" viewBox=\"0 0 877 200\" font-family=\"monospace\" font-size=\"11\">
<title>a &lt;run&gt;</title>
<defs>
<marker id=\"head\" markerWidth=\"10\" markerHeight=\"8\" refX=\"10\" refY=\"4\" orient=\"auto\"><path d=\"M0,0 L10,4 L0,8 z\"/></marker>
<pattern id=\"hatched\" width=\"6\" height=\"6\" patternUnits=\"userSpaceOnUse\"><path d=\"M-1,1 L1,-1 M0,6 L6,0 M5,7 L7,5\" stroke=\"#000\"/></pattern>
<pattern id=\"dotted\" width=\"5\" height=\"5\" patternUnits=\"userSpaceOnUse\"><circle cx=\"2\" cy=\"2\" r=\"1\"/></pattern>
<style>text{paint-order:stroke;stroke:#fff;stroke-width:2px}</style>
</defs>
<rect width=\"100%\" height=\"100%\" fill=\"#fff\"/>
<text x=\"12\" y=\"18\" text-anchor=\"start\" font-weight=\"bold\">a &lt;run&gt;</text>
<rect x=\"12\" y=\"29\" width=\"11\" height=\"11\" fill=\"url(#hatched)\" stroke=\"#000\"/>
<text x=\"30\" y=\"38\" text-anchor=\"start\">undone at &lt;1&gt;</text>
<rect x=\"143\" y=\"29\" width=\"11\" height=\"11\" fill=\"url(#dotted)\" stroke=\"#000\"/>
<text x=\"161\" y=\"38\" text-anchor=\"start\">undone at 2</text>
<line x1=\"309\" y1=\"66\" x2=\"309\" y2=\"178\" stroke=\"#000\"/>
<line x1=\"547\" y1=\"66\" x2=\"547\" y2=\"178\" stroke=\"#000\"/>
<line x1=\"673\" y1=\"66\" x2=\"673\" y2=\"178\" stroke=\"#000\"/>
<g font-weight=\"bold\">
<text x=\"309\" y=\"62\" text-anchor=\"middle\">TRX 0/0</text>
<text x=\"547\" y=\"62\" text-anchor=\"middle\">controller</text>
<text x=\"673\" y=\"62\" text-anchor=\"middle\">centre &lt;1&gt;</text>
</g>
<g font-weight=\"bold\">
<text x=\"309\" y=\"190\" text-anchor=\"middle\">TRX 0/0</text>
<text x=\"547\" y=\"190\" text-anchor=\"middle\">controller</text>
<text x=\"673\" y=\"190\" text-anchor=\"middle\">centre &lt;1&gt;</text>
</g>
<rect x=\"213\" y=\"92\" width=\"11\" height=\"58\" fill=\"url(#hatched)\" stroke=\"#000\"/>
<line x1=\"205\" y1=\"100\" x2=\"213\" y2=\"100\" stroke=\"#000\"/>
<text x=\"201\" y=\"104\" text-anchor=\"end\">call 1</text>
<rect x=\"753\" y=\"112\" width=\"11\" height=\"58\" fill=\"url(#dotted)\" stroke=\"#000\"/>
<line x1=\"764\" y1=\"120\" x2=\"777\" y2=\"120\" stroke=\"#000\"/>
<text x=\"781\" y=\"124\" text-anchor=\"start\">call 40000</text>
<text x=\"12\" y=\"84\" text-anchor=\"start\">in open 1 0 0 3</text>
<line x1=\"547\" y1=\"104\" x2=\"309\" y2=\"104\" stroke=\"#000\" marker-end=\"url(#head)\"/>
<text x=\"428\" y=\"99\" text-anchor=\"middle\">CHANNEL ACTIVATION</text>
<text x=\"12\" y=\"124\" text-anchor=\"start\">2</text>
<line x1=\"309\" y1=\"124\" x2=\"547\" y2=\"124\" stroke=\"#000\" marker-end=\"url(#head)\"/>
<text x=\"428\" y=\"119\" text-anchor=\"middle\">ACK &amp; frame</text>
<rect x=\"493\" y=\"132\" width=\"108\" height=\"16\" fill=\"#fff\" stroke=\"#000\"/>
<text x=\"547\" y=\"144\" text-anchor=\"middle\">look 1 -&gt; done</text>
<rect x=\"647\" y=\"152\" width=\"52\" height=\"16\" fill=\"#fff\" stroke=\"#000\"/>
<text x=\"673\" y=\"164\" text-anchor=\"middle\">itself</text>
</svg>
";

#[test]
fn a_chart_is_drawn(rt: HostRuntime) -> Result<(), Fail> {
    let rows = rows_of(rt.alloc(), ROWS)?;
    let chart = Chart {
        title: "a <run>",
        lanes: LANES,
        rows: &rows,
        bars: BARS,
        left: "undone at <1>",
        right: "undone at 2",
    };
    let svg = chart.to_string(rt.alloc())?;
    equals_at(&rt, svg.as_str(), SVG, "a chart");
    Ok(())
}

/// The first of these lines that the SVG of a chart lacks.
fn missing(
    alloc: Global,
    chart: Chart<'_>,
    lines: &[&'static str],
) -> Result<Option<&'static str>, AllocError> {
    let svg = chart.to_string(alloc)?;
    for line in lines {
        if !svg.as_str().contains(*line) {
            return Ok(Some(*line));
        }
    }
    Ok(None)
}

/// Between two lanes fourteen letters of an arrow's text have room, at the first and the last lane nineteen of a note; forty
/// of a heading have room, seventeen of a lane's name, twelve of a bar's text, sixty of what the bars are.
const LONG: Chart<'_> = Chart {
    title: "",
    lanes: &[
        Lane {
            name: "seventeen letters",
            room: 0,
        },
        Lane {
            name: "eighteen of letters",
            room: 0,
        },
    ],
    rows: &[
        Row {
            heading: "forty of letters stand in this heading..",
            shape: Shape::Arrow {
                from: 0,
                to: 1,
                text: "letters, 14 >>",
            },
        },
        Row {
            heading: "one more of letters stands in this heading",
            shape: Shape::Arrow {
                from: 1,
                to: 0,
                text: "fifteen letters",
            },
        },
        Row {
            heading: "",
            shape: Shape::Arrow {
                from: 0,
                to: 1,
                text: "the lettersé<>",
            },
        },
        Row {
            heading: "",
            shape: Shape::Note {
                lane: 0,
                text: "nineteen of letters",
                frame: Frame::Thin,
            },
        },
        Row {
            heading: "",
            shape: Shape::Note {
                lane: 1,
                text: "twenty letters of it",
                frame: Frame::Thin,
            },
        },
    ],
    bars: &[
        Bar {
            first: 0,
            last: 0,
            goes_on: false,
            side: Side::Right,
            track: 0,
            text: "twelve of it",
        },
        Bar {
            first: 1,
            last: 1,
            goes_on: false,
            side: Side::Right,
            track: 0,
            text: "thirteen of..",
        },
    ],
    left: "",
    right: "sixty of letters stand behind this bar, and so it says what it is",
};

/// What has room, and what of the others has it: a character outside ASCII two letters, so that it isn't cut in two.
const CUT: &[&str] = &[
    ">seventeen letters</text>",
    ">eighteen of let..</text>",
    ">forty of letters stand in this heading..</text>",
    ">one more of letters stands in this hea..</text>",
    ">letters, 14 &gt;&gt;</text>",
    ">fifteen lett..</text>",
    ">the letters..</text>",
    ">nineteen of letters</text>",
    ">twenty letters of..</text>",
    ">twelve of it</text>",
    ">thirteen o..</text>",
    ">sixty of letters stand behind this bar, and so it says wha..</text>",
];

#[test]
fn a_text_that_lacks_room_ends_in_two_dots(rt: HostRuntime) -> Result<(), Fail> {
    let missing = missing(rt.alloc(), LONG, CUT)?;
    holds_at(&rt, missing.is_none(), missing);
    Ok(())
}

/// A note at a lane and bars along rows that are not there, one of them far at the right.
const OUTSIDE: Chart<'_> = Chart {
    title: "",
    lanes: &[],
    rows: &[Row {
        heading: "",
        shape: Shape::Note {
            lane: u32::MAX,
            text: "",
            frame: Frame::Thin,
        },
    }],
    bars: &[
        Bar {
            first: u32::MAX,
            last: 0,
            goes_on: false,
            side: Side::Left,
            track: 0,
            text: "call 1",
        },
        Bar {
            first: 0,
            last: u32::MAX,
            goes_on: false,
            side: Side::Right,
            track: u32::MAX,
            text: "call 2",
        },
    ],
    left: "",
    right: "",
};

/// The note stands where the first lane would; a bar at the right ends with the last row.
const AT_THE_EDGE: &[&str] = &[
    " width=\"4294967295\" height=\"120\" ",
    "<text x=\"204\" y=\"84\" text-anchor=\"middle\"></text>\n",
    "y=\"72\" width=\"11\" height=\"18\" fill=\"url(#dotted)\"",
];

#[test]
fn lanes_and_rows_that_are_not_there_are_drawn_at_the_edge(rt: HostRuntime) -> Result<(), Fail> {
    let missing = missing(rt.alloc(), OUTSIDE, AT_THE_EDGE)?;
    holds_at(&rt, missing.is_none(), missing);
    let svg = OUTSIDE.to_string(rt.alloc())?;
    holds_at(&rt, !svg.as_str().contains("call 1"), svg.as_str());
    Ok(())
}

/// So many rows that are alike.
fn alike(alloc: Global, rows: u32) -> Result<Vec<Row<'static>>, AllocError> {
    let mut made = Vec::new(alloc);
    for _ in 0..rows {
        made.push(Row {
            heading: "row",
            shape: Shape::Nothing,
        })?;
    }
    Ok(made)
}

/// The first of these lines that a chart lacks which has one lane, so many rows, and bars along the rows from 758
/// and from 759 on.
fn missing_of_many(
    alloc: Global,
    rows: u32,
    lines: &[&'static str],
) -> Result<Option<&'static str>, AllocError> {
    let rows = alike(alloc, rows)?;
    let chart = Chart {
        title: "",
        lanes: &[Lane {
            name: "lane",
            room: 0,
        }],
        rows: &rows,
        bars: &[
            Bar {
                first: 758,
                last: 762,
                goes_on: false,
                side: Side::Left,
                track: 0,
                text: "call 1",
            },
            Bar {
                first: 759,
                last: 760,
                goes_on: false,
                side: Side::Right,
                track: 0,
                text: "call 2",
            },
        ],
        left: "undone",
        right: "",
    };
    missing(alloc, chart, lines)
}

/// Names above the first page, above the second and below the last; the last row of the first page, and the one behind.
const PAGES: &[&str] = &[
    " width=\"429\" height=\"940\" ",
    "<text x=\"225\" y=\"62\" text-anchor=\"middle\">lane</text>\n",
    "<text x=\"225\" y=\"882\" text-anchor=\"middle\">lane</text>\n",
    "<text x=\"225\" y=\"930\" text-anchor=\"middle\">lane</text>\n",
    "<text x=\"12\" y=\"864\" text-anchor=\"start\">row</text>\n",
    "<text x=\"12\" y=\"904\" text-anchor=\"start\">row</text>\n",
];

/// The last row of a column, its lane, and the part of a bar there; the first row of the next column, its lane, and the other
/// parts of the bars, with their texts between them and the lane.
const COLUMNS: &[&str] = &[
    " width=\"858\" height=\"15660\" ",
    "<line x1=\"225\" y1=\"66\" x2=\"225\" y2=\"15638\" stroke=\"#000\"/>\n",
    "<text x=\"225\" y=\"15650\" text-anchor=\"middle\">lane</text>\n",
    "<rect x=\"129\" y=\"15592\" width=\"11\" height=\"38\" fill=\"url(#hatched)\" stroke=\"#000\"/>\n",
    "<line x1=\"121\" y1=\"15600\" x2=\"129\" y2=\"15600\" stroke=\"#000\"/>\n",
    "<text x=\"12\" y=\"15624\" text-anchor=\"start\">row</text>\n",
    "<line x1=\"429\" y1=\"0\" x2=\"429\" y2=\"15660\" stroke=\"#000\" stroke-dasharray=\"1 5\"/>\n",
    "<line x1=\"654\" y1=\"66\" x2=\"654\" y2=\"98\" stroke=\"#000\"/>\n",
    "<text x=\"654\" y=\"62\" text-anchor=\"middle\">lane</text>\n",
    "<text x=\"654\" y=\"110\" text-anchor=\"middle\">lane</text>\n",
    "<rect x=\"558\" y=\"72\" width=\"11\" height=\"18\" fill=\"url(#hatched)\" stroke=\"#000\"/>\n",
    "<line x1=\"569\" y1=\"80\" x2=\"574\" y2=\"80\" stroke=\"#000\" stroke-dasharray=\"2 2\"/>\n",
    "<text x=\"578\" y=\"84\" text-anchor=\"start\">call 1</text>\n",
    "<rect x=\"734\" y=\"72\" width=\"11\" height=\"18\" fill=\"url(#dotted)\" stroke=\"#000\"/>\n",
    "<line x1=\"729\" y1=\"80\" x2=\"734\" y2=\"80\" stroke=\"#000\" stroke-dasharray=\"2 2\"/>\n",
    "<text x=\"725\" y=\"84\" text-anchor=\"end\">call 2</text>\n",
    "<text x=\"441\" y=\"84\" text-anchor=\"start\">row</text>\n",
];

#[test]
fn names_stand_again_behind_forty_rows_and_760_are_a_column(rt: HostRuntime) -> Result<(), Fail> {
    for (rows, lines) in [(41, PAGES), (761, COLUMNS)] {
        let missing = missing_of_many(rt.alloc(), rows, lines)?;
        holds_at(&rt, missing.is_none(), (rows, missing));
    }
    Ok(())
}

/// Rows from 757 on at the left, up to this row, on this track.
fn from_757(last: u32, track: u32, text: &'static str) -> Bar<'static> {
    Bar {
        first: 757,
        last,
        goes_on: false,
        side: Side::Left,
        track,
        text,
    }
}

/// Each bar that goes on behind row 759 has its text in a row of its own, that which ends first in the first.
const IN_ROWS_OF_THEIR_OWN: &[&str] = &[
    " y=\"84\" text-anchor=\"start\">call 2</text>\n",
    " y=\"104\" text-anchor=\"start\">call 4</text>\n",
    " y=\"124\" text-anchor=\"start\">call 1</text>\n",
    " y=\"144\" text-anchor=\"start\">call 3</text>\n",
];

#[test]
fn texts_of_bars_that_go_on_do_not_cover_one_another(rt: HostRuntime) -> Result<(), Fail> {
    let rows = alike(rt.alloc(), 768)?;
    let chart = Chart {
        title: "",
        lanes: &[Lane {
            name: "lane",
            room: 0,
        }],
        rows: &rows,
        bars: &[
            from_757(764, 0, "call 1"),
            from_757(761, 7, "call 2"),
            from_757(766, 7, "call 3"),
            from_757(763, 7, "call 4"),
            from_757(759, 1, "call 5"),
        ],
        left: "undone",
        right: "",
    };
    let missing = missing(rt.alloc(), chart, IN_ROWS_OF_THEIR_OWN)?;
    holds_at(&rt, missing.is_none(), missing);
    Ok(())
}

/// The first two of the bars that go on have their texts in the two rows of the last column.
const IN_TWO_ROWS: &[&str] = &[
    " y=\"84\" text-anchor=\"start\">call 8</text>\n",
    " y=\"104\" text-anchor=\"start\">call 1</text>\n",
];

#[test]
fn a_bar_that_is_too_short_for_its_text_goes_on_without(rt: HostRuntime) -> Result<(), Fail> {
    let rows = alike(rt.alloc(), 762)?;
    let chart = Chart {
        title: "",
        lanes: &[],
        rows: &rows,
        bars: &[
            from_757(761, 0, "call 1"),
            from_757(761, 1, "call 2"),
            from_757(761, 2, "call 3"),
            from_757(761, 3, "call 4"),
            from_757(761, 4, "call 5"),
            from_757(761, 5, "call 6"),
            from_757(761, 6, "call 7"),
            from_757(760, 7, "call 8"),
        ],
        left: "undone",
        right: "",
    };
    let missing = missing(rt.alloc(), chart, IN_TWO_ROWS)?;
    holds_at(&rt, missing.is_none(), missing);
    let svg = chart.to_string(rt.alloc())?;
    let onward = svg.as_str().matches("text-anchor=\"start\">call ").count();
    equals_at(&rt, onward, 2, svg.as_str());
    Ok(())
}

/// A lane without more room than is always there.
fn lane(name: &'static str) -> Lane<'static> {
    Lane { name, room: 0 }
}

/// A message that the second of three lanes passes on, from the third to the first; and what is marked at the third.
const MARKED: &[Row<'_>] = &[
    Row {
        heading: "",
        shape: Shape::Relayed {
            from: 2,
            by: 1,
            to: 0,
            text: "DATA REQUEST",
            onward: "COMMAND",
        },
    },
    Row {
        heading: "",
        shape: Shape::Note {
            lane: 2,
            text: "no",
            frame: Frame::Thick,
        },
    },
];

/// The lanes are at 12 + 80, and 126 behind one another.
const TWO_ARROWS: &[&str] = &[
    "<line x1=\"344\" y1=\"84\" x2=\"218\" y2=\"84\" stroke=\"#000\" marker-end=\"url(#head)\"/>\n",
    "<text x=\"281\" y=\"79\" text-anchor=\"middle\">DATA REQUEST</text>\n",
    "<line x1=\"218\" y1=\"84\" x2=\"92\" y2=\"84\" stroke=\"#000\" marker-end=\"url(#head)\"/>\n",
    "<text x=\"155\" y=\"79\" text-anchor=\"middle\">COMMAND</text>\n",
    "<rect x=\"332\" y=\"92\" width=\"24\" height=\"16\" fill=\"#fff\" stroke=\"#000\" stroke-width=\"3\"/>\n",
];

#[test]
fn a_message_that_is_passed_on_has_two_arrows_and_a_mark_a_thick_frame(
    rt: HostRuntime,
) -> Result<(), Fail> {
    let chart = Chart {
        title: "",
        lanes: &[lane("mobile"), lane("station 0"), lane("controller")],
        rows: MARKED,
        bars: &[],
        left: "",
        right: "",
    };
    let missing = missing(rt.alloc(), chart, TWO_ARROWS)?;
    holds_at(&rt, missing.is_none(), missing);
    Ok(())
}

/// A bar that goes on from an earlier picture, up to this row, on this track.
fn going_on(last: u32, track: u32, text: &'static str) -> Bar<'static> {
    Bar {
        first: 0,
        last,
        goes_on: true,
        side: Side::Left,
        track,
        text,
    }
}

/// The texts stand between the bars and the lanes, each in a row of its own: behind 12, three letters of 7, 96, two bars of 16,
/// and 4.
const GOING_ON: &[&str] = &[
    "<text x=\"165\" y=\"84\" text-anchor=\"start\">call 1</text>\n",
    "<text x=\"165\" y=\"104\" text-anchor=\"start\">call 2</text>\n",
];

#[test]
fn a_bar_goes_on_from_an_earlier_picture(rt: HostRuntime) -> Result<(), Fail> {
    let rows = alike(rt.alloc(), 3)?;
    let chart = Chart {
        title: "",
        lanes: &[lane("lane")],
        rows: &rows,
        bars: &[going_on(1, 0, "call 1"), going_on(5, 1, "call 2")],
        left: "undone",
        right: "",
    };
    let missing = missing(rt.alloc(), chart, GOING_ON)?;
    holds_at(&rt, missing.is_none(), missing);
    let svg = chart.to_string(rt.alloc())?;
    let texts = svg.as_str().matches(">call ").count();
    equals_at(&rt, texts, 2, svg.as_str());
    Ok(())
}
