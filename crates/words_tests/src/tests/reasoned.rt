//! Lines of scripts have a reason exactly where they can't be read. Which that is `unreadable_lines.t` of `tests/commands` shows.
use super::{Fail, holds_at};
use lab_script::script::first_unreadable;
use script_reasons::script_reason;
use std::process::Abort;

/// What a line begins with: each first word of a line, with the mark of the second controller and without, and others.
const FRONTS: &[&str] = &[
    "open",
    "seize",
    "handover",
    "undo",
    "clear",
    "expire",
    "abis",
    "a",
    "sim",
    "refuse",
    "hold",
    "let",
    "mobile",
    "double",
    "cut",
    "restart",
    "hangup",
    "2: open",
    "2: seize",
    "2: handover",
    "2: undo",
    "2: clear",
    "2: expire",
    "2: abis",
    "2: a",
    "2: sim",
    "2: refuse",
    "2: hold",
    "2: let",
    "2: mobile",
    "2: double",
    "2: cut",
    "2: restart",
    "2: hangup",
    "",
    " ",
    "\t",
    "#",
    " #",
    "2: ",
    "2: #",
    "2: 2: undo",
    "2:undo",
    "1: undo",
    "opan",
    "Open",
    "\u{feff}undo",
    "\u{feff}#",
    "2: \u{feff}undo",
];

/// What stands behind that.
const RESTS: &[&str] = &[
    "",
    " ",
    "\t",
    "\r",
    " 1",
    " 1\r",
    " 1\r\r",
    " 01",
    " +1",
    " x",
    " 1 ",
    "  1",
    "\t1",
    " 65535",
    " 65536",
    " 1 0",
    " 1 255",
    " 1 256",
    " 65536 0",
    " 1 0 0",
    " 0 0 3",
    " 0 0 7",
    " 0 0 8",
    " 0 0 3/0",
    " 0 0 7/1",
    " 0 0 8/0",
    " 0 0 3/2",
    " 0 0 3/00",
    " 0 0 3/",
    " 0 0 /0",
    " 0 0 3/0/1",
    " 0 0 3/1 ",
    " 1 0 0 3/0",
    " 1 0 0 3/",
    " 0 0 3/1 return",
    " 0 0 3/ 1",
    " 0 256 3",
    " 256 0 3",
    " 0 0 3 ",
    " 1 0 0 3",
    " 1 0 0 8",
    " 1 0 256 3",
    " 1 256 0 3",
    " 65536 0 0 3",
    " 1 0 0 3 4",
    " 1 T3103",
    " 1 T7",
    " 1 T8",
    " 1 T9",
    " 1 t7",
    " 1 T7 ",
    " 1 0 full",
    " 1 256 half",
    " 1 0 Full",
    " 1 0822",
    " 1 082",
    " 1 082g",
    " 1 0822 08",
    " 0 0 0822010B",
    " 0 0 0",
    " 0 0 0g",
    " 0 0 08 33",
    " 256 0 08",
    " 0 0 3 arrive",
    " 0 0 3 return",
    " 0 0 3 vanish",
    " 0 0 3 stay",
    " 0 0 8 arrive",
    " 0 0 3 arrive ",
    " 0 0 3 0",
    " 0 0 3 1",
    " 0 0 3 255",
    " 0 0 3 256",
    " 0 0 8 1",
    " 0 0 3 1 ",
];

/// Asserts that a line has a reason exactly where it can't be read, with a second controller and without.
fn agrees(rt: &(impl AllocGlobal + Abort), front: &str, rest: &str) -> Result<(), Fail> {
    let line = format!(in rt.alloc(); "{front}{rest}")?;
    for has_peer in [false, true] {
        let is_read = first_unreadable(&line, has_peer).is_none();
        let has_reason = script_reason(&line, 1, has_peer).is_some();
        holds_at(rt, is_read != has_reason, line.as_str());
    }
    Ok(())
}

#[test]
fn a_line_has_a_reason_exactly_where_it_cannot_be_read(rt: HostRuntime) -> Result<(), Fail> {
    for front in FRONTS {
        for rest in RESTS {
            agrees(&rt, *front, *rest)?;
        }
    }
    Ok(())
}
