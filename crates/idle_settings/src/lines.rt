//! The lines of a script that give something.
use bts_model::{Restart, Setting};
use channel_fsm::ChanId;
use lab_script::script::{
    Given, Item, ScriptFault, Side, is_blank, is_comment, read_script, without_return,
};
use run_listeners::LabFault;
use std::alloc::{AllocError, Allocator};

/// What a line gives, as far as it counts here.
#[derive(Clone, Copy)]
pub(crate) enum Kind {
    Setting(Side, Setting),
    /// A setting of the channel that a call has.
    OfCall(Side),
    /// A station restarts.
    Restart(Side, Restart),
    /// It asks the book of its controller, or is an input.
    Input,
    Other,
}

/// A line that gives something: its number, counted from 1, and what.
#[derive(Clone, Copy)]
pub(crate) struct Line {
    pub number: usize,
    pub kind: Kind,
}

/// What an item is.
fn kind_of<A: Allocator>(item: &Item<A>) -> Kind {
    match &item.given {
        Given::Set(setting) => Kind::Setting(item.side, *setting),
        Given::MobileOf { .. } => Kind::OfCall(item.side),
        Given::Restart(restart) => Kind::Restart(item.side, *restart),
        Given::Ask(_) | Given::Input(_) => Kind::Input,
        Given::Attach | Given::HangUp(_) => Kind::Other,
    }
}

/// The channel of a setting.
pub(crate) fn chan_of(setting: Setting) -> ChanId {
    let Setting {
        controller: _,
        cell,
        trx,
        tn,
        sub,
        act: _,
    } = setting;
    ChanId { cell, trx, tn, sub }
}

/// Whether a line of a script gives something.
fn gives(line: &str) -> bool {
    let line = without_return(line);
    !is_comment(line) && !is_blank(line)
}

/// What a script gives; nothing if a line can't be read.
fn items_of<A: Allocator + Copy>(
    alloc: A,
    script: &str,
    has_peer: bool,
) -> Result<Vec<Item<A>, A>, LabFault> {
    match read_script(alloc, script, has_peer) {
        Ok(items) => Ok(items),
        Err(ScriptFault::Line(_)) => Ok(Vec::new(alloc)),
        Err(ScriptFault::NoMemory) => Err(LabFault::NoMemory),
    }
}

/// The lines of a script that give these items, one each.
fn lines_with<A: Allocator + Copy>(
    alloc: A,
    script: &str,
    items: &[Item<A>],
) -> Result<Vec<Line, A>, AllocError> {
    let mut lines = Vec::new(alloc);
    let mut items = items;
    for (place, line) in script.split('\n').enumerate() {
        if gives(line)
            && let [item, behind @ ..] = items
        {
            lines.push(Line {
                number: place.saturating_add(1),
                kind: kind_of(item),
            })?;
            items = behind;
        }
    }
    Ok(lines)
}

/// The lines of a script that give something; none where one can't be read.
pub(crate) fn lines_of<A: Allocator + Copy>(
    alloc: A,
    script: &str,
    has_peer: bool,
) -> Result<Vec<Line, A>, LabFault> {
    let items = items_of(alloc, script, has_peer)?;
    Ok(lines_with(alloc, script, &items)?)
}

/// A script in which the line of this number is blank.
pub(crate) fn without_line<A: Allocator>(
    alloc: A,
    script: &str,
    number: usize,
) -> Result<String<A>, AllocError> {
    let mut others = String::new(alloc);
    for (place, line) in script.split('\n').enumerate() {
        if 0 < place {
            others.push('\n')?;
        }
        if place.saturating_add(1) != number {
            others.push_str(line)?;
        }
    }
    Ok(others)
}
