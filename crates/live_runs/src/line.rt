//! What a line gives, by the rules of scripts.
ghost use Rattle.std.specs.Prelude.{◌≡◌, true, false, not, nat_lt, length, IfOk, MatchOption};
ghost use Rattle.std.specs.List.{list_any};
ghost use Rattle.decoded_lines.specs.Reading.{is_feed, longest_line};
ghost use Rattle.live_runs.specs.Lines.{is_text, said_of, Says};

use decoded_lines::LONGEST_LINE;
use lab_script::script::{Item, is_unreadable, read_item, without_return};
use std::alloc::{AllocError, Allocator, Global};
use std::str;

/// What a line says.
#[derive(Drop)]
pub(crate) enum Said<A: Allocator = Global> {
    /// It can't be read.
    Unreadable,
    /// It gives nothing.
    Nothing,
    /// It gives this.
    Gives(Item<A>),
}

/// Whether a line isn't too long.
fn is_short(line: &[u8]) -> bool
    ensures { result ≡ not (nat_lt longest_line (length line.now)) }
{
    line.len() <= LONGEST_LINE
}

/// Whether octets are one line: they have no line feed.
fn is_one(line: &[u8]) -> bool
    ensures { result ≡ not (list_any is_feed line.now) }
{
    !line.contains(&b'\n')
}

/// The text of a line, where it is one that isn't too long.
fn text_of(line: &[u8]) -> Option<&str>
    ensures { MatchOption result (is_text line.now ≡ false)
        (λ text. (text.now ≡ line.now) × (is_text text.now ≡ true)) }
{
    if !is_short(line) {
        return None;
    }
    if !is_one(line) {
        return None;
    }
    match str::from_utf8(line) {
        Ok(text) => Some(text),
        Err(_) => None,
    }
}

/// What a line that gives an item or nothing says.
fn said_of<A: Allocator>(item: Option<Item<A>>) -> Said<A>
    ensures { result ≡ said_of item }
{
    match item {
        Some(item) => Said::Gives(item),
        None => Said::Nothing,
    }
}

/// What a text in one line says, where simulators are attached or not.
fn read_text<A: Allocator + Copy>(
    alloc: A,
    line: &str,
    has_sim: bool,
) -> Result<Said<A>, AllocError>
    requires text { is_text line.now ≡ true }
    ensures { IfOk result (Says has_sim line.now) }
{
    if is_unreadable(false, has_sim, line) {
        return Ok(Said::Unreadable);
    }
    Ok(said_of(read_item(alloc, without_return(line))?))
}

/// What a line says, where simulators are attached or not.
pub(crate) fn read_line<A: Allocator + Copy>(
    alloc: A,
    line: &[u8],
    has_sim: bool,
) -> Result<Said<A>, AllocError>
    ensures { IfOk result (Says has_sim line.now) }
{
    match text_of(line) {
        Some(text) => read_text(alloc, text, has_sim),
        None => Ok(Said::Unreadable),
    }
}
