//! Scripts: texts that say, line by line, what one controller or two are given, and what is asked of what is simulated
//! around them.
//!
//! `docs/PROGRAM.md` lists the lines and the ranges of their numbers; [`Item`] is what they give.

ghost use Rattle.std.specs.Prelude.{◌≡◌, ◌≢◌, ◌↔◌, ℕ, Some, None, Err, true, false, nat_lt, [], ◌∷◌, ◌++◌, IsErr, IfOk, OnOk, is_some, ◌||◌, ◌&&◌, option_map, option_and_then, unwrap_or};
ghost use Rattle.std.specs.List.{filter_map, position_from};
ghost use Rattle.std.specs.Str.Lines.{strip_carriage_return};
ghost use Rattle.lab_script.specs.Said as said_by;
ghost use Rattle.lab_script.specs.Script as said;

use crate::asked::Asked;
use crate::said::{Said, line_said};
pub use crate::side::{Side, cut_side, is_for_peer};
pub use crate::words::is_octets;
use crate::words::{a_octets, abis_octets};
use bts_model::{Habit, Restart, Setting};
use exchange::Inbound;
use std::alloc::{AllocError, Allocator, Global};
use thiserror::Error;

/// What is given.
#[derive(Drop)]
pub enum Given<A: Allocator = Global> {
    /// An input of the controller.
    Input(Inbound<A>),
    /// From here on simulated stations, mobiles and a simulated switching centre answer all controllers. Said again it
    /// changes nothing.
    Attach,
    /// Something is asked of a simulated station or of a mobile of the controller.
    Set(Setting),
    /// The simulated switching centre hangs up this call of the controller.
    HangUp(u16),
    /// Inputs that the controller's book says, as it is when the line is played.
    Ask(Asked),
    /// The habit of the mobile of this call of the controller, on the channel that it has when the line is played.
    MobileOf { call: u16, habit: Habit },
    /// A simulated station of the controller restarts.
    Restart(Restart),
}

/// What a line of a script gives.
#[derive(Drop)]
pub struct Item<A: Allocator = Global> {
    /// The controller that the line is for.
    pub side: Side,
    pub given: Given<A>,
}

/// Why a script is not read.
#[derive(Clone, Copy, Debug, PartialEq, Eq, Error)]
pub enum ScriptFault {
    /// The first line that can't be read, counted from 1.
    #[error("line {0} can't be read")]
    Line(usize),
    /// Memory was refused. Every line can be read.
    #[error("memory was refused")]
    NoMemory,
}

impl From<AllocError> for ScriptFault {
    ghost use Rattle.lab_script.specs.declared.script.ScriptFault.TheVariants.{NoMemory};

    ghost from_gives = { λ _ fault. fault ≡ NoMemory };

    fn from(_: AllocError) -> ScriptFault {
        ScriptFault::NoMemory
    }
}

/// What a line says with this message.
fn give<A: Allocator + Copy>(
    alloc: A,
    said: Said,
    message: &str,
) -> Result<Option<Given<A>>, AllocError>
    ensures value { IfOk result (λ given. given ≡ said_by.given message.now said) }
    ensures memory { IsErr result → is_some (said_by.given {A = A} message.now said) ≡ true }
{
    match said {
        Said::Operator(line) => Ok(Some(Given::Input(Inbound::Operator(line)))),
        Said::Expiry { call, timer } => Ok(Some(Given::Input(Inbound::Expiry { call, timer }))),
        Said::Abis { cell, trx } => match abis_octets(alloc, message)? {
            Some(bytes) => Ok(Some(Given::Input(Inbound::Abis { cell, trx, bytes }))),
            None => Ok(None),
        },
        Said::A { call } => match a_octets(alloc, message)? {
            Some(bytes) => Ok(Some(Given::Input(Inbound::A { call, bytes }))),
            None => Ok(None),
        },
        Said::Set(setting) => Ok(Some(Given::Set(setting))),
        Said::HangUp(call) => Ok(Some(Given::HangUp(call))),
        Said::Ask(asked) => Ok(Some(Given::Ask(asked))),
        Said::MobileOf { call, habit } => Ok(Some(Given::MobileOf { call, habit })),
        Said::Restart(restart) => Ok(Some(Given::Restart(restart))),
    }
}

/// Whether a line attaches the simulators.
pub fn is_sim(line: &str) -> bool
    ensures { result ≡ said.is_sim line.now }
{
    line == "sim"
}

/// What a line says.
fn given_by<A: Allocator + Copy>(alloc: A, line: &str) -> Result<Option<Given<A>>, AllocError>
    ensures value { IfOk result (λ given. given ≡ said.given_by line.now) }
    ensures memory { IsErr result → is_some (said.given_by {A = A} line.now) ≡ true }
{
    if is_sim(line) {
        return Ok(Some(Given::Attach));
    }
    match line_said(line) {
        Some((said, message)) => give(alloc, said, message),
        None => Ok(None),
    }
}

/// What a line gives, which no carriage return ends.
pub fn read_item<A: Allocator + Copy>(alloc: A, line: &str) -> Result<Option<Item<A>>, AllocError>
    ensures item { IfOk result (λ item. item ≡ said.item_of line.now) }
    ensures memory { IsErr result → is_some (said.item_of {A = A} line.now) ≡ true }
{
    let (side, _) = cut_side(line);
    match given_by(alloc, line)? {
        Some(given) => Ok(Some(Item { side, given })),
        None => Ok(None),
    }
}

/// Whether a line is a comment.
pub fn is_comment(line: &str) -> bool
    ensures comment { result ≡ said.is_comment line.now }
{
    line.starts_with("#")
}

/// Whether a line has blanks and tabs alone.
pub fn is_blank(line: &str) -> bool
    ensures blank { result ≡ said.is_blank line.now }
{
    line.bytes().all(|byte| byte == b' ' || byte == b'\t')
}

/// Whether what a line says, with its message, can be given.
fn is_given(said: Option<(Said, &str)>) -> bool
    ensures { result ≡ is_some (option_and_then (λ r. said_by.given {A = Unit} r.1.now r.0) said.entry) }
{
    match said {
        Some((said, message)) => said.is_given(message),
        None => false,
    }
}

/// Whether what a line says asks something of the simulators.
fn asks_sim(said: Option<(Said, &str)>) -> bool
    ensures { result ≡ unwrap_or (option_map (λ r. said_by.needs_sim r.0) said.entry) false }
{
    match said {
        Some((said, _)) => said.needs_sim(),
        None => false,
    }
}

/// Whether a line is for a controller that is there.
fn is_addressed(has_peer: bool, line: &str) -> bool
    ensures { result ≡ said.is_addressed has_peer line.now }
{
    has_peer || !is_for_peer(line)
}

/// Whether a line gives something to a controller that is there, or is passed over.
fn is_line(has_peer: bool, line: &str, gives: bool) -> bool
    ensures { result ≡ (said.is_comment line.now || said.is_blank line.now) ||
        (said.is_addressed has_peer line.now && gives) }
{
    is_comment(line) || is_blank(line) || (is_addressed(has_peer, line) && gives)
}

/// A line without the carriage return that may end it.
pub fn without_return(line: &str) -> &str
    ensures stripped { result.now ≡ strip_carriage_return line.now }
{
    line.strip_suffix('\r').unwrap_or(line)
}

/// Whether a line can't be read, where the simulators are attached or aren't.
fn is_refused(has_peer: bool, has_sim: bool, line: &str) -> bool
    ensures { result ≡ said.is_unreadable has_peer has_sim line.now }
{
    let said = line_said(line);
    let gives = is_sim(line) || is_given(said);
    !is_line(has_peer, line, gives) || (asks_sim(said) && !has_sim)
}

/// Whether a line, which a carriage return may end, can't be read, where the simulators are attached or aren't.
pub fn is_unreadable(has_peer: bool, has_sim: bool, line: &str) -> bool
    ensures unreadable { result ≡ said.is_unreadable has_peer has_sim (strip_carriage_return line.now) }
{
    is_refused(has_peer, has_sim, without_return(line))
}

/// Where the first line that attaches the simulators stands, counted from 0.
fn first_sim(text: &str) -> Option<usize>
    ensures { result ≡ position_from said.is_sim 0 (said.lines_of text.now) }
{
    text.split('\n')
        .position(|line| is_sim(without_return(line)))
}

/// Whether the line of this place, counted from 0, stands behind the first that attaches the simulators.
fn is_behind(sim: Option<usize>, place: usize) -> bool
    ensures { result ≡ unwrap_or (option_map (λ sim. nat_lt sim place) sim) false }
{
    match sim {
        Some(sim) => sim < place,
        None => false,
    }
}

/// The number of the first line that can't be read, counted from 1: that is none, that is for the peer if there is none, or
/// that asks something of simulators where no line before it attaches them.
pub fn first_unreadable(text: &str, has_peer: bool) -> Option<usize>
    ensures line { result ≡ said.first_unreadable has_peer text.now }
{
    let sim = first_sim(text);
    let place = text.split('\n').enumerate().position(|(place, line)| is_unreadable(
        has_peer,
        is_behind(sim, place),
        line,
    ))?;
    Some(place + 1)
}

/// Adds what a line gives, which a carriage return may end.
fn add_item<A: Allocator + Copy>(
    alloc: A,
    items: &mut Vec<Item<A>, A>,
    line: &str,
) -> Result<(), AllocError>
    ensures added { OnOk result (items.new.items ≡ items.old.items ++
        filter_map said.item_of (strip_carriage_return line.now ∷ [])) }
    ensures memory { IsErr result → is_some (said.item_of {A = A}
        (strip_carriage_return line.now)) ≡ true }
{
    if let Some(item) = read_item(alloc, without_return(line))? {
        items.push(item)?;
    }
    Ok(())
}

/// What the lines of a text give, in their order.
fn items<A: Allocator + Copy>(alloc: A, text: &str) -> Result<Vec<Item<A>, A>, AllocError>
    ensures value { IfOk result (λ items. items.items ≡ said.items_of text.now) }
    ensures memory { IsErr result → said.items_of {A = A} text.now ≢ [] }
{
    let mut items = Vec::new(alloc);
    for line in text.split('\n') {
        add_item(alloc, &mut items, line)?;
    }
    Ok(items)
}

/// What a script gives one controller, or it and its peer, in the order of its lines. All lines are looked at before any
/// memory is asked for.
pub fn read_script<A: Allocator + Copy>(
    alloc: A,
    text: &str,
    has_peer: bool,
) -> Result<Vec<Item<A>, A>, ScriptFault>
    ensures items { IfOk result (λ items. items.items ≡ said.items_of text.now) }
    ensures sides { IfOk result (λ items. said.AreThere has_peer items.items) }
    ensures readable { OnOk result (said.first_unreadable has_peer text.now ≡ None) }
    ensures line { (number : ℕ) → (result ≡ Err (ScriptFault.Line number)) ↔
        (said.first_unreadable has_peer text.now ≡ Some number) }
    ensures memory { result ≡ Err ScriptFault.NoMemory → said.items_of {A = A} text.now ≢ [] }
{
    if let Some(line) = first_unreadable(text, has_peer) {
        return Err(ScriptFault::Line(line));
    }
    Ok(items(alloc, text)?)
}
