//! Lines, read.
ghost use Rattle.std.specs.Prelude.{◌≡◌, option_map};
ghost use Rattle.link_lines.specs.Faults.{fault_of, read_of, Answers};
ghost use Rattle.link_lines.specs.Lines as said;

use crate::fault::{LineFault, Place};
use crate::steps::{
    Rest, call, channel, end, on_or_off, only_word, station, timer_key, timing_advance,
};
use exchange::Inbound;
use lab_script::forms::{Form, cut_word, form_named};
use lab_script::script::{Given, Item, is_blank, is_comment, read_item};
use link_exchange::{LinkInput, TimerKey};
use script_reasons::line_reason;
use std::alloc::{Allocator, Global};

/// What a line says.
#[derive(Drop)]
pub enum LinkLine<A: Allocator = Global> {
    /// Nothing: it is blank, or a comment.
    Nothing,
    /// An input.
    Input(LinkInput<A>),
    /// An operator asks for each channel in use, as the book and its station have it.
    Calls,
    /// He asks what came so far.
    Summary,
}

/// What comes, or goes: `up` or `down`, and what stands behind that.
#[tactic(auto, unfolding(crate::specs::Lines::link_in))]
fn link<A: Allocator>(is_up: bool, rest: Rest<'_>) -> Result<LinkInput<A>, LineFault<'_>>
    ensures { read_of result ≡ said.link_in is_up (option_map (λ text. text.now) rest.entry) }
{
    if is_centre(rest) {
        return Ok(LinkInput::Centre { is_up });
    }
    let ((cell, trx), rest) = station(rest)?;
    end(rest)?;
    Ok(LinkInput::Link { cell, trx, is_up })
}

/// Whether this is left: the switching centre.
fn is_centre(rest: Rest<'_>) -> bool
    ensures { result ≡ said.is_centre (option_map (λ text. text.now) rest.entry) }
{
    match rest {
        Some(text) => text == "centre",
        None => false,
    }
}

/// Which timer ran out.
#[tactic(auto, unfolding(crate::specs::Lines::expired_in))]
fn expired<A: Allocator>(rest: Rest<'_>) -> Result<LinkInput<A>, LineFault<'_>>
    ensures { read_of result ≡ said.expired_in (option_map (λ text. text.now) rest.entry) }
{
    let (key, rest) = timer_key(rest)?;
    end(rest)?;
    Ok(LinkInput::Expired(key))
}

/// Which channel is barred.
#[tactic(auto, unfolding(crate::specs::Lines::bar_in))]
fn bar<A: Allocator>(rest: Rest<'_>) -> Result<LinkInput<A>, LineFault<'_>>
    ensures { read_of result ≡ said.bar_in (option_map (λ text. text.now) rest.entry) }
{
    let (chan, rest) = channel(rest)?;
    end(rest)?;
    Ok(LinkInput::Bar(chan))
}

/// Which channel's bar ends.
#[tactic(auto, unfolding(crate::specs::Lines::unbar_in))]
fn unbar<A: Allocator>(rest: Rest<'_>) -> Result<LinkInput<A>, LineFault<'_>>
    ensures { read_of result ≡ said.unbar_in (option_map (λ text. text.now) rest.entry) }
{
    let (chan, rest) = channel(rest)?;
    end(rest)?;
    Ok(LinkInput::Unbar(chan))
}

/// Whose mobile is away, or was heard again.
#[tactic(auto, unfolding(crate::specs::Lines::away_in))]
fn away<A: Allocator>(rest: Rest<'_>) -> Result<LinkInput<A>, LineFault<'_>>
    ensures { read_of result ≡ said.away_in (option_map (λ text. text.now) rest.entry) }
{
    let (call, rest) = call(rest)?;
    let (is_away, rest) = on_or_off(rest)?;
    end(rest)?;
    Ok(LinkInput::Away { call, is_away })
}

/// Whose reports are heeded, or aren't.
#[tactic(auto, unfolding(crate::specs::Lines::reports_in))]
fn reports<A: Allocator>(rest: Rest<'_>) -> Result<LinkInput<A>, LineFault<'_>>
    ensures { read_of result ≡ said.reports_in (option_map (λ text. text.now) rest.entry) }
{
    let (call, rest) = call(rest)?;
    let (are_heeded, rest) = on_or_off(rest)?;
    end(rest)?;
    Ok(LinkInput::Reports { call, are_heeded })
}

/// With which timing advance the next channel of a call is activated.
#[tactic(auto, unfolding(crate::specs::Lines::advance_in))]
fn advance<A: Allocator>(rest: Rest<'_>) -> Result<LinkInput<A>, LineFault<'_>>
    ensures { read_of result ≡ said.advance_in (option_map (λ text. text.now) rest.entry) }
{
    let (call, rest) = call(rest)?;
    let (advance, rest) = timing_advance(rest)?;
    end(rest)?;
    Ok(LinkInput::Advance { call, advance })
}

/// What is set.
#[tactic(auto, unfolding(crate::specs::Lines::set_in))]
fn set<A: Allocator>(rest: Rest<'_>) -> Result<LinkInput<A>, LineFault<'_>>
    ensures { read_of result ≡ said.set_in (option_map (λ text. text.now) rest.entry) }
{
    let rest = only_word(Place::Setting, "commands", rest)?;
    let rest = only_word(Place::Setter, "bridge", rest)?;
    end(rest)?;
    Ok(LinkInput::BridgeCommands)
}

/// A line with one word, which says this.
fn alone<A: Allocator>(line: LinkLine<A>, rest: Rest<'_>) -> Result<LinkLine<A>, LineFault<'_>>
    ensures { read_of result ≡ said.alone line (option_map (λ text. text.now) rest.entry) }
{
    match end(rest) {
        Ok(()) => Ok(line),
        Err(fault) => Err(fault),
    }
}

/// The input that a line of a script gives a controller.
fn input_of<A: Allocator>(item: Option<Item<A>>) -> Option<Inbound<A>>
    ensures { result ≡ said.input_of item }
{
    let Some(item) = item else {
        return None;
    };
    match item.given {
        Given::Input(input) => Some(input),
        Given::Attach => None,
        Given::Set(_) => None,
        Given::HangUp(_) => None,
        Given::Ask(_) => None,
        Given::MobileOf { .. } => None,
        Given::Restart(_) => None,
    }
}

/// What is wrong with a line of a script.
fn script_fault(text: &str) -> LineFault<'_>
    ensures { fault_of result ≡ said.script_fault text.now }
{
    match line_reason(text, false) {
        Some(reason) => LineFault::Script(reason),
        None => {
            let (word, _) = cut_word(text);
            LineFault::Keyword(word)
        }
    }
}

/// What a line of a script gives a controller.
#[tactic(auto, unfolding(crate::specs::Lines::script_in))]
fn script_input<A: Allocator + Copy>(alloc: A, text: &str) -> Result<Inbound<A>, LineFault<'_>>
    ensures { Answers result (said.script_in text.now) }
{
    match input_of(read_item(alloc, text)?) {
        Some(input) => Ok(input),
        None => Err(script_fault(text)),
    }
}

/// Whether a form is that of messages.
fn is_message(form: Option<Form>) -> bool
    ensures { result ≡ said.is_message form }
{
    matches!(form, Some(Form::Abis | Form::A))
}

/// Whether a form is one of operators.
fn is_operators(form: Option<Form>) -> bool
    ensures { result ≡ said.is_operators form }
{
    matches!(
        form,
        Some(Form::Open | Form::Seize | Form::Handover | Form::Undo | Form::Clear)
    )
}

/// A message, as a line of a script gives it.
#[tactic(auto, unfolding(crate::specs::Lines::message_in))]
fn message<A: Allocator + Copy>(alloc: A, rest: Rest<'_>) -> Result<Inbound<A>, LineFault<'_>>
    ensures { Answers result (said.message_in (option_map (λ text. text.now) rest.entry)) }
{
    let Some(text) = rest else {
        return Err(LineFault::Missing(Place::Message));
    };
    let (found, _) = cut_word(text);
    if is_message(form_named(found)) {
        script_input(alloc, text)
    } else {
        Err(LineFault::Word {
            place: Place::Message,
            found,
        })
    }
}

/// An input as it came.
fn as_came<A: Allocator>(input: Inbound<A>) -> LinkInput<A>
    ensures { result ≡ said.as_came input }
{
    match input {
        Inbound::Abis { cell, trx, bytes } => LinkInput::Abis { cell, trx, bytes },
        Inbound::A { call, bytes } => LinkInput::A { call, bytes },
        Inbound::Expiry { call, timer } => LinkInput::Expired(TimerKey::Call { call, timer }),
        Inbound::Operator(line) => LinkInput::Operator(line),
    }
}

/// A message that is said in another's place.
fn in_place<A: Allocator>(input: Inbound<A>) -> LinkInput<A>
    ensures { result ≡ said.in_place input }
{
    match input {
        Inbound::Abis { cell, trx, bytes } => LinkInput::ForAbis { cell, trx, bytes },
        Inbound::A { call, bytes } => LinkInput::ForA { call, bytes },
        Inbound::Expiry { call, timer } => LinkInput::Expired(TimerKey::Call { call, timer }),
        Inbound::Operator(line) => LinkInput::Operator(line),
    }
}

/// A message that the bridge sends.
fn as_sent<A: Allocator>(input: Inbound<A>) -> LinkInput<A>
    ensures { result ≡ said.as_sent input }
{
    match input {
        Inbound::Abis { cell, trx, bytes } => LinkInput::SendAbis { cell, trx, bytes },
        Inbound::A { call, bytes } => LinkInput::SendA { call, bytes },
        Inbound::Expiry { call, timer } => LinkInput::Expired(TimerKey::Call { call, timer }),
        Inbound::Operator(line) => LinkInput::Operator(line),
    }
}

/// The line that gives an input.
fn given<A: Allocator>(
    read: Result<LinkInput<A>, LineFault<'_>>,
) -> Result<LinkLine<A>, LineFault<'_>>
    ensures { read_of result ≡ said.given (read_of read.entry) }
{
    match read {
        Ok(input) => Ok(LinkLine::Input(input)),
        Err(fault) => Err(fault),
    }
}

/// What a line says that begins with this word and has no message.
fn plain_line<'a, A: Allocator>(
    word: &str,
    rest: Rest<'a>,
) -> Option<Result<LinkLine<A>, LineFault<'a>>>
    ensures { option_map (λ read. read_of read) result ≡
        said.read_by said.kinds word.now (option_map (λ text. text.now) rest.entry) }
{
    match word {
        "begin" => Some(alone(LinkLine::Input(LinkInput::Begin), rest)),
        "calls" => Some(alone(LinkLine::Calls, rest)),
        "summary" => Some(alone(LinkLine::Summary, rest)),
        "up" => Some(given(link(true, rest))),
        "down" => Some(given(link(false, rest))),
        "expired" => Some(given(expired(rest))),
        "bar" => Some(given(bar(rest))),
        "unbar" => Some(given(unbar(rest))),
        "away" => Some(given(away(rest))),
        "reports" => Some(given(reports(rest))),
        "advance" => Some(given(advance(rest))),
        "set" => Some(given(set(rest))),
        _ => None,
    }
}

/// What a line of a script says, which begins with this word.
fn script_line<'a, A: Allocator + Copy>(
    alloc: A,
    word: &'a str,
    text: &'a str,
) -> Result<LinkInput<A>, LineFault<'a>>
    ensures { Answers result (said.script_line word.now text.now) }
{
    let form = form_named(word);
    if is_message(form) || is_operators(form) {
        Ok(as_came(script_input(alloc, text)?))
    } else {
        Err(LineFault::Keyword(word))
    }
}

/// What a line says that begins with this word, and has a message or is one of a script.
fn other_line<'a, A: Allocator + Copy>(
    alloc: A,
    word: &'a str,
    rest: Rest<'a>,
    text: &'a str,
) -> Result<LinkInput<A>, LineFault<'a>>
    ensures { Answers result (said.other_line word.now (option_map (λ text. text.now) rest.entry) text.now) }
{
    match word {
        "for" => Ok(in_place(message(alloc, rest)?)),
        "send" => Ok(as_sent(message(alloc, rest)?)),
        _ => script_line(alloc, word, text),
    }
}

/// What a line says that isn't passed over.
#[tactic(auto, unfolding(crate::specs::Lines::words_in))]
fn words<A: Allocator + Copy>(alloc: A, text: &str) -> Result<LinkLine<A>, LineFault<'_>>
    ensures { Answers result (said.words_in text.now) }
{
    let (word, rest) = cut_word(text);
    match plain_line(word, rest) {
        Some(read) => read,
        None => Ok(LinkLine::Input(other_line(alloc, word, rest, text)?)),
    }
}

/// What a line says, which no carriage return ends; or the first thing that is wrong with it. `NoMemory`: memory was refused, and
/// nothing is said of the line. Only a message takes some.
#[tactic(auto, unfolding(crate::specs::Lines::line_of))]
pub fn read_link_line<A: Allocator + Copy>(
    alloc: A,
    line: &str,
) -> Result<LinkLine<A>, LineFault<'_>>
    ensures line { Answers result (said.line_of line.now) }
{
    if is_comment(line) || is_blank(line) {
        return Ok(LinkLine::Nothing);
    }
    words(alloc, line)
}
