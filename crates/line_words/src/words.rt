//! The words of a line.
use crate::causes::{Cause, a_cause, abis_cause, passed_cause, rr_cause};
use crate::content::Content;
use bssmap_messages::Bssmap;
use exchange::{Bad, Inbound};
use explanations::{Question, answer_to};
use radio_book::book::Usage;
use radio_book::event::{Event, Refusal, Reply};
use rr_messages::Rr;
use rsl_messages::Rsl;
use std::alloc::Allocator;
use std::io::{self, Write};
use trace_text::abis::{AbisText, layer3_of};
use trace_text::bad::{NumberedFault, numbered};
use trace_text::bssmap::{self, BssmapText};
use trace_text::rr::RrText;
use trace_text::trace::{Step, TraceLine, refusal_number};

/// What a number stands for, where it stands for anything.
fn print_answer<W: Write>(out: &mut W, question: Question) -> io::Result<()> {
    match answer_to(question) {
        Some(answer) => write!(out, "; {answer}"),
        None => Ok(()),
    }
}

/// The name of a cause, if there is one.
fn print_cause<W: Write>(out: &mut W, cause: Option<Cause>) -> io::Result<()> {
    match cause {
        Some((link, cause)) => print_answer(out, Question::Cause(link, cause)),
        None => Ok(()),
    }
}

/// A radio resource message, and the name of its cause.
fn print_rr<W: Write>(out: &mut W, message: Rr) -> io::Result<()> {
    let cause = rr_cause(&message);
    write!(out, "; {}", RrText(message))?;
    print_cause(out, cause)
}

/// The radio resource message inside a message, if there is one that can be read.
fn print_layer3<W: Write>(out: &mut W, layer3: Option<&[u8]>) -> io::Result<()> {
    let Some(layer3) = layer3 else {
        return Ok(());
    };
    match rr_messages::decode(layer3) {
        Ok(message) => print_rr(out, message),
        Err(_) => Ok(()),
    }
}

/// A message on Abis in words.
fn print_abis<A: Allocator + Copy, W: Write>(out: &mut W, message: &Rsl<A>) -> io::Result<()> {
    write!(out, "; {}", AbisText(message))?;
    print_cause(out, abis_cause(message))?;
    print_layer3(out, layer3_of(message))
}

/// A message on A in words.
fn print_a<A: Allocator + Copy, W: Write>(out: &mut W, message: &Bssmap<A>) -> io::Result<()> {
    write!(out, "; {}", BssmapText(message))?;
    print_cause(out, a_cause(message))?;
    print_cause(out, passed_cause(message))?;
    print_layer3(out, bssmap::layer3_of(message))
}

/// A message in words, where octets are one.
fn print_message<A: Allocator + Copy, W: Write>(
    out: &mut W,
    content: &Content<A>,
) -> io::Result<()> {
    match content {
        Content::Abis(_, Some(message)) => print_abis(out, message),
        Content::A(_, Some(message)) => print_a(out, message),
        Content::Rowless(_, name) => write!(out, "; {name}; ignored: no row"),
        Content::Abis(_, None) | Content::A(_, None) | Content::Nothing => Ok(()),
    }
}

/// Whether an undo was refused because no attempt of its call is open: that is the only stage in which it is refused.
fn is_without_attempt(event: Event, reply: Reply) -> bool {
    matches!(
        (event, reply),
        (Event::Undo(..), Reply::Refused(Refusal::WrongPhase))
    )
}

/// The name of a refusal.
fn print_reply<W: Write>(out: &mut W, event: Event, reply: Reply) -> io::Result<()> {
    if is_without_attempt(event, reply) {
        return write!(out, "; WrongPhase: no attempt of the call is open");
    }
    match reply {
        Reply::Refused(refusal) => print_answer(out, Question::Refusal(refusal_number(refusal))),
        Reply::Done | Reply::Owned(_) | Reply::Record(..) => Ok(()),
    }
}

/// Why octets are no message.
fn print_bad<W: Write>(out: &mut W, bad: Bad) -> io::Result<()> {
    let NumberedFault {
        link,
        number,
        argument,
    } = numbered(bad);
    print_answer(out, Question::Fault(link, number, argument))
}

/// What a book holds at the end.
fn print_usage<W: Write>(out: &mut W, usage: Usage) -> io::Result<()> {
    let Usage {
        channels,
        calls,
        references,
        timers,
    } = usage;
    if channels == 0 && calls == 0 && references == 0 && timers == 0 {
        write!(out, "nothing is left")
    } else {
        write!(out, "this is left")
    }
}

/// The call.
fn print_call<W: Write>(out: &mut W, call: Option<u16>) -> io::Result<()> {
    match call {
        Some(call) => write!(out, "call {call}"),
        None => write!(out, "no call"),
    }
}

/// Prints the words after a line with this content, about this call, without ` # ` before them and without a line feed.
pub fn print_words<A: Allocator + Copy, W: Write>(
    out: &mut W,
    line: &TraceLine<'_, A>,
    content: &Content<A>,
    call: Option<u16>,
) -> io::Result<()> {
    match line {
        TraceLine::Input(_) | TraceLine::Sent(_) => {
            print_call(out, call)?;
            print_message(out, content)
        }
        TraceLine::Step(Step::Asked(event, reply)) => {
            print_call(out, call)?;
            print_reply(out, *event, *reply)
        }
        TraceLine::Step(Step::NoneFree(..)) => print_call(out, call),
        TraceLine::Fault(bad) => {
            print_call(out, call)?;
            print_bad(out, *bad)
        }
        TraceLine::Limit => write!(out, "the answers that still waited were dropped"),
        TraceLine::End(usage) => print_usage(out, *usage),
    }
}

/// Prints after its words why an input was ignored: no row expects the message, or the site has no such cell as the
/// operator's line names.
pub fn print_ignored<A: Allocator, W: Write>(out: &mut W, input: &Inbound<A>) -> io::Result<()> {
    match input {
        Inbound::Abis { .. } | Inbound::A { .. } => write!(out, "; ignored: no row"),
        Inbound::Expiry { .. } | Inbound::Operator(_) => write!(out, "; ignored: no such cell"),
    }
}

/// Prints after its words that no row goes on with an input at the stage of its call. For an operator's line or a timer it
/// prints that nothing changes, since the book's reply says why.
pub fn print_out_of_stage<A: Allocator, W: Write>(
    out: &mut W,
    input: &Inbound<A>,
) -> io::Result<()> {
    match input {
        Inbound::Abis { .. } | Inbound::A { .. } => {
            write!(out, "; ignored: this stage doesn't expect it")
        }
        Inbound::Expiry { .. } | Inbound::Operator(_) => write!(out, "; ignored: nothing changes"),
    }
}
