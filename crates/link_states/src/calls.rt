//! What is noted of a call.
ghost use Rattle.std.specs.Prelude.{◌≡◌, IfOk, IfErr};
ghost use Rattle.octet_elements.specs.Lookup.{lookup};
ghost use Rattle.octet_elements.specs.Texts.{Answers, Decodes, IsTextOf, HasFault};
ghost use Rattle.octet_elements.specs.Writing.{Appends, HasRoom, Adds};
ghost use Rattle.link_states.specs.Forms.{known};
ghost use Rattle.link_states.specs.Values.{timer_in, timer_octet};
ghost use Rattle.link_states.specs.Notes.{call_said, call_codec, call_text};

use crate::fault::StateFault;
use crate::table::{AWAY, FROM_AIR, REPORTS, States, TIMER, flag, flag_octet};
use attempt_journal::Timer;
use octet_elements::{Found, ValueFault, append_octet, make_room};
use std::alloc::{AllocError, Allocator};

/// What is noted of a call beside the book.
#[derive(Clone, Copy, Debug, PartialEq, Eq)]
pub struct CallNote {
    /// Whether its mobile was told to leave the channel that it is served on, and wasn't heard since.
    pub is_away: bool,
    /// Whether its measurement reports are heeded.
    pub reports: bool,
    /// Whether it came from the air.
    pub is_from_air: bool,
    /// The timer that runs for it.
    pub timer: Option<Timer>,
}

/// The timer of an octet.
fn timer(found: &Found<'_, States>) -> Result<Option<Timer>, ValueFault>
    ensures { result ≡ timer_in ((lookup known found.now).first TIMER) }
{
    match found.octet(TIMER)? {
        0 => Ok(None),
        1 => Ok(Some(Timer::T3103)),
        2 => Ok(Some(Timer::T7)),
        3 => Ok(Some(Timer::T8)),
        _ => Err(ValueFault::Bad(TIMER)),
    }
}

/// The octet of a timer.
fn timer_octet(timer: Option<Timer>) -> u8
    ensures { result ≡ timer_octet timer }
{
    match timer {
        None => 0,
        Some(Timer::T3103) => 1,
        Some(Timer::T7) => 2,
        Some(Timer::T8) => 3,
    }
}

/// The note that elements say.
fn read_elements(found: &Found<'_, States>) -> Result<CallNote, StateFault>
    ensures { Answers call_codec result (call_said (lookup known found.now)) }
{
    Ok(CallNote {
        is_away: flag(found, AWAY)?,
        reports: flag(found, REPORTS)?,
        is_from_air: flag(found, FROM_AIR)?,
        timer: timer(found)?,
    })
}

/// Reads a note: its value, or its first fault.
fn read(octets: &[u8]) -> Result<CallNote, StateFault>
    ensures text { IfOk result (λ note. IsTextOf call_codec note octets.now) }
    ensures fault { IfErr result (HasFault call_codec octets.now) }
{
    let mut found = Found::<States>::new();
    match found.read(octets) {
        Ok(()) => read_elements(&found),
        Err(offset) => Err(StateFault::Torn(offset)),
    }
}

/// Reads what is noted of a call. An `Err` is the first fault in the order that [`StateFault`] says. It takes no memory.
pub fn read_call(octets: &[u8]) -> Result<CallNote, StateFault>
    ensures decodes { Decodes call_codec octets.now result }
{
    read(octets)
}

/// Appends the elements of a note, for which the list has room.
fn append_elements<A: Allocator>(note: CallNote, out: &mut Vec<u8, A>)
    requires room { HasRoom (call_text note) out.old }
    ensures { Adds (call_text note) out.old out.new }
{
    append_octet::<States, A>(out, AWAY, flag_octet(note.is_away));
    append_octet::<States, A>(out, REPORTS, flag_octet(note.reports));
    append_octet::<States, A>(out, FROM_AIR, flag_octet(note.is_from_air));
    append_octet::<States, A>(out, TIMER, timer_octet(note.timer));
}

/// How many octets a note of a call has.
const CALL_LEN: usize = 8;

/// Appends what is noted of a call. A list with room for it is not moved: no memory is asked for.
pub fn append_call<A: Allocator>(note: CallNote, out: &mut Vec<u8, A>) -> Result<(), AllocError>
    ensures appends { Appends (call_text note) out.old out.new result }
{
    make_room(out, CALL_LEN)?;
    append_elements(note, out);
    Ok(())
}
