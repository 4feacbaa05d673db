//! What is noted of a channel.
ghost use Rattle.std.specs.Prelude.{◌≡◌, ◌/◌, ◌%◌, ◌∷◌, [], length, IfOk, IfErr};
ghost use Rattle.octet_elements.specs.Elements.{all_octets};
ghost use Rattle.octet_elements.specs.Lookup.{lookup};
ghost use Rattle.octet_elements.specs.Texts.{Answers, Decodes, IsTextOf, HasFault};
ghost use Rattle.octet_elements.specs.Writing.{Appends, HasRoom, Adds};
ghost use Rattle.link_states.specs.Forms.{known, states};
ghost use Rattle.link_states.specs.Values.{lchan_in, lchan_octet, bar_in, bar_octet, bar_number, number_octets};
ghost use Rattle.link_states.specs.Notes.{channel_said, channel_codec, channel_elements, channel_text};

use crate::fault::StateFault;
use crate::table::{
    BAR_CALL, BAR_KIND, BAR_RUNS, FAILURE, LCHAN, LINK, States, TO_BE_BARRED, flag, flag_octet,
};
use link_tables::Lchan;
use octet_elements::{Found, ValueFault, append_element, append_octet, make_room};
use std::alloc::{AllocError, Allocator};

/// A bar: the number of the call that has a channel, and only keeps others away from it.
#[derive(Clone, Copy, Debug, PartialEq, Eq)]
pub struct BarNote {
    pub call: u16,
    /// No clock ends it.
    pub is_lasting: bool,
}

/// What is noted of a channel beside the book, once the controller is owed nothing about it.
#[derive(Clone, Copy, Debug, PartialEq, Eq)]
pub struct ChannelNote {
    /// What its station was told of it.
    pub lchan: Lchan,
    /// Whether the link of its TRX is there.
    pub has_link: bool,
    /// Its bar.
    pub bar: Option<BarNote>,
    /// Whether the clock of its bar runs.
    pub bar_runs: bool,
    /// Whether it is to be barred, once the controller has read what was said of it.
    pub is_to_be_barred: bool,
    /// Whether a failure of it is kept until its call's attempt at handover has ended.
    pub keeps_failure: bool,
}

/// The state of an octet.
fn lchan(found: &Found<'_, States>) -> Result<Lchan, ValueFault>
    ensures { result ≡ lchan_in ((lookup known found.now).first LCHAN) }
{
    match found.octet(LCHAN)? {
        0 => Ok(Lchan::Rest),
        1 => Ok(Lchan::Activating),
        2 => Ok(Lchan::On),
        3 => Ok(Lchan::Mobile),
        4 => Ok(Lchan::Guard),
        5 => Ok(Lchan::Releasing),
        6 => Ok(Lchan::Closing),
        7 => Ok(Lchan::Reopening),
        8 => Ok(Lchan::Lost),
        _ => Err(ValueFault::Bad(LCHAN)),
    }
}

/// The octet of a state.
fn lchan_octet(lchan: Lchan) -> u8
    ensures { result ≡ lchan_octet lchan }
{
    match lchan {
        Lchan::Rest => 0,
        Lchan::Activating => 1,
        Lchan::On => 2,
        Lchan::Mobile => 3,
        Lchan::Guard => 4,
        Lchan::Releasing => 5,
        Lchan::Closing => 6,
        Lchan::Reopening => 7,
        Lchan::Lost => 8,
    }
}

/// The bar of a kind, and of a call's number.
fn bar_of(kind: u8, call: u16) -> Result<Option<BarNote>, ValueFault>
    ensures { result ≡ bar_in kind call }
{
    match kind {
        0 => Ok(None),
        1 => Ok(Some(BarNote {
            call,
            is_lasting: false,
        })),
        2 => Ok(Some(BarNote {
            call,
            is_lasting: true,
        })),
        _ => Err(ValueFault::Bad(BAR_KIND)),
    }
}

/// The octet of a bar's kind.
fn bar_octet(bar: Option<BarNote>) -> u8
    ensures { result ≡ bar_octet bar }
{
    match bar {
        None => 0,
        Some(bar) => { if bar.is_lasting { 2 } else { 1 } }
    }
}

/// The number of a bar's call; 0 where there is none.
fn bar_number(bar: Option<BarNote>) -> u16
    ensures { result ≡ bar_number bar }
{
    match bar {
        Some(bar) => bar.call,
        None => 0,
    }
}

/// The two octets of a number, the high one first.
fn number_octets(number: u16) -> [u8; 2]
    ensures { result ≡ number_octets number }
{
    [(number / 256) as u8, (number % 256) as u8]
}

/// The note that elements say.
fn read_elements(found: &Found<'_, States>) -> Result<ChannelNote, StateFault>
    ensures { Answers channel_codec result (channel_said (lookup known found.now)) }
{
    let lchan = lchan(found)?;
    let has_link = flag(found, LINK)?;
    let kind = found.octet(BAR_KIND)?;
    let bar = bar_of(kind, found.u16_be(BAR_CALL)?)?;
    Ok(ChannelNote {
        lchan,
        has_link,
        bar,
        bar_runs: flag(found, BAR_RUNS)?,
        is_to_be_barred: flag(found, TO_BE_BARRED)?,
        keeps_failure: flag(found, FAILURE)?,
    })
}

/// Reads a note: its value, or its first fault.
fn read(octets: &[u8]) -> Result<ChannelNote, StateFault>
    ensures text { IfOk result (λ note. IsTextOf channel_codec note octets.now) }
    ensures fault { IfErr result (HasFault channel_codec octets.now) }
{
    let mut found = Found::<States>::new();
    match found.read(octets) {
        Ok(()) => read_elements(&found),
        Err(offset) => Err(StateFault::Torn(offset)),
    }
}

/// Reads what is noted of a channel. An `Err` is the first fault in the order that [`StateFault`] says. It takes no memory.
pub fn read_channel(octets: &[u8]) -> Result<ChannelNote, StateFault>
    ensures decodes { Decodes channel_codec octets.now result }
{
    read(octets)
}

/// Appends the elements of a note, for which the list has room.
fn append_elements<A: Allocator>(note: ChannelNote, out: &mut Vec<u8, A>)
    requires room { HasRoom (channel_text note) out.old }
    ensures { Adds (channel_text note) out.old out.new }
{
    append_octet::<States, A>(out, LCHAN, lchan_octet(note.lchan));
    append_octet::<States, A>(out, LINK, flag_octet(note.has_link));
    append_octet::<States, A>(out, BAR_KIND, bar_octet(note.bar));
    append_element::<States, A>(out, BAR_CALL, &number_octets(bar_number(note.bar)));
    append_octet::<States, A>(out, BAR_RUNS, flag_octet(note.bar_runs));
    append_octet::<States, A>(out, TO_BE_BARRED, flag_octet(note.is_to_be_barred));
    append_octet::<States, A>(out, FAILURE, flag_octet(note.keeps_failure));
}

/// How many octets a note of a channel has.
const CHANNEL_LEN: usize = 15;

/// Appends what is noted of a channel. A list with room for it is not moved: no memory is asked for.
pub fn append_channel<A: Allocator>(
    note: ChannelNote,
    out: &mut Vec<u8, A>,
) -> Result<(), AllocError>
    ensures appends { Appends (channel_text note) out.old out.new result }
{
    make_room(out, CHANNEL_LEN)?;
    append_elements(note, out);
    Ok(())
}
