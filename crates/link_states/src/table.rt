//! The elements of notes: identifiers and forms.
ghost use Rattle.std.specs.Prelude.{◌≡◌};
ghost use Rattle.octet_elements.specs.Lookup.{lookup};
ghost use Rattle.link_states.specs.Forms.{known};
ghost use Rattle.link_states.specs.Values.{flag_in, flag_octet};

use octet_elements::{ElementTable, Form, Found, PLACES, ValueFault};

/// What its station was told of a channel.
pub(crate) const LCHAN: u8 = 1;

/// Whether the link of its TRX is there.
pub(crate) const LINK: u8 = 2;

/// Whether it is barred, and what ends the bar.
pub(crate) const BAR_KIND: u8 = 3;

/// The call that is its bar.
pub(crate) const BAR_CALL: u8 = 4;

/// Whether the clock of its bar runs.
pub(crate) const BAR_RUNS: u8 = 5;

/// Whether it is to be barred.
pub(crate) const TO_BE_BARRED: u8 = 6;

/// Whether a failure of it is kept.
pub(crate) const FAILURE: u8 = 7;

/// Whether the mobile of a call is away.
pub(crate) const AWAY: u8 = 8;

/// Whether its measurement reports are heeded.
pub(crate) const REPORTS: u8 = 9;

/// Whether it came from the air.
pub(crate) const FROM_AIR: u8 = 10;

/// The timer that runs for it.
pub(crate) const TIMER: u8 = 11;

/// The elements of notes.
pub struct States;

impl ElementTable for States {
    ghost use Rattle.link_states.specs.Forms.{states, known};

    ghost form_of = { states };

    ghost known = { known };

    #[inline(always)]
    fn rule_for(identifier: u8) -> (Form, usize) {
        match identifier {
            LCHAN => (Form::Fixed(1), 0),
            LINK => (Form::Fixed(1), 1),
            BAR_KIND => (Form::Fixed(1), 2),
            BAR_CALL => (Form::Fixed(2), 3),
            BAR_RUNS => (Form::Fixed(1), 4),
            TO_BE_BARRED => (Form::Fixed(1), 5),
            FAILURE => (Form::Fixed(1), 6),
            AWAY => (Form::Fixed(1), 7),
            REPORTS => (Form::Fixed(1), 8),
            FROM_AIR => (Form::Fixed(1), 9),
            TIMER => (Form::Fixed(1), 10),
            _ => (Form::Counted, PLACES),
        }
    }
}

/// Whether something is so, by the octet of this element.
pub(crate) fn flag(found: &Found<'_, States>, identifier: u8) -> Result<bool, ValueFault>
    ensures { result ≡ flag_in identifier ((lookup known found.now).first identifier) }
{
    match found.octet(identifier)? {
        0 => Ok(false),
        1 => Ok(true),
        _ => Err(ValueFault::Bad(identifier)),
    }
}

/// The octet of an element that says whether something is so.
pub(crate) fn flag_octet(is_so: bool) -> u8
    ensures { result ≡ flag_octet is_so }
{
    if is_so { 1 } else { 0 }
}
