//! The elements on Abis: identifiers and forms.
use octet_elements::{ElementTable, Form, PLACES};

pub const CHANNEL_NUMBER: u8 = 0x01;

pub const LINK_IDENTIFIER: u8 = 0x02;

pub const ACTIVATION_TYPE: u8 = 0x03;

pub const POWER: u8 = 0x04;

pub const CHANNEL_MODE: u8 = 0x06;

pub const FRAME_NUMBER: u8 = 0x08;

pub const HANDOVER_REFERENCE: u8 = 0x09;

pub const LAYER3: u8 = 0x0B;

pub const ACCESS_DELAY: u8 = 0x11;

pub const UPLINK_MEASUREMENTS: u8 = 0x19;

pub const CAUSE: u8 = 0x1A;

pub const RESULT_NUMBER: u8 = 0x1B;

/// The elements on Abis (TS 48.058 clause 9.3).
pub struct Abis;

impl ElementTable for Abis {
    ghost use Rattle.rsl_messages.specs.Forms.{abis, known};

    ghost form_of = { abis };

    ghost known = { known };

    #[inline(always)]
    fn rule_for(identifier: u8) -> (Form, usize) {
        match identifier {
            CHANNEL_NUMBER => (Form::Fixed(1), 0),
            LINK_IDENTIFIER => (Form::Fixed(1), 1),
            ACTIVATION_TYPE => (Form::Fixed(1), 2),
            POWER => (Form::Fixed(1), 3),
            CHANNEL_MODE => (Form::Counted, 4),
            FRAME_NUMBER => (Form::Fixed(2), 5),
            HANDOVER_REFERENCE => (Form::Fixed(1), 6),
            LAYER3 => (Form::LongCounted, 7),
            ACCESS_DELAY => (Form::Fixed(1), 8),
            UPLINK_MEASUREMENTS => (Form::Counted, 9),
            CAUSE => (Form::Counted, 10),
            RESULT_NUMBER => (Form::Fixed(1), 11),
            0x0D | 0x18 | 0x25 => (Form::Fixed(1), PLACES),
            0x0A => (Form::Fixed(2), PLACES),
            _ => (Form::Counted, PLACES),
        }
    }
}
