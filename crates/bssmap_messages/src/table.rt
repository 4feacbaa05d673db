//! The identifiers and forms of the elements on A (TS 48.008 clause 3.2.2).
ghost use Rattle.bssmap_messages.specs.Forms.{interface_a, known};

use octet_elements::{ElementTable, Form, PLACES};

pub const CAUSE: u8 = 0x04;

pub const CELL_IDENTIFIER: u8 = 0x05;

pub const ENCRYPTION_INFORMATION: u8 = 0x0A;

pub const CHANNEL_TYPE: u8 = 0x0B;

pub const CLASSMARK_2: u8 = 0x12;

pub const RR_CAUSE: u8 = 0x15;

pub const LAYER_3_INFORMATION: u8 = 0x17;

pub const CELL_IDENTIFIER_LIST: u8 = 0x1A;

pub const RESPONSE_REQUEST: u8 = 0x1B;

pub const CLASSMARK_1: u8 = 0x1D;

/// The elements on A.
pub struct InterfaceA;

impl ElementTable for InterfaceA {
    ghost form_of = { interface_a };

    ghost known = { known };

    #[inline(always)]
    fn rule_for(identifier: u8) -> (Form, usize) {
        match identifier {
            CELL_IDENTIFIER => (Form::Counted, 0),
            CAUSE => (Form::Counted, 1),
            ENCRYPTION_INFORMATION => (Form::Counted, 2),
            CHANNEL_TYPE => (Form::Counted, 3),
            CLASSMARK_2 => (Form::Counted, 4),
            RR_CAUSE => (Form::Fixed(1), 5),
            LAYER_3_INFORMATION => (Form::Counted, 6),
            CELL_IDENTIFIER_LIST => (Form::Counted, 7),
            RESPONSE_REQUEST => (Form::Fixed(0), 8),
            CLASSMARK_1 => (Form::Fixed(1), 9),
            0x35 | 0x8C | 0x8E | 0x8F => (Form::Fixed(0), PLACES),
            0x14 | 0x19 | 0x21 | 0x2C | 0x2D | 0x31 | 0x32 => (Form::Fixed(1), PLACES),
            0x39 | 0x3F | 0x40 | 0x8A | 0x8B | 0x8D => (Form::Fixed(1), PLACES),
            0x01 => (Form::Fixed(2), PLACES),
            0x95 => (Form::Fixed(3), PLACES),
            0x7F => (Form::Fixed(4), PLACES),
            0x83 => (Form::Fixed(16), PLACES),
            _ => (Form::Counted, PLACES),
        }
    }
}
