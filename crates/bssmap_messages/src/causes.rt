//! Causes (TS 48.008 clause 3.2.2.5) that others name.

pub const RADIO_INTERFACE_MESSAGE_FAILURE: u8 = 0x00;

pub const RADIO_INTERFACE_FAILURE: u8 = 0x01;

pub const CALL_CONTROL: u8 = 0x09;

/// Radio interface failure, reversion to old channel.
pub const REVERSION_TO_OLD_CHANNEL: u8 = 0x0A;

pub const HANDOVER_SUCCESSFUL: u8 = 0x0B;

pub const BETTER_CELL: u8 = 0x0C;

pub const EQUIPMENT_FAILURE: u8 = 0x20;

pub const NO_RADIO_RESOURCE_AVAILABLE: u8 = 0x21;

pub const CIPHERING_ALGORITHM_NOT_SUPPORTED: u8 = 0x40;

pub const INVALID_MESSAGE_CONTENTS: u8 = 0x51;
