//! Values of elements that others name.

/// The link identifier of the main signalling channel, SAPI 0 (TS 48.058 clause 9.3.2).
pub const MAIN_SIGNALLING: u8 = 0;

/// The cause 'equipment failure' (TS 48.058 clause 9.3.26).
pub const EQUIPMENT_FAILURE: u8 = 0x20;
