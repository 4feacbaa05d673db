//! The messages on Abis that controllers don't read.

/// The name of a message of the radio link layer (TS 48.058 clause 9.2).
fn radio_link_name(message_type: u8) -> Option<&'static str> {
    match message_type {
        0x03 => Some("ERROR INDICATION"),
        0x04 => Some("ESTABLISH REQUEST"),
        0x05 => Some("ESTABLISH CONFIRM"),
        0x06 => Some("ESTABLISH INDICATION"),
        0x07 => Some("RELEASE REQUEST"),
        0x08 => Some("RELEASE CONFIRM"),
        0x09 => Some("RELEASE INDICATION"),
        0x0A => Some("UNIT DATA REQUEST"),
        0x0B => Some("UNIT DATA INDICATION"),
        _ => None,
    }
}

/// The name of a message about a dedicated channel.
fn dedicated_name(message_type: u8) -> Option<&'static str> {
    match message_type {
        0x25 => Some("DEACTIVATE SACCH"),
        0x26 => Some("ENCRYPTION COMMAND"),
        0x29 => Some("MODE MODIFY"),
        0x2A => Some("MODE MODIFY ACKNOWLEDGE"),
        0x2B => Some("MODE MODIFY NEGATIVE ACKNOWLEDGE"),
        0x2C => Some("PHYSICAL CONTEXT REQUEST"),
        0x2D => Some("PHYSICAL CONTEXT CONFIRM"),
        0x2F => Some("MS POWER CONTROL"),
        0x30 => Some("BS POWER CONTROL"),
        0x31 => Some("PREPROCESS CONFIGURE"),
        0x32 => Some("PREPROCESSED MEASUREMENT RESULT"),
        0x34 => Some("SACCH INFO MODIFY"),
        0x35 => Some("TALKER DETECTION"),
        0x36 => Some("LISTENER DETECTION"),
        _ => None,
    }
}

/// The name of a message about the common channels.
fn common_name(message_type: u8) -> Option<&'static str> {
    match message_type {
        0x11 => Some("BCCH INFORMATION"),
        0x12 => Some("CCCH LOAD INDICATION"),
        0x13 => Some("CHANNEL REQUIRED"),
        0x14 => Some("DELETE INDICATION"),
        0x15 => Some("PAGING COMMAND"),
        0x16 => Some("IMMEDIATE ASSIGN COMMAND"),
        0x17 => Some("SMS BROADCAST REQUEST"),
        0x1D => Some("SMS BROADCAST COMMAND"),
        0x1E => Some("CBCH LOAD INDICATION"),
        0x1F => Some("NOTIFICATION COMMAND"),
        _ => None,
    }
}

/// The name of a message about a transceiver.
fn transceiver_name(message_type: u8) -> Option<&'static str> {
    match message_type {
        0x19 => Some("RF RESOURCE INDICATION"),
        0x1A => Some("SACCH FILLING"),
        0x1B => Some("OVERLOAD"),
        0x1C => Some("ERROR REPORT"),
        _ => None,
    }
}

/// The name of the message that octets begin, of those on Abis (TS 48.058 clauses 9.1, 9.2) that the codec doesn't read.
pub(crate) fn rowless_name(octets: &[u8]) -> Option<&'static str> {
    let discriminator = *octets.first()?;
    let message_type = *octets.get(1)?;
    match discriminator / 2 {
        1 => radio_link_name(message_type),
        4 => dedicated_name(message_type),
        6 => common_name(message_type),
        8 => transceiver_name(message_type),
        _ => None,
    }
}
