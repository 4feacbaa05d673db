//! The elements of each message: how they are read, and how they are written.
ghost use Rattle.std.specs.Prelude.{◌≡◌, ◌/◌, ◌%◌, ◌<◌, length};
ghost use Rattle.octet_elements.specs.ChannelTypes.{sub_of};
ghost use Rattle.octet_elements.specs.Elements.{all_octets};
ghost use Rattle.octet_elements.specs.Lookup.{lookup};
ghost use Rattle.octet_elements.specs.Texts.{Answers};
ghost use Rattle.octet_elements.specs.Writing.{HasRoom, Adds};
ghost use Rattle.rsl_messages.specs.Forms.{CHANNEL_NUMBER, abis, known};
ghost use Rattle.rsl_messages.specs.Values.{channel_with, channel_in, channel_octet};
ghost use Rattle.station_messages.specs.Messages.{said, elements_of, channel_of};
ghost use Rattle.station_messages.specs.Texts.{codec};

use crate::message::StationMessage;
use crate::reading::MessageKind;
use octet_elements::{Found, ValueFault, append_octet, channel_type, octet_len, sub_of_type};
use rsl_messages::{Abis, ChanBits, RslFault};
use std::alloc::Allocator;

// Identifiers (TS 48.058 clause 9.3).
const CHANNEL_NUMBER: u8 = 0x01;

const LINK_IDENTIFIER: u8 = 0x02;

/// The channel number.
pub fn channel(found: &Found<'_, Abis>) -> Result<ChanBits, ValueFault>
    ensures { result ≡ channel_in ((lookup known found.now).first CHANNEL_NUMBER) }
{
    match found.first(CHANNEL_NUMBER) {
        None => Err(ValueFault::Absent(CHANNEL_NUMBER)),
        Some([octet, ..]) => channel_of(*octet),
        Some([]) => Err(ValueFault::Bad(CHANNEL_NUMBER)),
    }
}

/// The channel that a channel number's octet names.
fn channel_of(octet: u8) -> Result<ChanBits, ValueFault>
    ensures { result ≡ channel_with (sub_of (octet / 8)) (octet % 8) }
{
    match sub_of_type(octet / 8) {
        Some(sub) => Ok(ChanBits { tn: octet % 8, sub }),
        None => Err(ValueFault::Bad(CHANNEL_NUMBER)),
    }
}

/// The channel number's octet.
fn channel_octet(channel: ChanBits) -> u8
    requires { channel.tn < 8 }
    ensures { result ≡ channel_octet channel }
{
    8 * channel_type(channel.sub) + channel.tn
}

/// The message that elements say.
pub fn read_elements(kind: MessageKind, found: &Found<'_, Abis>) -> Result<StationMessage, RslFault>
    ensures { Answers codec result (said kind (lookup known found.now)) }
{
    match kind {
        MessageKind::ReleaseIndication => Ok(StationMessage::ReleaseIndication {
            channel: channel(found)?,
            link: found.octet(LINK_IDENTIFIER)?,
        }),
        MessageKind::DeactivateSacch => Ok(StationMessage::DeactivateSacch {
            channel: channel(found)?,
        }),
    }
}

/// Appends the elements of a message. The list has room for them.
pub fn append_elements<A: Allocator>(message: StationMessage, out: &mut Vec<u8, A>)
    requires channel { (channel_of message).tn < 8 }
    requires room { HasRoom (all_octets abis (elements_of message)) out.old }
    ensures { Adds (all_octets abis (elements_of message)) out.old out.new }
{
    match message {
        StationMessage::ReleaseIndication { channel, link } => {
            append_octet::<Abis, A>(out, CHANNEL_NUMBER, channel_octet(channel));
            append_octet::<Abis, A>(out, LINK_IDENTIFIER, link);
        }
        StationMessage::DeactivateSacch { channel } => {
            append_octet::<Abis, A>(out, CHANNEL_NUMBER, channel_octet(channel));
        }
    }
}

/// The number of octets of a message's elements.
pub fn elements_len(message: StationMessage) -> usize
    ensures { result ≡ length (all_octets abis (elements_of message)) }
{
    match message {
        StationMessage::ReleaseIndication { .. } => {
            octet_len::<Abis>(CHANNEL_NUMBER) + octet_len::<Abis>(LINK_IDENTIFIER)
        }
        StationMessage::DeactivateSacch { .. } => octet_len::<Abis>(CHANNEL_NUMBER),
    }
}
