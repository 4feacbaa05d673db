//! Writing a message.
ghost use Rattle.std.specs.Prelude.{◌≡◌, ◌↔◌, ◌∷◌, [], IsTrue};
ghost use Rattle.octet_elements.specs.Writing.{Appends};
ghost use Rattle.station_messages.specs.Messages.{kind_head, kind_of};
ghost use Rattle.station_messages.specs.Texts.{HasCanonical, canonical_text};

use crate::elements::{append_elements, elements_len};
use crate::message::StationMessage;
use octet_elements::{append_octets, make_room};
use std::alloc::{AllocError, Allocator};

/// Discriminator and type of a message. What the base station passes on has bit 1 of the discriminator (TS 48.058 clause 9.1).
fn head_octets(message: StationMessage) -> [u8; 2]
    ensures { result ≡ (kind_head (kind_of message)).0 ∷ (kind_head (kind_of message)).1 ∷ [] }
{
    match message {
        StationMessage::ReleaseIndication { .. } => [0x02, 0x09],
        StationMessage::DeactivateSacch { .. } => [0x08, 0x25],
    }
}

/// Whether the message has a canonical text: its timeslot is 0 to 7.
#[tactic(auto, using(crate::proofs::Written::canonical_of, crate::proofs::Written::writable_of))]
pub fn fits(message: StationMessage) -> bool
    ensures canonical { IsTrue result ↔ HasCanonical message }
{
    match message {
        StationMessage::ReleaseIndication { channel, .. }
        | StationMessage::DeactivateSacch { channel } => channel.tn < 8,
    }
}

/// Appends the canonical text of a message. If the list has room for it, no memory is asked for, and the list isn't moved.
#[tactic(auto, using(crate::proofs::Written::writable_of))]
pub fn encode_into<A: Allocator>(
    message: StationMessage,
    out: &mut Vec<u8, A>,
) -> Result<(), AllocError>
    requires { HasCanonical message }
    ensures appends { Appends (canonical_text message) out.old out.new result }
{
    make_room(out, 2 + elements_len(message))?;
    append_octets(out, &head_octets(message));
    append_elements(message, out);
    Ok(())
}
