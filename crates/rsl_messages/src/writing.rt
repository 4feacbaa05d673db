//! Writing a message.
ghost use Rattle.std.specs.Prelude.{◌≡◌, ◌↔◌, ◌<◌, ◌≤◌, IsTrue, IfOk, length};
ghost use Rattle.octet_elements.specs.Writing.{Appends};
ghost use Rattle.rsl_messages.specs.Texts.{HasCanonical, canonical_text};

use crate::elements::{append_activation, append_data, append_elements, can_be_said, elements_len};
use crate::head::{
    CHANNEL_ACTIVATION, DATA_REQUEST, DEDICATED_CHANNEL, RADIO_LINK_LAYER, head_octets,
};
use crate::message::{ChanBits, Rsl};
use crate::reading::LIMIT;
use crate::table::{Abis, HANDOVER_REFERENCE};
use octet_elements::{append_octets, make_room, optional_octet_len};
use std::alloc::{AllocError, Allocator};

/// Whether the message has a canonical text.
#[tactic(auto, using(crate::proofs::Written::canonical_of, crate::proofs::Written::writable_of))]
pub fn fits<A: Allocator>(message: &Rsl<A>) -> bool
    ensures canonical { IsTrue result ↔ HasCanonical message.now }
{
    can_be_said(message) && elements_len(message) <= LIMIT - 2
}

/// Appends the canonical text of a message. A list with room for it is not moved: no memory is asked for.
pub fn encode_into<A: Allocator>(message: &Rsl<A>, out: &mut Vec<u8, A>) -> Result<(), AllocError>
    requires { HasCanonical message.now }
    ensures appends { Appends (canonical_text message.now) out.old out.new result }
{
    make_room(out, 2 + elements_len(message))?;
    append_octets(out, &head_octets(message));
    append_elements(message, out);
    Ok(())
}

/// Appends the canonical text of a DATA REQUEST (TS 48.058 clause 8.3.1) whose layer 3 message, from 1 to 1,015 octets,
/// is lent. A list with room for it is not moved: no memory is asked for.
pub fn encode_data_request_into<A: Allocator>(
    channel: ChanBits,
    link: u8,
    layer3: &[u8],
    out: &mut Vec<u8, A>,
) -> Result<(), AllocError>
    requires channel { channel.tn < 8 }
    requires some { 0 < length layer3.now }
    requires short { length layer3.now ≤ 1015 }
    ensures appends { Appends (canonical_text {A = A} (Rsl.DataRequest channel link layer3.now))
        out.old out.new result }
{
    make_room(out, 9 + layer3.len())?;
    append_octets(out, &[RADIO_LINK_LAYER, DATA_REQUEST]);
    append_data(out, channel, link, layer3);
    Ok(())
}

/// Appends the canonical text of a CHANNEL ACTIVATION (TS 48.058 clause 8.4.1) whose channel mode, from 1 to 255 octets,
/// is lent. A list with room for it is not moved: no memory is asked for.
pub fn encode_activation_into<A: Allocator>(
    channel: ChanBits,
    activation: u8,
    mode: &[u8],
    reference: Option<u8>,
    out: &mut Vec<u8, A>,
) -> Result<(), AllocError>
    requires channel { channel.tn < 8 }
    requires some { 0 < length mode.now }
    requires short { length mode.now < 256 }
    ensures appends { Appends
        (canonical_text {A = A} (Rsl.ChannelActivation channel activation mode.now reference))
        out.old out.new result }
{
    make_room(
        out,
        8 + mode.len() + optional_octet_len::<Abis>(HANDOVER_REFERENCE, reference),
    )?;
    append_octets(out, &[DEDICATED_CHANNEL, CHANNEL_ACTIVATION]);
    append_activation(out, channel, activation, mode, reference);
    Ok(())
}

/// The canonical text of a message.
pub fn encode<A: Allocator + Copy>(alloc: A, message: &Rsl<A>) -> Result<Vec<u8, A>, AllocError>
    requires { HasCanonical message.now }
    ensures text { IfOk result (λ text. text.items ≡ canonical_text message.now) }
{
    let mut text = Vec::new(alloc);
    encode_into(message, &mut text)?;
    Ok(text)
}
