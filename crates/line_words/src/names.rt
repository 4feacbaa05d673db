//! The names of messages, without their fields.
use crate::content::Content;
use encoded_messages::{a_name, abis_name, rr_name};
use std::alloc::{AllocError, Allocator};
use trace_text::{abis, bssmap};

/// The name of a message, and behind it that of the radio resource message inside, if there is one that can be read.
fn name_with_layer3<A: Allocator>(
    alloc: A,
    name: &str,
    layer3: Option<&[u8]>,
) -> Result<String<A>, AllocError> {
    let mut text = String::from_str(alloc, name)?;
    let Some(layer3) = layer3 else {
        return Ok(text);
    };
    if let Ok(message) = rr_messages::decode(layer3) {
        text.push_str(": ")?;
        text.push_str(rr_name(&message))?;
    }
    Ok(text)
}

/// The name of octets that are no message.
const NO_MESSAGE: &str = "no message";

/// The name of a message that comes or is sent, and after a colon that of the radio resource message inside, if there is
/// one: `DATA REQUEST: HANDOVER COMMAND`. `no message` if the octets are no message, or there are none.
pub fn message_name<A: Allocator + Copy>(
    alloc: A,
    content: &Content<A>,
) -> Result<String<A>, AllocError> {
    match content {
        Content::Abis(_, Some(message)) => {
            name_with_layer3(alloc, abis_name(message), abis::layer3_of(message))
        }
        Content::A(_, Some(message)) => {
            name_with_layer3(alloc, a_name(message), bssmap::layer3_of(message))
        }
        Content::Rowless(_, name) => String::from_str(alloc, *name),
        Content::Abis(_, None) | Content::A(_, None) | Content::Nothing => {
            String::from_str(alloc, NO_MESSAGE)
        }
    }
}
