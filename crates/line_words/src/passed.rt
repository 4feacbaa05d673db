//! The radio resource messages that stations pass on.
use crate::content::Content;
use crate::failures::mobile_failure_name;
use encoded_messages::{abis_name, rr_name};
use rr_messages::decode;
use rsl_messages::Rsl;
use std::alloc::Allocator;
use trace_text::abis::layer3_of;

/// A radio resource message inside one on Abis: a station passes it on, from the network to a mobile or from there.
#[derive(Clone, Copy, Debug, PartialEq, Eq)]
pub struct Passed {
    /// The name of the message on Abis.
    pub outer: &'static str,
    /// The name of the radio resource message.
    pub inner: &'static str,
    /// The name of the cause for which a mobile says by it that a handover fails.
    pub failure: Option<&'static str>,
}

/// The radio resource message inside a message on Abis, where there is one that can be read.
fn passed_in<A: Allocator>(message: &Rsl<A>) -> Option<Passed> {
    let layer3 = layer3_of(message)?;
    match decode(layer3) {
        Ok(inside) => Some(Passed {
            outer: abis_name(message),
            inner: rr_name(&inside),
            failure: mobile_failure_name(&inside),
        }),
        Err(_) => None,
    }
}

/// What a station passes on by a message on Abis; `None` of a message without a radio resource message that can be read, and of
/// one on A.
pub fn passed_on<A: Allocator>(content: &Content<A>) -> Option<Passed> {
    match content {
        Content::Abis(_, Some(message)) => passed_in(message),
        Content::Abis(_, None) | Content::A(..) | Content::Rowless(..) | Content::Nothing => None,
    }
}
