//! Messages as octets.
ghost use Rattle.std.specs.Prelude.{◌≡◌, ◌+◌, ◌≤◌, ◌++◌, length, OnOk, IsOk, IfOk, vec_len, vec_capacity};
ghost use Rattle.rr_messages.specs.Kind.{part_len};
ghost use Rattle.octet_elements.specs.Writing.{Appends};
ghost use Rattle.rr_messages.specs.Rr.{kind_of, IsPart, IsRrText, part_text, rr_text, text_len};

use crate::message::Rr;
use crate::reading::RADIO_RESOURCES;
use octet_elements::make_room;
use std::alloc::{AllocError, Allocator};

// Appends the mandatory part, for which there is room.
fn append_part<A: Allocator + Copy>(message: &Rr, out: &mut Vec<u8, A>) -> Result<(), AllocError>
    requires { vec_len out.old + part_len (kind_of message.now) ≤ vec_capacity out.old }
    ensures ok { IsOk result }
    ensures items { out.new.items ≡ out.old.items ++ part_text message.now }
    ensures len { vec_len out.new ≡ vec_len out.old + part_len (kind_of message.now) }
    ensures capacity { vec_capacity out.new ≡ vec_capacity out.old }
    ensures part { IsPart message.now (part_text message.now) }
{
    match message {
        Rr::HandoverCommand {
            cell,
            channel,
            reference,
            power,
        } => {
            cell.encode_into(out)?;
            channel.encode_into(out)?;
            out.push_reserved(*reference);
            power.encode_into(out)
        }
        Rr::HandoverComplete(cause) | Rr::HandoverFailure(cause) | Rr::ChannelRelease(cause) => {
            cause.encode_into(out)
        }
        Rr::PhysicalInformation(advance) => {
            out.push_reserved(*advance);
            Ok(())
        }
        Rr::MeasurementReport(results) => results.encode_into(out),
    }
}

/// How many octets a message is written as.
#[inline]
fn text_len(message: &Rr) -> usize
    ensures len { result ≡ length (rr_text message.now) }
    ensures count { length (rr_text message.now) ≡ text_len message.now }
{
    2 + message.kind().part_len()
}

/// Appends a message. A list with room for it is not moved: no memory is asked for. If memory is refused the list is as it
/// was.
pub fn encode_into<A: Allocator + Copy>(
    message: &Rr,
    out: &mut Vec<u8, A>,
) -> Result<(), AllocError>
    ensures written { Appends (rr_text message.now) out.old out.new result }
    ensures count { length (rr_text message.now) ≡ text_len message.now }

    // What is written is a text of the message, so `decode` reads it as the message.
    ensures text { OnOk result (IsRrText message.now (rr_text message.now)) }
{
    make_room(out, text_len(message))?;
    out.push_reserved(RADIO_RESOURCES);
    out.push_reserved(message.kind().octet());
    append_part(message, out)
}

/// A message as octets: its canonical text.
pub fn encode<A: Allocator + Copy>(alloc: A, message: &Rr) -> Result<Vec<u8, A>, AllocError>
    ensures ok { IfOk result (λ octets. octets.items ≡ rr_text message.now) }

    // The octets are a text of the message, so `decode` reads them as the message.
    ensures text { IfOk result (λ octets. IsRrText message.now octets.items) }
{
    let mut out = Vec::new(alloc);
    encode_into(message, &mut out)?;
    Ok(out)
}
