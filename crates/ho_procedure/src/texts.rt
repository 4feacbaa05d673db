//! Messages in the buffers that they are sent in.
ghost use Rattle.std.specs.Prelude.{◌≡◌, ◌∷◌, ◌++◌, ◌+◌, ◌≤◌, ◌<◌, [], true, IsSome, length, vec_len, vec_capacity};
ghost use Rattle.rr_messages.specs.Rr.{rr_text};
ghost use Rattle.rsl_messages.specs.Texts as abis;
ghost use Rattle.rsl_messages.specs.Messages as abis_messages;
ghost use Rattle.rsl_messages.specs.Values.{main_signalling};
ghost use Rattle.bssmap_messages.specs.Texts as interface_a;
ghost use Rattle.bssmap_messages.specs.Messages as a_messages;
ghost use Rattle.ho_procedure.specs.Sent.{OnAbis, OnA, all_sent};
ghost use Rattle.ho_procedure.specs.Owed.{IsSpare, longest, longest_rr};

use bssmap_messages::{Bssmap, CellId, encode_request_ack_into, encode_required_into};
use channel_fsm::ChanId;
use exchange::Outbound;
use octet_elements::Octets;
use rr_messages::Rr;
use rsl_messages::values::MAIN_SIGNALLING;
use rsl_messages::{ChanBits, Rsl, encode_data_request_into};
use std::alloc::Allocator;

/// Writes a message on Abis into a buffer.
pub(crate) fn write_abis<A: Allocator + Copy>(message: &Rsl<A>, text: &mut Vec<u8, A>)
    requires said { abis_messages.CanBeSaid message.now }
    requires short { length (abis.canonical_text message.now) ≤ longest }
    requires spare { IsSpare text.old }
    ensures { text.new.items ≡ abis.canonical_text message.now }
{
    rsl_messages::canonical_is_text::<A>();
    if rsl_messages::encode_into(message, text).is_err() {
        unreachable!()
    }
}

/// Writes a message on A into a buffer.
pub(crate) fn write_a<A: Allocator + Copy>(message: &Bssmap<A>, text: &mut Vec<u8, A>)
    requires said { a_messages.CanBeSaid message.now }
    requires short { length (interface_a.canonical_text message.now) ≤ longest }
    requires spare { IsSpare text.old }
    ensures { text.new.items ≡ interface_a.canonical_text message.now }
{
    bssmap_messages::canonical_is_text::<A>();
    if bssmap_messages::encode_into(message, text).is_err() {
        unreachable!()
    }
}

/// Writes a radio resource message into an empty list with room for it.
pub(crate) fn write_rr<A: Allocator + Copy>(message: &Rr, text: &mut Vec<u8, A>)
    requires empty { vec_len text.old ≡ 0 }
    requires room { longest_rr ≤ vec_capacity text.old }
    ensures text { text.new.items ≡ rr_text message.now }
    ensures some { 0 < length (rr_text message.now) }
    ensures short { length (rr_text message.now) ≤ longest_rr }
    ensures capacity { vec_capacity text.old ≤ vec_capacity text.new }
{
    if rr_messages::encode_into(message, text).is_err() {
        unreachable!()
    }
}

/// Writes a DATA REQUEST on the main signalling channel, SAPI 0, into a list with room for it.
pub(crate) fn write_data_request<A: Allocator>(
    channel: ChanBits,
    layer3: &[u8],
    text: &mut Vec<u8, A>,
)
    requires channel { channel.tn < 8 }
    requires some { 0 < length layer3.now }
    requires short { length layer3.now ≤ 1015 }
    requires empty { vec_len text.old ≡ 0 }
    requires room { 9 + length layer3.now ≤ vec_capacity text.old }
    ensures { text.new.items ≡ abis.canonical_text {A = Unit}
        (Rsl.DataRequest channel main_signalling layer3.now) }
{
    if encode_data_request_into(channel, MAIN_SIGNALLING, layer3, text).is_err() {
        unreachable!()
    }
}

/// Writes a HANDOVER REQUEST ACKNOWLEDGE with a message for the mobile into a buffer.
pub(crate) fn write_request_ack<A: Allocator + Copy>(layer3: &[u8], text: &mut Vec<u8, A>)
    requires some { 0 < length layer3.now }
    requires short { length layer3.now ≤ longest_rr }
    requires spare { IsSpare text.old }
    ensures { text.new.items ≡ interface_a.canonical_text {A = Unit}
        (Bssmap.HandoverRequestAck layer3.now) }
{
    if encode_request_ack_into(layer3, text).is_err() {
        unreachable!()
    }
}

/// Writes a HANDOVER REQUIRED for a cell, with a response request, into a buffer.
pub(crate) fn write_required<A: Allocator + Copy>(cause: u8, cell: CellId, text: &mut Vec<u8, A>)
    requires area { IsSome cell.lac }
    requires spare { IsSpare text.old }
    ensures { text.new.items ≡ interface_a.canonical_text {A = Unit}
        (Bssmap.HandoverRequired cause true (cell ∷ [])) }
{
    if encode_required_into(cause, true, cell, text).is_err() {
        unreachable!()
    }
}

/// A message goes to the TRX of a channel.
pub(crate) fn put_abis<A: Allocator>(
    messages: &mut Vec<Outbound<A>, A>,
    chan: ChanId,
    text: Vec<u8, A>,
)
    requires { vec_len messages.old < vec_capacity messages.old }
    ensures sent { all_sent messages.new.items ≡ all_sent messages.old.items ++
        OnAbis chan.cell chan.trx text.items ∷ [] }
    ensures len { vec_len messages.new ≡ vec_len messages.old + 1 }
    ensures capacity { vec_capacity messages.new ≡ vec_capacity messages.old }
{
    messages.push_reserved(Outbound::Abis {
        cell: chan.cell,
        trx: chan.trx,
        bytes: Octets::from_vec(text),
    });
}

/// A message goes out about a call.
pub(crate) fn put_a<A: Allocator>(messages: &mut Vec<Outbound<A>, A>, call: u16, text: Vec<u8, A>)
    requires { vec_len messages.old < vec_capacity messages.old }
    ensures sent { all_sent messages.new.items ≡ all_sent messages.old.items ++
        OnA call text.items ∷ [] }
    ensures len { vec_len messages.new ≡ vec_len messages.old + 1 }
    ensures capacity { vec_capacity messages.new ≡ vec_capacity messages.old }
{
    messages.push_reserved(Outbound::A {
        call,
        bytes: Octets::from_vec(text),
    });
}
