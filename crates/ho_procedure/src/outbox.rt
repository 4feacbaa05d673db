//! The messages that a row sends.
ghost use Rattle.std.specs.Prelude.{◌≡◌, ◌∷◌, ◌++◌, ◌+◌, ◌≤◌, ◌<◌, [], IsSome, IsOk, OnOk, length, vec_len, vec_capacity};
ghost use Rattle.ho_procedure.specs.Sent.{all_sent};
ghost use Rattle.ho_procedure.specs.Messages.{speech, activation, target_activation, release, to_mobile, channel_release, data_request, clear_request, clear_complete, handover_performed, handover_required, handover_request_ack, handover_detect, handover_complete, handover_failure};

use crate::buffers::Buffers;
use crate::texts::{
    put_a, put_abis, write_a, write_abis, write_data_request, write_request_ack, write_required,
    write_rr,
};
use bssmap_messages::causes::BETTER_CELL;
use bssmap_messages::{Bssmap, CellId};
use channel_fsm::{ChanId, Rate};
use exchange::Outbound;
use rr_elements::RrCause;
use rr_messages::Rr;
use rsl_messages::{ChanBits, Rsl, encode_activation_into};
use std::alloc::{AllocError, Allocator, Global};
use std::marker::Model;
use std::mem;

/// How many octets the longest radio resource message has, a MEASUREMENT REPORT.
const LONGEST_RR: usize = 18;

/// How many octets a DATA REQUEST has beside the message inside.
const DATA_REQUEST_HEAD: usize = 9;

/// The mode of a speech channel of this rate: no discontinuous transmission, speech, Bm or Lm, version 1
/// (TS 48.058 clause 9.3.6).
fn speech(rate: Rate) -> [u8; 4]
    ensures { result ≡ speech rate }
{
    match rate {
        Rate::Full => [0, 1, 8, 1],
        Rate::Half => [0, 1, 9, 1],
    }
}

/// How a message on Abis names a channel on its TRX (TS 48.058 clause 9.3.1).
fn channel_number(chan: ChanId) -> ChanBits
    ensures { result ≡ record { tn = chan.tn; sub = chan.sub } }
{
    ChanBits {
        tn: chan.tn,
        sub: chan.sub,
    }
}

/// Messages that are owed, in their order, and room for more. Room is made first, by [`Outbox::make_room`]; then a
/// message is written into a buffer of its own, which is moved into it, and no memory is asked for.
#[derive(Drop)]
pub(crate) struct Outbox<A: Allocator = Global> {
    messages: Vec<Outbound<A>, A>,
    buffers: Buffers<A>,
    // empty: a radio resource message is written here, and then into a message around it
    inner: Vec<u8, A>,
    // empty: becomes a message in which octets are passed on unread
    wide: Vec<u8, A>,
    alloc: A,
}

impl<A: Allocator> Model for Outbox<A> {
    ghost use Rattle.std.specs.Prelude.{◌≡◌, ◌-◌, ◌≤◌, ◌<◌, min, vec_len, vec_capacity};
    ghost use Rattle.ho_procedure.specs.Sent.{all_sent};
    ghost use Rattle.ho_procedure.specs.Owed.{Owed, longest_rr};

    ghost Value = { Owed };

    ghost view = { λ o. record {
      items = all_sent o.messages.items;
      room = min (vec_capacity o.messages - vec_len o.messages) o.buffers;
      unread_room = vec_capacity o.wide - 9;
    } };

    ghost invariant = { λ o. (vec_len o.inner ≡ 0) × (vec_len o.wide ≡ 0) ×
        (0 < o.buffers → longest_rr ≤ vec_capacity o.inner) };
}

/// Puts back the buffers of messages that were sent.
fn put_back_all<A: Allocator + Copy>(buffers: &mut Buffers<A>, sent: &mut Vec<Outbound<A>, A>) {
    for message in sent.drain(..) {
        buffers.put_back(message.into_octets().into_vec());
    }
}

impl<A: Allocator + Copy> Outbox<A> {
    /// No message is owed, and there is no room for one.
    pub(crate) fn new(alloc: A) -> Outbox<A>
        ensures { result.items ≡ [] }
    {
        Outbox {
            messages: Vec::new(alloc),
            buffers: Buffers::new(alloc),
            inner: Vec::new(alloc),
            wide: Vec::new(alloc),
            alloc,
        }
    }

    /// Makes room for this many messages more. Where there is room for them, and for one, no memory is asked for. The
    /// messages stay, also if memory is refused.
    pub(crate) fn make_room(&mut self, more: usize) -> Result<(), AllocError>
        ensures ok { OnOk result (more ≤ self.new.room) }
        ensures had_room { 1 ≤ self.old.room → more ≤ self.old.room → IsOk result }
        ensures items { self.new.items ≡ self.old.items }
        ensures unread_room { self.new.unread_room ≡ self.old.unread_room }
    {
        self.messages.reserve(more)?;
        self.inner.reserve(LONGEST_RR)?;
        self.buffers.make(more)
    }

    /// Makes room for one message in which so many octets are passed on unread. Where there is room for it, no memory is
    /// asked for. The messages stay, also if memory is refused.
    pub(crate) fn make_unread_room(&mut self, octets: usize) -> Result<(), AllocError>
        requires { octets ≤ 1015 }
        ensures ok { OnOk result (1 ≤ self.new.room) }
        ensures unread_room { OnOk result (octets ≤ self.new.unread_room) }
        ensures had_room { 1 ≤ self.old.room → 1 ≤ octets → octets ≤ self.old.unread_room →
            IsOk result }
        ensures items { self.new.items ≡ self.old.items }
    {
        self.make_room(1)?;
        self.wide.reserve(DATA_REQUEST_HEAD + octets)
    }

    /// The messages. None are owed any more.
    pub(crate) fn take(&mut self) -> Vec<Outbound<A>, A>
        ensures taken { all_sent result.items ≡ self.old.items }
        ensures none { self.new.items ≡ [] }
    {
        mem::replace(&mut self.messages, Vec::new(self.alloc))
    }

    /// Takes back messages that were sent: their buffers, and the list itself, serve for the next ones. No memory is asked for.
    pub(crate) fn take_back(&mut self, sent: Vec<Outbound<A>, A>)
        ensures none { self.new.items ≡ [] }
    {
        let mut sent = sent;
        if LONGEST_RR <= self.inner.capacity() {
            put_back_all(&mut self.buffers, &mut sent);
        }
        sent.clear();
        self.messages = sent;
    }

    /// CHANNEL ACTIVATION for an immediate assignment.
    pub(crate) fn activation(&mut self, chan: ChanId)
        requires room { 1 ≤ self.old.room }
        requires timeslot { chan.tn < 8 }
        ensures sent { self.new.items ≡ self.old.items ++ activation chan ∷ [] }
        ensures room { self.old.room ≤ self.new.room + 1 }
    {
        let mut text = self.buffers.take();
        let channel = channel_number(chan);
        if encode_activation_into(channel, 0, &speech(chan.sub.rate()), None, &mut text).is_err() {
            unreachable!()
        }
        put_abis(&mut self.messages, chan, text);
    }

    /// CHANNEL ACTIVATION for an asynchronous handover with this reference.
    pub(crate) fn target_activation(&mut self, chan: ChanId, reference: u8)
        requires room { 1 ≤ self.old.room }
        requires timeslot { chan.tn < 8 }
        ensures sent { self.new.items ≡ self.old.items ++ target_activation chan reference ∷ [] }
        ensures room { self.old.room ≤ self.new.room + 1 }
    {
        let mut text = self.buffers.take();
        let channel = channel_number(chan);
        if encode_activation_into(
            channel,
            2,
            &speech(chan.sub.rate()),
            Some(reference),
            &mut text,
        )
        .is_err()
        {
            unreachable!()
        }
        put_abis(&mut self.messages, chan, text);
    }

    /// RF CHANNEL RELEASE.
    pub(crate) fn release(&mut self, chan: ChanId)
        requires room { 1 ≤ self.old.room }
        requires timeslot { chan.tn < 8 }
        ensures sent { self.new.items ≡ self.old.items ++ release chan ∷ [] }
        ensures room { self.old.room ≤ self.new.room + 1 }
    {
        let mut text = self.buffers.take();
        let channel = channel_number(chan);
        write_abis(&Rsl::RfChannelRelease { channel }, &mut text);
        put_abis(&mut self.messages, chan, text);
    }

    /// DATA REQUEST on the main signalling channel with a message to the mobile.
    pub(crate) fn to_mobile(&mut self, chan: ChanId, message: &Rr)
        requires room { 1 ≤ self.old.room }
        requires timeslot { chan.tn < 8 }
        ensures sent { self.new.items ≡ self.old.items ++ to_mobile chan message.now ∷ [] }
        ensures room { self.old.room ≤ self.new.room + 1 }
    {
        let mut text = self.buffers.take();
        write_rr(message, &mut self.inner);
        let channel = channel_number(chan);
        write_data_request(channel, self.inner.as_slice(), &mut text);
        self.inner.clear();
        put_abis(&mut self.messages, chan, text);
    }

    /// DATA REQUEST with CHANNEL RELEASE of a cause.
    pub(crate) fn channel_release(&mut self, chan: ChanId, cause: u8)
        requires room { 1 ≤ self.old.room }
        requires timeslot { chan.tn < 8 }
        ensures sent { self.new.items ≡ self.old.items ++ channel_release chan cause ∷ [] }
        ensures room { self.old.room ≤ self.new.room + 1 }
    {
        self.to_mobile(chan, &Rr::ChannelRelease(RrCause(cause)));
    }

    /// DATA REQUEST on the main signalling channel in which octets are passed on unread.
    pub(crate) fn data_request(&mut self, chan: ChanId, layer3: &[u8])
        requires room { 1 ≤ self.old.room }
        requires timeslot { chan.tn < 8 }
        requires some { 0 < length layer3.now }
        requires unread_room { length layer3.now ≤ self.old.unread_room }
        requires short { length layer3.now ≤ 1015 }
        ensures sent { self.new.items ≡ self.old.items ++ data_request chan layer3.now ∷ [] }
        ensures room { self.old.room ≤ self.new.room + 1 }
    {
        let mut text = mem::replace(&mut self.wide, Vec::new(self.alloc));
        let channel = channel_number(chan);
        write_data_request(channel, layer3, &mut text);
        put_abis(&mut self.messages, chan, text);
    }

    /// CLEAR REQUEST.
    pub(crate) fn clear_request(&mut self, call: u16, cause: u8)
        requires { 1 ≤ self.old.room }
        ensures sent { self.new.items ≡ self.old.items ++ clear_request call cause ∷ [] }
        ensures room { self.old.room ≤ self.new.room + 1 }
    {
        let mut text = self.buffers.take();
        write_a(&Bssmap::ClearRequest { cause }, &mut text);
        put_a(&mut self.messages, call, text);
    }

    /// CLEAR COMPLETE.
    pub(crate) fn clear_complete(&mut self, call: u16)
        requires { 1 ≤ self.old.room }
        ensures sent { self.new.items ≡ self.old.items ++ clear_complete call ∷ [] }
        ensures room { self.old.room ≤ self.new.room + 1 }
    {
        let mut text = self.buffers.take();
        write_a(&Bssmap::ClearComplete, &mut text);
        put_a(&mut self.messages, call, text);
    }

    /// HANDOVER PERFORMED to this cell, which has a location area code.
    pub(crate) fn handover_performed(&mut self, call: u16, cell: CellId)
        requires room { 1 ≤ self.old.room }
        requires area { IsSome cell.lac }
        ensures sent { self.new.items ≡ self.old.items ++ handover_performed call cell ∷ [] }
        ensures room { self.old.room ≤ self.new.room + 1 }
    {
        let mut text = self.buffers.take();
        write_a(
            &Bssmap::HandoverPerformed {
                cause: BETTER_CELL,
                cell,
            },
            &mut text,
        );
        put_a(&mut self.messages, call, text);
    }

    /// HANDOVER REQUIRED for this cell, which has a location area code.
    pub(crate) fn handover_required(&mut self, call: u16, cell: CellId)
        requires room { 1 ≤ self.old.room }
        requires area { IsSome cell.lac }
        ensures sent { self.new.items ≡ self.old.items ++ handover_required call cell ∷ [] }
        ensures room { self.old.room ≤ self.new.room + 1 }
    {
        let mut text = self.buffers.take();
        write_required(BETTER_CELL, cell, &mut text);
        put_a(&mut self.messages, call, text);
    }

    /// HANDOVER REQUEST ACKNOWLEDGE with a message to the mobile.
    pub(crate) fn handover_request_ack(&mut self, call: u16, message: &Rr)
        requires { 1 ≤ self.old.room }
        ensures sent { self.new.items ≡ self.old.items ++ handover_request_ack call message.now ∷ [] }
        ensures room { self.old.room ≤ self.new.room + 1 }
    {
        let mut text = self.buffers.take();
        write_rr(message, &mut self.inner);
        write_request_ack(self.inner.as_slice(), &mut text);
        self.inner.clear();
        put_a(&mut self.messages, call, text);
    }

    /// HANDOVER DETECT.
    pub(crate) fn handover_detect(&mut self, call: u16)
        requires { 1 ≤ self.old.room }
        ensures sent { self.new.items ≡ self.old.items ++ handover_detect call ∷ [] }
        ensures room { self.old.room ≤ self.new.room + 1 }
    {
        let mut text = self.buffers.take();
        write_a(&Bssmap::HandoverDetect, &mut text);
        put_a(&mut self.messages, call, text);
    }

    /// HANDOVER COMPLETE with the mobile's RR cause.
    pub(crate) fn handover_complete(&mut self, call: u16, rr: u8)
        requires { 1 ≤ self.old.room }
        ensures sent { self.new.items ≡ self.old.items ++ handover_complete call rr ∷ [] }
        ensures room { self.old.room ≤ self.new.room + 1 }
    {
        let mut text = self.buffers.take();
        write_a(&Bssmap::HandoverComplete { rr: Some(rr) }, &mut text);
        put_a(&mut self.messages, call, text);
    }

    /// HANDOVER FAILURE, with the mobile's RR cause where it gave one.
    pub(crate) fn handover_failure(&mut self, call: u16, cause: u8, rr: Option<u8>)
        requires { 1 ≤ self.old.room }
        ensures sent { self.new.items ≡ self.old.items ++ handover_failure call cause rr ∷ [] }
        ensures room { self.old.room ≤ self.new.room + 1 }
    {
        let mut text = self.buffers.take();
        write_a(&Bssmap::HandoverFailure { cause, rr }, &mut text);
        put_a(&mut self.messages, call, text);
    }
}
