//! The messages of a row, each with the plan that it leads from and to.
ghost use Rattle.std.specs.Prelude.{◌≡◌, ◌≤◌, ◌<◌, ◌+◌, IsSome, length};
ghost use Rattle.ho_procedure.specs.Messages.{activation, target_activation, release, to_mobile, channel_release, data_request, clear_request, clear_complete, handover_performed, handover_required, handover_request_ack, handover_detect, handover_complete, handover_failure};
ghost use Rattle.ho_procedure.specs.Plan.{Plan, Sends};
ghost use Rattle.ho_procedure.specs.Going.{Passes};

use crate::view::DeskView;
use crate::work::Work;
use bssmap_messages::CellId;
use channel_fsm::ChanId;
use rr_messages::Rr;
use std::alloc::Allocator;

impl<D: DeskView + Drop, A: Allocator + Copy> Work<D, A> {
    /// CHANNEL ACTIVATION of a call's channel.
    #[tactic(auto, using(crate::proofs::Going::posted))]
    pub(crate) fn send_activation(&mut self, chan: ChanId)
        requires room { 1 ≤ self.old.owed.room }
        requires timeslot { chan.tn < 8 }
        ensures goes { (next : Plan) → Passes D.log D.says self.old
            (Sends (activation chan) next) self.new next }
        ensures room { self.old.owed.room ≤ self.new.owed.room + 1 }
    {
        self.owed.activation(chan);
    }

    /// CHANNEL ACTIVATION of a handover's target, with its reference.
    #[tactic(auto, using(crate::proofs::Going::posted))]
    pub(crate) fn send_target_activation(&mut self, chan: ChanId, reference: u8)
        requires room { 1 ≤ self.old.owed.room }
        requires timeslot { chan.tn < 8 }
        ensures goes { (next : Plan) → Passes D.log D.says self.old
            (Sends (target_activation chan reference) next) self.new next }
        ensures room { self.old.owed.room ≤ self.new.owed.room + 1 }
    {
        self.owed.target_activation(chan, reference);
    }

    /// RF CHANNEL RELEASE.
    #[tactic(auto, using(crate::proofs::Going::posted))]
    pub(crate) fn send_release(&mut self, chan: ChanId)
        requires room { 1 ≤ self.old.owed.room }
        requires timeslot { chan.tn < 8 }
        ensures goes { (next : Plan) → Passes D.log D.says self.old
            (Sends (release chan) next) self.new next }
        ensures room { self.old.owed.room ≤ self.new.owed.room + 1 }
    {
        self.owed.release(chan);
    }

    /// A message to the mobile on a channel, in a DATA REQUEST.
    #[tactic(auto, using(crate::proofs::Going::posted))]
    pub(crate) fn send_to_mobile(&mut self, chan: ChanId, message: &Rr)
        requires room { 1 ≤ self.old.owed.room }
        requires timeslot { chan.tn < 8 }
        ensures goes { (next : Plan) → Passes D.log D.says self.old
            (Sends (to_mobile chan message.now) next) self.new next }
        ensures room { self.old.owed.room ≤ self.new.owed.room + 1 }
    {
        self.owed.to_mobile(chan, message);
    }

    /// CHANNEL RELEASE to the mobile on a channel.
    #[tactic(auto, using(crate::proofs::Going::posted))]
    pub(crate) fn send_channel_release(&mut self, chan: ChanId, cause: u8)
        requires room { 1 ≤ self.old.owed.room }
        requires timeslot { chan.tn < 8 }
        ensures goes { (next : Plan) → Passes D.log D.says self.old
            (Sends (channel_release chan cause) next) self.new next }
        ensures room { self.old.owed.room ≤ self.new.owed.room + 1 }
    {
        self.owed.channel_release(chan, cause);
    }

    /// CLEAR REQUEST.
    #[tactic(auto, using(crate::proofs::Going::posted))]
    pub(crate) fn send_clear_request(&mut self, call: u16, cause: u8)
        requires { 1 ≤ self.old.owed.room }
        ensures goes { (next : Plan) → Passes D.log D.says self.old
            (Sends (clear_request call cause) next) self.new next }
        ensures room { self.old.owed.room ≤ self.new.owed.room + 1 }
    {
        self.owed.clear_request(call, cause);
    }

    /// CLEAR COMPLETE.
    #[tactic(auto, using(crate::proofs::Going::posted))]
    pub(crate) fn send_clear_complete(&mut self, call: u16)
        requires { 1 ≤ self.old.owed.room }
        ensures goes { (next : Plan) → Passes D.log D.says self.old
            (Sends (clear_complete call) next) self.new next }
        ensures room { self.old.owed.room ≤ self.new.owed.room + 1 }
    {
        self.owed.clear_complete(call);
    }

    /// HANDOVER PERFORMED to this cell, which has a location area code.
    #[tactic(auto, using(crate::proofs::Going::posted))]
    pub(crate) fn send_handover_performed(&mut self, call: u16, cell: CellId)
        requires room { 1 ≤ self.old.owed.room }
        requires area { IsSome cell.lac }
        ensures goes { (next : Plan) → Passes D.log D.says self.old
            (Sends (handover_performed call cell) next) self.new next }
        ensures room { self.old.owed.room ≤ self.new.owed.room + 1 }
    {
        self.owed.handover_performed(call, cell);
    }

    /// HANDOVER REQUIRED for this cell, which has a location area code.
    #[tactic(auto, using(crate::proofs::Going::posted))]
    pub(crate) fn send_handover_required(&mut self, call: u16, cell: CellId)
        requires room { 1 ≤ self.old.owed.room }
        requires area { IsSome cell.lac }
        ensures goes { (next : Plan) → Passes D.log D.says self.old
            (Sends (handover_required call cell) next) self.new next }
    {
        self.owed.handover_required(call, cell);
    }

    /// HANDOVER REQUEST ACKNOWLEDGE with a message to the mobile.
    #[tactic(auto, using(crate::proofs::Going::posted))]
    pub(crate) fn send_handover_request_ack(&mut self, call: u16, message: &Rr)
        requires { 1 ≤ self.old.owed.room }
        ensures goes { (next : Plan) → Passes D.log D.says self.old
            (Sends (handover_request_ack call message.now) next) self.new next }
    {
        self.owed.handover_request_ack(call, message);
    }

    /// HANDOVER DETECT.
    #[tactic(auto, using(crate::proofs::Going::posted))]
    pub(crate) fn send_handover_detect(&mut self, call: u16)
        requires { 1 ≤ self.old.owed.room }
        ensures goes { (next : Plan) → Passes D.log D.says self.old
            (Sends (handover_detect call) next) self.new next }
    {
        self.owed.handover_detect(call);
    }

    /// HANDOVER COMPLETE with the mobile's RR cause.
    #[tactic(auto, using(crate::proofs::Going::posted))]
    pub(crate) fn send_handover_complete(&mut self, call: u16, rr: u8)
        requires { 1 ≤ self.old.owed.room }
        ensures goes { (next : Plan) → Passes D.log D.says self.old
            (Sends (handover_complete call rr) next) self.new next }
    {
        self.owed.handover_complete(call, rr);
    }

    /// HANDOVER FAILURE, with the mobile's RR cause where it gave one.
    #[tactic(auto, using(crate::proofs::Going::posted))]
    pub(crate) fn send_handover_failure(&mut self, call: u16, cause: u8, rr: Option<u8>)
        requires { 1 ≤ self.old.owed.room }
        ensures goes { (next : Plan) → Passes D.log D.says self.old
            (Sends (handover_failure call cause rr) next) self.new next }
    {
        self.owed.handover_failure(call, cause, rr);
    }

    /// DATA REQUEST on the main signalling channel in which octets are passed on unread.
    #[tactic(auto, using(crate::proofs::Going::posted))]
    pub(crate) fn send_data_request(&mut self, chan: ChanId, layer3: &[u8])
        requires room { 1 ≤ self.old.owed.room }
        requires timeslot { chan.tn < 8 }
        requires some { 0 < length layer3.now }
        requires unread_room { length layer3.now ≤ self.old.owed.unread_room }
        requires short { length layer3.now ≤ 1015 }
        ensures goes { (next : Plan) → Passes D.log D.says self.old
            (Sends (data_request chan layer3.now) next) self.new next }
    {
        self.owed.data_request(chan, layer3);
    }
}
