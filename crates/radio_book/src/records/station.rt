//! A station answers.
ghost use Rattle.std.specs.Prelude.{◌≡◌, Some};
ghost use Rattle.radio_tables.specs.declared.kinds.Attempt.{Attempt};
ghost use Rattle.radio_tables.specs.declared.kinds.CallRecord.{CallRecord};
ghost use Rattle.radio_book.specs.declared.event.Event.TheVariants as event;
ghost use Rattle.radio_book.specs.State.{apply, state_of, record_of};
ghost use Rattle.radio_book.specs.Sound.{IsSound};
ghost use Rattle.radio_book.specs.Table.{owner, step, reply_to, no_change, moved_entry};
ghost use Rattle.radio_book.specs.Journal.{journal_of};

use crate::event::{Refusal, Reply, Stage};
use crate::records::Records;
use channel_fsm::{ChanEvent, ChanId, ChanState};
use radio_tables::tables::Tables;

impl<T: Tables> Records<T> {
    pub(super) fn confirm(&mut self, x: ChanId) -> Reply
        requires { IsSound self.old }
        ensures reply { result ≡ reply_to self.old (event.Confirm x) }
        ensures book { self.new ≡ step self.old (event.Confirm x) }
    {
        let Some(ChanState::Pending(call)) = self.channel(x) else {
            return Reply::Refused(Refusal::Unexpected(x));
        };
        self.step_from(x, ChanState::Pending(call), ChanEvent::Confirm);
        self.move_attempt(call, x, Stage::Confirmed);
        Reply::Owned(call)
    }

    pub(super) fn refuse(&mut self, x: ChanId) -> Reply
        requires { IsSound self.old }
        ensures reply { result ≡ reply_to self.old (event.Refuse x) }
        ensures book { self.new ≡ step self.old (event.Refuse x) }
    {
        let Some(ChanState::Pending(call)) = self.channel(x) else {
            return Reply::Refused(Refusal::Unexpected(x));
        };
        self.step_from(x, ChanState::Pending(call), ChanEvent::Refuse);
        self.move_attempt(call, x, Stage::Refused);
        Reply::Owned(call)
    }

    /// The call's attempt comes to a stage that has the same inverses, where the channel is its target.
    fn move_attempt(&mut self, call: u16, x: ChanId, stage: Stage)
        requires { (r : CallRecord) (a : Attempt) →
            record_of self.old call ≡ Some r → r.attempt ≡ Some a → a.target ≡ Some x →
            journal_of (Some (record a { stage = stage })) ≡ journal_of (Some a) }
        ensures { self.new ≡ apply (record no_change
            { call = moved_entry x stage call (record_of self.old call) }) self.old }
    {
        let Some(mut entry) = self.entry(call) else {
            return;
        };
        let Some(attempt) = entry.record().attempt else {
            return;
        };
        let is_target = attempt.target == Some(x);
        if !is_target {
            return;
        }
        entry.move_to(attempt, stage);
        self.set_record(call, entry);
    }

    pub(super) fn released(&mut self, x: ChanId) -> Reply
        ensures reply { result ≡ reply_to self.old (event.Released x) }
        ensures book { self.new ≡ step self.old (event.Released x) }
    {
        let Some(ChanState::Off) = self.channel(x) else {
            return Reply::Refused(Refusal::Unexpected(x));
        };
        self.step_from(x, ChanState::Off, ChanEvent::Released);
        Reply::Done
    }

    pub(super) fn detect(&mut self, x: ChanId) -> Reply
        ensures reply { result ≡ reply_to self.old (event.Detect x) }
        ensures book { self.new ≡ step self.old (event.Detect x) }
    {
        let Some(ChanState::On(call)) = self.channel(x) else {
            return Reply::Refused(Refusal::Unexpected(x));
        };
        let Some(mut entry) = self.entry(call) else {
            return Reply::Refused(Refusal::Unexpected(x));
        };
        let Some(attempt) = entry.record().attempt else {
            return Reply::Refused(Refusal::Unexpected(x));
        };
        if attempt.target != Some(x) {
            return Reply::Refused(Refusal::Unexpected(x));
        }
        let Stage::Commanded = attempt.stage else {
            return Reply::Refused(Refusal::Unexpected(x));
        };
        entry.detect(attempt);
        self.set_record(call, entry);
        Reply::Owned(call)
    }

    /// The call whose a channel is.
    pub(crate) fn owner_of(&self, x: ChanId) -> Option<u16>
        ensures { result ≡ owner (state_of self.now x) }
    {
        match self.state_of(x) {
            ChanState::Held(call) | ChanState::Pending(call) | ChanState::On(call) => Some(call),
            ChanState::Free | ChanState::Off => None,
        }
    }

    pub(super) fn owner(&self, x: ChanId) -> Reply
        ensures { result ≡ reply_to self.now (event.Owner x) }
    {
        match self.owner_of(x) {
            Some(call) => Reply::Owned(call),
            None => Reply::Refused(Refusal::Unexpected(x)),
        }
    }
}
