//! An attempt moves a call to another controller (TS 48.008 clause 3.1.5).
ghost use Rattle.std.specs.Prelude.{◌≡◌, Some};
ghost use Rattle.std.specs.Option.{option_map, ForSome};
ghost use Rattle.channel_fsm.specs.declared.ChanState.TheVariants as state;
ghost use Rattle.radio_book.specs.declared.event.Event.TheVariants as event;
ghost use Rattle.radio_book.specs.State.{apply, state_of};
ghost use Rattle.radio_book.specs.Sound.{IsSound};
ghost use Rattle.radio_book.specs.Table.{step, reply_to, no_change};

use crate::event::{Refusal, Reply, Stage};
use crate::records::Records;
use channel_fsm::{ChanEvent, ChanId, ChanState};
use radio_tables::tables::Tables;

impl<T: Tables> Records<T> {
    pub(super) fn require(&mut self, call: u16) -> Reply
        ensures reply { result ≡ reply_to self.old (event.Require call) }
        ensures book { self.new ≡ step self.old (event.Require call) }
    {
        let Some(mut entry) = self.entry(call) else {
            return Reply::Refused(Refusal::NoCall);
        };
        let record = entry.record();
        if record.attempt.is_some() {
            return Reply::Refused(Refusal::WrongPhase);
        }
        let Some(serving) = record.serving else {
            return Reply::Refused(Refusal::WrongPhase);
        };
        if !matches!(self.state_of(serving), ChanState::On(_)) {
            return Reply::Refused(Refusal::WrongPhase);
        }
        entry.require();
        self.set_entry(call, entry);
        Reply::Done
    }

    pub(super) fn order(&mut self, call: u16) -> Reply
        ensures reply { result ≡ reply_to self.old (event.Order call) }
        ensures book { self.new ≡ step self.old (event.Order call) }
    {
        let Some(mut entry) = self.entry(call) else {
            return Reply::Refused(Refusal::NoCall);
        };
        let Some(attempt) = entry.record().attempt else {
            return Reply::Refused(Refusal::WrongPhase);
        };
        let Stage::Required = attempt.stage else {
            return Reply::Refused(Refusal::WrongPhase);
        };
        entry.order(attempt);
        self.set_entry(call, entry);
        Reply::Done
    }

    pub(super) fn left(&mut self, call: u16) -> Reply
        requires { IsSound self.old }
        ensures reply { result ≡ reply_to self.old (event.Left call) }
        ensures book { self.new ≡ step self.old (event.Left call) }
    {
        let Some(record) = self.record(call) else {
            return Reply::Refused(Refusal::NoCall);
        };
        let Some(attempt) = record.attempt else {
            return Reply::Refused(Refusal::WrongPhase);
        };
        let Stage::Ordered = attempt.stage else {
            return Reply::Refused(Refusal::WrongPhase);
        };
        self.switch_off_serving(call, record.serving);
        self.remove_call(call);
        Reply::Done
    }

    /// A call leaves the channel that it is on, if it is on one.
    pub(super) fn switch_off_serving(&mut self, call: u16, serving: Option<ChanId>)
        requires { ForSome serving (λ x. state_of self.old x ≡ state.On call) }
        ensures { self.new ≡ apply (record no_change
            { channel = option_map (λ x. (x, Some state.Off)) serving }) self.old }
    {
        if let Some(x) = serving {
            self.step_from(x, ChanState::On(call), ChanEvent::SwitchOff);
        }
    }
}
