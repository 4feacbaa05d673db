//! What the book keeps of a call: its record, the timer that is armed for it, and what takes its attempt back.
ghost use Rattle.std.specs.Prelude.{⊤, ◌≡◌, Some, None, is_some};
ghost use Rattle.attempt_journal.specs.declared.Timer.TheVariants as timer;
ghost use Rattle.radio_tables.specs.declared.kinds.AttemptKind.TheVariants.{Internal, Incoming};
ghost use Rattle.radio_tables.specs.declared.kinds.Stage.TheVariants as stage;
ghost use Rattle.radio_tables.specs.Records.{with_attempt, at_stage, taken_attempt, required_attempt, reserved_record};
ghost use Rattle.radio_tables.specs.Journal.{journal_of, back_one_stage};
ghost use Rattle.radio_tables.specs.Entries.{kept_code};
ghost use Rattle.radio_tables.specs.Same.{is_same, is_same-IsEquivalence};
ghost use Rattle.std.specs.Cmp.{partial_equiv_from_equiv};

use crate::kinds::{Attempt, AttemptKind, CallRecord, Stage, Timer};
use attempt_journal::{Inverse, Journal};
use channel_fsm::ChanId;
use std::alloc::AllocError;
use std::marker::Model;

/// The record of a call and its timer, with the inverses of its attempt's steps. Each step of the attempt pushes its own.
#[derive(Drop)]
pub struct CallEntry {
    record: CallRecord,
    timer: Option<Timer>,
    journal: Journal,
}

impl Model for CallEntry {
    ghost use Rattle.std.specs.Prelude.{◌≡◌};
    ghost use Rattle.radio_tables.specs.Entries.{Kept, kept_code};
    ghost use Rattle.radio_tables.specs.Journal.{journal_of};

    ghost Value = { Kept };

    ghost coded = { kept_code };

    ghost view = { λ entry. record { call = entry.record; timer = entry.timer } };

    ghost invariant = { λ entry. entry.journal ≡ journal_of entry.record.attempt };
}

/// The journal is no part of it: the record fixes it.
impl PartialEq for CallEntry {
    ghost eq = { is_same kept_code };

    ghost laws = { partial_equiv_from_equiv (is_same-IsEquivalence kept_code) };

    fn eq(&self, other: &CallEntry) -> bool {
        self.record == other.record && self.timer == other.timer
    }
}

impl Clone for CallEntry {
    ghost is_clone = { λ entry copy. copy ≡ entry };

    ghost is_infallible = { λ _. ⊤ };

    fn clone(&self) -> Result<CallEntry, AllocError> {
        Ok(self.copy())
    }
}

impl CallEntry {
    /// A call that begins on a channel.
    pub fn beginning_on(x: ChanId) -> CallEntry
        ensures { result ≡ record { call = record { serving = Some x; attempt = None }; timer = None } }
    {
        CallEntry {
            record: CallRecord {
                serving: Some(x),
                attempt: None,
            },
            timer: None,
            journal: Journal::new(),
        }
    }

    /// A call that comes from another controller to a channel.
    pub fn coming_to(x: ChanId) -> CallEntry
        ensures { result ≡ record
            { call = record { serving = None; attempt = Some (taken_attempt Incoming x) }; timer = None } }
    {
        let mut journal = Journal::new();
        journal.push(Inverse::Forget);
        journal.push(Inverse::FreeChannel(x));
        CallEntry {
            record: CallRecord {
                serving: None,
                attempt: Some(taken_attempt(AttemptKind::Incoming, x)),
            },
            timer: None,
            journal,
        }
    }

    pub fn copy(&self) -> CallEntry
        ensures { result ≡ self.now }
    {
        CallEntry {
            record: self.record,
            timer: self.timer,
            journal: self.journal,
        }
    }

    pub fn record(&self) -> CallRecord
        ensures { result ≡ self.now.call }
    {
        self.record
    }

    /// The timer that is armed.
    pub fn timer(&self) -> Option<Timer>
        ensures { result ≡ self.now.timer }
    {
        self.timer
    }

    pub fn is_armed(&self) -> bool
        ensures { result ≡ is_some self.now.timer }
    {
        self.timer.is_some()
    }

    /// The inverses, in the order of pushing.
    pub fn journal(&self) -> Journal
        ensures { result ≡ journal_of self.now.call.attempt }
    {
        self.journal
    }

    /// An attempt opens, and takes a channel.
    pub fn take(&mut self, x: ChanId)
        requires { self.old.call.attempt ≡ None }
        ensures { self.new ≡ record self.old
            { call = with_attempt self.old.call (taken_attempt Internal x) } }
    {
        self.journal.push(Inverse::Settle);
        self.journal.push(Inverse::FreeChannel(x));
        self.record.attempt = Some(taken_attempt(AttemptKind::Internal, x));
    }

    /// The attempt reserves a reference.
    pub fn reserve(&mut self, attempt: Attempt, number: u8)
        requires attempt { self.old.call.attempt ≡ Some attempt }
        requires stage { attempt.stage ≡ stage.Taken }
        ensures { self.new ≡ record self.old { call = reserved_record self.old.call attempt number } }
    {
        self.journal.push(Inverse::DropReference(number));
        self.record.attempt = Some(Attempt {
            stage: Stage::Reserved,
            reference: Some(number),
            ..attempt
        });
    }

    /// The activation of the attempt's target is sent.
    pub fn activate(&mut self, attempt: Attempt, target: ChanId)
        requires attempt { self.old.call.attempt ≡ Some attempt }
        requires stage { attempt.stage ≡ stage.Reserved }
        requires target { attempt.target ≡ Some target }
        ensures { self.new ≡ record self.old { call = at_stage self.old.call attempt stage.Sent } }
    {
        self.journal.push(Inverse::SwitchOff(target));
        self.record.attempt = Some(Attempt {
            stage: Stage::Sent,
            ..attempt
        });
    }

    /// The mobile is sent to the attempt's target.
    pub fn command(&mut self, attempt: Attempt)
        requires attempt { self.old.call.attempt ≡ Some attempt }
        requires stage { attempt.stage ≡ stage.Confirmed }
        ensures { self.new ≡ record
            { call = at_stage self.old.call attempt stage.Commanded; timer = Some timer.T3103 } }
    {
        self.journal.push(Inverse::Uncommand);
        self.journal.push(Inverse::Disarm(Timer::T3103));
        self.timer = Some(Timer::T3103);
        self.record.attempt = Some(Attempt {
            stage: Stage::Commanded,
            ..attempt
        });
    }

    /// The mobile is seen on the attempt's target.
    pub fn detect(&mut self, attempt: Attempt)
        requires attempt { self.old.call.attempt ≡ Some attempt }
        requires stage { attempt.stage ≡ stage.Commanded }
        ensures { self.new ≡ record self.old
            { call = at_stage self.old.call attempt stage.Detected } }
    {
        self.journal.push(Inverse::Undetect);
        self.record.attempt = Some(Attempt {
            stage: Stage::Detected,
            ..attempt
        });
    }

    /// An attempt opens towards another controller.
    pub fn require(&mut self)
        requires { self.old.call.attempt ≡ None }
        ensures { self.new ≡ record
            { call = with_attempt self.old.call required_attempt; timer = Some timer.T7 } }
    {
        self.journal.push(Inverse::Settle);
        self.journal.push(Inverse::Disarm(Timer::T7));
        self.timer = Some(Timer::T7);
        self.record.attempt = Some(Attempt {
            kind: AttemptKind::Outgoing,
            stage: Stage::Required,
            target: None,
            reference: None,
        });
    }

    /// The mobile is sent to the other controller.
    pub fn order(&mut self, attempt: Attempt)
        requires attempt { self.old.call.attempt ≡ Some attempt }
        requires stage { attempt.stage ≡ stage.Required }
        ensures { self.new ≡ record
            { call = at_stage self.old.call attempt stage.Ordered; timer = Some timer.T8 } }
    {
        self.journal.push(Inverse::Rearm(Timer::T7));
        self.journal.push(Inverse::Disarm(Timer::T8));
        self.timer = Some(Timer::T8);
        self.record.attempt = Some(Attempt {
            stage: Stage::Ordered,
            ..attempt
        });
    }

    /// The attempt comes to a stage that has the same inverses.
    pub fn move_to(&mut self, attempt: Attempt, stage: Stage)
        requires attempt { self.old.call.attempt ≡ Some attempt }
        requires inverses { journal_of (Some (record attempt { stage = stage })) ≡
            journal_of (Some attempt) }
        ensures { self.new ≡ record self.old { call = at_stage self.old.call attempt stage } }
    {
        self.record.attempt = Some(Attempt { stage, ..attempt });
    }

    /// The call is served on the attempt's target, and the attempt is over.
    pub fn complete(&mut self, target: Option<ChanId>)
        ensures { self.new ≡ record
            { call = record { serving = target; attempt = None }; timer = None } }
    {
        self.record = CallRecord {
            serving: target,
            attempt: None,
        };
        self.timer = None;
        self.journal.clear();
    }

    /// The attempt ends.
    pub fn settle(&mut self)
        ensures { self.new ≡ record self.old { call = record self.old.call { attempt = None } } }
    {
        self.record.attempt = None;
        self.journal.clear();
    }

    /// The attempt goes back one stage, from one that can.
    pub fn go_back(&mut self)
        ensures { self.new ≡ record self.old { call = back_one_stage self.old.call } }
    {
        let Some(attempt) = self.record.attempt else {
            return;
        };
        match attempt.stage {
            Stage::Commanded => {
                self.journal.pop();
                self.journal.pop();
                self.record.attempt = Some(Attempt {
                    stage: Stage::Confirmed,
                    ..attempt
                });
            }
            Stage::Detected => {
                self.journal.pop();
                self.record.attempt = Some(Attempt {
                    stage: Stage::Commanded,
                    ..attempt
                });
            }
            Stage::Taken
            | Stage::Reserved
            | Stage::Sent
            | Stage::Refused
            | Stage::Confirmed
            | Stage::Required
            | Stage::Ordered => {}
        }
    }

    pub fn set_timer(&mut self, timer: Option<Timer>)
        ensures { self.new ≡ record self.old { timer = timer } }
    {
        self.timer = timer;
    }
}

/// An attempt that has just taken a channel.
fn taken_attempt(kind: AttemptKind, x: ChanId) -> Attempt
    ensures { result ≡ taken_attempt kind x }
{
    Attempt {
        kind,
        stage: Stage::Taken,
        target: Some(x),
        reference: None,
    }
}
