//! An attempt is taken back: the inverses of its steps run, the last first.
ghost use Rattle.std.specs.Prelude.{◌≡◌, ℕ, Some, None, IsSome};
ghost use Rattle.std.specs.FinMap as map;
ghost use Rattle.radio_book.specs.declared.event.Why.TheVariants.{Asked, Expired};
ghost use Rattle.radio_book.specs.declared.event.Event.TheVariants as event;
ghost use Rattle.radio_book.specs.Sound.{IsSound};
ghost use Rattle.radio_book.specs.State.{apply, state_of, record_of};
ghost use Rattle.radio_book.specs.Table.{step, reply_to, book_after, reply_of, undo_attempt, is_armed, no_change};
ghost use Rattle.radio_book.specs.Journal.{run_inverse, run_back, journal_of, back_one_stage, reference_removal_of_call, reference_removal_of_attempt};
ghost use Rattle.radio_book.specs.PutBack.{put_back, record_in, with_record_in, with_timer_in, disarmed};

use crate::event::{Attempt, Refusal, Reply, Timer, Why};
use crate::records::Records;
use crate::records::attempt::reference_at;
use attempt_journal::Inverse;
use channel_fsm::ChanEvent;
use radio_tables::CallEntry;
use radio_tables::tables::Tables;

impl<T: Tables> Records<T> {
    pub(super) fn undo(&mut self, call: u16, why: Why) -> Reply
        requires { IsSound self.old }
        ensures reply { result ≡ reply_to self.old (event.Undo call why) }
        ensures book { self.new ≡ step self.old (event.Undo call why) }
    {
        match why {
            Why::Asked => self.undo_asked(call),
            Why::Expired(timer) => self.undo_expired(call, timer),
        }
    }

    fn undo_asked(&mut self, call: u16) -> Reply
        requires { IsSound self.old }
        ensures reply { result ≡ reply_to self.old (event.Undo call Asked) }
        ensures book { self.new ≡ step self.old (event.Undo call Asked) }
    {
        match self.entry(call) {
            Some(entry) => self.take_back(call, entry, Refusal::WrongPhase),
            None => Reply::Refused(Refusal::NoCall),
        }
    }

    fn undo_expired(&mut self, call: u16, expired: Timer) -> Reply
        requires { IsSound self.old }
        ensures reply { result ≡ reply_to self.old (event.Undo call (Expired expired)) }
        ensures book { self.new ≡ step self.old (event.Undo call (Expired expired)) }
    {
        let Some(entry) = self.entry(call) else {
            return Reply::Refused(Refusal::NoCall);
        };
        if !is_armed(expired, entry.timer()) {
            return Reply::Refused(Refusal::NotArmed);
        }
        self.take_back(call, entry, Refusal::NotArmed)
    }

    /// Takes the attempt of a call back, or answers the refusal where it has none.
    fn take_back(&mut self, call: u16, entry: CallEntry, refusal: Refusal) -> Reply
        requires sound { IsSound self.old }
        requires entry { record_of self.old call ≡ Some entry.call }
        requires timer { entry.timer ≡ map.get self.old.timers call }
        ensures reply { result ≡ reply_of (undo_attempt call refusal entry.call entry.call.attempt
            (state_of self.old) (map.get self.old.timers call)) }
        ensures book { self.new ≡ book_after (undo_attempt call refusal entry.call entry.call.attempt
            (state_of self.old) (map.get self.old.timers call)) self.old }
    {
        let found = entry.record();
        if found.attempt.is_none() {
            return Reply::Refused(refusal);
        }
        let reply = self.record_reply(found);
        self.run_back(call, entry);
        reply
    }

    /// Runs the inverses of a call, the last pushed first. What is kept of the call is out of the tables meanwhile.
    fn run_back(&mut self, call: u16, entry: CallEntry)
        requires call { record_of self.old call ≡ Some entry.call }
        requires timer { entry.timer ≡ map.get self.old.timers call }
        ensures { self.new ≡ run_back call (journal_of entry.call.attempt) self.old }
    {
        let mut journal = entry.journal();
        let mut kept = Some(entry);
        while let Some(inverse) = journal.pop() {
            kept = self.run_inverse(kept, inverse);
        }
        self.put_back(call, kept);
    }

    /// This is kept of a call from now on; where nothing is kept, the call is gone.
    fn put_back(&mut self, call: u16, kept: Option<CallEntry>)
        requires { IsSome (record_of self.old call) }
        ensures { self.new ≡ put_back call kept self.old }
    {
        match kept {
            Some(entry) => self.set_entry(call, entry),
            None => self.remove_call(call),
        }
    }

    /// Runs an inverse of a call of which this is kept, and answers what is kept of it then. The tables have it later.
    fn run_inverse(&mut self, kept: Option<CallEntry>, inverse: Inverse) -> Option<CallEntry>
        ensures run { (c : ℕ) →
            put_back c result self.new ≡ run_inverse c inverse (put_back c kept self.old) }
        ensures calls { self.new.calls ≡ self.old.calls }
    {
        match inverse {
            Inverse::FreeChannel(x) => {
                self.step_channel(x, ChanEvent::Drop);
                kept
            }
            Inverse::SwitchOff(x) => {
                self.step_channel(x, ChanEvent::SwitchOff);
                kept
            }
            Inverse::DropReference(number) => self.run_drop_reference(kept, number),
            Inverse::Settle => settled(kept),
            Inverse::Forget => None,
            Inverse::Uncommand | Inverse::Undetect => gone_back(kept),
            Inverse::Disarm(timer) => disarmed(kept, timer),
            Inverse::Rearm(timer) => rearmed(kept, timer),
        }
    }

    /// The attempt's reference with this number is no longer in use.
    fn run_drop_reference(&mut self, kept: Option<CallEntry>, number: u8) -> Option<CallEntry>
        ensures kept { result ≡ kept }
        ensures dropped { self.new ≡ apply (record no_change
            { reference = reference_removal_of_call number (record_in kept) }) self.old }
    {
        let entry = kept?;
        self.drop_reference_in(entry.record().attempt, number);
        Some(entry)
    }

    fn drop_reference_in(&mut self, attempt: Option<Attempt>, number: u8)
        ensures { self.new ≡ apply (record no_change
            { reference = reference_removal_of_attempt number attempt }) self.old }
    {
        let Some(attempt) = attempt else {
            return;
        };
        if let Some(target) = attempt.target {
            self.free_reference(reference_at(target, number));
        }
    }
}

fn settled(kept: Option<CallEntry>) -> Option<CallEntry>
    ensures { result ≡ with_record_in (λ r. record r { attempt = None }) kept }
{
    let mut entry = kept?;
    entry.settle();
    Some(entry)
}

fn gone_back(kept: Option<CallEntry>) -> Option<CallEntry>
    ensures { result ≡ with_record_in back_one_stage kept }
{
    let mut entry = kept?;
    entry.go_back();
    Some(entry)
}

fn disarmed(kept: Option<CallEntry>, timer: Timer) -> Option<CallEntry>
    ensures { result ≡ disarmed timer kept }
{
    let mut entry = kept?;
    if is_armed(timer, entry.timer()) {
        entry.set_timer(None);
    }
    Some(entry)
}

fn rearmed(kept: Option<CallEntry>, timer: Timer) -> Option<CallEntry>
    ensures { result ≡ with_timer_in (Some timer) kept }
{
    let mut entry = kept?;
    entry.set_timer(Some(timer));
    Some(entry)
}

/// Whether the timer is the one that is armed.
fn is_armed(timer: Timer, armed: Option<Timer>) -> bool
    ensures { result ≡ is_armed timer armed }
{
    matches!(
        (timer, armed),
        (Timer::T3103, Some(Timer::T3103))
            | (Timer::T7, Some(Timer::T7))
            | (Timer::T8, Some(Timer::T8))
    )
}
