//! What a book replies, in words.
ghost use Rattle.std.specs.Prelude.{◌≡◌, Some};
ghost use Rattle.std.specs.Fmt.{decimal};
ghost use Rattle.channel_fsm.specs.Text.{chan_text};
ghost use Rattle.trace_entries.specs.Replies as said;

use channel_fsm::{ChanId, ChanState};
use radio_book::event::{Attempt, AttemptKind, CallRecord, Refusal, Reply, Stage};
use std::fmt;

/// A channel, or `-` if there is none.
#[derive(Clone, Copy)]
struct ChanOrDash(Option<ChanId>);

impl fmt::Display for ChanOrDash {
    ghost output = { λ text. Some (said.or_dash chan_text text.0) };

    fn fmt<W: fmt::Write>(&self, f: &mut fmt::Formatter<W>) -> fmt::Result {
        match self.0 {
            Some(chan) => write!(f, "{chan}"),
            None => f.write_str("-"),
        }
    }
}

/// A handover reference, or `-` if there is none.
#[derive(Clone, Copy)]
struct ReferenceOrDash(Option<u8>);

impl fmt::Display for ReferenceOrDash {
    ghost output = { λ text. Some (said.or_dash decimal text.0) };

    fn fmt<W: fmt::Write>(&self, f: &mut fmt::Formatter<W>) -> fmt::Result {
        match self.0 {
            Some(reference) => write!(f, "{reference}"),
            None => f.write_str("-"),
        }
    }
}

/// The state of a channel in small letters, without its call; `-` where there is no channel.
#[derive(Clone, Copy)]
struct StateOrDash(Option<ChanState>);

impl fmt::Display for StateOrDash {
    ghost output = { λ text. Some (said.or_dash said.state_word text.0) };

    fn fmt<W: fmt::Write>(&self, f: &mut fmt::Formatter<W>) -> fmt::Result {
        f.write_str(match self.0 {
            None => "-",
            Some(ChanState::Free) => "free",
            Some(ChanState::Held(_)) => "held",
            Some(ChanState::Pending(_)) => "pending",
            Some(ChanState::On(_)) => "on",
            Some(ChanState::Off) => "off",
        })
    }
}

/// What kind of handover is attempted, in small letters.
#[derive(Clone, Copy)]
struct KindText(AttemptKind);

impl fmt::Display for KindText {
    ghost output = { λ text. Some (said.kind_word text.0) };

    fn fmt<W: fmt::Write>(&self, f: &mut fmt::Formatter<W>) -> fmt::Result {
        f.write_str(match self.0 {
            AttemptKind::Internal => "internal",
            AttemptKind::Incoming => "incoming",
            AttemptKind::Outgoing => "outgoing",
        })
    }
}

/// How far an attempt has come, in small letters.
#[derive(Clone, Copy)]
struct StageText(Stage);

impl fmt::Display for StageText {
    ghost output = { λ text. Some (said.stage_word text.0) };

    fn fmt<W: fmt::Write>(&self, f: &mut fmt::Formatter<W>) -> fmt::Result {
        f.write_str(match self.0 {
            Stage::Taken => "taken",
            Stage::Reserved => "reserved",
            Stage::Sent => "sent",
            Stage::Refused => "refused",
            Stage::Confirmed => "confirmed",
            Stage::Commanded => "commanded",
            Stage::Detected => "detected",
            Stage::Required => "required",
            Stage::Ordered => "ordered",
        })
    }
}

/// An attempt that is open: its kind, its stage, its channel and its handover reference.
#[derive(Clone, Copy)]
struct AttemptText(Attempt);

impl fmt::Display for AttemptText {
    ghost output = { λ text. Some (said.attempt_text text.0) };

    fn fmt<W: fmt::Write>(&self, f: &mut fmt::Formatter<W>) -> fmt::Result {
        let kind = KindText(self.0.kind);
        let stage = StageText(self.0.stage);
        let target = ChanOrDash(self.0.target);
        let reference = ReferenceOrDash(self.0.reference);
        write!(f, "{kind} {stage} {target} {reference}")
    }
}

/// The number of a refusal, from 1 on, in the order in which refusals are tried.
pub fn refusal_number(refusal: Refusal) -> u8
    ensures number { result ≡ said.refusal_number refusal }
{
    match refusal {
        Refusal::NoCall => 1,
        Refusal::CallExists => 2,
        Refusal::WrongPhase => 3,
        Refusal::NoChannel => 4,
        Refusal::SameCell => 5,
        Refusal::ChannelBusy(_) => 6,
        Refusal::RefBusy(..) => 7,
        Refusal::Unexpected(_) => 8,
        Refusal::NotArmed => 9,
    }
}

/// A refusal: its number, and its arguments.
#[derive(Clone, Copy)]
struct RefusalText(Refusal);

impl fmt::Display for RefusalText {
    ghost output = { λ text. Some (said.refusal_text text.0) };

    fn fmt<W: fmt::Write>(&self, f: &mut fmt::Formatter<W>) -> fmt::Result {
        let number = refusal_number(self.0);
        match self.0 {
            Refusal::ChannelBusy(chan) | Refusal::Unexpected(chan) => {
                write!(f, "{number} {chan}")
            }
            Refusal::RefBusy(cell, reference) => write!(f, "{number} {cell} {reference}"),
            Refusal::NoCall
            | Refusal::CallExists
            | Refusal::WrongPhase
            | Refusal::NoChannel
            | Refusal::SameCell
            | Refusal::NotArmed => write!(f, "{number}"),
        }
    }
}

/// A call's serving channel and its state, and the attempt, where one is open.
#[derive(Clone, Copy)]
struct RecordText(CallRecord, Option<ChanState>);

impl fmt::Display for RecordText {
    ghost output = { λ text. Some (said.record_text text.0 text.1) };

    fn fmt<W: fmt::Write>(&self, f: &mut fmt::Formatter<W>) -> fmt::Result {
        let serving = ChanOrDash(self.0.serving);
        let state = StateOrDash(self.1);
        match self.0.attempt {
            Some(attempt) => write!(f, "record {serving} {state} {}", AttemptText(attempt)),
            None => write!(f, "record {serving} {state}"),
        }
    }
}

/// What the book replied, as it stands behind ` -> ` in an event's line.
#[derive(Clone, Copy)]
pub struct ReplyText(pub Reply);

impl fmt::Display for ReplyText {
    ghost output = { λ text. Some (said.reply_text text.0) };

    fn fmt<W: fmt::Write>(&self, f: &mut fmt::Formatter<W>) -> fmt::Result {
        match self.0 {
            Reply::Done => f.write_str("done"),
            Reply::Record(record, state) => write!(f, "{}", RecordText(record, state)),
            Reply::Owned(call) => write!(f, "owned {call}"),
            Reply::Refused(refusal) => write!(f, "refused {}", RefusalText(refusal)),
        }
    }
}
