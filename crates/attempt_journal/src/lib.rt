//! The journal of an attempt at handover: for each of its steps, what takes it back. Ours, of no standard.
#![tactic(auto)]

ghost use Rattle.std.specs.Prelude.{◌≡◌, ◌<◌, ◌≤◌, ◌↔◌, IsTrue, [], ◌∷◌, ◌++◌, length, option_to_list, IfNone};

use channel_fsm::ChanId;
use std::marker::Model;

/// The timers that guard a handover.
#[derive(Clone, Copy, Debug, PartialEq, Eq)]
pub enum Timer {
    /// From the HANDOVER COMMAND until the mobile has come to the new channel (TS 44.018 clause 11.1.2).
    T3103,
    /// From HANDOVER REQUIRED until the switching centre answers (TS 48.008 clause 3.1.5).
    T7,
    /// From the HANDOVER COMMAND to another controller until the call is cleared (TS 48.008 clause 3.1.5).
    T8,
}

/// The inverse of a step of an attempt.
#[derive(Clone, Copy, Debug, PartialEq, Eq)]
pub enum Inverse {
    /// The channel is free, where it is held.
    FreeChannel(ChanId),
    /// The attempt ends, and the call rests on its serving channel.
    Settle,
    /// The book has the call no more.
    Forget,
    /// The handover reference with this number, in the cell of the attempt's target, is no longer in use.
    DropReference(u8),
    /// The channel is off, where it may be active.
    SwitchOff(ChanId),
    /// The mobile was not sent to the target: the attempt goes back one stage.
    Uncommand,
    /// The mobile was not seen on the target: the attempt goes back one stage.
    Undetect,
    /// The timer is not armed.
    Disarm(Timer),
    /// The timer is armed.
    Rearm(Timer),
}

/// A list of up to seven inverses, last in first out. It keeps them in itself: it is copied as plain data, and takes no
/// memory.
#[derive(Clone, Copy, Debug)]
pub struct Journal {
    // Behind those that were pushed stands `Settle`, so that equal lists are equal data.
    inverses: [Inverse; 7],
    // How many were pushed.
    pushed: u8,
}

impl Model for Journal {
    ghost use Rattle.std.specs.Prelude.{List, take, drop, ◌≤◌, ◌≡◌, length};
    ghost use Rattle.attempt_journal.specs.declared.Inverse.{Inverse};
    ghost use Rattle.attempt_journal.specs.Padding.{pad, padded, padded_again};

    ghost Value = { List Inverse };

    ghost view = { λ journal. take journal.pushed journal.inverses };

    ghost inverse = { λ items. record { inverses = padded items; pushed = length items } };

    // no more is pushed than there is room for, which is seven whatever was written, and the rest is padding
    ghost invariant = { λ journal. (journal.pushed ≤ 7) × (length journal.inverses ≡ 7) ×
        (drop journal.pushed journal.inverses ≡ pad journal.pushed) };

    ghost inverse_ok = { λ a h. λ i. record {
      inverses = (padded_again a.inverses a.pushed h.0 h.1 h.2).0 i;
      pushed = (padded_again a.inverses a.pushed h.0 h.1 h.2).1 i;
    } };
}

impl Journal {
    /// No inverse.
    pub fn new() -> Journal
        ensures empty { result ≡ [] }
    {
        Journal {
            inverses: [Inverse::Settle; 7],
            pushed: 0,
        }
    }

    /// How many inverses it has, 0 to 7.
    pub fn len(&self) -> usize
        ensures count { result ≡ length self.now }
        ensures most { result ≤ 7 }
    {
        usize::from(self.pushed)
    }

    /// Whether it has no inverse.
    pub fn is_empty(&self) -> bool
        ensures empty { IsTrue result ↔ (self.now ≡ []) }
    {
        self.pushed == 0
    }

    /// Adds an inverse behind the others, of which there are less than seven.
    pub fn push(&mut self, inverse: Inverse)
        requires room { length self.old < 7 }
        ensures pushed { self.new ≡ self.old ++ inverse ∷ [] }
    {
        let next = self.pushed;
        self.inverses[usize::from(next)] = inverse;
        self.pushed = next + 1;
    }

    /// Takes the inverse out that was pushed last. `None` if there is none.
    pub fn pop(&mut self) -> Option<Inverse>
        ensures items { self.old ≡ self.new ++ option_to_list result }
        ensures empty { IfNone result (self.new ≡ []) }
    {
        if self.pushed == 0 {
            return None;
        }
        let last = self.pushed - 1;
        let inverse = self.inverses[usize::from(last)];
        self.inverses[usize::from(last)] = Inverse::Settle;
        self.pushed = last;
        Some(inverse)
    }

    /// Takes all inverses out.
    pub fn clear(&mut self)
        ensures empty { self.new ≡ [] }
    {
        *self = Journal::new();
    }
}
