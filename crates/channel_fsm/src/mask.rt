//! Timeslots of a TRX, as a set in one octet.
ghost use Rattle.std.specs.Prelude.{◌≡◌, ◌≢◌, ◌<◌, ◌≤◌, ℕ, true, false, IfSome, IfNone, count_by};
ghost use Rattle.channel_fsm.specs.Masks.{has, timeslots};

use std::marker::Model;

/// The free timeslots of a TRX: a set of numbers from 0 to 7 (TS 45.002 clause 4.3.2), in one octet. Timeslot `n` is in the
/// set where the octet's bit of value 2 to the power `n` is set. No call takes memory. Ours, of no standard.
#[derive(Clone, Copy, Debug, PartialEq, Eq)]
pub struct FreeMask {
    bits: u8,
}

impl Model for FreeMask {
    ghost use Rattle.std.specs.Prelude.{ℕ};

    ghost Value = { ℕ };

    ghost view = { λ mask. mask.bits };

    ghost inverse = { λ octet. record { bits = octet } };
}

impl FreeMask {
    /// The timeslots whose bits an octet has set.
    pub fn new(bits: u8) -> FreeMask
        ensures octet { result ≡ bits }
    {
        FreeMask { bits }
    }

    /// Removes a timeslot, 0 to 7, if it is in the set.
    pub fn take(&mut self, tn: u8)
        requires timeslot { tn ≤ 7 }
        ensures taken { has self.new tn ≡ false }
        ensures others { (n : ℕ) → n ≢ tn → has self.new n ≡ has self.old n }
    {
        self.bits &= !(1 << tn);
    }

    /// Adds a timeslot, 0 to 7, if it isn't in the set.
    pub fn give(&mut self, tn: u8)
        requires timeslot { tn ≤ 7 }
        ensures given { has self.new tn ≡ true }
        ensures others { (n : ℕ) → n ≢ tn → has self.new n ≡ has self.old n }
    {
        self.bits |= 1 << tn;
    }

    /// Whether a timeslot, 0 to 7, is in the set.
    pub fn has(&self, tn: u8) -> bool
        requires timeslot { tn ≤ 7 }
        ensures value { result ≡ has self.now tn }
    {
        (self.bits >> tn) & 1 == 1
    }

    /// The lowest timeslot of the set, 0 to 7; `None` if the set is empty.
    pub fn lowest(&self) -> Option<u8>
        ensures range { IfSome result (λ tn. tn ≤ 7) }
        ensures there { IfSome result (λ tn. has self.now tn ≡ true) }
        ensures lowest { IfSome result (λ tn. (n : ℕ) → n < tn → has self.now n ≡ false) }
        ensures empty { IfNone result ((n : ℕ) → has self.now n ≡ false) }
    {
        if self.bits == 0 {
            return None;
        }
        Some(self.bits.trailing_zeros() as u8)
    }

    /// How many timeslots are in the set, 0 to 8.
    pub fn count(&self) -> u8
        ensures count { result ≡ count_by (has self.now) timeslots }
    {
        self.bits.count_ones() as u8
    }
}
