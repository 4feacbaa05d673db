//! Calls and channels as the keys of tables. A search passes each lower key by one comparison, where the orders of numbers
//! and of structs take more.
ghost use Rattle.std.specs.Prelude.{◌≡◌, ◌==◌, ◌≤◌, nat_eq};
ghost use Rattle.std.proofs.Common.{rules};
ghost use Rattle.std.specs.Cmp.{partial_order_from_own_ties};
ghost use Rattle.std.specs.Cmp.Rules.{comparing};
ghost use Rattle.timeslots.specs.Parts.{sub_number};
ghost use Rattle.std.specs.Ordering.{nat_cmp, on, then_cmp, eq_of_both, as_partial_cmp};

use channel_fsm::ChanId;
use std::alloc::AllocError;
use std::cmp::Ordering;
use std::marker::Model;

/// The number of a call. Its order is that of the numbers.
#[derive(Drop)]
pub struct CallKey {
    pub number: u16,
}

impl Model for CallKey {
    ghost use Rattle.std.specs.Prelude.{ℕ};

    ghost Value = { ℕ };

    ghost view = { λ key. key.number };
}

impl Clone for CallKey {
    ghost is_clone = { λ key copy. copy ≡ key };

    fn clone(&self) -> Result<CallKey, AllocError> {
        Ok(CallKey {
            number: self.number,
        })
    }
}

impl PartialEq for CallKey {
    ghost eq = { nat_eq };

    ghost laws = { Prim.search (comparing, rules) };

    fn eq(&self, other: &CallKey) -> bool {
        self.number == other.number
    }
}

impl Eq for CallKey {
    ghost laws = { Prim.search (comparing, rules) };
}

impl PartialOrd for CallKey {
    ghost partial_cmp = { as_partial_cmp nat_cmp };

    ghost laws = { partial_order_from_own_ties (Prim.search (comparing, rules)) (Prim.search (comparing, rules)) };

    fn partial_cmp(&self, other: &CallKey) -> Option<Ordering> {
        Some(self.cmp(other))
    }
}

impl Ord for CallKey {
    ghost cmp = { nat_cmp };

    ghost total = { Prim.search (comparing, rules) };

    ghost matches_partial_cmp = { Prim.search (comparing, rules) };

    ghost matches_eq = { Prim.search (comparing, rules) };

    fn cmp(&self, other: &CallKey) -> Ordering {
        if self.number > other.number {
            return Ordering::Greater;
        }
        not_above(u32::from(self.number), u32::from(other.number))
    }
}

/// A channel. Its order is that of cells, then TRX, then timeslots, then a whole timeslot before its halves.
#[derive(Drop)]
pub struct ChanKey {
    chan: ChanId,
    // The channel as one number, in whose order channels stand.
    number: u32,
}

impl Model for ChanKey {
    ghost use Rattle.channel_fsm.specs.declared.ChanId.{ChanId};
    ghost use Rattle.radio_tables.specs.Keys.{coded_chan, IsNumberOf};

    ghost Value = { ChanId };

    ghost coded = { coded_chan };

    ghost view = { λ key. key.chan };

    ghost invariant = { λ key. IsNumberOf key.number key.chan };
}

impl ChanKey {
    pub fn of(chan: ChanId) -> ChanKey
        ensures { result ≡ chan }
    {
        let slot = (u32::from(chan.cell) * 256 + u32::from(chan.trx)) * 256 + u32::from(chan.tn);
        let number = slot * 3 + u32::from(chan.sub.number());
        ChanKey { chan, number }
    }
}

impl Clone for ChanKey {
    ghost is_clone = { λ key copy. copy ≡ key };

    fn clone(&self) -> Result<ChanKey, AllocError> {
        Ok(ChanKey::of(self.chan))
    }
}

impl PartialEq for ChanKey {
    ghost eq = { eq_of_both (on (λ x. x.cell) ◌==◌) (eq_of_both (on (λ x. x.trx) ◌==◌)
        (eq_of_both (on (λ x. x.tn) ◌==◌) (on (λ x. sub_number x.sub) ◌==◌))) };

    ghost laws = { Prim.search (comparing, rules) depth 8 };

    fn eq(&self, other: &ChanKey) -> bool {
        self.chan == other.chan
    }
}

impl Eq for ChanKey {
    ghost laws = { Prim.search (comparing, rules) };
}

impl PartialOrd for ChanKey {
    ghost partial_cmp = { as_partial_cmp
        (then_cmp (on (λ x. x.cell) nat_cmp) (then_cmp (on (λ x. x.trx) nat_cmp)
        (then_cmp (on (λ x. x.tn) nat_cmp) (on (λ x. sub_number x.sub) nat_cmp)))) };

    ghost laws = { partial_order_from_own_ties (Prim.search (comparing, rules) depth 8)
        (Prim.search (comparing, rules) depth 8) };

    fn partial_cmp(&self, other: &ChanKey) -> Option<Ordering> {
        Some(self.cmp(other))
    }
}

impl Ord for ChanKey {
    ghost cmp = { then_cmp (on (λ x. x.cell) nat_cmp) (then_cmp (on (λ x. x.trx) nat_cmp)
        (then_cmp (on (λ x. x.tn) nat_cmp) (on (λ x. sub_number x.sub) nat_cmp))) };

    ghost total = { Prim.search (comparing, rules) };

    ghost matches_partial_cmp = { Prim.search (comparing, rules) };

    ghost matches_eq = { Prim.search (comparing, rules) };

    fn cmp(&self, other: &ChanKey) -> Ordering {
        if self.number > other.number {
            return Ordering::Greater;
        }
        not_above(self.number, other.number)
    }
}

/// The order of a number and one that it isn't above. A call of its own, so that the comparison before it stays a
/// branch, which passes the keys below.
#[inline(never)]
fn not_above(number: u32, other: u32) -> Ordering
    requires { number ≤ other }
    ensures { result ≡ nat_cmp number other }
{
    number.cmp(&other)
}
