//! Trees. Contracts see each as finite maps from its keys.
ghost use Rattle.std.specs.Prelude.{◌≡◌, OnOk, OnErr, IfOk, None, IsSome, IfSome, is_some, count_by};
ghost use Rattle.std.specs.BTreeMap.{values, IsOrdered};
ghost use Rattle.std.specs.Ordering.{nat_cmp};
ghost use Rattle.std.specs.Cmp.{partial_equiv_from_equiv};
ghost use Rattle.std.specs.Option.{option_map};
ghost use Rattle.std.specs.FinMap as map;
ghost use Rattle.radio_tables.specs.Same.{is_same, is_same-IsEquivalence};
ghost use Rattle.radio_tables.specs.Entries.{call_table_code, with_kept};
ghost use Rattle.radio_tables.specs.State.{channels_code, references_code};

use crate::entry::CallEntry;
use crate::kinds::Reference;
use channel_fsm::{ChanId, ChanState};
use std::alloc::{AllocError, Allocator, Global};
use std::collections::BTreeMap;
use std::marker::Model;

mod key;

use key::{CallKey, ChanKey};

/// Channels with their states; a free one has no entry.
#[derive(Drop)]
pub struct Channels<A: Allocator = Global> {
    states: BTreeMap<ChanKey, ChanState, A>,
}

impl<A: Allocator> Model for Channels<A> {
    ghost use Rattle.std.specs.FinMap as map;
    ghost use Rattle.radio_tables.specs.Keys.{chan_cmp};
    ghost use Rattle.radio_tables.specs.State.{channels_code};
    ghost use Rattle.channel_fsm.specs.declared.ChanState.{ChanState};

    ghost Value = { map.FinMap chan_cmp ChanState };

    ghost coded = { channels_code };

    ghost view = { λ table. map.from_entries table.states.entries };
}

impl<A: Allocator> PartialEq for Channels<A> {
    ghost eq = { is_same channels_code };

    ghost laws = { partial_equiv_from_equiv (is_same-IsEquivalence channels_code) };

    fn eq(&self, other: &Channels<A>) -> bool {
        self.states.len() == other.states.len() && self.states == other.states
    }
}

impl<A: Allocator + Copy> Channels<A> {
    pub fn new(alloc: A) -> Channels<A>
        ensures { result ≡ map.empty }
    {
        Channels {
            states: BTreeMap::new(alloc),
        }
    }

    pub fn copy(&self) -> Result<Channels<A>, AllocError>
        ensures { IfOk result (λ copy. copy ≡ self.now) }
    {
        let states = self.states.clone()?;
        Ok(Channels { states })
    }

    pub fn len(&self) -> usize
        ensures { result ≡ map.len self.now }
    {
        self.states.len()
    }

    pub fn get(&self, x: ChanId) -> Option<ChanState>
        ensures { result ≡ map.get self.now x }
    {
        self.states.get(&ChanKey::of(x)).copied()
    }

    /// Memory is asked for only if the key is new.
    pub fn insert(&mut self, x: ChanId, state: ChanState) -> Result<(), AllocError>
        ensures ok { OnOk result (self.new ≡ map.insert self.old x state) }
        ensures err { OnErr result (self.new ≡ self.old) }
        ensures new_key { OnErr result (map.get self.old x ≡ None) }
    {
        self.states.insert(ChanKey::of(x), state)?;
        Ok(())
    }

    /// Another value at a key that is there, so no memory is asked for.
    pub fn replace(&mut self, x: ChanId, state: ChanState)
        requires { IsSome (map.get self.old x) }
        ensures { self.new ≡ map.insert self.old x state }
    {
        match self.states.get_mut(&ChanKey::of(x)) {
            Some(place) => *place = state,
            None => unreachable!(),
        }
    }

    pub fn remove(&mut self, x: ChanId)
        ensures { self.new ≡ map.remove self.old x }
    {
        let _ = self.states.remove(&ChanKey::of(x));
    }
}

/// What is kept of each call, seen as the map of its records and the map of the timers that are armed.
#[derive(Drop)]
pub struct Calls<A: Allocator = Global> {
    entries: BTreeMap<CallKey, CallEntry, A>,
}

impl<A: Allocator> Model for Calls<A> {
    ghost use Rattle.radio_tables.specs.Entries.{CallTable, call_table_code, records_of, armed_of};

    ghost Value = { CallTable };

    ghost coded = { call_table_code };

    ghost view = { λ table. record {
      records = records_of table.entries.entries;
      armed = armed_of table.entries.entries;
    } };
}

impl<A: Allocator> PartialEq for Calls<A> {
    ghost eq = { is_same call_table_code };

    ghost laws = { partial_equiv_from_equiv (is_same-IsEquivalence call_table_code) };

    fn eq(&self, other: &Calls<A>) -> bool {
        self.entries.len() == other.entries.len() && self.entries == other.entries
    }
}

impl<A: Allocator + Copy> Calls<A> {
    pub fn new(alloc: A) -> Calls<A>
        ensures { result ≡ record { records = map.empty; armed = map.empty } }
    {
        Calls {
            entries: BTreeMap::new(alloc),
        }
    }

    pub fn copy(&self) -> Result<Calls<A>, AllocError>
        ensures { IfOk result (λ copy. copy ≡ self.now) }
    {
        let entries = self.entries.clone()?;
        Ok(Calls { entries })
    }

    pub fn len(&self) -> usize
        ensures { result ≡ map.len self.now.records }
    {
        self.entries.len()
    }

    /// How many timers are armed.
    pub fn armed(&self) -> usize
        ensures { result ≡ map.len self.now.armed }
    {
        count_armed(&self.entries)
    }

    /// A copy of what is kept.
    pub fn entry(&self, call: u16) -> Option<CallEntry>
        ensures call { option_map (λ kept. kept.call) result ≡ map.get self.now.records call }
        ensures timer { IfSome result (λ kept. kept.timer ≡ map.get self.now.armed call) }
    {
        match self.entries.get(&CallKey { number: call }) {
            Some(entry) => Some(entry.copy()),
            None => None,
        }
    }

    /// This is kept of a call from now on. Memory is asked for only if the key is new.
    pub fn insert(&mut self, call: u16, entry: CallEntry) -> Result<(), AllocError>
        ensures ok { OnOk result (self.new ≡ with_kept self.old call entry) }
        ensures err { OnErr result (self.new ≡ self.old) }
        ensures new_key { OnErr result (map.get self.old.records call ≡ None) }
    {
        self.entries.insert(CallKey { number: call }, entry)?;
        Ok(())
    }

    /// Keeps an entry in the place of a call's that is there, so that no memory is asked for.
    pub fn replace(&mut self, call: u16, entry: CallEntry)
        requires { IsSome (map.get self.old.records call) }
        ensures { self.new ≡ with_kept self.old call entry }
    {
        match self.entries.get_mut(&CallKey { number: call }) {
            Some(place) => *place = entry,
            None => unreachable!(),
        }
    }

    /// Nothing is kept of a call from now on.
    pub fn remove(&mut self, call: u16)
        ensures { self.new ≡ record {
          records = map.remove self.old.records call;
          armed = map.remove self.old.armed call;
        } }
    {
        let _ = self.entries.remove(&CallKey { number: call });
    }
}

/// How many of the entries have a timer.
fn count_armed<A: Allocator>(entries: &BTreeMap<CallKey, CallEntry, A>) -> usize
    ensures count { result ≡ count_by (λ kept. is_some kept.timer) (values entries.now) }
    ensures ordered { IsOrdered nat_cmp entries.now }
{
    entries.values().filter(|entry| entry.is_armed()).count()
}

/// The call of each handover reference in use.
#[derive(Drop)]
pub struct References<A: Allocator = Global> {
    users: BTreeMap<Reference, u16, A>,
}

impl<A: Allocator> Model for References<A> {
    ghost use Rattle.std.specs.FinMap as map;
    ghost use Rattle.std.specs.Prelude.{ℕ};
    ghost use Rattle.radio_tables.specs.Keys.{reference_cmp};
    ghost use Rattle.radio_tables.specs.State.{references_code};

    ghost Value = { map.FinMap reference_cmp ℕ };

    ghost coded = { references_code };

    ghost view = { λ table. map.from_entries table.users.entries };
}

impl<A: Allocator> PartialEq for References<A> {
    ghost eq = { is_same references_code };

    ghost laws = { partial_equiv_from_equiv (is_same-IsEquivalence references_code) };

    fn eq(&self, other: &References<A>) -> bool {
        self.users.len() == other.users.len() && self.users == other.users
    }
}

impl<A: Allocator + Copy> References<A> {
    pub fn new(alloc: A) -> References<A>
        ensures { result ≡ map.empty }
    {
        References {
            users: BTreeMap::new(alloc),
        }
    }

    pub fn copy(&self) -> Result<References<A>, AllocError>
        ensures { IfOk result (λ copy. copy ≡ self.now) }
    {
        let users = self.users.clone()?;
        Ok(References { users })
    }

    pub fn len(&self) -> usize
        ensures { result ≡ map.len self.now }
    {
        self.users.len()
    }

    pub fn get(&self, reference: Reference) -> Option<u16>
        ensures { result ≡ map.get self.now reference }
    {
        self.users.get(&reference).copied()
    }

    /// Memory is asked for only if the key is new.
    pub fn insert(&mut self, reference: Reference, call: u16) -> Result<(), AllocError>
        ensures ok { OnOk result (self.new ≡ map.insert self.old reference call) }
        ensures err { OnErr result (self.new ≡ self.old) }
        ensures new_key { OnErr result (map.get self.old reference ≡ None) }
    {
        self.users.insert(reference, call)?;
        Ok(())
    }

    pub fn remove(&mut self, reference: Reference)
        ensures { self.new ≡ map.remove self.old reference }
    {
        let _ = self.users.remove(&reference);
    }
}
