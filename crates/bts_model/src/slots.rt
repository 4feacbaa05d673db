//! What is known of each channel.
ghost use Rattle.std.specs.Prelude.{◌≡◌, OnOk, OnErr, IsSome, None, unwrap_or};
ghost use Rattle.std.specs.FinMap as map;
ghost use Rattle.bts_model.specs.Keys.{key_of};
ghost use Rattle.bts_model.specs.World.{idle, slot_in, slots_code, changed, is_active};
ghost use Rattle.bts_model.specs.Restarts.{forgotten};
ghost use Rattle.bts_model.specs.Impairments.{unimpaired, is_impaired};

use crate::place::{Key, Place, key_of};
use crate::restart::Restart;
use crate::setting::Habit;
use std::alloc::{AllocError, Allocator, Global};
use std::collections::BTreeMap;
use std::marker::Model;

/// Whether a station has a channel active.
#[derive(Clone, Copy)]
pub enum Activity {
    Inactive,
    /// It is active since a CHANNEL ACTIVATION, with the handover reference that this had, if any.
    Active(Option<u8>),
}

/// Whether a channel is active.
pub fn is_active(activity: Activity) -> bool
    ensures { result ≡ is_active activity }
{
    match activity {
        Activity::Inactive => false,
        Activity::Active(_) => true,
    }
}

/// What befalls the next answer that leaves a station about a channel, which uses it up.
#[derive(Clone, Copy)]
pub struct Impairment {
    /// So many octets are left of it, where it has more.
    pub cut: Option<u8>,
    /// It comes twice.
    pub doubles: bool,
}

impl Impairment {
    /// Nothing befalls the next answer.
    pub fn none() -> Impairment
        ensures { result ≡ unimpaired }
    {
        Impairment {
            cut: None,
            doubles: false,
        }
    }

    /// Whether anything does.
    pub fn is_some(self) -> bool
        ensures { result ≡ is_impaired self }
    {
        self.cut.is_some() || self.doubles
    }
}

/// What is known of a channel.
#[derive(Clone, Copy)]
pub struct Slot {
    pub activity: Activity,
    /// The next activation while it is inactive, and none that it conflicts with is active, is refused, which uses this up.
    pub refuses: bool,
    /// The habit of a mobile on it.
    pub habit: Habit,
    pub impairment: Impairment,
}

/// What is known of each channel; one that has no entry is inactive and refuses nothing, its mobile arrives, and nothing
/// befalls its answers.
#[derive(Drop)]
pub struct Slots<A: Allocator = Global> {
    entries: BTreeMap<Key, Slot, A>,
}

impl<A: Allocator> Model for Slots<A> {
    ghost use Rattle.std.specs.FinMap as map;
    ghost use Rattle.bts_model.specs.Keys.{key_cmp};
    ghost use Rattle.bts_model.specs.World.{slots_code};
    ghost use Rattle.bts_model.specs.declared.slots.Slot.{Slot};

    ghost Value = { map.FinMap key_cmp Slot };

    ghost coded = { slots_code };

    ghost view = { λ table. map.from_entries table.entries.entries };
}

impl<A: Allocator + Copy> Slots<A> {
    pub fn new(alloc: A) -> Slots<A>
        ensures { result ≡ map.empty }
    {
        Slots {
            entries: BTreeMap::new(alloc),
        }
    }

    pub fn get(&self, place: Place) -> Slot
        ensures { result ≡ slot_in self.now place }
    {
        self.at(key_of(place))
    }

    /// What is known of the channel with a key.
    fn at(&self, key: Key) -> Slot
        ensures { result ≡ unwrap_or (map.get self.now key) idle }
    {
        match self.entries.get(&key) {
            Some(slot) => *slot,
            None => Slot {
                activity: Activity::Inactive,
                refuses: false,
                habit: Habit::Arrive,
                impairment: Impairment::none(),
            },
        }
    }

    /// Memory is asked for where the channel has no entry yet, and only there.
    pub fn put(&mut self, place: Place, slot: Slot) -> Result<(), AllocError>
        ensures ok { OnOk result (self.new ≡ map.insert self.old (key_of place) slot) }
        ensures err { OnErr result (self.new ≡ self.old) }
        ensures new_key { OnErr result (map.get self.old (key_of place) ≡ None) }
    {
        self.put_at(key_of(place), slot)
    }

    /// Keeps what is known of the channel with a key.
    fn put_at(&mut self, key: Key, slot: Slot) -> Result<(), AllocError>
        ensures ok { OnOk result (self.new ≡ map.insert self.old key slot) }
        ensures err { OnErr result (self.new ≡ self.old) }
        ensures new_key { OnErr result (map.get self.old key ≡ None) }
    {
        self.entries.insert(key, slot)?;
        Ok(())
    }

    /// Keeps what is known of a channel, or that nothing is.
    pub fn change(&mut self, place: Place, slot: Option<Slot>) -> Result<(), AllocError>
        ensures ok { OnOk result (self.new ≡ changed self.old place slot) }
        ensures err { OnErr result (self.new ≡ self.old) }
        ensures new_key { OnErr result (IsSome slot × (map.get self.old (key_of place) ≡ None)) }
    {
        match slot {
            Some(slot) => self.put(place, slot),
            None => Ok(()),
        }
    }

    /// Nothing is known any more of the channels of a station that restarts.
    pub fn forget(&mut self, restart: Restart)
        ensures { self.new ≡ forgotten restart self.old }
    {
        self.entries
            .retain(|key, _| !restart.has(key.controller, key.cell, key.trx));
    }
}
