//! What is kept of calls, each in a slot of its own.
ghost use Rattle.std.specs.Prelude.{◌≡◌, ◌↔◌, ◌<◌, ◌≤◌, ℕ, IsTrue, Some, None, IfOk, OnOk, OnErr, IsSome, is_some, length, true, false, option_copied, IsOk};
ghost use Rattle.std.specs.FinMap as map;
ghost use Rattle.dense_tables.specs.Calls.{kept_in, entry_at, AgreesAt};
ghost use Rattle.slab.specs.Slab.{get as slot_at, ContainsKey, Updates};

use crate::blocks::copy_of;
use slab::Slab;
use std::alloc::{AllocError, Allocator, Global};
use std::marker::Model;
use std::mem;

/// How many numbers calls have: a call's number has two octets.
const CALL_NUMBERS: usize = 65_536;

/// What can be kept of a call: of two such values can be told whether they are equal, and a clone is.
pub trait Entry: Clone + Drop {
    /// Whether two values are equal.
    fn is_same(&self, other: &Self) -> bool
        ensures same { IsTrue result ↔ (self.now ≡ other.now) };

    ghost clones: { (entry copy : Self) → Self.is_clone entry copy → copy ≡ entry };
}

/// What is kept of a call, and the call's number.
#[derive(Drop)]
struct Slot<E> {
    number: u16,
    entry: E,
}

impl<E: Entry> Clone for Slot<E> {
    ghost is_clone = { λ slot copy. copy ≡ slot };

    ghost is_infallible = { λ slot. E.is_infallible slot.entry };

    fn clone(&self) -> Result<Slot<E>, AllocError> {
        Ok(Slot {
            number: self.number,
            entry: self.entry.clone()?,
        })
    }
}

/// What is kept of each call, by the call's number. A number leads to the key of its call's slot. No key is taken away with a
/// call: one counts only where the slot under it has that number.
#[derive(Drop)]
pub struct CallSlots<E, A: Allocator = Global> {
    keys: Vec<u16, A>,
    slots: Slab<Slot<E>, A>,
    // how many calls there are
    count: usize,
}

impl<E, A: Allocator> Model for CallSlots<E, A> {
    ghost use Rattle.std.specs.Ordering.{nat_cmp};
    ghost use Rattle.std.specs.Coded.{coded_ℕ};
    ghost use Rattle.std.specs.FinMap as map;
    ghost use Rattle.dense_tables.specs.Calls.{entries_of, IsTable};

    ghost Value = { map.FinMap nat_cmp E };

    ghost coded = { map.code coded_ℕ E.code };

    ghost view = { λ calls. entries_of calls.keys.items calls.slots.slots };

    ghost invariant = { λ calls. IsTable calls.keys.items calls.slots.slots calls.count };
}

impl<E: Entry, A: Allocator + Copy> CallSlots<E, A> {
    /// No call. The keys of all numbers are made, once.
    pub fn new(alloc: A) -> Result<CallSlots<E, A>, AllocError>
        ensures empty { IfOk result (λ calls. calls ≡ map.empty) }
    {
        let keys = first_keys(alloc, CALL_NUMBERS)?;
        Ok(CallSlots {
            keys,
            slots: Slab::new(alloc),
            count: 0,
        })
    }

    /// A copy of what is kept of each call.
    pub fn copy(&self) -> Result<CallSlots<E, A>, AllocError>
        ensures copy { IfOk result (λ copy. copy ≡ self.now) }
    {
        let keys = copy_of(&self.keys)?;
        let slots = self.slots.clone()?;
        Ok(CallSlots {
            keys,
            slots,
            count: self.count,
        })
    }
}

impl<E: Entry, A: Allocator> CallSlots<E, A> {
    /// How many calls there are.
    pub fn len(&self) -> usize
        ensures count { result ≡ map.len self.now }
    {
        self.count
    }

    /// What is kept of a call; `None` if it isn't there.
    pub fn get(&self, call: u16) -> Option<&E>
        ensures value { option_copied result ≡ map.get self.now call }
    {
        entry_in(&self.keys, &self.slots, call)
    }

    /// A call begins. Memory is asked for, where no slot of a call that is gone can be had.
    pub fn add(&mut self, call: u16, entry: E) -> Result<(), AllocError>
        requires new { map.get self.old call ≡ None }
        ensures ok { OnOk result (self.new ≡ map.insert self.old call entry) }
        ensures err { OnErr result (self.new ≡ self.old) }
    {
        self.slots.reserve(1)?;
        let key = short_key(self.slots.vacant_key())?;
        self.slots.insert_reserved(Slot {
            number: call,
            entry,
        });
        self.keys[call as usize] = key;
        self.count += 1;
        Ok(())
    }

    /// Something else is kept of a call that is there. Answers what was kept of it.
    pub fn set(&mut self, call: u16, entry: E) -> E
        requires there { IsSome (map.get self.old call) }
        ensures set { self.new ≡ map.insert self.old call entry }
        ensures old { map.get self.old call ≡ Some result }
    {
        let key = self.keys[call as usize] as usize;
        let old = write_slot(
            &mut self.slots,
            key,
            Slot {
                number: call,
                entry,
            },
        );
        old.entry
    }

    /// A call ends; one that isn't there stays away. Answers what was kept of it.
    pub fn remove(&mut self, call: u16) -> Option<E>
        ensures removed { self.new ≡ map.remove self.old call }
        ensures old { result ≡ map.get self.old call }
    {
        let key = self.keys[call as usize] as usize;
        if is_slot_of(&self.slots, key, call) {
            let old = self.slots.remove(key);
            self.count -= 1;
            Some(old.entry)
        } else {
            None
        }
    }

    /// Whether the same is kept of the same calls.
    pub fn is_same(&self, other: &CallSlots<E, A>) -> bool
        ensures same { IsTrue result ↔ (self.now ≡ other.now) }
    {
        self.count == other.count && same_slots(&self.slots, self, other)
    }
}

/// What is kept of a call.
fn entry_in<'a, E, A: Allocator>(
    keys: &'a Vec<u16, A>,
    slots: &'a Slab<Slot<E>, A>,
    call: u16,
) -> Option<&'a E>
    requires { length keys.now.items ≡ 65536 }
    ensures { option_copied result ≡ entry_at keys.now.items slots.now.slots call }
{
    let slot = slots.get(keys[call as usize] as usize)?;
    if slot.number == call {
        Some(&slot.entry)
    } else {
        None
    }
}

/// Whether a key has a call's slot.
fn is_slot_of<E, A: Allocator>(slots: &Slab<Slot<E>, A>, key: usize, call: u16) -> bool
    ensures { result ≡ is_some (kept_in call (slot_at slots.now key)) }
{
    match slots.get(key) {
        Some(slot) => slot.number == call,
        None => false,
    }
}

/// Another slot at a key that has one. Answers the slot that stood there.
fn write_slot<E: Drop, A: Allocator>(
    slots: &mut Slab<Slot<E>, A>,
    key: usize,
    slot: Slot<E>,
) -> Slot<E>
    requires { ContainsKey slots.old key }
    ensures written { Updates slots.old slots.new key (Some slot) }
    ensures old { slot_at slots.old key ≡ Some result }
{
    match slots.get_mut(key) {
        Some(place) => mem::replace(place, slot),
        None => unreachable!(),
    }
}

/// A key in two octets. One that is larger would be refused as memory is; there is none, since a slot that is empty is used
/// again before another is made, and there are no more calls than numbers.
fn short_key(key: usize) -> Result<u16, AllocError>
    ensures same { IfOk result (λ short. short ≡ key) }
    ensures short { key < 65536 → IsOk result }
{
    match u16::try_from(key) {
        Ok(short) => Ok(short),
        Err(_) => Err(AllocError),
    }
}

/// A key for each number; none of them counts yet.
fn first_keys<A: Allocator>(alloc: A, count: usize) -> Result<Vec<u16, A>, AllocError>
    ensures len { IfOk result (λ keys. length keys.items ≡ count) }
{
    Vec::from_elem(alloc, 0, count)
}

/// Whether the same is kept of each call that has one of these slots.
fn same_slots<E: Entry, A: Allocator>(
    slots: &Slab<Slot<E>, A>,
    one: &CallSlots<E, A>,
    other: &CallSlots<E, A>,
) -> bool
    ensures { IsTrue result ↔ ((key : ℕ) → AgreesAt one.now other.now (slot_at slots.now key)) }
{
    for key in 0..slots.capacity() {
        if !same_slot(slots.get(key), one, other) {
            return false;
        }
    }
    true
}

/// Whether the same is kept of a slot's call, where anything is.
fn same_slot<E: Entry, A: Allocator>(
    slot: Option<&Slot<E>>,
    one: &CallSlots<E, A>,
    other: &CallSlots<E, A>,
) -> bool
    ensures { IsTrue result ↔ AgreesAt one.now other.now (option_copied slot.entry) }
{
    match slot {
        Some(slot) => same_entry(one.get(slot.number), other.get(slot.number)),
        None => true,
    }
}

/// Whether the same is kept of two calls, where anything is kept of the first.
fn same_entry<E: Entry>(one: Option<&E>, other: Option<&E>) -> bool
    ensures { IsTrue result ↔
        (IsSome (option_copied one.entry) → option_copied one.entry ≡ option_copied other.entry) }
{
    match (one, other) {
        (Some(one), Some(other)) => one.is_same(other),
        (Some(_), None) => false,
        (None, Some(_)) | (None, None) => true,
    }
}
