//! Buffers in which messages are written.
ghost use Rattle.std.specs.Prelude.{◌≡◌, ◌+◌, ◌≤◌, ◌<◌, max, All, OnOk, OnErr, vec_len};
ghost use Rattle.ho_procedure.specs.Owed.{IsSpare};

use std::alloc::{AllocError, Allocator, Global};
use std::marker::Model;

/// How many octets the longest message has that isn't passed on unread.
const LONGEST: usize = 27;

/// Buffers that have no octet yet, each with room for any message of the procedure that isn't passed on unread. Contracts
/// see how many they are.
#[derive(Drop)]
pub(crate) struct Buffers<A: Allocator = Global> {
    spare: Vec<Vec<u8, A>, A>,
    alloc: A,
}

impl<A: Allocator> Model for Buffers<A> {
    ghost use Rattle.std.specs.Prelude.{ℕ, All, vec_len};
    ghost use Rattle.ho_procedure.specs.Owed.{IsSpare};

    ghost Value = { ℕ };

    ghost view = { λ buffers. vec_len buffers.spare };

    ghost invariant = { λ buffers. All IsSpare buffers.spare.items };
}

impl<A: Allocator + Copy> Buffers<A> {
    pub(crate) fn new(alloc: A) -> Buffers<A>
        ensures { result ≡ 0 }
    {
        Buffers {
            spare: Vec::new(alloc),
            alloc,
        }
    }

    /// Makes so many buffers, if there are fewer.
    pub(crate) fn make(&mut self, count: usize) -> Result<(), AllocError>
        ensures ok { OnOk result (count ≤ self.new) }
        ensures fewer { OnErr result (self.old < count) }
        ensures kept { self.old ≤ self.new }
        ensures most { self.new ≤ max self.old count }
    {
        fill(self.alloc, &mut self.spare, count)
    }

    /// A buffer.
    pub(crate) fn take(&mut self) -> Vec<u8, A>
        requires { 0 < self.old }
        ensures spare { IsSpare result }
        ensures count { self.new + 1 ≡ self.old }
    {
        match self.spare.pop() {
            Some(buffer) => buffer,
            None => unreachable!(),
        }
    }

    /// Keeps a buffer, emptied, if it has room for any message, and the list of buffers has room for it.
    pub(crate) fn put_back(&mut self, buffer: Vec<u8, A>)
        ensures kept { self.old ≤ self.new }
    {
        let mut buffer = buffer;
        buffer.clear();
        if LONGEST <= buffer.capacity() && self.spare.len() < self.spare.capacity() {
            self.spare.push_reserved(buffer);
        }
    }
}

/// Adds buffers until there are so many.
fn fill<A: Allocator + Copy>(
    alloc: A,
    spare: &mut Vec<Vec<u8, A>, A>,
    count: usize,
) -> Result<(), AllocError>
    requires spare { All IsSpare spare.old.items }
    ensures spare { All IsSpare spare.new.items }
    ensures ok { OnOk result (count ≤ vec_len spare.new) }
    ensures fewer { OnErr result (vec_len spare.old < count) }
    ensures kept { vec_len spare.old ≤ vec_len spare.new }
    ensures most { vec_len spare.new ≤ max (vec_len spare.old) count }
{
    while spare.len() < count {
        let buffer = Vec::with_capacity(alloc, LONGEST)?;
        spare.push(buffer)?;
    }
    Ok(())
}
