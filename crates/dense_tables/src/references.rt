//! The calls of handover references.
ghost use Rattle.std.specs.Prelude.{◌≡◌, ◌≢◌, ◌↔◌, ◌<◌, ◌*◌, IsTrue, Some, None, IfOk, is_some, length, cond, ℕ, slice_index_or};
ghost use Rattle.std.specs.FinMap as map;
ghost use Rattle.dense_tables.specs.References.{all_unused, with_user, place_of, user_at};

use crate::blocks::copy_of;
use std::alloc::{AllocError, Allocator, Global};
use std::marker::Model;

/// How many references a cell has: a reference is one octet (TS 44.018 clause 10.5.2.15).
const REFERENCES_OF_CELL: usize = 256;

/// A handover reference of a cell (TS 44.018 clause 10.5.2.15).
#[derive(Clone, Copy, Debug, PartialEq, Eq, PartialOrd, Ord)]
pub struct Reference {
    /// The cell that the call moves to.
    pub cell: u8,
    /// 0 to 255, of one attempt of the cell at a time.
    pub number: u8,
}

/// The call of each handover reference in use: a row of 256 places for each cell. Only making and copying it asks for
/// memory.
#[derive(Drop)]
pub struct ReferenceRows<A: Allocator = Global> {
    cells: u8,
    users: Vec<Option<u16>, A>,
    // how many are in use
    used: usize,
}

impl<A: Allocator> Model for ReferenceRows<A> {
    ghost use Rattle.dense_tables.specs.References.{Rows, rows_code, users_of, IsTable};

    ghost Value = { Rows };

    ghost coded = { rows_code };

    ghost view = { λ rows. record { cells = rows.cells; users = users_of rows.users.items } };

    ghost invariant = { λ rows. IsTable rows.cells rows.users.items rows.used };
}

impl<A: Allocator + Copy> ReferenceRows<A> {
    /// Rows for the cells 0 to `cells - 1`, with no reference in use.
    pub fn new(alloc: A, cells: u8) -> Result<ReferenceRows<A>, AllocError>
        ensures unused { IfOk result (λ rows. rows ≡ all_unused cells) }
    {
        let users = no_users(alloc, usize::from(cells) * REFERENCES_OF_CELL)?;
        Ok(ReferenceRows {
            cells,
            users,
            used: 0,
        })
    }

    /// A copy of the rows.
    pub fn copy(&self) -> Result<ReferenceRows<A>, AllocError>
        ensures copy { IfOk result (λ copy. copy ≡ self.now) }
    {
        let users = copy_of(&self.users)?;
        Ok(ReferenceRows {
            cells: self.cells,
            users,
            used: self.used,
        })
    }
}

impl<A: Allocator> ReferenceRows<A> {
    /// How many cells have a row.
    pub fn cells(&self) -> u8
        ensures value { result ≡ self.now.cells }
    {
        self.cells
    }

    /// How many references are in use.
    pub fn len(&self) -> usize
        ensures count { result ≡ map.len self.now.users }
    {
        self.used
    }

    /// The call of a reference; `None` if it isn't in use.
    pub fn get(&self, reference: Reference) -> Option<u16>
        ensures value { result ≡ map.get self.now.users reference }
    {
        user_in(&self.users, reference)
    }

    /// A reference of one of the cells is a call's from now on.
    pub fn set(&mut self, reference: Reference, call: u16)
        requires cell { reference.cell < self.old.cells }
        ensures set { self.new ≡ with_user self.old reference (Some call) }
    {
        self.write(reference, Some(call));
    }

    /// A reference isn't in use from now on.
    pub fn remove(&mut self, reference: Reference)
        ensures removed { self.new ≡ with_user self.old reference None }
    {
        self.write(reference, None);
    }

    /// Whether two tables have the same cells, and the same calls for the same references.
    pub fn is_same(&self, other: &ReferenceRows<A>) -> bool
        ensures same { IsTrue result ↔ (self.now ≡ other.now) }
    {
        self.cells == other.cells && same_users(self.users.as_slice(), other.users.as_slice())
    }

    /// Another user of a reference, or none; a reference of no cell has none anyway.
    fn write(&mut self, reference: Reference, user: Option<u16>)
        requires { user ≢ None → reference.cell < self.old.cells }
        ensures { self.new ≡ with_user self.old reference user }
    {
        let place = place_of(reference);
        if place < self.users.len() {
            let old = self.users[place];
            self.users[place] = user;
            self.used = self.used - count_of(old) + count_of(user);
        }
    }
}

/// The place of a reference in the rows.
fn place_of(reference: Reference) -> usize
    ensures { result ≡ place_of reference }
{
    usize::from(reference.cell) * REFERENCES_OF_CELL + usize::from(reference.number)
}

/// The call of a reference.
fn user_in<A: Allocator>(users: &Vec<Option<u16>, A>, reference: Reference) -> Option<u16>
    ensures { result ≡ user_at users.now.items reference }
{
    let place = place_of(reference);
    if place < users.len() {
        users[place]
    } else {
        None
    }
}

/// How many calls that is.
fn count_of(user: Option<u16>) -> usize
    ensures { result ≡ cond (is_some user) 1 0 }
{
    match user {
        Some(_) => 1,
        None => 0,
    }
}

/// So many places without a call.
fn no_users<A: Allocator>(alloc: A, count: usize) -> Result<Vec<Option<u16>, A>, AllocError>
    ensures len { IfOk result (λ users. length users.items ≡ count) }
    ensures none { IfOk result (λ users. (place : ℕ) →
        slice_index_or users.items place None ≡ None) }
{
    Vec::from_elem(alloc, None, count)
}

/// Whether two lists are the same.
fn same_users(one: &[Option<u16>], other: &[Option<u16>]) -> bool
    ensures { IsTrue result ↔ (one.now ≡ other.now) }
{
    one == other
}
