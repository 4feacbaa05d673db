//! Calls of controllers, and which of them are joined.
ghost use Rattle.std.specs.Prelude.{◌≡◌, ◌<◌, ◌≤◌, ℕ, not, true, false, filter, find, IfSome, IfNone, vec_len, vec_capacity};
ghost use Rattle.std.specs.List.{list_any};
ghost use Rattle.msc_model.specs.Joins.{is_same, is_in, has_stood, join_of, parted, IsLowest};

use std::alloc::Allocator;

/// A call of a controller. Controllers are counted from 0 in the order in which the centre was given their sites.
#[derive(Clone, Copy)]
pub struct Connection {
    pub controller: usize,
    pub call: u16,
}

/// Two calls that are one for the mobile: the one that asked for a handover, and the one that was made for it.
#[derive(Clone, Copy)]
pub struct Join {
    pub asker: Connection,
    pub target: Connection,
}

/// The first call number of a handover that comes in.
const FIRST_NUMBER: u32 = 40_000;

/// So many numbers are there for calls.
const NUMBERS: u32 = 65_536;

pub fn is_same(one: Connection, other: Connection) -> bool
    ensures { result ≡ is_same one other }
{
    one.controller == other.controller && one.call == other.call
}

/// The call is one of the two.
fn is_in(from: Connection, join: &Join) -> bool
    ensures { result ≡ is_in from join.now }
{
    is_same(from, join.asker) || is_same(from, join.target)
}

/// The join that the call stands in.
pub fn join_of(joins: &[Join], from: Connection) -> Option<Join>
    ensures { result ≡ join_of joins.now from }
{
    joins.iter().find(|join| is_in(from, join)).copied()
}

/// Ends the join that the call stands in.
pub fn part<A: Allocator>(joins: &mut Vec<Join, A>, from: Connection)
    ensures joins { joins.new.items ≡ parted joins.old.items from }
    ensures fewer { vec_len joins.new ≤ vec_len joins.old }
    ensures room { vec_capacity joins.new ≡ vec_capacity joins.old }
{
    joins.retain(|join| !is_in(from, join));
}

/// The call is one of those that have stood in a join.
fn has_stood(stood: &[Connection], call: Connection) -> bool
    ensures { result ≡ has_stood stood.now call }
{
    stood.iter().any(|other| is_same(call, *other))
}

/// The lowest number for a handover that comes in to a controller: one that has stood in no join there.
pub fn lowest_number(stood: &[Connection], controller: usize) -> Option<u16>
    ensures { IsLowest stood.now controller result }
{
    for number in FIRST_NUMBER..NUMBERS {
        let call = number as u16;
        if !has_stood(stood, Connection { controller, call }) {
            return Some(call);
        }
    }
    None
}
