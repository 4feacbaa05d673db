//! An octet list inside a message.
ghost use Rattle.std.specs.Prelude.{◌≡◌, [], IfOk, IsOk};

use std::alloc::{AllocError, Allocator, Global};
use std::marker::Model;

/// An octet list inside a message, as a layer 3 message or a channel mode.
#[derive(Debug, Drop)]
pub struct Octets<A: Allocator = Global> {
    items: Vec<u8, A>,
}

impl<A: Allocator> Model for Octets<A> {
    ghost use Rattle.std.specs.Prelude.{List, ℕ};

    ghost Value = { List ℕ };

    ghost view = { λ o. o.items.items };
}

impl<A: Allocator + Copy> Octets<A> {
    /// A list of these octets. An empty one takes no memory.
    #[inline(always)]
    pub fn new(alloc: A, octets: &[u8]) -> Result<Self, AllocError>
        ensures octets { IfOk result (λ o. o ≡ octets.now) }
        ensures empty { octets.now ≡ [] → IsOk result }
    {
        if octets.is_empty() {
            return Ok(Octets {
                items: Vec::new(alloc),
            });
        }
        let items = Vec::from_slice(alloc, octets)?;
        Ok(Octets { items })
    }
}

impl<A: Allocator> Octets<A> {
    /// The list of these octets, which are moved: no memory is asked for.
    pub fn from_vec(octets: Vec<u8, A>) -> Self
        ensures octets { result ≡ octets.items }
    {
        Octets { items: octets }
    }

    /// The list of its octets, which are moved out, with the room that it has.
    pub fn into_vec(self) -> Vec<u8, A>
        ensures octets { result.items ≡ self }
    {
        let Octets { items } = self;
        items
    }
}

impl<A: Allocator> Octets<A> {
    /// Its octets.
    pub fn as_slice(&self) -> &[u8]
        ensures octets { result.now ≡ self.now }
    {
        self.items.as_slice()
    }
}
