//! Messages on A in words (TS 48.008 clause 3.2.1).
use crate::fields::{Layer3Sought, Printed};
use bssmap_messages::Bssmap;
use encoded_messages::{a_name, visit_a};
use std::alloc::Allocator;
use std::fmt;

/// A message: its name and its fields.
#[derive(Drop)]
pub struct BssmapText<'a, A: Allocator>(pub &'a Bssmap<A>);

impl<A: Allocator + Copy> fmt::Display for BssmapText<'_, A> {
    fn fmt<W: fmt::Write>(&self, f: &mut fmt::Formatter<W>) -> fmt::Result {
        f.write_str(a_name(self.0))?;
        visit_a(self.0, &mut Printed { f })
    }
}

/// The octets of the radio resource message inside a message on A (TS 48.008 clause 3.2.2.24), if there is one.
pub fn layer3_of<A: Allocator>(message: &Bssmap<A>) -> Option<&[u8]> {
    visit_a(message, &mut Layer3Sought).err()
}
