//! Messages on Abis in words (TS 48.058 clause 8).
use crate::fields::{Layer3Sought, Printed};
use encoded_messages::{abis_name, visit_abis};
use rsl_messages::Rsl;
use std::alloc::Allocator;
use std::fmt;

/// A message: its name and its fields.
#[derive(Drop)]
pub struct AbisText<'a, A: Allocator>(pub &'a Rsl<A>);

impl<A: Allocator> fmt::Display for AbisText<'_, A> {
    fn fmt<W: fmt::Write>(&self, f: &mut fmt::Formatter<W>) -> fmt::Result {
        f.write_str(abis_name(self.0))?;
        visit_abis(self.0, &mut Printed { f })
    }
}

/// The octets of the radio resource message inside a message on Abis (TS 48.058 clause 9.3.11), if there is one.
pub fn layer3_of<A: Allocator>(message: &Rsl<A>) -> Option<&[u8]> {
    visit_abis(message, &mut Layer3Sought).err()
}
