//! The input of a case, in which one octet is another in each iteration.
use std::alloc::{AllocError, Global};

/// The octets of a case. To one of them, where it is there, the number of the iteration is added, modulo 256.
#[derive(Drop)]
pub struct Varying {
    octets: Vec<u8>,
    place: usize,
    first: u8,
}

impl Varying {
    /// Octets that change at a place, counted from 0.
    pub fn new(alloc: Global, octets: &[u8], place: usize) -> Result<Varying, AllocError> {
        Ok(Varying {
            octets: Vec::from_slice(alloc, octets)?,
            place,
            first: octets.get(place).copied().unwrap_or(0),
        })
    }

    /// The octets at an iteration. At iteration 0 they are as they were given.
    pub fn at(&mut self, iteration: u64) -> &[u8] {
        let octet = self.first.wrapping_add((iteration % 256) as u8);
        if let Some(changing) = self.octets.get_mut(self.place) {
            *changing = octet;
        }
        self.octets.as_slice()
    }
}

/// The sum of octets, to which each octet adds its value. It isn't inlined, so that its instructions can be told from
/// those of the case.
#[inline(never)]
pub fn octets_sum(octets: &[u8]) -> u64 {
    let mut sum = 0u64;
    for octet in octets {
        sum = sum.wrapping_add(u64::from(*octet));
    }
    sum
}
