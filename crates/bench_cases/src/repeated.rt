//! What the cases on messages share: one is read in each iteration, or one of two is written alternately.
use crate::fault::Fault;
use crate::varying::Varying;
use std::alloc::Global;

/// The messages that a case reads.
pub trait Reader {
    /// Reads one. The sum is that of its fields.
    fn read(&self, alloc: Global, octets: &[u8]) -> Result<u64, Fault>;
}

/// Reads a message in each iteration. The sum is that of the fields that were read.
pub fn read_each<R: Reader>(
    reader: &R,
    alloc: Global,
    octets: &mut Varying,
    count: u64,
) -> Result<u64, Fault> {
    let mut sum = 0u64;
    for iteration in 0..count {
        sum = sum.wrapping_add(reader.read(alloc, octets.at(iteration))?);
    }
    Ok(sum)
}

/// What a case writes.
pub trait Written {
    /// It has a text.
    ghost has_text: { Self → Type 0 } = { λ _. Unit {0} };

    /// Writes it alone into a list. The sum is that of the octets that were written.
    fn write(&self, out: &mut Vec<u8>) -> Result<u64, Fault>
        requires { has_text self.now };
}

/// Writes one and the other alternately, so many in all. The sum is that of the octets that were written.
pub fn write_alternately<W: Written>(
    even: &W,
    odd: &W,
    alloc: Global,
    count: u64,
) -> Result<u64, Fault>
    requires even_has_text { W.has_text even.now }
    requires odd_has_text { W.has_text odd.now }
{
    let mut out = Vec::new(alloc);
    let mut sum = 0u64;
    for iteration in 0..count {
        let written = match iteration % 2 {
            0 => even.write(&mut out)?,
            _ => odd.write(&mut out)?,
        };
        sum = sum.wrapping_add(written);
    }
    Ok(sum)
}
