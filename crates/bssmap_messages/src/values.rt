//! What the value of an element says.
ghost use Rattle.std.specs.Prelude.{◌≡◌, ◌<◌, IfOk, OnErr};
ghost use Rattle.octet_elements.specs.Values.{value_seen, Gives};
ghost use Rattle.bssmap_messages.specs.Values.{channel_type_in, classmark_in, classmark_length, kept_classmark};

use crate::message::Classmark;
use crate::table::{CHANNEL_TYPE, CLASSMARK_1, CLASSMARK_2};
use octet_elements::{Octets, ValueFault};
use std::alloc::{AllocError, Allocator};

/// The channel type, which has at least two octets.
pub fn channel_type(value: Option<&[u8]>) -> Result<&[u8], ValueFault>
    ensures { Gives result (λ v. v.now) (channel_type_in (value_seen value.entry)) }
{
    match value {
        None => Err(ValueFault::Absent(CHANNEL_TYPE)),
        Some([] | [_]) => Err(ValueFault::Bad(CHANNEL_TYPE)),
        Some(value) => Ok(value),
    }
}

/// A classmark in the octets of a message.
#[derive(Clone, Copy)]
pub enum ClassmarkValue<'a> {
    /// Classmark information type 1.
    One(u8),
    /// Classmark information type 2.
    Two(&'a [u8]),
}

/// Classmark information type 1 where it is there, else type 2.
pub fn classmark<'a, A: Allocator>(
    one: Option<&[u8]>,
    two: Option<&'a [u8]>,
) -> Result<ClassmarkValue<'a>, ValueFault>
    ensures { Gives result (kept_classmark {A = A})
        (classmark_in {A = A} (value_seen one.entry) (value_seen two.entry)) }
{
    match (one, two) {
        (Some([octet, ..]), _) => Ok(ClassmarkValue::One(*octet)),
        (Some([]), _) => Err(ValueFault::Bad(CLASSMARK_1)),
        (None, Some(value)) => Ok(ClassmarkValue::Two(value)),
        (None, None) => Err(ValueFault::Absent(CLASSMARK_2)),
    }
}

/// The classmark with octets of its own.
#[inline(always)]
pub fn keep_classmark<A: Allocator + Copy>(
    alloc: A,
    classmark: ClassmarkValue<'_>,
) -> Result<Classmark<A>, AllocError>
    ensures ok { IfOk result (λ c. c ≡ kept_classmark classmark.entry) }
    ensures some { OnErr result (0 < classmark_length (kept_classmark {A = A} classmark.entry)) }
{
    match classmark {
        ClassmarkValue::One(octet) => Ok(Classmark::One(octet)),
        ClassmarkValue::Two(octets) => Ok(Classmark::Two(Octets::new(alloc, octets)?)),
    }
}
