//! The causes that messages carry.
use bssmap_messages::Bssmap;
use encoded_messages::{FieldValue, Fields, visit_a, visit_abis, visit_rr};
use explanations::LinkName;
use rr_messages::Rr;
use rsl_messages::Rsl;
use std::alloc::Allocator;

/// A cause, and the link whose table names it.
pub(crate) type Cause = (LinkName, u8);

/// Looks for a cause of the message's own link among its fields, and ends with it.
#[derive(Clone, Copy)]
struct CauseSought;

impl<'m> Fields<'m> for CauseSought {
    type Stop = u8;

    fn field(&mut self, _: &'m str, value: FieldValue<'m>) -> Result<(), u8> {
        match value {
            FieldValue::Cause(cause) => Err(cause),
            FieldValue::RrCause(_)
            | FieldValue::Channel(..)
            | FieldValue::Number(_)
            | FieldValue::OptionalOctet(_)
            | FieldValue::Flag(_)
            | FieldValue::Octets(_)
            | FieldValue::Layer3(_)
            | FieldValue::Cell(_)
            | FieldValue::Cells(_)
            | FieldValue::HexOctet(_)
            | FieldValue::Neighbour(_) => Ok(()),
        }
    }
}

/// Looks for a cause of the radio path that is passed on among fields, and ends with it.
#[derive(Clone, Copy)]
struct PassedCauseSought;

impl<'m> Fields<'m> for PassedCauseSought {
    type Stop = u8;

    fn field(&mut self, _: &'m str, value: FieldValue<'m>) -> Result<(), u8> {
        match value {
            FieldValue::RrCause(Some(cause)) => Err(cause),
            FieldValue::RrCause(None)
            | FieldValue::Cause(_)
            | FieldValue::Channel(..)
            | FieldValue::Number(_)
            | FieldValue::OptionalOctet(_)
            | FieldValue::Flag(_)
            | FieldValue::Octets(_)
            | FieldValue::Layer3(_)
            | FieldValue::Cell(_)
            | FieldValue::Cells(_)
            | FieldValue::HexOctet(_)
            | FieldValue::Neighbour(_) => Ok(()),
        }
    }
}

/// The cause of a message on Abis (TS 48.058 clause 9.3.26).
pub(crate) fn abis_cause<A: Allocator>(message: &Rsl<A>) -> Option<Cause> {
    let cause = visit_abis(message, &mut CauseSought).err()?;
    Some((LinkName::Abis, cause))
}

/// The cause of a message on A (TS 48.008 clause 3.2.2.5).
pub(crate) fn a_cause<A: Allocator>(message: &Bssmap<A>) -> Option<Cause> {
    let cause = visit_a(message, &mut CauseSought).err()?;
    Some((LinkName::A, cause))
}

/// The cause of the radio path that a message on A passes on (TS 48.008 clause 3.2.2.22).
pub(crate) fn passed_cause<A: Allocator>(message: &Bssmap<A>) -> Option<Cause> {
    let cause = visit_a(message, &mut PassedCauseSought).err()?;
    Some((LinkName::Rr, cause))
}

/// The cause of a radio resource message (TS 44.018 clause 10.5.2.31).
pub(crate) fn rr_cause(message: &Rr) -> Option<Cause> {
    let cause = visit_rr(message, &mut CauseSought).err()?;
    Some((LinkName::Rr, cause))
}
