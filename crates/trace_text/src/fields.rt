//! The fields of messages, as they are printed.
use crate::text::{HexText, OrDash, SlotText};
use bssmap_messages::CellId;
use encoded_messages::{FieldValue, Fields};
use rr_elements::Ncell;
use std::fmt;

/// Prints fields, each with a blank before it.
#[derive(Drop)]
pub(crate) struct Printed<'f, W: fmt::Write> {
    pub(crate) f: &'f mut fmt::Formatter<W>,
}

impl<'m, W: fmt::Write> Fields<'m> for Printed<'_, W> {
    type Stop = fmt::Error;

    fn field(&mut self, key: &'m str, value: FieldValue<'m>) -> fmt::Result {
        write!(self.f, " {key}={}", ValueText(value))
    }
}

/// The value of a field.
#[derive(Clone, Copy)]
struct ValueText<'m>(FieldValue<'m>);

impl fmt::Display for ValueText<'_> {
    fn fmt<W: fmt::Write>(&self, f: &mut fmt::Formatter<W>) -> fmt::Result {
        match self.0 {
            FieldValue::Channel(tn, sub) => write!(f, "{}", SlotText(tn, sub)),
            FieldValue::Number(number) => write!(f, "{number}"),
            FieldValue::OptionalOctet(octet) | FieldValue::RrCause(octet) => write!(
                f,
                "{}",
                OrDash(octet)
            ),
            FieldValue::Flag(flag) => write!(f, "{}", u8::from(flag)),
            FieldValue::Cause(cause) => write!(f, "{cause}"),
            FieldValue::Octets(octets) => write!(f, "{}", HexText(octets)),
            FieldValue::Layer3(Some(octets)) => write!(f, "{}", HexText(octets)),
            FieldValue::Layer3(None) => write!(f, "-"),
            FieldValue::Cell(cell) => write!(f, "{}", CellText(cell)),
            FieldValue::Cells(cells) => write!(f, "{}", CellsText(cells)),
            FieldValue::HexOctet(octet) => write!(f, "{octet:02x}"),
            FieldValue::Neighbour(neighbour) => write!(f, "{}", NeighbourText(neighbour)),
        }
    }
}

/// A cell: `lac/ci`.
#[derive(Clone, Copy)]
struct CellText(CellId);

impl fmt::Display for CellText {
    fn fmt<W: fmt::Write>(&self, f: &mut fmt::Formatter<W>) -> fmt::Result {
        write!(f, "{}/{}", OrDash(self.0.lac), self.0.ci)
    }
}

/// Cells, with a comma between any two.
#[derive(Clone, Copy)]
struct CellsText<'a>(&'a [CellId]);

impl fmt::Display for CellsText<'_> {
    fn fmt<W: fmt::Write>(&self, f: &mut fmt::Formatter<W>) -> fmt::Result {
        let mut separator = "";
        for cell in self.0 {
            write!(f, "{separator}{}", CellText(*cell))?;
            separator = ",";
        }
        Ok(())
    }
}

/// What was measured of a neighbour: `level/position/bsic`.
#[derive(Clone, Copy)]
struct NeighbourText(Ncell);

impl fmt::Display for NeighbourText {
    fn fmt<W: fmt::Write>(&self, f: &mut fmt::Formatter<W>) -> fmt::Result {
        write!(f, "{}/{}/{}", self.0.level, self.0.position, self.0.bsic)
    }
}

/// Looks for the octets of a radio resource message among fields, and ends with them.
#[derive(Clone, Copy)]
pub(crate) struct Layer3Sought;

impl<'m> Fields<'m> for Layer3Sought {
    type Stop = &'m [u8];

    fn field(&mut self, _: &'m str, value: FieldValue<'m>) -> Result<(), &'m [u8]> {
        match value {
            FieldValue::Layer3(Some(octets)) => Err(octets),
            FieldValue::Layer3(None)
            | FieldValue::Channel(..)
            | FieldValue::Number(_)
            | FieldValue::OptionalOctet(_)
            | FieldValue::Flag(_)
            | FieldValue::Cause(_)
            | FieldValue::RrCause(_)
            | FieldValue::Octets(_)
            | FieldValue::Cell(_)
            | FieldValue::Cells(_)
            | FieldValue::HexOctet(_)
            | FieldValue::Neighbour(_) => Ok(()),
        }
    }
}
