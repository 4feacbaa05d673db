//! The fields of a message with their values, handed on one after the other.
use crate::form::MessageForm;
use bssmap_messages::CellId;
use rr_elements::Ncell;
use rsl_messages::Sub;

/// The value of a field.
#[derive(Clone, Copy, Debug, PartialEq, Eq)]
pub enum FieldValue<'m> {
    /// A timeslot, and which of its traffic channels it is.
    Channel(u8, Sub),
    /// A number.
    Number(u16),
    /// An octet, if there is one.
    OptionalOctet(Option<u8>),
    /// A cause of the radio path, where the message passes one on.
    RrCause(Option<u8>),
    /// Yes or no.
    Flag(bool),
    /// A cause of the message's own link.
    Cause(u8),
    /// Octets that are printed as they are.
    Octets(&'m [u8]),
    /// The octets of the radio resource message inside, if there is one.
    Layer3(Option<&'m [u8]>),
    /// A cell.
    Cell(CellId),
    /// Cells, the best first.
    Cells(&'m [CellId]),
    /// One octet that is printed as octets are.
    HexOctet(u8),
    /// What was measured of a neighbour.
    Neighbour(Ncell),
}

/// What is done with the fields of a message.
pub trait Fields<'m> {
    /// Why no further field is wanted.
    type Stop;

    /// Takes a field: its key and its value.
    fn field(&mut self, key: &'m str, value: FieldValue<'m>) -> Result<(), Self::Stop>;
}

/// Hands on the fields of a message of this form with these values, in their order, up to the first that stops.
pub(crate) fn hand_on<'m, V: Fields<'m>>(
    form: MessageForm<'m>,
    values: &[FieldValue<'m>],
    visitor: &mut V,
) -> Result<(), V::Stop> {
    for (field, value) in form.fields.iter().zip(values) {
        visitor.field(field.0, *value)?;
    }
    Ok(())
}
