//! What the value of an element says, alike on Abis and on A.
//!
//! A reader gets the value of the element with an identifier, or nothing where the element isn't there.
ghost use Rattle.std.specs.Prelude.{◌≡◌};
ghost use Rattle.octet_elements.specs.Values.{value_seen, Gives, octet_in, optional_octet_in, u16_of, u16_be_in, u16_octets, octets_in, optional_octets_in, any_octets_in};

/// What is wrong with an element of a message whose elements are all whole.
#[derive(Clone, Copy, PartialEq, Eq, Debug)]
pub enum ValueFault {
    /// The element with this identifier is not there.
    Absent(u8),
    /// The element with this identifier has a value that can't be read.
    Bad(u8),
}

/// The value's first octet.
#[inline]
pub fn octet(identifier: u8, value: Option<&[u8]>) -> Result<u8, ValueFault>
    ensures said { result ≡ octet_in identifier (value_seen value.entry) }
{
    match value {
        None => Err(ValueFault::Absent(identifier)),
        Some([octet, ..]) => Ok(*octet),
        Some([]) => Err(ValueFault::Bad(identifier)),
    }
}

/// The value's first octet, where the element is there.
#[inline]
pub fn optional_octet(identifier: u8, value: Option<&[u8]>) -> Result<Option<u8>, ValueFault>
    ensures said { result ≡ optional_octet_in identifier (value_seen value.entry) }
{
    match value {
        None => Ok(None),
        Some(_) => Ok(Some(octet(identifier, value)?)),
    }
}

/// The number of two octets, the high one first.
#[inline]
pub fn u16_of(high: u8, low: u8) -> u16
    ensures value { result ≡ u16_of high low }
{
    256 * u16::from(high) + u16::from(low)
}

/// The value's first two octets, a number with the high one first.
#[inline]
pub fn u16_be(identifier: u8, value: Option<&[u8]>) -> Result<u16, ValueFault>
    ensures said { result ≡ u16_be_in identifier (value_seen value.entry) }
{
    match value {
        None => Err(ValueFault::Absent(identifier)),
        Some([high, low, ..]) => Ok(u16_of(*high, *low)),
        Some(_) => Err(ValueFault::Bad(identifier)),
    }
}

/// A number as two octets, the high one first.
#[inline]
pub fn u16_octets(number: u16) -> [u8; 2]
    ensures octets { result ≡ u16_octets number }
{
    [(number / 256) as u8, (number % 256) as u8]
}

/// The whole value, which has at least one octet.
#[inline]
pub fn octets(identifier: u8, value: Option<&[u8]>) -> Result<&[u8], ValueFault>
    ensures gives { Gives result (λ v. v.now) (octets_in identifier (value_seen value.entry)) }
{
    match value {
        None => Err(ValueFault::Absent(identifier)),
        Some(value) if !value.is_empty() => Ok(value),
        Some(_) => Err(ValueFault::Bad(identifier)),
    }
}

/// The whole value, which has at least one octet, where the element is there.
#[inline]
pub fn optional_octets(identifier: u8, value: Option<&[u8]>) -> Result<Option<&[u8]>, ValueFault>
    ensures gives { Gives result value_seen (optional_octets_in identifier (value_seen value.entry)) }
{
    match value {
        None => Ok(None),
        Some(value) if !value.is_empty() => Ok(Some(value)),
        Some(_) => Err(ValueFault::Bad(identifier)),
    }
}

/// The whole value, which may be empty.
#[inline]
pub fn any_octets(identifier: u8, value: Option<&[u8]>) -> Result<&[u8], ValueFault>
    ensures gives { Gives result (λ v. v.now) (any_octets_in identifier (value_seen value.entry)) }
{
    value.ok_or(ValueFault::Absent(identifier))
}
