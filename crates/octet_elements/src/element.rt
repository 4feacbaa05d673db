//! The element that octets begin with.
ghost use Rattle.std.specs.Prelude.{◌≡◌, ◌++◌, IfSome, IfNone};
ghost use Rattle.octet_elements.specs.Elements.{element_octets, Fits, IsCut};
ghost use Rattle.octet_elements.specs.Lookup.{place_of};

use crate::form::{ElementTable, Form};

/// The element that octets begin with, and what follows it.
#[derive(Clone, Copy)]
pub struct Leading<'a> {
    pub identifier: u8,
    /// The place of the identifier among those that the codec knows.
    pub place: usize,
    pub value: &'a [u8],
    pub rest: &'a [u8],
}

/// The element that the octets begin with; `None` if they are empty or it is cut.
#[inline(always)]
pub fn leading_element<T: ElementTable>(octets: &[u8]) -> Option<Leading<'_>>
    ensures found { IfSome result (λ f. Fits T.form_of (f.identifier, f.value.now) ×
        (octets.now ≡ element_octets T.form_of (f.identifier, f.value.now) ++ f.rest.now)) }
    ensures place { IfSome result (λ f. f.place ≡ place_of f.identifier T.known) }
    ensures cut { IfNone result (IsCut T.form_of octets.now) }
{
    let (identifier, after) = octets.split_first()?;
    let identifier = *identifier;
    let (form, place) = T::rule_for(identifier);
    let (count, after) = match form {
        Form::Fixed(count) => (count, after),
        Form::Counted => {
            let (count, after) = after.split_first()?;
            (usize::from(*count), after)
        }
        Form::LongCounted => {
            let [high, low, after @ ..] = after else {
                return None;
            };
            (256 * usize::from(*high) + usize::from(*low), after)
        }
    };
    if after.len() < count {
        return None;
    }
    let (value, rest) = after.split_at(count);
    Some(Leading {
        identifier,
        place,
        value,
        rest,
    })
}
