//! One pass over the elements of a body, which keeps the values that a codec uses.
ghost use Rattle.std.specs.Prelude.{◌≡◌, ◌<◌, List, ◌∷◌, [], ◌++◌, length, OnOk, IfErr};
ghost use Rattle.octet_elements.specs.Elements.{Element, AreElements, IsTornAt};
ghost use Rattle.octet_elements.specs.Lookup.{place_of, noted, lookup};
ghost use Rattle.octet_elements.specs.Values.{value_seen, Gives, octet_in, optional_octet_in, u16_be_in, octets_in, optional_octets_in, any_octets_in};

use crate::element::{Leading, leading_element};
use crate::form::{DOUBLED, ElementTable, PLACES};
use crate::values::{
    ValueFault, any_octets, octet, octets, optional_octet, optional_octets, u16_be,
};
use std::marker::{Model, PhantomData};

/// The values that were found in a body, by identifier.
#[derive(Drop)]
pub struct Found<'a, T: ElementTable> {
    first: [Option<&'a [u8]>; 12],
    second: Option<&'a [u8]>,
    table: PhantomData<T>,
}

impl<'a, T: ElementTable> Model for Found<'a, T> {
    ghost use Rattle.std.specs.Prelude.{◌≡◌, length, map};
    ghost use Rattle.octet_elements.specs.Lookup.{Kept, places};
    ghost use Rattle.octet_elements.specs.Values.{value_seen};

    ghost Value = { Kept };

    ghost view = { λ f. record { first = map value_seen f.first; second = value_seen f.second } };

    ghost invariant = { λ f. length f.first ≡ places };
}

impl<'a, T: ElementTable> Found<'a, T> {
    /// Nothing is found yet.
    #[inline]
    pub fn new() -> Self
        ensures nothing { lookup T.known result ≡ noted T.known [] }
    {
        Found {
            first: [None; 12],
            second: None,
            table: PhantomData,
        }
    }

    /// Reads elements to the end of the octets, or answers the offset of the first element that is cut. After
    /// an `Err` it is unspecified what was found.
    #[inline(always)]
    pub fn read(&mut self, octets: &'a [u8]) -> Result<(), usize>
        requires nothing { lookup T.known self.old ≡ noted T.known [] }
        ensures whole { OnOk result ((es : List Element) × AreElements T.form_of es octets.now ×
            (lookup T.known self.new ≡ noted T.known es)) }
        ensures torn { IfErr result (IsTornAt T.form_of octets.now) }
        ensures within { IfErr result (λ at. at < length octets.now) }
    {
        let mut rest = octets;
        while !rest.is_empty() {
            let Some(leading) = leading_element::<T>(rest) else {
                return Err(octets.len() - rest.len());
            };
            self.note(leading);
            rest = leading.rest;
        }
        Ok(())
    }

    /// Keeps the value of one more element, where it is the first with its identifier.
    #[inline(always)]
    fn note(&mut self, leading: Leading<'a>)
        requires { leading.place ≡ place_of leading.identifier T.known }
        ensures { (es : List Element) → lookup T.known self.old ≡ noted T.known es →
            lookup T.known self.new ≡ noted T.known (es ++
            (leading.entry.identifier, leading.entry.value.now) ∷ []) }
    {
        let place = leading.place;
        let value = leading.value;
        if place >= PLACES {
            return;
        }
        if self.first[place].is_none() {
            self.first[place] = Some(value);
        } else if place == DOUBLED && self.second.is_none() {
            self.second = Some(value);
        }
    }

    /// The value of the first element with this identifier, where the codec knows it.
    #[inline]
    pub fn first(&self, identifier: u8) -> Option<&'a [u8]>
        ensures value { value_seen result ≡ (lookup T.known self.now).first identifier }
    {
        match self.first.get(T::place_for(identifier)) {
            Some(value) => *value,
            None => None,
        }
    }

    /// The value of the second element with this identifier, where the codec keeps it.
    #[inline]
    pub fn second(&self, identifier: u8) -> Option<&'a [u8]>
        ensures value { value_seen result ≡ (lookup T.known self.now).second identifier }
    {
        if T::place_for(identifier) == DOUBLED {
            self.second
        } else {
            None
        }
    }

    /// The first octet of the element with this identifier.
    #[inline]
    pub fn octet(&self, identifier: u8) -> Result<u8, ValueFault>
        ensures said { result ≡ octet_in identifier ((lookup T.known self.now).first identifier) }
    {
        octet(identifier, self.first(identifier))
    }

    /// The first octet of the element with this identifier, where it is there.
    #[inline]
    pub fn optional_octet(&self, identifier: u8) -> Result<Option<u8>, ValueFault>
        ensures said { result ≡ optional_octet_in identifier ((lookup T.known self.now).first identifier) }
    {
        optional_octet(identifier, self.first(identifier))
    }

    /// The first two octets of the element with this identifier, a number with the high one first.
    #[inline]
    pub fn u16_be(&self, identifier: u8) -> Result<u16, ValueFault>
        ensures said { result ≡ u16_be_in identifier ((lookup T.known self.now).first identifier) }
    {
        u16_be(identifier, self.first(identifier))
    }

    /// The whole value of the element with this identifier, which has at least one octet.
    #[inline]
    pub fn octets(&self, identifier: u8) -> Result<&'a [u8], ValueFault>
        ensures gives { Gives result (λ v. v.now) (octets_in identifier
            ((lookup T.known self.now).first identifier)) }
    {
        octets(identifier, self.first(identifier))
    }

    /// The whole value of the element with this identifier, which has at least one octet, where it is there.
    #[inline]
    pub fn optional_octets(&self, identifier: u8) -> Result<Option<&'a [u8]>, ValueFault>
        ensures gives { Gives result value_seen (optional_octets_in identifier
            ((lookup T.known self.now).first identifier)) }
    {
        optional_octets(identifier, self.first(identifier))
    }

    /// The whole value of the element with this identifier, which may be empty.
    #[inline]
    pub fn any_octets(&self, identifier: u8) -> Result<&'a [u8], ValueFault>
        ensures gives { Gives result (λ v. v.now) (any_octets_in identifier
            ((lookup T.known self.now).first identifier)) }
    {
        any_octets(identifier, self.first(identifier))
    }
}
