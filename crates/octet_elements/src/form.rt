//! How the value of an element is delimited, and which values a codec uses.
/// How the value of an element is delimited.
#[derive(Clone, Copy, Debug, PartialEq, Eq)]
pub enum Form {
    /// The value has so many octets; with 0 the identifier stands alone.
    Fixed(usize),
    /// A length of one octet, and a value of that many octets.
    Counted,
    /// A length of two octets, the high one first, and a value of that many octets.
    LongCounted,
}

/// How many identifiers a codec may know.
pub const PLACES: usize = 12;

/// Of the identifier at this place the value of the second element is kept too.
pub const DOUBLED: usize = 0;

/// The elements of a codec: the form of each identifier, and the identifiers whose values its messages use.
pub trait ElementTable {
    ghost use Rattle.std.specs.Prelude.{◌≡◌, ℕ, List};
    ghost use Rattle.octet_elements.specs.declared.form.Form.{Form};
    ghost use Rattle.octet_elements.specs.Lookup.{place_of};

    ghost form_of: { ℕ → Form };

    ghost known: { List ℕ };

    /// The form of the elements with this identifier, and its place among those that the codec knows, from 0; [`PLACES`] if
    /// it isn't one of them.
    fn rule_for(identifier: u8) -> (Form, usize)
        ensures form { result.0 ≡ form_of identifier }
        ensures place { result.1 ≡ place_of identifier known };

    /// The form of the elements with this identifier.
    #[inline(always)]
    fn form_for(identifier: u8) -> Form
        ensures { result ≡ form_of identifier }
    {
        Self::rule_for(identifier).0
    }

    /// The place of this identifier.
    #[inline(always)]
    fn place_for(identifier: u8) -> usize
        ensures { result ≡ place_of identifier known }
    {
        Self::rule_for(identifier).1
    }
}
