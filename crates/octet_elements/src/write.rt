//! Writing into a list that has room.
ghost use Rattle.std.specs.Prelude.{◌≡◌, ◌+◌, ◌≤◌, ◌∷◌, [], length, IsOk, OnOk, OnErr, vec_len, vec_capacity};
ghost use Rattle.octet_elements.specs.Elements.{element_octets, all_octets, Fits};
ghost use Rattle.octet_elements.specs.Values.{where_some, where_true};
ghost use Rattle.octet_elements.specs.Writing.{HasRoom, Adds};

use crate::form::{ElementTable, Form};
use std::alloc::{AllocError, Allocator};

/// Makes room for so many octets more. A list that has room for them is left as it is; else memory is asked for, and
/// where it is refused the list keeps its octets and its capacity.
#[inline]
pub fn make_room<A: Allocator>(out: &mut Vec<u8, A>, count: usize) -> Result<(), AllocError>
    ensures items { out.new.items ≡ out.old.items }
    ensures len { vec_len out.new ≡ vec_len out.old }
    ensures ok { OnOk result (vec_len out.new + count ≤ vec_capacity out.new) }
    ensures succeeds { vec_len out.old + count ≤ vec_capacity out.old → IsOk result }
    ensures had_room { vec_len out.old + count ≤ vec_capacity out.old → out.new ≡ out.old }
    ensures capacity { vec_capacity out.old ≤ vec_capacity out.new }
    ensures refused { OnErr result (vec_capacity out.new ≡ vec_capacity out.old) }
{
    // `reserve` looks for room itself, but `std` doesn't say that it then leaves the capacity as it was.
    if out.capacity() - out.len() < count {
        out.reserve(count)?;
    }
    Ok(())
}

/// Appends octets for which the list has room: its capacity stays what it was.
pub fn append_octets<A: Allocator>(out: &mut Vec<u8, A>, octets: &[u8])
    requires { HasRoom octets.now out.old }
    ensures { Adds octets.now out.old out.new }
{
    // Octet by octet: `std` doesn't say that `extend_from_slice` leaves the capacity as it was.
    for octet in octets {
        out.push_reserved(*octet);
    }
}

/// Appends an element for which the list has room.
#[inline(always)]
pub fn append_element<T: ElementTable, A: Allocator>(
    out: &mut Vec<u8, A>,
    identifier: u8,
    value: &[u8],
)
    requires fits { Fits T.form_of (identifier, value.now) }
    requires room { HasRoom (element_octets T.form_of (identifier, value.now)) out.old }
    ensures { Adds (element_octets T.form_of (identifier, value.now)) out.old out.new }
{
    match T::form_for(identifier) {
        Form::Fixed(_) => append_octets(out, &[identifier]),
        Form::Counted => append_octets(out, &[identifier, value.len() as u8]),
        Form::LongCounted => {
            let count = value.len() as u16;
            append_octets(out, &[identifier, (count / 256) as u8, (count % 256) as u8]);
        }
    }
    append_octets(out, value);
}

/// Appends an element whose value is one octet; the list has room for it.
#[inline(always)]
pub fn append_octet<T: ElementTable, A: Allocator>(out: &mut Vec<u8, A>, identifier: u8, octet: u8)
    requires { HasRoom (element_octets T.form_of (identifier, octet ∷ [])) out.old }
    ensures { Adds (element_octets T.form_of (identifier, octet ∷ [])) out.old out.new }
{
    // One array for each form: appending once is shorter than appending the head and then the value.
    match T::form_for(identifier) {
        Form::Fixed(_) => append_octets(out, &[identifier, octet]),
        Form::Counted => append_octets(out, &[identifier, 1, octet]),
        Form::LongCounted => append_octets(out, &[identifier, 0, 1, octet]),
    }
}

/// Appends an element whose value is one octet, if there is one; the list has room for it.
#[inline]
pub fn append_optional_octet<T: ElementTable, A: Allocator>(
    out: &mut Vec<u8, A>,
    identifier: u8,
    octet: Option<u8>,
)
    requires { HasRoom (all_octets T.form_of (where_some identifier octet)) out.old }
    ensures { Adds (all_octets T.form_of (where_some identifier octet)) out.old out.new }
{
    if let Some(octet) = octet {
        append_octet::<T, A>(out, identifier, octet);
    }
}

/// Appends an element without a value, where it is asked for; the list has room for it.
#[inline]
pub fn append_presence<T: ElementTable, A: Allocator>(
    out: &mut Vec<u8, A>,
    identifier: u8,
    there: bool,
)
    requires fits { Fits T.form_of (identifier, []) }
    requires room { HasRoom (all_octets T.form_of (where_true identifier there)) out.old }
    ensures { Adds (all_octets T.form_of (where_true identifier there)) out.old out.new }
{
    if there {
        append_element::<T, A>(out, identifier, &[]);
    }
}

/// How many octets an element takes.
#[inline]
pub fn element_len<T: ElementTable>(identifier: u8, value: &[u8]) -> usize
    ensures { result ≡ length (element_octets T.form_of (identifier, value.now)) }
{
    match T::form_for(identifier) {
        Form::Fixed(_) => 1 + value.len(),
        Form::Counted => 2 + value.len(),
        Form::LongCounted => 3 + value.len(),
    }
}

/// How many octets an element takes whose value is one octet.
#[inline]
pub fn octet_len<T: ElementTable>(identifier: u8) -> usize
    ensures { result ≡ length (element_octets T.form_of (identifier, 0 ∷ [])) }
{
    element_len::<T>(identifier, &[0])
}

/// How many octets an element takes whose value is one octet, if there is one.
#[inline]
pub fn optional_octet_len<T: ElementTable>(identifier: u8, octet: Option<u8>) -> usize
    ensures { result ≡ length (all_octets T.form_of (where_some identifier octet)) }
{
    match octet {
        None => 0,
        Some(octet) => element_len::<T>(identifier, &[octet]),
    }
}

/// How many octets an element without a value takes, where it is asked for.
#[inline]
pub fn presence_len<T: ElementTable>(identifier: u8, there: bool) -> usize
    ensures { result ≡ length (all_octets T.form_of (where_true identifier there)) }
{
    if there {
        element_len::<T>(identifier, &[])
    } else {
        0
    }
}
