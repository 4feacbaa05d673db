//! What a message's octets have beside what it uses, as it is printed.
//!
//! No clause says what is printed; what an element is is said in `octet_elements`, and which elements a message uses in the
//! codecs.
ghost use Rattle.std.specs.Prelude.{◌≡◌};
ghost use Rattle.rr_messages.specs.Rr.{text_len};

use bssmap_messages::{Bssmap, InterfaceA};
use octet_elements::{ElementTable, leading_element};
use rr_messages::Rr;
use rsl_messages::{Abis, Rsl};
use std::alloc::Allocator;
use std::io::{self, Write};

/// How many elements with each identifier a message uses, of those that were not yet met.
#[derive(Drop)]
struct Used {
    counts: [u16; 256],
}

impl Used {
    /// Those with these identifiers.
    fn of(identifiers: &[u8]) -> Self {
        let mut counts: [u16; 256] = [0; 256];
        for identifier in identifiers {
            let place = usize::from(*identifier);
            counts[place] = counts[place].saturating_add(1);
        }
        Used { counts }
    }

    /// Counts one element with this identifier less; whether there was one.
    fn take(&mut self, identifier: u8) -> bool {
        let place = usize::from(identifier);
        if self.counts[place] == 0 {
            return false;
        }
        self.counts[place] -= 1;
        true
    }
}

/// Prints octets as two small hexadecimal digits each.
fn print_octets<W: Write>(octets: &[u8], out: &mut W) -> io::Result<()> {
    for octet in octets {
        write!(out, "{octet:02x}")?;
    }
    Ok(())
}

/// Prints the elements of a body that aren't among the first with the identifiers that are used.
fn print_unused<T: ElementTable, W: Write>(
    used_identifiers: &[u8],
    body: &[u8],
    out: &mut W,
) -> io::Result<()> {
    let mut used = Used::of(used_identifiers);
    let mut rest = body;
    while let Some(leading) = leading_element::<T>(rest) {
        if !used.take(leading.identifier) {
            write!(out, " unused={:02x}/", leading.identifier)?;
            print_octets(leading.value, out)?;
        }
        rest = leading.rest;
    }
    Ok(())
}

/// Prints the elements in a message's octets on Abis that it doesn't use, in their order: for each a blank and
/// `unused=IDENTIFIER/VALUE` in hexadecimal. They are those that no message uses, those that only other messages use, and
/// each that comes again.
pub fn print_abis_unused<A: Allocator, W: Write>(
    message: &Rsl<A>,
    octets: &[u8],
    out: &mut W,
) -> io::Result<()> {
    let used = rsl_messages::used_identifiers(message);
    match octets {
        [_, _, body @ ..] => print_unused::<Abis, W>(used, body, out),
        _ => Ok(()),
    }
}

/// Prints the elements in a message's octets on A that it doesn't use, as [`print_abis_unused`] does.
pub fn print_a_unused<A: Allocator, W: Write>(
    message: &Bssmap<A>,
    octets: &[u8],
    out: &mut W,
) -> io::Result<()> {
    let used = bssmap_messages::used_identifiers(message);
    match octets {
        [_, _, _, body @ ..] => print_unused::<InterfaceA, W>(used, body, out),
        _ => Ok(()),
    }
}

/// How many octets a radio resource message uses: its head and its mandatory part (TS 44.018 section 9.1).
fn used_of_rr(message: &Rr) -> usize
    ensures { result ≡ text_len message.now }
{
    match message {
        Rr::HandoverCommand { .. } => 9,
        Rr::MeasurementReport(_) => 18,
        Rr::HandoverComplete(_)
        | Rr::HandoverFailure(_)
        | Rr::ChannelRelease(_)
        | Rr::PhysicalInformation(_) => 3,
    }
}

/// Prints what stands in a radio resource message's octets behind its mandatory part: a blank and `rest=OCTETS` in
/// hexadecimal, where there is any.
pub fn print_rr_rest<W: Write>(message: &Rr, octets: &[u8], out: &mut W) -> io::Result<()> {
    let used = used_of_rr(message);
    if octets.len() <= used {
        return Ok(());
    }
    write!(out, " rest=")?;
    print_octets(&octets[used..], out)
}
