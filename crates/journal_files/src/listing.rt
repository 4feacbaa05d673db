//! What is in the folder of a journal.
ghost use Rattle.std.specs.Prelude.{◌≡◌, ◌++◌, ℕ, List, Option, false, OnOk, IfOk, IfSome};
ghost use Rattle.std.specs.Io.KnownBytes.{Consumes, IsAtEnd};
ghost use Rattle.std.specs.Option.{option_to_list};
ghost use Rattle.journal_files.specs.Listings.{number_of, numbers_in, AreSpans};

use crate::names::{is_beside, number_of};
use std::alloc::{AllocError, Global};
use std::io::{self, Read};
use std::str;

/// What is in the folder of a journal.
#[derive(Drop)]
pub struct Listing {
    /// The lines after which its files begin, in order.
    pub spans: Vec<u64>,
    /// The names of all other files.
    pub others: Vec<String>,
}

/// How many octets of names are read at once.
const NAMES: usize = 8_192;

/// The name that octets are, with what isn't UTF-8 replaced.
fn shown_name(alloc: Global, name: &[u8]) -> Result<String, AllocError> {
    match str::from_utf8(name) {
        Ok(name) => String::from_str(alloc, name),
        Err(_) => String::from_str(alloc, "?"),
    }
}

/// Enters the name of a file that begins no span, unless it is one of a journal's all the same.
fn enter_other(alloc: Global, others: &mut Vec<String>, name: &[u8]) -> Result<(), AllocError> {
    let name = shown_name(alloc, name)?;
    if name.is_empty() || name.as_str() == "." || name.as_str() == ".." || is_beside(&name) {
        return Ok(());
    }
    Ok(others.push(name)?)
}

/// Enters the name of a file.
fn enter(alloc: Global, listing: &mut Listing, name: &[u8]) -> Result<(), AllocError>
    ensures spans { OnOk result (listing.new.spans.items ≡
        listing.old.spans.items ++ option_to_list (number_of name.now)) }
{
    match number_of(name) {
        Some(number) => Ok(listing.spans.push(number)?),
        None => enter_other(alloc, &mut listing.others, name),
    }
}

/// Reads octets of a folder's names behind those that were read. The answer is whether there were some.
#[tactic(auto, using(crate::proofs::Pieces::piece_more))]
fn read_piece<D: Read>(dir: &mut D, names: &mut Vec<u8>) -> io::Result<bool>
    ensures read { OnOk result ((first : Option (List ℕ)) → Consumes first (D.remaining dir.old) names.old.items →
        Consumes first (D.remaining dir.new) names.new.items) }
    ensures end { IfOk result (λ is_more. is_more ≡ false → IsAtEnd (D.remaining dir.new)) }
{
    let mut room = [0; NAMES];
    let read = dir.read(&mut room)?;
    names.extend_from_slice(&room[..read])?;
    Ok(read > 0)
}

/// All octets of the names in a folder, each ended by a NUL.
#[tactic(auto, using(crate::proofs::Pieces::pieces_end))]
fn names_in<D: Read>(alloc: Global, dir: &mut D) -> io::Result<Vec<u8>>
    ensures names { IfOk result (λ names. IfSome (D.remaining dir.old) (λ all. names.items ≡ all)) }
{
    let mut names = Vec::new(alloc);
    for _round in 0..u64::MAX {
        let is_more = read_piece(dir, &mut names)?;
        if !is_more {
            return Ok(names);
        }
    }
    // no folder has so many names
    Err(io::Error::from(io::ErrorKind::Other))
}

/// What names say, of which a NUL ends each.
fn entered(alloc: Global, names: &[u8]) -> Result<Listing, AllocError>
    ensures spans { IfOk result (λ listing. listing.spans.items ≡ numbers_in names.now) }
{
    let mut listing = Listing {
        spans: Vec::new(alloc),
        others: Vec::new(alloc),
    };
    for name in names.split(|octet| *octet == 0) {
        enter(alloc, &mut listing, name)?;
    }
    Ok(listing)
}

/// What is in a folder that was opened to be listed.
pub(crate) fn listing_of<D: Read>(alloc: Global, dir: &mut D) -> io::Result<Listing>
    ensures spans { IfOk result (λ listing. IfSome (D.remaining dir.old) (λ names.
        AreSpans names listing.spans.items)) }
{
    let names = names_in(alloc, dir)?;
    let mut listing = entered(alloc, &names)?;
    listing.spans.sort()?;
    listing.others.sort()?;
    Ok(listing)
}
