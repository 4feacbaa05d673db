//! One message in words, its name and its fields, from its octets in hexadecimal.
ghost use Rattle.std.specs.Prelude.{◌≡◌, ◌≢◌, Ok, Err, IfOk, IfErr, IfSome, IfNone, IsErr, is_some, true, false};
ghost use Rattle.hex.specs.Hex.{decode_of};
ghost use Rattle.lab_script.specs.Words.{octets_of};
ghost use Rattle.lab.specs.Decoded.{IsMessageText};

use crate::faults::lab_result;
pub use decoded_lines::LinkName;
use decoded_lines::{Detail, PrintFault, print_or_fault};
use exchange::Bad;
use lab_runs::run::Status;
use lab_script::script::is_octets;
use run_listeners::LabFault;
use std::alloc::{AllocError, Allocator};
use std::io::Write;

/// The octets that a text writes in hexadecimal, in either case; `None` if it isn't hexadecimal.
fn octets<A: Allocator + Copy>(alloc: A, text: &str) -> Result<Option<Vec<u8, A>>, AllocError>
    ensures octets { IfOk result (λ found. IfSome found
        (λ octets. decode_of text.now ≡ Ok octets.items)) }
    ensures none { IfOk result (λ found. IfNone found (IsErr (decode_of text.now))) }
    ensures memory { IsErr result → is_some (octets_of text.now) ≡ true }
{
    if text.is_empty() {
        return Ok(Some(Vec::new(alloc)));
    }
    if !is_octets(text) {
        return Ok(None);
    }
    match hex::decode(alloc, text) {
        Ok(octets) => Ok(Some(octets)),
        Err(_) => Err(AllocError),
    }
}

/// Refuses a text that isn't hexadecimal, and prints so.
fn refuse_text<W: Write>(out: &mut W) -> Result<Decoded, LabFault>
    ensures refused { IfOk result (λ decoded. decoded ≡ Decoded.NotHex) }
    ensures write { IfErr result (λ fault. fault ≡ LabFault.Write) }
{
    match writeln!(out, "hex") {
        Ok(()) => Ok(Decoded::NotHex),
        Err(_) => Err(LabFault::Write),
    }
}

/// How work ends that printed whether all octets are messages.
pub(crate) fn ended(printed: Result<bool, PrintFault>) -> Result<Status, LabFault>
    ensures done { result ≡ Ok Status.Done → printed ≡ Ok true }
    ensures differs { result ≢ Ok Status.Differs }
    ensures refused { result ≡ Ok Status.Refused → printed ≡ Ok false }
    ensures memory { result ≡ Err LabFault.NoMemory → printed ≡ Err PrintFault.NoMemory }
{
    match printed {
        Ok(true) => Ok(Status::Done),
        Ok(false) => Ok(Status::Refused),
        Err(PrintFault::NoMemory) => Err(LabFault::NoMemory),
        Err(PrintFault::Write) => Err(LabFault::Write),
    }
}

/// What a text that is to write a message in hexadecimal is.
#[derive(Clone, Copy, Debug, PartialEq, Eq)]
pub(crate) enum Decoded {
    /// It writes one.
    Message,
    /// It isn't hexadecimal.
    NotHex,
    /// Its octets are no message of the link.
    Bad(Bad),
}

/// Prints the message that a hexadecimal text writes on one line, as [`decode_run`] says; answers what the text is.
pub(crate) fn decode_text<A: Allocator + Copy, W: Write>(
    alloc: A,
    link: LinkName,
    text: &str,
    out: &mut W,
) -> Result<Decoded, LabFault>
    ensures done { result ≡ Ok Decoded.Message → IsMessageText A link text.now }
    ensures hex { result ≡ Ok Decoded.NotHex → IsMessageText A link text.now → ⊥ }
    ensures bad { (bad : Bad) → result ≡ Ok (Decoded.Bad bad) → IsMessageText A link text.now → ⊥ }
    ensures memory { result ≡ Err LabFault.NoMemory → is_some (octets_of text.now) ≡ true }
{
    let Some(octets) = octets(alloc, text)? else {
        return refuse_text(out);
    };
    let printed = print_or_fault(alloc, link, Detail::Fields, &octets, out);
    let fault = lab_result(printed)?;
    writeln!(out)?;
    match fault {
        None => Ok(Decoded::Message),
        Some(bad) => Ok(Decoded::Bad(bad)),
    }
}

/// Prints the message that is written in a hexadecimal text, on one line.
///
/// If the octets are no message of the link, `fault`, the link, and the fault's number and argument are printed. If the text
/// isn't hexadecimal, `hex` is printed. In both cases the answer is `Refused`, else `Done`. An empty text has no octets. If
/// memory is refused (`NoMemory`), nothing is printed. `Write`: `out` can't be written to.
pub fn decode_run<A: Allocator + Copy, W: Write>(
    alloc: A,
    link: LinkName,
    text: &str,
    out: &mut W,
) -> Result<Status, LabFault>
    ensures done { result ≡ Ok Status.Done → IsMessageText A link text.now }
    ensures differs { result ≢ Ok Status.Differs }
    ensures refused { result ≡ Ok Status.Refused → IsMessageText A link text.now → ⊥ }
    ensures memory { result ≡ Err LabFault.NoMemory → is_some (octets_of text.now) ≡ true }
{
    match decode_text(alloc, link, text, out) {
        Ok(Decoded::Message) => Ok(Status::Done),
        Ok(Decoded::NotHex) => Ok(Status::Refused),
        Ok(Decoded::Bad(_)) => Ok(Status::Refused),
        Err(fault) => Err(fault),
    }
}
