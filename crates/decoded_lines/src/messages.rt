//! The links that messages come from, and messages in words.
ghost use Rattle.std.specs.Prelude.{◌≡◌, ◌≢◌, [], Ok, Err, None, true, false, IfOk, IfErr, IfSome, IsNone, IsSome};
ghost use Rattle.decoded_lines.specs.Messages.{link_name, IsRrMessage, IsBssmapMessage, IsAbisMessage, IsMessage};

use crate::unused::{print_a_unused, print_abis_unused, print_rr_rest};
use bssmap_messages::{Bssmap, BssmapFault};
use exchange::Bad;
use explanations::LinkName;
use rr_messages::Rr;
use rsl_messages::{Rsl, RslFault};
use screen_text::PrintFault;
use std::alloc::Allocator;
use std::io::{self, Write};
use trace_text::abis::{AbisText, layer3_of};
use trace_text::bad::BadText;
use trace_text::bssmap::BssmapText;
use trace_text::rr::RrText;

/// How much is said of a message.
#[derive(Clone, Copy, Debug, PartialEq, Eq)]
pub enum Detail {
    /// Its name and its fields.
    Fields,
    /// Behind them the elements in its octets that it doesn't use, and of a message on Abis the radio resource message
    /// inside.
    All,
}

/// The link of this name.
pub fn link_named(name: &[u8]) -> Option<LinkName>
    ensures named { IfSome result (λ link. link_name link ≡ name.now) }
    ensures none { IsNone result → (link : LinkName) → link_name link ≢ name.now }
{
    if name == b"rr".as_slice() {
        return Some(LinkName::Rr);
    }
    if name == b"a".as_slice() {
        return Some(LinkName::A);
    }
    if name == b"abis".as_slice() {
        return Some(LinkName::Abis);
    }
    None
}

/// Prints why octets are no message, and answers that.
fn refuse<W: Write>(fault: Bad, out: &mut W) -> Result<Option<Bad>, PrintFault>
    ensures refused { result ≢ Ok None }
    ensures memory { result ≢ Err PrintFault.NoMemory }
{
    write!(out, "fault {}", BadText(fault))?;
    Ok(Some(fault))
}

/// Prints what is asked for of a radio resource message behind its fields.
fn print_rr_more<W: Write>(
    detail: Detail,
    message: &Rr,
    octets: &[u8],
    out: &mut W,
) -> io::Result<()> {
    match detail {
        Detail::Fields => Ok(()),
        Detail::All => print_rr_rest(message, octets, out),
    }
}

/// Prints a radio resource message, or why the octets are none.
fn print_rr<W: Write>(detail: Detail, octets: &[u8], out: &mut W) -> Result<Option<Bad>, PrintFault>
    ensures message { result ≡ Ok None → IsRrMessage octets.now }
    ensures refused { IfOk result (λ fault. IsSome fault → IsRrMessage octets.now → ⊥) }
    ensures memory { result ≢ Err PrintFault.NoMemory }
{
    match rr_messages::decode(octets) {
        Ok(message) => {
            write!(out, "{}", RrText(message))?;
            print_rr_more(detail, &message, octets, out)?;
            Ok(None)
        }
        Err(fault) => refuse(Bad::Rr(fault), out),
    }
}

/// Why octets are no message on A, unless memory was refused.
fn bssmap_fault(fault: BssmapFault) -> Result<Bad, PrintFault>
    ensures fault { IfOk result (λ bad. (fault ≢ BssmapFault.NoMemory) × (bad ≡ Bad.Bssmap fault)) }
    ensures memory { IfErr result (λ answer. (fault ≡ BssmapFault.NoMemory) ×
        (answer ≡ PrintFault.NoMemory)) }
{
    match fault {
        BssmapFault::NoMemory => Err(PrintFault::NoMemory),
        _ => Ok(Bad::Bssmap(fault)),
    }
}

/// Why octets are no message on Abis, unless memory was refused.
fn abis_fault(fault: RslFault) -> Result<Bad, PrintFault>
    ensures fault { IfOk result (λ bad. (fault ≢ RslFault.NoMemory) × (bad ≡ Bad.Rsl fault)) }
    ensures memory { IfErr result (λ answer. (fault ≡ RslFault.NoMemory) ×
        (answer ≡ PrintFault.NoMemory)) }
{
    match fault {
        RslFault::NoMemory => Err(PrintFault::NoMemory),
        _ => Ok(Bad::Rsl(fault)),
    }
}

/// Prints what is asked for of a message on A behind its fields.
fn print_bssmap_more<A: Allocator, W: Write>(
    detail: Detail,
    message: &Bssmap<A>,
    octets: &[u8],
    out: &mut W,
) -> io::Result<()> {
    match detail {
        Detail::Fields => Ok(()),
        Detail::All => print_a_unused(message, octets, out),
    }
}

/// Prints a message on A, or why the octets are none.
fn print_bssmap<A: Allocator + Copy, W: Write>(
    alloc: A,
    detail: Detail,
    octets: &[u8],
    out: &mut W,
) -> Result<Option<Bad>, PrintFault>
    ensures message { result ≡ Ok None → IsBssmapMessage A octets.now }
    ensures refused { IfOk result (λ fault. IsSome fault → IsBssmapMessage A octets.now → ⊥) }
    ensures memory { result ≡ Err PrintFault.NoMemory → IsBssmapMessage A octets.now }
{
    match bssmap_messages::decode(alloc, octets) {
        Ok(message) => {
            write!(out, "{}", BssmapText(&message))?;
            print_bssmap_more(detail, &message, octets, out)?;
            Ok(None)
        }
        Err(fault) => refuse(bssmap_fault(fault)?, out),
    }
}

/// Prints what is asked for of a message on Abis behind its fields.
fn print_abis_more<A: Allocator, W: Write>(
    detail: Detail,
    message: &Rsl<A>,
    octets: &[u8],
    out: &mut W,
) -> Result<(), PrintFault> {
    match detail {
        Detail::Fields => Ok(()),
        Detail::All => {
            print_abis_unused(message, octets, out)?;
            if let Some(layer3) = layer3_of(message) {
                write!(out, " | ")?;
                print_rr(detail, layer3, out)?;
            }
            Ok(())
        }
    }
}

/// Prints a message on Abis, or why the octets are none.
fn print_abis<A: Allocator + Copy, W: Write>(
    alloc: A,
    detail: Detail,
    octets: &[u8],
    out: &mut W,
) -> Result<Option<Bad>, PrintFault>
    ensures message { result ≡ Ok None → IsAbisMessage A octets.now }
    ensures refused { IfOk result (λ fault. IsSome fault → IsAbisMessage A octets.now → ⊥) }
    ensures memory { result ≡ Err PrintFault.NoMemory → IsAbisMessage A octets.now }
{
    match rsl_messages::decode(alloc, octets) {
        Ok(message) => {
            write!(out, "{}", AbisText(&message))?;
            print_abis_more(detail, &message, octets, out)?;
            Ok(None)
        }
        Err(fault) => refuse(abis_fault(fault)?, out),
    }
}

/// Prints a message of a link in words, or why the octets are none (`fault`, the link, and the number of the fault with
/// its argument), without a line feed; answers why they are none, if so.
///
/// With [`Detail::All`] there follow the elements that the message doesn't use, each as `unused=IDENTIFIER/VALUE` in
/// hexadecimal ([`print_abis_unused`], [`print_a_unused`]), of a radio resource message what stands behind its mandatory
/// part as `rest=OCTETS` ([`print_rr_rest`]), and of a message on Abis with a layer 3 message (TS 48.058 clause 9.3.11)
/// ` | ` and that as a radio resource message, or its fault. Octets that are a message are one whatever stands inside.
///
/// `NoMemory` is answered only to octets that are a message, and that are some.
pub fn print_or_fault<A: Allocator + Copy, W: Write>(
    alloc: A,
    link: LinkName,
    detail: Detail,
    octets: &[u8],
    out: &mut W,
) -> Result<Option<Bad>, PrintFault>
    ensures message { result ≡ Ok None → IsMessage A link octets.now }
    ensures refused { IfOk result (λ fault. IsSome fault → IsMessage A link octets.now → ⊥) }
    ensures memory { result ≡ Err PrintFault.NoMemory → IsMessage A link octets.now }
    ensures some { result ≡ Err PrintFault.NoMemory → octets.now ≢ [] }
{
    match link {
        LinkName::Rr => print_rr(detail, octets, out),
        LinkName::A => print_bssmap(alloc, detail, octets, out),
        LinkName::Abis => print_abis(alloc, detail, octets, out),
    }
}

/// Prints a message; whether the octets are a message of the link.
pub fn print_message<A: Allocator + Copy, W: Write>(
    alloc: A,
    link: LinkName,
    detail: Detail,
    octets: &[u8],
    out: &mut W,
) -> Result<bool, PrintFault>
    ensures message { result ≡ Ok true → IsMessage A link octets.now }
    ensures refused { result ≡ Ok false → IsMessage A link octets.now → ⊥ }
    ensures memory { result ≡ Err PrintFault.NoMemory → IsMessage A link octets.now }
    ensures some { result ≡ Err PrintFault.NoMemory → octets.now ≢ [] }
{
    match print_or_fault(alloc, link, detail, octets, out) {
        Ok(None) => Ok(true),
        Ok(Some(_)) => Ok(false),
        Err(fault) => Err(fault),
    }
}
