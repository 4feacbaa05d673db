//! One message in octets, from its name and its fields.
//!
//! No clause says which octets are printed: tests show it. `encoded_messages` says which octets a text stands for.
ghost use Rattle.std.specs.Prelude.{◌≡◌, ◌≢◌, Ok, OnOk, IfErr};
ghost use Rattle.lab.specs.Encoded.{CanBeWritten};

use crate::decoded::LinkName;
use encoded_messages::{FieldFault, MessageFault, encode_a, encode_abis, encode_rr};
use lab_runs::run::Status;
use run_listeners::LabFault;
use std::alloc::Allocator;
use std::fmt;
use std::io::Write;

/// The octets of the message that a text says.
fn octets<A: Allocator + Copy>(
    alloc: A,
    link: LinkName,
    text: &str,
) -> Result<Vec<u8, A>, MessageFault<'_>>
    ensures written { OnOk result (CanBeWritten A link text.now) }
    ensures fault { IfErr result (λ fault. fault ≢ MessageFault.NoMemory →
        CanBeWritten A link text.now → ⊥) }
{
    match link {
        LinkName::Rr => encode_rr(alloc, text),
        LinkName::A => encode_a(alloc, text),
        LinkName::Abis => encode_abis(alloc, text),
    }
}

/// Why a text says no message of a link that can be written. Behind a name that is no message, a word that is no field and
/// a field that is missing it says where messages and fields are listed.
#[derive(Clone, Copy)]
struct EncodeReason<'a> {
    link: LinkName,
    fault: MessageFault<'a>,
}

impl fmt::Display for EncodeReason<'_> {
    fn fmt<W: fmt::Write>(&self, f: &mut fmt::Formatter<W>) -> fmt::Result {
        let fault = self.fault;
        match fault {
            MessageFault::Name(_) => {
                let link = self.link;
                write!(
                    f,
                    "{fault} {link}: write a name and then fields as KEY=VALUE; bsc_lab help encode lists both"
                )
            }
            MessageFault::Field(FieldFault::Unknown(_) | FieldFault::Missing(_)) => {
                write!(f, "{fault}: bsc_lab help encode lists the fields")
            }
            MessageFault::Field(
                FieldFault::Twice(_) | FieldFault::Value { .. } | FieldFault::NoMemory,
            )
            | MessageFault::NoLayer3(_)
            | MessageFault::Layer3(_)
            | MessageFault::Neighbours { .. }
            | MessageFault::TooLong
            | MessageFault::NoMemory => write!(f, "{fault}"),
        }
    }
}

/// Prints the octets of a message in words, in hexadecimal on one line. The text is one that
/// [`decode_run`](crate::decoded::decode_run) prints, with its fields in any order. If it is no message of the link, or the
/// message has no canonical text, nothing is printed, one line on `errors` says why, and the answer is `Refused`; else it is
/// `Done`. `NoMemory`: memory was refused, and nothing is printed. `Write`: `out` or `errors` can't be written to.
pub fn encode_run<A: Allocator + Copy, W: Write, E: Write>(
    alloc: A,
    link: LinkName,
    text: &str,
    out: &mut W,
    errors: &mut E,
) -> Result<Status, LabFault>
    ensures done { result ≡ Ok Status.Done → CanBeWritten A link text.now }
    ensures differs { result ≢ Ok Status.Differs }
    ensures refused { result ≡ Ok Status.Refused → CanBeWritten A link text.now → ⊥ }
{
    match octets(alloc, link, text) {
        Ok(octets) => {
            let line = hex::encode(alloc, octets.as_slice()).map_err(|_| LabFault::NoMemory)?;
            writeln!(out, "{line}")?;
            Ok(Status::Done)
        }
        Err(MessageFault::NoMemory) => Err(LabFault::NoMemory),
        Err(fault) => {
            writeln!(errors, "{}", EncodeReason { link, fault })?;
            Ok(Status::Refused)
        }
    }
}
