//! Cases on messages of A (TS 48.008).
ghost use Rattle.std.specs.Prelude.{IfOk};
ghost use Rattle.bssmap_messages.specs.Texts.{HasCanonical};

use crate::fault::Fault;
use crate::repeated::{Reader, Written, write_alternately};
use crate::varying::{Varying, octets_sum};
use bssmap_messages::{Bssmap, CellId, Classmark, decode, encode_into, fits};
use std::alloc::Global;

/// The message that a case is on.
#[derive(Clone, Copy)]
pub enum Subject {
    /// HANDOVER REQUEST (clause 3.2.1.8).
    Request,
    /// HANDOVER REQUIRED (clause 3.2.1.9).
    Required,
}

/// Location area code, where there is one, and cell identity, added up.
fn cell_sum(cell: CellId) -> u64 {
    u64::from(cell.lac.unwrap_or(0)) + u64::from(cell.ci)
}

fn cells_sum(cells: &[CellId]) -> u64 {
    let mut sum = 0u64;
    for cell in cells {
        sum = sum.wrapping_add(cell_sum(*cell));
    }
    sum
}

fn classmark_sum(classmark: &Classmark) -> u64 {
    match classmark {
        Classmark::One(octet) => u64::from(*octet),
        Classmark::Two(octets) => octets_sum(octets.as_slice()),
    }
}

/// The fields of a HANDOVER REQUEST, added up: each octet of an octet list, location area code and cell identity of each cell.
fn request_sum(message: &Bssmap) -> Result<u64, Fault> {
    match message {
        Bssmap::HandoverRequest {
            classmark,
            channel,
            encryption,
            serving,
            target,
        } => Ok(
            octets_sum(channel.as_slice())
                .wrapping_add(octets_sum(encryption.as_slice()))
                .wrapping_add(classmark_sum(classmark))
                .wrapping_add(cell_sum(*serving))
                .wrapping_add(cell_sum(*target)),
        ),
        Bssmap::HandoverRequired { .. }
        | Bssmap::HandoverRequestAck { .. }
        | Bssmap::HandoverCommand { .. }
        | Bssmap::HandoverComplete { .. }
        | Bssmap::HandoverFailure { .. }
        | Bssmap::HandoverPerformed { .. }
        | Bssmap::HandoverRequiredReject { .. }
        | Bssmap::HandoverDetect
        | Bssmap::ClearCommand { .. }
        | Bssmap::ClearComplete
        | Bssmap::ClearRequest { .. } => Err(Fault::Words),
    }
}

/// What the fields of a HANDOVER REQUIRED add up to, with 1 where a response is requested.
fn required_sum(message: &Bssmap) -> Result<u64, Fault> {
    match message {
        Bssmap::HandoverRequired {
            cause,
            response,
            cells,
        } => Ok(
            cells_sum(cells.as_slice())
                .wrapping_add(u64::from(*cause))
                .wrapping_add(u64::from(*response)),
        ),
        Bssmap::HandoverRequest { .. }
        | Bssmap::HandoverRequestAck { .. }
        | Bssmap::HandoverCommand { .. }
        | Bssmap::HandoverComplete { .. }
        | Bssmap::HandoverFailure { .. }
        | Bssmap::HandoverPerformed { .. }
        | Bssmap::HandoverRequiredReject { .. }
        | Bssmap::HandoverDetect
        | Bssmap::ClearCommand { .. }
        | Bssmap::ClearComplete
        | Bssmap::ClearRequest { .. } => Err(Fault::Words),
    }
}

/// The fields of the message that the case is on, added up.
fn fields_sum(subject: Subject, message: &Bssmap) -> Result<u64, Fault> {
    match subject {
        Subject::Request => request_sum(message),
        Subject::Required => required_sum(message),
    }
}

impl Reader for Subject {
    fn read(&self, alloc: Global, octets: &[u8]) -> Result<u64, Fault> {
        let message = decode(alloc, octets)?;
        // past the `?` the compiler knows which message it drops
        let sum = fields_sum(*self, &message)?;
        Ok(sum)
    }
}

impl Written for Bssmap {
    ghost has_text = { λ message. HasCanonical message };

    fn write(&self, out: &mut Vec<u8>) -> Result<u64, Fault> {
        out.clear();
        encode_into(self, out)?;
        Ok(octets_sum(out.as_slice()))
    }
}

/// The message of an iteration that the case is on, which has a text.
fn message_at(
    alloc: Global,
    subject: Subject,
    octets: &mut Varying,
    iteration: u64,
) -> Result<Bssmap, Fault>
    ensures { IfOk result (λ message. HasCanonical message) }
{
    let message = decode(alloc, octets.at(iteration))?;
    fields_sum(subject, &message)?;
    if fits(&message) {
        return Ok(message);
    }
    Err(Fault::Words)
}

/// Writes the message of iteration 0 and that of iteration 1 alternately.
fn encode_with(
    alloc: Global,
    subject: Subject,
    even: &Bssmap,
    octets: &mut Varying,
    count: u64,
) -> Result<u64, Fault>
    requires { HasCanonical even.now }
{
    let odd = message_at(alloc, subject, octets, 1)?;
    write_alternately(even, &odd, alloc, count)
}

/// Writes a message in each iteration: that of iteration 0 and that of iteration 1 alternately. The sum is that of the
/// octets that were written.
pub fn encode_messages(
    alloc: Global,
    subject: Subject,
    octets: &mut Varying,
    count: u64,
) -> Result<u64, Fault> {
    let even = message_at(alloc, subject, octets, 0)?;
    encode_with(alloc, subject, &even, octets, count)
}
