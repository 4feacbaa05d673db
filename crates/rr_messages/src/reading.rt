//! Octets as messages.
ghost use Rattle.std.specs.Prelude.{◌≡◌, ◌∷◌, ◌<◌, ◌≤◌, IfOk, IfErr, length, take};
ghost use Rattle.rr_elements.specs.MeasResults.{IsResultsText};
ghost use Rattle.rr_elements.specs.RrCause.{IsCauseText};
ghost use Rattle.rr_messages.specs.Kind.{type_of, part_len};
ghost use Rattle.rr_messages.specs.Rr.{IsRrText, HasRrFault, radio_resources};
ghost use Rattle.rr_messages.specs.declared.kind.MessageType.TheVariants.{HandoverCommand as CommandKind};

use crate::fault::RrFault;
use crate::kind::MessageType;
use crate::message::Rr;
use rr_elements::{CellDescription, ChanDescription, MeasResults, Power, RrCause};

/// The discriminator of radio resource messages.
pub(crate) const RADIO_RESOURCES: u8 = 6;

// The mandatory part, with which what follows the type begins.
fn part(kind: MessageType, body: &[u8]) -> Result<&[u8], RrFault>
    ensures part { IfOk result (λ part. part.now ≡ take (part_len kind) body.now) }
    ensures long { IfOk result (λ _. part_len kind ≤ length body.now) }
    ensures fault { IfErr result (λ f. (f ≡ RrFault.Short) × (length body.now < part_len kind)) }
{
    let len = kind.part_len();
    if body.len() < len {
        return Err(RrFault::Short);
    }
    Ok(&body[..len])
}

// The cause that is the mandatory part of a message of this type.
fn cause(kind: MessageType, body: &[u8]) -> Result<RrCause, RrFault>
    requires { part_len kind ≡ 1 }
    ensures part { IfOk result (λ v. IsCauseText v (take 1 body.now)) }
    ensures long { IfOk result (λ _. 1 ≤ length body.now) }
    ensures fault { IfErr result (λ f. (f ≡ RrFault.Short) × (length body.now < 1)) }
{
    Ok(RrCause::decode(part(kind, body)?)?)
}

fn command(body: &[u8]) -> Result<Rr, RrFault>
    ensures text { IfOk result
        (λ v. IsRrText v (radio_resources ∷ type_of CommandKind ∷ body.now)) }
    ensures fault { IfErr result (HasRrFault (radio_resources ∷ type_of CommandKind ∷ body.now)) }
{
    let part = part(MessageType::HandoverCommand, body)?;
    let [cell1, cell2, chan1, chan2, chan3, reference, power] = part else {
        return Err(RrFault::Short);
    };
    let cell = CellDescription::decode(&[*cell1, *cell2])?;
    let channel = ChanDescription::decode(&[*chan1, *chan2, *chan3])?;
    let power = Power::decode(&[*power])?;
    Ok(Rr::HandoverCommand {
        cell,
        channel,
        reference: *reference,
        power,
    })
}

// The results that are the mandatory part of a report. It isn't inlined: else the fields of each message are moved as
// if it had those of results too.
#[inline(never)]
fn results(body: &[u8]) -> Result<MeasResults, RrFault>
    ensures part { IfOk result (λ v. IsResultsText v (take 16 body.now)) }
    ensures long { IfOk result (λ _. 16 ≤ length body.now) }
    ensures fault { IfErr result (λ f. (f ≡ RrFault.Short) × (length body.now < 16)) }
{
    Ok(MeasResults::decode(part(MessageType::MeasurementReport, body)?)?)
}

// The message of this type. Each mandatory part is cut where its type is known, so that its length is too.
fn message(kind: MessageType, body: &[u8]) -> Result<Rr, RrFault>
    ensures text { IfOk result (λ v. IsRrText v (radio_resources ∷ type_of kind ∷ body.now)) }
    ensures fault { IfErr result (HasRrFault (radio_resources ∷ type_of kind ∷ body.now)) }
{
    match kind {
        MessageType::ChannelRelease => Ok(Rr::ChannelRelease(cause(kind, body)?)),
        MessageType::MeasurementReport => Ok(Rr::MeasurementReport(results(body)?)),
        MessageType::HandoverFailure => Ok(Rr::HandoverFailure(cause(kind, body)?)),
        MessageType::HandoverCommand => command(body),
        MessageType::HandoverComplete => Ok(Rr::HandoverComplete(cause(kind, body)?)),
        MessageType::PhysicalInformation => {
            let [advance] = part(kind, body)? else {
                return Err(RrFault::Short);
            };
            Ok(Rr::PhysicalInformation(*advance))
        }
    }
}

// The type of a message, and what follows it.
fn head(octets: &[u8]) -> Result<(MessageType, &[u8]), RrFault>
    ensures ok { IfOk result (λ x. octets.now ≡ radio_resources ∷ type_of x.0 ∷ x.1.now) }
    ensures fault { IfErr result (HasRrFault octets.now) }
{
    let (discriminator, octets) = octets.split_first().ok_or(RrFault::NotRr)?;
    if *discriminator != RADIO_RESOURCES {
        return Err(RrFault::NotRr);
    }
    let (octet, body) = octets.split_first().ok_or(RrFault::Short)?;
    let kind = MessageType::at(*octet).ok_or(RrFault::UnknownType(*octet))?;
    Ok((kind, body))
}

/// Reads a message, whatever stands behind its mandatory part. What is no message gets the first of these faults:
/// `NotRr`; `Short`, where the type is missing; `UnknownType`; `Short`, where the part is cut; `Element`.
pub fn decode(octets: &[u8]) -> Result<Rr, RrFault>
    // What is read has the octets as a text, and what is no text has this fault: `NoMemory` is none.
    ensures text { IfOk result (λ v. IsRrText v octets.now) }
    ensures fault { IfErr result (HasRrFault octets.now) }
{
    let (kind, body) = head(octets)?;
    message(kind, body)
}
