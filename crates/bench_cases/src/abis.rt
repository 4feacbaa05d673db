//! Cases on messages of Abis (TS 48.058).
ghost use Rattle.std.specs.Prelude.{IfOk};
ghost use Rattle.rsl_messages.specs.Texts.{HasCanonical};

use crate::fault::Fault;
use crate::repeated::{Reader, Written, write_alternately};
use crate::varying::{Varying, octets_sum};
use rsl_messages::{Rsl, decode, encode_into, fits};
use std::alloc::Global;

/// The timeslot, the activation type, each octet of the mode and the reference of a CHANNEL ACTIVATION, added up.
fn activation_sum(message: &Rsl) -> Result<u64, Fault> {
    match message {
        Rsl::ChannelActivation {
            channel,
            activation,
            mode,
            reference,
        } => Ok(
            u64::from(channel.tn)
                .wrapping_add(u64::from(*activation))
                .wrapping_add(octets_sum(mode.as_slice()))
                .wrapping_add(u64::from(reference.unwrap_or(0))),
        ),
        Rsl::DataRequest { .. }
        | Rsl::DataIndication { .. }
        | Rsl::ChannelActivationAck { .. }
        | Rsl::ChannelActivationNack { .. }
        | Rsl::ConnectionFailureIndication { .. }
        | Rsl::HandoverDetection { .. }
        | Rsl::MeasurementResult { .. }
        | Rsl::RfChannelRelease { .. }
        | Rsl::RfChannelReleaseAck { .. } => Err(Fault::Words),
    }
}

/// Every CHANNEL ACTIVATION.
#[derive(Clone, Copy)]
pub struct Activations;

impl Reader for Activations {
    fn read(&self, alloc: Global, octets: &[u8]) -> Result<u64, Fault> {
        let message = decode(alloc, octets)?;
        // past the `?` the compiler knows which message it drops
        let sum = activation_sum(&message)?;
        Ok(sum)
    }
}

impl Written for Rsl {
    ghost has_text = { λ message. HasCanonical message };

    fn write(&self, out: &mut Vec<u8>) -> Result<u64, Fault> {
        out.clear();
        encode_into(self, out)?;
        Ok(octets_sum(out.as_slice()))
    }
}

/// The message of an iteration, which has a text.
pub fn message_at(alloc: Global, octets: &mut Varying, iteration: u64) -> Result<Rsl, Fault>
    ensures { IfOk result (λ message. HasCanonical message) }
{
    let message = decode(alloc, octets.at(iteration))?;
    if fits(&message) {
        return Ok(message);
    }
    Err(Fault::Words)
}

/// The CHANNEL ACTIVATION of an iteration, which has a text.
fn activation_at(alloc: Global, octets: &mut Varying, iteration: u64) -> Result<Rsl, Fault>
    ensures { IfOk result (λ message. HasCanonical message) }
{
    let message = message_at(alloc, octets, iteration)?;
    activation_sum(&message)?;
    Ok(message)
}

/// Writes the message of iteration 0 and that of iteration 1 alternately.
fn encode_with(alloc: Global, even: &Rsl, octets: &mut Varying, count: u64) -> Result<u64, Fault>
    requires { HasCanonical even.now }
{
    let odd = activation_at(alloc, octets, 1)?;
    write_alternately(even, &odd, alloc, count)
}

/// Writes a CHANNEL ACTIVATION in each iteration: that of iteration 0 and that of iteration 1 alternately. The sum is
/// that of the octets that were written.
pub fn encode_activations(alloc: Global, octets: &mut Varying, count: u64) -> Result<u64, Fault> {
    let even = activation_at(alloc, octets, 0)?;
    encode_with(alloc, &even, octets, count)
}
