//! Cases on a MEASUREMENT RESULT of Abis (TS 48.058 clause 8.4.8) with the MEASUREMENT REPORT in it (TS 44.018 clause
//! 9.1.21).
ghost use Rattle.rsl_messages.specs.Texts.{HasCanonical};

use crate::abis;
use crate::fault::Fault;
use crate::radio::{read_results, results_sum};
use crate::repeated::{Reader, Written, write_alternately};
use crate::varying::{Varying, octets_sum};
use rr_messages::Rr;
use rsl_messages::{Rsl, decode};
use std::alloc::Global;

/// The report in a MEASUREMENT RESULT.
fn report_of(message: &Rsl) -> Result<Rr, Fault> {
    match message {
        Rsl::MeasurementResult {
            layer3: Some(layer3),
            ..
        } => Ok(Rr::MeasurementReport(read_results(layer3.as_slice())?)),
        Rsl::MeasurementResult { layer3: None, .. }
        | Rsl::DataRequest { .. }
        | Rsl::DataIndication { .. }
        | Rsl::ChannelActivation { .. }
        | Rsl::ChannelActivationAck { .. }
        | Rsl::ChannelActivationNack { .. }
        | Rsl::ConnectionFailureIndication { .. }
        | Rsl::HandoverDetection { .. }
        | Rsl::RfChannelRelease { .. }
        | Rsl::RfChannelReleaseAck { .. } => Err(Fault::Words),
    }
}

/// The fields of a MEASUREMENT RESULT, added up: the timeslot, the number, each octet of the uplink measurements and
/// the power; then its report's results.
fn result_sum(message: &Rsl) -> Result<u64, Fault> {
    match message {
        Rsl::MeasurementResult {
            channel,
            number,
            uplink,
            power,
            layer3: Some(layer3),
        } => {
            let head = u64::from(channel.tn) + u64::from(*number) + u64::from(*power);
            let results = read_results(layer3.as_slice())?;
            Ok(
                octets_sum(uplink.as_slice())
                    .wrapping_add(head)
                    .wrapping_add(results_sum(&results)),
            )
        }
        Rsl::MeasurementResult { layer3: None, .. }
        | Rsl::DataRequest { .. }
        | Rsl::DataIndication { .. }
        | Rsl::ChannelActivation { .. }
        | Rsl::ChannelActivationAck { .. }
        | Rsl::ChannelActivationNack { .. }
        | Rsl::ConnectionFailureIndication { .. }
        | Rsl::HandoverDetection { .. }
        | Rsl::RfChannelRelease { .. }
        | Rsl::RfChannelReleaseAck { .. } => Err(Fault::Words),
    }
}

/// Every MEASUREMENT RESULT with its report.
#[derive(Clone, Copy)]
pub struct Measurements;

impl Reader for Measurements {
    fn read(&self, alloc: Global, octets: &[u8]) -> Result<u64, Fault> {
        let message = decode(alloc, octets)?;
        // past the `?` the compiler knows which message it drops
        let sum = result_sum(&message)?;
        Ok(sum)
    }
}

/// A report, and a message that carries one.
#[derive(Clone, Copy)]
struct Measured<'a> {
    report: &'a Rr,
    message: &'a Rsl,
}

impl Written for Measured<'_> {
    ghost has_text = { λ both. HasCanonical both.message.now };

    /// The sum is that of the octets of both.
    fn write(&self, out: &mut Vec<u8>) -> Result<u64, Fault> {
        let inner = self.report.write(out)?;
        let outer = self.message.write(out)?;
        Ok(inner.wrapping_add(outer))
    }
}

/// Writes the report of iteration 0 with its message and with that of iteration 1 alternately.
fn encode_with(alloc: Global, message: &Rsl, octets: &mut Varying, count: u64) -> Result<u64, Fault>
    requires { HasCanonical message.now }
{
    let report = &report_of(message)?;
    let other = &abis::message_at(alloc, octets, 1)?;
    let even = Measured { report, message };
    let odd = Measured {
        report,
        message: other,
    };
    write_alternately(&even, &odd, alloc, count)
}

/// Writes a report, that of iteration 0, and a MEASUREMENT RESULT in each iteration: that of iteration 0 and that of
/// iteration 1 alternately.
pub fn encode_measurements(alloc: Global, octets: &mut Varying, count: u64) -> Result<u64, Fault> {
    let even = abis::message_at(alloc, octets, 0)?;
    encode_with(alloc, &even, octets, count)
}
