//! Cases on messages between the mobile and the network (TS 44.018).
use crate::fault::Fault;
use crate::repeated::{Reader, Written, write_alternately};
use crate::varying::{Varying, octets_sum};
use rr_elements::MeasResults;
use rr_messages::{Rr, decode, encode_into};
use std::alloc::Global;

/// The fields of a HANDOVER COMMAND, added up: the target cell's carrier, its network and base station colour codes,
/// the channel's timeslot, training sequence and carrier, the handover reference and the power level.
fn command_sum(message: &Rr) -> Result<u64, Fault> {
    match message {
        Rr::HandoverCommand {
            reference,
            power,
            cell,
            channel,
        } => {
            let carriers = u64::from(cell.arfcn()) + u64::from(channel.carrier());
            let colours = u64::from(cell.ncc()) + u64::from(cell.bcc());
            let slot = u64::from(channel.tn()) + u64::from(channel.tsc());
            let access = u64::from(*reference) + u64::from(power.level());
            Ok(carriers + colours + slot + access)
        }
        Rr::HandoverComplete(_)
        | Rr::HandoverFailure(_)
        | Rr::ChannelRelease(_)
        | Rr::PhysicalInformation(_)
        | Rr::MeasurementReport(_) => Err(Fault::Words),
    }
}

/// Every HANDOVER COMMAND.
#[derive(Clone, Copy)]
pub struct Commands;

impl Reader for Commands {
    fn read(&self, _alloc: Global, octets: &[u8]) -> Result<u64, Fault> {
        command_sum(&decode(octets)?)
    }
}

impl Written for Rr {
    fn write(&self, out: &mut Vec<u8>) -> Result<u64, Fault> {
        out.clear();
        encode_into(self, out)?;
        Ok(octets_sum(out.as_slice()))
    }
}

/// The HANDOVER COMMAND of an iteration.
fn command_at(octets: &mut Varying, iteration: u64) -> Result<Rr, Fault> {
    let message = decode(octets.at(iteration))?;
    command_sum(&message)?;
    Ok(message)
}

/// Writes a HANDOVER COMMAND in each iteration: that of iteration 0 and that of iteration 1 alternately. The sum is that of the
/// octets that were written.
pub fn encode_commands(alloc: Global, octets: &mut Varying, count: u64) -> Result<u64, Fault> {
    let even = command_at(octets, 0)?;
    let odd = command_at(octets, 1)?;
    write_alternately(&even, &odd, alloc, count)
}

/// The measurement results of the octets of a MEASUREMENT REPORT.
pub fn read_results(octets: &[u8]) -> Result<MeasResults, Fault> {
    match decode(octets)? {
        Rr::MeasurementReport(results) => Ok(results),
        Rr::HandoverCommand { .. }
        | Rr::HandoverComplete(_)
        | Rr::HandoverFailure(_)
        | Rr::ChannelRelease(_)
        | Rr::PhysicalInformation(_) => Err(Fault::Words),
    }
}

/// Measurement results, added up: the serving cell's two levels and two qualities, the number of neighbours, and
/// the level, position and code of each. Flags are left out.
pub fn results_sum(results: &MeasResults) -> u64 {
    let head = results.head();
    let levels = u64::from(head.full) + u64::from(head.sub);
    let qualities = u64::from(head.qfull) + u64::from(head.qsub);
    let serving = levels + qualities + u64::from(head.count);
    let mut sum = serving;
    for neighbour in results.neighbours() {
        let code = u64::from(neighbour.position) + u64::from(neighbour.bsic);
        sum = sum.wrapping_add(u64::from(neighbour.level) + code);
    }
    sum
}
