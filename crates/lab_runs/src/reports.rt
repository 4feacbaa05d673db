//! The measurement results that a station passes on from a mobile.
ghost use Rattle.std.specs.Prelude.{◌≡◌, ◌↔◌, ◌<◌, ◌≤◌, ◌+◌, ◌++◌, length, Ok, IfOk, OnOk};
ghost use Rattle.rr_elements.specs.declared.measurement.Ncell.{Ncell};
ghost use Rattle.rr_elements.specs.MeasResults.{Results};
ghost use Rattle.lab_runs.specs.Asked as said;

use crate::asked::Met;
use cell_table::Site;
use channel_fsm::ChanId;
use exchange::Inbound;
use lab_script::asked::{Heard, Report};
use rr_elements::{MeasHead, MeasResults, Ncell};
use rr_messages::Rr;
use rsl_messages::{ChanBits, Octets, Rsl};
use run_listeners::Unmet;
use std::alloc::{AllocError, Allocator};

/// How a message names a channel.
pub(crate) fn bits_of(chan: ChanId) -> ChanBits
    ensures { result ≡ record { tn = chan.tn; sub = chan.sub } }
{
    ChanBits {
        tn: chan.tn,
        sub: chan.sub,
    }
}

/// Octets that come from a channel's TRX.
pub(crate) fn from_station<A: Allocator>(chan: ChanId, octets: Vec<u8, A>) -> Inbound<A>
    ensures { result ≡ said.from_station chan octets.items }
{
    Inbound::Abis {
        cell: chan.cell,
        trx: chan.trx,
        bytes: Octets::from_vec(octets),
    }
}

/// The octets in the element of information on layer 1, and behind them the one of layer 3 (TS 48.058 clauses 9.3.10 and
/// 9.3.11).
const LAYER_1: u8 = 0x0A;

const LAYER_3: u8 = 0x0B;

/// What a mobile in a cell measures of a neighbour.
fn measured<A: Allocator + Copy>(site: &Site<A>, cell: u8, heard: Heard) -> Result<Ncell, Unmet>
    ensures heard { (n : Ncell) → (result ≡ Ok n) ↔ said.IsHeard site.now cell heard n }
{
    match site.reported_as(cell, heard.cell) {
        Some((position, bsic)) => Ok(Ncell {
            level: heard.level,
            position,
            bsic,
        }),
        None => Err(Unmet::NoNeighbour {
            cell,
            neighbour: heard.cell,
        }),
    }
}

/// Appends what it measures of all that it hears.
fn add_measured<A: Allocator + Copy>(
    site: &Site<A>,
    cell: u8,
    heard: &[Option<Heard>],
    neighbours: &mut Vec<Ncell, A>,
) -> Met<()>
    ensures measured { IfOk result (λ found. said.Measures site.now cell heard.now
        neighbours.old.items found neighbours.new.items) }
    ensures few { length neighbours.new.items ≤ length neighbours.old.items + length heard.now }
{
    match heard {
        [] => Ok(Ok(())),
        [None, rest @ ..] => add_measured(site, cell, rest, neighbours),
        [Some(first), rest @ ..] => match measured(site, cell, *first) {
            Ok(neighbour) => {
                neighbours.push(neighbour)?;
                add_measured(site, cell, rest, neighbours)
            }
            Err(unmet) => Ok(Err(unmet)),
        },
    }
}

/// The fields of a report before its neighbours, of which there are so many.
fn head_of(report: &Report, neighbours: u8) -> MeasHead
    ensures { result ≡ said.head_of report.now neighbours }
{
    MeasHead {
        ba: false,
        dtx: report.dtx,
        full: report.full,
        ba3g: false,
        valid: true,
        sub: report.sub,
        si23: false,
        qfull: report.qfull,
        qsub: report.qsub,
        count: neighbours,
    }
}

/// What a station measures of a mobile that measures this: the same (TS 48.058 clause 9.3.25).
fn uplink_of<A: Allocator + Copy>(alloc: A, results: &MeasResults) -> Result<Octets<A>, AllocError>
    ensures { IfOk result (λ octets. octets ≡ said.uplink_of results.now) }
{
    let head = results.head();
    Octets::new(alloc, &[head.full, head.sub, 8 * head.qfull + head.qsub])
}

/// MEASUREMENT RESULT about a channel without what the mobile reports (TS 48.058 clause 8.4.8).
fn result_of<A: Allocator + Copy>(
    alloc: A,
    chan: ChanId,
    power: u8,
    results: &MeasResults,
) -> Result<Vec<u8, A>, AllocError>
    requires { chan.tn < 8 }
    ensures { IfOk result (λ octets. octets.items ≡ said.result_of chan power results.now) }
{
    let message = Rsl::MeasurementResult {
        channel: bits_of(chan),
        number: 0,
        uplink: uplink_of(alloc, results)?,
        power,
        layer3: None,
    };
    rsl_messages::encode(alloc, &message)
}

/// Appends the timing advance, where the station tells it.
fn add_timing<A: Allocator + Copy>(
    octets: &mut Vec<u8, A>,
    ta: Option<u8>,
) -> Result<(), AllocError>
    ensures { OnOk result (octets.new.items ≡ octets.old.items ++ said.timing_of ta) }
{
    match ta {
        Some(ta) => octets.extend_from_slice(&[LAYER_1, 0, ta]),
        None => Ok(()),
    }
}

/// MEASUREMENT RESULT about a channel whose mobile measured this.
fn reported<A: Allocator + Copy>(
    alloc: A,
    chan: ChanId,
    report: &Report,
    results: MeasResults,
) -> Result<Inbound<A>, AllocError>
    requires { chan.tn < 8 }
    ensures { IfOk result (λ input. input ≡ said.reported chan report.now results) }
{
    let layer3 = rr_messages::encode(alloc, &Rr::MeasurementReport(results))?;
    let mut octets = result_of(alloc, chan, report.power, &results)?;
    add_timing(&mut octets, report.ta)?;
    octets.extend_from_slice(&[LAYER_3, 0, 18])?;
    octets.extend_from_slice(&layer3)?;
    Ok(from_station(chan, octets))
}

/// What the station of a channel passes on of a mobile there.
pub(crate) fn report_on<A: Allocator + Copy>(
    alloc: A,
    site: &Site<A>,
    chan: ChanId,
    report: &Report,
) -> Met<Inbound<A>>
    requires { chan.tn < 8 }
    ensures { IfOk result (said.IsReported site.now chan report.now) }
{
    let mut neighbours = Vec::new(alloc);
    if let Err(unmet) = add_measured(site, chan.cell, &report.heard, &mut neighbours)? {
        return Ok(Err(unmet));
    }
    match MeasResults::new(head_of(report, neighbours.len() as u8), &neighbours) {
        Ok(results) => Ok(Ok(reported(alloc, chan, report, results)?)),
        Err(_) => Ok(Err(Unmet::NoReport)),
    }
}
