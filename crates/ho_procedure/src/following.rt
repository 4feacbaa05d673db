//! Which row an input has, and that it is followed.
ghost use Rattle.std.specs.Prelude.{◌≡◌, ◌⊎◌, ℕ, List, [], Option, IfOk, IfErr, OnOk};
ghost use Rattle.rr_messages.specs.declared.message.Rr.{Rr};
ghost use Rattle.rsl_messages.specs.declared.message.Rsl.{Rsl};
ghost use Rattle.rsl_messages.specs.Messages.{HasOctets};
ghost use Rattle.rsl_messages.specs.Texts as abis;
ghost use Rattle.bssmap_messages.specs.declared.message.Bssmap.{Bssmap};
ghost use Rattle.bssmap_messages.specs.Messages.{KeepsList};
ghost use Rattle.bssmap_messages.specs.Texts as interface_a;
ghost use Rattle.ho_procedure.specs.Decoding.{IsAbis, IsUnreadableAbis, IsUnreadableA};
ghost use Rattle.exchange.specs.Naming.{chan_of};
ghost use Rattle.ho_procedure.specs.Procedure.{line_plan, abis_plan, a_plan, mobile_plan, measured_plan};
ghost use Rattle.ho_procedure.specs.Plan.{Plan, Ends, At};
ghost use Rattle.ho_procedure.specs.Going.{Goes, last_reports, stops_at};
ghost use Rattle.ho_procedure.specs.Handling.{IsRow, IsUndecoded, KeepsOctets};
ghost use Rattle.ho_procedure.specs.Following.{Stopped, IsStopFor, IsStopOf, CanBePassedOn};

use crate::decoding::{Unreadable, decode_a, decode_abis};
use crate::rows::calls::{clear, clear_command, open, seize};
use crate::rows::centre::{order, reject, request};
use crate::rows::handovers::{expire, handover, undo};
use crate::rows::mobiles::{complete, report, return_to};
use crate::rows::stations::{confirm, detect, fail, refuse, release};
use crate::view::DeskView;
use crate::work::Work;
use bssmap_messages::Bssmap;
use cell_table::Site;
use channel_fsm::ChanId;
use exchange::{Bad, Inbound, Line, Link, chan_of};
use radio_desk::desk::DeskFault;
use rr_messages::Rr;
use rsl_messages::Rsl;
use std::alloc::Allocator;
use thiserror::Error;

/// Why an input wasn't handled to its end.
#[derive(Clone, Copy, Debug, PartialEq, Eq, Error)]
pub enum Stop {
    /// The octets, or the text inside, can't be read. Nothing was asked of the view, and nothing is sent.
    #[error("the {0} can't be read: {1}")]
    Undecoded(Link, Bad),
    /// Memory was refused. What was asked so far stands, and the messages up to there are sent.
    #[error("memory was refused")]
    NoMemory,
    /// The view's last receipt, of this place (counted from 0), isn't from its desk's history. What was asked so far stands, and
    /// the messages up to there are sent.
    #[error("the receipt of place {0} is of another desk")]
    Desk(usize),
}

fn stop_of(fault: DeskFault) -> Stop
    ensures stop { IsStopFor fault result }
{
    match fault {
        DeskFault::NoMemory => Stop::NoMemory,
        DeskFault::Foreign(place) => Stop::Desk(place),
    }
}

fn unreadable_stop(unreadable: Unreadable) -> Stop
    ensures { IsStopOf unreadable result }
{
    match unreadable {
        Unreadable::Undecoded(link, bad) => Stop::Undecoded(link, bad),
        Unreadable::NoMemory => Stop::NoMemory,
    }
}

/// Follows the row of a line of the operator.
fn follow_line<D: DeskView + Drop, A: Allocator + Copy>(
    work: &mut Work<D, A>,
    site: &Site<A>,
    line: Line,
) -> Result<(), DeskFault>
    ensures row { OnOk result (Goes D.log D.says work.old
        (line_plan site.now line) work.new (At Ends)) }
    ensures stops { IfErr result (λ f. Goes D.log D.says work.old
        (line_plan site.now line) work.new (stops_at f)) }
{
    match line {
        Line::Open { call, chan } => open(work, call, chan),
        Line::Seize { call, cell, rate } => seize(work, call, cell, rate),
        Line::Handover { call, cell } => handover(work, site, call, cell),
        Line::Undo { call } => undo(work, call),
        Line::Clear { call } => clear(work, call),
    }
}

/// Follows the row of a message from a mobile on the main signalling channel.
#[tactic(auto, using(crate::proofs::Going::stays))]
fn follow_mobile<D: DeskView + Drop, A: Allocator + Copy>(
    work: &mut Work<D, A>,
    site: &Site<A>,
    chan: ChanId,
    inside: &Option<Rr>,
) -> Result<(), DeskFault>
    ensures row { OnOk result (Goes D.log D.says work.old
        (mobile_plan site.now chan inside.now) work.new (At Ends)) }
    ensures stops { IfErr result (λ f. Goes D.log D.says work.old
        (mobile_plan site.now chan inside.now) work.new (stops_at f)) }
{
    match inside {
        Some(Rr::HandoverComplete(cause)) => complete(work, site, chan, cause.0),
        Some(Rr::HandoverFailure(cause)) => return_to(work, chan, cause.0),
        Some(
            Rr::HandoverCommand { .. }
            | Rr::ChannelRelease(_)
            | Rr::PhysicalInformation(_)
            | Rr::MeasurementReport(_),
        )
        | None => Ok(()),
    }
}

/// Follows the row of what a mobile says in a measurement result.
#[tactic(auto, using(crate::proofs::Going::stays))]
fn follow_measured<D: DeskView + Drop, A: Allocator + Copy>(
    work: &mut Work<D, A>,
    site: &Site<A>,
    chan: ChanId,
    inside: &Option<Rr>,
) -> Result<(), DeskFault>
    requires { work.old.windows.width ≡ site.now.handover.window }
    ensures row { OnOk result (Goes D.log D.says work.old
        (measured_plan site.now (last_reports work.old.windows) chan inside.now)
        work.new (At Ends)) }
    ensures stops { IfErr result (λ f. Goes D.log D.says work.old
        (measured_plan site.now (last_reports work.old.windows) chan inside.now)
        work.new (stops_at f)) }
{
    match inside {
        Some(Rr::MeasurementReport(results)) => report(work, site, chan, results),
        Some(
            Rr::HandoverCommand { .. }
            | Rr::HandoverComplete(_)
            | Rr::HandoverFailure(_)
            | Rr::ChannelRelease(_)
            | Rr::PhysicalInformation(_),
        )
        | None => Ok(()),
    }
}

/// Follows the row of a message on Abis about a channel, with the radio resource message inside.
#[tactic(auto, using(crate::proofs::Going::stays))]
fn follow_abis<D: DeskView + Drop, A: Allocator + Copy>(
    work: &mut Work<D, A>,
    site: &Site<A>,
    chan: ChanId,
    message: &Rsl<A>,
    inside: &Option<Rr>,
) -> Result<(), DeskFault>
    requires { work.old.windows.width ≡ site.now.handover.window }
    ensures row { OnOk result (Goes D.log D.says work.old
        (abis_plan site.now (last_reports work.old.windows) chan message.now inside.now)
        work.new (At Ends)) }
    ensures stops { IfErr result (λ f. Goes D.log D.says work.old
        (abis_plan site.now (last_reports work.old.windows) chan message.now inside.now)
        work.new (stops_at f)) }
{
    match message {
        Rsl::ChannelActivationAck { .. } => confirm(work, site, chan),
        Rsl::ChannelActivationNack { .. } => refuse(work, chan),
        Rsl::RfChannelReleaseAck { .. } => release(work, chan),
        Rsl::ConnectionFailureIndication { .. } => fail(work, chan),
        Rsl::HandoverDetection { .. } => detect(work, chan),
        Rsl::MeasurementResult { .. } => follow_measured(work, site, chan, inside),
        Rsl::DataIndication { .. } => follow_mobile(work, site, chan, inside),
        Rsl::DataRequest { .. } | Rsl::ChannelActivation { .. } | Rsl::RfChannelRelease { .. } => {
            Ok(())
        }
    }
}

/// Follows the row of a message on A about a call.
#[tactic(auto, using(crate::proofs::Going::stays))]
fn follow_a<D: DeskView + Drop, A: Allocator + Copy>(
    work: &mut Work<D, A>,
    site: &Site<A>,
    call: u16,
    message: &Bssmap<A>,
) -> Result<(), DeskFault>
    requires { CanBePassedOn message.now }
    ensures row { OnOk result (Goes D.log D.says work.old
        (a_plan site.now call message.now) work.new (At Ends)) }
    ensures stops { IfErr result (λ f. Goes D.log D.says work.old
        (a_plan site.now call message.now) work.new (stops_at f)) }
{
    match message {
        Bssmap::ClearCommand { cause } => clear_command(work, call, *cause),
        Bssmap::HandoverRequest {
            channel,
            encryption,
            target,
            ..
        } => {
            let channel = channel.as_slice();
            request(work, site, call, channel, encryption.as_slice(), *target)
        }
        Bssmap::HandoverCommand { layer3 } => order(work, call, layer3.as_slice()),
        Bssmap::HandoverRequiredReject { .. } => reject(work, call),
        Bssmap::HandoverRequired { .. }
        | Bssmap::HandoverRequestAck { .. }
        | Bssmap::HandoverComplete { .. }
        | Bssmap::HandoverFailure { .. }
        | Bssmap::HandoverPerformed { .. }
        | Bssmap::HandoverDetect
        | Bssmap::ClearComplete
        | Bssmap::ClearRequest { .. } => Ok(()),
    }
}

/// Follows the row of what came on Abis from a TRX.
#[tactic(auto, using(crate::proofs::Handled::stopped))]
fn follow_abis_octets<D: DeskView + Drop, A: Allocator + Copy>(
    work: &mut Work<D, A>,
    site: &Site<A>,
    cell: u8,
    trx: u8,
    octets: &[u8],
) -> Result<(), Stop>
    requires { work.old.windows.width ≡ site.now.handover.window }
    ensures ok { OnOk result ((p : Plan) × ((message : Rsl A) × (inside : Option Rr) ×
        IsAbis octets.now message inside × (p ≡ abis_plan site.now
        (last_reports work.old.windows) (chan_of cell trx message) message inside)) ×
        Goes D.log D.says work.old p work.new (At Ends)) }
    ensures stops { IfErr result (Stopped D.log D.says work.old
        (λ p. (message : Rsl A) × (inside : Option Rr) ×
        IsAbis octets.now message inside × (p ≡ abis_plan site.now
        (last_reports work.old.windows) (chan_of cell trx message) message inside))
        (IsUnreadableAbis A octets.now)
        ((message : Rsl A) × abis.IsTextOf message octets.now × HasOctets message) work.new) }
{
    let (message, inside) = match decode_abis(work.alloc, octets) {
        Ok(read) => read,
        Err(unreadable) => return Err(unreadable_stop(unreadable)),
    };
    let chan = chan_of(cell, trx, &message);
    match follow_abis(work, site, chan, &message, &inside) {
        Ok(()) => Ok(()),
        Err(fault) => Err(stop_of(fault)),
    }
}

/// Follows the row of what came on A about a call.
#[tactic(auto, using(crate::proofs::Handled::stopped, crate::proofs::LayerThree::passed_on))]
fn follow_a_octets<D: DeskView + Drop, A: Allocator + Copy>(
    work: &mut Work<D, A>,
    site: &Site<A>,
    call: u16,
    octets: &[u8],
) -> Result<(), Stop>
    ensures ok { OnOk result ((p : Plan) × ((message : Bssmap A) ×
        interface_a.IsTextOf message octets.now × (p ≡ a_plan site.now call message)) ×
        Goes D.log D.says work.old p work.new (At Ends)) }
    ensures stops { IfErr result (Stopped D.log D.says work.old
        (λ p. (message : Bssmap A) × interface_a.IsTextOf message octets.now ×
        (p ≡ a_plan site.now call message))
        (IsUnreadableA A octets.now)
        ((message : Bssmap A) × interface_a.IsTextOf message octets.now × KeepsList message)
        work.new) }
{
    let message = match decode_a(work.alloc, octets) {
        Ok(message) => message,
        Err(unreadable) => return Err(unreadable_stop(unreadable)),
    };
    match follow_a(work, site, call, &message) {
        Ok(()) => Ok(()),
        Err(fault) => Err(stop_of(fault)),
    }
}

/// Follows the row of an input.
#[tactic(auto, using(crate::proofs::Handled::stopped))]
pub(crate) fn follow<D: DeskView + Drop, A: Allocator + Copy>(
    work: &mut Work<D, A>,
    site: &Site<A>,
    input: Inbound<A>,
) -> Result<(), Stop>
    requires { work.old.windows.width ≡ site.now.handover.window }
    ensures ok { OnOk result ((p : Plan) ×
        IsRow {A = A} site.now (last_reports work.old.windows) input p ×
        Goes D.log D.says work.old p work.new (At Ends)) }
    ensures stops { IfErr result (Stopped D.log D.says work.old
        (IsRow {A = A} site.now (last_reports work.old.windows) input)
        (IsUndecoded {A = A} input) (KeepsOctets {A = A} input) work.new) }
{
    let done = match input {
        Inbound::Abis { cell, trx, bytes } => {
            return follow_abis_octets(work, site, cell, trx, bytes.as_slice());
        }
        Inbound::A { call, bytes } => return follow_a_octets(work, site, call, bytes.as_slice()),
        Inbound::Expiry { call, timer } => expire(work, call, timer),
        Inbound::Operator(line) => follow_line(work, site, line),
    };
    match done {
        Ok(()) => Ok(()),
        Err(fault) => Err(stop_of(fault)),
    }
}
