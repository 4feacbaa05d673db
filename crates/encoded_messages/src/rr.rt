//! Radio resource messages from words (TS 44.018 section 9.1).
ghost use Rattle.std.specs.Prelude.{◌≡◌, ◌≢◌, ◌++◌, ◌∷◌, [], Ok, Err, Some, None, codes, option_map, is_ok, OnOk, IfOk, IfErr, IfSome, MatchResult, All};
ghost use Rattle.encoded_messages.specs.Fields.{only_keys};
ghost use Rattle.encoded_messages.specs.Forms.{keys_of};
ghost use Rattle.encoded_messages.specs.FieldFaults.{Value, read_of, read_map, fault_of};
ghost use Rattle.encoded_messages.specs.declared.field_fault.Allowed.TheVariants.{Neighbour};
ghost use Rattle.encoded_messages.specs.declared.field_fault.FieldFault.TheVariants.{NoMemory};
ghost use Rattle.rr_elements.specs.MeasResults.{HeadFits, NcellFits, used_count};
ghost use Rattle.encoded_messages.specs.Faults as faults;
ghost use Rattle.encoded_messages.specs.Rr as said;

use crate::fault::MessageFault;
use crate::field_fault::{Allowed, FieldFault};
use crate::fields::{leading_value, only_fields};
use crate::form::{FieldForm, MessageForm};
use crate::name::name_and_fields;
use crate::values::neighbour_in;
use crate::visit::{FieldValue, Fields, hand_on};
use rr_elements::{CellDescription, ChanDescription, MeasHead, MeasResults, Ncell, Power, RrCause};
use rr_messages::{Rr, encode};
use std::alloc::Allocator;

/// The fields of radio resource messages.
const ARFCN: FieldForm<'static> = FieldForm("arfcn", Allowed::Number(1023));

const NCC: FieldForm<'static> = FieldForm("ncc", Allowed::Number(7));

const BCC: FieldForm<'static> = FieldForm("bcc", Allowed::Number(7));

const TN: FieldForm<'static> = FieldForm("tn", Allowed::TrafficChannel);

const TSC: FieldForm<'static> = FieldForm("tsc", Allowed::Number(7));

const CARRIER: FieldForm<'static> = FieldForm("carrier", Allowed::Number(1023));

const REFERENCE: FieldForm<'static> = FieldForm("reference", Allowed::Number(255));

const ATC: FieldForm<'static> = FieldForm("atc", Allowed::Flag);

const POWER: FieldForm<'static> = FieldForm("power", Allowed::Number(31));

const CAUSE: FieldForm<'static> = FieldForm("cause", Allowed::Cause);

const TA: FieldForm<'static> = FieldForm("ta", Allowed::Number(255));

const BA: FieldForm<'static> = FieldForm("ba", Allowed::Flag);

const DTX: FieldForm<'static> = FieldForm("dtx", Allowed::Flag);

const FULL: FieldForm<'static> = FieldForm("full", Allowed::Number(63));

const BA3G: FieldForm<'static> = FieldForm("ba3g", Allowed::Flag);

const VALID: FieldForm<'static> = FieldForm("valid", Allowed::Flag);

const SUB: FieldForm<'static> = FieldForm("sub", Allowed::Number(63));

const SI23: FieldForm<'static> = FieldForm("si23", Allowed::Flag);

const QFULL: FieldForm<'static> = FieldForm("qfull", Allowed::Number(7));

const QSUB: FieldForm<'static> = FieldForm("qsub", Allowed::Number(7));

const COUNT: FieldForm<'static> = FieldForm("count", Allowed::Number(7));

const N: FieldForm<'static> = FieldForm("n", Allowed::Neighbour);

/// TS 44.018 section 9.1.15.
const HANDOVER_COMMAND: MessageForm<'static> = MessageForm {
    name: "HANDOVER COMMAND",
    fields: &[ARFCN, NCC, BCC, TN, TSC, CARRIER, REFERENCE, ATC, POWER],
};
/// TS 44.018 section 9.1.16.
const HANDOVER_COMPLETE: MessageForm<'static> = MessageForm {
    name: "HANDOVER COMPLETE",
    fields: &[CAUSE],
};
/// TS 44.018 section 9.1.17.
const HANDOVER_FAILURE: MessageForm<'static> = MessageForm {
    name: "HANDOVER FAILURE",
    fields: &[CAUSE],
};
/// TS 44.018 section 9.1.7.
const CHANNEL_RELEASE: MessageForm<'static> = MessageForm {
    name: "CHANNEL RELEASE",
    fields: &[CAUSE],
};
/// TS 44.018 section 9.1.28.
const PHYSICAL_INFORMATION: MessageForm<'static> = MessageForm {
    name: "PHYSICAL INFORMATION",
    fields: &[TA],
};
/// TS 44.018 section 9.1.21.
const MEASUREMENT_REPORT: MessageForm<'static> = MessageForm {
    name: "MEASUREMENT REPORT",
    fields: &[BA, DTX, FULL, BA3G, VALID, SUB, SI23, QFULL, QSUB, COUNT, N],
};

/// The radio resource messages, in the order in which they are listed.
pub const RR_FORMS: &[MessageForm<'static>] = &[
    HANDOVER_COMMAND,
    HANDOVER_COMPLETE,
    HANDOVER_FAILURE,
    CHANNEL_RELEASE,
    PHYSICAL_INFORMATION,
    MEASUREMENT_REPORT,
];

/// The form of a radio resource message.
fn form_of(message: &Rr) -> MessageForm<'static> {
    match message {
        Rr::HandoverCommand { .. } => HANDOVER_COMMAND,
        Rr::HandoverComplete(_) => HANDOVER_COMPLETE,
        Rr::HandoverFailure(_) => HANDOVER_FAILURE,
        Rr::ChannelRelease(_) => CHANNEL_RELEASE,
        Rr::PhysicalInformation(_) => PHYSICAL_INFORMATION,
        Rr::MeasurementReport(_) => MEASUREMENT_REPORT,
    }
}

/// The name of a radio resource message.
pub fn rr_name(message: &Rr) -> &'static str {
    form_of(message).name
}

/// The value of an octet.
fn octet_value<'m>(octet: u8) -> FieldValue<'m> {
    FieldValue::Number(u16::from(octet))
}

/// Hands on the fields of a HANDOVER COMMAND.
fn visit_command<'m, V: Fields<'m>>(
    cell: CellDescription,
    channel: ChanDescription,
    reference: u8,
    power: Power,
    visitor: &mut V,
) -> Result<(), V::Stop> {
    let values = [
        FieldValue::Number(cell.arfcn()),
        octet_value(cell.ncc()),
        octet_value(cell.bcc()),
        FieldValue::Channel(channel.tn(), channel.sub()),
        octet_value(channel.tsc()),
        FieldValue::Number(channel.carrier()),
        octet_value(reference),
        FieldValue::Flag(power.atc()),
        octet_value(power.level()),
    ];
    hand_on(HANDOVER_COMMAND, &values, visitor)
}

/// Hands on the fields of a MEASUREMENT REPORT: those of its head, and one for each neighbour in use.
fn visit_report<'m, V: Fields<'m>>(
    results: &'m MeasResults,
    visitor: &mut V,
) -> Result<(), V::Stop> {
    let head = results.head();
    let values = [
        FieldValue::Flag(head.ba),
        FieldValue::Flag(head.dtx),
        octet_value(head.full),
        FieldValue::Flag(head.ba3g),
        FieldValue::Flag(head.valid),
        octet_value(head.sub),
        FieldValue::Flag(head.si23),
        octet_value(head.qfull),
        octet_value(head.qsub),
        octet_value(head.count),
    ];
    hand_on(MEASUREMENT_REPORT, &values, visitor)?;
    for neighbour in results.neighbours() {
        visitor.field(N.0, FieldValue::Neighbour(*neighbour))?;
    }
    Ok(())
}

/// Hands on the fields of a radio resource message.
pub fn visit_rr<'m, V: Fields<'m>>(message: &'m Rr, visitor: &mut V) -> Result<(), V::Stop> {
    let form = form_of(message);
    match message {
        Rr::HandoverCommand {
            cell,
            channel,
            reference,
            power,
        } => visit_command(*cell, *channel, *reference, *power, visitor),
        Rr::HandoverComplete(cause) | Rr::HandoverFailure(cause) | Rr::ChannelRelease(cause) => {
            hand_on(form, &[FieldValue::Cause(cause.value())], visitor)
        }
        Rr::PhysicalInformation(advance) => hand_on(form, &[octet_value(*advance)], visitor),
        Rr::MeasurementReport(results) => visit_report(results, visitor),
    }
}

/// The cell that a handover goes to.
#[tactic(auto, unfolding(crate::specs::Rr::cell))]
fn cell(fields: &str) -> Result<CellDescription, FieldFault<'_>>
    ensures { read_of result ≡ said.cell fields.now }
{
    let arfcn = ARFCN.number(fields)?;
    let ncc = NCC.octet(fields)?;
    let bcc = BCC.octet(fields)?;
    match CellDescription::new(arfcn, ncc, bcc) {
        Ok(cell) => Ok(cell),
        Err(_) => unreachable!(),
    }
}

/// The channel that a handover goes to.
#[tactic(auto, unfolding(crate::specs::Rr::channel))]
fn channel(fields: &str) -> Result<ChanDescription, FieldFault<'_>>
    ensures { read_of result ≡ said.channel fields.now }
{
    let (tn, sub) = TN.traffic_channel(fields)?;
    let tsc = TSC.octet(fields)?;
    let carrier = CARRIER.number(fields)?;
    match ChanDescription::new(tn, sub, tsc, carrier) {
        Ok(channel) => Ok(channel),
        Err(_) => unreachable!(),
    }
}

/// The power command and the access type.
#[tactic(auto, unfolding(crate::specs::Rr::power))]
fn power(fields: &str) -> Result<Power, FieldFault<'_>>
    ensures { read_of result ≡ said.power fields.now }
{
    let atc = ATC.flag(fields)?;
    let level = POWER.octet(fields)?;
    match Power::new(atc, level) {
        Ok(power) => Ok(power),
        Err(_) => unreachable!(),
    }
}

/// Refuses a word that is no field of HANDOVER COMMAND.
#[tactic(auto, unfolding(crate::specs::Rr::command_keys))]
fn only_in_command(fields: &str) -> Result<(), FieldFault<'_>>
    ensures { read_of result ≡ only_keys said.command_keys fields.now }
{
    only_fields(fields, HANDOVER_COMMAND)
}

/// HANDOVER COMMAND
#[tactic(auto, unfolding(crate::specs::Rr::handover_command))]
fn handover_command(fields: &str) -> Result<Rr, FieldFault<'_>>
    ensures { read_of result ≡ said.handover_command fields.now }
{
    only_in_command(fields)?;
    let cell = match cell(fields) {
        Ok(cell) => cell,
        Err(fault) => return Err(fault),
    };
    let channel = match channel(fields) {
        Ok(channel) => channel,
        Err(fault) => return Err(fault),
    };
    let reference = REFERENCE.octet(fields)?;
    match power(fields) {
        Ok(power) => Ok(Rr::HandoverCommand {
            cell,
            channel,
            reference,
            power,
        }),
        Err(fault) => Err(fault),
    }
}

/// The cause of a message that has nothing else.
#[tactic(auto, unfolding(crate::specs::Rr::cause_alone))]
fn cause_alone<'a>(fields: &'a str, form: MessageForm<'static>) -> Result<RrCause, FieldFault<'a>>
    requires { keys_of form.fields.now ≡ codes "cause" ∷ [] }
    ensures { read_of result ≡ said.cause_alone fields.now }
{
    only_fields(fields, form)?;
    Ok(RrCause(CAUSE.cause(fields)?))
}

/// PHYSICAL INFORMATION
#[tactic(auto, unfolding(crate::specs::Rr::physical_information))]
fn physical_information(fields: &str) -> Result<Rr, FieldFault<'_>>
    ensures { read_of result ≡ said.physical_information fields.now }
{
    only_fields(fields, PHYSICAL_INFORMATION)?;
    Ok(Rr::PhysicalInformation(TA.octet(fields)?))
}

/// The fields of a MEASUREMENT REPORT before the neighbours.
#[tactic(auto, unfolding(crate::specs::Rr::head))]
fn head(fields: &str) -> Result<MeasHead, FieldFault<'_>>
    ensures head { read_of result ≡ said.head fields.now }
    ensures fits { IfOk result HeadFits }
{
    Ok(MeasHead {
        ba: BA.flag(fields)?,
        dtx: DTX.flag(fields)?,
        full: FULL.octet(fields)?,
        ba3g: BA3G.flag(fields)?,
        valid: VALID.flag(fields)?,
        sub: SUB.octet(fields)?,
        si23: SI23.flag(fields)?,
        qfull: QFULL.octet(fields)?,
        qsub: QSUB.octet(fields)?,
        count: COUNT.octet(fields)?,
    })
}

/// What a text says that was measured of a neighbour.
fn neighbour_of(text: &str) -> Option<Ncell>
    ensures neighbour { result ≡ said.neighbour_of text.now }
    ensures fits { IfSome result NcellFits }
{
    let (level, position, bsic) = neighbour_in(text)?;
    Some(Ncell {
        level,
        position,
        bsic,
    })
}

/// Adds the neighbour that the value of a field says.
fn add_neighbour<'a, A: Allocator>(
    found: &mut Vec<Ncell, A>,
    value: &'a str,
) -> Result<(), FieldFault<'a>>
    requires { All NcellFits found.old.items }
    ensures read { OnOk result (option_map (λ neighbour. found.old.items ++ neighbour ∷ [])
        (said.neighbour_of value.now) ≡ Some found.new.items) }
    ensures fits { OnOk result (All NcellFits found.new.items) }
    ensures unreadable { IfErr result (λ fault. fault ≢ NoMemory →
        (said.neighbour_of value.now ≡ None)
        × (fault_of fault ≡ Value (codes "n") value.now Neighbour)) }
{
    let Some(neighbour) = neighbour_of(value) else {
        return Err(FieldFault::Value {
            key: N.0,
            value,
            allowed: N.1,
        });
    };
    found.push(neighbour).map_err(|_| FieldFault::NoMemory)
}

/// Adds the neighbours among fields, in their order. There may be as many as a text has words, so they take turns in one
/// frame of the stack.
fn add_neighbours<'a, A: Allocator>(
    found: &mut Vec<Ncell, A>,
    fields: &'a str,
) -> Result<(), FieldFault<'a>>
    requires { All NcellFits found.old.items }
    ensures read { OnOk result (read_map (λ more. found.old.items ++ more)
        (said.neighbours_in fields.now) ≡ Ok found.new.items) }
    ensures fits { OnOk result (All NcellFits found.new.items) }
    ensures fault { IfErr result (λ fault. fault ≢ NoMemory →
        said.neighbours_in fields.now ≡ Err (fault_of fault)) }
{
    let mut left = fields;
    while let Some((value, rest)) = leading_value(left, N.0) {
        add_neighbour(found, value)?;
        left = rest;
    }
    Ok(())
}

/// How many neighbours stand in a MEASUREMENT REPORT with this count.
fn used(count: u8) -> usize
    ensures { result ≡ used_count count }
{
    match count {
        7 => 0,
        count => usize::from(count),
    }
}

/// Refuses a word that is no field of MEASUREMENT REPORT.
#[tactic(auto, unfolding(crate::specs::Rr::report_keys))]
fn only_in_report(fields: &str) -> Result<(), FieldFault<'_>>
    ensures { read_of result ≡ only_keys said.report_keys fields.now }
{
    only_fields(fields, MEASUREMENT_REPORT)
}

/// What is measured, which is a MEASUREMENT REPORT once there are as many neighbours as it says.
#[tactic(auto, unfolding(crate::specs::Rr::measured))]
fn measured<A: Allocator>(
    alloc: A,
    fields: &str,
) -> Result<(MeasHead, Vec<Ncell, A>), FieldFault<'_>>
    ensures measured { MatchResult result
        (λ found. said.measured fields.now ≡ Ok (found.0, found.1.items))
        (λ fault. fault ≢ NoMemory → said.measured fields.now ≡ Err (fault_of fault)) }
    ensures fits { IfOk result (λ found. HeadFits found.0 × All NcellFits found.1.items) }
{
    only_in_report(fields)?;
    let head = head(fields)?;
    let mut neighbours = Vec::new(alloc);
    add_neighbours(&mut neighbours, fields)?;
    Ok((head, neighbours))
}

/// MEASUREMENT REPORT
#[tactic(auto, unfolding(crate::specs::Rr::measurement_report))]
fn measurement_report<A: Allocator>(alloc: A, fields: &str) -> Result<Rr, MessageFault<'_>>
    ensures { faults.Answers result (said.measurement_report fields.now) }
{
    let (head, neighbours) = measured(alloc, fields)?;
    let found = neighbours.len();
    if found != used(head.count) {
        let count = head.count;
        return Err(MessageFault::Neighbours { count, found });
    }
    match MeasResults::new(head, &neighbours) {
        Ok(results) => Ok(Rr::MeasurementReport(results)),
        Err(_) => unreachable!(),
    }
}

/// The message of a name and its fields.
#[tactic(auto, unfolding(crate::specs::Rr::message_of))]
fn message_of<'a, A: Allocator>(
    alloc: A,
    name: &'a str,
    fields: &'a str,
) -> Result<Rr, MessageFault<'a>>
    ensures { faults.Answers result (said.message_of name.now fields.now) }
{
    if name == HANDOVER_COMMAND.name {
        match handover_command(fields) {
            Ok(message) => Ok(message),
            Err(fault) => Err(MessageFault::from(fault)),
        }
    } else if name == HANDOVER_COMPLETE.name {
        Ok(Rr::HandoverComplete(cause_alone(fields, HANDOVER_COMPLETE)?))
    } else if name == HANDOVER_FAILURE.name {
        Ok(Rr::HandoverFailure(cause_alone(fields, HANDOVER_FAILURE)?))
    } else if name == CHANNEL_RELEASE.name {
        Ok(Rr::ChannelRelease(cause_alone(fields, CHANNEL_RELEASE)?))
    } else if name == PHYSICAL_INFORMATION.name {
        match physical_information(fields) {
            Ok(message) => Ok(message),
            Err(fault) => Err(MessageFault::from(fault)),
        }
    } else if name == MEASUREMENT_REPORT.name {
        measurement_report(alloc, fields)
    } else {
        Err(MessageFault::Name(name))
    }
}

/// Whether fields say as many neighbours as are asked for, each as it may be. Takes no memory.
#[tactic(auto, using(crate::proofs::RrLemmas::one_more, crate::proofs::RrLemmas::one_too_many))]
fn are_neighbours(fields: &str, count: usize) -> bool
    ensures { result ≡ said.are_so_many count (said.neighbours_in fields.now) }
{
    let mut left = fields;
    let mut missing = count;
    while let Some((value, rest)) = leading_value(left, N.0) {
        if missing == 0 || neighbour_of(value).is_none() {
            return false;
        }
        missing -= 1;
        left = rest;
    }
    missing == 0
}

/// Whether fields say a MEASUREMENT REPORT. Takes no memory.
#[tactic(auto, using(crate::proofs::RrLemmas::reported, crate::proofs::RrLemmas::unknown, crate::proofs::RrLemmas::headless))]
fn says_report(fields: &str) -> bool
    ensures { result ≡ is_ok (said.measurement_report fields.now) }
{
    if only_in_report(fields).is_err() {
        return false;
    }
    match head(fields) {
        Ok(head) => are_neighbours(fields, used(head.count)),
        Err(_) => false,
    }
}

/// Whether a name and its fields say a radio resource message. Takes no memory.
#[tactic(auto, unfolding(crate::specs::Rr::message_of))]
fn says_message(name: &str, fields: &str) -> bool
    ensures { result ≡ is_ok (said.message_of name.now fields.now) }
{
    if name == HANDOVER_COMMAND.name {
        handover_command(fields).is_ok()
    } else if name == HANDOVER_COMPLETE.name {
        cause_alone(fields, HANDOVER_COMPLETE).is_ok()
    } else if name == HANDOVER_FAILURE.name {
        cause_alone(fields, HANDOVER_FAILURE).is_ok()
    } else if name == CHANNEL_RELEASE.name {
        cause_alone(fields, CHANNEL_RELEASE).is_ok()
    } else if name == PHYSICAL_INFORMATION.name {
        physical_information(fields).is_ok()
    } else {
        name == MEASUREMENT_REPORT.name && says_report(fields)
    }
}

/// Whether a text says a radio resource message: [`encode_rr`] gives its octets, memory aside. Takes no memory.
pub fn says_rr(text: &str) -> bool
    ensures said { result ≡ is_ok (said.message_in text.now) }
{
    let (name, fields) = name_and_fields(text);
    says_message(name, fields)
}

/// The octets of the radio resource message that a text says: its canonical text.
pub fn encode_rr<A: Allocator + Copy>(alloc: A, text: &str) -> Result<Vec<u8, A>, MessageFault<'_>>
    ensures octets { IfOk result (λ octets. said.Writes text.now octets.items) }
    ensures fault { IfErr result (λ fault. fault ≢ MessageFault.NoMemory →
        said.HasFault text.now (faults.fault_of fault)) }
{
    let (name, fields) = name_and_fields(text);
    match message_of(alloc, name, fields) {
        Ok(message) => Ok(encode(alloc, &message)?),
        Err(fault) => Err(fault),
    }
}
