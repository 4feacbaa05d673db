//! Inputs that a line finds by its controller's book: reports, and answers of stations, about channels that the line doesn't
//! name.
ghost use Rattle.std.specs.Prelude.{◌≡◌, ◌<◌, ◌+◌, ◌++◌, [], replicate, IfOk, OnOk, OnErr};
ghost use Rattle.cell_table.specs.Site.{channels};
ghost use Rattle.lab_runs.specs.Asked as said;

use crate::calls::{channel_of, is_on, serving_channel};
use crate::reports::{bits_of, from_station, report_on};
use bts_model::{Answer, octets_of};
use cell_table::Site;
use channel_fsm::ChanId;
use exchange::Inbound;
use lab_script::asked::{Asked, Report, Whom};
use radio_book::book::Book;
use radio_desk::desk::Desk;
use run_listeners::Unmet;
use std::alloc::{AllocError, Allocator};

/// The result of a line that asks the book: what it gives, or why it has no effect; or memory was refused.
pub type Met<T> = Result<Result<T, Unmet>, AllocError>;

/// What a station says of a channel.
fn answered<A: Allocator + Copy>(
    alloc: A,
    chan: ChanId,
    answer: Answer,
) -> Result<Inbound<A>, AllocError>
    requires { chan.tn < 8 }
    ensures { IfOk result (λ input. input ≡ said.answered chan answer) }
{
    Ok(from_station(chan, octets_of(alloc, bits_of(chan), answer)?))
}

/// Appends an input so many times.
fn add_times<A: Allocator + Copy>(
    alloc: A,
    inputs: &mut Vec<Inbound<A>, A>,
    input: &Inbound<A>,
    times: u8,
) -> Result<(), AllocError>
    ensures { OnOk result (inputs.new.items ≡ inputs.old.items ++ replicate times input.now) }
{
    for _ in 0..times {
        inputs.push(input.copy(alloc)?)?;
    }
    Ok(())
}

/// Appends the reports of the mobile on a channel.
fn add_reports<A: Allocator + Copy>(
    alloc: A,
    site: &Site<A>,
    chan: ChanId,
    report: &Report,
    inputs: &mut Vec<Inbound<A>, A>,
) -> Met<()>
    requires { chan.tn < 8 }
    ensures reports { OnOk result (said.AddsReports site.now report.now chan
        inputs.old.items inputs.new.items) }
    ensures unmet { IfOk result (λ found. OnErr found (inputs.new.items ≡ inputs.old.items)) }
{
    match report_on(alloc, site, chan, report)? {
        Ok(input) => Ok(Ok(add_times(alloc, inputs, &input, report.times)?)),
        Err(unmet) => Ok(Err(unmet)),
    }
}

/// Appends the reports of the mobile on a channel, if a call is on it. Nothing is said of it where there is nothing to report.
fn add_reports_if_on<A: Allocator + Copy>(
    alloc: A,
    book: &Book<A>,
    chan: ChanId,
    report: &Report,
    inputs: &mut Vec<Inbound<A>, A>,
) -> Result<(), AllocError>
    ensures { OnOk result (said.AddsReportsIfOn book.now report.now chan
        inputs.old.items inputs.new.items) }
{
    if is_on(book, chan) {
        let _ = add_reports(alloc, book.site(), chan, report, inputs)?;
    }
    Ok(())
}

/// Appends the reports of the mobile on the channel with this number, if there is one and a call is on it.
fn add_reports_at<A: Allocator + Copy>(
    alloc: A,
    book: &Book<A>,
    index: usize,
    report: &Report,
    inputs: &mut Vec<Inbound<A>, A>,
) -> Result<(), AllocError>
    ensures { OnOk result (
        said.AreReportsUpTo book.now report.now index inputs.old.items →
        said.AreReportsUpTo book.now report.now (index + 1) inputs.new.items) }
{
    match book.site().chan_at(index) {
        Some(chan) => add_reports_if_on(alloc, book, chan, report, inputs),
        None => Ok(()),
    }
}

/// The reports of all mobiles that are on a channel, in the order of the channels.
fn all_reports<A: Allocator + Copy>(
    alloc: A,
    book: &Book<A>,
    report: &Report,
) -> Result<Vec<Inbound<A>, A>, AllocError>
    ensures { IfOk result (λ inputs. said.AreReportsOfAll book.now report.now
        (channels book.now.site) inputs.items) }
{
    let mut inputs = Vec::new(alloc);
    for index in 0..book.site().channels() {
        add_reports_at(alloc, book, index, report, &mut inputs)?;
    }
    Ok(inputs)
}

/// The reports of all mobiles that are on a channel, or that there are none.
fn reports_of_all<A: Allocator + Copy>(
    alloc: A,
    desk: &Desk<A>,
    report: &Report,
) -> Met<Vec<Inbound<A>, A>>
    ensures reports { IfOk result (λ found. IfOk found (λ inputs.
        said.AreReportsOf desk.now.book Whom.All report.now inputs.items)) }
    ensures unmet { IfOk result (λ found. OnErr found
        (said.AreReportsOf {A = A} desk.now.book Whom.All report.now [])) }
{
    let inputs = all_reports(alloc, desk.book(), report)?;
    if inputs.is_empty() {
        Ok(Err(Unmet::Nobody))
    } else {
        Ok(Ok(inputs))
    }
}

/// The reports of the mobile of a call.
fn reports_of_call<A: Allocator + Copy>(
    alloc: A,
    desk: &Desk<A>,
    call: u16,
    report: &Report,
) -> Met<Vec<Inbound<A>, A>>
    ensures reports { IfOk result (λ found. IfOk found (λ inputs.
        said.AreReportsOf desk.now.book (Whom.Call call) report.now inputs.items)) }
    ensures unmet { IfOk result (λ found. OnErr found
        (said.AreReportsOf {A = A} desk.now.book (Whom.Call call) report.now [])) }
{
    let chan = match serving_channel(desk.book(), call) {
        Ok(chan) => chan,
        Err(unmet) => return Ok(Err(unmet)),
    };
    let mut inputs = Vec::new(alloc);
    match add_reports(alloc, desk.book().site(), chan, report, &mut inputs)? {
        Ok(()) => Ok(Ok(inputs)),
        Err(unmet) => Ok(Err(unmet)),
    }
}

/// The answer of a station about a channel of a call.
fn answer_of_call<A: Allocator + Copy>(
    alloc: A,
    desk: &Desk<A>,
    call: u16,
    answer: Answer,
) -> Met<Vec<Inbound<A>, A>>
    ensures answer { IfOk result (λ found. IfOk found (λ inputs.
        inputs.items ≡ said.answers_at answer (said.channel_of desk.now call answer))) }
    ensures unmet { IfOk result (λ found. OnErr found
        ([] ≡ said.answers_at {A = A} answer (said.channel_of desk.now call answer))) }
{
    let chan = match channel_of(desk, call, answer) {
        Ok(chan) => chan,
        Err(unmet) => return Ok(Err(unmet)),
    };
    let mut inputs = Vec::new(alloc);
    inputs.push(answered(alloc, chan, answer)?)?;
    Ok(Ok(inputs))
}

/// The inputs that a line asks of a desk's book, in their order; or why there are none.
pub(crate) fn inputs_asked<A: Allocator + Copy>(
    alloc: A,
    desk: &Desk<A>,
    asked: Asked,
) -> Met<Vec<Inbound<A>, A>>
    ensures inputs { IfOk result (λ found. IfOk found (λ inputs.
        said.AreAsked desk.now asked inputs.items)) }
    ensures unmet { IfOk result (λ found. OnErr found (said.AreAsked {A = A} desk.now asked [])) }
{
    match asked {
        Asked::Report { whom, report } => match whom {
            Whom::Call(call) => reports_of_call(alloc, desk, call, &report),
            Whom::All => reports_of_all(alloc, desk, &report),
        },
        Asked::Answer { call, answer } => answer_of_call(alloc, desk, call, answer),
    }
}
