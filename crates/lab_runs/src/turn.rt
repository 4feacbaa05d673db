//! One input, and what came of it.
ghost use Rattle.std.specs.Prelude.{◌≡◌, ◌≤◌, ◌++◌, drop, length, slice_get, IfOk, IfErr, OnOk};
ghost use Rattle.radio_book.specs.Run.{Leads};
ghost use Rattle.lab_runs.specs.Notes.{noted_at, step_of, with_notes};
ghost use Rattle.lab_runs.specs.Turns.{Answers, IsTurn};
ghost use Rattle.lab_runs.specs.Owing.{owed_by, sent_by, Stops, Owes};

use crate::noting::{Note, Noting};
use exchange::{Inbound, Outbound};
use ho_procedure::controller::{Controller, Stop};
use lab_script::script::Side;
use radio_desk::desk::Desk;
use run_listeners::{Answer, Source, Turn};
use std::alloc::{AllocError, Allocator, Global};
use trace_text::trace::Step;

/// Why what came of an input isn't returned.
#[derive(Drop)]
pub enum TurnFault<A: Allocator = Global> {
    /// Memory was refused, and nothing is to be sent.
    NoMemory,
    /// Memory was refused, and the controller still owes these messages, in their order.
    Owed(Vec<Outbound<A>, A>),
}

impl<A: Allocator> From<AllocError> for TurnFault<A> {
    ghost use Rattle.lab_runs.specs.declared.turn.TurnFault.TheVariants.{NoMemory};

    ghost from_gives = { λ _ fault. fault ≡ NoMemory };

    fn from(_: AllocError) -> Self {
        TurnFault::NoMemory
    }
}

/// The lists of an earlier turn. Their contents were told, and are dropped; their memory is used again.
#[derive(Drop)]
pub struct Spare<A: Allocator = Global> {
    sent: Vec<Outbound<A>, A>,
    steps: Vec<Step, A>,
}

impl<A: Allocator + Copy> Spare<A> {
    /// Lists that have no memory yet.
    pub fn new(alloc: A) -> Spare<A> {
        Spare {
            sent: Vec::new(alloc),
            steps: Vec::new(alloc),
        }
    }

    /// Those of a turn. The messages of an input that couldn't be read had no list.
    pub fn of(alloc: A, turn: Turn<A>) -> Spare<A> {
        let Turn {
            side: _,
            source: _,
            input: _,
            steps,
            answer,
        } = turn;
        let sent = match answer {
            Answer::Sent(sent) => sent,
            Answer::Undecoded(_) => Vec::new(alloc),
        };
        Spare { sent, steps }
    }
}

/// What is owed of an answer that wasn't told.
fn owed_of<A: Allocator>(answer: Answer<A>) -> TurnFault<A>
    ensures { owed_by result ≡ sent_by answer }
{
    match answer {
        Answer::Sent(messages) => TurnFault::Owed(messages),
        Answer::Undecoded(_) => TurnFault::NoMemory,
    }
}

/// Appends the notes of a place.
fn push_notes<A: Allocator + Copy>(
    steps: &mut Vec<Step, A>,
    notes: &[Note],
    place: usize,
) -> Result<(), AllocError>
    ensures { OnOk result (steps.new.items ≡ steps.old.items ++ noted_at place notes.now) }
{
    for note in notes {
        if note.place == place {
            steps.push(Step::NoneFree(note.cell, note.rate))?;
        }
    }
    Ok(())
}

/// Appends what stands in a desk's history at a place, if anything does.
fn push_entry<A: Allocator + Copy>(
    steps: &mut Vec<Step, A>,
    desk: &Desk<A>,
    place: usize,
) -> Result<(), AllocError>
    ensures { OnOk result (steps.new.items ≡ steps.old.items ++ step_of (slice_get desk.now.history place)) }
{
    match desk.entry(place) {
        Some((event, reply)) => Ok(steps.push(Step::Asked(*event, *reply))?),
        None => Ok(()),
    }
}

/// What was asked of a desk from its `first` event on, each event behind the notes of its place. They come into a list whose
/// steps are dropped.
fn steps_from<A: Allocator + Copy>(
    spare: Vec<Step, A>,
    desk: &Desk<A>,
    notes: &[Note],
    first: usize,
) -> Result<Vec<Step, A>, AllocError>
    requires first { first ≤ length desk.now.history }
    ensures steps { IfOk result (λ steps. steps.items ≡ with_notes first notes.now (drop first desk.now.history)) }
    ensures legal { Leads desk.now.opening desk.now.history desk.now.book }
{
    let mut steps = spare;
    steps.clear();
    for place in first..desk.len() {
        push_notes(&mut steps, notes, place)?;
        push_entry(&mut steps, desk, place)?;
    }
    push_notes(&mut steps, notes, desk.len())?;
    Ok(steps)
}

/// Handles an input. The messages come into a list of which the controller takes those back that are in it.
fn handled<A: Allocator + Copy>(
    controller: &mut Controller<Noting<A>, A>,
    input: Inbound<A>,
    spare: Vec<Outbound<A>, A>,
) -> Result<Answer<A>, TurnFault<A>>
    ensures answers { IfOk result (λ answer. Answers controller.old input answer controller.new) }
    ensures stops { IfErr result (λ fault. Stops controller.old input (owed_by fault) controller.new) }
    ensures opening { controller.new.0.desk.opening ≡ controller.old.0.desk.opening }
    ensures site { controller.new.2 ≡ controller.old.2 }
{
    let mut sent = spare;
    match controller.handle_into(input, &mut sent) {
        Ok(()) => Ok(Answer::Sent(sent)),
        Err(Stop::Undecoded(_, bad)) => Ok(Answer::Undecoded(bad)),
        Err(Stop::NoMemory) => Err(TurnFault::Owed(sent)),
        // the desk of a view of its own knows all of its receipts
        Err(Stop::Desk(_)) => unreachable!(),
    }
}

/// The controller of a side handles an input. Returns what came of it, in the lists of an earlier turn. If memory is
/// refused, what was asked so far stands; only the messages that are owed are returned.
pub fn take_turn<A: Allocator + Copy>(
    alloc: A,
    controller: &mut Controller<Noting<A>, A>,
    side: Side,
    source: Source,
    input: Inbound<A>,
    spare: Spare<A>,
) -> Result<Turn<A>, TurnFault<A>>
    ensures turn { IfOk result (λ turn. IsTurn controller.old turn controller.new) }
    ensures side { IfOk result (λ turn. turn.side ≡ side) }
    ensures source { IfOk result (λ turn. turn.source ≡ source) }
    ensures input { IfOk result (λ turn. turn.input ≡ input) }
    ensures owed { IfErr result (λ fault. Owes controller.old input (owed_by fault) controller.new) }
{
    let first = controller.view().desk().len();
    let noted = controller.view().noted();
    let given = input.copy(alloc)?;
    let answer = handled(controller, given, spare.sent)?;
    let view = controller.view();
    match steps_from(spare.steps, view.desk(), view.notes_from(noted), first) {
        Ok(steps) => Ok(Turn {
            side,
            source,
            input,
            steps,
            answer,
        }),
        Err(AllocError) => Err(owed_of(answer)),
    }
}
