//! Takes all attempts of a history that were undone and are settled out together.
ghost use Rattle.std.specs.Prelude.{◌≡◌, ◌↔◌, ◌++◌, ◌+◌, ◌-◌, ◌<◌, ◌^◌, ◌∷◌, IsTrue, [], map, Some, None, is_some, is_none, ◌&&◌, if◌then◌else◌, IfOk};
ghost use Rattle.std.specs.List.{list_all};
ghost use Rattle.std.specs.Option.{option_to_list, option_or};
ghost use Rattle.radio_book.specs.Undone.{events_of, replies_of};
ghost use Rattle.radio_book.specs.Found.{first_place};
ghost use Rattle.radio_book.specs.Following.{stays, after, opening_of, settling_count, is_held_by, remaining_from, all_held_from};
ghost use Rattle.radio_book.specs.Run.{Leads};
ghost use Rattle.radio_desk.specs.Audit.{steps_in, LeadsAlike, IsHistoryAudit};
ghost use Rattle.radio_desk.specs.Followers.{AreRows, settled_flags, flagged, flags_behind};

use crate::entry::is_same_reply;
use crate::followers::Followers;
use radio_book::book::Book;
use radio_book::event::{Event, Reply};
use radio_book::following::{Followed, opening_of};
use radio_book::run::run;
use radio_book::undone::StepAt;
use std::alloc::{AllocError, Allocator};

/// The result for the attempts of a history that were undone and are settled: their channels were released, or no activation
/// was sent.
#[derive(Clone, Copy, Debug, PartialEq, Eq)]
pub struct Audit {
    /// How many they are.
    pub attempts: usize,
    /// The place of the first entry, counted from 0, that was refused because one of them had the channel or the reference.
    pub held: Option<usize>,
    /// The entries that remain without all of them, asked alone, lead to the same book and get the same replies.
    pub same: bool,
}

/// The entries of a history as steps, each at its place.
pub(crate) fn steps_of<A: Allocator + Copy>(
    alloc: A,
    history: &[(Event, Reply)],
) -> Result<Vec<StepAt, A>, AllocError>
    ensures { IfOk result (λ steps. steps.items ≡ steps_in history.now) }
{
    history
        .iter()
        .enumerate()
        .map(|(place, entry)| StepAt {
            place,
            event: entry.0,
            reply: entry.1,
        })
        .collect(alloc)
}

/// Of each attempt that opens among the steps, whether the steps behind its opening settle it: all are followed to the end.
fn settled_flags<A: Allocator + Copy>(
    alloc: A,
    steps: &[StepAt],
) -> Result<Vec<bool, A>, AllocError>
    ensures { IfOk result (λ flags. flags.items ≡ settled_flags steps.now) }
{
    let mut followers = Followers::new(alloc)?;
    let mut rest = steps;
    while let [step, behind @ ..] = rest {
        followers.follow(step, opening_of(step))?;
        rest = behind;
    }
    followers.settled(alloc)
}

/// The attempt that opens with a step, if the first flag says that it is settled.
fn settling(step: &StepAt, flags: &[bool]) -> Option<Followed>
    ensures { result ≡ flagged (opening_of step.now) flags.now }
{
    match (opening_of(step), flags) {
        (Some(opening), [true, ..]) => Some(opening),
        (Some(_), [false, ..] | []) | (None, _) => None,
    }
}

/// The flags of the attempts that open behind a step.
fn flags_behind<'a>(step: &StepAt, flags: &'a [bool]) -> &'a [bool]
    ensures { result.now ≡ flags_behind (opening_of step.now) flags.now }
{
    match (opening_of(step), flags) {
        (Some(_), [_, behind @ ..]) => behind,
        (Some(_), []) | (None, _) => flags,
    }
}

/// Where the first held step stands, once one more is told.
fn held_with(held: Option<usize>, is_held: bool, place: usize) -> Option<usize>
    ensures { result ≡ option_or held (if is_held then Some place else None) }
{
    match held {
        Some(first) => Some(first),
        None => { if is_held { Some(place) } else { None } }
    }
}

/// Keeps the step, if it is to stay.
fn keep_if<A: Allocator + Copy>(
    stays: bool,
    kept: &mut Vec<StepAt, A>,
    step: &StepAt,
) -> Result<(), AllocError>
    ensures { IfOk result (λ _. kept.new.items ≡ kept.old.items ++ (if stays then step.now ∷ [] else [])) }
{
    if stays {
        kept.push(*step)?;
    }
    Ok(())
}

fn one_if(is_one: bool) -> usize
    ensures { result ≡ (if is_one then 1 else 0) }
{
    if is_one { 1 } else { 0 }
}

fn both(one: bool, other: bool) -> bool
    ensures { result ≡ (one && other) }
{
    one && other
}

/// What was found of the steps up to one.
#[derive(Drop)]
pub(crate) struct Walk<A: Allocator> {
    /// The settled attempts, as far as they have come.
    followers: Followers<A>,
    /// How many settled attempts opened.
    pub attempts: usize,
    /// The steps that remain without them.
    pub remaining: Vec<StepAt, A>,
    /// The place of the first held step.
    pub held: Option<usize>,
}

impl<A: Allocator + Copy> Walk<A> {
    /// Goes on by a step. With it opens this settled attempt, if one does.
    fn step(&mut self, step: &StepAt, opening: Option<Followed>) -> Result<(), AllocError>
        requires room { self.old.attempts < 2 ^ 64 - 1 }
        requires rows { AreRows self.old.followers.rows self.old.followers.attempts.items }
        ensures followed { IfOk result (λ _. self.new.followers.attempts.items ≡
            map (λ p. after p step.now) self.old.followers.attempts.items ++ option_to_list opening) }
        ensures rows { IfOk result (λ _.
            AreRows self.new.followers.rows self.new.followers.attempts.items) }
        ensures attempts { IfOk result (λ _. self.new.attempts ≡
            self.old.attempts + (if is_some opening then 1 else 0)) }
        ensures remaining { IfOk result (λ _. self.new.remaining.items ≡ self.old.remaining.items
            ++ (if is_none opening && list_all (λ p. stays p step.now) self.old.followers.attempts.items
            then step.now ∷ [] else [])) }
        ensures held { IfOk result (λ _. self.new.held ≡ option_or self.old.held
            (if is_held_by self.old.followers.attempts.items step.now then Some step.now.place else None)) }
    {
        let is_held = self.followers.is_held(step);
        self.held = held_with(self.held, is_held, step.place);
        let stays = both(opening.is_none(), self.followers.all_stay(step));
        keep_if(stays, &mut self.remaining, step)?;
        self.attempts += one_if(opening.is_some());
        self.followers.follow(step, opening)
    }
}

/// Walks along steps with the attempts among them that are undone and settled.
fn walk_along<A: Allocator + Copy>(alloc: A, steps: &[StepAt]) -> Result<Walk<A>, AllocError>
    ensures attempts { IfOk result (λ walk. walk.attempts ≡ settling_count steps.now) }
    ensures remaining { IfOk result (λ walk. walk.remaining.items ≡ remaining_from [] steps.now) }
    ensures held { IfOk result (λ walk. walk.held ≡ first_place (all_held_from [] steps.now)) }
{
    let settled = settled_flags(alloc, steps)?;
    let mut walk = Walk {
        followers: Followers::new(alloc)?,
        attempts: 0,
        remaining: Vec::new(alloc),
        held: None,
    };
    let mut rest = steps;
    let mut flags = settled.as_slice();
    while let [step, behind @ ..] = rest {
        walk.step(step, settling(step, flags))?;
        flags = flags_behind(step, flags);
        rest = behind;
    }
    Ok(walk)
}

fn events_of<A: Allocator + Copy>(alloc: A, steps: &[StepAt]) -> Result<Vec<Event, A>, AllocError>
    ensures { IfOk result (λ events. events.items ≡ events_of steps.now) }
{
    steps.iter().map(|step| step.event).collect(alloc)
}

/// These are the replies that the steps have.
fn are_replies(steps: &[StepAt], replies: &[Reply]) -> bool
    ensures { IsTrue result ↔ (replies.now ≡ replies_of steps.now) }
{
    let mut rest = steps;
    let mut left = replies;
    while let ([step, behind @ ..], [reply, more @ ..]) = (rest, left) {
        if !is_same_reply(&step.reply, reply) {
            return false;
        }
        rest = behind;
        left = more;
    }
    rest.is_empty() && left.is_empty()
}

/// The steps, asked alone from one book, lead to the other, and get the replies that they have.
fn leads_alike<A: Allocator + Copy>(
    alloc: A,
    opening: &Book<A>,
    steps: &[StepAt],
    book: &Book<A>,
) -> Result<bool, AllocError>
    ensures { IfOk result (λ same. IsTrue same ↔ LeadsAlike opening.now steps.now book.now) }
{
    let events = events_of(alloc, steps)?;
    let (after, replies) = run(alloc, opening, &events)?;
    let leads = after == *book;
    let alike = are_replies(steps, &replies);
    Ok(both(leads, alike))
}

/// Audits a history that leads from one book to another: walks along it twice, and runs what remains once.
pub(crate) fn audit_of<A: Allocator + Copy>(
    alloc: A,
    opening: &Book<A>,
    history: &[(Event, Reply)],
    book: &Book<A>,
) -> Result<Audit, AllocError>
    requires legal { Leads opening.now history.now book.now }
    ensures { IfOk result (IsHistoryAudit opening.now history.now book.now) }
{
    // its contract hands out that the book is sound
    let _ = opening.usage();
    let steps = steps_of(alloc, history)?;
    let walk = walk_along(alloc, &steps)?;
    let same = leads_alike(alloc, opening, &walk.remaining, book)?;
    Ok(Audit {
        attempts: walk.attempts,
        held: walk.held,
        same,
    })
}
