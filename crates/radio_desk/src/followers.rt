//! Attempts that are followed along a history, and rows that say which of them a step can concern: a step is looked at for
//! these alone, however many attempts are open.
ghost use Rattle.std.specs.Prelude.{◌≡◌, ◌<◌, ◌++◌, ◌∷◌, [], map, not, IfOk, IfSome};
ghost use Rattle.std.specs.List.{list_all};
ghost use Rattle.std.specs.Option.{option_to_list};
ghost use Rattle.radio_book.specs.Following.{stays, holds, after, is_over, is_settled_in, is_held_by};
ghost use Rattle.radio_desk.specs.Followers.{call_row, target_row, step_row, busy_row, refused_row, AreRows, IsEnough, passes_at, gone_on};

use crate::rows::Rows;
use radio_book::event::{Refusal, Reply};
use radio_book::facts::{About, facts_of};
use radio_book::following::Followed;
use radio_book::undone::StepAt;
use std::alloc::{AllocError, Allocator};

/// How many rows there are: one for each cell, and 1024 that the calls share.
const ROWS: usize = 1280;

/// The row of the call.
#[tactic(auto, unfolding(crate::specs::Followers::call_row))]
fn call_row(call: u16) -> usize
    ensures row { result ≡ call_row call }
    ensures within { result < 1280 }
{
    256 + (call % 1024) as usize
}

/// The row of the cell in which the attempt's target is. Where it has none, that of its call.
fn target_row(attempt: &Followed) -> usize
    ensures row { result ≡ target_row attempt.now }
    ensures within { result < 1280 }
{
    match attempt.target {
        Some(x) => x.cell as usize,
        None => call_row(attempt.call),
    }
}

/// The row in which each attempt stands that a step can concern: that of its call, or of the cell that its station is in.
fn step_row(step: &StepAt) -> usize
    ensures row { result ≡ step_row step.now }
    ensures within { result < 1280 }
{
    match facts_of(step.event).about {
        About::Call(call) => call_row(call),
        About::Channel(chan) => chan.cell as usize,
    }
}

/// The row of the cell of the channel, or of the reference, that a refusal names.
fn busy_row(refusal: Refusal) -> Option<usize>
    ensures row { result ≡ busy_row refusal }
    ensures within { IfSome result (λ row. row < 1280) }
{
    match refusal {
        Refusal::ChannelBusy(x) => Some(x.cell as usize),
        Refusal::RefBusy(cell, _) => Some(cell as usize),
        Refusal::NoCall
        | Refusal::CallExists
        | Refusal::WrongPhase
        | Refusal::NoChannel
        | Refusal::SameCell
        | Refusal::Unexpected(_)
        | Refusal::NotArmed => None,
    }
}

/// The row in which each attempt stands that has what a step was refused for.
fn refused_row(step: &StepAt) -> Option<usize>
    ensures row { result ≡ refused_row step.now }
    ensures within { IfSome result (λ row. row < 1280) }
{
    match step.reply {
        Reply::Refused(refusal) => busy_row(refusal),
        Reply::Done | Reply::Record(_, _) | Reply::Owned(_) => None,
    }
}

fn stays_at(attempts: &[Followed], at: usize, step: &StepAt) -> bool
    ensures { result ≡ passes_at (λ p. stays p step.now) attempts.now at }
{
    match attempts.get(at) {
        Some(attempt) => attempt.stays(step),
        None => true,
    }
}

fn is_free_at(attempts: &[Followed], at: usize, step: &StepAt) -> bool
    ensures { result ≡ passes_at (λ p. not (holds p step.now)) attempts.now at }
{
    match attempts.get(at) {
        Some(attempt) => !attempt.holds(step),
        None => true,
    }
}

/// The step stays without each of the attempts at these places.
fn all_stay_at(attempts: &[Followed], row: &[usize], step: &StepAt) -> bool
    ensures { result ≡ list_all (λ i. passes_at (λ p. stays p step.now) attempts.now i) row.now }
{
    row.iter().all(|at| stays_at(attempts, *at, step))
}

/// The step wasn't refused for what one of the attempts at these places holds.
fn all_are_free_at(attempts: &[Followed], row: &[usize], step: &StepAt) -> bool
    ensures { result ≡ list_all (λ i. passes_at (λ p. not (holds p step.now)) attempts.now i) row.now }
{
    row.iter().all(|at| is_free_at(attempts, *at, step))
}

/// The attempt at a place, if one is there, goes on by a step.
fn go_on_one(attempts: &mut [Followed], at: usize, step: &StepAt)
    ensures { attempts.new ≡ gone_on attempts.old at step.now }
{
    if at < attempts.len() {
        attempts[at] = attempts[at].after(step);
    }
}

/// The attempts go on by a step, which concerns none but those at these places.
fn go_on_at(attempts: &mut [Followed], row: &[usize], step: &StepAt)
    requires { IsEnough attempts.old row.now step.now }
    ensures { attempts.new ≡ map (λ p. after p step.now) attempts.old }
{
    let mut rest = row;
    while let [at, more @ ..] = rest {
        go_on_one(attempts, *at, step);
        rest = more;
    }
}

/// The attempts of a list that grows go on by a step, which concerns none but those at these places.
fn go_on_all<A: Allocator>(attempts: &mut Vec<Followed, A>, row: &[usize], step: &StepAt)
    requires { IsEnough attempts.old.items row.now step.now }
    ensures { attempts.new.items ≡ map (λ p. after p step.now) attempts.old.items }
{
    go_on_at(attempts.as_mut_slice(), row, step);
}

/// Attempts that are followed, with the rows in which they stand.
#[derive(Drop)]
pub(crate) struct Followers<A: Allocator> {
    /// In the order of their openings. Those that are over are among them, as they ended.
    pub attempts: Vec<Followed, A>,
    /// Where those that aren't over stand, and ended ones until their row is next cleaned: each in the row of its call, and
    /// in that of its target's cell.
    pub rows: Rows<A>,
}

impl<A: Allocator + Copy> Followers<A> {
    /// Nothing is followed.
    pub fn new(alloc: A) -> Result<Followers<A>, AllocError>
        ensures none { IfOk result (λ followers. followers.attempts.items ≡ []) }
        ensures rows { IfOk result (λ followers. AreRows followers.rows followers.attempts.items) }
    {
        let rows = Rows::new(alloc, ROWS)?;
        Ok(Followers {
            attempts: Vec::new(alloc),
            rows,
        })
    }

    /// The step stays without each of the attempts.
    pub fn all_stay(&self, step: &StepAt) -> bool
        requires rows { AreRows self.now.rows self.now.attempts.items }
        ensures { result ≡ list_all (λ p. stays p step.now) self.now.attempts.items }
    {
        all_stay_at(&self.attempts, self.rows.row(step_row(step)), step)
    }

    /// The step was refused for what one of the attempts holds.
    pub fn is_held(&self, step: &StepAt) -> bool
        requires rows { AreRows self.now.rows self.now.attempts.items }
        ensures { result ≡ is_held_by self.now.attempts.items step.now }
    {
        match refused_row(step) {
            Some(row) => !all_are_free_at(&self.attempts, self.rows.row(row), step),
            None => false,
        }
    }

    /// Those that are over leave a row.
    fn clean(&mut self, row: usize)
        requires rows { AreRows self.old.rows self.old.attempts.items }
        requires within { row < 1280 }
        ensures attempts { self.new.attempts.items ≡ self.old.attempts.items }
        ensures rows { AreRows self.new.rows self.new.attempts.items }
    {
        self.rows.clean(row, &self.attempts);
    }

    /// Each attempt goes on by a step.
    fn go_on(&mut self, step: &StepAt)
        requires rows { AreRows self.old.rows self.old.attempts.items }
        ensures attempts { self.new.attempts.items ≡ map (λ p. after p step.now) self.old.attempts.items }
        ensures rows { AreRows self.new.rows self.new.attempts.items }
    {
        let row = step_row(step);
        go_on_all(&mut self.attempts, self.rows.row(row), step);
        self.clean(row);
        if let Some(row) = refused_row(step) {
            self.clean(row);
        }
    }

    /// One attempt more is followed.
    fn add(&mut self, opening: Followed) -> Result<(), AllocError>
        requires rows { AreRows self.old.rows self.old.attempts.items }
        ensures attempts { IfOk result (λ _. self.new.attempts.items ≡ self.old.attempts.items ++ opening ∷ []) }
        ensures rows { IfOk result (λ _. AreRows self.new.rows self.new.attempts.items) }
    {
        let place = self.attempts.len();
        self.rows.note(call_row(opening.call), place)?;
        self.rows.note(target_row(&opening), place)?;
        self.attempts.push(opening)?;
        Ok(())
    }

    /// Each attempt goes on by a step, and the one that opens with it is followed from here on.
    pub fn follow(&mut self, step: &StepAt, opening: Option<Followed>) -> Result<(), AllocError>
        requires rows { AreRows self.old.rows self.old.attempts.items }
        ensures attempts { IfOk result (λ _. self.new.attempts.items ≡
            map (λ p. after p step.now) self.old.attempts.items ++ option_to_list opening) }
        ensures rows { IfOk result (λ _. AreRows self.new.rows self.new.attempts.items) }
    {
        self.go_on(step);
        match opening {
            Some(opening) => self.add(opening),
            None => Ok(()),
        }
    }

    /// Of each attempt, whether it was taken back and nothing of it is left.
    pub fn settled(&self, alloc: A) -> Result<Vec<bool, A>, AllocError>
        ensures { IfOk result (λ settled. settled.items ≡
            map (λ p. is_settled_in p.phase) self.now.attempts.items) }
    {
        self.attempts
            .iter()
            .map(|attempt| attempt.is_settled())
            .collect(alloc)
    }
}
