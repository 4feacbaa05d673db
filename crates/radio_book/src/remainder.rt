//! What stays of a list of steps without the undone attempt that opens at a place.
ghost use Rattle.std.specs.Prelude.{◌≡◌, ◌++◌, Ok, None, IfOk, IfSome};
ghost use Rattle.radio_book.specs.Undone.{Undone, others, held_refusals, is_settled};
ghost use Rattle.radio_book.specs.Following.{IsShownAt, others_from, held_from, at_last};

use crate::following::{Followed, opening_of};
use crate::undone::StepAt;
use std::alloc::{AllocError, Allocator};

/// What stays of a list of steps without an undone attempt.
#[derive(Drop)]
pub struct Remainder<A: Allocator> {
    /// The others.
    pub kept: Vec<StepAt, A>,
    /// The others that were refused for what the attempt held.
    pub held: Vec<StepAt, A>,
    /// No release of its target is still awaited.
    pub settled: bool,
}

/// What came of steps that an attempt was followed along.
#[derive(Drop)]
struct Trail<A: Allocator> {
    kept: Vec<StepAt, A>,
    held: Vec<StepAt, A>,
    last: Followed,
}

/// Follows an attempt along the steps behind its opening. What stays of them comes behind the steps in front.
fn follow<A: Allocator + Copy>(
    alloc: A,
    front: &[StepAt],
    opening: Followed,
    behind: &[StepAt],
) -> Result<Trail<A>, AllocError>
    ensures kept { IfOk result (λ trail. trail.kept.items ≡ front.now ++ others_from opening behind.now) }
    ensures held { IfOk result (λ trail. trail.held.items ≡ held_from opening behind.now) }
    ensures last { IfOk result (λ trail. trail.last ≡ at_last opening behind.now) }
{
    let mut kept = Vec::from_slice(alloc, front)?;
    let mut held = Vec::new(alloc);
    let mut last = opening;
    for step in behind {
        if last.stays(step) {
            kept.push(*step)?;
        }
        if last.holds(step) {
            held.push(*step)?;
        }
        last = last.after(step);
    }
    Ok(Trail { kept, held, last })
}

/// What stays of the steps without the undone attempt whose opening stands at a place. `None` if no such attempt opens
/// there.
pub fn remainder_at<A: Allocator + Copy>(
    alloc: A,
    steps: &[StepAt],
    at: usize,
) -> Result<Option<Remainder<A>>, AllocError>
    ensures attempt { IfOk result (λ found. IfSome found (λ remainder. (u : Undone) × IsShownAt steps.now at u)) }
    ensures none { result ≡ Ok None → (u : Undone) → IsShownAt steps.now at u → ⊥ }
    ensures kept { IfOk result (λ found. IfSome found (λ remainder. (u : Undone) →
        IsShownAt steps.now at u → remainder.kept.items ≡ others u)) }
    ensures held { IfOk result (λ found. IfSome found (λ remainder. (u : Undone) →
        IsShownAt steps.now at u → remainder.held.items ≡ held_refusals u)) }
    ensures settled { IfOk result (λ found. IfSome found (λ remainder. (u : Undone) →
        IsShownAt steps.now at u → remainder.settled ≡ is_settled u)) }
{
    let Some(step) = steps.get(at) else {
        return Ok(None);
    };
    let Some(opening) = opening_of(step) else {
        return Ok(None);
    };
    let trail = follow(alloc, &steps[..at], opening, &steps[at + 1..])?;
    if !trail.last.is_undone() {
        return Ok(None);
    }
    Ok(Some(Remainder {
        kept: trail.kept,
        held: trail.held,
        settled: trail.last.is_settled(),
    }))
}
