//! Candidates, and the order in which they are listed.
ghost use Rattle.std.specs.Prelude.{◌≡◌, ◌≤◌, ◌<◌, ℕ, length, All, AllPairs, OnOk, slice_index_or};
ghost use Rattle.ho_candidates.specs.Order.{StandsBefore, HasOneMore};

use std::alloc::{AllocError, Allocator};

/// A cell that a mobile may be handed over to.
#[derive(Clone, Copy, Debug, PartialEq, Eq)]
pub struct Candidate {
    /// The cell's number: 0 to 63 for an own cell, from 64 on for an outside cell.
    pub cell: u8,
    /// The cell's levels (RXLEV, TS 45.008 clause 8.1.4) in the reports, added up: 0 to 2,016.
    pub sum: u32,
}

/// The place of the first of these candidates that has less than this sum, or their number where none has.
fn place_of(found: &[Candidate], sum: u32) -> usize
    ensures within { result ≤ length found.now }
    ensures before { (k : ℕ) (d : Candidate) → k < result → sum ≤ (slice_index_or found.now k d).sum }
    ensures first { (d : Candidate) → result < length found.now →
        (slice_index_or found.now result d).sum < sum }
{
    match found.iter().position(|other| other.sum < sum) {
        Some(place) => place,
        None => found.len(),
    }
}

/// Puts one more candidate into a list in order. Its cell comes after theirs, so it stands behind those with as large a
/// sum.
pub(crate) fn put<A: Allocator>(
    found: &mut Vec<Candidate, A>,
    candidate: Candidate,
) -> Result<(), AllocError>
    requires order { AllPairs StandsBefore found.old.items }
    requires last { All (λ other. other.cell < candidate.cell) found.old.items }
    ensures members { OnOk result (HasOneMore found.old.items candidate found.new.items) }
    ensures order { OnOk result (AllPairs StandsBefore found.new.items) }
{
    let place = place_of(found.as_slice(), candidate.sum);
    found.insert(place, candidate)?;
    Ok(())
}
