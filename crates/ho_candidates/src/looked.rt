//! Which cells are candidates.
ghost use Rattle.std.specs.Prelude.{◌≡◌, ◌↔◌, ◌+◌, ◌*◌, ◌<◌, max, length, AllPairs, Contains, IfOk, IfSome, IfNone, OnErr};
ghost use Rattle.measurements.specs.Reports.{sum_used};
ghost use Rattle.ho_candidates.specs.Order.{StandsBefore};
ghost use Rattle.ho_candidates.specs.Candidates.{IsCandidate, SomeCandidate, NoCandidateIn, IsOnlyCandidateIn};

use crate::listed::{Candidate, put};
use cell_table::Site;
use cell_table::limits::FIRST_OUTSIDE;
use measurements::Window;
use std::alloc::{AllocError, Allocator};

/// The least sum of a candidate.
fn least_sum<W: Allocator, S: Allocator + Copy>(window: &Window<W>, site: &Site<S>) -> u32
    ensures { let rule = site.now.handover in
        result ≡ max (sum_used window.now.reports + rule.margin * rule.window)
        (rule.minimum * rule.window) }
{
    let reports = u32::from(site.window());
    let better = window.serving_sum() + u32::from(site.margin()) * reports;
    better.max(u32::from(site.minimum()) * reports)
}

/// A cell as a candidate, where it is one; `least` is the least sum of one.
fn candidate_in<W: Allocator, S: Allocator + Copy>(
    window: &Window<W>,
    site: &Site<S>,
    cell: u8,
    other: u8,
    least: u32,
) -> Option<Candidate>
    requires full { length window.now.reports ≡ site.now.handover.window }
    requires least { let rule = site.now.handover in
        least ≡ max (sum_used window.now.reports + rule.margin * rule.window)
        (rule.minimum * rule.window) }
    ensures found { IfSome result (IsCandidate window.now site.now cell) }
    ensures cell { IfSome result (λ candidate. candidate.cell ≡ other) }
    ensures only { IfSome result (IsOnlyCandidateIn window.now site.now cell other) }
    ensures none { IfNone result (NoCandidateIn window.now site.now cell other) }
{
    if other == cell {
        return None;
    }
    let (place, bsic) = site.reported_as(cell, other)?;
    let sum = window.sum_of(place, bsic);
    if sum < least {
        return None;
    }
    Some(Candidate { cell: other, sum })
}

/// The cells that a mobile in an own cell may be handed over to, by the reports in its window. The window has room for as
/// many reports as the site says (`window`).
///
/// A candidate is another cell, own or outside, with its carrier in the serving cell's `ba`. The sum of its levels over the
/// reports is at least the serving cell's sum plus `margin` for each report, and at least `minimum` for each report. In a
/// report that doesn't name the cell, by its position in the neighbour list and its base station identity code, its level
/// counts as 0. Candidates are listed by their sums, the largest first; those with equal sums by their cells, the lowest
/// first.
///
/// There is none until the window is full, nor if `cell` isn't an own cell of the site. Memory can be refused only if there
/// is a candidate.
pub fn candidates<A: Allocator, W: Allocator, S: Allocator + Copy>(
    alloc: A,
    window: &Window<W>,
    site: &Site<S>,
    cell: u8,
) -> Result<Vec<Candidate, A>, AllocError>
    requires width { window.now.width ≡ site.now.handover.window }
    ensures members { IfOk result (λ found. (candidate : Candidate) →
        Contains found.items candidate ↔ IsCandidate window.now site.now cell candidate) }
    ensures order { IfOk result (λ found. AllPairs StandsBefore found.items) }
    ensures no_memory { OnErr result (SomeCandidate window.now site.now cell) }
{
    let mut found = Vec::new(alloc);
    if cell >= site.cells() {
        return Ok(found);
    }
    if window.len() < usize::from(site.window()) {
        return Ok(found);
    }
    let least = least_sum(window, site);
    for other in 0..FIRST_OUTSIDE + site.outside_cells() {
        if let Some(candidate) = candidate_in(window, site, cell, other, least) {
            put(&mut found, candidate)?;
        }
    }
    Ok(found)
}
