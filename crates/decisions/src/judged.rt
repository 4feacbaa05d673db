//! What is asked of a cell's sum, and what it lacks.
ghost use Rattle.std.specs.Prelude.{◌≡◌, ◌≢◌, ◌↔◌, ◌+◌, ◌*◌, ◌≤◌, ℕ, length, IfSome, IfNone};
ghost use Rattle.measurements.specs.Reports.{sum_used, sum_named};
ghost use Rattle.cell_table.specs.Neighbours.{IsNamedCell};
ghost use Rattle.ho_candidates.specs.Candidates.{IsCandidate};
ghost use Rattle.decisions.specs.Judged.{IsLack, asked_by};

use cell_table::Site;
use measurements::Window;
use std::alloc::Allocator;

/// What a cell's levels, added up over the reports that there are, have to be at least: 0 to 4,032 each.
#[derive(Clone, Copy, Debug, PartialEq, Eq)]
pub struct LeastSums {
    /// By `margin`: those of the serving cell, and `margin` more for each report.
    pub margin: u32,
    /// By `minimum`: that for each report.
    pub minimum: u32,
}

/// What a sum lacks.
#[derive(Clone, Copy, Debug, PartialEq, Eq)]
pub enum Lack {
    /// It is what `margin` and `minimum` ask.
    Nothing,
    /// `margin` asks more, `minimum` doesn't.
    Margin,
    /// `minimum` asks more, `margin` doesn't.
    Minimum,
    /// Both ask more.
    Both,
}

/// A neighbour by the reports that there are.
#[derive(Clone, Copy, Debug, PartialEq, Eq)]
pub struct Judged {
    /// Its levels, added up: 0 to 2,016.
    pub sum: u32,
    /// What that lacks.
    pub lack: Lack,
}

/// What is asked of a cell's sum, by the reports in a window that was made for as many as the site says.
pub fn asked_of<W: Allocator, S: Allocator + Copy>(window: &Window<W>, site: &Site<S>) -> LeastSums
    requires width { window.now.width ≡ site.now.handover.window }
    ensures asked { result ≡ asked_by window.now site.now }
{
    let _most = site.window();
    let reports = window.len() as u32;
    LeastSums {
        margin: window.serving_sum() + u32::from(site.margin()) * reports,
        minimum: u32::from(site.minimum()) * reports,
    }
}

/// What a sum lacks of what is asked.
fn lack_of(sum: u32, asked: LeastSums) -> Lack
    ensures lack { IsLack asked sum result }
{
    match (sum < asked.margin, sum < asked.minimum) {
        (false, false) => Lack::Nothing,
        (true, false) => Lack::Margin,
        (false, true) => Lack::Minimum,
        (true, true) => Lack::Both,
    }
}

/// A cell by the reports in a window, and by what is asked of its sum; `None` if mobiles in the serving cell don't name it.
/// By what the window and the site ask ([`asked_of`]), a cell that isn't the serving one, and whose sum lacks nothing, is a
/// candidate once the window is full ([`candidates`](ho_candidates::candidates)), and no other is.
pub fn judge<W: Allocator, S: Allocator + Copy>(
    window: &Window<W>,
    site: &Site<S>,
    serving: u8,
    cell: u8,
    asked: LeastSums,
) -> Option<Judged>
    ensures sum { IfSome result (λ judged. (position bsic : ℕ) → IsNamedCell site.now serving position bsic cell →
        judged.sum ≡ sum_named position bsic window.now.reports) }
    ensures lack { IfSome result (λ judged. IsLack asked judged.sum judged.lack) }
    ensures candidate { IfSome result (λ judged. asked ≡ asked_by window.now site.now →
        cell ≢ serving → length window.now.reports ≡ site.now.handover.window →
        (judged.lack ≡ Lack.Nothing) ↔
        IsCandidate window.now site.now serving (record { cell = cell; sum = judged.sum })) }
    ensures named { IfSome result (λ judged. (position : ℕ) × (bsic : ℕ) × IsNamedCell site.now serving position bsic cell) }
    ensures none { IfNone result ((position bsic : ℕ) → ¬ IsNamedCell site.now serving position bsic cell) }
{
    let (position, bsic) = site.reported_as(serving, cell)?;
    let sum = window.sum_of(position, bsic);
    let lack = lack_of(sum, asked);
    Some(Judged { sum, lack })
}
