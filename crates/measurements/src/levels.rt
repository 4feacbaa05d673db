//! The levels in measurement results.
ghost use Rattle.std.specs.Prelude.{All, ◌≡◌, ◌*◌, ◌<◌, ◌≤◌, length};
ghost use Rattle.measurements.specs.Reports.{level_used, first_level, sum_used, sum_named};
ghost use Rattle.rr_elements.specs.MeasResults.{NcellFits};

use rr_elements::{MeasResults, Ncell};

/// The serving cell's level.
fn serving_level(report: &MeasResults) -> u8
    ensures value { result ≡ level_used report.now }
    ensures range { result < 64 }
{
    let head = report.head();
    if head.dtx { head.sub } else { head.full }
}

/// The level of the first of these neighbours with this position and code, or 0.
fn level_named(neighbours: &[Ncell], position: u8, bsic: u8) -> u8
    requires { All NcellFits neighbours.now }
    ensures value { result ≡ first_level position bsic neighbours.now }
    ensures range { result < 64 }
{
    match neighbours {
        [] => 0,
        [first, rest @ ..] => {
            if first.position == position && first.bsic == bsic {
                first.level
            } else {
                level_named(rest, position, bsic)
            }
        }
    }
}

/// The serving cell's levels in these reports, added up.
pub(crate) fn serving_levels(reports: &[MeasResults]) -> u32
    requires { length reports.now ≤ 32 }
    ensures sum { result ≡ sum_used reports.now }
    ensures range { result ≤ 63 * length reports.now }
{
    let mut sum = 0;
    for report in reports {
        sum += u32::from(serving_level(report));
    }
    sum
}

/// The levels in these reports of the neighbour with this position and code, added up.
pub(crate) fn neighbour_levels(reports: &[MeasResults], position: u8, bsic: u8) -> u32
    requires { length reports.now ≤ 32 }
    ensures sum { result ≡ sum_named position bsic reports.now }
    ensures range { result ≤ 63 * length reports.now }
{
    let mut sum = 0;
    for report in reports {
        sum += u32::from(level_named(report.neighbours(), position, bsic));
    }
    sum
}
