//! How often each report came.
ghost use Rattle.std.specs.Prelude.{◌≡◌, ◌+◌, ◌<◌, ◌^◌, Bool, Some, if◌then◌else◌, OnOk, OnErr, position, slice_get, slice_set};
ghost use Rattle.run_counts.specs.declared.report.Report.{Report};
ghost use Rattle.run_counts.specs.Counts as said;

use crate::report::{Report, What};
use std::alloc::{AllocError, Allocator};

/// A report, and how often it came.
#[derive(Clone, Copy)]
pub struct Row {
    pub(crate) report: Report,
    pub(crate) count: u64,
}

/// Whether two reports are one.
fn is_same(one: Report, other: Report) -> bool
    ensures { result ≡ said.is_report one other }
{
    one == other
}

/// Whether a report is of this.
fn is_of(what: What, report: Report) -> bool
    ensures { result ≡ said.is_of what report }
{
    what == report.what
}

/// Whether this cell is the one that is told.
fn is_cell(cell: u8, told: Option<u8>) -> bool
    ensures { result ≡ said.is_cell cell told }
{
    match told {
        Some(told) => told == cell,
        None => false,
    }
}

/// Whether a report is of this, in this cell.
fn is_in(cell: u8, what: What, report: Report) -> bool
    ensures { result ≡ said.is_in cell what report }
{
    is_cell(cell, report.cell) && is_of(what, report)
}

/// The place of a report's row.
fn place_of(rows: &[Row], report: Report) -> Option<usize>
    ensures { result ≡ position (λ row. said.is_report report row.report) rows.now }
{
    rows.iter().position(|row| is_same(report, row.report))
}

/// One more came of a row's report.
fn count_more<A: Allocator>(rows: &mut Vec<Row, A>, place: usize)
    ensures { (row : Row) → slice_get rows.old.items place ≡ Some row → row.count + 1 < 2 ^ 64 →
        rows.new.items ≡ slice_set rows.old.items place (record row { count = row.count + 1 }) }
{
    if let Some(row) = rows.get_mut(place) {
        row.count = row.count.saturating_add(1);
    }
}

/// Counts a report. Memory may be refused where it comes for the first time, and then nothing has changed.
pub(crate) fn count_report<A: Allocator>(
    rows: &mut Vec<Row, A>,
    report: Report,
) -> Result<(), AllocError>
    ensures counted { OnOk result ((p : Report → Bool) → said.HaveRoom rows.old.items →
        said.counted_by p rows.new.items ≡
        said.counted_by p rows.old.items + (if p report then 1 else 0)) }
    ensures unchanged { OnErr result (rows.new.items ≡ rows.old.items) }
    ensures memory { OnErr result (said.counted_by (said.is_report report) rows.old.items ≡ 0) }
{
    match place_of(rows, report) {
        Some(place) => {
            count_more(rows, place);
            Ok(())
        }
        None => Ok(rows.push(Row { report, count: 1 })?),
    }
}

/// How often a report came.
pub(crate) fn count_of(rows: &[Row], report: Report) -> u64
    ensures { said.counted_by (said.is_report report) rows.now < 2 ^ 64 →
        result ≡ said.counted_by (said.is_report report) rows.now }
{
    let mut count: u64 = 0;
    for row in rows {
        if is_same(report, row.report) {
            count = count.saturating_add(row.count);
        }
    }
    count
}

/// How often this came in a cell.
pub(crate) fn count_in(rows: &[Row], cell: u8, what: What) -> u64
    ensures { said.counted_by (said.is_in cell what) rows.now < 2 ^ 64 →
        result ≡ said.counted_by (said.is_in cell what) rows.now }
{
    let mut count: u64 = 0;
    for row in rows {
        if is_in(cell, what, row.report) {
            count = count.saturating_add(row.count);
        }
    }
    count
}

/// How often this came, in whatever cell.
pub(crate) fn count_in_all(rows: &[Row], what: What) -> u64
    ensures { said.counted_by (said.is_of what) rows.now < 2 ^ 64 →
        result ≡ said.counted_by (said.is_of what) rows.now }
{
    let mut count: u64 = 0;
    for row in rows {
        if is_of(what, row.report) {
            count = count.saturating_add(row.count);
        }
    }
    count
}
