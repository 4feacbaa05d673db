//! What the lines of one controller told so far, counted.
ghost use Rattle.std.specs.Prelude.{◌≡◌, ◌+◌, ◌<◌, ◌^◌, [], ◌∷◌, ◌++◌, List, length, count_by, OnOk, OnErr};
ghost use Rattle.run_counts.specs.declared.told.Told.{Told};
ghost use Rattle.run_counts.specs.Reports.{reports_of};
ghost use Rattle.run_counts.specs.Counts.{IsSummaryOf, IsFirstOfItsReport, is_report, is_in, is_of};

use crate::counts::{Row, count_in, count_in_all, count_of, count_report};
use crate::report::{Report, Standing, What, report_of, standing_behind};
use crate::told::Told;
use std::alloc::{AllocError, Allocator, Global};

/// What the lines of one controller told so far, counted. No line is kept.
#[derive(Drop)]
pub struct Summary<A: Allocator = Global> {
    standing: Standing,
    /// Each report that came, once.
    rows: Vec<Row, A>,
}

impl<A: Allocator> Summary<A> {
    /// No line came yet.
    pub fn new(alloc: A) -> Summary<A>
        ensures none { IsSummaryOf [] result }
    {
        Summary {
            standing: Standing::first(),
            rows: Vec::new(alloc),
        }
    }

    /// Counts what a line tells. Memory may be refused where that is counted for the first time: it isn't counted then, and
    /// nothing has changed.
    pub fn add(&mut self, told: Told) -> Result<(), AllocError>
        ensures counted { OnOk result ((lines : List Told) → length lines + 1 < 2 ^ 64 →
            IsSummaryOf lines self.old → IsSummaryOf (lines ++ told ∷ []) self.new) }
        ensures unchanged { OnErr result ((lines : List Told) →
            IsSummaryOf lines self.old → IsSummaryOf lines self.new) }
        ensures memory { OnErr result ((lines : List Told) →
            IsSummaryOf lines self.old → IsFirstOfItsReport lines told) }
    {
        if let Some(report) = report_of(self.standing, told) {
            count_report(&mut self.rows, report)?;
        }
        self.standing = standing_behind(self.standing, told);
        Ok(())
    }

    /// How often a report came.
    pub fn count(&self, report: Report) -> u64
        ensures count { (lines : List Told) → length lines < 2 ^ 64 → IsSummaryOf lines self.now →
            result ≡ count_by (is_report report) (reports_of lines) }
    {
        count_of(&self.rows, report)
    }

    /// How often this came in a cell.
    pub fn count_in(&self, cell: u8, what: What) -> u64
        ensures count { (lines : List Told) → length lines < 2 ^ 64 → IsSummaryOf lines self.now →
            result ≡ count_by (is_in cell what) (reports_of lines) }
    {
        count_in(&self.rows, cell, what)
    }

    /// How often this came, in whatever cell.
    pub fn count_in_all(&self, what: What) -> u64
        ensures count { (lines : List Told) → length lines < 2 ^ 64 → IsSummaryOf lines self.now →
            result ≡ count_by (is_of what) (reports_of lines) }
    {
        count_in_all(&self.rows, what)
    }

    /// Whether nothing came that is counted.
    pub fn is_empty(&self) -> bool {
        self.rows.is_empty()
    }

    /// Whether an attempt came that is told to lead to this cell.
    pub fn leads_to(&self, cell: u8) -> bool {
        self.rows.iter().any(|row| row.report.to == Some(cell))
    }

    /// Whether anything came that is told of this cell.
    pub fn has_cell(&self, cell: u8) -> bool {
        self.rows.iter().any(|row| row.report.cell == Some(cell))
    }
}
