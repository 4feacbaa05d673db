//! The reports that are kept of each call.
ghost use Rattle.std.specs.Prelude.{◌≡◌, ◌≤◌, ◌<◌, ℕ, true, not, filter, None, IsTrue, IsOk, OnOk, IfSome, IfNone, vec_len, vec_capacity};
ghost use Rattle.cell_table.specs.Limits.{most_reports};
ghost use Rattle.measurements.specs.Reports.{no_reports};
ghost use Rattle.std.specs.List.{position};
ghost use Rattle.ho_procedure.specs.Windows.{reports_of, is_of, with_report, IsNoted, SameReports, SameReportsBut};

use measurements::Window;
use rr_elements::MeasResults;
use std::alloc::{AllocError, Allocator, Global};
use std::marker::Model;

/// The last valid reports of each call that reports. Contracts see the reports of every call, none where it has no window.
///
/// A window is made before it is known whose it will be, by [`Windows::make_room`]; then [`Windows::note`] asks for no
/// memory.
#[derive(Drop)]
pub(crate) struct Windows<A: Allocator = Global> {
    entries: Vec<(u16, Window<A>), A>,
    // empty: for a call that has no window yet
    spare: Option<Window<A>>,
    width: usize,
    alloc: A,
}

impl<A: Allocator> Model for Windows<A> {
    ghost use Rattle.std.specs.Prelude.{◌&&◌, ◌≡◌, nat_lt, is_some, IfSome, vec_len, vec_capacity};
    ghost use Rattle.measurements.specs.Reports.{no_reports};
    ghost use Rattle.ho_procedure.specs.Windows.{Kept, AreKept};

    ghost Value = { Kept };

    ghost view = { λ w. record {
      entries = w.entries.items;
      width = w.width;
      is_ready = is_some w.spare && nat_lt (vec_len w.entries) (vec_capacity w.entries);
    } };

    ghost invariant = { λ w. AreKept w.entries.items w.width ×
        IfSome w.spare (λ window. window ≡ no_reports w.width) };
}

impl<A: Allocator + Copy> Windows<A> {
    /// No call has a report. The last `width` valid reports of a call count, 1 to 32.
    pub(crate) fn new(alloc: A, width: usize) -> Windows<A>
        requires some { 1 ≤ width }
        requires most { width ≤ most_reports }
        ensures none { (call : ℕ) → reports_of result call ≡ no_reports width }
        ensures width { result.width ≡ width }
    {
        Windows {
            entries: Vec::new(alloc),
            spare: None,
            width,
            alloc,
        }
    }

    /// Makes room for the reports of one more call. Where there is room for them, no memory is asked for. The reports stay,
    /// also if memory is refused.
    pub(crate) fn make_room(&mut self) -> Result<(), AllocError>
        ensures ready { OnOk result (IsTrue self.new.is_ready) }
        ensures had_room { self.old.is_ready ≡ true → IsOk result }
        ensures reports { SameReports self.old self.new }
        ensures width { self.new.width ≡ self.old.width }
    {
        self.entries.reserve(1)?;
        if self.spare.is_none() {
            self.spare = Some(Window::new(self.alloc, self.width)?);
        }
        Ok(())
    }
}

impl<A: Allocator> Windows<A> {
    /// Adds a report of a call. An invalid one changes nothing; where the call's window is full, the oldest goes.
    pub(crate) fn note(&mut self, call: u16, report: &MeasResults)
        requires { IsTrue self.old.is_ready }
        ensures noted { (reports_of self.new call).reports ≡ with_report self.old.width
            (reports_of self.old call).reports report.now }
        ensures others { SameReportsBut call self.old self.new }
        ensures width { self.new.width ≡ self.old.width }
    {
        match self.place_of(call) {
            Some(place) => add_at(&mut self.entries, place, report),
            None => self.begin(call, report),
        }
    }

    /// Forgets the reports of a call, and its entry.
    pub(crate) fn clear(&mut self, call: u16)
        ensures entries { self.new.entries ≡ filter (λ e. not (is_of call e)) self.old.entries }
        ensures cleared { reports_of self.new call ≡ no_reports self.old.width }
        ensures others { SameReportsBut call self.old self.new }
        ensures width { self.new.width ≡ self.old.width }
        ensures ready { self.old.is_ready ≡ true → self.new.is_ready ≡ true }
    {
        drop_entries(&mut self.entries, call);
    }

    /// The reports of a call, where it has any.
    pub(crate) fn window(&self, call: u16) -> Option<&Window<A>>
        ensures reports { IfSome result (λ window. window.now ≡ reports_of self.now call) }
        ensures width { IfSome result (λ window. window.now.width ≡ self.now.width) }
        ensures none { IfNone result (reports_of self.now call ≡ no_reports self.now.width) }
    {
        let place = self.place_of(call)?;
        Some(&self.entries[place].1)
    }
}

impl<A: Allocator> Windows<A> {
    /// The place of a call's entry.
    fn place_of(&self, call: u16) -> Option<usize>
        ensures { result ≡ position (is_of call) self.now.entries }
    {
        self.entries.iter().position(|entry| entry.0 == call)
    }

    /// The first report of a call that has no entry.
    fn begin(&mut self, call: u16, report: &MeasResults)
        requires ready { IsTrue self.old.is_ready }
        requires new { position (is_of call) self.old.entries ≡ None }
        ensures noted { (reports_of self.new call).reports ≡ with_report self.old.width
            (reports_of self.old call).reports report.now }
        ensures others { SameReportsBut call self.old self.new }
        ensures width { self.new.width ≡ self.old.width }
    {
        let Some(mut window) = self.spare.take() else {
            unreachable!()
        };
        window.add(report);
        self.entries.push_reserved((call, window));
    }
}

/// Adds a report to the window at a place.
fn add_at<A: Allocator>(entries: &mut Vec<(u16, Window<A>), A>, place: usize, report: &MeasResults)
    requires { place < vec_len entries.old }
    ensures { IsNoted place report.now entries.old.items entries.new.items }
{
    match entries.get_mut(place) {
        Some(entry) => entry.1.add(report),
        None => unreachable!(),
    }
}

/// Drops the entries of a call.
fn drop_entries<A: Allocator>(entries: &mut Vec<(u16, Window<A>), A>, call: u16)
    ensures others { entries.new.items ≡ filter (λ e. not (is_of call e)) entries.old.items }
    ensures len { vec_len entries.new ≤ vec_len entries.old }
    ensures capacity { vec_capacity entries.new ≡ vec_capacity entries.old }
{
    entries.retain(|entry| entry.0 != call);
}
