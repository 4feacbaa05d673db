//! The steps of a row, each with the plan that it leads from and to.
ghost use Rattle.std.specs.Prelude.{◌≡◌, ◌≤◌, ℕ, List, true, IsTrue, IfOk, IfErr, IsOk, OnOk, OnErr, Err, MatchOption};
ghost use Rattle.channel_fsm.specs.declared.ChanId.{ChanId};
ghost use Rattle.ho_candidates.specs.declared.listed.Candidate.{Candidate};
ghost use Rattle.radio_book.specs.declared.event.Reply.{Reply};
ghost use Rattle.radio_book.specs.Kinds.{is_accepted};
ghost use Rattle.ho_procedure.specs.Windows.{with_report};
ghost use Rattle.ho_procedure.specs.Plan.{Plan, Readies, ForMessages, ForUnread, ForReports, AreCandidates, Asks, Takes, Opens, Reserves, Notes, Ranks, call_dropped, dropped_if};
ghost use Rattle.ho_candidates.specs.Candidates.{SomeCandidate};
ghost use Rattle.ho_procedure.specs.Going.{Goes, Passes, last_reports, stops_at};

use crate::outbox::Outbox;
use crate::view::DeskView;
use crate::windows::Windows;
use cell_table::Site;
use channel_fsm::{ChanId, ChanState, Rate};
use ho_candidates::{Candidate, candidates};
use measurements::Window;
use radio_book::event::{CallRecord, Event, Kind, Reply};
use radio_book::facts::facts_of;
use radio_desk::desk::DeskFault;
use rr_elements::MeasResults;
use std::alloc::{AllocError, Allocator};

/// How a part of a row ended.
#[derive(Clone, Copy)]
pub(crate) enum Flow {
    /// The row goes on.
    On,
    /// The row is over.
    Over,
}

/// What the book has of a call.
#[derive(Clone, Copy)]
pub(crate) struct Shown {
    pub(crate) record: CallRecord,
    /// The state of the serving channel.
    pub(crate) state: Option<ChanState>,
}

/// A view that is asked, the messages that are owed, and the reports of each call.
#[derive(Drop)]
pub(crate) struct Work<D: DeskView + Drop, A: Allocator> {
    pub(crate) view: D,
    pub(crate) owed: Outbox<A>,
    pub(crate) windows: Windows<A>,
    pub(crate) alloc: A,
}

/// Drops the reports of a call, once an event says so.
#[tactic(auto, using(crate::proofs::Reporting::but_one))]
fn drop_reports<A: Allocator>(windows: &mut Windows<A>, event: Event, reply: Reply)
    ensures reports { (call : ℕ) → last_reports windows.new call ≡
        dropped_if (is_accepted reply) (call_dropped event) call (last_reports windows.old call) }
    ensures width { windows.new.width ≡ windows.old.width }
    ensures ready { windows.old.is_ready ≡ true → windows.new.is_ready ≡ true }
{
    if let Some(call) = facts_of(event).drops {
        if reply.is_accepted() {
            windows.clear(call);
        }
    }
}

impl<D: DeskView + Drop, A: Allocator + Copy> Work<D, A> {
    /// Makes room for this many messages more.
    #[tactic(auto, using(crate::proofs::Going::readied, crate::proofs::Going::unready))]
    pub(crate) fn make_room(&mut self, messages: usize) -> Result<(), DeskFault>
        ensures ok { OnOk result ((next : Plan) → Passes D.log D.says self.old
            (Readies (ForMessages messages) next) self.new next) }
        ensures room { OnOk result (messages ≤ self.new.owed.room) }
        ensures err { IfErr result (λ f. (next : Plan) → Goes D.log D.says self.old
            (Readies (ForMessages messages) next) self.new (stops_at f)) }
        ensures no_memory { OnErr result (result ≡ Err DeskFault.NoMemory) }
        ensures windows { self.new.windows ≡ self.old.windows }
    {
        Ok(self.owed.make_room(messages)?)
    }

    /// Makes room for one message in which so many octets are passed on unread.
    #[tactic(auto, using(crate::proofs::Going::readied, crate::proofs::Going::unready))]
    pub(crate) fn make_unread_room(&mut self, octets: usize) -> Result<(), DeskFault>
        requires { octets ≤ 1015 }
        ensures ok { OnOk result ((next : Plan) → Passes D.log D.says self.old
            (Readies (ForUnread octets) next) self.new next) }
        ensures room { OnOk result (1 ≤ self.new.owed.room) }
        ensures unread_room { OnOk result (octets ≤ self.new.owed.unread_room) }
        ensures err { IfErr result (λ f. (next : Plan) → Goes D.log D.says self.old
            (Readies (ForUnread octets) next) self.new (stops_at f)) }
        ensures had_room { 1 ≤ self.old.owed.room → 1 ≤ octets →
            octets ≤ self.old.owed.unread_room → IsOk result }
        ensures no_memory { OnErr result (result ≡ Err DeskFault.NoMemory) }
    {
        Ok(self.owed.make_unread_room(octets)?)
    }

    /// Makes room for the reports of one more call.
    #[tactic(auto, using(crate::proofs::Going::readied, crate::proofs::Going::unready))]
    pub(crate) fn make_window(&mut self) -> Result<(), DeskFault>
        ensures ok { OnOk result ((next : Plan) → Passes D.log D.says self.old
            (Readies ForReports next) self.new next) }
        ensures ready { OnOk result (IsTrue self.new.windows.is_ready) }
        ensures err { IfErr result (λ f. (next : Plan) → Goes D.log D.says self.old
            (Readies ForReports next) self.new (stops_at f)) }
        ensures had_room { self.old.windows.is_ready ≡ true → IsOk result }
        ensures no_memory { OnErr result (result ≡ Err DeskFault.NoMemory) }
        ensures reports { (call : ℕ) →
            last_reports self.new.windows call ≡ last_reports self.old.windows call }
        ensures width { self.new.windows.width ≡ self.old.windows.width }
        ensures owed { self.new.owed ≡ self.old.owed }
    {
        Ok(self.windows.make_room()?)
    }

    /// Asks an event.
    #[tactic(auto, using(crate::proofs::Going::asked, crate::proofs::Going::unasked))]
    pub(crate) fn ask(&mut self, event: Event) -> Result<Reply, DeskFault>
        ensures ok { IfOk result (λ reply. (next : Reply → Plan) →
            Passes D.log D.says self.old (Asks event next) self.new (next reply)) }
        ensures err { IfErr result (λ f. (next : Reply → Plan) → Goes D.log D.says self.old
            (Asks event next) self.new (stops_at f)) }
        ensures owed { self.new.owed ≡ self.old.owed }
        ensures reports { IfOk result (λ reply. (call : ℕ) → last_reports self.new.windows call ≡
            dropped_if (is_accepted reply) (call_dropped event) call
            (last_reports self.old.windows call)) }
        ensures kept { OnErr result (self.new.windows ≡ self.old.windows) }
        ensures width { self.new.windows.width ≡ self.old.windows.width }
        ensures ready { self.old.windows.is_ready ≡ true → self.new.windows.is_ready ≡ true }
    {
        let receipt = self.view.judge(event)?;
        drop_reports(&mut self.windows, event, receipt.reply);
        Ok(receipt.reply)
    }

    /// Takes some channel of a cell that is free at a rate, or finds that none is free.
    #[tactic(auto, using(crate::proofs::Going::took, crate::proofs::Going::found_none, crate::proofs::Going::untaken))]
    pub(crate) fn take(
        &mut self,
        call: u16,
        kind: Kind,
        cell: u8,
        rate: Rate,
    ) -> Result<Option<(ChanId, Reply)>, DeskFault>
        ensures ok { IfOk result (λ answer. MatchOption answer
            ((none : Plan) → (next : ChanId → Reply → Plan) →
            Passes D.log D.says self.old (Takes call kind cell rate none next) self.new none)
            (λ taken. (none : Plan) → (next : ChanId → Reply → Plan) →
            Passes D.log D.says self.old (Takes call kind cell rate none next) self.new
            (next taken.0 taken.1))) }
        ensures err { IfErr result (λ f. (none : Plan) → (next : ChanId → Reply → Plan) →
            Goes D.log D.says self.old (Takes call kind cell rate none next)
            self.new (stops_at f)) }
        ensures owed { self.new.owed ≡ self.old.owed }
    {
        let Some(receipt) = self.view.judge_take(call, kind, cell, rate)? else {
            return Ok(None);
        };
        let Event::Take(_, _, chan) = receipt.event else {
            unreachable!()
        };
        Ok(Some((chan, receipt.reply)))
    }

    /// Opens a call on some channel of a cell that is free at a rate, or finds that none is free.
    #[tactic(auto, using(crate::proofs::Going::began, crate::proofs::Going::began_on_none, crate::proofs::Going::unopened))]
    pub(crate) fn seize(
        &mut self,
        call: u16,
        cell: u8,
        rate: Rate,
    ) -> Result<Option<(ChanId, Reply)>, DeskFault>
        ensures ok { IfOk result (λ answer. MatchOption answer
            ((none : Plan) → (next : ChanId → Reply → Plan) →
            Passes D.log D.says self.old (Opens call cell rate none next) self.new none)
            (λ opened. (none : Plan) → (next : ChanId → Reply → Plan) →
            Passes D.log D.says self.old (Opens call cell rate none next) self.new
            (next opened.0 opened.1))) }
        ensures err { IfErr result (λ f. (none : Plan) → (next : ChanId → Reply → Plan) →
            Goes D.log D.says self.old (Opens call cell rate none next)
            self.new (stops_at f)) }
        ensures owed { self.new.owed ≡ self.old.owed }
    {
        let Some(receipt) = self.view.judge_open(call, cell, rate)? else {
            return Ok(None);
        };
        let Event::Open(_, chan) = receipt.event else {
            unreachable!()
        };
        drop_reports(&mut self.windows, receipt.event, receipt.reply);
        Ok(Some((chan, receipt.reply)))
    }

    /// Reserves some free handover reference.
    #[tactic(auto, using(crate::proofs::Going::reserved, crate::proofs::Going::unreserved))]
    pub(crate) fn reserve(&mut self, call: u16) -> Result<(u8, Reply), DeskFault>
        ensures ok { IfOk result (λ answer. (next : ℕ → Reply → Plan) →
            Passes D.log D.says self.old (Reserves call next) self.new (next answer.0 answer.1)) }
        ensures err { IfErr result (λ f. (next : ℕ → Reply → Plan) → Goes D.log D.says self.old
            (Reserves call next) self.new (stops_at f)) }
        ensures owed { self.new.owed ≡ self.old.owed }
    {
        let receipt = self.view.judge_reserve(call)?;
        let Event::Reserve(_, number) = receipt.event else {
            unreachable!()
        };
        Ok((number, receipt.reply))
    }

    /// Notes a report of a call.
    #[tactic(auto, using(crate::proofs::Going::noted, crate::proofs::Reporting::but_one))]
    pub(crate) fn note(&mut self, call: u16, report: &MeasResults)
        requires { IsTrue self.old.windows.is_ready }
        ensures goes { (next : Plan) → Passes D.log D.says self.old
            (Notes call (with_report self.old.windows.width
            (last_reports self.old.windows call) report.now) next) self.new next }
        ensures reports { last_reports self.new.windows call ≡ with_report self.old.windows.width
            (last_reports self.old.windows call) report.now }
        ensures width { self.new.windows.width ≡ self.old.windows.width }
        ensures owed { self.new.owed ≡ self.old.owed }
    {
        self.windows.note(call, report);
    }
}

impl<D: DeskView + Drop, A: Allocator + Copy> Work<D, A> {
    /// The candidates that the last reports of a call make of the cells.
    #[tactic(auto, using(crate::proofs::Going::ranked, crate::proofs::Going::unranked, crate::proofs::Ranking::no_candidates))]
    pub(crate) fn rank(
        &self,
        site: &Site<A>,
        call: u16,
        serving: u8,
    ) -> Result<Vec<Candidate, A>, DeskFault>
        requires { self.now.windows.width ≡ site.now.handover.window }
        ensures goes { IfOk result (λ found. (next : List Candidate → Plan) →
            Passes D.log D.says self.now
            (Ranks site.now (last_reports self.now.windows call) serving next) self.now
            (next found.items)) }
        ensures err { IfErr result (λ f. (next : List Candidate → Plan) → Goes D.log D.says self.now
            (Ranks site.now (last_reports self.now.windows call) serving next)
            self.now (stops_at f)) }
        ensures no_memory { OnErr result (result ≡ Err DeskFault.NoMemory) }
    {
        let _cells = site.cells();
        let Some(window) = self.windows.window(call) else {
            return Ok(Vec::new(self.alloc));
        };
        Ok(candidates_by(self.alloc, window, site, serving)?)
    }
}

/// The candidates that the reports in a window make of the cells.
#[tactic(auto, using(crate::proofs::Ranking::are_candidates))]
fn candidates_by<A: Allocator + Copy>(
    alloc: A,
    window: &Window<A>,
    site: &Site<A>,
    serving: u8,
) -> Result<Vec<Candidate, A>, AllocError>
    requires { window.now.width ≡ site.now.handover.window }
    ensures found { IfOk result (λ found.
        AreCandidates site.now window.now.reports serving found.items) }
    ensures some { OnErr result (SomeCandidate (record {
      reports = window.now.reports;
      width = site.now.handover.window;
    }) site.now serving) }
{
    candidates(alloc, window, site, serving)
}
