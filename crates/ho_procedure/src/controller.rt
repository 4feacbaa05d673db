//! The controller, which handles each input.
ghost use Rattle.std.specs.Prelude.{◌≡◌, ℕ, List, [], IfOk, IfErr, OnOk, OnErr, Err};
ghost use Rattle.radio_desk.specs.Desk.{IsAnew};
ghost use Rattle.ho_procedure.specs.Claims.{Entry, Claim, UnknownReceipt};
ghost use Rattle.ho_procedure.specs.Sent.{all_sent};
ghost use Rattle.ho_procedure.specs.Handling.{StopsBy, StopsWith, IsRow, IsUndecoded, AnswersFault, AnswersUndecoded, Handles, IsDeskFault};
ghost use Rattle.ho_procedure.specs.Plan.{Plan, Ends, At};
ghost use Rattle.ho_procedure.specs.Going.{last_reports};

pub use crate::following::Stop;
use crate::following::follow;
use crate::outbox::Outbox;
use crate::view::{DeskView, OwnDesk};
use crate::windows::Windows;
use crate::work::Work;
use cell_table::Site;
use exchange::{Bad, Fault, Inbound, Link, Outbound};
use std::alloc::{AllocError, Allocator, Global};
use std::marker::Model;
use std::mem;
use std::sync::Arc;

/// What a controller does, over any view of a desk. Contracts see its view, the last reports of each call, and its site.
pub struct Controller<D: DeskView + Drop, A: Allocator = Global> {
    site: Arc<Site<A>, A>,
    work: Work<D, A>,
}

// By hand, so that it is proved here once, and not in each crate that lets a controller go.
impl<D: DeskView + Drop, A: Allocator> Drop for Controller<D, A> {
    fn drop(self) {
        let Controller { site: _, work: _ } = self;
    }
}

impl<D: DeskView + Drop, A: Allocator> Model for Controller<D, A> {
    ghost use Rattle.std.specs.Prelude.{◌≡◌, []};
    ghost use Rattle.cell_table.specs.Site.{SiteView};
    ghost use Rattle.ho_procedure.specs.Windows.{Kept};

    ghost Value = { D × Kept × SiteView };

    ghost view = { λ c. (c.work.view, c.work.windows, c.site.value) };

    ghost invariant = { λ c. (c.work.owed.items ≡ []) ×
        (c.work.windows.width ≡ c.site.value.handover.window) };
}

impl<D: DeskView + Drop, A: Allocator + Copy> Controller<D, A> {
    /// A controller of a site that asks this view. It has no reports of any call, and has asked nothing yet. The view has to
    /// ask a book of the same site; no clause requires it. No memory is taken: `alloc` is for inputs that are handled later.
    pub fn new(alloc: A, view: D, site: Arc<Site<A>, A>) -> Controller<D, A>
        ensures view { result.0 ≡ view }
        ensures reports { (call : ℕ) → last_reports result.1 call ≡ [] }
        ensures site { result.2 ≡ site.value }
    {
        let _cells = site.cells();
        let width = usize::from(site.window());
        Controller {
            site,
            work: Work {
                view,
                owed: Outbox::new(alloc),
                windows: Windows::new(alloc, width),
                alloc,
            },
        }
    }

    /// Its view.
    pub fn view(&self) -> &D
        ensures view { result.now ≡ self.now.0 }
    {
        &self.work.view
    }

    /// Its view, once nothing more is handled.
    pub fn into_view(self) -> D
        ensures view { result ≡ self.0 }
    {
        let Controller { site: _, work } = self;
        let Work {
            view,
            owed: _,
            windows: _,
            alloc: _,
        } = work;
        view
    }

    /// Handles an input by its row of the procedure: asks the view, and answers the messages that are sent, in their
    /// order. The rows stand in `docs/PROCEDURE.md`, each with its clauses of TS 44.018, TS 48.008 and TS 48.058.
    ///
    /// - `Undecoded`: the octets, or those of the radio resource message inside, can't be read. Nothing was asked, and
    ///   view and reports are as they were. All octets that can't be read are answered so, unless memory is refused for
    ///   the octets that their message keeps; then too nothing was asked.
    /// - `NoMemory`: memory was refused. The row was followed up to a step that takes memory: to one that makes room for its
    ///   messages, or for reports, before its first event that changes the book; to one that asks the view, which says that
    ///   memory may be refused there; or to candidates, where there is some. Or nothing was asked, and the input is a message
    ///   that keeps its octets.
    /// - `Desk`: the view answered that its desk doesn't know the view's last receipt, of this place. The row was followed
    ///   up to the step that the view was asked for.
    ///
    /// After `NoMemory` and `Desk` what was asked so far stands. Both have the messages up to there, which the caller
    /// sends.
    pub fn handle(&mut self, input: Inbound<A>) -> Result<Vec<Outbound<A>, A>, Fault<A>>
        ensures ok { IfOk result (λ out. (p : Plan) ×
            IsRow {A = A} self.old.2 (last_reports self.old.1) input p ×
            Handles D.log D.says self.old.0 self.old.1 p self.new.0 self.new.1
            (all_sent out.items) (At Ends)) }
        ensures undecoded { (link : Link) → (bad : Bad) →
            result ≡ Err (Fault.Undecoded link bad) → IsUndecoded {A = A} input link bad }
        ensures exact { (link : Link) → (bad : Bad) → IsUndecoded {A = A} input link bad →
            AnswersFault {A = A} self.old.0 self.old.1 input link bad self.new.0 self.new.1 result }
        ensures stops { IfErr result (StopsBy {A = A} D.log D.says self.old.2
            self.old.0 self.old.1 input self.new.0 self.new.1) }
        ensures site { self.new.2 ≡ self.old.2 }
        ensures foreign { IfErr result (λ f. (place : ℕ) → IsDeskFault f place →
            D.says self.old.0 (D.log self.new.0) (UnknownReceipt place)) }
        ensures said { (es : List Entry) → (claim : Claim) →
            D.says self.new.0 es claim → D.says self.old.0 es claim }
    {
        let mut owed = Vec::new(self.work.alloc);
        match self.handle_into(input, &mut owed) {
            Ok(()) => Ok(owed),
            Err(Stop::Undecoded(link, bad)) => Err(Fault::Undecoded(link, bad)),
            Err(Stop::NoMemory) => Err(Fault::NoMemory(owed)),
            Err(Stop::Desk(place)) => Err(Fault::Desk(place, owed)),
        }
    }

    /// Handles an input as [`Controller::handle`] does, and puts the messages, in their order, into a list that the caller keeps
    /// from one input to the next. What was in it was sent, and is dropped: its memory serves for what comes. So inputs that are
    /// alike ask for no memory once it is there.
    ///
    /// After a fault the list has the messages that are owed up to there, and nothing else; after `Undecoded` none.
    #[tactic(auto, using(crate::proofs::Handled::handled, crate::proofs::Handled::kept, crate::proofs::Handled::width_kept, crate::proofs::Handled::refused, crate::proofs::Handled::stops_for_memory, crate::proofs::Handled::stops_at_desk, crate::proofs::Handled::stopped_kept, crate::proofs::Handled::stopped_width))]
    pub fn handle_into(
        &mut self,
        input: Inbound<A>,
        out: &mut Vec<Outbound<A>, A>,
    ) -> Result<(), Stop>
        ensures ok { OnOk result ((p : Plan) ×
            IsRow {A = A} self.old.2 (last_reports self.old.1) input p ×
            Handles D.log D.says self.old.0 self.old.1 p self.new.0 self.new.1
            (all_sent out.new.items) (At Ends)) }
        ensures undecoded { (link : Link) → (bad : Bad) →
            result ≡ Err (Stop.Undecoded link bad) → IsUndecoded {A = A} input link bad }
        ensures exact { (link : Link) → (bad : Bad) → IsUndecoded {A = A} input link bad →
            AnswersUndecoded {A = A} self.old.0 self.old.1 input link bad self.new.0 self.new.1
            (all_sent out.new.items) result }
        ensures stops { IfErr result (λ stop. StopsWith {A = A} D.log D.says self.old.2
            self.old.0 self.old.1 input self.new.0 self.new.1 (all_sent out.new.items) stop) }
        ensures site { self.new.2 ≡ self.old.2 }
        ensures foreign { IfErr result (λ stop. (place : ℕ) → stop ≡ Stop.Desk place →
            D.says self.old.0 (D.log self.new.0) (UnknownReceipt place)) }
        ensures said { (es : List Entry) → (claim : Claim) →
            D.says self.new.0 es claim → D.says self.old.0 es claim }
    {
        rsl_messages::reading_is_unique::<A>();
        bssmap_messages::reading_is_unique::<A>();
        rr_messages::laws::one_fault();
        let sent = mem::replace(out, Vec::new(self.work.alloc));
        self.work.owed.take_back(sent);
        let done = follow(&mut self.work, &self.site, input);
        *out = self.work.owed.take();
        done
    }
}

impl<D: OwnDesk + Drop, A: Allocator + Copy> Controller<D, A> {
    /// Begins its desk anew with today's book ([`OwnDesk::begin_anew`]). The last reports of each call stay. If memory is
    /// refused, nothing changes.
    pub fn begin_anew(&mut self) -> Result<(), AllocError>
        ensures anew { OnOk result (IsAnew (D.desk self.old.0) (D.desk self.new.0)) }
        ensures log { OnOk result (D.log self.new.0 ≡ []) }
        ensures unchanged { OnErr result (self.new.0 ≡ self.old.0) }
        ensures reports { self.new.1 ≡ self.old.1 }
        ensures site { self.new.2 ≡ self.old.2 }
    {
        self.work.view.begin_anew()
    }
}
