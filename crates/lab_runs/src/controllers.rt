//! The controllers of a course: that of the first site, and the peer's if there is one.
ghost use Rattle.std.specs.Prelude.{◌≡◌, [], ◌∷◌, Some, true, false, is_some, length, option_map, slice_get, IfOk, OnOk, OnErr};
ghost use Rattle.lab_script.specs.Sides.{is_there, number_of};
ghost use Rattle.lab_runs.specs.Asked.{AreAsked};
ghost use Rattle.lab_runs.specs.Turns.{Position, IsTurnOf};
ghost use Rattle.lab_runs.specs.Course.{IsOpening, BeginsWith, IsAnewAt, AreOpenings, positions_of, option_list};

use crate::asked::{Met, inputs_asked};
use crate::calls::mobile_channel;
use crate::noting::Noting;
use crate::turn::{Spare, TurnFault, take_turn};
use cell_table::Site;
use channel_fsm::ChanId;
use exchange::Inbound;
use ho_procedure::controller::Controller;
use lab_script::asked::Asked;
use lab_script::script::Side;
use radio_book::book::Book;
use radio_desk::desk::Desk;
use run_listeners::{LabFault, Listener, Source, Turn, Unmet};
use std::alloc::{AllocError, Allocator, Global};
use std::sync::Arc;
use trace_text::trace::Mark;

/// One controller or two: the first site's, and the peer's if there is one.
#[derive(Drop)]
pub struct Controllers<A: Allocator + Copy = Global> {
    pub first: Controller<Noting<A>, A>,
    pub peer: Option<Controller<Noting<A>, A>>,
}

/// A controller of the site that was given nothing yet, over an empty book.
fn fresh<A: Allocator + Copy>(
    alloc: A,
    site: &Arc<Site<A>, A>,
) -> Result<Controller<Noting<A>, A>, AllocError>
    ensures opening { IfOk result (λ controller. IsOpening site.now.value controller) }
{
    let book = Book::new(alloc, site.clone()?)?;
    let view = Noting::new(alloc, Desk::new(alloc, book)?);
    Ok(Controller::new(alloc, view, site.clone()?))
}

/// A controller over a book, which was given nothing yet.
fn over<A: Allocator + Copy>(
    alloc: A,
    book: Book<A>,
) -> Result<Controller<Noting<A>, A>, AllocError>
    ensures opening { IfOk result (λ controller. BeginsWith book controller) }
{
    let site = book.site().clone()?;
    let view = Noting::new(alloc, Desk::new(alloc, book)?);
    Ok(Controller::new(alloc, view, site))
}

/// A controller of the peer's site that was given nothing yet, over an empty book, where there is such a site.
fn fresh_peer<A: Allocator + Copy>(
    alloc: A,
    site: &Option<Arc<Site<A>, A>>,
) -> Result<Option<Controller<Noting<A>, A>>, AllocError>
    ensures opening { IfOk result (λ peer. AreOpenings
        (option_list (option_map (λ site. site.value) site.now)) (option_list peer)) }
    ensures peer { IfOk result (λ peer. is_some peer ≡ is_some site.now) }
{
    match site {
        Some(site) => Ok(Some(fresh(alloc, site)?)),
        None => Ok(None),
    }
}

/// A controller's book.
fn book_of<A: Allocator + Copy>(controller: &Controller<Noting<A>, A>) -> &Book<A>
    ensures book { result.now ≡ controller.now.0.desk.book }
{
    controller.view().desk().book()
}

impl<A: Allocator + Copy> Controllers<A> {
    /// Controllers that were given nothing yet, over empty books, of a site and of a peer's if there is one.
    pub(crate) fn new(
        alloc: A,
        site: &Arc<Site<A>, A>,
        peer: &Option<Arc<Site<A>, A>>,
    ) -> Result<Controllers<A>, AllocError>
        ensures openings { IfOk result (λ all. AreOpenings
            (site.now.value ∷ option_list (option_map (λ peer. peer.value) peer.now)) (positions_of all)) }
        ensures peer { IfOk result (λ all. is_some all.peer ≡ is_some peer.now) }
    {
        Ok(Controllers {
            first: fresh(alloc, site)?,
            peer: fresh_peer(alloc, peer)?,
        })
    }

    /// One controller, over a book, which was given nothing yet.
    pub(crate) fn over(alloc: A, book: Book<A>) -> Result<Controllers<A>, AllocError>
        ensures opening { IfOk result (λ all. BeginsWith book all.first) }
        ensures peer { IfOk result (λ all. is_some all.peer ≡ false) }
    {
        Ok(Controllers {
            first: over(alloc, book)?,
            peer: None,
        })
    }

    /// The book of the first.
    pub fn first_book(&self) -> &Book<A>
        ensures book { result.now ≡ self.now.first.0.desk.book }
    {
        book_of(&self.first)
    }

    /// How many events the first asked of its desk, since that began.
    pub fn first_entries(&self) -> usize
        ensures entries { result ≡ length self.now.first.0.desk.history }
    {
        self.first.view().desk().len()
    }

    /// The desk of the first begins anew with today's book. If memory is refused, nothing changes.
    pub(crate) fn begin_anew(&mut self) -> Result<(), AllocError>
        ensures anew { OnOk result (IsAnewAt self.old.first self.new.first) }
        ensures unchanged { OnErr result (self.new.first ≡ self.old.first) }
        ensures peer { self.new.peer ≡ self.old.peer }
    {
        self.first.begin_anew()
    }

    /// Whether the controller of this side is there.
    pub fn has(&self, side: Side) -> bool
        ensures there { result ≡ is_there (is_some self.now.peer) side }
    {
        match side {
            Side::First => true,
            Side::Peer => self.peer.is_some(),
        }
    }

    /// What stands in front of the lines of a controller.
    pub(crate) fn mark(&self, side: Side) -> Mark {
        match side {
            Side::First => {
                if self.peer.is_some() {
                    Mark::First
                } else {
                    Mark::Alone
                }
            }
            Side::Peer => Mark::Peer,
        }
    }

    /// A controller that is there handles an input, and says what came of it, in the lists of an earlier turn.
    pub(crate) fn take_turn(
        &mut self,
        alloc: A,
        side: Side,
        source: Source,
        input: Inbound<A>,
        spare: Spare<A>,
    ) -> Result<Turn<A>, TurnFault<A>>
        requires there { is_there (is_some self.old.peer) side ≡ true }
        ensures turn { IfOk result (λ turn. IsTurnOf (positions_of self.old) turn (positions_of self.new)) }
        ensures peer { is_some self.new.peer ≡ is_some self.old.peer }
        ensures side { IfOk result (λ turn. turn.side ≡ side) }
        ensures source { IfOk result (λ turn. turn.source ≡ source) }
        ensures input { IfOk result (λ turn. turn.input ≡ input) }
    {
        match side {
            Side::First => take_turn(alloc, &mut self.first, Side::First, source, input, spare),
            Side::Peer => match &mut self.peer {
                Some(peer) => take_turn(alloc, peer, Side::Peer, source, input, spare),
                // asked for where there is one alone
                None => unreachable!(),
            },
        }
    }

    /// The desk of a controller that is there.
    fn desk(&self, side: Side) -> Option<&Desk<A>>
        ensures { option_map (λ desk. desk.now) result ≡
            option_map (λ s. s.0.desk) (slice_get (positions_of self.now) (number_of side)) }
    {
        match side {
            Side::First => Some(self.first.view().desk()),
            Side::Peer => match &self.peer {
                Some(peer) => Some(peer.view().desk()),
                None => None,
            },
        }
    }

    /// The inputs that a line asks the book of a controller that is there, as it is now; or why there are none.
    pub(crate) fn inputs_asked(&self, alloc: A, side: Side, asked: Asked) -> Met<Vec<Inbound<A>, A>>
        requires there { is_there (is_some self.now.peer) side ≡ true }
        ensures inputs { IfOk result (λ found. IfOk found (λ inputs. (s : Position) →
            slice_get (positions_of self.now) (number_of side) ≡ Some s →
            AreAsked s.0.desk asked inputs.items)) }
        ensures unmet { IfOk result (λ found. OnErr found ((s : Position) →
            slice_get (positions_of self.now) (number_of side) ≡ Some s →
            AreAsked {A = A} s.0.desk asked [])) }
    {
        match self.desk(side) {
            Some(desk) => inputs_asked(alloc, desk, asked),
            // asked for where there is one alone
            None => unreachable!(),
        }
    }

    /// The channel of the mobile of a call, as it is now; or why there is none.
    pub(crate) fn mobile_channel(&self, side: Side, call: u16) -> Result<ChanId, Unmet> {
        match self.desk(side) {
            Some(desk) => mobile_channel(desk, call),
            None => Err(Unmet::NoCall(call)),
        }
    }

    /// Tells a listener what came of an input of one of the controllers.
    pub(crate) fn tell<L: Listener<A>>(
        &self,
        turn: &Turn<A>,
        listener: &mut L,
    ) -> Result<(), LabFault> {
        let mark = self.mark(turn.side);
        match turn.side {
            Side::First => listener.hear_turn(mark, turn, book_of(&self.first)),
            Side::Peer => match &self.peer {
                Some(peer) => listener.hear_turn(mark, turn, book_of(peer)),
                None => Ok(()),
            },
        }
    }

    /// Tells a listener what the book of each holds at the end.
    pub(crate) fn tell_ends<L: Listener<A>>(&self, listener: &mut L) -> Result<(), LabFault> {
        listener.hear_end(self.mark(Side::First), book_of(&self.first))?;
        match &self.peer {
            Some(peer) => listener.hear_end(self.mark(Side::Peer), book_of(peer)),
            None => Ok(()),
        }
    }
}
