//! The front of a storm: the one thread that gives inputs to the office.
ghost use Rattle.std.specs.Prelude.{◌≡◌, ◌≤◌, ℕ, All, IfOk, OnOk, IsTrue, [], vec_len};
ghost use Rattle.channel_fsm.specs.declared.ChanId.{ChanId};
ghost use Rattle.storms.specs.declared.watch.Phase.TheVariants.{Opening};
ghost use Rattle.storms.specs.Outcomes.{AreOf, DidAll};
ghost use Rattle.storms.specs.Openings.{IsOpening, IsGivenToOpen, AreGivenToOpen, AreLeftBy, Keeps};

use crate::links::TrayLinks;
use crate::outcome::{Figures, StormFault};
use crate::simulated::Simulated;
use crate::tray::Tray;
use crate::trip::Trip;
use crate::watch::{Phase, Reached, Watch};
use call_worker::{Closed, Gate, Office, Point, WorkerEnd};
use exchange::{Inbound, Line, Outbound};
use radio_desk::desk::Desk;
use std::alloc::{AllocError, Allocator, Global};
use std::sync::{Arc, Wait};
use std::thread::Threads;

/// A gate that holds nobody.
#[derive(Drop)]
struct OpenGate;

impl Gate for OpenGate {
    fn pass(&self, _call: u16, _point: Point) {}
}

/// The office with the simulators around it, and how many inputs it was given.
#[derive(Drop)]
pub(crate) struct Front<R: Threads + Wait + Drop, A: Allocator + Copy = Global> {
    office: Office<R, TrayLinks<R, A>, A>,
    tray: Arc<Tray<A>, A>,
    simulated: Simulated<A>,
    given: u64,
    reached: Reached,
}

/// Links to one tray, for so many workers.
fn links_to<R: Wait + Clone + Drop, A: Allocator + Copy>(
    rt: &R,
    alloc: A,
    tray: &Arc<Tray<A>, A>,
    workers: u8,
) -> Result<Vec<TrayLinks<R, A>, A>, AllocError>
    ensures count { IfOk result (λ links. vec_len links ≡ workers) }
    ensures fresh { IfOk result (λ links. All (λ l. l.refused ≡ 0) links.items) }
{
    let mut links = Vec::with_capacity(alloc, usize::from(workers))?;
    for _ in 0..workers {
        links.push(TrayLinks::new(rt.clone()?, alloc, tray.clone()?))?;
    }
    Ok(links)
}

impl<R: Threads + Wait + Drop, A: Allocator + Copy> Front<R, A> {
    /// Starts an office of so many workers, 1 to 16, at a desk at which nothing was asked yet.
    pub(crate) fn start(
        rt: &R,
        alloc: A,
        desk: Desk<A>,
        simulated: Simulated<A>,
        workers: u8,
    ) -> Result<Front<R, A>, StormFault>
    where
        R: Clone + Send + 'static,
        A: Send + Sync + 'static,
        requires workers { (1 ≤ workers) × (workers ≤ 16) }
        requires empty { desk.history ≡ [] }
        ensures opening { IfOk result (λ front. front.office.opening ≡ desk.opening) }
    {
        let tray = Arc::new(alloc, Tray::new(alloc)).map_err(AllocError::from)?;
        let links = links_to(rt, alloc, &tray, workers)?;
        let gate = Arc::new(alloc, OpenGate).map_err(AllocError::from)?;
        let office = Office::start(rt.clone()?, alloc, desk, gate, links)?;
        Ok(Front {
            office,
            tray,
            simulated,
            given: 0,
            reached: Reached::none(),
        })
    }

    /// Gives an input to its worker, and waits for room in that worker's inbox.
    #[tactic(auto, using(crate::proofs::Openings::keeps_given, crate::proofs::Openings::given_now, crate::proofs::Openings::keeps_same))]
    fn give(&mut self, input: Inbound<A>) -> Result<(), StormFault>
        ensures opening { self.new.office.opening ≡ self.old.office.opening }
        ensures kept { Keeps self.old.office self.new.office }
        ensures given { OnOk result ((call : ℕ) (chan : ChanId) → IsOpening call chan input →
            IsGivenToOpen self.new.office call chan) }
    {
        self.office.give(input)?;
        self.given = self.given.saturating_add(1);
        Ok(())
    }

    /// Gives inputs, in their order.
    #[tactic(auto, using(crate::proofs::Openings::keeps_still, crate::proofs::Openings::keeps_on))]
    fn give_all(&mut self, inputs: Vec<Inbound<A>, A>) -> Result<(), StormFault>
        ensures opening { self.new.office.opening ≡ self.old.office.opening }
        ensures kept { Keeps self.old.office self.new.office }
    {
        for input in inputs {
            self.give(input)?;
        }
        Ok(())
    }

    /// Hands a message to the simulators, and gives what they answer.
    #[tactic(auto, using(crate::proofs::Openings::keeps_still, crate::proofs::Openings::keeps_on))]
    fn answer(&mut self, message: &Outbound<A>) -> Result<(), StormFault>
        ensures opening { self.new.office.opening ≡ self.old.office.opening }
        ensures kept { Keeps self.old.office self.new.office }
    {
        let answers = self.simulated.answers(message)?;
        self.give_all(answers)
    }

    /// Answers what lies on the tray, and what comes of that, until all is quiet: the workers are done with all that they
    /// were given, and nothing lies there.
    #[tactic(auto, using(crate::proofs::Openings::keeps_still, crate::proofs::Openings::keeps_on))]
    fn settle<V: Watch>(&mut self, rt: &R, watch: &mut V) -> Result<(), StormFault>
        ensures opening { self.new.office.opening ≡ self.old.office.opening }
        ensures kept { Keeps self.old.office self.new.office }
    {
        for _ in rt.forever() {
            let Some(message) = self.tray.take_up(rt, self.given) else {
                break;
            };
            self.answer(&message)?;
            watch.see(self.reached);
        }
        Ok(())
    }

    /// Asks a call for what it does in a phase.
    #[tactic(auto, using(crate::proofs::Openings::keeps_still, crate::proofs::Openings::keeps_on))]
    fn ask(&mut self, phase: Phase, trip: &Trip) -> Result<(), StormFault>
        ensures opening { self.new.office.opening ≡ self.old.office.opening }
        ensures kept { Keeps self.old.office self.new.office }
        ensures given { OnOk result (phase ≡ Opening →
            IsGivenToOpen self.new.office trip.now.call trip.now.from) }
    {
        let call = trip.call;
        match phase {
            Phase::Opening => self.give(Inbound::Operator(Line::Open {
                call,
                chan: trip.from,
            })),
            Phase::Moving => {
                self.simulated.set_habit(trip.from, trip.habit)?;
                self.give(Inbound::Operator(Line::Handover {
                    call,
                    cell: trip.to,
                }))
            }
            Phase::HangingUp => {
                let inputs = self.simulated.hang_up(call)?;
                self.give_all(inputs)
            }
        }
    }

    /// Asks all calls for what they do in a phase, and waits until all is quiet.
    #[tactic(auto, using(crate::proofs::Openings::keeps_still, crate::proofs::Openings::keeps_on, crate::proofs::Openings::keeps_all))]
    fn pass<V: Watch>(
        &mut self,
        rt: &R,
        phase: Phase,
        trips: &[Trip],
        watch: &mut V,
    ) -> Result<(), StormFault>
        ensures opening { self.new.office.opening ≡ self.old.office.opening }
        ensures kept { Keeps self.old.office self.new.office }
        ensures given { OnOk result (phase ≡ Opening → AreGivenToOpen self.new.office trips.now) }
    {
        for trip in trips {
            self.ask(phase, trip)?;
            self.reached.count(phase);
            watch.see(self.reached);
        }
        self.settle(rt, watch)
    }

    /// Runs a storm: the calls are opened, try to move, and are hung up; each phase begins once all is quiet after the one
    /// before.
    #[tactic(auto, using(crate::proofs::Openings::keeps_on, crate::proofs::Openings::keeps_all))]
    pub(crate) fn run<V: Watch>(
        &mut self,
        rt: &R,
        trips: &[Trip],
        watch: &mut V,
    ) -> Result<(), StormFault>
        ensures opening { self.new.office.opening ≡ self.old.office.opening }
        ensures given { OnOk result (AreGivenToOpen self.new.office trips.now) }
    {
        self.pass(rt, Phase::Opening, trips, watch)?;
        self.pass(rt, Phase::Moving, trips, watch)?;
        self.pass(rt, Phase::HangingUp, trips, watch)
    }

    /// Ends the workers, waits for their threads, and says what the desk tells. Where a worker had no memory for a part of
    /// its work, that is want of memory, too.
    pub(crate) fn close(self) -> Result<Figures, StormFault>
        ensures figures { IfOk result (λ figures. AreLeftBy self.office figures) }
    {
        let Front {
            office,
            tray: _,
            simulated: _,
            given: _,
            reached: _,
        } = self;
        let closed = office.close()?;
        figures_of(&closed)
    }
}

/// Whether a worker did all that it was given, and lost no message.
fn did_all<R: Wait + Drop, A: Allocator + Copy>(end: &WorkerEnd<TrayLinks<R, A>, A>) -> bool
    ensures { IsTrue result → DidAll (λ l. l.refused) end.now }
{
    end.links.passed_all()
        && end.taken.len() == end.given.len()
        && end.taken.iter().all(|turn| turn.ok)
}

/// What a desk tells.
fn told_by<A: Allocator + Copy>(desk: &Desk<A>) -> Result<Figures, AllocError>
    ensures { IfOk result (λ figures. AreOf desk.now figures) }
{
    let audit = desk.audit()?;
    Ok(Figures {
        tally: desk.tally(),
        channels: desk.book().usage().channels,
        audit,
    })
}

/// What the desk of a closed office tells.
fn figures_of<R: Wait + Drop, A: Allocator + Copy>(
    closed: &Closed<TrayLinks<R, A>, A>,
) -> Result<Figures, StormFault>
    ensures figures { IfOk result (λ figures. AreOf closed.now.desk figures) }
    ensures done { OnOk result (All (DidAll (λ l. l.refused)) closed.now.workers.items) }
{
    if !closed.workers.iter().all(|end| did_all(end)) {
        return Err(StormFault::NoMemory);
    }
    let figures = told_by(&closed.desk)?;
    Ok(figures)
}
