//! The course of a script: one controller or two on one thread, and the simulators around them.
ghost use Rattle.std.specs.Prelude.{◌≡◌, [], ◌∷◌, ◌||◌, true, false, is_some, map, option_map, IfOk, OnOk, OnErr};
ghost use Rattle.lab_script.specs.Sides.{is_there};
ghost use Rattle.lab_script.specs.Script.{AreThere, is_item_there};
ghost use Rattle.lab_runs.specs.Turns.{listed, is_attach};
ghost use Rattle.lab_runs.specs.Course.{Went, Follows, BeginsWith, IsAnewAt, AreOpenings, positions_of, has_peer, has_simulators, option_list};

use crate::controllers::Controllers;
use crate::simulators::Simulators;
use crate::turn::{Spare, TurnFault};
use crate::waiting::{Arrival, Waiting};
use bts_model::{Act, Habit, Restart, Setting};
use cell_table::Site;
use exchange::Inbound;
use lab_script::asked::Asked;
use lab_script::script::{Given, Item, Side};
use radio_book::book::Book;
use run_listeners::{Answer, LabFault, Listener, Source, Turn};
use std::alloc::{AllocError, Allocator, Global};
use std::collections::VecDeque;
use std::mem;
use std::sync::Arc;

/// How many answers of simulators are handled for one line of a script.
pub const MOST_ANSWERS: u16 = 10_000;

/// Controllers, the simulators around them once a script has attached them, and what came of each input.
#[derive(Drop)]
pub struct Course<A: Allocator + Copy = Global> {
    sites: Vec<Arc<Site<A>, A>, A>,
    /// The controllers as they are now.
    pub controllers: Controllers<A>,
    simulators: Option<Simulators<A>>,
    /// What came of each input so far.
    pub turns: Vec<Turn<A>, A>,
    /// The lists of a turn that was forgotten.
    spare: Spare<A>,
    alloc: A,
}

/// What came of a script: each input that was handled, in order, with what its controller asked and answered, and the
/// controllers as they are at the end.
#[derive(Drop)]
pub struct Run<A: Allocator + Copy = Global> {
    pub turns: Vec<Turn<A>, A>,
    pub controllers: Controllers<A>,
}

/// The sites of one controller or two.
fn sites_of<A: Allocator + Copy>(
    alloc: A,
    site: Arc<Site<A>, A>,
    peer: Option<Arc<Site<A>, A>>,
) -> Result<Vec<Arc<Site<A>, A>, A>, AllocError> {
    let mut sites = Vec::new(alloc);
    sites.push(site)?;
    if let Some(peer) = peer {
        sites.push(peer)?;
    }
    Ok(sites)
}

impl<A: Allocator + Copy> Course<A> {
    /// Controllers that were given nothing yet, over empty books, of a site and of a peer's if there is one.
    pub(crate) fn new(
        alloc: A,
        site: Arc<Site<A>, A>,
        peer: Option<Arc<Site<A>, A>>,
    ) -> Result<Course<A>, AllocError>
        ensures openings { IfOk result (λ course. AreOpenings
            (site.value ∷ option_list (option_map (λ peer. peer.value) peer))
            (positions_of course.controllers)) }
        ensures peer { IfOk result (λ course. has_peer course ≡ is_some peer) }
        ensures turns { IfOk result (λ course. course.turns.items ≡ []) }
        ensures sim { IfOk result (λ course. has_simulators course ≡ false) }
    {
        Ok(Course {
            controllers: Controllers::new(alloc, &site, &peer)?,
            sites: sites_of(alloc, site, peer)?,
            simulators: None,
            turns: Vec::new(alloc),
            spare: Spare::new(alloc),
            alloc,
        })
    }

    /// One controller over a book, which has been given nothing yet.
    pub fn over(alloc: A, book: Book<A>) -> Result<Course<A>, AllocError>
        ensures opening { IfOk result (λ course. BeginsWith book course.controllers.first) }
        ensures peer { IfOk result (λ course. has_peer course ≡ false) }
        ensures sim { IfOk result (λ course. has_simulators course ≡ false) }
    {
        let site = book.site().clone()?;
        Ok(Course {
            controllers: Controllers::over(alloc, book)?,
            sites: sites_of(alloc, site, None)?,
            simulators: None,
            turns: Vec::new(alloc),
            spare: Spare::new(alloc),
            alloc,
        })
    }

    /// The desk of the first controller begins anew with today's book. If memory is refused, no desk changes.
    pub fn begin_anew(&mut self) -> Result<(), AllocError>
        ensures anew { OnOk result (IsAnewAt self.old.controllers.first self.new.controllers.first) }
        ensures unchanged { OnErr result (self.new.controllers.first ≡ self.old.controllers.first) }
        ensures peer { self.new.controllers.peer ≡ self.old.controllers.peer }
        ensures sim { has_simulators self.new ≡ has_simulators self.old }
    {
        self.controllers.begin_anew()
    }

    /// Drops what came of each input so far. The lists of the last turn are used again for the next one.
    pub fn forget_turns(&mut self)
        ensures turns { self.new.turns.items ≡ [] }
        ensures controllers { self.new.controllers ≡ self.old.controllers }
        ensures sim { has_simulators self.new ≡ has_simulators self.old }
    {
        if let Some(turn) = self.turns.pop() {
            self.spare = Spare::of(self.alloc, turn);
        }
        self.turns.clear();
    }

    /// Whether simulators are attached.
    pub fn has_simulators(&self) -> bool
        ensures attached { result ≡ has_simulators self.now }
    {
        self.simulators.is_some()
    }

    /// From here on simulators answer, unless they do already.
    fn attach(&mut self) -> Result<(), AllocError>
        ensures went { OnOk result (Went [] self.old self.new) }
        ensures sim { OnOk result (has_simulators self.new ≡ true) }
    {
        if self.has_simulators() {
            return Ok(());
        }
        self.simulators = Some(Simulators::new(self.alloc, self.sites.as_slice())?);
        Ok(())
    }

    /// The mobile of a call, on the channel that this has now, behaves so from here on.
    fn set_mobile<L: Listener<A>>(
        &mut self,
        side: Side,
        call: u16,
        habit: Habit,
        waiting: &mut Waiting<A>,
        listener: &mut L,
    ) -> Result<(), LabFault>
        ensures went { OnOk result (Went [] self.old self.new) }
        ensures sim { OnOk result (has_simulators self.new ≡ has_simulators self.old) }
    {
        match self.controllers.mobile_channel(side, call) {
            Ok(chan) => {
                let setting = Setting::of(side.number(), chan, Act::Mobile(habit));
                self.set(setting, waiting)?;
                listener.hear_set(setting)
            }
            Err(unmet) => listener.hear_unmet(unmet),
        }
    }

    /// A controller that is there handles these inputs of a line, one after the other.
    fn handle_all<L: Listener<A>>(
        &mut self,
        side: Side,
        inputs: Vec<Inbound<A>, A>,
        waiting: &mut Waiting<A>,
        listener: &mut L,
    ) -> Result<(), LabFault>
        requires there { is_there (has_peer self.old) side ≡ true }
        ensures went { OnOk result (Went (map (λ input. (side, input)) inputs.items) self.old self.new) }
        ensures sim { OnOk result (has_simulators self.new ≡ has_simulators self.old) }
    {
        for input in inputs {
            self.handle(side, Source::Script, input, waiting, listener)?;
        }
        Ok(())
    }

    /// A controller that is there handles what a line asks its book, as that is now.
    fn ask<L: Listener<A>>(
        &mut self,
        side: Side,
        asked: Asked,
        waiting: &mut Waiting<A>,
        listener: &mut L,
    ) -> Result<(), LabFault>
        requires there { is_there (has_peer self.old) side ≡ true }
        ensures follows { OnOk result (Follows (record { side = side; given = Given.Ask asked } ∷ [])
            self.old self.new) }
        ensures sim { OnOk result (has_simulators self.new ≡ has_simulators self.old) }
    {
        match self.controllers.inputs_asked(self.alloc, side, asked)? {
            Ok(inputs) => self.handle_all(side, inputs, waiting, listener),
            Err(unmet) => listener.hear_unmet(unmet),
        }
    }

    /// Asks something of a simulated station or of a mobile. What is sent then waits.
    fn set(&mut self, setting: Setting, waiting: &mut Waiting<A>) -> Result<(), AllocError>
        ensures went { OnOk result (Went [] self.old self.new) }
        ensures sim { OnOk result (has_simulators self.new ≡ has_simulators self.old) }
    {
        match &mut self.simulators {
            Some(simulators) => simulators.set(setting, waiting),
            None => Ok(()),
        }
    }

    /// A simulated station restarts. What its controller hears of that waits.
    fn restart(&mut self, restart: Restart, waiting: &mut Waiting<A>) -> Result<(), AllocError>
        ensures went { OnOk result (Went [] self.old self.new) }
        ensures sim { OnOk result (has_simulators self.new ≡ has_simulators self.old) }
    {
        match &mut self.simulators {
            Some(simulators) => simulators.restart(restart, waiting),
            None => Ok(()),
        }
    }

    /// The simulated switching centre hangs up a call. What it sends then waits.
    fn hang_up(&self, side: Side, call: u16, waiting: &mut Waiting<A>) -> Result<(), AllocError> {
        match &self.simulators {
            Some(simulators) => simulators.hang_up(side, call, waiting),
            None => Ok(()),
        }
    }

    /// A controller that is there handles an input, and a listener is told what came of it, or what is owed if memory is
    /// refused. What simulators answer waits behind all else.
    fn handle<L: Listener<A>>(
        &mut self,
        side: Side,
        source: Source,
        input: Inbound<A>,
        waiting: &mut Waiting<A>,
        listener: &mut L,
    ) -> Result<(), LabFault>
        requires there { is_there (has_peer self.old) side ≡ true }
        ensures went { OnOk result (Went (listed source side input) self.old self.new) }
        ensures sim { OnOk result (has_simulators self.new ≡ has_simulators self.old) }
    {
        self.turns.reserve(1)?;
        let spare = mem::replace(&mut self.spare, Spare::new(self.alloc));
        let turn = match self
            .controllers
            .take_turn(self.alloc, side, source, input, spare)
        {
            Ok(turn) => turn,
            Err(fault) => return Err(tell_owed(&self.controllers, side, fault, listener)),
        };
        let told = tell(
            &self.controllers,
            &mut self.simulators,
            &turn,
            waiting,
            listener,
        );
        self.turns.push_reserved(turn);
        told
    }

    /// Handles what a simulator sends. Simulators only know the controllers that are there. Messages for any other are
    /// skipped.
    pub fn arrive<L: Listener<A>>(
        &mut self,
        arrival: Arrival<A>,
        waiting: &mut Waiting<A>,
        listener: &mut L,
    ) -> Result<(), LabFault>
        ensures went { OnOk result (Went [] self.old self.new) }
        ensures sim { OnOk result (has_simulators self.new ≡ has_simulators self.old) }
    {
        if self.controllers.has(arrival.side) {
            self.handle(
                arrival.side,
                Source::Simulator,
                arrival.input,
                waiting,
                listener,
            )
        } else {
            Ok(())
        }
    }

    /// Handles what waits, and what is answered to that, until nothing is left.
    fn settle<L: Listener<A>>(
        &mut self,
        waiting: &mut Waiting<A>,
        listener: &mut L,
    ) -> Result<(), LabFault>
        ensures went { OnOk result (Went [] self.old self.new) }
        ensures sim { OnOk result (has_simulators self.new ≡ has_simulators self.old) }
    {
        for _ in 0..MOST_ANSWERS {
            let Some(arrival) = waiting.pop_front() else {
                return Ok(());
            };
            self.arrive(arrival, waiting, listener)?;
        }
        drop_rest(waiting, listener)
    }

    /// Handles what a line of a script gives. Answers of simulators wait.
    pub fn begin<L: Listener<A>>(
        &mut self,
        item: Item<A>,
        waiting: &mut Waiting<A>,
        listener: &mut L,
    ) -> Result<(), LabFault>
        requires there { is_item_there (has_peer self.old) item ≡ true }
        ensures follows { OnOk result (Follows (item ∷ []) self.old self.new) }
        ensures sim { OnOk result (has_simulators self.new ≡
            is_attach item.given || has_simulators self.old) }
    {
        listener.hear_item()?;
        let Item { side, given } = item;
        match given {
            Given::Input(input) => self.handle(side, Source::Script, input, waiting, listener),
            Given::Attach => Ok(self.attach()?),
            Given::Set(setting) => Ok(self.set(setting, waiting)?),
            Given::HangUp(call) => Ok(self.hang_up(side, call, waiting)?),
            Given::Ask(asked) => self.ask(side, asked, waiting, listener),
            Given::MobileOf { call, habit } => {
                self.set_mobile(side, call, habit, waiting, listener)
            }
            Given::Restart(restart) => Ok(self.restart(restart, waiting)?),
        }
    }

    /// Handles what a line of a script gives, and then the answers that wait, until none is left.
    pub fn follow<L: Listener<A>>(
        &mut self,
        item: Item<A>,
        listener: &mut L,
    ) -> Result<(), LabFault>
        requires there { is_item_there (has_peer self.old) item ≡ true }
        ensures follows { OnOk result (Follows (item ∷ []) self.old self.new) }
        ensures sim { OnOk result (has_simulators self.new ≡
            is_attach item.given || has_simulators self.old) }
    {
        let mut waiting = VecDeque::new(self.alloc);
        self.begin(item, &mut waiting, listener)?;
        self.settle(&mut waiting, listener)
    }

    /// Does what the lines of a script give, in their order, and then tells what the books hold.
    pub(crate) fn run<L: Listener<A>>(
        &mut self,
        items: Vec<Item<A>, A>,
        listener: &mut L,
    ) -> Result<(), LabFault>
        requires there { AreThere (has_peer self.old) items.items }
        ensures { OnOk result (Follows items.items self.old self.new) }
    {
        let mut waiting = VecDeque::new(self.alloc);
        for item in items {
            self.begin(item, &mut waiting, listener)?;
            self.settle(&mut waiting, listener)?;
        }
        self.tell_ends(listener)
    }

    /// Tells a listener what the books hold at the end.
    pub fn tell_ends<L: Listener<A>>(&self, listener: &mut L) -> Result<(), LabFault> {
        self.controllers.tell_ends(listener)
    }

    /// What came of it so far.
    pub fn into_run(self) -> Run<A>
        ensures turns { result.turns ≡ self.turns }
        ensures controllers { result.controllers ≡ self.controllers }
    {
        let Course {
            sites: _,
            controllers,
            simulators: _,
            turns,
            spare: _,
            alloc: _,
        } = self;
        Run { turns, controllers }
    }
}

/// Tells a listener what a controller owes that was refused memory. That this couldn't be told doesn't hide that memory was
/// refused.
fn tell_owed<A: Allocator + Copy, L: Listener<A>>(
    controllers: &Controllers<A>,
    side: Side,
    fault: TurnFault<A>,
    listener: &mut L,
) -> LabFault {
    match fault {
        TurnFault::NoMemory => {}
        TurnFault::Owed(messages) => {
            let _ = listener.hear_owed(controllers.mark(side), &messages);
        }
    }
    LabFault::NoMemory
}

/// Tells a listener what came of an input, and lets what simulators answer to that wait.
fn tell<A: Allocator + Copy, L: Listener<A>>(
    controllers: &Controllers<A>,
    simulators: &mut Option<Simulators<A>>,
    turn: &Turn<A>,
    waiting: &mut Waiting<A>,
    listener: &mut L,
) -> Result<(), LabFault>
    ensures { OnOk result (is_some simulators.new ≡ is_some simulators.old) }
{
    controllers.tell(turn, listener)?;
    Ok(pass_answer(simulators, turn, waiting)?)
}

/// Drops the answers that still wait, and tells a listener if there were any.
pub fn drop_rest<A: Allocator + Copy, L: Listener<A>>(
    waiting: &mut Waiting<A>,
    listener: &mut L,
) -> Result<(), LabFault> {
    if waiting.is_empty() {
        return Ok(());
    }
    waiting.clear();
    listener.hear_limit()
}

/// What simulators, where they are there, answer to what came of an input waits.
fn pass_answer<A: Allocator + Copy>(
    simulators: &mut Option<Simulators<A>>,
    turn: &Turn<A>,
    waiting: &mut Waiting<A>,
) -> Result<(), AllocError>
    ensures { OnOk result (is_some simulators.new ≡ is_some simulators.old) }
{
    let Some(simulators) = simulators else {
        return Ok(());
    };
    match &turn.answer {
        Answer::Sent(sent) => simulators.pass_on(turn.side, sent, waiting),
        Answer::Undecoded(_) => Ok(()),
    }
}
