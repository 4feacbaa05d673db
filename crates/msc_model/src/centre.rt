//! The simulated switching centre.
ghost use Rattle.std.specs.Prelude.{◌≡◌, ◌≢◌, ◌<◌, ◌≤◌, List, ℕ, length, [], ◌∷◌, map, slice_get, Some, IsSome, IfOk, OnErr};
ghost use Rattle.bssmap_messages.specs.Messages.{KeepsList};
ghost use Rattle.bssmap_messages.specs.Texts.{IsTextOf};
ghost use Rattle.bssmap_messages.specs.declared.message.Bssmap.{Bssmap};
ghost use Rattle.msc_model.specs.Centre.{fresh_centre};
ghost use Rattle.msc_model.specs.Joins.{join_of};
ghost use Rattle.msc_model.specs.Routes.{route_of};
ghost use Rattle.msc_model.specs.Steps.{Gives, Comes, ComesOfRequired, Steps, IsSaid, NeedsMemory, StepNeedsMemory, call_of, out_of, hung_up, unmoved, rejected, requested, at_number, acknowledged, completed, failed, failed_to, cleared, also_cleared};

use crate::cell::{Cell, cells_of};
use crate::connection::{Connection, Join, is_same, join_of, lowest_number, part};
use crate::message::{clear_command, command, request, required_reject};
use crate::out::{CentreOut, Outs, for_both, one_message};
use crate::route::{Route, route_of};
use bssmap_messages::causes::{
    CALL_CONTROL, HANDOVER_SUCCESSFUL, NO_RADIO_RESOURCE_AVAILABLE, REVERSION_TO_OLD_CHANNEL,
};
use bssmap_messages::{Bssmap, CellId, Octets, decode};
use cell_table::Site;
use std::alloc::{AllocError, Allocator, Global};
use std::marker::Model;
use std::sync::Arc;

/// A switching centre between some controllers. It hands a call over from one to another: the call that asks is joined
/// to a new call of the other controller, until the handover is complete or has failed, or the call is cleared.
#[derive(Drop)]
pub struct Centre<A: Allocator = Global> {
    cells: Vec<Cell, A>,
    joins: Vec<Join, A>,
    stood: Vec<Connection, A>,
}

impl<A: Allocator> Model for Centre<A> {
    ghost use Rattle.msc_model.specs.Centre.{CentreState, centre_code};

    ghost Value = { CentreState };

    ghost coded = { centre_code };

    ghost view = { λ centre. record {
      cells = centre.cells.items;
      joins = centre.joins.items;
      stood = centre.stood.items;
    } };
}

impl<A: Allocator + Copy> Centre<A> {
    /// The centre between the controllers of these sites. No calls are joined.
    pub fn new(alloc: A, sites: &[Arc<Site<A>, A>]) -> Result<Centre<A>, AllocError>
        ensures fresh { IfOk result (λ centre. centre ≡ fresh_centre
            (map (λ site. site.value) sites.now)) }
        ensures memory { OnErr result (sites.now ≢ []) }
    {
        Ok(Centre {
            cells: cells_of(alloc, sites)?,
            joins: Vec::new(alloc),
            stood: Vec::new(alloc),
        })
    }

    /// What comes of octets that a controller sends for a call: the messages that the centre sends then, in order.
    /// Octets that are no message, and messages to which the centre has no answer, come to nothing.
    ///
    /// If memory is refused, the centre is as it was.
    pub fn step(&mut self, controller: usize, call: u16, octets: &[u8]) -> Outs<A>
        ensures step { IfOk result (λ outs. Steps self.old controller call octets.now self.new
            outs.items) }
        ensures unchanged { OnErr result (self.new ≡ self.old) }
        ensures memory { OnErr result (StepNeedsMemory A self.old controller call octets.now) }
    {
        let alloc = self.allocator();
        match message_in(alloc, octets)? {
            Some(message) => self.receive(call_of(controller, call), &message),
            None => Ok(self.nothing()),
        }
    }

    /// The centre hangs up: the message that it sends for the call then. A join stays as it is.
    pub fn hangup(&self, controller: usize, call: u16) -> Outs<A>
        ensures message { IfOk result (λ outs. outs.items ≡
            out_of (hung_up (call_of controller call)) ∷ []) }
    {
        let message = clear_command(CALL_CONTROL);
        one_message(self.allocator(), call_of(controller, call), &message)
    }

    fn allocator(&self) -> A {
        *self.cells.allocator()
    }

    /// No messages.
    fn nothing(&self) -> Vec<CentreOut<A>, A>
        ensures { result.items ≡ [] }
    {
        Vec::new(self.allocator())
    }

    /// The join that the call stands in.
    fn join_of(&self, from: Connection) -> Option<Join>
        ensures { result ≡ join_of self.now.joins from }
    {
        join_of(self.joins.as_slice(), from)
    }

    /// What comes of a message for a call.
    fn receive(&mut self, from: Connection, message: &Bssmap<A>) -> Outs<A>
        requires said { (octets : List ℕ) × IsTextOf message.now octets }
        ensures comes { IfOk result (λ outs. Comes self.old from message.now self.new outs.items) }
        ensures unchanged { OnErr result (self.new ≡ self.old) }
        ensures memory { OnErr result (NeedsMemory self.old from message.now) }
    {
        match message {
            Bssmap::HandoverRequired { cells, .. } => {
                self.required(from, cells.as_slice().first().copied())
            }
            Bssmap::HandoverRequestAck { layer3 } => self.acknowledge(from, layer3),
            Bssmap::HandoverComplete { .. } => self.complete(from),
            Bssmap::HandoverFailure { cause, .. } => self.fail(from, *cause),
            Bssmap::ClearRequest { cause } => self.clear(from, *cause),
            Bssmap::HandoverRequest { .. }
            | Bssmap::HandoverCommand { .. }
            | Bssmap::HandoverPerformed { .. }
            | Bssmap::HandoverRequiredReject { .. }
            | Bssmap::HandoverDetect
            | Bssmap::ClearCommand { .. }
            | Bssmap::ClearComplete => Ok(self.nothing()),
        }
    }

    /// HANDOVER REQUIRED for a cell.
    fn required(&mut self, asker: Connection, asked: Option<CellId>) -> Outs<A>
        ensures comes { IfOk result (λ outs. ComesOfRequired self.old asker
            (route_of self.old.cells asker.controller asked) self.new outs.items) }
        ensures unchanged { OnErr result (self.new ≡ self.old) }
    {
        match route_of(self.cells.as_slice(), asker.controller, asked) {
            Some(route) => self.ask(asker, route),
            None => self.reject(asker),
        }
    }

    /// Asks the controller that has the cell.
    fn ask(&mut self, asker: Connection, route: Route) -> Outs<A>
        ensures comes { IfOk result (λ outs. ComesOfRequired self.old asker (Some route) self.new
            outs.items) }
        ensures unchanged { OnErr result (self.new ≡ self.old) }
    {
        let number = lowest_number(self.stood.as_slice(), route.target.controller);
        self.ask_at(asker, route, number)
    }

    /// Asks it for a call of this number, if there is one.
    fn ask_at(&mut self, asker: Connection, route: Route, number: Option<u16>) -> Outs<A>
        ensures gives { IfOk result (λ outs. Gives (at_number self.old asker route number) self.new
            outs.items) }
        ensures unchanged { OnErr result (self.new ≡ self.old) }
    {
        match number {
            Some(call) => self.request(asker, call_of(route.target.controller, call), route),
            None => self.reject(asker),
        }
    }

    /// HANDOVER REQUEST for a new call, to which the asker is joined.
    fn request(&mut self, asker: Connection, target: Connection, route: Route) -> Outs<A>
        ensures gives { IfOk result (λ outs. Gives (requested self.old asker target route) self.new
            outs.items) }
        ensures unchanged { OnErr result (self.new ≡ self.old) }
    {
        let message = request(self.allocator(), route)?;
        let outs = one_message(self.allocator(), target, &message)?;
        self.joins.reserve(1)?;
        self.stood.reserve(2)?;
        part(&mut self.joins, asker);
        self.joins.push_reserved(Join { asker, target });
        self.stood.push_reserved(asker);
        self.stood.push_reserved(target);
        Ok(outs)
    }

    /// HANDOVER REQUIRED REJECT.
    fn reject(&mut self, asker: Connection) -> Outs<A>
        ensures gives { IfOk result (λ outs. Gives (rejected self.old asker) self.new outs.items) }
        ensures unchanged { OnErr result (self.new ≡ self.old) }
    {
        let message = required_reject(NO_RADIO_RESOURCE_AVAILABLE);
        let outs = one_message(self.allocator(), asker, &message)?;
        part(&mut self.joins, asker);
        Ok(outs)
    }

    /// HANDOVER REQUEST ACKNOWLEDGE.
    fn acknowledge(&self, from: Connection, layer3: &Octets<A>) -> Outs<A>
        requires some { 0 < length layer3.now }
        requires short { length layer3.now ≤ 250 }
        ensures gives { IfOk result (λ outs. Gives (acknowledged self.now layer3.now
            (join_of self.now.joins from)) self.now outs.items) }
    {
        match self.join_of(from) {
            Some(join) => {
                let command = command(self.allocator(), layer3.as_slice())?;
                one_message(self.allocator(), join.asker, &command)
            }
            None => Ok(self.nothing()),
        }
    }

    /// HANDOVER COMPLETE.
    fn complete(&mut self, sender: Connection) -> Outs<A>
        ensures gives { IfOk result (λ outs. Gives (completed self.old sender
            (join_of self.old.joins sender)) self.new outs.items) }
        ensures unchanged { OnErr result (self.new ≡ self.old) }
        ensures memory { OnErr result (IsSome (join_of self.old.joins sender)) }
    {
        match self.join_of(sender) {
            Some(join) => {
                let message = clear_command(HANDOVER_SUCCESSFUL);
                let outs = one_message(self.allocator(), join.asker, &message)?;
                part(&mut self.joins, sender);
                Ok(outs)
            }
            None => Ok(self.nothing()),
        }
    }

    /// HANDOVER FAILURE.
    fn fail(&mut self, from: Connection, cause: u8) -> Outs<A>
        ensures gives { IfOk result (λ outs. Gives (failed self.old from cause
            (join_of self.old.joins from)) self.new outs.items) }
        ensures unchanged { OnErr result (self.new ≡ self.old) }
        ensures memory { OnErr result (IsSome (join_of self.old.joins from)) }
    {
        match self.join_of(from) {
            Some(join) => {
                let outs = tell_failure(self.allocator(), from, cause, join)?;
                part(&mut self.joins, from);
                Ok(outs)
            }
            None => Ok(self.nothing()),
        }
    }

    /// CLEAR REQUEST.
    fn clear(&mut self, call: Connection, cause: u8) -> Outs<A>
        ensures gives { IfOk result (λ outs. Gives (cleared self.old call cause
            (join_of self.old.joins call)) self.new outs.items) }
        ensures unchanged { OnErr result (self.new ≡ self.old) }
    {
        let outs = clear_calls(self.allocator(), call, cause, self.join_of(call))?;
        part(&mut self.joins, call);
        Ok(outs)
    }
}

/// What a HANDOVER FAILURE of one call of a join says to the other.
fn tell_failure<A: Allocator + Copy>(alloc: A, from: Connection, cause: u8, join: Join) -> Outs<A>
    ensures { IfOk result (λ outs. outs.items ≡ out_of (failed_to from cause join) ∷ []) }
{
    if is_same(from, join.asker) {
        let message = clear_command(REVERSION_TO_OLD_CHANNEL);
        one_message(alloc, join.target, &message)
    } else {
        let message = required_reject(cause);
        one_message(alloc, join.asker, &message)
    }
}

/// CLEAR COMMAND for a call, and for the target's side where it is the asker of a join.
fn clear_calls<A: Allocator + Copy>(
    alloc: A,
    from: Connection,
    cause: u8,
    join: Option<Join>,
) -> Outs<A>
    ensures { IfOk result (λ outs. outs.items ≡
        map out_of ((from, Bssmap.ClearCommand cause) ∷ also_cleared from cause join)) }
{
    let message = clear_command(cause);
    match join {
        Some(join) => {
            if is_same(from, join.asker) {
                for_both(alloc, from, join.target, &message)
            } else {
                one_message(alloc, from, &message)
            }
        }
        None => one_message(alloc, from, &message),
    }
}

/// The call of a controller with these numbers.
fn call_of(controller: usize, call: u16) -> Connection
    ensures { result ≡ call_of controller call }
{
    Connection { controller, call }
}

/// The message that octets say to the centre, if any.
fn message_in<A: Allocator + Copy>(alloc: A, octets: &[u8]) -> Result<Option<Bssmap<A>>, AllocError>
    ensures said { IfOk result (IsSaid octets.now) }
    ensures memory { OnErr result ((message : Bssmap A) × IsTextOf message octets.now ×
        KeepsList message) }
{
    match decode(alloc, octets) {
        Ok(message) => Ok(Some(message)),
        Err(fault) => {
            if fault.is_memory() {
                Err(AllocError)
            } else {
                Ok(None)
            }
        }
    }
}
