//! The simulated world.
ghost use Rattle.std.specs.Prelude.{◌≡◌, ◌≢◌, ◌<◌, ◌⊎◌, Option, [], true, map, IsSome, IfOk, OnErr, None, Some};
ghost use Rattle.std.specs.FinMap as finite;
ghost use Rattle.rsl_messages.specs.Messages.{HasOctets};
ghost use Rattle.rsl_messages.specs.Texts.{IsTextOf};
ghost use Rattle.rsl_messages.specs.declared.message.Rsl.{Rsl};
ghost use Rattle.bts_model.specs.Keys.{key_of};
ghost use Rattle.bts_model.specs.World.{fresh_world, has_channel, slot_in, is_in_use, in_use_by, is_active, changed, with_slot, world_code};
ghost use Rattle.rr_messages.specs.declared.message.Rr.{Rr};
ghost use Rattle.bts_model.specs.Holds.{hold_of, kept_of};
ghost use Rattle.bts_model.specs.Mobiles.{IsHeard, IsOnTimeslot};
ghost use Rattle.bts_model.specs.Departures.{silent, all_sent, unkept};
ghost use Rattle.bts_model.specs.Stations.{at_release};
ghost use Rattle.bts_model.specs.Settings.{set, SetNeedsMemory, acted, ActNeedsMemory, doubled, cut};
ghost use Rattle.bts_model.specs.Restarts.{restarted, HasActiveThat};
ghost use Rattle.bts_model.specs.Steps.{Gives, Comes, Steps, IsSaid, NeedsMemory, StepNeedsMemory, at_channel, reacted, activated, responded, passed_on};

use crate::answer::{Answer, Outs, StationOut};
use crate::departure::{all_departed, changed_and_left};
use crate::hold::{Hold, all_kept, end_holds, end_restarted, hold_of, keep, keep_in};
use crate::mobile::{Response, heard_in, response_to};
use crate::place::{Place, place_in};
use crate::restart::{Restart, failures};
use crate::setting::{Act, Setting};
use crate::slots::{Impairment, Slot, Slots, is_active};
use crate::station::{Reaction, at_activation, at_release};
use crate::trx::{Trx, has_trx, trxs_of};
use cell_table::Site;
use channel_fsm::{Sub, conflicts};
use rr_messages::Rr;
use rsl_messages::values::MAIN_SIGNALLING;
use rsl_messages::{Rsl, decode};
use std::alloc::{AllocError, Allocator, Global};
use std::marker::Model;
use std::sync::Arc;

/// The base stations of some controllers, and the mobiles on their channels.
///
/// A station acknowledges each activation of an inactive channel, unless a refusal was asked for, and refuses each of an
/// active one, and of one that conflicts with an active one; it acknowledges each release. A mobile that gets a HANDOVER
/// COMMAND on an active channel goes by its habit. Answers leave at once, but one for which a hold waits is kept. As it
/// leaves, an answer may be cut and doubled, where that was asked for.
#[derive(Drop)]
pub struct World<A: Allocator = Global> {
    trxs: Vec<Trx, A>,
    slots: Slots<A>,
    holds: Vec<Hold, A>,
}

impl<A: Allocator> Model for World<A> {
    ghost use Rattle.bts_model.specs.World.{WorldState, world_code};

    ghost Value = { WorldState };

    ghost coded = { world_code };

    ghost view = { λ world. record {
      trxs = world.trxs.items;
      slots = world.slots;
      holds = world.holds.items;
    } };
}

impl<A: Allocator + Copy> World<A> {
    /// The world of the sites of these controllers. No channel is active, and nothing was asked of any.
    pub fn new(alloc: A, sites: &[Arc<Site<A>, A>]) -> Result<World<A>, AllocError>
        ensures fresh { IfOk result (λ world. world ≡ fresh_world
            (map (λ site. site.value) sites.now)) }
        ensures memory { OnErr result (sites.now ≢ []) }
    {
        Ok(World {
            trxs: trxs_of(alloc, sites)?,
            slots: Slots::new(alloc),
            holds: Vec::new(alloc),
        })
    }

    /// What comes of octets that a controller sends to a TRX of a cell: the messages that stations send then, in order.
    /// Octets that are no message, and messages about a channel that the world lacks, come to nothing.
    ///
    /// If memory is refused, the world is as it was.
    pub fn step(&mut self, controller: usize, cell: u8, trx: u8, octets: &[u8]) -> Outs<A>
        ensures step { IfOk result (λ outs. Steps self.old controller cell trx octets.now
            self.new outs.items) }
        ensures unchanged { OnErr result (self.new ≡ self.old) }
        ensures memory { OnErr result (StepNeedsMemory A self.old controller cell trx octets.now) }
    {
        let alloc = *self.holds.allocator();
        match message_in(alloc, octets)? {
            Some(message) => self.receive(controller, cell, trx, &message),
            None => Ok(self.nothing()),
        }
    }

    /// What comes of a setting: the messages that stations send then, in order. Only [`Act::Release`] has any.
    ///
    /// If memory is refused, the world is as it was.
    pub fn set(&mut self, setting: Setting) -> Outs<A>
        ensures set { IfOk result (λ outs. Gives (set self.old setting) self.new outs.items) }
        ensures unchanged { OnErr result (self.new ≡ self.old) }
        ensures memory { OnErr result (SetNeedsMemory self.old setting) }
    {
        let place = setting.place();
        if self.has_channel(place) {
            self.act(place, setting.act)
        } else {
            Ok(self.nothing())
        }
    }

    /// What comes of it that a station restarts: its channels are gone, and with them what was asked about them and what it
    /// kept back. Of each channel that was active its controller hears that it failed, by TRX and timeslot. Mobiles say nothing.
    ///
    /// If memory is refused, the world is as it was.
    pub fn restart(&mut self, restart: Restart) -> Outs<A>
        ensures restart { IfOk result (λ outs. Gives (restarted self.old restart)
            self.new outs.items) }
        ensures unchanged { OnErr result (self.new ≡ self.old) }
        ensures memory { OnErr result (HasActiveThat self.old.slots restart) }
    {
        let alloc = *self.holds.allocator();
        let outs = failures(alloc, self.trxs.as_slice(), &self.slots, restart)?;
        self.slots.forget(restart);
        end_restarted(&mut self.holds, restart);
        Ok(outs)
    }

    /// No messages.
    fn nothing(&self) -> Vec<StationOut<A>, A>
        ensures { result.items ≡ [] }
    {
        Vec::new(*self.holds.allocator())
    }

    /// Whether the world has the channel.
    fn has_channel(&self, place: Place) -> bool
        ensures { result ≡ has_channel self.now place }
    {
        place.channel.tn < 8 && has_trx(self.trxs.as_slice(), place)
    }

    /// What comes of a message to a TRX.
    fn receive(&mut self, controller: usize, cell: u8, trx: u8, message: &Rsl<A>) -> Outs<A>
        ensures comes { IfOk result (λ outs. Comes self.old controller cell trx message.now
            self.new outs.items) }
        ensures unchanged { OnErr result (self.new ≡ self.old) }
        ensures memory { OnErr result (NeedsMemory self.old controller cell trx message.now) }
    {
        match message {
            Rsl::DataRequest {
                channel,
                link,
                layer3,
            } => {
                let place = place_in(controller, cell, trx, *channel);
                self.pass_on(place, *link, layer3.as_slice())
            }
            Rsl::ChannelActivation {
                channel,
                reference,
                ..
            } => self.activate(place_in(controller, cell, trx, *channel), *reference),
            Rsl::RfChannelRelease { channel } => {
                self.release(place_in(controller, cell, trx, *channel))
            }
            Rsl::DataIndication { .. }
            | Rsl::ChannelActivationAck { .. }
            | Rsl::ChannelActivationNack { .. }
            | Rsl::ConnectionFailureIndication { .. }
            | Rsl::HandoverDetection { .. }
            | Rsl::MeasurementResult { .. }
            | Rsl::RfChannelReleaseAck { .. } => Ok(self.nothing()),
        }
    }

    /// What is known of a channel.
    fn slot(&self, place: Place) -> Slot
        ensures { result ≡ slot_in self.now.slots place }
    {
        self.slots.get(place)
    }

    /// Whether this channel of the same timeslot conflicts with one, and is active.
    fn is_in_use_by(&self, place: Place, sub: Sub) -> bool
        ensures { result ≡ in_use_by self.now.slots place sub }
    {
        let channel = place.channel.part(sub);
        conflicts(place.channel, channel)
            && is_active(self.slot(Place { channel, ..place }).activity)
    }

    /// Whether a channel is active that conflicts with one.
    fn is_in_use(&self, place: Place) -> bool
        ensures { result ≡ is_in_use self.now.slots place }
    {
        self.is_in_use_by(place, Sub::Full)
            || self.is_in_use_by(place, Sub::Half0)
            || self.is_in_use_by(place, Sub::Half1)
    }

    /// CHANNEL ACTIVATION.
    fn activate(&mut self, place: Place, reference: Option<u8>) -> Outs<A>
        ensures gives { IfOk result (λ outs. Gives
            (at_channel self.old place (activated self.old place reference)) self.new outs.items) }
        ensures unchanged { OnErr result (self.new ≡ self.old) }
    {
        let reaction = at_activation(self.slot(place), self.is_in_use(place), reference);
        self.react(place, reaction)
    }

    /// RF CHANNEL RELEASE.
    fn release(&mut self, place: Place) -> Outs<A>
        ensures gives { IfOk result (λ outs. Gives (at_channel self.old place (reacted self.old place
            (at_release (slot_in self.old.slots place)))) self.new outs.items) }
        ensures unchanged { OnErr result (self.new ≡ self.old) }
        ensures channel { OnErr result (has_channel self.old place ≡ true) }
        ensures hold { OnErr result (hold_of self.old.holds place Answer.ReleaseAck ≡ None) }
    {
        let reaction = at_release(self.slot(place));
        self.react(place, reaction)
    }

    /// What comes of a station's reaction.
    fn react(&mut self, place: Place, reaction: Reaction) -> Outs<A>
        ensures gives { IfOk result (λ outs. Gives
            (at_channel self.old place (reacted self.old place reaction)) self.new outs.items) }
        ensures unchanged { OnErr result (self.new ≡ self.old) }
        ensures channel { OnErr result (has_channel self.old place ≡ true) }
        ensures memory { OnErr result ((hold_of self.old.holds place reaction.answer ≡ None) ⊎
            (IsSome reaction.slot × (finite.get self.old.slots (key_of place) ≡ None))) }
    {
        if !self.has_channel(place) {
            return Ok(self.nothing());
        }
        match hold_of(self.holds.as_slice(), place, reaction.answer) {
            None => self.leave(place, reaction.slot, &[reaction.answer]),
            Some(hold) => {
                self.slots.change(place, reaction.slot)?;
                keep(&mut self.holds, hold, reaction.answer);
                Ok(self.nothing())
            }
        }
    }

    /// What comes of it that answers about a channel leave, none of which a hold keeps, once the channel has changed, where
    /// it does.
    fn leave(&mut self, place: Place, change: Option<Slot>, answers: &[Answer]) -> Outs<A>
        requires { place.channel.tn < 8 }
        ensures gives { IfOk result (λ outs. Gives
            (all_sent (with_slot self.old place change) place answers.now) self.new outs.items) }
        ensures unchanged { OnErr result (self.new ≡ self.old) }
        ensures memory { change ≡ None → OnErr result (answers.now ≢ []) }
    {
        let known = self.slot_once(place, change);
        let outs = all_departed(*self.holds.allocator(), place, known.impairment, answers)?;
        self.slots
            .change(place, changed_and_left(change, known, answers))?;
        Ok(outs)
    }

    /// What is known of a channel once it has changed, where it does.
    fn slot_once(&self, place: Place, change: Option<Slot>) -> Slot
        ensures { result ≡ slot_in (changed self.now.slots place change) place }
    {
        match change {
            Some(slot) => slot,
            None => self.slot(place),
        }
    }

    /// What is heard of the mobile on a channel to which octets are passed on.
    fn pass_on(&mut self, place: Place, link: u8, octets: &[u8]) -> Outs<A>
        ensures gives { IfOk result (λ outs. (heard : Option Rr) × IsHeard octets.now heard ×
            Gives (at_channel self.old place (passed_on self.old place link heard)) self.new outs.items) }
        ensures unchanged { OnErr result (self.new ≡ self.old) }
    {
        let heard = heard_in(octets);
        self.tell(place, link, heard)
    }

    /// Tells the channel what the octets say.
    fn tell(&mut self, place: Place, link: u8, heard: Option<Rr>) -> Outs<A>
        ensures gives { IfOk result (λ outs. Gives
            (at_channel self.old place (passed_on self.old place link heard)) self.new outs.items) }
        ensures unchanged { OnErr result (self.new ≡ self.old) }
    {
        if !self.has_channel(place) {
            return Ok(self.nothing());
        }
        match heard {
            None => Ok(self.nothing()),
            Some(message) => {
                if link == MAIN_SIGNALLING {
                    let response = response_to(self.trxs.as_slice(), &self.slots, place, &message);
                    self.respond(place, response)
                } else {
                    Ok(self.nothing())
                }
            }
        }
    }

    /// What is heard of the mobile on a channel.
    fn respond(&mut self, place: Place, response: Response) -> Outs<A>
        requires place { place.channel.tn < 8 }
        requires target { IsOnTimeslot response }
        ensures gives { IfOk result (λ outs. Gives (responded self.old place response)
            self.new outs.items) }
        ensures unchanged { OnErr result (self.new ≡ self.old) }
    {
        match response {
            Response::Unheard => Ok(self.nothing()),
            Response::Returned => self.leave(place, None, &[Answer::Failure]),
            Response::Arrived(target) => self.arrive(target),
        }
    }

    /// What is heard of a mobile that came to a channel: its station detected it, and it says that it came. Each of the two
    /// leaves, where no hold keeps it.
    fn arrive(&mut self, target: Place) -> Outs<A>
        requires { target.channel.tn < 8 }
        ensures gives { IfOk result (λ outs. Gives (responded self.old target (Response.Arrived target))
            self.new outs.items) }
        ensures unchanged { OnErr result (self.new ≡ self.old) }
    {
        let detection = hold_of(self.holds.as_slice(), target, Answer::Detection);
        let complete = hold_of(self.holds.as_slice(), target, Answer::Complete);
        let outs = self.leave_unkept(target, detection, complete)?;
        keep_in(&mut self.holds, detection, Answer::Detection);
        keep_in(&mut self.holds, complete, Answer::Complete);
        Ok(outs)
    }

    /// What comes of it that the two leave which no hold keeps.
    fn leave_unkept(
        &mut self,
        target: Place,
        detection: Option<usize>,
        complete: Option<usize>,
    ) -> Outs<A>
        requires { target.channel.tn < 8 }
        ensures gives { IfOk result (λ outs. Gives
            (all_sent self.old target (unkept detection complete)) self.new outs.items) }
        ensures unchanged { OnErr result (self.new ≡ self.old) }
    {
        match (detection, complete) {
            (None, None) => self.leave(target, None, &[Answer::Detection, Answer::Complete]),
            (None, Some(_)) => self.leave(target, None, &[Answer::Detection]),
            (Some(_), None) => self.leave(target, None, &[Answer::Complete]),
            (Some(_), Some(_)) => Ok(self.nothing()),
        }
    }

    /// Notes what is known of a channel from here on.
    fn note(&mut self, place: Place, slot: Slot) -> Outs<A>
        ensures gives { IfOk result (λ outs. Gives (silent (with_slot self.old place (Some slot)))
            self.new outs.items) }
        ensures unchanged { OnErr result (self.new ≡ self.old) }
        ensures memory { OnErr result (finite.get self.old.slots (key_of place) ≡ None) }
    {
        self.slots.put(place, slot)?;
        Ok(self.nothing())
    }

    /// What was kept about a channel leaves, and its holds end.
    fn let_out(&mut self, place: Place) -> Outs<A>
        requires { place.channel.tn < 8 }
        ensures gives { IfOk result (λ outs. Gives (acted self.old place Act.Release)
            self.new outs.items) }
        ensures unchanged { OnErr result (self.new ≡ self.old) }
        ensures memory { OnErr result (kept_of place self.old.holds ≢ []) }
    {
        let kept = all_kept(*self.holds.allocator(), self.holds.as_slice(), place)?;
        let outs = self.leave(place, None, kept.as_slice())?;
        end_holds(&mut self.holds, place);
        Ok(outs)
    }

    /// What comes of an act at a channel.
    fn act(&mut self, place: Place, act: Act) -> Outs<A>
        requires { place.channel.tn < 8 }
        ensures gives { IfOk result (λ outs. Gives (acted self.old place act) self.new outs.items) }
        ensures unchanged { OnErr result (self.new ≡ self.old) }
        ensures memory { OnErr result (ActNeedsMemory self.old place act) }
    {
        match act {
            Act::Refuse => {
                let slot = Slot {
                    refuses: true,
                    ..self.slot(place)
                };
                self.note(place, slot)
            }
            Act::Hold(held) => {
                self.holds.push(Hold {
                    place,
                    held,
                    kept: None,
                })?;
                Ok(self.nothing())
            }
            Act::Release => self.let_out(place),
            Act::Mobile(habit) => {
                let slot = Slot {
                    habit,
                    ..self.slot(place)
                };
                self.note(place, slot)
            }
            Act::Double => {
                let slot = doubled(self.slot(place));
                self.note(place, slot)
            }
            Act::Cut(octets) => {
                let slot = cut(self.slot(place), octets);
                self.note(place, slot)
            }
        }
    }
}

/// A channel whose next answer comes twice.
fn doubled(slot: Slot) -> Slot
    ensures { result ≡ doubled slot }
{
    Slot {
        impairment: Impairment {
            doubles: true,
            ..slot.impairment
        },
        ..slot
    }
}

/// A channel whose next answer is cut to its first octets, so many.
fn cut(slot: Slot, octets: u8) -> Slot
    ensures { result ≡ cut slot octets }
{
    Slot {
        impairment: Impairment {
            cut: Some(octets),
            ..slot.impairment
        },
        ..slot
    }
}

/// The message that octets say to a station, if any.
fn message_in<A: Allocator + Copy>(alloc: A, octets: &[u8]) -> Result<Option<Rsl<A>>, AllocError>
    ensures said { IfOk result (IsSaid octets.now) }
    ensures memory { OnErr result ((message : Rsl A) × IsTextOf message octets.now ×
        HasOctets message) }
{
    match decode(alloc, octets) {
        Ok(message) => Ok(Some(message)),
        Err(fault) => {
            if fault.is_memory() {
                Err(AllocError)
            } else {
                Ok(None)
            }
        }
    }
}
