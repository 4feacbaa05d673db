//! The stations, the mobiles and the switching centre around the one controller of a storm.
use bts_model::{Act, Habit, Setting, StationOut, World};
use cell_table::Site;
use channel_fsm::ChanId;
use exchange::{Inbound, Outbound};
use msc_model::{Centre, CentreOut};
use std::alloc::{AllocError, Allocator, Global};
use std::sync::Arc;

/// The controller's number at the simulators.
const CONTROLLER: usize = 0;

/// What is simulated around a controller.
#[derive(Drop)]
pub(crate) struct Simulated<A: Allocator = Global> {
    alloc: A,
    world: World<A>,
    centre: Centre<A>,
}

/// Inputs that simulators send a controller, in their order.
pub(crate) type Inputs<A> = Result<Vec<Inbound<A>, A>, AllocError>;

/// Messages of stations as inputs.
fn from_stations<A: Allocator + Copy>(alloc: A, messages: Vec<StationOut<A>, A>) -> Inputs<A> {
    let mut inputs = Vec::with_capacity(alloc, messages.len())?;
    for message in messages {
        inputs.push(Inbound::Abis {
            cell: message.cell,
            trx: message.trx,
            bytes: message.bytes,
        })?;
    }
    Ok(inputs)
}

/// Messages of the switching centre as inputs.
fn from_centre<A: Allocator + Copy>(alloc: A, messages: Vec<CentreOut<A>, A>) -> Inputs<A> {
    let mut inputs = Vec::with_capacity(alloc, messages.len())?;
    for message in messages {
        inputs.push(Inbound::A {
            call: message.call,
            bytes: message.bytes,
        })?;
    }
    Ok(inputs)
}

impl<A: Allocator + Copy> Simulated<A> {
    /// What is simulated around the controller of a site. No channel is active.
    pub(crate) fn new(alloc: A, site: &Arc<Site<A>, A>) -> Result<Simulated<A>, AllocError> {
        let mut sites = Vec::with_capacity(alloc, 1)?;
        sites.push(site.clone()?)?;
        Ok(Simulated {
            alloc,
            world: World::new(alloc, &sites)?,
            centre: Centre::new(alloc, &sites)?,
        })
    }

    /// What is answered to a message of the controller.
    pub(crate) fn answers(&mut self, message: &Outbound<A>) -> Inputs<A> {
        match message {
            Outbound::Abis { cell, trx, bytes } => {
                let outs = self.world.step(CONTROLLER, *cell, *trx, bytes.as_slice())?;
                from_stations(self.alloc, outs)
            }
            Outbound::A { call, bytes } => {
                let outs = self.centre.step(CONTROLLER, *call, bytes.as_slice())?;
                from_centre(self.alloc, outs)
            }
        }
    }

    /// What the switching centre sends as it hangs up a call.
    pub(crate) fn hang_up(&self, call: u16) -> Inputs<A> {
        from_centre(self.alloc, self.centre.hangup(CONTROLLER, call)?)
    }

    /// What mobiles on a channel do from now on, when they are commanded to another. A station sends nothing then.
    pub(crate) fn set_habit(&mut self, chan: ChanId, habit: Habit) -> Result<(), AllocError> {
        self.world
            .set(Setting::of(CONTROLLER, chan, Act::Mobile(habit)))?;
        Ok(())
    }
}
