//! The simulators around one controller or two: the stations and mobiles of each, and the switching centre.
use crate::waiting::{Arrival, Waiting};
use bts_model::{Restart, Setting, StationOut, World};
use cell_table::Site;
use exchange::{Inbound, Outbound};
use lab_script::script::Side;
use msc_model::{Centre, CentreOut};
use std::alloc::{AllocError, Allocator, Global};
use std::collections::VecDeque;
use std::sync::Arc;

/// The simulated stations and mobiles of all controllers, and the simulated switching centre.
#[derive(Drop)]
pub struct Simulators<A: Allocator = Global> {
    world: World<A>,
    centre: Centre<A>,
}

/// The controller of a place in the list of sites that the simulators were made of.
fn side_of(controller: usize) -> Side {
    if controller == 0 {
        Side::First
    } else {
        Side::Peer
    }
}

/// Messages of stations wait behind all else.
fn queue_stations<A: Allocator + Copy>(
    waiting: &mut Waiting<A>,
    messages: Vec<StationOut<A>, A>,
) -> Result<(), AllocError> {
    for message in messages {
        waiting.push_back(Arrival {
            side: side_of(message.controller),
            input: Inbound::Abis {
                cell: message.cell,
                trx: message.trx,
                bytes: message.bytes,
            },
        })?;
    }
    Ok(())
}

/// Messages of the switching centre wait behind all else.
fn queue_centre<A: Allocator + Copy>(
    waiting: &mut Waiting<A>,
    messages: Vec<CentreOut<A>, A>,
) -> Result<(), AllocError> {
    for message in messages {
        waiting.push_back(Arrival {
            side: side_of(message.controller),
            input: Inbound::A {
                call: message.call,
                bytes: message.bytes,
            },
        })?;
    }
    Ok(())
}

impl<A: Allocator + Copy> Simulators<A> {
    /// The simulators around the controllers of these sites.
    pub fn new(alloc: A, sites: &[Arc<Site<A>, A>]) -> Result<Simulators<A>, AllocError> {
        Ok(Simulators {
            world: World::new(alloc, sites)?,
            centre: Centre::new(alloc, sites)?,
        })
    }

    /// Asks something of a station or of a mobile. The messages that it sends wait.
    pub fn set(&mut self, setting: Setting, waiting: &mut Waiting<A>) -> Result<(), AllocError> {
        queue_stations(waiting, self.world.set(setting)?)
    }

    /// A station restarts. What its controller hears of that waits.
    pub fn restart(
        &mut self,
        restart: Restart,
        waiting: &mut Waiting<A>,
    ) -> Result<(), AllocError> {
        queue_stations(waiting, self.world.restart(restart)?)
    }

    /// The switching centre hangs up a call. The messages that it sends wait.
    pub fn hang_up(
        &self,
        side: Side,
        call: u16,
        waiting: &mut Waiting<A>,
    ) -> Result<(), AllocError> {
        queue_centre(waiting, self.centre.hangup(side.number(), call)?)
    }

    /// A message of a controller goes to the station or the switching centre that it is for. What that answers waits.
    fn pass(
        &mut self,
        side: Side,
        message: &Outbound<A>,
        waiting: &mut Waiting<A>,
    ) -> Result<(), AllocError> {
        let controller = side.number();
        match message {
            Outbound::Abis { cell, trx, bytes } => {
                let outs = self.world.step(controller, *cell, *trx, bytes.as_slice())?;
                queue_stations(waiting, outs)
            }
            Outbound::A { call, bytes } => {
                let outs = self.centre.step(controller, *call, bytes.as_slice())?;
                queue_centre(waiting, outs)
            }
        }
    }

    /// Delivers the messages of a controller, in order.
    pub fn pass_on(
        &mut self,
        side: Side,
        sent: &[Outbound<A>],
        waiting: &mut Waiting<A>,
    ) -> Result<(), AllocError> {
        for message in sent {
            self.pass(side, message, waiting)?;
        }
        Ok(())
    }
}
