//! Simulated base stations and the mobiles in their cells. What a controller sends on Abis (TS 48.058) goes to them, and
//! their answers come back as octets.
#![tactic(auto)]

mod answer;
mod departure;
mod hold;
mod mobile;
mod place;
mod restart;
mod setting;
mod slots;
mod station;
mod trx;
mod world;

pub use answer::{Answer, StationOut, octets_of};
pub use restart::Restart;
pub use rsl_messages::Sub;
pub use setting::{Act, Habit, Held, Setting};
pub use world::World;
