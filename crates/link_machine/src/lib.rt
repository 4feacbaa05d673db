//! Channels of a site at their stations. The rows of docs/LINKS.md keep what a controller's book says of each channel and
//! what its station was told about it in agreement.
//!
//! A [`Machine`] has a [`Channel`] for each traffic channel of a site, and what is known of calls ([`CallFacts`]). It is
//! told that the link of a TRX comes or goes ([`Machine::link`]), what is heard about a channel ([`Machine::tell`];
//! [`said_by`] says what a station's message means for it), and that the controller has had a turn, in which the book may
//! have changed ([`Machine::settle`]). Each call returns what is to be done. The machine asks no desk. What is to be said to
//! the book is owed to the controller, as inputs in another's place ([`InPlace`], [`Machine::take_owed`]). The machine is
//! also told the events of a turn, one by one: timers of calls follow the book ([`Machine::follow`]), and a failure that was
//! kept is told after an attempt ([`Machine::end_attempt`]).
#![tactic(auto)]

mod attempts;
mod calls;
mod channel;
mod laws;
mod machine;
mod moving;
mod pass;
mod stations;
mod timers;

pub use attempts::{end_on, undone_on};
pub use calls::CallFacts;
pub use channel::{Bar, Channel, InPlace};
pub use laws::{bars_hold, clocks_run, settled_agrees, timers_follow, told_agrees};
pub use machine::Machine;
pub use moving::{Done, Moved, TurnFacts, Word, linked, settled, told};
pub use stations::{Said, said_by};
pub use timers::TimerChange;
