//! A storm: many calls at one controller, whose inputs are handled by workers on threads of their own. Each call is opened,
//! tries to move to the next cell, and is hung up by the switching centre; stations, mobiles and centre are simulated.
//!
//! One thread, the *front*, has the office of the workers and the simulators, and is the only one that gives inputs
//! (`front`, `simulated`). What workers send they lay on one *tray*, which has room for whatever comes (`tray`, `links`).
//! The front takes it up, hands it to the simulators, and gives what they answer. It holds no lock while it waits for room
//! in a worker's inbox; a worker waits for its next input and for the short locks of tray and desk, and for nothing else;
//! and nobody holds two locks. So no circle of threads that wait for one another can come.
//!
//! Which calls there are, and where they begin and move, is laid down before (`trip`); what comes of it is an
//! [`Outcome`](outcome::Outcome) (`storm`, `outcome`). Who watches is told how far a storm is (`watch`).
#![tactic(auto)]

mod front;
pub mod links;
pub mod outcome;
mod simulated;
pub mod storm;
pub mod tray;
pub mod trip;
pub mod watch;
