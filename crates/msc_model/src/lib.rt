//! A simulated switching centre. What controllers send on A (TS 48.008) goes to it, and its answers come back as octets:
//! it hands calls over from one controller to another.
#![tactic(auto)]

mod cell;
mod centre;
mod connection;
mod message;
mod out;
mod route;

pub use centre::Centre;
pub use out::CentreOut;
