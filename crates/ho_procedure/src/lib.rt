//! The procedure of a base station controller: for each input, the events that it asks of its book, and the messages that it
//! sends.
#![tactic(auto)]

mod buffers;
mod commands;
pub mod controller;
mod decoding;
mod following;
mod outbox;
mod records;
mod requests;
mod rows;
mod sending;
pub mod shared;
pub mod solo;
mod texts;
pub mod view;
mod windows;
mod work;

pub use exchange::{Bad, Fault, Inbound, Line, Link, Outbound, chan_of};
