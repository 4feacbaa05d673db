//! The radio book: which channels are in use and by which call, which attempts at handover are open, and
//! which handover references and timers they hold. Every change of it is one event, judged by a written table.
#![tactic(auto)]

pub mod ask;
pub mod book;
pub mod event;
pub mod facts;
pub mod following;
mod kinds;
pub mod laws;
pub mod marked;
pub mod marks;
pub mod others;
pub mod owed;
pub mod records;
mod remainder;
pub mod rewind;
pub mod run;
mod steps;
pub mod undone;
