//! Workers that handle the inputs of one controller, each on a thread of its own, at one desk that they share.
//!
//! An [`Office`] starts them, gives each input to the worker of its call, and closes. When it closes, it says what each
//! worker took, and checks that all receipts together are the desk's history.
#![tactic(auto)]

mod closing;
mod fault;
mod finding;
mod gate;
mod letter;
mod links;
mod office;
mod posted;
mod starting;
mod worker;

pub use fault::{GiveFault, StartFault};
pub use gate::{Gate, Point};
pub use links::{Links, copy_of};
pub use office::{Closed, Office, Unclosed};
pub use posted::WorkerEnd;
pub use receipt_check::{CloseFault, gather};
pub use worker::Turn;
