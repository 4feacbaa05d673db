//! Opens the journal of a controller (`opening`): finds the book with which it goes on (`found`), prints once more what was
//! sent and perhaps not heard (`told`), or says why it is refused (`fault`).
#![tactic(auto)]

mod fault;
mod found;
mod opening;
mod told;

pub use opening::{Asked, Opened, open_journal};
