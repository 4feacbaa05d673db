//! Elements of radio resource messages (TS 44.018 section 10.5.2).
#![tactic(auto)]

mod cause;
mod cell;
mod channel;
mod fault;
pub mod laws;
mod measurement;
mod power;
mod results;

pub use cause::{ABNORMAL_RELEASE, NORMAL_EVENT, RrCause};
pub use cell::CellDescription;
pub use channel::ChanDescription;
pub use fault::ElementFault;
pub use measurement::{MeasHead, Ncell};
pub use octet_elements::Sub;
pub use power::Power;
pub use results::MeasResults;
