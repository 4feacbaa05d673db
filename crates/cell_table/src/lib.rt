//! The site of a controller: its own cells, outside cells, and the traffic channels.
#![tactic(auto)]

mod checks;
mod fault;
pub mod laws;
pub mod limits;
mod neighbours;
mod places;
pub mod ranges;
mod reading;
mod site;
mod tables;

pub use fault::{Key, SiteFault, What};
pub use ranges::Allowed;
pub use site::Site;
