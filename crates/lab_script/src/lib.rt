//! The reader of scripts that drive one controller or two, and what is simulated around them: stations, mobiles, a
//! switching centre.
#![tactic(auto)]

pub mod asked;
pub mod forms;
pub mod report;
mod said;
pub mod script;
mod side;
mod values;
mod words;
