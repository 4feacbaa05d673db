//! Scripts in which each attempt at handover is undone at each point, once, and then taken out of the run: the points at
//! which attempts are open (`points`), a run in which an operator undoes one (`interrupted`), its result (`verdict`), and
//! the tests of a script (`tried`), which are printed as TAP (`printed`).
#![tactic(auto)]

mod deaf;
mod interrupted;
mod points;
mod printed;
pub mod tried;
mod verdict;

pub use interrupted::Interruption;
pub use points::{Point, points_of};
pub use printed::{Tally, print_tally};
pub use verdict::{Difference, Verdict, verdict_of};
