//! A controller that notes what came of each line in a journal before any of it is printed (`journaled`), and the output
//! that is held back until then (`held`).
#![tactic(auto)]

mod held;
mod journaled;

pub use held::Held;
pub use journaled::Journaled;
