//! Reads traces back: asks their events once more of the empty book of their site (`reading`), says why a trace can't be
//! read (`reasons`), and takes an undone attempt out of it (`rewound`).
#![tactic(auto)]

pub mod choices;
pub mod reading;
pub mod reasons;
pub mod rewound;
