//! Takes all settled attempts at handover out together: out of a trace that is read back (`traced`), and out of what the
//! controllers of a run were asked (`runs`), also of a run with views (`viewed`). Printed lines are counted (`lines`), so
//! that a held event is named by its line (`noting`). `shown` prints an audit.
#![tactic(auto)]

pub mod lines;
pub mod noting;
pub mod runs;
pub mod shown;
pub mod traced;
pub mod viewed;
