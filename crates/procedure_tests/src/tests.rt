//! What neither a clause says nor a trace shows: refused memory, foreign seats, seats at a shared desk, texts of faults. What
//! comes of inputs stands in scripts in `tests/`, at the top of the repository.
mod controllers;
mod foreign;
mod kept;
mod memory;
mod requests;
mod shared;
mod texts;
