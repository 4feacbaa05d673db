//! Tests of the public surface of the crates that write messages, events and faults in words and read them, of scripts, charts
//! and captures, which are proved once and not again with them.
#![tactic(auto)]

#[cfg(test)]
mod tests;
