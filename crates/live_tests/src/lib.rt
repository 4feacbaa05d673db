//! Tests of the public surface of `live_runs`, which is proved once and not again with them.
#![tactic(auto)]

#[cfg(test)]
mod tests;
