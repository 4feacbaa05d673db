//! Tests of the public surface of the simulators, `bts_model` and `msc_model`, which are proved once and not again with them.
#![tactic(auto)]

#[cfg(test)]
mod tests;
