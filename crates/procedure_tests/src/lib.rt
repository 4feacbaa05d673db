//! Tests of the public surface of `ho_procedure`, which is proved once and not again with them.
#![tactic(auto)]

pub mod leaving;
#[cfg(test)]
mod tests;
