//! Tests of workers on threads: what no clause says of them, that they run beside each other and that an office closes.
#![tactic(auto)]

pub mod bag;
#[cfg(test)]
mod tests;
