//! Tests of the public surface of `bench_cases`, which is proved once and not again with them.
#![tactic(auto)]

#[cfg(test)]
mod tests;
