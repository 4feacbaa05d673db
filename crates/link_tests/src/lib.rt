//! Tests of the public surface of the crates of a controller with the links of its stations, which are proved once and not again
//! with them.
#![tactic(auto)]

#[cfg(test)]
mod tests;
