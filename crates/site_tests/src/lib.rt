//! Tests of the public surface of `cell_table`, `measurements` and `ho_candidates`, which are proved once and not again with
//! them.
#![tactic(auto)]

#[cfg(test)]
mod tests;
