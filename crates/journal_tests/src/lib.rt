//! Tests of the files of a journal, over a disk that fails.
#![tactic(auto)]

#[cfg(test)]
mod tests;
