//! Tests of the public surface of `radio_book` and `radio_desk`, which are proved once and not again with them.
#![tactic(auto)]

#[cfg(test)]
mod tests;
