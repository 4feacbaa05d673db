//! Tests of the public surface of the codecs, which are proved once and not again with them.
#![tactic(auto)]

#[cfg(test)]
mod tests;
