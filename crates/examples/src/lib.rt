//! Tests that show how to call the crates. The expected values come from the standards and from other programs.
#![tactic(auto)]

#[cfg(test)]
mod tests;
