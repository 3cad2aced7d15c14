//! Tests alone: calls that no script makes, a file for each crate.
#![tactic(auto)]

#[cfg(test)]
mod calls;
