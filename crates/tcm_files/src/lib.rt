//! Tests alone: runs over files.
#![tactic(auto)]

#[cfg(test)]
mod files;
