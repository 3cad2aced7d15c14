//! Tests alone: runs over disks that stop.
#![tactic(auto)]

#[cfg(test)]
mod disks;
