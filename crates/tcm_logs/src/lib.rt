//! Tests alone: runs over log files.
#![tactic(auto)]

#[cfg(test)]
mod headers;
#[cfg(test)]
mod logs;
#[cfg(test)]
mod members;
#[cfg(test)]
mod mends;
#[cfg(test)]
mod plans;
