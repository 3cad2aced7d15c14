//! Calls that no script makes.

mod directory;
mod edges;
mod follower;
mod log;
mod members;
mod reach;
mod replies;
mod streams;
mod terms;
mod wire;

use cluster_terms::Name;
use std::alloc::Global;
use std::test::Fail;

/// A name.
fn name_of(alloc: Global, text: &str) -> Result<Name, Fail> {
    Ok(Name::from_text(alloc, text)?.ok_or("no name")?)
}
