ghost use Rattle.std.specs.Prelude.{◌≡◌, ℤ, IfOk};
ghost use Rattle.std.specs.List.{flat_map};
ghost use Rattle.cluster_terms.specs.Replication.{groups_of};
ghost use Rattle.token_ring.specs.TokenRanges.{AreCutOut, HaveTokens};
ghost use Rattle.ring_reach.specs.code.RingChange.{reaches_any, tokens_of_both};
ghost use Rattle.ring_reach.specs.code.Moved.{AreTokensAmong};
ghost use Rattle.ring_reach.specs.code.Windows.{any_have, window_bounds};

use crate::ring_change::RingChange;
use crate::rows::ranges_of;
use crate::windows::Windows;
use cluster_terms::{Memory, Name, Replication, Rf};
use node_directory::{Directory, Members};
use std::alloc::Global;
use token_ring::RangeList;

/// The windows of the tokens that a change reaches in each of these datacenters.
fn windows_in_datacenters<'a>(
    alloc: Global,
    change: &RingChange<'a>,
    dir: &'a Directory,
    factors: &'a [(Name, Rf)],
) -> Result<Vec<Windows>, Memory>
    ensures reach { IfOk result (λ groups. (x : ℤ) → any_have groups.items x
        ≡ reaches_any change.now (groups_of dir.now.rows (Replication.Topology factors.now)) x) }
    ensures bounds { IfOk result (λ groups.
        AreTokensAmong (flat_map window_bounds groups.items) (tokens_of_both change.now)) }
{
    let mut groups = Vec::with_capacity(alloc, factors.len())?;
    for (name, rf) in factors {
        let members = Members::Datacenter(dir, name, *rf);
        groups.push(change.windows(alloc, &members)?)?;
    }
    Ok(groups)
}

/// The ranges of the tokens that a change reaches in the groups of a replication. The cost is that of
/// `RingChange::windows` for each group, and of `ranges_of`.
pub fn ranges_in_groups<'a>(
    alloc: Global,
    change: &RingChange<'a>,
    dir: &'a Directory,
    replication: &'a Replication,
) -> Result<RangeList, Memory>
    ensures reach { IfOk result (HaveTokens
        (reaches_any change.now (groups_of dir.now.rows replication.now))) }
    ensures bounds { IfOk result (AreCutOut (tokens_of_both change.now)) }
{
    match replication {
        Replication::Simple(rf) => {
            let windows = change.windows(alloc, &Members::All(*rf))?;
            ranges_of(alloc, &[windows])
        }
        Replication::Topology(factors) => {
            let groups = windows_in_datacenters(alloc, change, dir, factors.rows())?;
            ranges_of(alloc, &groups)
        }
    }
}
