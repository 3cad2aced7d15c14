//! The end of `gen`.

ghost use Rattle.std.specs.Prelude.{◌≡◌, ◌≤◌, IfOk};
ghost use Rattle.tcm_session.specs.Gen as spec;

use crate::ending::Ending;
use cluster_terms::Memory;
use generated_scripts::generate;
use std::alloc::Global;

/// The end of a generated script: the counts of the answers to its lines.
pub fn count_answers(alloc: Global, start: u64, rounds: u64) -> Result<Ending, Memory>
    requires { rounds ≤ 3000 }
    ensures { IfOk result (λ ending. ending ≡ spec.gen_ending start rounds) }
{
    let text = generate(alloc, start, rounds)?;
    Ok(Ending { status: 0, text })
}
