//! The summary of a generated script.

ghost use Rattle.std.specs.Prelude.{◌≡◌, ◌≤◌, ◌++◌, codes, decimal, IfOk, OnOk};
ghost use Rattle.script_lang.specs.AnswerTexts.{line};
ghost use Rattle.generated_scripts.specs.Generated as spec;

use crate::draw::DRAW_LIMIT;
use crate::generation::Generation;
use crate::kinds::{AnswerKind, accepted_count, refused_count};
use crate::opening::open;
use crate::rounds::run_rounds;
use cluster_terms::{ByteText, Memory};
use script_lang::labelled;
use std::alloc::Global;

/// The number of the last refusal.
const LAST_REFUSAL: u8 = 20;

fn count_line(label: &[u8], count: u64, out: &mut ByteText) -> Result<(), Memory>
    ensures { OnOk result (out.new ≡ out.old ++ spec.count_line label.now count) }
{
    labelled(label, &count, out)?;
    out.extend(b"\n")
}

/// Adds the line of the refusal with this number, if it came.
fn refused_line(kinds: &[AnswerKind], number: u8, out: &mut ByteText) -> Result<(), Memory>
    ensures { OnOk result (out.new ≡ out.old ++ spec.refused_line kinds.now number) }
{
    let count = refused_count(kinds, number);
    if count == 0 {
        return Ok(());
    }
    labelled(b"REFUSED ", &u64::from(number), out)?;
    count_line(b" ", count, out)
}

/// Adds the lines of the refusals with the numbers from 1 to `last` that came.
fn refused_lines(kinds: &[AnswerKind], last: u8, out: &mut ByteText) -> Result<(), Memory>
    requires { last ≤ 20 }
    ensures { OnOk result (out.new ≡ out.old ++ spec.refused_lines kinds.now 1 last) }
{
    let mut number = 1;
    while number <= last {
        refused_line(kinds, number, out)?;
        number += 1;
    }
    Ok(())
}

/// Adds the counts of the lines and of the answers.
#[tactic(auto, unfolding(crate::specs::Generated::answers_text))]
fn answers_text(kinds: &[AnswerKind], out: &mut ByteText) -> Result<(), Memory>
    ensures { OnOk result (out.new ≡ out.old ++ spec.answers_text kinds.now) }
{
    count_line(b"LINES ", kinds.len() as u64, out)?;
    count_line(b"OK ", accepted_count(kinds), out)?;
    refused_lines(kinds, LAST_REFUSAL, out)
}

/// Adds the counts of the lines and of the answers, the last epoch, and the epoch of follower f.
#[tactic(auto, unfolding(crate::specs::Generated::counts_text))]
fn counts_text(generation: &Generation, out: &mut ByteText) -> Result<(), Memory>
    ensures { OnOk result (out.new ≡ out.old ++ spec.counts_text generation.now) }
{
    answers_text(generation.kinds.as_slice(), out)?;
    count_line(b"EPOCH ", generation.session.last_epoch(), out)?;
    count_line(b"FOLLOWER ", generation.session.follower_epoch("f"), out)
}

/// Adds `GEN START N`.
fn head_text(start: u64, rounds: u64, out: &mut ByteText) -> Result<(), Memory>
    ensures { OnOk result (out.new
        ≡ out.old ++ line (codes "GEN " ++ decimal start ++ codes " " ++ decimal rounds)) }
{
    labelled(b"GEN ", &start, out)?;
    count_line(b" ", rounds, out)
}

fn run_script(
    generation: &mut Generation,
    alloc: Global,
    start: u64,
    rounds: u64,
) -> Result<(), Memory>
    requires begins { generation.old ≡ spec.nothing_generated }
    requires rounds { rounds ≤ 3000 }
    ensures { OnOk result (generation.new ≡ spec.generation_of start rounds) }
{
    open(generation, alloc)?;
    run_rounds(generation, alloc, start % DRAW_LIMIT, rounds)
}

/// Answers the lines of the generated script, and returns the summary.
#[tactic(auto, unfolding(crate::specs::Generated::summary))]
fn summary_of(
    generation: &mut Generation,
    alloc: Global,
    start: u64,
    rounds: u64,
) -> Result<ByteText, Memory>
    requires begins { generation.old ≡ spec.nothing_generated }
    requires rounds { rounds ≤ 3000 }
    ensures { IfOk result (λ text. text ≡ spec.summary start rounds) }
{
    run_script(generation, alloc, start, rounds)?;
    let mut text = ByteText::empty(alloc);
    head_text(start, rounds, &mut text)?;
    counts_text(generation, &mut text)?;
    Ok(text)
}

/// The summary of the generated script with these numbers.
///
/// Cost: a session answers up to 60,101 lines, and one more for each epoch that the rounds commit. It is in memory
/// until the end, with two bytes for each line.
pub fn generate(alloc: Global, start: u64, rounds: u64) -> Result<ByteText, Memory>
    requires { rounds ≤ 3000 }
    ensures { IfOk result (λ text. text ≡ spec.summary start rounds) }
{
    let mut generation = Generation::empty(alloc)?;
    let summary = summary_of(&mut generation, alloc, start, rounds);
    generation.close();
    summary
}
