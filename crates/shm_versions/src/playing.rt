//! Scripts that are run on a forest.

ghost use Rattle.std.specs.{Prelude.{◌≡◌, ◌^◌, ◌≤◌, false, not, List, [], IfOk, IfSome}, Option.is_some};
ghost use Rattle.std.specs.List.{AllByRecursion};
ghost use Rattle.shm_graph.specs.Agents.{steps_made};
ghost use Rattle.shm_plain.specs.Pools.{memo_of};
ghost use Rattle.shm_tree.specs.{ForestCalls.IsClosedForest, Forests.HasVersions, ScriptTexts.{IsScript, LineFits}};
ghost use Rattle.shm_tree.specs.Trees.{Tree as ATree};
ghost use Rattle.shm_versions.specs.TreeRuns.{ForestHolds, IsPlayed, IsTreeRun, life_of};

use crate::treed::{Holding, Treed};
use shm_graph::Life;
use shm_plain::PlainClosed;
use shm_tree::{Forest, TreeAnswer, TreeLine, TreeScript, TreeTurn};
use std::alloc::{AllocError, Global};

/// How many word steps a script without a life has.
const LIFE: u64 = 1 << 40;

/// How many word steps all lines of a script may make.
fn life_of(script: &TreeScript) -> u64
    ensures { result ≡ life_of script.now }
{
    script.life.unwrap_or(LIFE)
}

/// Runs lines until one isn't finished, and adds what they are answered by; whether all were.
fn play(
    forest: &mut Forest,
    lines: &[TreeLine],
    life: &mut Life,
    answers: &mut Vec<TreeAnswer>,
) -> Result<bool, AllocError>
    requires fit { AllByRecursion LineFits lines.now }
    requires alive { forest.old.died ≡ false }
    requires none { answers.old.items ≡ [] }
    ensures played { IfOk result (IsPlayed lines.now answers.new.items forest.old life.old.left forest.new) }
    ensures alive { IfOk result (λ whole. forest.new.died ≡ not whole) }
{
    for line in lines {
        match forest.run(line, life) {
            TreeTurn::Died => return Ok(false),
            TreeTurn::Done(answer) => answers.push(answer)?,
        }
    }
    Ok(true)
}

/// How much a forest holds.
fn holding_of(forest: &Forest) -> Holding
    requires { forest.now.died ≡ false }
    ensures { (ts : List ATree) → HasVersions forest.now.registers ts → ForestHolds forest.now ts result }
{
    let mut sizes = [0; 12];
    for at in 0..12u8 {
        sizes[at as usize] = forest.size(at);
    }
    Holding {
        sizes,
        nodes: forest.nodes(),
    }
}

/// How much a forest holds, where all lines were finished.
fn held_after(forest: &Forest, whole: bool) -> Option<Holding>
    requires { forest.now.died ≡ not whole }
    ensures whole { is_some result ≡ whole }
    ensures holds { (ts : List ATree) → HasVersions forest.now.registers ts → IfSome result (ForestHolds forest.now ts) }
{
    if whole {
        Some(holding_of(forest))
    } else {
        None
    }
}

/// Closes a forest whose client has made so few word steps that its own era isn't spent.
fn close(forest: Forest) -> PlainClosed
    requires { steps_made (memo_of forest.registers.pool 0) ≤ 2 ^ 46 }
    ensures { IsClosedForest forest result }
{
    match forest.close() {
        Ok(closed) => closed,
        Err(_) => unreachable!(),
    }
}

/// Runs a script: makes a forest, runs its lines until one isn't finished for want of word steps, and closes the pool.
pub fn run_script(alloc: Global, script: &TreeScript) -> Result<Treed, AllocError>
    requires { IsScript script.now }
    ensures { IfOk result (IsTreeRun script.now) }
{
    let mut forest = Forest::make(alloc, script.segments)?;
    let mut life = Life::of(life_of(script));
    let mut answers = Vec::new(alloc);
    let whole = play(
        &mut forest,
        script.lines.as_slice(),
        &mut life,
        &mut answers,
    )?;
    let holding = held_after(&forest, whole);
    Ok(Treed {
        closed: close(forest),
        answers,
        holding,
    })
}
