//! What scripts for versions of a map tell.

ghost use Rattle.shm_tree.specs.{ScriptTexts.IsScript, Scripts.TreeScripted as AScript};
ghost use Rattle.shm_versions.specs.{declared.treed.Treed.Treed as ATreed, TreeRuns.IsTreeRun};
ghost use Rattle.shm_outcomes.specs.{Costs.ScriptCosts, Maps.TellsMaps};

use shm_tree::{insertions_are_changes, removals_are_changes};

/// What is told of a run of a script is what twelve finite maps tell, which are empty at first: each answer fits the maps on which its line was run,
/// and the sizes at the end are the numbers of their keys. No line is answered as refused for a spent era, and a line that reads isn't refused.
pub fn scripts_are_maps()
    ensures { (s : AScript) (r : ATreed) → IsScript s → IsTreeRun s r → TellsMaps s r }
{
    insertions_are_changes();
    removals_are_changes();
}

/// What a run of a script cost. Each line that was finished made few blocks, by the height of the version that it began with, of which few are live
/// that weren't, and took few word steps; at each live block stands a tree, and where a line wasn't answered by `Ok` the same blocks are live. A line
/// that was cut off takes a word step, and where one was left for it, it isn't done.
pub fn scripts_are_frugal()
    ensures { (s : AScript) (r : ATreed) → IsScript s → IsTreeRun s r → ScriptCosts s r }
{}
