//! Roots that are emptied.

ghost use Rattle.std.specs.Prelude.{◌≡◌, ◌≢◌, ◌<◌, ◌≤◌, ℕ, true, Ok, length, IfErr, IfOk, is_ok};
ghost use Rattle.shm_plain.specs.Pools.{memo_of};
ghost use Rattle.shm_tree.specs.{Bounds.drop_steps, Building.root_block, Costing.{Costs, Spends, sweep_steps}};
ghost use Rattle.shm_tree.specs.{Forests.{CallLeaves, IsFree, KeepsOthers, KeepsRoots}, Keeping.IsStill, Spending.DiesAfter};
ghost use Rattle.shm_tree.specs.Working.{DiedBegun, IfRefused, IsSpent, IsWorking};
ghost use Rattle.shm_tree.specs.declared.hints.Hints.TheVariants.{Off};

use crate::calls::drop_root;
use crate::ground::Ground;
use crate::registers::NONE;
use crate::stop::Stop;
use shm_graph::Life;

/// Empties a root, unless it is one of these.
fn drop_other(pool: &mut Ground, roots: [u8; 12], root: u8, life: &mut Life) -> Result<(), Stop>
    requires working { IsWorking pool.old }
    requires long { length roots ≡ 12 }
    requires root { root < 16 }
    ensures calls { CallLeaves Off (KeepsRoots roots) result pool.old pool.new life.old.left life.new.left }
    ensures others { IfOk result (λ u. (k : ℕ) → k ≢ root → root_block pool.new k ≡ root_block pool.old k) }
    ensures empty { IfOk result (λ u. IsFree roots root → root_block pool.new root ≡ 0) }
    ensures late { DiesAfter (drop_steps pool.old.start.geometry 0) result pool.old pool.new life.old.left }
    ensures costs { IfOk result (λ u. Costs 0 (drop_steps pool.old.start.geometry 0) pool.old pool.new life.old.left life.new.left) }
    ensures refused { IfRefused result (Spends 0 (drop_steps pool.old.start.geometry 0) pool.old pool.new life.old.left life.new.left) }
    ensures spent { IfRefused result (IsSpent (memo_of pool.new 0)) }
{
    if roots.contains(&root) {
        Ok(())
    } else {
        drop_root(pool, root, life)
    }
}

/// Empties all roots but these.
///
/// # Errors
///
/// As a drop was refused: what is in these roots stands still.
pub fn swept(pool: &mut Ground, roots: [u8; 12], life: &mut Life) -> Result<(), Stop>
    requires working { IsWorking pool.old }
    requires long { length roots ≡ 12 }
    ensures calls { CallLeaves Off (KeepsRoots roots) result pool.old pool.new life.old.left life.new.left }
    ensures empty { IfOk result (λ u. (k : ℕ) → k < 16 → IsFree roots k → root_block pool.new k ≡ 0) }
    ensures late { DiesAfter (sweep_steps pool.old.start.geometry) result pool.old pool.new life.old.left }
    ensures costs { IfOk result (λ u. Costs 0 (sweep_steps pool.old.start.geometry) pool.old pool.new life.old.left life.new.left) }
    ensures refused { IfRefused result (Spends 0 (sweep_steps pool.old.start.geometry) pool.old pool.new life.old.left life.new.left) }
    ensures spent { IfRefused result (IsSpent (memo_of pool.new 0)) }
{
    for root in 0..16u8 {
        drop_other(pool, roots, root, life)?;
    }
    Ok(())
}

/// Empties a root; there is none where it is 16.
///
/// # Errors
///
/// As the drop was refused; nothing was done then.
pub fn emptied(pool: &mut Ground, root: u8, life: &mut Life) -> Result<(), Stop>
    requires working { IsWorking pool.old }
    requires root { root ≤ 16 }
    ensures begun { IfErr result (λ e. DiedBegun e pool.old pool.new life.old.left) }
    ensures idle { root ≡ 16 → is_ok result ≡ true }
    ensures calls { CallLeaves Off (KeepsOthers root) result pool.old pool.new life.old.left life.new.left }
    ensures others { IfOk result (λ u. (k : ℕ) → k ≢ root → root_block pool.new k ≡ root_block pool.old k) }
    ensures empty { IfOk result (λ u. root < 16 → root_block pool.new root ≡ 0) }
    ensures still { IfRefused result (IsStill pool.old pool.new) }
    ensures late { DiesAfter (drop_steps pool.old.start.geometry 0) result pool.old pool.new life.old.left }
    ensures costs { IfOk result (λ u. Costs 0 (drop_steps pool.old.start.geometry 0) pool.old pool.new life.old.left life.new.left) }
    ensures refused { IfRefused result (Spends 0 (drop_steps pool.old.start.geometry 0) pool.old pool.new life.old.left life.new.left) }
{
    if root == NONE {
        Ok(())
    } else {
        drop_root(pool, root, life)
    }
}
