//! Twelve registers over the calls of the one client of a pool.

ghost use Rattle.std.specs.Prelude.{◌≡◌, ◌≢◌, ◌+◌, ◌*◌, ◌<◌, ◌≤◌, ◌⊎◌, ℕ, List, true, false, Ok, None, Some, slice_set, IfErr, IfOk, is_ok};
ghost use Rattle.std.specs.Option.{is_some};
ghost use Rattle.shm_plain.specs.Pools.{memo_of};
ghost use Rattle.shm_tree.specs.{Bounds.drop_steps, Building.{root_block, rooms}};
ghost use Rattle.shm_tree.specs.Costing.{Costs, CostsLine, DiesEnding, DiesLine, EndsLine, FewSet, MakesFew, Spends, StopsLine, copied_steps, copy_steps, del_steps, planted_steps, pruned_steps, read_steps, set_steps, sweep_steps};
ghost use Rattle.shm_tree.specs.CutShort.{DiesHalfDone, IsCutShort, IsWordless};
ghost use Rattle.shm_tree.specs.Forests.{CallLeaves, DoesLine, HasVersions, IsForest, IsFree, IsInRange, IsLeft, IsOwn, IsPruned, IsPut, IsReading, IsSpare, IsSwept, IsTidy, IsUnspent, KeepsNamed, KeepsRegisters, Moves, CallStopped, block_in, root_at, version};
ghost use Rattle.shm_tree.specs.{Keeping.IsStill, Looking.Looks, Releasing.Releases, Spending.{DiesAfter, HasDied}, Standing.{IsTree, TreeStands}};
ghost use Rattle.shm_tree.specs.Trees.{Empty, Tree as ATree, found, height, inserted, removed};
ghost use Rattle.shm_tree.specs.Working.{AreSameRoots, DiedBegun, IfAlive, IfRefused, IsInCall, IsOver, IsReached, IsRooted, IsSameLatch, IsSpent, IsUnderWay, IsWorking, Went};
ghost use Rattle.shm_tree.specs.declared.hints.Hints.TheVariants.{Off};
ghost use Rattle.shm_tree.specs.declared.line.TreeAnswer.TheVariants as answers;
ghost use Rattle.shm_tree.specs.declared.line.TreeLine.TheVariants as lines;
ghost use Rattle.shm_tree.specs.declared.stop.Stop.TheVariants as stop;

use crate::calls::{hold, release, root_of, share};
use crate::find::number_at;
use crate::ground::Ground;
use crate::hints::Hints;
use crate::insert::insert;
use crate::line::{TreeAnswer, TreeLine};
use crate::remove::{Removed, remove};
use crate::stop::Stop;
use crate::sweeping::{emptied, swept};
use shm_count::Made;
use shm_graph::Life;

/// The root of an empty register.
pub const NONE: u8 = 16;

/// Twelve registers, each with a tree of its own in a root, or empty.
#[derive(Drop)]
pub struct Registers {
    pub pool: Ground,
    /// The root of each register's tree, and 16 where it is empty.
    pub roots: [u8; 12],
    /// Whether all roots beside those of registers are empty.
    pub tidy: bool,
}

/// The block that a root names, or 0; there is none where it is 16.
fn tree_in(pool: &mut Ground, root: u8, life: &mut Life) -> Result<u32, Stop>
    requires working { IsWorking pool.old }
    requires root { root ≤ 16 }
    ensures late { DiesAfter 0 result pool.old pool.new life.old.left }
    ensures looks { Looks result pool.old pool.new life.old.left life.new.left }
    ensures names { IfOk result (λ b. b ≡ block_in pool.old root) }
    ensures reached { IfOk result (λ b. IsReached pool.new b) }
    ensures steps { IfOk result (λ b. life.old.left ≤ life.new.left + 1) }
{
    if root == NONE {
        Ok(0)
    } else {
        root_of(pool, root, life)
    }
}

/// The number at a key of the tree in a root, where it has the key.
fn read(pool: &mut Ground, root: u8, key: u32, life: &mut Life) -> Result<Option<u64>, Stop>
    requires working { IsWorking pool.old }
    requires latch { (memo_of pool.old 0).latch ≡ None }
    requires root { root ≤ 16 }
    requires tree { (t : ATree) × TreeStands pool.old (block_in pool.old root) t }
    ensures went { Went pool.old pool.new life.old.left life.new.left }
    ensures working { IfOk result (λ o. IsWorking pool.new) }
    ensures latch { IfOk result (λ o. IsSameLatch pool.old pool.new) }
    ensures still { IfOk result (λ o. IsStill pool.old pool.new) }
    ensures is { IfOk result (λ o. (t : ATree) → TreeStands pool.old (block_in pool.old root) t → o ≡ found key t) }
    ensures late { (t : ATree) → TreeStands pool.old (block_in pool.old root) t → DiesAfter (read_steps (height t)) result pool.old pool.new life.old.left }
    ensures costs { IfOk result (λ o. (t : ATree) → TreeStands pool.old (block_in pool.old root) t → Costs 0 (read_steps (height t)) pool.old pool.new life.old.left life.new.left) }
    ensures died { IfErr result (λ e. (e ≡ stop.Died) × (life.new.left ≡ 0) × (0 < life.old.left → IsUnderWay pool.new)) }
{
    hold(pool, life)?;
    let tree = tree_in(pool, root, life)?;
    let number = number_at(pool, tree, key, life)?;
    release(pool, life)?;
    Ok(number)
}

/// Gives the latch back behind a call that ended, done or refused, and answers as it. Where that stopped for want of a word step there is none for
/// this either.
fn released<T: Drop>(pool: &mut Ground, answer: Result<T, Stop>, life: &mut Life) -> Result<T, Stop>
    requires working { IfAlive answer (IsWorking pool.old) }
    requires latch { IfAlive answer ((memo_of pool.old 0).latch ≡ Some 0) }
    ensures { Releases answer result pool.old pool.new life.old.left life.new.left }
{
    match answer {
        Ok(done) => {
            release(pool, life)?;
            Ok(done)
        }
        Err(why) => {
            if why.is_over() {
                return Err(why);
            }
            release(pool, life)?;
            Err(why)
        }
    }
}

/// Makes a tree as that of a root, with the number at the key.
fn planted(
    pool: &mut Ground,
    hints: Hints,
    root: u8,
    key: u32,
    number: u64,
    life: &mut Life,
) -> Result<Made, Stop>
    requires working { IsWorking pool.old }
    requires latch { (memo_of pool.old 0).latch ≡ None }
    requires room { 4 ≤ rooms pool.old }
    requires root { root ≤ 16 }
    requires tree { (t : ATree) × IsTree pool.old (block_in pool.old root) t }
    ensures off { IfErr result (λ e. e ≡ stop.Died → 0 < life.old.left → IsUnderWay pool.new) }
    ensures calls { CallLeaves hints KeepsNamed result pool.old pool.new life.old.left life.new.left }
    ensures rooted { IfOk result (λ m. IsRooted m.root m.block pool.old pool.new) }
    ensures some { IfOk result (λ m. m.block ≢ 0) }
    ensures is { IfOk result (λ m. (t : ATree) → IsTree pool.old (block_in pool.old root) t → IsTree pool.new m.block (inserted key number t)) }
    ensures late { (t : ATree) → IsTree pool.old (block_in pool.old root) t → DiesAfter (planted_steps (height t) pool.old.start.geometry) result pool.old pool.new life.old.left }
    ensures costs { IfOk result (λ m. (t : ATree) → IsTree pool.old (block_in pool.old root) t → Costs (height t + 3) (planted_steps (height t) pool.old.start.geometry) pool.old pool.new life.old.left life.new.left) }
    ensures refused { IfRefused result ((t : ATree) → IsTree pool.old (block_in pool.old root) t → Spends (height t + 3) (planted_steps (height t) pool.old.start.geometry) pool.old pool.new life.old.left life.new.left) }
    ensures few { IfOk result (λ m. (t : ATree) → IsTree pool.old (block_in pool.old root) t → MakesFew (height t + 1) pool.old pool.new) }
{
    hold(pool, life)?;
    let tree = tree_in(pool, root, life)?;
    let made = insert(pool, hints, tree, key, number, life);
    released(pool, made, life)
}

/// A further root for the tree of a root.
fn copied(pool: &mut Ground, root: u8, life: &mut Life) -> Result<Made, Stop>
    requires working { IsWorking pool.old }
    requires room { 4 ≤ rooms pool.old }
    requires root { root < 16 }
    requires some { root_block pool.old root ≢ 0 }
    ensures off { IfErr result (λ e. e ≡ stop.Died → IsInCall pool.new ⊎ AreSameRoots pool.old pool.new) }
    ensures calls { CallLeaves Off KeepsNamed result pool.old pool.new life.old.left life.new.left }
    ensures rooted { IfOk result (λ m. IsRooted m.root m.block pool.old pool.new) }
    ensures some { IfOk result (λ m. m.block ≢ 0) }
    ensures is { IfOk result (λ m. (t : ATree) → TreeStands pool.old (root_block pool.old root) t → TreeStands pool.new m.block t) }
    ensures late { DiesAfter (copied_steps pool.old.start.geometry) result pool.old pool.new life.old.left }
    ensures costs { IfOk result (λ m. Costs 0 (copied_steps pool.old.start.geometry) pool.old pool.new life.old.left life.new.left) }
    ensures refused { IfRefused result (Spends 0 (copied_steps pool.old.start.geometry) pool.old pool.new life.old.left life.new.left) }
{
    let tree = root_of(pool, root, life)?;
    share(pool, tree, life)
}

/// Makes a tree as that of a root, without the key; none where it has no such key.
fn pruned(
    pool: &mut Ground,
    hints: Hints,
    root: u8,
    key: u32,
    life: &mut Life,
) -> Result<Option<Removed>, Stop>
    requires working { IsWorking pool.old }
    requires latch { (memo_of pool.old 0).latch ≡ None }
    requires room { 4 ≤ rooms pool.old }
    requires root { root ≤ 16 }
    requires tree { (t : ATree) × IsTree pool.old (block_in pool.old root) t }
    ensures off { IfErr result (λ e. e ≡ stop.Died → 0 < life.old.left → IsUnderWay pool.new) }
    ensures calls { CallLeaves hints KeepsNamed result pool.old pool.new life.old.left life.new.left }
    ensures pruned { IfOk result (λ o. IsPruned key root o pool.old pool.new) }
    ensures late { (t : ATree) → IsTree pool.old (block_in pool.old root) t → DiesAfter (pruned_steps (height t) pool.old.start.geometry) result pool.old pool.new life.old.left }
    ensures costs { IfOk result (λ o. (t : ATree) → IsTree pool.old (block_in pool.old root) t → Costs (3 * height t) (pruned_steps (height t) pool.old.start.geometry) pool.old pool.new life.old.left life.new.left) }
    ensures refused { IfRefused result ((t : ATree) → IsTree pool.old (block_in pool.old root) t → Spends (3 * height t) (pruned_steps (height t) pool.old.start.geometry) pool.old pool.new life.old.left life.new.left) }
{
    hold(pool, life)?;
    let tree = tree_in(pool, root, life)?;
    let removed = remove(pool, hints, tree, key, life);
    released(pool, removed, life)
}

impl Registers {
    /// Sees that all roots beside those of registers are empty.
    ///
    /// # Errors
    ///
    /// As a drop was refused.
    pub fn sweep(&mut self, life: &mut Life) -> Result<(), Stop>
        requires forest { IsForest self.old }
        ensures idle { self.old.tidy ≡ true → (is_ok result ≡ true) × (self.new ≡ self.old) × (life.new.left ≡ life.old.left) }
        ensures moves { Moves Off result self.old self.new life.old.left life.new.left }
        ensures same { IfOk result (λ u. KeepsRegisters self.old self.new) }
        ensures roots { self.new.roots ≡ self.old.roots }
        ensures tidy { IfOk result (λ u. IsTidy self.new) }
        ensures late { DiesAfter (sweep_steps self.old.pool.start.geometry) result self.old.pool self.new.pool life.old.left }
        ensures costs { IfOk result (λ u. Costs 0 (sweep_steps self.old.pool.start.geometry) self.old.pool self.new.pool life.old.left life.new.left) }
        ensures told { IfOk result (λ u. self.new.tidy ≡ true) }
        ensures refused { IfRefused result (Spends 0 (sweep_steps self.old.pool.start.geometry) self.old.pool self.new.pool life.old.left life.new.left) }
        ensures spent { IfRefused result (IsSpent (memo_of self.new.pool 0)) }
    {
        if self.tidy {
            return Ok(());
        }
        swept(&mut self.pool, self.roots, life)?;
        self.tidy = true;
        Ok(())
    }

    /// Gives a register another root, or none, and drops the one that it had.
    ///
    /// # Errors
    ///
    /// As the drop was refused.
    fn replace(&mut self, at: u8, root: u8, life: &mut Life) -> Result<(), Stop>
        requires forest { IsForest self.old }
        requires at { at < 12 }
        requires root { IsSpare self.old root }
        requires tree { (t : ATree) × IsTree self.old.pool (block_in self.old.pool root) t }
        ensures begun { IfErr result (λ e. DiedBegun e self.old.pool self.new.pool life.old.left) }
        ensures kept { IfErr result (λ e. self.new.roots ≡ self.old.roots) }
        ensures idle { root_at self.old at ≡ 16 → is_ok result ≡ true }
        ensures moves { Moves Off result self.old self.new life.old.left life.new.left }
        ensures put { IfOk result (λ u. IsPut at root self.old self.new) }
        ensures late { DiesAfter (drop_steps self.old.pool.start.geometry 0) result self.old.pool self.new.pool life.old.left }
        ensures costs { IfOk result (λ u. Costs 0 (drop_steps self.old.pool.start.geometry 0) self.old.pool self.new.pool life.old.left life.new.left) }
        ensures left { IfOk result (λ u. (k : ℕ) → k < 16 → IsFree self.new.roots k → (k ≢ root) × IsLeft self.old self.new k) }
        ensures told { self.new.tidy ≡ self.old.tidy }
        ensures refused { IfRefused result (Spends 0 (drop_steps self.old.pool.start.geometry 0) self.old.pool self.new.pool life.old.left life.new.left) }
    {
        let old = self.roots[at as usize];
        emptied(&mut self.pool, old, life)?;
        self.roots[at as usize] = root;
        Ok(())
    }

    /// Gives a register a root beside which no other is to be emptied.
    ///
    /// # Errors
    ///
    /// As the drop of the one that it had was refused.
    fn put(&mut self, at: u8, root: u8, life: &mut Life) -> Result<(), Stop>
        requires forest { IsForest self.old }
        requires at { at < 12 }
        requires root { IsSpare self.old root }
        requires tree { (t : ATree) × IsTree self.old.pool (block_in self.old.pool root) t }
        requires alone { (k : ℕ) → k < 16 → k ≢ root → IsFree self.old.roots k → root_block self.old.pool k ≡ 0 }
        ensures begun { IfErr result (λ e. DiedBegun e self.old.pool self.new.pool life.old.left) }
        ensures kept { IfErr result (λ e. self.new.roots ≡ self.old.roots) }
        ensures moves { Moves Off result self.old self.new life.old.left life.new.left }
        ensures put { IfOk result (λ u. IsPut at root self.old self.new) }
        ensures late { DiesAfter (drop_steps self.old.pool.start.geometry 0) result self.old.pool self.new.pool life.old.left }
        ensures costs { IfOk result (λ u. Costs 0 (drop_steps self.old.pool.start.geometry 0) self.old.pool self.new.pool life.old.left life.new.left) }
        ensures told { IfOk result (λ u. self.new.tidy ≡ true) }
        ensures refused { IfRefused result (Spends 0 (drop_steps self.old.pool.start.geometry 0) self.old.pool self.new.pool life.old.left life.new.left) }
    {
        self.replace(at, root, life)?;
        self.tidy = true;
        Ok(())
    }

    /// The number at a key of a register's version, where it has the key.
    pub fn get(&mut self, at: u8, key: u32, life: &mut Life) -> Result<Option<u64>, Stop>
        requires forest { IsForest self.old }
        requires at { at < 12 }
        ensures off { DiesHalfDone (lines.Get at key) result self.old self.new life.old.left }
        ensures moves { Moves Off result self.old self.new life.old.left life.new.left }
        ensures died { IfErr result (λ e. e ≡ stop.Died) }
        ensures is { IfOk result (λ o. (ts : List ATree) → HasVersions self.old ts → (o ≡ found key (version ts at)) × HasVersions self.new ts) }
        ensures same { IfOk result (λ o. KeepsRegisters self.old self.new) }
        ensures late { DiesLine (lines.Get at key) result self.old self.new life.old.left }
        ensures costs { IfOk result (λ o. (ts : List ATree) → HasVersions self.old ts → Costs 0 (read_steps (height (version ts at))) self.old.pool self.new.pool life.old.left life.new.left) }
        ensures told { self.new.tidy ≡ self.old.tidy }
    {
        read(&mut self.pool, self.roots[at as usize], key, life)
    }

    /// A register gets the version of another one with the number at the key.
    pub fn set(
        &mut self,
        hints: Hints,
        to: u8,
        from: u8,
        key: u32,
        number: u64,
        life: &mut Life,
    ) -> Result<(), Stop>
        requires forest { IsForest self.old }
        requires to { to < 12 }
        requires from { from < 12 }
        ensures off { DiesHalfDone (lines.Set to from key number) result self.old self.new life.old.left }
        ensures moves { Moves hints result self.old self.new life.old.left life.new.left }
        ensures done { IfOk result (λ u. (ts : List ATree) → HasVersions self.old ts → HasVersions self.new (slice_set ts to (inserted key number (version ts from)))) }
        ensures late { DiesLine (lines.Set to from key number) result self.old self.new life.old.left }
        ensures costs { IfOk result (λ u. (ts : List ATree) → HasVersions self.old ts → Costs (height (version ts from) + 3) (set_steps (height (version ts from)) self.old.pool.start.geometry) self.old.pool self.new.pool life.old.left life.new.left) }
        ensures few { IfOk result (λ u. (ts : List ATree) → HasVersions self.old ts → MakesFew (height (version ts from) + 1) self.old.pool self.new.pool) }
        ensures told { IfOk result (λ u. self.new.tidy ≡ true) }
        ensures refused { IfRefused result ((ts : List ATree) → HasVersions self.old ts → Spends (height (version ts from) + 3) (set_steps (height (version ts from)) self.old.pool.start.geometry) self.old.pool self.new.pool life.old.left life.new.left) }
    {
        self.sweep(life)?;
        self.tidy = false;
        let made = planted(
            &mut self.pool,
            hints,
            self.roots[from as usize],
            key,
            number,
            life,
        )?;
        self.put(to, made.root, life)
    }

    /// A register gets the version of another one.
    pub fn copy(&mut self, to: u8, from: u8, life: &mut Life) -> Result<(), Stop>
        requires forest { IsForest self.old }
        requires to { to < 12 }
        requires from { from < 12 }
        ensures off { DiesHalfDone (lines.Copy to from) result self.old self.new life.old.left }
        ensures idle { self.old.tidy ≡ true → root_at self.old to ≡ 16 → root_at self.old from ≡ 16 → is_ok result ≡ true }
        ensures moves { Moves Off result self.old self.new life.old.left life.new.left }
        ensures done { IfOk result (λ u. (ts : List ATree) → HasVersions self.old ts → HasVersions self.new (slice_set ts to (version ts from))) }
        ensures late { DiesLine (lines.Copy to from) result self.old self.new life.old.left }
        ensures costs { IfOk result (λ u. Costs 0 (copy_steps self.old.pool.start.geometry) self.old.pool self.new.pool life.old.left life.new.left) }
        ensures told { IfOk result (λ u. self.new.tidy ≡ true) }
        ensures refused { IfRefused result (Spends 0 (copy_steps self.old.pool.start.geometry) self.old.pool self.new.pool life.old.left life.new.left) }
    {
        self.sweep(life)?;
        let root = self.roots[from as usize];
        if root == NONE {
            return self.replace(to, NONE, life);
        }
        self.tidy = false;
        let made = copied(&mut self.pool, root, life)?;
        self.put(to, made.root, life)
    }

    /// A register is empty.
    pub fn clear(&mut self, at: u8, life: &mut Life) -> Result<(), Stop>
        requires forest { IsForest self.old }
        requires at { at < 12 }
        ensures off { DiesHalfDone (lines.Clear at) result self.old self.new life.old.left }
        ensures idle { root_at self.old at ≡ 16 → is_ok result ≡ true }
        ensures moves { Moves Off result self.old self.new life.old.left life.new.left }
        ensures done { IfOk result (λ u. (ts : List ATree) → HasVersions self.old ts → HasVersions self.new (slice_set ts at Empty)) }
        ensures late { DiesLine (lines.Clear at) result self.old self.new life.old.left }
        ensures costs { IfOk result (λ u. Costs 0 (drop_steps self.old.pool.start.geometry 0) self.old.pool self.new.pool life.old.left life.new.left) }
        ensures told { self.new.tidy ≡ self.old.tidy }
        ensures refused { IfRefused result (Spends 0 (drop_steps self.old.pool.start.geometry 0) self.old.pool self.new.pool life.old.left life.new.left) }
    {
        self.replace(at, NONE, life)
    }

    /// A register gets the version of another one without the key; false where that one has no such key.
    pub fn del(
        &mut self,
        hints: Hints,
        to: u8,
        from: u8,
        key: u32,
        life: &mut Life,
    ) -> Result<bool, Stop>
        requires forest { IsForest self.old }
        requires to { to < 12 }
        requires from { from < 12 }
        ensures off { DiesHalfDone (lines.Del to from key) result self.old self.new life.old.left }
        ensures moves { Moves hints result self.old self.new life.old.left life.new.left }
        ensures missing { result ≡ Ok false → (ts : List ATree) → HasVersions self.old ts → (found key (version ts from) ≡ None) × HasVersions self.new ts }
        ensures absent { result ≡ Ok false → KeepsRegisters self.old self.new }
        ensures done { result ≡ Ok true → (ts : List ATree) → HasVersions self.old ts → (is_some (found key (version ts from)) ≡ true) × HasVersions self.new (slice_set ts to (removed key (version ts from))) }
        ensures late { DiesLine (lines.Del to from key) result self.old self.new life.old.left }
        ensures costs { IfOk result (λ b. (ts : List ATree) → HasVersions self.old ts → Costs (3 * height (version ts from)) (del_steps (height (version ts from)) self.old.pool.start.geometry) self.old.pool self.new.pool life.old.left life.new.left) }
        ensures told { IfOk result (λ b. self.new.tidy ≡ true) }
        ensures refused { IfRefused result ((ts : List ATree) → HasVersions self.old ts → Spends (3 * height (version ts from)) (del_steps (height (version ts from)) self.old.pool.start.geometry) self.old.pool self.new.pool life.old.left life.new.left) }
    {
        self.sweep(life)?;
        self.tidy = false;
        match pruned(&mut self.pool, hints, self.roots[from as usize], key, life)? {
            None => {
                self.tidy = true;
                Ok(false)
            }
            Some(Removed { tree: None }) => {
                self.tidy = true;
                self.replace(to, NONE, life)?;
                Ok(true)
            }
            Some(Removed { tree: Some(made) }) => {
                self.put(to, made.root, life)?;
                Ok(true)
            }
        }
    }

    /// Runs a line.
    pub fn answer(
        &mut self,
        hints: Hints,
        line: &TreeLine,
        life: &mut Life,
    ) -> Result<TreeAnswer, Stop>
        requires forest { IsForest self.old }
        requires line { IsInRange line.now }
        ensures off { DiesHalfDone line.now result self.old self.new life.old.left }
        ensures idle { self.old.tidy ≡ true → (ts : List ATree) → HasVersions self.old ts → IsWordless line.now ts → is_ok result ≡ true }
        ensures moves { Moves hints result self.old self.new life.old.left life.new.left }
        ensures does { IfOk result (λ a. DoesLine line.now self.old self.new a) }
        ensures late { DiesLine line.now result self.old self.new life.old.left }
        ensures costs { IfOk result (λ a. CostsLine line.now self.old self.new life.old.left life.new.left) }
        ensures few { IfOk result (λ a. FewSet line.now self.old self.new) }
        ensures reading { IfErr result (λ e. IsReading line.now → e ≡ stop.Died) }
        ensures own { IfOk result (λ a. IsOwn a) }
        ensures same { IfOk result (λ a. a ≢ answers.Ok → KeepsRegisters self.old self.new) }
        ensures told { IfOk result (λ a. self.old.tidy ≡ true → self.new.tidy ≡ true) }
        ensures refused { IfRefused result (StopsLine line.now self.old self.new life.old.left life.new.left) }
    {
        match *line {
            TreeLine::Set {
                to,
                from,
                key,
                number,
            } => {
                self.set(hints, to, from, key, number, life)?;
                Ok(TreeAnswer::Ok)
            }
            TreeLine::Del { to, from, key } => {
                let was = self.del(hints, to, from, key, life)?;
                if was {
                    Ok(TreeAnswer::Ok)
                } else {
                    Ok(TreeAnswer::Missing)
                }
            }
            TreeLine::Get { at, key } => {
                let number = self.get(at, key, life)?;
                match number {
                    None => Ok(TreeAnswer::Missing),
                    Some(number) => Ok(TreeAnswer::Value { number }),
                }
            }
            TreeLine::Copy { to, from } => {
                self.copy(to, from, life)?;
                Ok(TreeAnswer::Ok)
            }
            TreeLine::Clear { at } => {
                self.clear(at, life)?;
                Ok(TreeAnswer::Ok)
            }
        }
    }

    /// Why a line stopped that stopped so, once all roots beside those of registers are empty again, unless that stopped.
    fn undone(&mut self, why: Stop, life: &mut Life) -> Stop
        requires forest { IsForest self.old }
        requires alive { why ≢ stop.Died }
        ensures went { Went self.old.pool self.new.pool life.old.left life.new.left }
        ensures kept { result ≢ stop.Died → IsForest self.new × KeepsRegisters self.old self.new }
        ensures why { (result ≡ why) ⊎ CallStopped Off self.old.pool self.new.pool result }
        ensures died { IsOver result life.new.left }
        ensures late { result ≡ stop.Died → HasDied (sweep_steps self.old.pool.start.geometry) self.old.pool self.new.pool life.old.left }
        ensures spends { result ≢ stop.Died → Spends 0 (sweep_steps self.old.pool.start.geometry) self.old.pool self.new.pool life.old.left life.new.left }
        ensures swept { result ≢ stop.Died → IsSwept self.new }
    {
        match self.sweep(life) {
            Ok(()) => why,
            Err(other) => other,
        }
    }

    /// Runs a line. Where it is refused all roots beside those of registers are empty again, unless that is refused too.
    pub fn run(
        &mut self,
        hints: Hints,
        line: &TreeLine,
        life: &mut Life,
    ) -> Result<TreeAnswer, Stop>
        requires forest { IsForest self.old }
        requires line { IsInRange line.now }
        ensures off { IfErr result (λ e. e ≡ stop.Died → self.old.tidy ≡ true → 0 < life.old.left → IsUnspent self.new → IsCutShort hints line.now self.old self.new) }
        ensures idle { self.old.tidy ≡ true → (ts : List ATree) → HasVersions self.old ts → IsWordless line.now ts → is_ok result ≡ true }
        ensures moves { Moves hints result self.old self.new life.old.left life.new.left }
        ensures does { IfOk result (λ a. DoesLine line.now self.old self.new a) }
        ensures late { DiesEnding line.now result self.old self.new life.old.left }
        ensures costs { IfOk result (λ a. CostsLine line.now self.old self.new life.old.left life.new.left) }
        ensures few { IfOk result (λ a. FewSet line.now self.old self.new) }
        ensures reading { IfErr result (λ e. IsReading line.now → e ≡ stop.Died) }
        ensures own { IfOk result (λ a. IsOwn a) }
        ensures same { IfOk result (λ a. a ≢ answers.Ok → KeepsRegisters self.old self.new) }
        ensures swept { IfAlive result (IsSwept self.old → IsSwept self.new) }
        ensures refused { IfRefused result (EndsLine line.now self.old self.new life.old.left life.new.left) }
    {
        match self.answer(hints, line, life) {
            Ok(answer) => Ok(answer),
            Err(why) => {
                if why.is_over() {
                    return Err(why);
                }
                Err(self.undone(why, life))
            }
        }
    }
}
