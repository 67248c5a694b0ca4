//! The calls of the one client of a forest's pool.

ghost use Rattle.std.specs.Prelude.{◌≡◌, ◌≢◌, ℕ, ◌+◌, ◌<◌, ◌≤◌, ◌⊎◌, [], None, Some, IfErr, IfOk};
ghost use Rattle.shm_graph.specs.declared.spot.Spot.TheVariants.{Body};
ghost use Rattle.shm_plain.specs.{Calls.Did, Pools.memo_of};
ghost use Rattle.shm_count.specs.Roots.{root_word};
ghost use Rattle.shm_tree.specs.{Bounds.{drop_steps, make_steps, refer_steps, share_steps}, Causes.StopCause};
ghost use Rattle.shm_tree.specs.{Changing.Changes, Falling.IsUnnamed};
ghost use Rattle.shm_tree.specs.Keeping.{HasNode, HasTree, IsDropped, IsMade, IsReferring, IsShared, IsStill, child_of};
ghost use Rattle.shm_tree.specs.{Looking.Looks, Spending.DiesAfter, Standing.{TreeStands, word_of}, Tearing.HasTorn};
ghost use Rattle.shm_tree.specs.Trees.{Tree as ATree, height as height_of};
ghost use Rattle.shm_tree.specs.Working.{AreSameRoots, DiedBegun, DiedIn, HasRoom, IfAlive, IfRefused, IsCutOff, IsEmptied, IsInCall, IsReached, IsSameLatch, IsSpent, IsWorking, Reaches, Went};
ghost use Rattle.shm_tree.specs.declared.hints.Hints.TheVariants.{Off};
ghost use Rattle.shm_tree.specs.declared.stop.Stop.TheVariants as stop;

use crate::ground::{Ground, allocate};
use crate::hints::Hints;
use crate::node::{Content, Side};
use crate::stop::Stop;
use shm_alloc::AllocFault;
use shm_count::Made;
use shm_graph::Life;
use shm_ref::{DropRoot, Hold, Look, Read, Release, RootOf, SetFault, SetRef, Share, ShareFault};

/// Takes the own latch, under which the words of nodes are looked at and set.
pub fn hold(pool: &mut Ground, life: &mut Life) -> Result<(), Stop>
    requires working { IsWorking pool.old }
    requires latch { (memo_of pool.old 0).latch ≡ None }
    ensures went { Went pool.old pool.new life.old.left life.new.left }
    ensures working { IfOk result (λ u. IsWorking pool.new) }
    ensures latch { IfOk result (λ u. (memo_of pool.new 0).latch ≡ Some 0) }
    ensures still { IfOk result (λ u. IsStill pool.old pool.new) }
    ensures reaches { IfOk result (λ u. Reaches pool.old pool.new) }
    ensures steps { IfOk result (λ u. life.old.left ≡ life.new.left + 2) }
    ensures died { IfErr result (λ e. (e ≡ stop.Died) × (life.new.left ≡ 0) × (0 < life.old.left → IsInCall pool.new)) }
    ensures late { DiesAfter 0 result pool.old pool.new life.old.left }
{
    let holding = Hold::new(pool.me(0), 0);
    match pool.run(0, holding, life) {
        None => Err(Stop::Died),
        Some(Ok(())) => Ok(()),
        Some(Err(_)) => unreachable!(),
    }
}

/// Gives the own latch back. Of what was in reach only what roots name is so still.
pub fn release(pool: &mut Ground, life: &mut Life) -> Result<(), Stop>
    requires working { IsWorking pool.old }
    requires latch { (memo_of pool.old 0).latch ≡ Some 0 }
    ensures went { Went pool.old pool.new life.old.left life.new.left }
    ensures working { IfOk result (λ u. IsWorking pool.new) }
    ensures latch { IfOk result (λ u. (memo_of pool.new 0).latch ≡ None) }
    ensures still { IfOk result (λ u. IsStill pool.old pool.new) }
    ensures steps { IfOk result (λ u. life.old.left ≡ life.new.left + 3) }
    ensures died { IfErr result (λ e. (e ≡ stop.Died) × (life.new.left ≡ 0) × IsCutOff pool.old pool.new) }
    ensures late { DiesAfter 0 result pool.old pool.new life.old.left }
{
    let releasing = Release::new(pool.me(0));
    match pool.run(0, releasing, life) {
        None => Err(Stop::Died),
        Some(()) => Ok(()),
    }
}

/// What a root names, or 0.
pub fn root_of(pool: &mut Ground, root: u8, life: &mut Life) -> Result<u32, Stop>
    requires working { IsWorking pool.old }
    requires root { root < 16 }
    ensures looks { Looks result pool.old pool.new life.old.left life.new.left }
    ensures late { DiesAfter 0 result pool.old pool.new life.old.left }
    ensures names { IfOk result (λ b. b ≡ root_word 0 (memo_of pool.old 0) root) }
    ensures reached { IfOk result (λ b. IsReached pool.new b) }
    ensures steps { IfOk result (λ b. life.old.left ≡ life.new.left + 1) }
    ensures quiet { IfOk result (λ b. Did 0 pool.old pool.new []) }
    ensures begun { IfErr result (λ e. IsInCall pool.new ⊎ AreSameRoots pool.old pool.new) }
{
    let naming = RootOf::new(pool.me(0), root);
    match pool.run(0, naming, life) {
        None => Err(Stop::Died),
        Some(tree) => Ok(tree),
    }
}

/// The child of a node on a side, or 0.
pub fn child(pool: &mut Ground, node: u32, side: Side, life: &mut Life) -> Result<u32, Stop>
    requires working { IsWorking pool.old }
    requires latch { (memo_of pool.old 0).latch ≡ Some 0 }
    requires node { HasNode pool.old node }
    requires reached { IsReached pool.old node }
    ensures looks { Looks result pool.old pool.new life.old.left life.new.left }
    ensures late { DiesAfter 0 result pool.old pool.new life.old.left }
    ensures names { IfOk result (λ b. b ≡ child_of pool.old node side) }
    ensures reached { IfOk result (λ b. IsReached pool.new b) }
    ensures steps { IfOk result (λ b. life.old.left ≡ life.new.left + 3) }
{
    let looking = Look::new(pool.me(0), node, side.word());
    match pool.run(0, looking, life) {
        None => Err(Stop::Died),
        Some(Ok(child)) => Ok(child),
        Some(Err(_)) => unreachable!(),
    }
}

/// Plain word `index` of a node, which has three.
fn plain(pool: &mut Ground, node: u32, index: u8, life: &mut Life) -> Result<u64, Stop>
    requires working { IsWorking pool.old }
    requires node { HasNode pool.old node }
    requires reached { IsReached pool.old node }
    requires index { index < 3 }
    ensures looks { Looks result pool.old pool.new life.old.left life.new.left }
    ensures late { DiesAfter 0 result pool.old pool.new life.old.left }
    ensures is { IfOk result (λ x. x ≡ word_of pool.old (Body node (2 + index))) }
    ensures steps { IfOk result (λ x. life.old.left ≡ life.new.left + 2) }
{
    let reading = Read::new(pool.me(0), node, index);
    match pool.run(0, reading, life) {
        None => Err(Stop::Died),
        Some(Ok(word)) => Ok(word),
        Some(Err(_)) => unreachable!(),
    }
}

/// The key of a node.
pub fn key(pool: &mut Ground, node: u32, life: &mut Life) -> Result<u64, Stop>
    requires working { IsWorking pool.old }
    requires node { HasNode pool.old node }
    requires reached { IsReached pool.old node }
    ensures looks { Looks result pool.old pool.new life.old.left life.new.left }
    ensures late { DiesAfter 0 result pool.old pool.new life.old.left }
    ensures is { IfOk result (λ k. k ≡ word_of pool.old (Body node 2)) }
    ensures steps { IfOk result (λ k. life.old.left ≡ life.new.left + 2) }
{
    plain(pool, node, 0, life)
}

/// The number of a node.
pub fn number(pool: &mut Ground, node: u32, life: &mut Life) -> Result<u64, Stop>
    requires working { IsWorking pool.old }
    requires node { HasNode pool.old node }
    requires reached { IsReached pool.old node }
    ensures looks { Looks result pool.old pool.new life.old.left life.new.left }
    ensures late { DiesAfter 0 result pool.old pool.new life.old.left }
    ensures is { IfOk result (λ n. n ≡ word_of pool.old (Body node 3)) }
    ensures steps { IfOk result (λ n. life.old.left ≡ life.new.left + 2) }
{
    plain(pool, node, 1, life)
}

/// The height of a tree, of which 0 is the empty one.
pub fn height(pool: &mut Ground, tree: u32, life: &mut Life) -> Result<u64, Stop>
    requires working { IsWorking pool.old }
    requires tree { HasTree pool.old tree }
    requires reached { IsReached pool.old tree }
    ensures looks { Looks result pool.old pool.new life.old.left life.new.left }
    ensures late { DiesAfter 0 result pool.old pool.new life.old.left }
    ensures is { IfOk result (λ h. (t : ATree) → TreeStands pool.old tree t → h ≡ height_of t) }
    ensures steps { IfOk result (λ h. life.old.left ≤ life.new.left + 2) }
{
    if tree == 0 {
        Ok(0)
    } else {
        plain(pool, tree, 2, life)
    }
}

/// Makes a node of this height, in an empty root; it has no children yet.
///
/// # Errors
///
/// `Full` or `EraSpent` as the allocation was refused; nothing was done then.
pub fn make(
    pool: &mut Ground,
    hints: Hints,
    content: Content,
    height: u64,
    life: &mut Life,
) -> Result<Made, Stop>
    requires working { IsWorking pool.old }
    requires room { HasRoom pool.old }
    ensures changes { Changes hints (make_steps pool.old.start.geometry) IsStill result pool.old pool.new life.old.left life.new.left }
    ensures made { IfOk result (λ m. IsMade content height m pool.old pool.new) }
    ensures unnamed { IfOk result (λ m. IsUnnamed pool.new m.block) }
{
    match allocate(pool, hints, &[content.key, content.number, height], life) {
        Ok(None) => Err(Stop::Died),
        Ok(Some(Ok(made))) => Ok(made),
        Ok(Some(Err(AllocFault::Full { segments, blocks }))) => {
            Err(Stop::Full { segments, blocks })
        }
        Ok(Some(Err(AllocFault::EraSpent { era }))) => Err(Stop::EraSpent { era }),
        Ok(Some(Err(AllocFault::RootsFull))) => unreachable!(),
        Err(_) => unreachable!(),
    }
}

/// Has a node that a root names, and no other node, refer to a child on a side on which it has none.
///
/// # Errors
///
/// `CountFull` or `EraSpent` as the count step was refused; nothing was done then.
pub fn refer(
    pool: &mut Ground,
    node: u32,
    side: Side,
    child: u32,
    life: &mut Life,
) -> Result<(), Stop>
    requires working { IsWorking pool.old }
    requires latch { (memo_of pool.old 0).latch ≡ Some 0 }
    requires node { HasNode pool.old node }
    requires named { (k : ℕ) × (k < 16) × (root_word 0 (memo_of pool.old 0) k ≡ node) }
    requires empty { child_of pool.old node side ≡ 0 }
    requires unnamed { IsUnnamed pool.old node }
    requires reached { IsReached pool.old child }
    requires other { child ≢ node }
    ensures changes { Changes Off (refer_steps pool.old.start.geometry) IsStill result pool.old pool.new life.old.left life.new.left }
    ensures refers { IfOk result (λ u. IsReferring node side child pool.old pool.new) }
    ensures unnamed { IfOk result (λ u. IsUnnamed pool.new node) }
{
    let setting = SetRef::new(pool.me(0), node, side.word(), child);
    match pool.run(0, setting, life) {
        None => Err(Stop::Died),
        Some(Ok(())) => Ok(()),
        Some(Err(SetFault::EraSpent { era })) => Err(Stop::EraSpent { era }),
        Some(Err(SetFault::CountFull { block, count })) => Err(Stop::CountFull { block, count }),
        Some(Err(SetFault::NotAuthor { .. })) => unreachable!(),
        Some(Err(SetFault::NoSuchRef { .. })) => unreachable!(),
        Some(Err(SetFault::NotHeld)) => unreachable!(),
    }
}

/// Has a further root, which was empty, name a tree.
///
/// # Errors
///
/// `CountFull` or `EraSpent` as the count step was refused; nothing was done then.
pub fn share(pool: &mut Ground, tree: u32, life: &mut Life) -> Result<Made, Stop>
    requires working { IsWorking pool.old }
    requires room { HasRoom pool.old }
    requires some { tree ≢ 0 }
    requires reached { IsReached pool.old tree }
    ensures changes { Changes Off (share_steps pool.old.start.geometry) IsStill result pool.old pool.new life.old.left life.new.left }
    ensures block { IfOk result (λ m. m.block ≡ tree) }
    ensures shared { IfOk result (λ m. IsShared m.root tree pool.old pool.new) }
    ensures begun { IfErr result (λ e. e ≡ stop.Died → IsInCall pool.new ⊎ AreSameRoots pool.old pool.new) }
{
    let sharing = Share::new(pool.me(0), tree);
    match pool.run(0, sharing, life) {
        None => Err(Stop::Died),
        Some(Ok(root)) => Ok(Made { root, block: tree }),
        Some(Err(ShareFault::EraSpent { era })) => Err(Stop::EraSpent { era }),
        Some(Err(ShareFault::CountFull { block, count })) => Err(Stop::CountFull { block, count }),
        Some(Err(ShareFault::RootsFull)) => unreachable!(),
    }
}

/// Makes a root empty, and frees what only it named. Of what was in reach only what roots name is so still.
///
/// # Errors
///
/// `EraSpent` where the own era is spent and the root names its tree still; nothing was done then. Where it is spent in what follows the drop
/// is done, and nodes that could not be freed are left.
pub fn drop_root(pool: &mut Ground, root: u8, life: &mut Life) -> Result<(), Stop>
    requires working { IsWorking pool.old }
    requires root { root < 16 }
    ensures went { Went pool.old pool.new life.old.left life.new.left }
    ensures working { IfAlive result (IsWorking pool.new) }
    ensures latch { IfAlive result (IsSameLatch pool.old pool.new) }
    ensures emptied { IfOk result (λ u. IsEmptied root pool.old pool.new) }
    ensures dropped { IfOk result (λ u. IsDropped root pool.old pool.new) }
    ensures still { IfRefused result (IsStill pool.old pool.new) }
    ensures reaches { IfRefused result (Reaches pool.old pool.new) }
    ensures steps { IfOk result (λ u. (n : ℕ) × HasTorn root n pool.old pool.new × (life.old.left ≤ life.new.left + drop_steps pool.old.start.geometry n)) }
    ensures refused_steps { IfRefused result (life.old.left ≤ life.new.left + drop_steps pool.old.start.geometry 0) }
    ensures spent { IfRefused result (IsSpent (memo_of pool.new 0)) }
    ensures cause { IfErr result (λ e. StopCause Off pool.old pool.new e) }
    ensures died { IfErr result (λ e. DiedIn e pool.old pool.new life.new.left) }
    ensures late { DiesAfter (drop_steps pool.old.start.geometry 0) result pool.old pool.new life.old.left }
    ensures begun { IfErr result (λ e. DiedBegun e pool.old pool.new life.old.left) }
{
    let dropping = DropRoot::new(pool.me(0), root);
    match pool.run(0, dropping, life) {
        None => Err(Stop::Died),
        Some(Ok(_)) => Ok(()),
        Some(Err(spent)) => {
            let tree = root_of(pool, root, life)?;
            if tree == 0 {
                Ok(())
            } else {
                Err(Stop::EraSpent { era: spent.era })
            }
        }
    }
}
