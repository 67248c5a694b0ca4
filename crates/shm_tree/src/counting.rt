//! How much a forest holds, as the words of its pool say.

ghost use Rattle.std.specs.Prelude.{◌≡◌, ◌+◌, ◌*◌, ◌<◌, ◌≤◌};
ghost use Rattle.shm_words.specs.Layout.{bodies, total_of};
ghost use Rattle.shm_graph.specs.{References.live_count, Spots.{block_spot, classes_in, see, spot_at}};
ghost use Rattle.shm_plain.specs.Pools.{IsRun};
ghost use Rattle.shm_tree.specs.{Building.root_block, Holding.{HasSearch, lives_below}, Forests.block_in};
ghost use Rattle.shm_tree.specs.{Keeping.is_live, Standing.TreeStands, Trees.{Tree as ATree, size}};

use crate::registers::NONE;
use shm_plain::PlainPool;
use shm_words::Header;

/// What a root names: a block, or 0.
fn root_block(pool: &PlainPool, root: u8) -> u64
    requires one { pool.now.start.geometry.clients ≡ 1 }
    requires root { root < 16 }
    ensures { result ≡ root_block pool.now root }
{
    pool.word(pool.geometry().root(0, root))
}

/// The block that a root names, or 0; there is none where it is 16.
pub fn block_in(pool: &PlainPool, root: u8) -> u64
    requires one { pool.now.start.geometry.clients ≡ 1 }
    requires root { root ≤ 16 }
    ensures { result ≡ block_in pool.now root }
{
    if root == NONE {
        0
    } else {
        root_block(pool, root)
    }
}

/// How many keys the search tree at a block has, which is empty at 0.
#[cycle(size_of)]
pub fn size_of(pool: &PlainPool, tree: u64) -> u32
    requires run { IsRun pool.now }
    requires tree { HasSearch pool.now tree }
    ensures { (t : ATree) → TreeStands pool.now tree t → result ≡ size t }
{
    if tree == 0 {
        return 0;
    }
    let at = tree as u32 + 2;
    let left = size_of(pool, pool.word(at));
    let right = size_of(pool, pool.word(at + 1));
    1 + left + right
}

/// Whether a live block begins at an address, which is this word of its page, by the class of the page.
fn is_live_at(pool: &PlainPool, class: u64, at: u32, index: u32) -> bool
    requires at { at < total_of pool.now.start.geometry }
    requires spot { spot_at pool.now.start.geometry (classes_in pool.now.start.geometry pool.now.words) at ≡ block_spot class at index }
    ensures { result ≡ is_live pool.now at }
{
    if class == 0 {
        return false;
    }
    if u64::from(index) % class == 0 {
        Header::unpack(pool.word(at)).live
    } else {
        false
    }
}

/// How many blocks are live before a page's end, where so many are before its beginning.
fn live_to(pool: &PlainPool, page: u32, before: u32) -> u32
    requires run { IsRun pool.now }
    requires page { page < 16 * pool.now.start.geometry.segments }
    requires before { before ≡ lives_below pool.now (bodies pool.now.start.geometry + 128 * page) }
    ensures { result ≡ lives_below pool.now (bodies pool.now.start.geometry + 128 * (page + 1)) }
{
    let geometry = pool.geometry();
    let class = pool.word(geometry.page(0, 0) + page);
    let first = geometry.body(0, 0) + 128 * page;
    let mut live = before;
    for index in 0..128u32 {
        live += u32::from(is_live_at(pool, class, first + index, index));
    }
    live
}

/// How many blocks of a pool are live.
pub fn live_blocks(pool: &PlainPool) -> u32
    ensures { result ≡ live_count pool.now.start.geometry (see pool.now.start.geometry pool.now.words) }
{
    let geometry = pool.geometry();
    let mut live = 0;
    for page in 0..16 * u32::from(geometry.segments()) {
        live = live_to(pool, page, live);
    }
    live
}
