//! How many blocks of a pool are live, and how many of its words name one, page by page.

ghost use Rattle.std.specs.Prelude.{◌≡◌, ℕ, ◌+◌, ◌-◌, ◌*◌, ◌%◌, ◌^◌, ◌==◌, ◌<◌, ◌≤◌, if◌then◌else◌, slice_index};
ghost use Rattle.shm_words.specs.Layout.{GeometryFits, total_of, bodies};
ghost use Rattle.shm_graph.specs.{Spots.{see, classes_in}, Blocks.{classes, IsBlock}};
ghost use Rattle.shm_graph.specs.References.{sum_below, references, live_count, references_in_all};
ghost use Rattle.shm_report.specs.{PoolWords.IsCleanPool, Counts.{Counted, IsEndOf, IsPage}};

use crate::pool_words::{block_refs, reference_at, word};
use shm_words::{Geometry, Header};

/// How much a pool holds.
#[derive(Clone, Copy, Drop)]
pub struct Counts {
    /// How many blocks are live.
    pub live: u32,
    /// How many words name a block.
    pub refs: u32,
}

impl Counts {
    /// What a pool holds.
    pub fn of(geometry: Geometry, words: &[u64]) -> Counts
        requires { GeometryFits geometry }
        ensures live { result.live ≡ live_count geometry (see geometry words.now) }
        ensures refs { IsCleanPool geometry words.now → result.refs ≡ references_in_all geometry (classes (see geometry words.now)) (references geometry.wide (see geometry words.now)) }
    {
        let mut counts = Counts { live: 0, refs: 0 };
        counts.front(geometry, words);
        for page in 0..16 * u32::from(geometry.segments()) {
            counts.page(geometry, words, page);
        }
        counts
    }

    // the words before the bodies
    fn front(&mut self, geometry: Geometry, words: &[u64])
        requires fits { GeometryFits geometry }
        requires counted { Counted geometry words.now 0 self.old.live self.old.refs }
        ensures { Counted geometry words.now (bodies geometry) self.new.live self.new.refs }
    {
        for at in 0..geometry.body(0, 0) {
            self.name(reference_at(geometry, words, at));
        }
    }

    // a page, by its number in the pool
    fn page(&mut self, geometry: Geometry, words: &[u64], page: u32)
        requires fits { GeometryFits geometry }
        requires page { page < 16 * geometry.segments }
        requires counted { Counted geometry words.now (bodies geometry + 128 * page) self.old.live self.old.refs }
        ensures { Counted geometry words.now (bodies geometry + 128 * (page + 1)) self.new.live self.new.refs }
    {
        let class = word(words, geometry.page(0, 0) + page);
        if class != 0 {
            let first = geometry.body(0, 0) + 128 * page;
            self.blocks(geometry, words, first, class.min(128) as u32);
        }
    }

    // the blocks of a page, one at each so many words
    fn blocks(&mut self, geometry: Geometry, words: &[u64], first: u32, step: u32)
        requires fits { GeometryFits geometry }
        requires page { IsPage geometry words.now first step }
        requires counted { Counted geometry words.now first self.old.live self.old.refs }
        ensures { Counted geometry words.now (first + 128) self.new.live self.new.refs }
    {
        let mut at = first;
        while at < first + 128 {
            self.block(geometry, words, at);
            at += step;
        }
    }

    // a block
    fn block(&mut self, geometry: Geometry, words: &[u64], block: u32)
        requires fits { GeometryFits geometry }
        requires is { IsBlock geometry (classes_in geometry words.now) block }
        requires counted { Counted geometry words.now block self.old.live self.old.refs }
        ensures { (n : ℕ) → IsEndOf geometry words.now block n → Counted geometry words.now n self.new.live self.new.refs }
    {
        self.live += u32::from(Header::unpack(word(words, block)).live);
        let first = block + 2;
        let refs = u32::from(block_refs(geometry, words, block));
        self.names(words, first, first + refs);
    }

    // the words between two addresses, each of which names a block or is 0
    fn names(&mut self, words: &[u64], from: u32, to: u32)
        requires order { from ≤ to }
        requires room { self.old.refs + (to - from) < 2 ^ 32 }
        ensures refs { self.new.refs ≡ self.old.refs + sum_below (to - from) (λ i. if slice_index words.now (from + i) == 0 then 0 else 1) }
        ensures live { self.new.live ≡ self.old.live }
    {
        for at in from..to {
            self.name(word(words, at));
        }
    }

    // a word that names this block, or none where it is 0
    fn name(&mut self, target: u64)
        requires { self.old.refs + 1 < 2 ^ 32 }
        ensures refs { self.new.refs ≡ self.old.refs + (if target == 0 then 0 else 1) }
        ensures live { self.new.live ≡ self.old.live }
    {
        if target != 0 {
            self.refs += 1;
        }
    }
}
