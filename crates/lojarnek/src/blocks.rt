//! Calls on blocks. A client names a block by one of its 16 roots. A block has up to 16 reference words, each of which names another block or none, and
//! up to 8 plain words; it lives for as long as something names it.

ghost use Rattle.std.specs.Prelude.{◌≡◌, ◌≢◌, ◌<◌, ◌≤◌, ◌⊎◌, List, ℕ, None, length, IfErr, IfOk};
ghost use Rattle.shm_pool.specs.Tokens.{Acting};
ghost use Rattle.lojarnek.specs.Blocks.{Denies, HasCome, IsBeyond, IsBlockOf, IsMade, IsRefusedFirst, IsRooted, IsWord, KeepsRoots, OnlyRoot, Spent, WhyNotMade, WhyNotRead, WhyNotShared, alloc_wrong, names, root_wrong, word_wrong};
ghost use Rattle.lojarnek.specs.{Roots.{IsAtBlocks, IsNamed, KnowsRoots}, Standing.acts_of};
ghost use Rattle.lojarnek.specs.Tables.{SameClient, WasTested};

use crate::client::Client;
use crate::error::{Bound, Error};
use crate::known::learn;
use crate::refused::{alloc_error, is_death, share_error};
use crate::roots::Roots;
use shm_alloc::{Hint, Near, TooLarge};
use shm_count::{EraSpent, Made};
use shm_graph::Life;
use shm_pool::{Reply, SharedPool};
use shm_ref::NoSuchWord;

/// Has the least empty root name a new block.
#[inline(always)]
fn make(
    token: &mut shm_pool::Client,
    roots: &mut Roots,
    pool: &SharedPool,
    life: &mut Life,
    refs: u8,
    plain: &[u64],
    near: Near,
) -> Result<Made, Error>
    requires pool { token.old.of ≡ pool.now }
    requires at { IsAtBlocks token.old }
    requires knows { KnowsRoots token.old roots.old.named }
    requires sizes { (refs ≤ 16) × (length plain.now ≤ 8) }
    ensures { HasCome (λ x. IsMade plain.now x.root (acts_of token.old life.old.left) (acts_of token.new life.new.left)) WhyNotMade (acts_of token.old life.old.left) (acts_of token.new life.new.left) roots.new.named result }
{
    match token.alloc_near(pool, life, refs, plain, near) {
        Ok(Reply::Done(Ok(made))) => {
            roots.set(made.root, made.block);
            Ok(made)
        }
        Ok(Reply::Done(Err(fault))) => Err(alloc_error(fault)),
        Ok(Reply::Died) => Err(Error::Died { done: false }),
        Err(TooLarge { .. }) => unreachable!(),
    }
}

/// Has the least empty root name a block that another one names.
#[inline(always)]
pub(crate) fn share(
    token: &mut shm_pool::Client,
    roots: &mut Roots,
    pool: &SharedPool,
    life: &mut Life,
    block: u32,
) -> Result<u8, Error>
    requires pool { token.old.of ≡ pool.now }
    requires at { IsAtBlocks token.old }
    requires knows { KnowsRoots token.old roots.old.named }
    requires block { IsNamed block token.old }
    ensures { HasCome (λ k. IsRooted k block (acts_of token.old life.old.left) (acts_of token.new life.new.left)) (WhyNotShared block) (acts_of token.old life.old.left) (acts_of token.new life.new.left) roots.new.named result }
{
    match token.share(pool, life, block) {
        Reply::Done(Ok(root)) => {
            roots.set(root, block);
            Ok(root)
        }
        Reply::Done(Err(fault)) => Err(share_error(fault)),
        Reply::Died => Err(Error::Died { done: false }),
    }
}

/// A plain word of a block.
#[inline(always)]
fn read(
    token: &mut shm_pool::Client,
    pool: &SharedPool,
    life: &mut Life,
    block: u32,
    word: u8,
) -> Result<u64, Error>
    requires pool { token.old.of ≡ pool.now }
    requires at { IsAtBlocks token.old }
    requires block { IsNamed block token.old }
    ensures { (bs : List ℕ) → KnowsRoots token.old bs → HasCome (λ v. IsWord block word v (acts_of token.old life.old.left) (acts_of token.new life.new.left) × KeepsRoots (acts_of token.old life.old.left) (acts_of token.new life.new.left)) (WhyNotRead word) (acts_of token.old life.old.left) (acts_of token.new life.new.left) bs result }
{
    match token.read(pool, life, block, word) {
        Reply::Done(Ok(value)) => Ok(value),
        Reply::Done(Err(NoSuchWord { plain })) => Err(Error::NoSuchWord { word, words: plain }),
        Reply::Died => Err(Error::Died { done: false }),
    }
}

/// Makes a root empty. Where the client's eras are spent in that, it reads all its roots again.
#[inline(always)]
fn empty(
    token: &mut shm_pool::Client,
    roots: &mut Roots,
    pool: &SharedPool,
    life: &mut Life,
    root: u8,
) -> Result<(), Error>
    requires pool { token.old.of ≡ pool.now }
    requires at { IsAtBlocks token.old }
    requires knows { KnowsRoots token.old roots.old.named }
    requires root { root < 16 }
    ensures { HasCome (λ u. (names (acts_of token.new life.new.left) root ≡ 0) × OnlyRoot root (acts_of token.old life.old.left) (acts_of token.new life.new.left)) (Spent (OnlyRoot root)) (acts_of token.old life.old.left) (acts_of token.new life.new.left) roots.new.named result }
{
    match token.drop_root(pool, life, root) {
        Reply::Done(Ok(_)) => {
            roots.set(root, 0);
            Ok(())
        }
        Reply::Done(Err(EraSpent { era })) => match learn(token, roots, pool, life) {
            Reply::Done(()) => Err(Error::EraSpent { era }),
            Reply::Died => Err(Error::Died { done: false }),
        },
        Reply::Died => Err(Error::Died { done: false }),
    }
}

impl Client<'_> {
    /// The block that a root names, where a call on it may be made.
    #[inline(always)]
    pub(crate) fn block_of(&self, root: u8) -> Result<u32, Error>
        ensures ok { IfOk result (λ b. IsBlockOf root b self.now × (root_wrong self.now root ≡ None)) }
        ensures err { IfErr result (IsRefusedFirst (root_wrong self.now root) self.now) }
    {
        if self.place.tables {
            return Err(Error::WrongKind);
        }
        if 16 <= root {
            return Err(Error::OutOfRange {
                found: u64::from(root),
                bound: Bound::Root,
            });
        }
        if self.dead {
            return Err(Error::Died { done: false });
        }
        let block = self.roots.of(root);
        if block == 0 {
            return Err(Error::EmptyRoot { root });
        }
        Ok(block)
    }

    /// The same, for a call on word `word` of the block, of which there are so many at most.
    pub(crate) fn block_with(
        &self,
        root: u8,
        word: u8,
        limit: u8,
        bound: Bound,
    ) -> Result<u32, Error>
        requires bound { limit ≤ word → IsBeyond word bound }
        ensures ok { IfOk result (λ b. IsBlockOf root b self.now × (word_wrong limit bound self.now root word ≡ None)) }
        ensures err { IfErr result (IsRefusedFirst (word_wrong limit bound self.now root word) self.now) }
    {
        if limit <= word {
            let found = u64::from(word);
            return Err(Error::OutOfRange { found, bound });
        }
        self.block_of(root)
    }

    /// Tests what an allocation is asked for.
    fn may_make(&self, refs: u8, count: usize) -> Result<(), Error>
        ensures ok { IfOk result (λ u. IsAtBlocks self.now.token × (refs ≤ 16) × (count ≤ 8) × (alloc_wrong self.now refs count ≡ None)) }
        ensures err { IfErr result (IsRefusedFirst (alloc_wrong self.now refs count) self.now) }
    {
        if self.place.tables {
            return Err(Error::WrongKind);
        }
        if 16 < refs {
            return Err(Error::OutOfRange {
                found: u64::from(refs),
                bound: Bound::References,
            });
        }
        if 8 < count {
            return Err(Error::OutOfRange {
                found: count as u64,
                bound: Bound::Plains,
            });
        }
        if self.dead {
            return Err(Error::Died { done: false });
        }
        Ok(())
    }

    /// Makes a block, near a place.
    fn make(&mut self, refs: u8, plain: &[u64], near: Near) -> Result<Made, Error>
        ensures tested { WasTested (alloc_wrong self.old refs (length plain.now)) self.old self.new result }
        ensures made { IfOk result (λ x. IsMade plain.now x.root self.old self.new) }
        ensures refused { IfErr result (Denies WhyNotMade self.old self.new) }
        ensures stays { SameClient self.old self.new }
    {
        self.may_make(refs, plain.len())?;
        let result = make(
            &mut self.token,
            &mut self.roots,
            self.place.pool,
            &mut self.life,
            refs,
            plain,
            near,
        );
        self.dead = is_death(&result);
        result
    }

    /// Makes a block with so many reference words, all empty, and these plain words. Answers the root that names it, the least one that was empty.
    ///
    /// # Errors
    ///
    /// `OutOfRange` where more than 16 reference words or more than 8 plain words are asked for; `Full`, `RootsFull`, `EraSpent`.
    pub fn alloc(&mut self, refs: u8, plain: &[u64]) -> Result<u8, Error>
        ensures tested { WasTested (alloc_wrong self.old refs (length plain.now)) self.old self.new result }
        ensures made { IfOk result (λ k. IsMade plain.now k self.old self.new) }
        ensures refused { IfErr result (Denies WhyNotMade self.old self.new) }
        ensures stays { SameClient self.old self.new }
    {
        let first = Near {
            segment: 0,
            page: 0,
            index: 0,
        };
        match self.make(refs, plain, first) {
            Ok(made) => Ok(made.root),
            Err(error) => Err(error),
        }
    }

    /// The same, near where the last block with this hint was made (`Client::hint`), which takes fewer word steps and more room.
    ///
    /// # Errors
    ///
    /// Those of `alloc`.
    pub fn alloc_near(&mut self, refs: u8, plain: &[u64], hint: &mut Hint) -> Result<u8, Error>
        ensures tested { WasTested (alloc_wrong self.old refs (length plain.now)) self.old self.new result }
        ensures made { IfOk result (λ k. IsMade plain.now k self.old self.new) }
        ensures refused { IfErr result (Denies WhyNotMade self.old self.new) }
        ensures stays { SameClient self.old self.new }
    {
        match self.make(refs, plain, hint.near()) {
            Ok(made) => {
                hint.made(made.block);
                Ok(made.root)
            }
            Err(error) => Err(error),
        }
    }

    /// A hint for `alloc_near`, for blocks with so many reference words and plain words. Each class of blocks has its own, and a new client a new one.
    ///
    /// # Errors
    ///
    /// `OutOfRange` as `alloc`.
    pub fn hint(&self, refs: u8, plain: u8) -> Result<Hint, Error>
        ensures { IfErr result (λ e. ((16 < refs) × (e ≡ Error.OutOfRange refs Bound.References)) ⊎ ((8 < plain) × (e ≡ Error.OutOfRange plain Bound.Plains))) }
    {
        if 16 < refs {
            return Err(Error::OutOfRange {
                found: u64::from(refs),
                bound: Bound::References,
            });
        }
        if 8 < plain {
            return Err(Error::OutOfRange {
                found: u64::from(plain),
                bound: Bound::Plains,
            });
        }
        Ok(Hint::new(self.token.me().geometry, refs, plain))
    }

    /// Has the least empty root name the block that `root` names too. Answers it.
    ///
    /// # Errors
    ///
    /// `OutOfRange` where there is no such root, `EmptyRoot`; `RootsFull`, `EraSpent`, and `CountFull` where 1,023 references name the block.
    pub fn share(&mut self, root: u8) -> Result<u8, Error>
        ensures tested { WasTested (root_wrong self.old root) self.old self.new result }
        ensures shared { IfOk result (λ k. IsRooted k (names self.old root) self.old self.new) }
        ensures refused { IfErr result (Denies (WhyNotShared (names self.old root)) self.old self.new) }
        ensures stays { SameClient self.old self.new }
    {
        let block = self.block_of(root)?;
        let result = share(
            &mut self.token,
            &mut self.roots,
            self.place.pool,
            &mut self.life,
            block,
        );
        self.dead = is_death(&result);
        result
    }

    /// Plain word `word` of the block that `root` names. A plain word is what it was when its block was made.
    ///
    /// # Errors
    ///
    /// `OutOfRange` where there is no such root or no block has such a word, `EmptyRoot`; `NoSuchWord` where this block has none.
    pub fn read(&mut self, root: u8, word: u8) -> Result<u64, Error>
        ensures tested { WasTested (word_wrong 8 Bound.Plain self.old root word) self.old self.new result }
        ensures found { IfOk result (λ v. IsWord (names self.old root) word v self.old self.new) }
        ensures roots { IfOk result (λ v. KeepsRoots self.old self.new) }
        ensures refused { IfErr result (Denies (WhyNotRead word) self.old self.new) }
        ensures stays { SameClient self.old self.new }
    {
        let block = self.block_with(root, word, 8, Bound::Plain)?;
        let result = read(
            &mut self.token,
            self.place.pool,
            &mut self.life,
            block,
            word,
        );
        self.dead = is_death(&result);
        result
    }

    /// Makes a root empty. The block that it named is freed where nothing else names it, and so are the blocks that only it named.
    ///
    /// # Errors
    ///
    /// `OutOfRange` where there is no such root, `EmptyRoot`; `EraSpent`: the root is empty then, or names the block still.
    pub fn drop_root(&mut self, root: u8) -> Result<(), Error>
        ensures tested { WasTested (root_wrong self.old root) self.old self.new result }
        ensures dropped { IfOk result (λ u. names self.new root ≡ 0) }
        ensures others { IfOk result (λ u. OnlyRoot root self.old self.new) }
        ensures refused { IfErr result (Denies (Spent (OnlyRoot root)) self.old self.new) }
        ensures stays { SameClient self.old self.new }
    {
        self.block_of(root)?;
        let result = empty(
            &mut self.token,
            &mut self.roots,
            self.place.pool,
            &mut self.life,
            root,
        );
        self.dead = is_death(&result);
        result
    }
}
