//! Calls on reference words of blocks. A block's author, the client that made it, sets them under its latch, and whoever follows one holds that latch.

ghost use Rattle.std.specs.Prelude.{◌≡◌, ◌≢◌, List, ℕ, IfErr, IfOk};
ghost use Rattle.lojarnek.specs.Blocks.{Denies, HasCome, KeepsRoots, names, word_wrong};
ghost use Rattle.lojarnek.specs.Setting.{HasSet, KnowsReference, WhyNotSet, set_wrong};
ghost use Rattle.lojarnek.specs.{Roots.{IsAtBlocks, IsHolding, IsNamed, KnowsRoots}, Standing.acts_of};
ghost use Rattle.lojarnek.specs.Tables.{SameClient, WasTested};

use crate::client::Client;
use crate::error::{Bound, Error};
use crate::latch::{give, take};
use crate::refused::{is_death, set_error};
use shm_graph::Life;
use shm_pool::{Reply, SharedPool};
use shm_ref::SetFault;

/// Has reference word `word` of a block name the block `to`, or none where that is 0. The own latch is held.
fn set_held(
    token: &mut shm_pool::Client,
    pool: &SharedPool,
    life: &mut Life,
    block: u32,
    word: u8,
    to: u32,
) -> Reply<Result<(), SetFault>>
    requires pool { token.old.of ≡ pool.now }
    requires held { IsHolding token.old.account.who token.old }
    requires block { IsNamed block token.old }
    requires to { to ≢ 0 → IsNamed to token.old }
    ensures { HasSet block word to (acts_of token.old life.old.left) (acts_of token.new life.new.left) result }
{
    // for the proof: its account stood
    token.client();
    token.set_ref(pool, life, block, word, to)
}

/// The same, with the own latch taken before and given back after.
fn set(
    token: &mut shm_pool::Client,
    pool: &SharedPool,
    life: &mut Life,
    block: u32,
    word: u8,
    to: u32,
) -> Result<(), Error>
    requires pool { token.old.of ≡ pool.now }
    requires at { IsAtBlocks token.old }
    requires block { IsNamed block token.old }
    requires to { to ≢ 0 → IsNamed to token.old }
    ensures { (bs : List ℕ) → KnowsRoots token.old bs → HasCome (λ u. KnowsReference block word to (acts_of token.new life.new.left) × KeepsRoots (acts_of token.old life.old.left) (acts_of token.new life.new.left)) (WhyNotSet block word to) (acts_of token.old life.old.left) (acts_of token.new life.new.left) bs result }
{
    let own = token.client();
    let Reply::Done(()) = take(token, pool, life, own) else {
        return Err(Error::Died { done: false });
    };
    let Reply::Done(answer) = set_held(token, pool, life, block, word, to) else {
        return Err(Error::Died { done: false });
    };
    if let Reply::Died = give(token, pool, life) {
        let done = answer.is_ok();
        return Err(Error::Died { done });
    }
    match answer {
        Ok(()) => Ok(()),
        Err(fault) => Err(set_error(fault, word)),
    }
}

impl Client<'_> {
    /// Has reference word `word` of the block that `root` names name the block that `to` names, where the client made the first one. What the word alone
    /// named is freed. Where another client follows a word of a block of this one, it waits for that.
    ///
    /// # Errors
    ///
    /// `OutOfRange` where there is no such root or no block has such a word, `EmptyRoot`; `NoSuchWord` where this block has none, `NotAuthor`, `EraSpent`,
    /// and `CountFull` where 1,023 references name the block. `Died` says that it is done where the word was set before the client died.
    pub fn set(&mut self, root: u8, word: u8, to: u8) -> Result<(), Error>
        ensures tested { WasTested (set_wrong self.old root word to) self.old self.new result }
        ensures set { IfOk result (λ u. KnowsReference (names self.old root) word (names self.old to) self.new) }
        ensures roots { IfOk result (λ u. KeepsRoots self.old self.new) }
        ensures refused { IfErr result (Denies (WhyNotSet (names self.old root) word (names self.old to)) self.old self.new) }
        ensures stays { SameClient self.old self.new }
    {
        let block = self.block_with(root, word, 16, Bound::Reference)?;
        let to = self.block_of(to)?;
        let result = set(
            &mut self.token,
            self.place.pool,
            &mut self.life,
            block,
            word,
            to,
        );
        self.dead = is_death(&result);
        result
    }

    /// Has that word name none.
    ///
    /// # Errors
    ///
    /// Those of `set`.
    pub fn clear(&mut self, root: u8, word: u8) -> Result<(), Error>
        ensures tested { WasTested (word_wrong 16 Bound.Reference self.old root word) self.old self.new result }
        ensures cleared { IfOk result (λ u. KnowsReference (names self.old root) word 0 self.new) }
        ensures roots { IfOk result (λ u. KeepsRoots self.old self.new) }
        ensures refused { IfErr result (Denies (WhyNotSet (names self.old root) word 0) self.old self.new) }
        ensures stays { SameClient self.old self.new }
    {
        let block = self.block_with(root, word, 16, Bound::Reference)?;
        let result = set(
            &mut self.token,
            self.place.pool,
            &mut self.life,
            block,
            word,
            0,
        );
        self.dead = is_death(&result);
        result
    }
}
