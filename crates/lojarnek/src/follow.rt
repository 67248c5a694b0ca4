//! Following a reference word of a block to the block that it names.

ghost use Rattle.std.specs.Prelude.{◌≡◌, ◌≢◌, ◌<◌, true, List, None, ℕ, slice_index, IfErr, IfOk};
ghost use Rattle.shm_graph.specs.Reach.{is_reached};
ghost use Rattle.lojarnek.specs.Blocks.{Denies, HasCome, IsBlockOf, IsRefusedFirst, names};
ghost use Rattle.lojarnek.specs.Following.{Follows, HasFollowed, HasLooked, HasRooted, WhyNotFollowed, follow_wrong};
ghost use Rattle.lojarnek.specs.{Roots.{IsAtBlocks, IsHolding, IsNamed, KnowsRoots, account_root}, Standing.acts_of};
ghost use Rattle.lojarnek.specs.Tables.{SameClient, WasTested};

use crate::client::Client;
use crate::error::{Bound, Error};
use crate::latch::{give, take};
use crate::refused::{is_death, share_error};
use crate::roots::Roots;
use shm_graph::Life;
use shm_pool::{Reply, SharedPool};
use shm_ref::LookFault;

/// The block that reference word `word` of a block names, and 0 where it names none. The latch of `author` is held.
fn look(
    token: &mut shm_pool::Client,
    pool: &SharedPool,
    life: &mut Life,
    author: u8,
    block: u32,
    word: u8,
) -> Reply<Result<u32, Error>>
    requires pool { token.old.of ≡ pool.now }
    requires held { IsHolding author token.old }
    requires block { IsNamed block token.old }
    ensures { HasLooked author block word (acts_of token.old life.old.left) (acts_of token.new life.new.left) result }
{
    match token.look(pool, life, block, word) {
        Reply::Done(Ok(found)) => Reply::Done(Ok(found)),
        Reply::Done(Err(LookFault::NoSuchRef { refs })) => {
            Reply::Done(Err(Error::NoSuchWord { word, words: refs }))
        }
        Reply::Done(Err(LookFault::NotHeld)) => Reply::Done(Err(Error::WrongAuthor { author })),
        Reply::Died => Reply::Died,
    }
}

/// Has the least empty root name a block that is in reach. The latch of `author` is held.
fn root(
    token: &mut shm_pool::Client,
    roots: &mut Roots,
    pool: &SharedPool,
    life: &mut Life,
    author: u8,
    block: u32,
) -> Reply<Result<u8, Error>>
    requires pool { token.old.of ≡ pool.now }
    requires held { IsHolding author token.old }
    requires knows { (k : ℕ) → k < 16 → account_root token.old.account k ≡ slice_index roots.old.named k }
    requires reached { is_reached token.old.account.who token.old.account.memo block ≡ true }
    ensures { HasRooted author block (acts_of token.old life.old.left) (acts_of token.new life.new.left) roots.new.named result }
{
    // for the proof: the contract alone speaks of whose latch is held
    let _ = author;
    match token.share(pool, life, block) {
        Reply::Done(Ok(root)) => {
            roots.set(root, block);
            Reply::Done(Ok(root))
        }
        Reply::Done(Err(fault)) => Reply::Done(Err(share_error(fault))),
        Reply::Died => Reply::Died,
    }
}

/// Has the least empty root name the block that reference word `word` of a block names: it, or none where the word names none. The latch of `author` is held.
fn follow_held(
    token: &mut shm_pool::Client,
    roots: &mut Roots,
    pool: &SharedPool,
    life: &mut Life,
    author: u8,
    block: u32,
    word: u8,
) -> Reply<Result<Option<u8>, Error>>
    requires pool { token.old.of ≡ pool.now }
    requires held { IsHolding author token.old }
    requires knows { (k : ℕ) → k < 16 → account_root token.old.account k ≡ slice_index roots.old.named k }
    requires block { IsNamed block token.old }
    ensures { HasFollowed author block word (acts_of token.old life.old.left) (acts_of token.new life.new.left) roots.new.named result }
{
    match look(token, pool, life, author, block, word) {
        Reply::Done(Ok(0)) => Reply::Done(Ok(None)),
        Reply::Done(Ok(found)) => match root(token, roots, pool, life, author, found) {
            Reply::Done(Ok(root)) => Reply::Done(Ok(Some(root))),
            Reply::Done(Err(error)) => Reply::Done(Err(error)),
            Reply::Died => Reply::Died,
        },
        Reply::Done(Err(error)) => Reply::Done(Err(error)),
        Reply::Died => Reply::Died,
    }
}

/// The same, with the latch taken before and given back after.
fn follow(
    token: &mut shm_pool::Client,
    roots: &mut Roots,
    pool: &SharedPool,
    life: &mut Life,
    author: u8,
    block: u32,
    word: u8,
) -> Result<Option<u8>, Error>
    requires pool { token.old.of ≡ pool.now }
    requires at { IsAtBlocks token.old }
    requires author { author < token.old.of.start.geometry.clients }
    requires knows { KnowsRoots token.old roots.old.named }
    requires block { IsNamed block token.old }
    ensures { HasCome (λ o. Follows block word o (acts_of token.old life.old.left) (acts_of token.new life.new.left)) (WhyNotFollowed author block word) (acts_of token.old life.old.left) (acts_of token.new life.new.left) roots.new.named result }
{
    let Reply::Done(()) = take(token, pool, life, author) else {
        return Err(Error::Died { done: false });
    };
    let Reply::Done(answer) = follow_held(token, roots, pool, life, author, block, word) else {
        return Err(Error::Died { done: false });
    };
    let Reply::Done(()) = give(token, pool, life) else {
        let done = answer.is_ok();
        return Err(Error::Died { done });
    };
    answer
}

impl Client<'_> {
    /// The block that `root` names, where a call on a reference word of it may be made, which `author` has made.
    fn block_by(&self, author: u8, root: u8, word: u8) -> Result<u32, Error>
        ensures ok { IfOk result (λ b. IsBlockOf root b self.now × (author < self.now.token.of.start.geometry.clients) × (follow_wrong self.now author root word ≡ None)) }
        ensures err { IfErr result (IsRefusedFirst (follow_wrong self.now author root word) self.now) }
    {
        if self.place.tables {
            return Err(Error::WrongKind);
        }
        if let Some(error) = self.unknown(author) {
            return Err(error);
        }
        self.block_with(root, word, 16, Bound::Reference)
    }

    /// Has the least empty root name the block that reference word `word` of the block names that `root` names, and that the client `author` has made.
    /// Answers it, or none where the word names none. While another client sets a word of a block of that author, or follows one, it waits; where that client
    /// died with the latch it tries again until it is recovered, or until this client's budget is used up.
    ///
    /// # Errors
    ///
    /// `NoSuchClient`, `OutOfRange` where there is no such root or no block has such a word, `EmptyRoot`; `NoSuchWord` where this block has none,
    /// `WrongAuthor` where another client made it; `RootsFull`, `EraSpent`, and `CountFull` where 1,023 references name the block.
    pub fn follow(&mut self, author: u8, root: u8, word: u8) -> Result<Option<u8>, Error>
        ensures tested { WasTested (follow_wrong self.old author root word) self.old self.new result }
        ensures followed { IfOk result (λ o. Follows (names self.old root) word o self.old self.new) }
        ensures refused { IfErr result (Denies (WhyNotFollowed author (names self.old root) word) self.old self.new) }
        ensures stays { SameClient self.old self.new }
    {
        let block = self.block_by(author, root, word)?;
        let result = follow(
            &mut self.token,
            &mut self.roots,
            self.place.pool,
            &mut self.life,
            author,
            block,
            word,
        );
        self.dead = is_death(&result);
        result
    }
}
