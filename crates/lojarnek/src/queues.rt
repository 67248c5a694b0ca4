//! Calls on queues of blocks. Each client has a queue to each other one, in which up to eight blocks wait.

ghost use Rattle.std.specs.Prelude.{◌≡◌, ◌≢◌, ◌<◌, List, ℕ, None, Some, IfErr, IfOk};
ghost use Rattle.lojarnek.specs.Blocks.{Denies, HasCome, IsRefusedFirst, IsWrongOn, KeepsRoots, Spent, kind_wrong, names, queue_wrong};
ghost use Rattle.lojarnek.specs.Passing.{SendsBlock, Takes, TakesAll, WhyNotReceived, WhyNotSent, send_wrong};
ghost use Rattle.lojarnek.specs.{Roots.{IsAtBlocks, IsNamed, KnowsRoots}, Standing.acts_of};
ghost use Rattle.lojarnek.specs.Tables.{SameClient, WasTested};

use crate::client::Client;
use crate::error::Error;
use crate::known::learn;
use crate::refused::{is_death, send_error};
use crate::roots::Roots;
use shm_count::EraSpent;
use shm_graph::Life;
use shm_pool::{Reply, SharedPool};
use shm_queue::PeekFault;

/// Sends a block to the client `to`.
fn send(
    token: &mut shm_pool::Client,
    pool: &SharedPool,
    life: &mut Life,
    to: u8,
    block: u32,
) -> Result<(), Error>
    requires pool { token.old.of ≡ pool.now }
    requires at { IsAtBlocks token.old }
    requires to { (to < token.old.of.start.geometry.clients) × (to ≢ token.old.account.who) }
    requires block { IsNamed block token.old }
    ensures { (bs : List ℕ) → KnowsRoots token.old bs → HasCome (λ u. SendsBlock to block (acts_of token.old life.old.left) (acts_of token.new life.new.left) × KeepsRoots (acts_of token.old life.old.left) (acts_of token.new life.new.left)) (WhyNotSent to block) (acts_of token.old life.old.left) (acts_of token.new life.new.left) bs result }
{
    // for the proof: its account stood
    token.client();
    match token.send(pool, life, to, block) {
        Reply::Done(Ok(_)) => Ok(()),
        Reply::Done(Err(fault)) => Err(send_error(fault, to)),
        Reply::Died => Err(Error::Died { done: false }),
    }
}

/// Has the least empty root name the next block that the client `from` has sent. Where the client's eras are spent in that, it reads all its roots again.
fn receive(
    token: &mut shm_pool::Client,
    roots: &mut Roots,
    pool: &SharedPool,
    life: &mut Life,
    from: u8,
) -> Result<Option<u8>, Error>
    requires pool { token.old.of ≡ pool.now }
    requires at { IsAtBlocks token.old }
    requires knows { KnowsRoots token.old roots.old.named }
    requires from { (from < token.old.of.start.geometry.clients) × (from ≢ token.old.account.who) }
    ensures { HasCome (λ o. Takes from o (acts_of token.old life.old.left) (acts_of token.new life.new.left)) WhyNotReceived (acts_of token.old life.old.left) (acts_of token.new life.new.left) roots.new.named result }
{
    match token.receive(pool, life, from) {
        Reply::Done(Ok(made)) => {
            roots.set(made.root, made.block);
            Ok(Some(made.root))
        }
        Reply::Done(Err(PeekFault::Empty { .. })) => Ok(None),
        Reply::Done(Err(PeekFault::EraSpent { era })) => match learn(token, roots, pool, life) {
            Reply::Done(()) => Err(Error::EraSpent { era }),
            Reply::Died => Err(Error::Died { done: false }),
        },
        Reply::Done(Err(PeekFault::RootsFull)) => Err(Error::RootsFull),
        Reply::Done(Err(PeekFault::CountFull { block, count })) => {
            Err(Error::CountFull { block, count })
        }
        Reply::Died => Err(Error::Died { done: false }),
    }
}

/// Takes all blocks that wait for the client, and frees what nothing else names.
fn drain(token: &mut shm_pool::Client, pool: &SharedPool, life: &mut Life) -> Result<u64, Error>
    requires pool { token.old.of ≡ pool.now }
    requires at { IsAtBlocks token.old }
    ensures { (bs : List ℕ) → KnowsRoots token.old bs → HasCome (λ n. TakesAll n (acts_of token.old life.old.left) (acts_of token.new life.new.left) × KeepsRoots (acts_of token.old life.old.left) (acts_of token.new life.new.left)) (Spent KeepsRoots) (acts_of token.old life.old.left) (acts_of token.new life.new.left) bs result }
{
    match token.drain(pool, life) {
        Reply::Done(Ok(taken)) => Ok(taken),
        Reply::Done(Err(EraSpent { era })) => Err(Error::EraSpent { era }),
        Reply::Died => Err(Error::Died { done: false }),
    }
}

impl Client<'_> {
    /// Tests that the pool is for blocks, and that a client lives.
    fn may_call(&self) -> Result<(), Error>
        ensures ok { IfOk result (λ u. IsAtBlocks self.now.token × (kind_wrong self.now ≡ None)) }
        ensures err { IfErr result (IsRefusedFirst (kind_wrong self.now) self.now) }
    {
        if self.place.tables {
            return Err(Error::WrongKind);
        }
        if self.dead {
            return Err(Error::Died { done: false });
        }
        Ok(())
    }

    /// Tests that the pool is for blocks, and that it is the number of another client.
    fn may_pass(&self, client: u8) -> Result<(), Error>
        ensures ok { IfOk result (λ u. (client < self.now.token.of.start.geometry.clients) × (client ≢ self.now.token.account.who) × (queue_wrong self.now client ≡ None)) }
        ensures err { IfErr result (λ e. (queue_wrong self.now client ≡ Some e) × IsWrongOn self.now e) }
    {
        if self.place.tables {
            return Err(Error::WrongKind);
        }
        match self.no_peer(client) {
            Some(error) => Err(error),
            None => Ok(()),
        }
    }

    /// Sends the block that `root` names to the client `to`, which can receive it then.
    ///
    /// # Errors
    ///
    /// `NoSuchClient`, `ToItself`, `OutOfRange` where there is no such root, `EmptyRoot`; `QueueFull` where eight blocks wait there, `EraSpent`, and
    /// `CountFull` where 1,023 references name the block.
    pub fn send(&mut self, to: u8, root: u8) -> Result<(), Error>
        ensures tested { WasTested (send_wrong self.old to root) self.old self.new result }
        ensures sent { IfOk result (λ u. SendsBlock to (names self.old root) self.old self.new) }
        ensures roots { IfOk result (λ u. KeepsRoots self.old self.new) }
        ensures refused { IfErr result (Denies (WhyNotSent to (names self.old root)) self.old self.new) }
        ensures stays { SameClient self.old self.new }
    {
        self.may_pass(to)?;
        let block = self.block_of(root)?;
        let result = send(&mut self.token, self.place.pool, &mut self.life, to, block);
        self.dead = is_death(&result);
        result
    }

    /// Has the least empty root name the next block that the client `from` has sent. Answers it, or none where no block waits.
    ///
    /// # Errors
    ///
    /// `NoSuchClient`, `ToItself`; `RootsFull`, and `CountFull` where 1,023 references name the block, which waits still; `EraSpent`: a root may name
    /// the block then.
    pub fn receive(&mut self, from: u8) -> Result<Option<u8>, Error>
        ensures tested { WasTested (queue_wrong self.old from) self.old self.new result }
        ensures received { IfOk result (λ o. Takes from o self.old self.new) }
        ensures refused { IfErr result (Denies WhyNotReceived self.old self.new) }
        ensures stays { SameClient self.old self.new }
    {
        self.may_pass(from)?;
        self.may_call()?;
        let result = receive(
            &mut self.token,
            &mut self.roots,
            self.place.pool,
            &mut self.life,
            from,
        );
        self.dead = is_death(&result);
        result
    }

    /// Takes all blocks that wait for the client, gives none of them a root, and frees what nothing else names. Answers how many blocks it took.
    ///
    /// # Errors
    ///
    /// `EraSpent`: what was taken stays so.
    pub fn drain(&mut self) -> Result<u64, Error>
        ensures tested { WasTested (kind_wrong self.old) self.old self.new result }
        ensures drained { IfOk result (λ n. TakesAll n self.old self.new) }
        ensures roots { IfOk result (λ n. KeepsRoots self.old self.new) }
        ensures refused { IfErr result (Denies (Spent KeepsRoots) self.old self.new) }
        ensures stays { SameClient self.old self.new }
    {
        self.may_call()?;
        let result = drain(&mut self.token, self.place.pool, &mut self.life);
        self.dead = is_death(&result);
        result
    }
}
