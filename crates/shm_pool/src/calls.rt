//! The calls of a client, each of which runs one operation between two calls of it.
//!
//! Their conditions are asked of a client that lives: once a call of it has died, each further one answers `Died` without a word step. A call
//! makes the word steps of its operation, or, where it answers `Died`, some of them and not all; each of them lowers `life.left` by one.

ghost use Rattle.std.specs.Prelude.{◌≡◌, ◌≢◌, ◌<◌, ◌↔◌, ◌⊎◌, ℕ, true, false, length, IfErr, IfOk, IfSome, IsNone, is_err, None, Some, slice_index};
ghost use Rattle.std.specs.List.{Contains};
ghost use Rattle.shm_graph.specs.{declared.spot.Spot.TheVariants.Home, Held.is_loose, Reach.is_reached, Runs.Stood};
ghost use Rattle.shm_graph.specs.Views.{own_word};
ghost use Rattle.plans.specs.Words.{word_control};
ghost use Rattle.shm_count.specs.{declared.point.Aim.TheVariants.Up, Step.KeepsPart};
ghost use Rattle.shm_count.specs.UpRoot.{Control.{rooting, rooting_parts}, rooting_plan};
ghost use Rattle.shm_ref.specs.{DropRoot.{Control.{drop_parts, dropping}, drop_plan}, Hold.Control.holding};
ghost use Rattle.shm_ref.specs.{Hold.hold_plan, HomeOf.{finding, home_of_plan}, Look.{look_plan, looking}};
ghost use Rattle.shm_ref.specs.{Read.{read_plan, reading}, Release.{release_plan, releasing}};
ghost use Rattle.shm_ref.specs.{RootOf.{naming, naming_plan}, SetHome.{home_parts, home_plan, homing}};
ghost use Rattle.shm_ref.specs.SetRef.{Control.{set_parts, setting}, set_plan};
ghost use Rattle.shm_queue.specs.Drain.{Control.{drain_parts, draining}, drain_plan};
ghost use Rattle.shm_queue.specs.Receive.{Control.{receive_parts, receiving}, receive_plan};
ghost use Rattle.shm_queue.specs.Send.{Control.{send_parts, sending}, send_plan};
ghost use Rattle.shm_pool.specs.{Called.{HasAllocated, HasAllocatedNear, HasCalled, IsAlive, Rests}, Calls.IsBetween};
ghost use Rattle.shm_pool.specs.Tokens.{me_of};

use crate::pool::SharedPool;
use crate::reply::Reply;
use crate::token::Client;
use plans::{Calls, Task};
use shm_alloc::{Alloc, AllocFault, Near, TooLarge};
use shm_count::{EraSpent, Made};
use shm_graph::{Life, Me};
use shm_queue::{Drain, PeekFault, Receive, Send, SendFault};
use shm_ref::{
    Busy, DropRoot, Hold, HomeFault, HomeOf, Look, LookFault, NoSuchWord, NotHeld, Read, Release,
    RootOf, SetFault, SetHome, SetRef, Share, ShareFault,
};

impl Client {
    /// The identity in its pool, unless a call of this client has died.
    pub(crate) fn alive(&self) -> Option<Me>
        ensures dead { IsNone result → self.now.dead ≡ true }
        ensures alive { IfSome result (IsAlive self.now) }
        ensures stood { Stood self.now.of.start self.now.account }
    {
        let me = self.me();
        if self.dead { None } else { Some(me) }
    }

    /// Runs the machine of a plan of the client, of which each answer rests.
    fn run_plan<P: Task + Drop>(
        &mut self,
        pool: &SharedPool,
        life: &mut Life,
        plan: P,
    ) -> Reply<P::Answer>
        requires pool { self.old.of ≡ pool.now }
        requires between { self.old.dead ≡ false → IsBetween self.old.account }
        requires me { P.plan.steered.me plan ≡ me_of self.old.of self.old.account }
        requires may { self.old.dead ≡ false → P.may plan self.old.account.memo }
        requires rests { (p : P) (a : P.Answer) → P.rests p a }
        ensures called { HasCalled P.Call.control P.plan plan self.old self.new life.old.left life.new.left result }
    {
        self.run(pool, Calls::new(plan), life)
    }

    /// Makes a block with so many empty reference words and these plain words, which the least root names that was empty. In the reply:
    /// `EraSpent`, `RootsFull` where all 16 roots name blocks, `Full` where each segment is another's or has no room for the block.
    ///
    /// # Errors
    ///
    /// `TooLarge` where more than 16 reference words or more than 8 plain words are asked for: nothing has changed, and a client that has
    /// died is told so too.
    pub fn alloc(
        &mut self,
        pool: &SharedPool,
        life: &mut Life,
        refs: u8,
        plain: &[u64],
    ) -> Result<Reply<Result<Made, AllocFault>>, TooLarge>
        requires pool { self.old.of ≡ pool.now }
        requires between { self.old.dead ≡ false → IsBetween self.old.account }
        ensures refused { is_err result ≡ true ↔ ((16 < refs) ⊎ (8 < length plain.now)) }
        ensures fault { IfErr result (λ e. (e ≡ record { refs = refs; plain = length plain.now }) × (self.new ≡ self.old) × (life.new ≡ life.old)) }
        ensures called { IfOk result (HasAllocated refs plain.now self.old self.new life.old.left life.new.left) }
        ensures rests { Rests self.new }
    {
        let near = Near {
            segment: 0,
            page: 0,
            index: 0,
        };
        self.alloc_near(pool, life, refs, plain, near)
    }

    /// The same, where the search for a free block begins near a place.
    ///
    /// # Errors
    ///
    /// `TooLarge` where more than 16 reference words or more than 8 plain words are asked for: nothing has changed, and a client that has
    /// died is told so too.
    pub fn alloc_near(
        &mut self,
        pool: &SharedPool,
        life: &mut Life,
        refs: u8,
        plain: &[u64],
        near: Near,
    ) -> Result<Reply<Result<Made, AllocFault>>, TooLarge>
        requires pool { self.old.of ≡ pool.now }
        requires between { self.old.dead ≡ false → IsBetween self.old.account }
        ensures refused { is_err result ≡ true ↔ ((16 < refs) ⊎ (8 < length plain.now)) }
        ensures fault { IfErr result (λ e. (e ≡ record { refs = refs; plain = length plain.now }) × (self.new ≡ self.old) × (life.new ≡ life.old)) }
        ensures called { IfOk result (HasAllocatedNear refs plain.now near self.old self.new life.old.left life.new.left) }
        ensures rests { Rests self.new }
    {
        let alloc = Alloc::new_near(self.me(), refs, plain, near)?;
        Ok(self.run(pool, alloc, life))
    }

    /// Takes the latch of `author`, a client of the pool, where the client holds none; `Busy` where another client holds it.
    pub fn hold(
        &mut self,
        pool: &SharedPool,
        life: &mut Life,
        author: u8,
    ) -> Reply<Result<(), Busy>>
        requires pool { self.old.of ≡ pool.now }
        requires between { self.old.dead ≡ false → IsBetween self.old.account }
        requires author { self.old.dead ≡ false → author < self.old.of.start.geometry.clients }
        requires none { self.old.dead ≡ false → self.old.account.memo.latch ≡ None }
        ensures called { HasCalled word_control hold_plan (holding (me_of self.old.of self.old.account) author) self.old self.new life.old.left life.new.left result }
    {
        let Some(me) = self.alive() else {
            return Reply::Died;
        };
        self.run_plan(pool, life, Hold::new(me, author))
    }

    /// Gives the latch back that the client holds. What it alone had in reach by looks is out of reach then.
    pub fn release(&mut self, pool: &SharedPool, life: &mut Life) -> Reply<()>
        requires pool { self.old.of ≡ pool.now }
        requires between { self.old.dead ≡ false → IsBetween self.old.account }
        requires held { self.old.dead ≡ false → (a : ℕ) × (self.old.account.memo.latch ≡ Some a) }
        ensures called { HasCalled word_control release_plan (releasing (me_of self.old.of self.old.account)) self.old self.new life.old.left life.new.left result }
    {
        let Some(me) = self.alive() else {
            return Reply::Died;
        };
        self.run_plan(pool, life, Release::new(me))
    }

    /// The block that the home of `author` names, a client of the pool, and 0 where it names none; `NotHeld` where the client doesn't hold the
    /// latch of `author`. The block is in reach while the latch is held.
    pub fn home_of(
        &mut self,
        pool: &SharedPool,
        life: &mut Life,
        author: u8,
    ) -> Reply<Result<u32, NotHeld>>
        requires pool { self.old.of ≡ pool.now }
        requires between { self.old.dead ≡ false → IsBetween self.old.account }
        requires author { self.old.dead ≡ false → author < self.old.of.start.geometry.clients }
        ensures called { HasCalled word_control home_of_plan (finding (me_of self.old.of self.old.account) author) self.old self.new life.old.left life.new.left result }
    {
        let Some(me) = self.alive() else {
            return Reply::Died;
        };
        self.run_plan(pool, life, HomeOf::new(me, author))
    }

    /// The block that reference word `k` of `block` names, which is in reach, and 0 where it names none; `NoSuchRef` where the block has no such
    /// word, and `NotHeld` where the client doesn't hold the latch of the block's author.
    pub fn look(
        &mut self,
        pool: &SharedPool,
        life: &mut Life,
        block: u32,
        k: u8,
    ) -> Reply<Result<u32, LookFault>>
        requires pool { self.old.of ≡ pool.now }
        requires between { self.old.dead ≡ false → IsBetween self.old.account }
        requires reached { self.old.dead ≡ false → is_reached self.old.account.who self.old.account.memo block ≡ true }
        ensures called { HasCalled word_control look_plan (looking (me_of self.old.of self.old.account) block k) self.old self.new life.old.left life.new.left result }
    {
        let Some(me) = self.alive() else {
            return Reply::Died;
        };
        self.run_plan(pool, life, Look::new(me, block, k))
    }

    /// Plain word `k` of `block`, which is in reach; `NoSuchWord` where the block has no such word.
    pub fn read(
        &mut self,
        pool: &SharedPool,
        life: &mut Life,
        block: u32,
        k: u8,
    ) -> Reply<Result<u64, NoSuchWord>>
        requires pool { self.old.of ≡ pool.now }
        requires between { self.old.dead ≡ false → IsBetween self.old.account }
        requires reached { self.old.dead ≡ false → is_reached self.old.account.who self.old.account.memo block ≡ true }
        ensures called { HasCalled word_control read_plan (reading (me_of self.old.of self.old.account) block k) self.old self.new life.old.left life.new.left result }
    {
        let Some(me) = self.alive() else {
            return Reply::Died;
        };
        self.run_plan(pool, life, Read::new(me, block, k))
    }

    /// The block that root `k` names, 0 to 15, and 0 where it names none.
    pub fn root_of(&mut self, pool: &SharedPool, life: &mut Life, k: u8) -> Reply<u32>
        requires pool { self.old.of ≡ pool.now }
        requires between { self.old.dead ≡ false → IsBetween self.old.account }
        requires root { self.old.dead ≡ false → k < 16 }
        ensures called { HasCalled word_control naming_plan (naming (me_of self.old.of self.old.account) k) self.old self.new life.old.left life.new.left result }
    {
        let Some(me) = self.alive() else {
            return Reply::Died;
        };
        self.run_plan(pool, life, RootOf::new(me, k))
    }

    /// Makes the least empty root name `block`, which is in reach, and answers that root; `EraSpent`, `RootsFull` where all 16 roots name blocks,
    /// `CountFull` where 1,023 references name the block.
    pub fn share(
        &mut self,
        pool: &SharedPool,
        life: &mut Life,
        block: u32,
    ) -> Reply<Result<u8, ShareFault>>
        requires pool { self.old.of ≡ pool.now }
        requires between { self.old.dead ≡ false → IsBetween self.old.account }
        requires reached { self.old.dead ≡ false → is_reached self.old.account.who self.old.account.memo block ≡ true }
        ensures called { HasCalled rooting_parts rooting_plan (rooting (me_of self.old.of self.old.account) block) self.old self.new life.old.left life.new.left result }
    {
        let Some(me) = self.alive() else {
            return Reply::Died;
        };
        self.run_plan(pool, life, Share::new(me, block))
    }

    /// Makes reference word `k` of `block` name the block `to`, or none where that is 0; both are in reach, and the pool is one for single calls.
    /// What the word alone named is freed. `NotAuthor` where the block is another client's, `NoSuchRef` where it has no such word, `NotHeld`
    /// where the client doesn't hold its own latch, `EraSpent`, and `CountFull` where 1,023 references name `to`.
    pub fn set_ref(
        &mut self,
        pool: &SharedPool,
        life: &mut Life,
        block: u32,
        k: u8,
        to: u32,
    ) -> Reply<Result<(), SetFault>>
        requires pool { self.old.of ≡ pool.now }
        requires between { self.old.dead ≡ false → IsBetween self.old.account }
        requires single { self.old.dead ≡ false → is_loose self.old.account.memo.part ≡ true }
        requires reached { self.old.dead ≡ false → is_reached self.old.account.who self.old.account.memo block ≡ true }
        requires target { self.old.dead ≡ false → to ≢ 0 → is_reached self.old.account.who self.old.account.memo to ≡ true }
        ensures called { HasCalled set_parts set_plan (setting (me_of self.old.of self.old.account) block k to) self.old self.new life.old.left life.new.left result }
    {
        let Some(me) = self.alive() else {
            return Reply::Died;
        };
        self.run_plan(pool, life, SetRef::new(me, block, k, to))
    }

    /// Makes the home of the client name `block`, which is in reach, where it names none; `HomeSet` where it names a block, `EraSpent`, and
    /// `CountFull` where 1,023 references name the block. In a pool for tables the block has to be a directory.
    pub fn set_home(
        &mut self,
        pool: &SharedPool,
        life: &mut Life,
        block: u32,
    ) -> Reply<Result<(), HomeFault>>
        requires pool { self.old.of ≡ pool.now }
        requires between { self.old.dead ≡ false → IsBetween self.old.account }
        requires reached { self.old.dead ≡ false → is_reached self.old.account.who self.old.account.memo block ≡ true }
        requires keeps { self.old.dead ≡ false → own_word self.old.account.memo.own (Home self.old.account.who) ≡ 0 → KeepsPart self.old.of.start.geometry.wide self.old.account.who self.old.account.memo (Up block) (Home self.old.account.who) }
        ensures called { HasCalled home_parts home_plan (homing (me_of self.old.of self.old.account) block) self.old self.new life.old.left life.new.left result }
    {
        let Some(me) = self.alive() else {
            return Reply::Died;
        };
        self.run_plan(pool, life, SetHome::new(me, block))
    }

    /// Makes root `k` empty, 0 to 15, and frees what it alone named; whether it named a block. `EraSpent` where the own era leaves no room for a
    /// step that is to be made.
    pub fn drop_root(
        &mut self,
        pool: &SharedPool,
        life: &mut Life,
        k: u8,
    ) -> Reply<Result<bool, EraSpent>>
        requires pool { self.old.of ≡ pool.now }
        requires between { self.old.dead ≡ false → IsBetween self.old.account }
        requires root { self.old.dead ≡ false → k < 16 }
        ensures called { HasCalled drop_parts drop_plan (dropping (me_of self.old.of self.old.account) k) self.old self.new life.old.left life.new.left result }
    {
        let Some(me) = self.alive() else {
            return Reply::Died;
        };
        self.run_plan(pool, life, DropRoot::new(me, k))
    }

    /// Sends `block`, which is in reach and in a pool for tables a value block, to the client `to`, another one, for which no block waits that
    /// was sent and not published; answers the number of blocks that were sent to it before. `QueueFull` where 8 wait there, `EraSpent`, and
    /// `CountFull` where 1,023 references name the block.
    pub fn send(
        &mut self,
        pool: &SharedPool,
        life: &mut Life,
        to: u8,
        block: u32,
    ) -> Reply<Result<u64, SendFault>>
        requires pool { self.old.of ≡ pool.now }
        requires between { self.old.dead ≡ false → IsBetween self.old.account }
        requires to { self.old.dead ≡ false → (to < self.old.of.start.geometry.clients) × (self.old.account.who ≢ to) }
        requires reached { self.old.dead ≡ false → is_reached self.old.account.who self.old.account.memo block ≡ true }
        requires value { self.old.dead ≡ false → is_loose self.old.account.memo.part ≡ false → Contains self.old.account.memo.values block }
        requires unsent { self.old.dead ≡ false → slice_index self.old.account.memo.unsent to ≡ 0 }
        ensures called { HasCalled send_parts send_plan (sending (me_of self.old.of self.old.account) to block) self.old self.new life.old.left life.new.left result }
    {
        let Some(me) = self.alive() else {
            return Reply::Died;
        };
        self.run_plan(pool, life, Send::new(me, to, block))
    }

    /// Takes the first block that waits from the client `from`, another one, of which no item was taken without its head; it answers the root
    /// that names the block then. `Empty` where none waits, `EraSpent`, `RootsFull` where all 16 roots name blocks, and `CountFull` where 1,023
    /// references name the block.
    pub fn receive(
        &mut self,
        pool: &SharedPool,
        life: &mut Life,
        from: u8,
    ) -> Reply<Result<Made, PeekFault>>
        requires pool { self.old.of ≡ pool.now }
        requires between { self.old.dead ≡ false → IsBetween self.old.account }
        requires from { self.old.dead ≡ false → (from < self.old.of.start.geometry.clients) × (from ≢ self.old.account.who) }
        requires untaken { self.old.dead ≡ false → slice_index self.old.account.memo.untaken from ≡ 0 }
        ensures called { HasCalled receive_parts receive_plan (receiving (me_of self.old.of self.old.account) from) self.old self.new life.old.left life.new.left result }
    {
        let Some(me) = self.alive() else {
            return Reply::Died;
        };
        self.run_plan(pool, life, Receive::new(me, from))
    }

    /// Takes all that waits for the client, and frees what nothing else names; how many blocks that were. `EraSpent` where the own era leaves no
    /// room for a step that is to be made: what was taken stays so.
    pub fn drain(&mut self, pool: &SharedPool, life: &mut Life) -> Reply<Result<u64, EraSpent>>
        requires pool { self.old.of ≡ pool.now }
        requires between { self.old.dead ≡ false → IsBetween self.old.account }
        requires untaken { self.old.dead ≡ false → (s : ℕ) → slice_index self.old.account.memo.untaken s ≡ 0 }
        ensures called { HasCalled drain_parts drain_plan (draining (me_of self.old.of self.old.account)) self.old self.new life.old.left life.new.left result }
    {
        let Some(me) = self.alive() else {
            return Reply::Died;
        };
        self.run_plan(pool, life, Drain::new(me))
    }
}
