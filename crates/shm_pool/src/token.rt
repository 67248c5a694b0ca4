//! Tokens of one identity each.

ghost use Rattle.std.specs.Prelude.{◌≡◌, ◌+◌, ◌<◌, ◌↔◌, ◌⊎◌, true, false, IfOk, IfErr, is_err, is_ok};
ghost use Rattle.shm_words.specs.Layout.{GeometryFits};
ghost use Rattle.shm_graph.specs.{declared.memo.{Kind.TheVariants.Client as AClient, Memo.Memo}, Agents.recovers};
ghost use Rattle.shm_graph.specs.{Core.core, Laws.is_died, Runs.{account_entered, Stood}, Whole.{fits_now, gives_now}};
ghost use Rattle.shm_recover.specs.Join.{JoinGives, join_control, join_fresh, join_line};
ghost use Rattle.shm_pool.specs.Calls.{CallSteps, ClientStepped, Drives, IsBetween, TellsLine, StillFits, shown};
ghost use Rattle.shm_pool.specs.{Doing.HasDone, Tokens.{has_left, me_of, live, IsFor, IsOut, IsServing}};
ghost use Rattle.shm_pool.specs.{Replies.{IsLost, IfReply, is_reply}, Endings.ClientMayLeave};
ghost use Rattle.shm_pool.specs.declared.token.Cause.TheVariants as cause;

use crate::ending::stop;
use crate::pool::SharedPool;
use crate::reply::Reply;
use crate::rule::Place;
use crate::steps::{note_client, run_place, step_place};
use plans::Begin;
use shm_graph::{Life, Machine, Me, Operation, Start, Turn};
use shm_recover::Join;
use shm_script::Answer;
use std::marker::Model;

/// An identity with no agent.
#[derive(Drop)]
pub struct Vacant {
    pub(crate) place: Place,
    pub(crate) start: Start,
    pub(crate) who: u8,
}

impl Model for Vacant {
    ghost use Rattle.shm_pool.specs.Rules.{alone};
    ghost use Rattle.shm_pool.specs.Tokens.{Token, token_of, IsSeated, IsStill};

    ghost Value = { Token };

    ghost view = { λ t. token_of t.start t.place };

    ghost invariant = { λ t. IsSeated t.start t.who t.place × IsStill (alone t.place).memo };
}

/// An identity with a client.
#[derive(Drop)]
pub struct Client {
    pub(crate) place: Place,
    pub(crate) start: Start,
    pub(crate) who: u8,
    pub(crate) dead: bool,
    /// What the command in which it died was going to answer, where its deciding step was made.
    pub(crate) effect: Option<Answer>,
}

impl Model for Client {
    ghost use Rattle.std.specs.Prelude.{◌≡◌, false, None};
    ghost use Rattle.shm_pool.specs.Rules.{alone};
    ghost use Rattle.shm_pool.specs.Tokens.{Acting, acting_of, IsSeated, IsServing};

    ghost Value = { Acting };

    ghost view = { λ t. acting_of t.start t.dead t.effect t.place };

    ghost invariant = { λ t. IsSeated t.start t.who t.place × IsServing t.dead (alone t.place).memo × (t.dead ≡ false → t.effect ≡ None) };
}

/// An identity whose agent has fallen, or never took a step.
#[derive(Drop)]
pub struct Corpse {
    pub(crate) place: Place,
    pub(crate) start: Start,
    pub(crate) who: u8,
    pub(crate) begun: bool,
}

impl Model for Corpse {
    ghost use Rattle.shm_pool.specs.Rules.{alone};
    ghost use Rattle.shm_pool.specs.Tokens.{Token, token_of, IsSeated, IsFallen};

    ghost Value = { Token };

    ghost view = { λ t. token_of t.start t.place };

    ghost invariant = { λ t. IsSeated t.start t.who t.place × IsFallen t.begun (alone t.place).memo };
}

/// Why a call that takes a token gave a corpse.
#[derive(Drop)]
pub enum Cause {
    /// No word step was left before its machine had answered, or a call of the client had died before.
    Died,
    /// The machine answered so: `era` is the own era that it read.
    EraSpent { era: u64 },
}

/// A call that took a token and left an identity that is still there.
#[derive(Drop)]
pub struct Stopped {
    pub corpse: Corpse,
    pub cause: Cause,
}

impl Vacant {
    /// Which identity it is.
    pub fn client(&self) -> u8
        ensures is { result ≡ self.now.account.who }
        ensures below { result < self.now.of.start.geometry.clients }
        ensures out { IsOut self.now.account.memo }
        ensures stood { Stood self.now.of.start self.now.account }
    {
        self.who
    }

    /// Makes the identity live, in one word step, and begins its client with it: that needs one word step of its life, and with it answers. With no life
    /// left no agent begins.
    ///
    /// An identity that was gone has the eras, the queues and the home that it had: of its memo nothing changes but the status, the
    /// call and the agents. A client that has joined may leave.
    ///
    /// # Errors
    ///
    /// `Died` where no life is left.
    pub fn join(self, pool: &SharedPool, life: &mut Life) -> Result<Client, Stopped>
        requires pool { self.of ≡ pool.now }
        ensures same { IfOk result (λ c. (c.of ≡ self.of) × (c.account.who ≡ self.account.who) × (c.dead ≡ false)) }
        ensures gives { IfOk result (λ c. JoinGives (join_fresh (me_of self.of self.account)) (account_entered AClient self.account).memo c.account.memo c.account.memo.call tt) }
        ensures stood { IfOk result (λ c. Stood c.of.start c.account) }
        ensures told { IfOk result (λ c. TellsLine join_line (account_entered AClient self.account) c.account) }
        ensures call { IfOk result (λ c. CallSteps (shown join_control (join_fresh (me_of self.of self.account))) (account_entered AClient self.account) c.account true life.old.left life.new.left) }
        ensures keeps { IfOk result (λ c. core c.account.memo ≡ core (live self.account.memo)) }
        ensures leaves { IfOk result (λ c. ClientMayLeave c.of c.account) }
        ensures lives { 0 < life.old.left → is_ok result ≡ true }
        ensures err { IfErr result (λ s. (s.cause ≡ cause.Died) × (s.corpse.of ≡ self.of) × (s.corpse.account.who ≡ self.account.who) × (life.new.left ≡ 0)) }
        ensures unbegun { life.old.left ≡ 0 → (is_err result ≡ true) × IfErr result (λ s. (s.corpse ≡ self) × (life.new ≡ life.old)) }
    {
        let Vacant {
            mut place,
            start,
            who,
        } = self;
        if life.left == 0 {
            return Err(stop(place, start, who, false, Cause::Died));
        }
        note_client(pool.top(), &mut place);
        let mut machine = Join::new(Me::new(start.geometry, who));
        match run_place(pool.top(), &mut place, &mut machine, life) {
            Some(()) => Ok(Client {
                place,
                start,
                who,
                dead: false,
                effect: None,
            }),
            None => Err(stop(place, start, who, true, Cause::Died)),
        }
    }
}

impl Client {
    /// Which identity it is; and its account is one of a state that holds. The agent acts until it has left.
    pub fn client(&self) -> u8
        ensures is { result ≡ self.now.account.who }
        ensures below { result < self.now.of.start.geometry.clients }
        ensures stood { Stood self.now.of.start self.now.account }
        ensures serves { IsServing self.now.dead self.now.account.memo }
    {
        self.who
    }

    /// The identity in its pool, which machines ask for; it is a client's, and its account is one of a state that holds.
    pub fn me(&self) -> Me
        ensures is { result ≡ me_of self.now.of self.now.account }
        ensures fits { GeometryFits result.geometry }
        ensures who { result.who < result.geometry.clients }
        ensures stood { Stood self.now.of.start self.now.account }
        ensures kind { recovers self.now.account.memo ≡ false }
    {
        Me::new(self.start.geometry, self.who)
    }

    /// One word step of a machine, unless no life is left or a call of this client has died.
    #[inline(always)]
    pub fn step<M: Machine>(
        &mut self,
        pool: &SharedPool,
        m: &mut M,
        life: &mut Life,
    ) -> Turn<M::Answer>
        requires pool { self.old.of ≡ pool.now }
        requires machine { self.old.dead ≡ false → IsFor self.old.of self.old.account M.control m.old }
        requires fits { self.old.dead ≡ false → (r0 : Memo) × fits_now M.control M.fits m.old r0 self.old.account.memo }
        ensures same { (self.new.of ≡ self.old.of) × (self.new.account.who ≡ self.old.account.who) }
        ensures stood { Stood self.new.of.start self.new.account }
        ensures died { is_died result ≡ true ↔ ((life.old.left ≡ 0) ⊎ (self.old.dead ≡ true)) }
        ensures stays { is_died result ≡ true → (self.new.account ≡ self.old.account) × (m.new ≡ m.old) × (life.new ≡ life.old) × (self.new.dead ≡ true) }
        ensures effect { self.new.effect ≡ self.old.effect }
        ensures turn { (0 < life.old.left) → (self.old.dead ≡ false) → (life.new.left + 1 ≡ life.old.left) × (self.new.dead ≡ false) × ClientStepped M.control (fits_now M.control M.fits) (gives_now M.gives) m.old self.old.account self.new.account result m.new }
    {
        if self.dead {
            return Turn::Died;
        }
        match step_place(pool.top(), &mut self.place, m, life) {
            Turn::More => Turn::More,
            Turn::Done(answer) => Turn::Done(answer),
            Turn::Died => {
                self.dead = true;
                Turn::Died
            }
        }
    }

    /// The steps of a machine until it is finished or no life is left.
    pub fn drive<M: Machine>(
        &mut self,
        pool: &SharedPool,
        m: &mut M,
        life: &mut Life,
    ) -> Reply<M::Answer>
        requires pool { self.old.of ≡ pool.now }
        requires machine { self.old.dead ≡ false → IsFor self.old.of self.old.account M.control m.old }
        requires fits { self.old.dead ≡ false → fits_now M.control M.fits m.old self.old.account.memo self.old.account.memo }
        ensures same { (self.new.of ≡ self.old.of) × (self.new.account.who ≡ self.old.account.who) }
        ensures stood { Stood self.new.of.start self.new.account }
        ensures died { IsLost result ↔ (self.new.dead ≡ true) }
        ensures again { self.old.dead ≡ true → IsLost result × (self.new ≡ self.old) × (m.new ≡ m.old) × (life.new ≡ life.old) }
        ensures spent { self.old.dead ≡ false → IsLost result → life.new.left ≡ 0 }
        ensures call { self.old.dead ≡ false → Drives M.control M.fits m.old m.new self.old.account self.new.account (is_reply result) life.old.left life.new.left }
        ensures told { M.control.fresh m.old ≡ true → IfReply result (λ _. TellsLine (M.control.line m.old) self.old.account self.new.account) }
        ensures gives { IfReply result (gives_now M.gives m.old self.old.account.memo self.new.account.memo) }
        ensures cut { self.old.dead ≡ false → IsLost result → StillFits M.control (fits_now M.control M.fits) m.new self.old.account.memo self.new.account.memo }
        ensures effect { self.new.effect ≡ self.old.effect }
    {
        if self.dead {
            return Reply::Died;
        }
        match run_place(pool.top(), &mut self.place, m, life) {
            Some(answer) => Reply::Done(answer),
            None => {
                self.dead = true;
                Reply::Died
            }
        }
    }

    /// Runs an operation of the client, or what is made of a plan, until it answers, or no life is left. Where it rests in its answer the
    /// client is between two calls again; where it left the identity gone the client has left.
    pub fn run<B: Begin>(
        &mut self,
        pool: &SharedPool,
        begins: B,
        life: &mut Life,
    ) -> Reply<<B::Op as Machine>::Answer>
        requires pool { self.old.of ≡ pool.now }
        requires between { self.old.dead ≡ false → IsBetween self.old.account }
        requires me { B.Op.control.me (B.op begins) ≡ me_of self.old.of self.old.account }
        requires may { self.old.dead ≡ false → B.Op.may (B.op begins) self.old.account.memo }
        ensures done { HasDone B.Op.control B.Op.does B.Op.leaves B.Op.rests (B.op begins) self.old self.new life.old.left life.new.left result }
        ensures effect { self.new.effect ≡ self.old.effect }
    {
        self.operate(pool, begins.begin(), life)
    }

    /// Runs an operation, before its first word step.
    fn operate<O: Operation + Drop>(
        &mut self,
        pool: &SharedPool,
        mut operation: O,
        life: &mut Life,
    ) -> Reply<O::Answer>
        requires pool { self.old.of ≡ pool.now }
        requires between { self.old.dead ≡ false → IsBetween self.old.account }
        requires me { O.control.me operation ≡ me_of self.old.of self.old.account }
        requires may { self.old.dead ≡ false → O.may operation self.old.account.memo }
        ensures done { HasDone O.control O.does O.leaves O.rests operation self.old self.new life.old.left life.new.left result }
        ensures effect { self.new.effect ≡ self.old.effect }
    {
        self.run_on(pool, &mut operation, life)
    }

    /// Runs an operation so, and leaves it where it is.
    pub(crate) fn run_on<O: Operation>(
        &mut self,
        pool: &SharedPool,
        operation: &mut O,
        life: &mut Life,
    ) -> Reply<O::Answer>
        requires pool { self.old.of ≡ pool.now }
        requires between { self.old.dead ≡ false → IsBetween self.old.account }
        requires me { O.control.me operation.old ≡ me_of self.old.of self.old.account }
        requires may { self.old.dead ≡ false → O.may operation.old self.old.account.memo }
        ensures done { HasDone O.control O.does O.leaves O.rests operation.old self.old self.new life.old.left life.new.left result }
        ensures driven { self.old.dead ≡ false → Drives O.control O.fits operation.old operation.new self.old.account self.new.account (is_reply result) life.old.left life.new.left }
        ensures cut { self.old.dead ≡ false → IsLost result → StillFits O.control (fits_now O.control O.fits) operation.new self.old.account.memo self.new.account.memo }
        ensures effect { self.new.effect ≡ self.old.effect }
    {
        // for the proof: the account stood
        self.client();
        self.drive(pool, operation, life)
    }

    /// The agent is dead: its death is noted before the next one begins.
    pub fn fall(self) -> Corpse
        requires { self.dead ≡ false → has_left self.account.memo ≡ false }
        ensures { (result.of ≡ self.of) × (result.account ≡ self.account) }
    {
        let Client {
            place,
            start,
            who,
            dead: _,
            effect: _,
        } = self;
        Corpse {
            place,
            start,
            who,
            begun: true,
        }
    }
}
