//! The agents of a script, whatever plays them.

ghost use Rattle.std.specs.Prelude.{◌≡◌, ◌+◌, ◌<◌, ◌^◌, ℕ, true, false, Some, length, IfOk};
ghost use Rattle.shm_words.specs.Layout.{GeometryFits};
ghost use Rattle.shm_graph.specs.{declared.run.Start.Start as AStart, Agents.acts, Runs.{account_at, first_account}};
ghost use Rattle.shm_graph.specs.Laws.{step_of};
ghost use Rattle.shm_plain.specs.Pools.{IsRun};
ghost use Rattle.shm_script.specs.Ranges.{ScriptFits};
ghost use Rattle.shm_agents.specs.{Agents.{AgentsStand, is_client, is_command, logged}, Cuts.{IsCut, account_cut}};
ghost use Rattle.shm_agents.specs.{Rows.AreTurns, TurnsLeft.{turns_by, turns_given}, Work.work_control};

use crate::play::Play;
use shm_agents::agents::Standing;
use shm_graph::Me;
use shm_plain::{PlainPool, Workplace};
use shm_script::{Log, Script};
use std::alloc::{AllocError, Global};
use std::marker::Model;

/// The agents of a script, whoever plays them: contracts see what `Play` shows of them.
#[derive(Drop)]
pub struct Players<A: Play> {
    agents: A,
}

impl<A: Play> Model for Players<A> {
    ghost use Rattle.shm_agents.specs.Agents.{Playing};

    ghost Value = { Playing };

    ghost view = { λ x. A.playing x.agents };
}

impl<A: Play> Players<A> {
    /// The agents of the identity `me` that has this script, before their first word step. There is room for an answer to each command.
    #[inline(always)]
    pub fn new(alloc: Global, me: Me, at: usize, script: &Script) -> Result<Players<A>, AllocError>
        requires geometry { GeometryFits me.geometry }
        requires who { me.who < me.geometry.clients }
        ensures me { IfOk result (λ x. x.me ≡ me) }
        ensures script { IfOk result (λ x. x.script ≡ at) }
        ensures here { IfOk result (λ x. x.standing ≡ Standing.AtWork) }
        ensures stands { IfOk result (λ x. (start : AStart) → start.geometry ≡ me.geometry → start.first_era < 2 ^ 46 → start.tables ≡ true → script.now.client ≡ me.who → ScriptFits me.geometry.clients script.now → AgentsStand start script.now x (first_account start me.who)) }
    {
        Ok(Players {
            agents: A::new(alloc, me, at, script)?,
        })
    }

    /// Which of the scripts is theirs.
    #[inline(always)]
    pub fn script(&self) -> usize
        ensures { result ≡ self.now.script }
    {
        self.agents.script()
    }

    /// How they stand.
    #[inline(always)]
    pub fn standing(&self) -> Standing
        ensures { result ≡ self.now.standing }
    {
        self.agents.standing()
    }

    /// Whether the client is at work.
    #[inline(always)]
    pub fn is_client(&self) -> bool
        ensures { result ≡ is_client self.now }
    {
        self.agents.is_client()
    }

    /// Whose agents they are.
    #[inline(always)]
    pub fn client(&self) -> u8
        ensures { result ≡ self.now.me.who }
    {
        self.agents.client()
    }

    /// Whether a command is what they are at.
    #[inline(always)]
    pub fn is_at_command(&self) -> bool
        ensures { result ≡ is_command self.now.work }
    {
        self.agents.is_at_command()
    }

    /// How many of the commands have answered, or had their effect.
    #[inline(always)]
    pub fn answered(&self) -> usize
        ensures { result ≡ length self.now.entries }
    {
        self.agents.answered()
    }

    /// A turn of theirs: the agent makes one word step, or where it has none left it dies.
    #[inline(always)]
    pub fn turn<W: Workplace>(&mut self, script: &Script, pool: &mut W)
        requires has { W.has pool.old self.old.me.who }
        requires stands { AgentsStand (W.start pool.old) script.now self.old (W.account pool.old self.old.me.who) }
        requires here { self.old.standing ≡ Standing.AtWork }
        ensures start { W.start pool.new ≡ W.start pool.old }
        ensures has { W.has pool.new self.old.me.who }
        ensures stepped { 0 < self.old.life.left → (n : ℕ) × W.stepped pool.old (step_of work_control self.old.work n) pool.new }
        ensures fell { self.old.life.left ≡ 0 → W.fell pool.old self.old.me.who pool.new }
        ensures me { self.new.me ≡ self.old.me }
        ensures script { self.new.script ≡ self.old.script }
        ensures stands { AgentsStand (W.start pool.new) script.now self.new (W.account pool.new self.old.me.who) }
        ensures given { turns_given (W.account pool.new self.old.me.who) ≡ turns_given (W.account pool.old self.old.me.who) + 1 }
        ensures turns { turns_by self.new (Some script.now) < turns_by self.old (Some script.now) }
    {
        self.agents.turn(script, pool)
    }

    /// Turns of theirs in a pool in a vector, one after the other: word steps until what the agent runs has answered or it has none left,
    /// or where it had none left its death.
    #[inline(always)]
    pub fn turns(&mut self, script: &Script, pool: &mut PlainPool)
        requires run { IsRun pool.old }
        requires who { self.old.me.who < pool.old.start.geometry.clients }
        requires stands { AgentsStand pool.old.start script.now self.old (account_at pool.old.accounts self.old.me.who) }
        requires here { self.old.standing ≡ Standing.AtWork }
        ensures row { (n : ℕ) × AreTurns script.now n pool.old self.old pool.new self.new }
        ensures turns { turns_by self.new (Some script.now) < turns_by self.old (Some script.now) }
    {
        self.agents.turns(script, pool)
    }

    /// They are given up: the agent that acts dies, whatever it has left of its life, and no other one comes. Where none acts nothing changes
    /// but that the log says how the client ended.
    ///
    /// It tells whether one of them had begun.
    #[inline(always)]
    pub fn cut<W: Workplace>(&mut self, script: &Script, pool: &mut W) -> bool
        requires has { W.has pool.old self.old.me.who }
        requires stands { AgentsStand (W.start pool.old) script.now self.old (W.account pool.old self.old.me.who) }
        requires here { self.old.standing ≡ Standing.AtWork }
        ensures start { W.start pool.new ≡ W.start pool.old }
        ensures has { W.has pool.new self.old.me.who }
        ensures account { W.account pool.new self.old.me.who ≡ account_cut (W.account pool.old self.old.me.who) }
        ensures fell { acts (W.account pool.old self.old.me.who).memo ≡ true → W.fell pool.old self.old.me.who pool.new }
        ensures still { acts (W.account pool.old self.old.me.who).memo ≡ false → pool.new ≡ pool.old }
        ensures same { (self.new.me ≡ self.old.me) × (self.new.script ≡ self.old.script) × (self.new.standing ≡ Standing.Dead) }
        ensures cut { IsCut result script.now self.new (W.account pool.new self.old.me.who) }
    {
        self.agents.cut(script, pool)
    }

    /// The log of the client.
    #[inline(always)]
    pub fn log(self) -> Log
        ensures { result ≡ logged self }
    {
        self.agents.log()
    }
}
