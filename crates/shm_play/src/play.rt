//! What plays the agents of a script.

ghost use Rattle.std.specs.Prelude.{◌≡◌, ◌+◌, ◌<◌, ◌^◌, ℕ, true, false, Some, length, IfOk};
ghost use Rattle.shm_words.specs.Layout.{GeometryFits};
ghost use Rattle.shm_graph.specs.{declared.run.Start.Start as AStart, Agents.acts, Runs.{account_at, first_account}};
ghost use Rattle.shm_graph.specs.Laws.{step_of};
ghost use Rattle.shm_plain.specs.Pools.{IsRun};
ghost use Rattle.shm_script.specs.Ranges.{ScriptFits};
ghost use Rattle.shm_agents.specs.Agents.{Playing, AgentsStand, is_client, is_command, logged};
ghost use Rattle.shm_agents.specs.{Cuts.{IsCut, account_cut}, Rows.AreTurns, TurnsLeft.{turns_by, turns_given}};
ghost use Rattle.shm_agents.specs.Work.{work_control};

use shm_agents::agents::Standing;
use shm_graph::Me;
use shm_plain::{PlainPool, Workplace};
use shm_script::{Log, Script};
use std::alloc::{AllocError, Global};

/// The agents of a script, one after the other. What takes them by this bound is proved without what they are made of.
pub trait Play: Drop {
    /// What contracts see of them.
    ghost playing: { Self → Playing };

    /// The agents of the identity `me` that has this script, before their first word step. There is room for an answer to each command.
    fn new(alloc: Global, me: Me, at: usize, script: &Script) -> Result<Self, AllocError>
        requires geometry { GeometryFits me.geometry }
        requires who { me.who < me.geometry.clients }
        ensures me { IfOk result (λ x. (playing x).me ≡ me) }
        ensures script { IfOk result (λ x. (playing x).script ≡ at) }
        ensures here { IfOk result (λ x. (playing x).standing ≡ Standing.AtWork) }
        ensures stands { IfOk result (λ x. (start : AStart) → start.geometry ≡ me.geometry → start.first_era < 2 ^ 46 → start.tables ≡ true → script.now.client ≡ me.who → ScriptFits me.geometry.clients script.now → AgentsStand start script.now (playing x) (first_account start me.who)) };

    /// Which of the scripts is theirs.
    fn script(&self) -> usize
        ensures { result ≡ (playing self.now).script };

    /// How they stand.
    fn standing(&self) -> Standing
        ensures { result ≡ (playing self.now).standing };

    /// Whether the client is at work.
    fn is_client(&self) -> bool
        ensures { result ≡ is_client (playing self.now) };

    /// Whose agents they are.
    fn client(&self) -> u8
        ensures { result ≡ (playing self.now).me.who };

    /// Whether a command is what they are at.
    fn is_at_command(&self) -> bool
        ensures { result ≡ is_command (playing self.now).work };

    /// How many of the commands have answered, or had their effect.
    fn answered(&self) -> usize
        ensures { result ≡ length (playing self.now).entries };

    /// A turn of theirs: the agent makes one word step, or where it has none left it dies.
    fn turn<W: Workplace>(&mut self, script: &Script, pool: &mut W)
        requires has { W.has pool.old (playing self.old).me.who }
        requires stands { AgentsStand (W.start pool.old) script.now (playing self.old) (W.account pool.old (playing self.old).me.who) }
        requires here { (playing self.old).standing ≡ Standing.AtWork }
        ensures start { W.start pool.new ≡ W.start pool.old }
        ensures has { W.has pool.new (playing self.old).me.who }
        ensures stepped { 0 < (playing self.old).life.left → (n : ℕ) × W.stepped pool.old (step_of work_control (playing self.old).work n) pool.new }
        ensures fell { (playing self.old).life.left ≡ 0 → W.fell pool.old (playing self.old).me.who pool.new }
        ensures me { (playing self.new).me ≡ (playing self.old).me }
        ensures script { (playing self.new).script ≡ (playing self.old).script }
        ensures stands { AgentsStand (W.start pool.new) script.now (playing self.new) (W.account pool.new (playing self.old).me.who) }
        ensures given { turns_given (W.account pool.new (playing self.old).me.who) ≡ turns_given (W.account pool.old (playing self.old).me.who) + 1 }
        ensures turns { turns_by (playing self.new) (Some script.now) < turns_by (playing self.old) (Some script.now) };

    /// Turns of theirs in a pool in a vector, one after the other: word steps until what the agent runs has answered or it has none left,
    /// or where it had none left its death.
    fn turns(&mut self, script: &Script, pool: &mut PlainPool)
        requires run { IsRun pool.old }
        requires who { (playing self.old).me.who < pool.old.start.geometry.clients }
        requires stands { AgentsStand pool.old.start script.now (playing self.old) (account_at pool.old.accounts (playing self.old).me.who) }
        requires here { (playing self.old).standing ≡ Standing.AtWork }
        ensures row { (n : ℕ) × AreTurns script.now n pool.old (playing self.old) pool.new (playing self.new) }
        ensures turns { turns_by (playing self.new) (Some script.now) < turns_by (playing self.old) (Some script.now) };

    /// They are given up: the agent that acts dies, whatever it has left of its life, and no other one comes. Where none acts nothing changes
    /// but that the log says how the client ended.
    ///
    /// It tells whether one of them had begun.
    fn cut<W: Workplace>(&mut self, script: &Script, pool: &mut W) -> bool
        requires has { W.has pool.old (playing self.old).me.who }
        requires stands { AgentsStand (W.start pool.old) script.now (playing self.old) (W.account pool.old (playing self.old).me.who) }
        requires here { (playing self.old).standing ≡ Standing.AtWork }
        ensures start { W.start pool.new ≡ W.start pool.old }
        ensures has { W.has pool.new (playing self.old).me.who }
        ensures account { W.account pool.new (playing self.old).me.who ≡ account_cut (W.account pool.old (playing self.old).me.who) }
        ensures fell { acts (W.account pool.old (playing self.old).me.who).memo ≡ true → W.fell pool.old (playing self.old).me.who pool.new }
        ensures still { acts (W.account pool.old (playing self.old).me.who).memo ≡ false → pool.new ≡ pool.old }
        ensures same { ((playing self.new).me ≡ (playing self.old).me) × ((playing self.new).script ≡ (playing self.old).script) × ((playing self.new).standing ≡ Standing.Dead) }
        ensures cut { IsCut result script.now (playing self.new) (W.account pool.new (playing self.old).me.who) };

    /// The log of the client.
    fn log(self) -> Log
        ensures { result ≡ logged (playing self) };
}
