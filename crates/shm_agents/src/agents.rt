//! The agents of a script, wherever they work.

ghost use Rattle.std.specs.Prelude.{◌≡◌, ◌+◌, ◌<◌, ◌≤◌, ◌^◌, ◌++◌, ℕ, true, false, Some, [], ◌∷◌, length, slice_get, IfOk};
ghost use Rattle.std.specs.Option.{is_some};
ghost use Rattle.shm_words.specs.Layout.{GeometryFits};
ghost use Rattle.shm_graph.specs.{declared.run.Start.Start as AStart, Agents.acts, Runs.{account_at, first_account}};
ghost use Rattle.shm_graph.specs.Laws.{step_of};
ghost use Rattle.shm_plain.specs.Pools.{IsRun};
ghost use Rattle.shm_script.specs.{declared.{line.Line.Line as ALine, log.End.TheVariants.Died}, Ranges.ScriptFits};
ghost use Rattle.shm_table.specs.Command.{LineMayStand};
ghost use Rattle.shm_agents.specs.Agents.{AgentsStand, behind, follows, is_client, is_command, logged, shown_by};
ghost use Rattle.shm_agents.specs.{Cuts.{IsCut, account_cut}, Logs.with_effect, TurnsLeft.{turns_by, turns_given}};
ghost use Rattle.shm_agents.specs.{Rows.{AreTurns, HasGoneOn, MayGoOn}, Turns.lives_of, Work.work_control};
ghost use Rattle.shm_agents.specs.Work as work;

use crate::piece::{Outcome, Piece};
use crate::work::Work;
use plans::Or;
use shm_graph::{Life, Me, Turn};
use shm_plain::{PlainPool, Workplace};
use shm_script::{Answer, End, Entry, Line, Log, Script};
use shm_table::command_maps;
use std::alloc::{AllocError, Global};
use std::marker::Model;

/// How many word steps an agent makes at most that has no number in a life line.
const LIFE: u64 = 1 << 40;

/// How the agents of a script stand.
#[derive(Clone, Copy, Debug, PartialEq, Eq, Drop)]
pub enum Standing {
    /// One of them acts, or comes next.
    AtWork,
    /// The identity is gone: its client left, or a recoverer recovered it.
    Gone,
    /// All of them died.
    Dead,
}

/// The agents of a script, one after the other: a client that joins, runs the commands in order, and leaves; and where it dies recoverers,
/// each of which begins where the one before it died.
#[derive(Drop)]
pub struct Agents<P: Piece> {
    me: Me,
    /// Which of the scripts is theirs.
    script: usize,
    /// The number of the one that acts, or comes next: the client's is 0.
    agent: usize,
    /// What it runs, or ran last.
    work: Work<P>,
    life: Life,
    /// The commands that have answered, and the one that had its effect where the client died in it.
    entries: Vec<Entry>,
    /// How the client ended, if it has.
    end: Option<End>,
    standing: Standing,
}

impl<P: Piece> Model for Agents<P> {
    ghost use Rattle.std.specs.Prelude.{vec_capacity};
    ghost use Rattle.shm_agents.specs.Agents.{Playing};

    ghost Value = { Playing };

    ghost view = { λ x. record { me = x.me; script = x.script; agent = x.agent; work = x.work; life = x.life; entries = x.entries.items; room = vec_capacity x.entries; end = x.end; standing = x.standing } };
}

/// The word steps of the agent with this number, of a script with this life line.
fn life_at(life: &[u64], agent: usize) -> Option<u64>
    ensures { result ≡ slice_get (lives_of life.now) agent }
{
    if agent < life.len() {
        return Some(life[agent]);
    }
    let last = if life.is_empty() { 1 } else { life.len() };
    if agent <= last { Some(LIFE) } else { None }
}

impl<P: Piece> Agents<P> {
    /// The agents of the identity `me` that has this script, before their first word step. There is room for an answer to each command.
    pub fn new(alloc: Global, me: Me, at: usize, script: &Script) -> Result<Agents<P>, AllocError>
        requires geometry { GeometryFits me.geometry }
        requires who { me.who < me.geometry.clients }
        ensures me { IfOk result (λ x. x.me ≡ me) }
        ensures script { IfOk result (λ x. x.script ≡ at) }
        ensures here { IfOk result (λ x. x.standing ≡ Standing.AtWork) }
        ensures stands { IfOk result (λ x. (start : AStart) → start.geometry ≡ me.geometry → start.first_era < 2 ^ 46 → start.tables ≡ true → script.now.client ≡ me.who → ScriptFits me.geometry.clients script.now → AgentsStand start script.now x (first_account start me.who)) }
    {
        let life = life_at(script.life.as_slice(), 0).unwrap();
        Ok(Agents {
            me,
            script: at,
            agent: 0,
            work: Work::joining(me),
            life: Life::of(life),
            entries: Vec::with_capacity(alloc, script.lines.len())?,
            end: None,
            standing: Standing::AtWork,
        })
    }

    /// Which of the scripts is theirs.
    pub fn script(&self) -> usize
        ensures { result ≡ self.now.script }
    {
        self.script
    }

    /// How they stand.
    pub fn standing(&self) -> Standing
        ensures { result ≡ self.now.standing }
    {
        self.standing
    }

    /// Whether the client is at work.
    pub fn is_client(&self) -> bool
        ensures { result ≡ is_client self.now }
    {
        self.standing == Standing::AtWork && self.agent == 0
    }

    /// Whose agents they are.
    pub fn client(&self) -> u8
        ensures { result ≡ self.now.me.who }
    {
        self.me.who
    }

    /// Whether a command is what they are at.
    pub fn is_at_command(&self) -> bool
        ensures { result ≡ is_command self.now.work }
    {
        self.work.is_command()
    }

    /// How many of the commands have answered, or had their effect.
    pub fn answered(&self) -> usize
        ensures { result ≡ length self.now.entries }
    {
        self.entries.len()
    }

    /// A turn of theirs: the agent makes one word step, or where it has none left it dies.
    #[inline(never)]
    pub fn turn<W: Workplace>(&mut self, script: &Script, pool: &mut W)
        requires has { W.has pool.old self.old.me.who }
        requires stands { AgentsStand (W.start pool.old) script.now self.old (W.account pool.old self.old.me.who) }
        requires here { self.old.standing ≡ Standing.AtWork }
        ensures start { W.start pool.new ≡ W.start pool.old }
        ensures has { W.has pool.new self.old.me.who }
        ensures stepped { 0 < self.old.life.left → (n : ℕ) × W.stepped pool.old (step_of work_control self.old.work n) pool.new }
        ensures fell { self.old.life.left ≡ 0 → W.fell pool.old self.old.me.who pool.new }
        ensures me { self.new.me ≡ self.old.me }
        ensures script { self.new.script ≡ self.old.script }
        ensures stands { AgentsStand (W.start pool.new) script.now self.new (W.account pool.new self.old.me.who) }
        ensures given { turns_given (W.account pool.new self.old.me.who) ≡ turns_given (W.account pool.old self.old.me.who) + 1 }
        ensures turns { turns_by self.new (Some script.now) < turns_by self.old (Some script.now) }
    {
        match pool.step(self.me.who, &mut self.work, &mut self.life) {
            Turn::More => {}
            Turn::Died => self.die(script, pool),
            Turn::Done(told) => self.go_on(script.lines.as_slice(), told),
        }
    }

    /// Turns of theirs in a pool in a vector, one after the other: word steps until what the agent runs has answered or it has none left,
    /// or where it had none left its death.
    #[inline(never)]
    pub fn turns(&mut self, script: &Script, pool: &mut PlainPool)
        requires run { IsRun pool.old }
        requires who { self.old.me.who < pool.old.start.geometry.clients }
        requires stands { AgentsStand pool.old.start script.now self.old (account_at pool.old.accounts self.old.me.who) }
        requires here { self.old.standing ≡ Standing.AtWork }
        ensures row { (n : ℕ) × AreTurns script.now n pool.old self.old pool.new self.new }
        ensures turns { turns_by self.new (Some script.now) < turns_by self.old (Some script.now) }
    {
        if self.life.left == 0 {
            self.turn(script, pool);
            return;
        }
        match pool.steps(self.me.who, &mut self.work, &mut self.life) {
            Turn::More => {}
            Turn::Died => {}
            Turn::Done(told) => self.go_on(script.lines.as_slice(), told),
        }
    }

    /// What they are at once a piece of work has answered.
    #[inline(always)]
    fn go_on(&mut self, lines: &[Line], told: Outcome)
        requires geometry { GeometryFits self.old.me.geometry }
        requires who { self.old.me.who < self.old.me.geometry.clients }
        requires told { MayGoOn lines.now told self.old }
        requires line { (k : ℕ) (line : ALine) → slice_get lines.now k ≡ Some line → LineMayStand self.old.me line }
        ensures { HasGoneOn lines.now told self.old self.new }
    {
        match told {
            Or::First(Or::First(())) => self.begin(lines),
            Or::First(Or::Second(recovered)) => {
                recovered.unwrap();
                self.standing = Standing::Gone;
            }
            Or::Second(Or::First(answer)) => {
                self.note(lines, answer);
                self.begin(lines);
            }
            Or::Second(Or::Second(left)) => {
                left.unwrap();
                self.end = Some(End::Ended);
                self.standing = Standing::Gone;
            }
        }
    }

    /// The agent that acts dies, and the next one comes, if there is one.
    #[inline(never)]
    fn die<W: Workplace>(&mut self, script: &Script, pool: &mut W)
        requires has { W.has pool.old self.old.me.who }
        requires stands { AgentsStand (W.start pool.old) script.now self.old (W.account pool.old self.old.me.who) }
        requires here { self.old.standing ≡ Standing.AtWork }
        requires spent { self.old.life.left ≡ 0 }
        ensures start { W.start pool.new ≡ W.start pool.old }
        ensures has { W.has pool.new self.old.me.who }
        ensures fell { W.fell pool.old self.old.me.who pool.new }
        ensures me { self.new.me ≡ self.old.me }
        ensures script { self.new.script ≡ self.old.script }
        ensures stands { AgentsStand (W.start pool.new) script.now self.new (W.account pool.new self.old.me.who) }
        ensures given { turns_given (W.account pool.new self.old.me.who) ≡ turns_given (W.account pool.old self.old.me.who) + 1 }
        ensures turns { turns_by self.new (Some script.now) < turns_by self.old (Some script.now) }
    {
        // by its law: what the map is where a command was cut
        command_maps();
        pool.fall(self.me.who);
        if self.end.is_none() {
            self.settle(script.lines.as_slice());
        }
        self.follow(script.life.as_slice());
    }

    /// They are given up: the agent that acts dies, whatever it has left of its life, and no other one comes. Where none acts nothing changes
    /// but that the log says how the client ended.
    ///
    /// It tells whether one of them had begun.
    pub fn cut<W: Workplace>(&mut self, script: &Script, pool: &mut W) -> bool
        requires has { W.has pool.old self.old.me.who }
        requires stands { AgentsStand (W.start pool.old) script.now self.old (W.account pool.old self.old.me.who) }
        requires here { self.old.standing ≡ Standing.AtWork }
        ensures start { W.start pool.new ≡ W.start pool.old }
        ensures has { W.has pool.new self.old.me.who }
        ensures account { W.account pool.new self.old.me.who ≡ account_cut (W.account pool.old self.old.me.who) }
        ensures fell { acts (W.account pool.old self.old.me.who).memo ≡ true → W.fell pool.old self.old.me.who pool.new }
        ensures still { acts (W.account pool.old self.old.me.who).memo ≡ false → pool.new ≡ pool.old }
        ensures same { (self.new.me ≡ self.old.me) × (self.new.script ≡ self.old.script) × (self.new.standing ≡ Standing.Dead) }
        ensures cut { IsCut result script.now self.new (W.account pool.new self.old.me.who) }
    {
        // by its law: what the map is where a command was cut
        command_maps();
        let acts = self.has_begun(script.life.as_slice());
        if acts {
            pool.fall(self.me.who);
        }
        if self.end.is_none() {
            self.settle(script.lines.as_slice());
        }
        self.standing = Standing::Dead;
        acts || self.agent > 0
    }

    /// Whether the agent has made a word step of its life.
    fn has_begun(&self, life: &[u64]) -> bool
        ensures some { result ≡ true → (n : ℕ) × (slice_get (lives_of life.now) self.now.agent ≡ Some n) × (self.now.life.left < n) }
        ensures none { result ≡ false → (n : ℕ) → slice_get (lives_of life.now) self.now.agent ≡ Some n → n ≤ self.now.life.left }
    {
        match life_at(life, self.agent) {
            Some(all) => self.life.left < all,
            None => false,
        }
    }

    /// The next agent comes, if there is one.
    fn follow(&mut self, life: &[u64])
        requires geometry { GeometryFits self.old.me.geometry }
        requires who { self.old.me.who < self.old.me.geometry.clients }
        requires few { self.old.agent + 1 < 2 ^ 64 }
        ensures { self.new ≡ follows (slice_get (lives_of life.now) (self.old.agent + 1)) self.old }
    {
        self.agent += 1;
        match life_at(life, self.agent) {
            None => self.standing = Standing::Dead,
            Some(left) => self.recover(left),
        }
    }

    /// It is a recoverer with so many word steps.
    fn recover(&mut self, left: u64)
        requires geometry { GeometryFits self.old.me.geometry }
        requires who { self.old.me.who < self.old.me.geometry.clients }
        ensures { self.new ≡ record self.old { work = work.recover_work self.old.me; life = record { left = left } } }
    {
        let next = Work::recovering(self.me);
        self.life = Life::of(left);
        self.work = next;
    }

    /// How the client ended that died: the command that it was in is noted where it had its effect.
    fn settle(&mut self, lines: &[Line])
        requires few { length self.old.entries < 2 ^ 32 }
        requires command { is_some (shown_by self.old.work) ≡ true → length self.old.entries < length lines.now }
        requires room { length lines.now ≤ self.old.room }
        ensures { (line : ALine) → (is_some (shown_by self.old.work) ≡ true → slice_get lines.now (length self.old.entries) ≡ Some line) → self.new ≡ record self.old { entries = with_effect self.old.entries line (shown_by self.old.work); end = Some (Died (length self.old.entries) (is_some (shown_by self.old.work))) } }
    {
        let finished = self.entries.len() as u32;
        let effect = self.work.effect();
        if let Some(answer) = effect {
            self.note(lines, answer);
        }
        self.end = Some(End::Died {
            finished,
            done: effect.is_some(),
        });
    }

    /// Notes the answer of a command.
    #[inline(never)]
    fn note(&mut self, lines: &[Line], answer: Answer)
        requires command { length self.old.entries < length lines.now }
        requires room { length self.old.entries < self.old.room }
        ensures { (line : ALine) → slice_get lines.now (length self.old.entries) ≡ Some line → self.new ≡ record self.old { entries = self.old.entries ++ record { line = line; answer = answer } ∷ [] } }
    {
        let line = lines[self.entries.len()];
        self.entries.push_reserved(Entry { line, answer });
    }

    /// Begins what comes behind the commands that have answered: the next one, or after the last one the leaving.
    #[inline(never)]
    fn begin(&mut self, lines: &[Line])
        requires geometry { GeometryFits self.old.me.geometry }
        requires who { self.old.me.who < self.old.me.geometry.clients }
        requires line { (line : ALine) → slice_get lines.now (length self.old.entries) ≡ Some line → LineMayStand self.old.me line }
        ensures { self.new ≡ record self.old { work = behind self.old.me lines.now (length self.old.entries) } }
    {
        let answered = self.entries.len();
        let next = if answered < lines.len() {
            Work::commanding(self.me, &lines[answered])
        } else {
            Work::leaving(self.me)
        };
        self.work = next;
    }

    /// The log of the client.
    pub fn log(self) -> Log
        ensures { result ≡ logged self }
    {
        Log {
            client: self.me.who,
            entries: self.entries,
            end: self.end.unwrap_or(End::Ended),
        }
    }
}
