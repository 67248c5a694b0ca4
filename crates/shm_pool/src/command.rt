//! Commands of a client, and what one did in which the client died.

ghost use Rattle.std.specs.Prelude.{◌≡◌, ◌<◌, true, false, None, Option};
ghost use Rattle.shm_words.specs.Layout.{GeometryFits};
ghost use Rattle.shm_graph.specs.declared.ask.Me.{Me as AMe};
ghost use Rattle.shm_script.specs.declared.{line.Line.Line as ALine, log.Answer.Answer as AnAnswer};
ghost use Rattle.shm_table.specs.Command.{LineMayStand, Maps.MapSoFar, Sends.SentSoFar, command_effect, command_of};
ghost use Rattle.shm_table.specs.TableTasks.{LineMay};
ghost use Rattle.shm_pool.specs.{Called.{HasCommanded, HasRun}, Calls.IsBetween, Proved.Shows.command_shows};
ghost use Rattle.shm_pool.specs.{Shows.{ShowsLaws, ShowsSoFar}, Tokens.me_of};

use crate::pool::SharedPool;
use crate::reply::Reply;
use crate::token::Client;
use shm_graph::{Life, Me, Operation};
use shm_script::{Answer, Line};
use shm_table::{Command, command_maps, command_sends};

/// A machine for the line of a script, which shows what it is going to answer.
trait Shows: Operation<Answer = Answer> {
    /// The machine that is made for an identity and a line.
    ghost made: { AMe → ALine → Self };

    /// What it is going to answer, where its deciding step was made.
    ghost effect: { Self → Option AnAnswer };

    /// Makes the machine of a line for the identity `me`.
    fn of(me: Me, line: &Line) -> Self
        requires geometry { GeometryFits me.geometry }
        requires who { me.who < me.geometry.clients }
        requires line { LineMayStand me line.now }
        ensures { result ≡ made me line.now };

    /// What it will answer, where its deciding step was made; otherwise none.
    fn effect(&self) -> Option<Answer>
        ensures { result ≡ effect self.now };

    ghost shows: { ShowsLaws Self.Machine.control Self.Operation.may Self.Operation.rests made };
}

impl Shows for Command {
    ghost made = { command_of };

    ghost effect = { command_effect };

    #[inline(always)]
    fn of(me: Me, line: &Line) -> Command {
        Command::new(me, line)
    }

    #[inline(always)]
    fn effect(&self) -> Option<Answer> {
        self.effect()
    }

    ghost shows = { command_shows };
}

impl Client {
    /// Runs the command of a line on the tables of the pool, in a pool that was made for tables. A latch that it needs is tried again until
    /// it is given back, for as long as there is life.
    ///
    /// Where it answers `Died`, `effect` says what it did.
    pub fn command(&mut self, pool: &SharedPool, life: &mut Life, line: &Line) -> Reply<Answer>
        requires pool { self.old.of ≡ pool.now }
        requires between { self.old.dead ≡ false → IsBetween self.old.account }
        requires line { self.old.dead ≡ false → LineMay (me_of self.old.of self.old.account) line.now self.old.account.memo }
        ensures called { HasCommanded line.now self.old self.new life.old.left life.new.left result }
    {
        // for the proof: while a command runs, the map and what was sent are what its effect says
        command_maps();
        command_sends();
        self.command_as::<Command>(pool, life, line)
    }

    /// Runs the machine of a line, and keeps what it shows where the client dies in it.
    fn command_as<C: Shows + Drop>(
        &mut self,
        pool: &SharedPool,
        life: &mut Life,
        line: &Line,
    ) -> Reply<Answer>
        requires pool { self.old.of ≡ pool.now }
        requires between { self.old.dead ≡ false → IsBetween self.old.account }
        requires line { self.old.dead ≡ false → LineMay (me_of self.old.of self.old.account) line.now self.old.account.memo }
        requires maps { ShowsSoFar MapSoFar C.control C.fits C.effect C.made }
        requires sends { ShowsSoFar SentSoFar C.control C.fits C.effect C.made }
        ensures called { HasRun C.control C.effect C.made C.leaves line.now self.old self.new life.old.left life.new.left result }
    {
        let Some(me) = self.alive() else {
            return Reply::Died;
        };
        let mut command = C::of(me, line);
        match self.run_on(pool, &mut command, life) {
            Reply::Done(answer) => Reply::Done(answer),
            Reply::Died => {
                self.keep_effect(command.effect());
                Reply::Died
            }
        }
    }

    /// Keeps what the command shows in which the client died.
    fn keep_effect(&mut self, effect: Option<Answer>)
        requires { self.old.dead ≡ true }
        ensures { self.new ≡ record self.old { effect = effect } }
    {
        self.effect = effect;
    }

    /// After a command that answered `Died`, what it would have answered, where the word step was made that decides it; the map of the client is
    /// as after that answer, and otherwise what it was. None after any other call, and calls that came after the death don't change it.
    pub fn effect(&self) -> Option<Answer>
        ensures is { result ≡ self.now.effect }
        ensures alive { self.now.dead ≡ false → result ≡ None }
    {
        self.effect
    }
}
