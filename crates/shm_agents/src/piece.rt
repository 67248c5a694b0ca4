//! What a piece of work is to whoever runs it.

ghost use Rattle.std.specs.Prelude.{◌≡◌, ◌<◌, false};
ghost use Rattle.shm_words.specs.Layout.{GeometryFits};
ghost use Rattle.shm_graph.specs.{Laws.turn_of, ManySteps.{HasRun, MayRun}};
ghost use Rattle.shm_table.specs.Command.{LineMayStand};
ghost use Rattle.shm_agents.specs.{Agents.{is_command, shown_by}, Work.{Work as AWork, work_control}};
ghost use Rattle.shm_agents.specs.Work as pieces;

use plans::Or;
use shm_count::EraSpent;
use shm_graph::{Ask, Life, Me, Site, Turn};
use shm_script::{Answer, Line};

/// What a piece of work answers: a join, a recovery, a command or a leaving.
pub type Outcome = Or<Or<(), Result<(), EraSpent>>, Or<Answer, Result<(), EraSpent>>>;

/// A piece of work: a join, a recovery, a command or a leaving, whatever it is made of. What runs it by this bound is proved without its machines.
pub trait Piece: Drop {
    /// What contracts see of it.
    ghost work: { Self → AWork };

    /// The join of an identity.
    fn joining(me: Me) -> Self
        requires geometry { GeometryFits me.geometry }
        requires who { me.who < me.geometry.clients }
        ensures { work result ≡ pieces.join_work me };

    /// The recovery of an identity.
    fn recovering(me: Me) -> Self
        requires geometry { GeometryFits me.geometry }
        requires who { me.who < me.geometry.clients }
        ensures { work result ≡ pieces.recover_work me };

    /// The command of a line.
    fn commanding(me: Me, line: &Line) -> Self
        requires geometry { GeometryFits me.geometry }
        requires who { me.who < me.geometry.clients }
        requires line { LineMayStand me line.now }
        ensures { work result ≡ pieces.commanding me line.now };

    /// The leaving of an identity.
    fn leaving(me: Me) -> Self
        requires geometry { GeometryFits me.geometry }
        requires who { me.who < me.geometry.clients }
        ensures { work result ≡ pieces.leave_work me };

    /// Whether it is a command.
    fn is_command(&self) -> bool
        ensures { result ≡ is_command (work self.now) };

    /// What a command that is running shows of its answer; none where it is no command.
    fn effect(&self) -> Option<Answer>
        ensures { result ≡ shown_by (work self.now) };

    /// The identity that it works for.
    fn me(&self) -> Me
        ensures { result ≡ work_control.me (work self.now) };

    /// Whether it has answered.
    fn finished(&self) -> bool
        ensures { result ≡ work_control.finished (work self.now) };

    /// The word step that it asks for next.
    fn ask(&self) -> Ask
        requires { work_control.finished (work self.now) ≡ false }
        ensures { result ≡ work_control.asks (work self.now) };

    /// Takes the word that was found, for a store 0; it never answers `Died`.
    fn take(&mut self, seen: u64) -> Turn<Outcome>
        requires { work_control.finished (work self.old) ≡ false }
        ensures piece { work self.new ≡ work_control.after (work self.old) seen }
        ensures turn { result ≡ turn_of (work_control.turns (work self.old) seen) };

    /// Makes the word step that it asks for next at this site, and takes the word that was found.
    fn act<S: Site>(&mut self, site: &S, words: &mut S::Words) -> Turn<Outcome>
        requires runs { work_control.finished (work self.old) ≡ false }
        requires may { S.may site.now words.old (work_control.asks (work self.old)) }
        ensures made { S.made site.now words.old (work_control.asks (work self.old)) words.new }
        ensures piece { let a = work_control.asks (work self.old) in work self.new ≡ work_control.after (work self.old) (S.seen site.now words.old a words.new) }
        ensures turn { let a = work_control.asks (work self.old) in result ≡ turn_of (work_control.turns (work self.old) (S.seen site.now words.old a words.new)) };

    /// Makes the word steps that it asks for at this site, one after the other, until it has answered or no life is left: then it tells `Died`.
    fn run<S: Site>(&mut self, site: &S, words: &mut S::Words, life: &mut Life) -> Turn<Outcome>
        requires { MayRun work_control (S.may site.now) (S.made site.now) (S.seen site.now) life.old.left (work self.old) words.old }
        ensures { HasRun work_control (S.made site.now) (S.seen site.now) life.old.left (work self.old) words.old (record { left = life.new.left; machine = work self.new; words = words.new; turn = result }) };
}
