//! What an agent runs: one piece of work after the other.

ghost use Rattle.std.specs.Prelude.{◌≡◌, ◌<◌};
ghost use Rattle.shm_words.specs.Layout.{GeometryFits};
ghost use Rattle.shm_table.specs.Command.{LineMayStand};
ghost use Rattle.shm_agents.specs.{Agents.{is_command, shown_by}, Work.{WorkFits, WorkGives, work_control}};
ghost use Rattle.shm_agents.specs.Proved.WorkLaws.{work_laws};
ghost use Rattle.shm_agents.specs.Work as pieces;

use crate::piece::{Outcome, Piece};
use shm_graph::{Ask, Life, Machine, Me, Site, Turn};
use shm_script::{Answer, Line};
use std::marker::Model;

/// A piece of work, whatever it is made of: contracts see what `Piece` shows of it.
#[derive(Drop)]
pub struct Work<P: Piece> {
    piece: P,
}

impl<P: Piece> Model for Work<P> {
    ghost use Rattle.shm_agents.specs.Work.{Work as AWork};

    ghost Value = { AWork };

    ghost view = { λ x. P.work x.piece };
}

impl<P: Piece> Work<P> {
    /// The join of an identity.
    pub(crate) fn joining(me: Me) -> Work<P>
        requires geometry { GeometryFits me.geometry }
        requires who { me.who < me.geometry.clients }
        ensures { result ≡ pieces.join_work me }
    {
        Work {
            piece: P::joining(me),
        }
    }

    /// The recovery of an identity.
    pub(crate) fn recovering(me: Me) -> Work<P>
        requires geometry { GeometryFits me.geometry }
        requires who { me.who < me.geometry.clients }
        ensures { result ≡ pieces.recover_work me }
    {
        Work {
            piece: P::recovering(me),
        }
    }

    /// The command of a line.
    pub(crate) fn commanding(me: Me, line: &Line) -> Work<P>
        requires geometry { GeometryFits me.geometry }
        requires who { me.who < me.geometry.clients }
        requires line { LineMayStand me line.now }
        ensures { result ≡ pieces.commanding me line.now }
    {
        Work {
            piece: P::commanding(me, line),
        }
    }

    /// The leaving of an identity.
    pub(crate) fn leaving(me: Me) -> Work<P>
        requires geometry { GeometryFits me.geometry }
        requires who { me.who < me.geometry.clients }
        ensures { result ≡ pieces.leave_work me }
    {
        Work {
            piece: P::leaving(me),
        }
    }

    /// Whether it is a command.
    #[inline(always)]
    pub(crate) fn is_command(&self) -> bool
        ensures { result ≡ is_command self.now }
    {
        self.piece.is_command()
    }

    /// What a command that is running shows of its answer; none where it is no command.
    #[inline(always)]
    pub(crate) fn effect(&self) -> Option<Answer>
        ensures { result ≡ shown_by self.now }
    {
        self.piece.effect()
    }
}

impl<P: Piece> Machine for Work<P> {
    type Answer = Outcome;

    ghost control = { work_control };

    ghost fits = { WorkFits };

    ghost gives = { WorkGives };

    #[inline(always)]
    fn me(&self) -> Me {
        self.piece.me()
    }

    #[inline(always)]
    fn finished(&self) -> bool {
        self.piece.finished()
    }

    #[inline(always)]
    fn ask(&self) -> Ask {
        self.piece.ask()
    }

    #[inline(always)]
    fn take(&mut self, seen: u64) -> Turn<Outcome> {
        self.piece.take(seen)
    }

    #[inline(always)]
    fn act<S: Site>(&mut self, site: &S, words: &mut S::Words) -> Turn<Outcome> {
        self.piece.act(site, words)
    }

    #[inline(always)]
    fn run<S: Site>(&mut self, site: &S, words: &mut S::Words, life: &mut Life) -> Turn<Outcome> {
        self.piece.run(site, words, life)
    }

    ghost laws = { work_laws };
}
