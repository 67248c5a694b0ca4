//! A piece of work that goes on by the words that its word steps found.

ghost use Rattle.std.specs.Prelude.{◌≡◌, ◌<◌};
ghost use Rattle.shm_words.specs.Layout.{GeometryFits};
ghost use Rattle.shm_watch.specs.Columns.{TaskMayStand, is_certain, work_after, work_for};

use crate::span::Task;
use shm_agents::piece::Piece;
use shm_graph::Me;
use std::marker::Model;

/// A piece of work, whatever it is made of.
#[derive(Drop)]
pub(crate) struct Running<P: Piece> {
    piece: P,
}

impl<P: Piece> Model for Running<P> {
    ghost use Rattle.shm_agents.specs.Work.{Work};

    ghost Value = { Work };

    ghost view = { λ x. P.work x.piece };
}

impl<P: Piece> Running<P> {
    /// A piece of work before its first word step.
    pub fn new(me: Me, task: Task) -> Running<P>
        requires geometry { GeometryFits me.geometry }
        requires who { me.who < me.geometry.clients }
        requires task { TaskMayStand me task }
        ensures { result ≡ work_for me task }
    {
        let piece = match task {
            Task::Join => P::joining(me),
            Task::Command(line) => P::commanding(me, &line),
            Task::Leave => P::leaving(me),
            Task::Recovery => P::recovering(me),
        };
        Running { piece }
    }

    /// Its word step found this word. What is over stays as it is.
    pub fn take(&mut self, found: u64)
        ensures { self.new ≡ work_after self.old found }
    {
        if !self.piece.finished() {
            let _turn = self.piece.take(found);
        }
    }

    /// Whether its answer is certain.
    pub fn is_certain(&self) -> bool
        ensures { result ≡ is_certain self.now }
    {
        self.piece.effect().is_some()
    }
}
