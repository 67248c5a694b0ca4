//! What the agents of an identity are at, as their turns show it.

ghost use Rattle.std.specs.Prelude.{◌≡◌, ◌<◌};
ghost use Rattle.std.specs.List.{AllByRecursion};
ghost use Rattle.shm_words.specs.Layout.{GeometryFits};
ghost use Rattle.shm_table.specs.Command.{LineMayStand};
ghost use Rattle.shm_watch.specs.Columns.{TaskMayStand, begin, first_lane, gone_on, lane_after, lane_died, lane_stepped, span_after, span_died, span_stepped};

use crate::running::Running;
use crate::shown::Shown;
use crate::span::{Fate, Point, Span, Task};
use shm_agents::piece::Piece;
use shm_graph::Me;
use shm_script::Line;
use std::marker::Model;

/// An identity with a script, and which piece of work its agents are at.
#[derive(Drop)]
pub(crate) struct Lane<'a, P: Piece> {
    me: Me,
    /// The commands that the client has not begun.
    left: &'a [Line],
    running: Running<P>,
    span: Span,
}

impl<'a, P: Piece> Model for Lane<'a, P> {
    ghost use Rattle.shm_watch.specs.Columns.{Laned, LaneFits};

    ghost Value = { Laned };

    ghost view = { λ x. record { me = x.me; left = x.left.now; work = x.running; span = x.span } };

    ghost invariant = { λ x. LaneFits x.me x.left.now };
}

// the agents of an identity at the beginning of a piece of work
fn begin<'a, P: Piece>(me: Me, left: &'a [Line], task: Task, agent: u64, last: Point) -> Lane<'a, P>
    requires geometry { GeometryFits me.geometry }
    requires who { me.who < me.geometry.clients }
    requires lines { AllByRecursion (LineMayStand me) left.now }
    requires task { TaskMayStand me task }
    ensures { result ≡ begin me left.now task agent last }
{
    Lane {
        me,
        left,
        running: Running::new(me, task),
        span: Span::fresh(me.who, agent, task, last),
    }
}

impl<'a, P: Piece> Lane<'a, P> {
    /// Before its first turn, with all commands of its script.
    pub fn new(me: Me, lines: &'a [Line]) -> Lane<'a, P>
        requires geometry { GeometryFits me.geometry }
        requires who { me.who < me.geometry.clients }
        requires lines { AllByRecursion (LineMayStand me) lines.now }
        ensures { result ≡ first_lane me lines.now }
    {
        begin(me, lines, Task::Join, 0, Point { turn: 0, step: 0 })
    }

    /// Which identity it is.
    pub fn who(&self) -> u8
        ensures { result ≡ self.now.me.who }
    {
        self.me.who
    }

    /// A turn of this number, which is the identity's. It tells what its agents are at in it.
    pub fn turn(&mut self, turn: u64, shown: Shown) -> Span
        ensures lane { self.new ≡ lane_after turn shown self.old }
        ensures span { result ≡ span_after turn shown self.old }
    {
        match shown {
            Shown::Word { found, ends, .. } => self.step(turn, found, ends),
            Shown::Death { .. } => self.die(turn),
        }
    }

    // they make a word step, which found this word and ends the piece of work or doesn't
    fn step(&mut self, turn: u64, found: u64, ends: bool) -> Span
        ensures lane { self.new ≡ lane_stepped turn found ends self.old }
        ensures span { result ≡ span_stepped turn found ends self.old }
    {
        self.running.take(found);
        let before = self.span;
        let point = before.last.next(turn);
        let span = Span {
            begins: point.or_first(before.begins),
            decides: point.or_decides(before.decides, self.running.is_certain()),
            last: point,
            fate: if ends { Fate::Ends } else { Fate::Goes },
            ..before
        };
        self.span = span;
        if ends {
            self.go_on();
        }
        span
    }

    // what comes behind a piece of work of the client: the next command, and behind the last one the leaving
    fn go_on(&mut self)
        ensures { self.new ≡ gone_on self.old }
    {
        let (me, span) = (self.me, self.span);
        match span.task {
            Task::Leave | Task::Recovery => return,
            Task::Join | Task::Command(_) => {}
        }
        match self.left {
            [line, left @ ..] => {
                *self = begin(me, left, Task::Command(*line), span.agent, span.last);
            }
            [] => *self = begin(me, &[], Task::Leave, span.agent, span.last),
        }
    }

    // the agent that acts dies, and a recoverer comes next
    fn die(&mut self, turn: u64) -> Span
        ensures lane { self.new ≡ lane_died self.old }
        ensures span { result ≡ span_died turn self.old }
    {
        let span = self.span;
        let agent = span.agent.saturating_add(1);
        *self = begin(
            self.me,
            self.left,
            Task::Recovery,
            agent,
            Point { turn: 0, step: 0 },
        );
        Span {
            fate: Fate::Dies { turn },
            ..span
        }
    }
}
