//! Pieces of work as far as a replay's turns have shown them.

ghost use Rattle.std.specs.Prelude.{◌≡◌};
ghost use Rattle.shm_watch.specs.{Columns.{begins_with, decides_with, fresh, is_over, next_point}, Spans.{first_turn, last_turn}};

use shm_script::Line;

/// A piece of work of an agent.
#[derive(Clone, Copy, Drop)]
pub enum Task {
    Join,
    Command(Line),
    Leave,
    Recovery,
}

/// A word step: the number of its turn, from 1, and its number among those of its agent, from 1.
#[derive(Clone, Copy, Drop)]
pub struct Point {
    pub turn: u64,
    pub step: u64,
}

/// How far a piece of work has come.
#[derive(Clone, Copy, Drop)]
pub enum Fate {
    /// It goes on.
    Goes,
    /// It has ended by its last word step.
    Ends,
    /// Its agent died in this turn.
    Dies { turn: u64 },
}

/// A piece of work as far as it has come.
#[derive(Clone, Copy, Drop)]
pub struct Span {
    pub who: u8,
    /// The number of the agent: that of the client is 0.
    pub agent: u64,
    pub task: Task,
    /// Its first word step, where it has made one.
    pub begins: Option<Point>,
    /// The word step from which on its answer is certain, where it has made that.
    pub decides: Option<Point>,
    /// The last word step of its agent; before the first one both numbers are 0.
    pub last: Point,
    pub fate: Fate,
}

impl Span {
    /// A piece of work before its first word step, of an agent whose last one was this.
    pub(crate) fn fresh(who: u8, agent: u64, task: Task, last: Point) -> Span
        ensures { result ≡ fresh who agent task last }
    {
        Span {
            who,
            agent,
            task,
            begins: None,
            decides: None,
            last,
            fate: Fate::Goes,
        }
    }

    /// The turn up to which it has come.
    pub fn now(self) -> u64
        ensures { result ≡ last_turn self }
    {
        match self.fate {
            Fate::Dies { turn } => turn,
            _ => self.last.turn,
        }
    }

    /// The turn of its first word step; where it has made none that up to which it has come.
    pub fn first(self) -> u64
        ensures { result ≡ first_turn self }
    {
        match self.begins {
            Some(point) => point.turn,
            None => self.now(),
        }
    }

    /// Whether it has ended, or its agent died.
    pub fn is_over(self) -> bool
        ensures { result ≡ is_over self.fate }
    {
        match self.fate {
            Fate::Goes => false,
            Fate::Ends | Fate::Dies { .. } => true,
        }
    }
}

impl Point {
    /// The next word step of the agent, in this turn.
    pub(crate) fn next(self, turn: u64) -> Point
        ensures { result ≡ next_point turn self }
    {
        Point {
            turn,
            step: self.step.saturating_add(1),
        }
    }

    /// The first word step of a piece of work, if this one is of it.
    pub(crate) fn or_first(self, begins: Option<Point>) -> Option<Point>
        ensures { result ≡ begins_with begins self }
    {
        match begins {
            None => Some(self),
            Some(first) => Some(first),
        }
    }

    /// The word step from which on an answer is certain, if after this one it is or isn't.
    pub(crate) fn or_decides(self, decides: Option<Point>, certain: bool) -> Option<Point>
        ensures { result ≡ decides_with decides certain self }
    {
        match decides {
            None => { if certain { Some(self) } else { None } }
            Some(first) => Some(first),
        }
    }
}
