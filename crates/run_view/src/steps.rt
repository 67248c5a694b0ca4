//! The word steps of a run by piece of work, as a table.

ghost use Rattle.std.specs.Prelude.{◌≡◌, List};
ghost use Rattle.run_view.specs.Piped.{Adds};
ghost use Rattle.shm_watch.specs.declared.{shown.Shown.Shown as AShown, span.Span.Span as ASpan};
ghost use Rattle.run_view.specs.Piped.{IsSentFrom};
ghost use Rattle.run_view.specs.Tables.{IsTable, death_of, end_of, heads, heads_at, row_of, span_row, step_of, steps_text, turn_of, turns_line};

use crate::outgoing::Out;
use crate::pipe::{Begun, Writer};
use crate::window::Window;
use shm_io::Sink;
use shm_watch::{Fate, Listener, Point, Shown, Span};

/// A table of the pieces of work that a run shows in some turns, a row each as they end.
#[derive(Drop)]
pub(crate) struct Steps<'a, K: Sink, B: Begun<K>> {
    pub out: Out<'a, K, B>,
    pub window: Window,
    /// How many turns there were.
    pub turns: u64,
}

// the turn of a word step
fn turn_of(point: Option<Point>) -> Option<u64>
    ensures { result ≡ turn_of point }
{
    match point {
        Some(point) => Some(point.turn),
        None => None,
    }
}

// its number among those of its agent
fn step_of(point: Option<Point>) -> Option<u64>
    ensures { result ≡ step_of point }
{
    match point {
        Some(point) => Some(point.step),
        None => None,
    }
}

// with which word step a piece of work ends
fn end_of(fate: Fate, last: Point) -> Option<u64>
    ensures { result ≡ end_of fate last }
{
    match fate {
        Fate::Dies { .. } => None,
        Fate::Goes | Fate::Ends => Some(last.step),
    }
}

// the last word step of an agent that died
fn death_of(fate: Fate, last: Point) -> Option<u64>
    ensures { result ≡ death_of fate last }
{
    match fate {
        Fate::Dies { .. } => Some(last.step),
        Fate::Goes | Fate::Ends => None,
    }
}

impl<'a, K: Sink, B: Begun<K>> Out<'a, K, B> {
    // goes on with the names of the columns
    fn heads(&mut self)
        ensures { Adds K.held K.faults self.old self.new heads }
    {
        self.text("client  agent");
        self.right("turn", 9);
        self.right("begins", 9);
        self.right("decides", 9);
        self.right("ends", 9);
        self.right("died", 9);
        self.text("  work\n");
    }

    // goes on with the row of a piece of work
    fn row(&mut self, span: Span)
        ensures { Adds K.held K.faults self.old self.new (row_of span) }
    {
        self.number_right(Some(u64::from(span.who)), 6);
        self.number_right(Some(span.agent), 7);
        self.number_right(turn_of(span.begins), 9);
        self.number_right(step_of(span.begins), 9);
        self.number_right(step_of(span.decides), 9);
        self.number_right(end_of(span.fate, span.last), 9);
        self.number_right(death_of(span.fate, span.last), 9);
        self.text("  ");
        self.task(span.task);
        self.text("\n");
    }

    // goes on with the names of the columns, where there was no turn before
    fn heads_at(&mut self, turns: u64)
        ensures { Adds K.held K.faults self.old self.new (heads_at turns) }
    {
        if turns == 0 {
            self.heads();
        }
    }

    // goes on with the row of a turn, where it has one
    fn span(&mut self, window: Window, span: Span)
        ensures { Adds K.held K.faults self.old self.new (span_row window span) }
    {
        if span.is_over() && window.meets(span.first(), span.now()) {
            self.row(span);
        }
    }

    /// Goes on with how many turns there were.
    pub fn turns(&mut self, turns: u64)
        ensures { Adds K.held K.faults self.old self.new (turns_line turns) }
    {
        self.text("\nturns ");
        self.number(turns);
        self.text("\n");
    }
}

impl<'a, K: Sink, B: Begun<K>> Steps<'a, K, B> {
    /// Ends the table with how many turns there were.
    pub fn end(self) -> Writer<'a, K>
        ensures { (rows : List (AShown × ASpan)) → IsTable K.held K.faults B.sink B.window self.entry.out self.entry.window self.entry.turns rows → IsSentFrom K.held K.faults B.sink (steps_text B.window rows) result.stop result.sink }
    {
        let Steps { mut out, turns, .. } = self;
        out.heads_at(turns);
        out.turns(turns);
        out.end()
    }
}

impl<'a, K: Sink, B: Begun<K>> Listener for Steps<'a, K, B> {
    ghost told = { λ x rows. IsTable K.held K.faults B.sink B.window x.out x.window x.turns rows };

    fn tell(&mut self, _shown: Shown, span: Span) {
        self.out.heads_at(self.turns);
        self.turns = self.turns.saturating_add(1);
        self.out.span(self.window, span);
    }
}
