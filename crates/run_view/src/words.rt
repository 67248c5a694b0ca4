//! Each word step of a run, with the name of its word.

ghost use Rattle.std.specs.Prelude.{List};

use crate::outgoing::Out;
use crate::pipe::Begun;
use crate::spots::{Classes, at_of};
use crate::window::Window;
use shm_graph::Ask;
use shm_io::Sink;
use shm_script::Trace;
use shm_watch::{Fate, Listener, Point, Shown, Span};

/// A line for each word step and each death that a run shows in some turns, as they come.
#[derive(Drop)]
pub(crate) struct Words<'a, 't, K: Sink, B: Begun<K>> {
    pub out: Out<'a, K, B>,
    pub trace: &'t Trace,
    pub classes: Classes,
    pub window: Window,
    /// How many turns there were.
    pub turns: u64,
}

impl<'a, 't, K: Sink, B: Begun<K>> Words<'a, 't, K, B> {
    // the names of the columns
    fn heads(&mut self) {
        self.out.right("turn", 8);
        self.out.right("client", 8);
        self.out.right("agent", 7);
        self.out.right("step", 8);
        self.out.text("  word step                   word\n");
    }

    // the line of a turn
    fn line(&mut self, shown: Shown, span: Span) {
        let out = &mut self.out;
        out.number_right(Some(span.now()), 8);
        out.number_right(Some(u64::from(span.who)), 8);
        out.number_right(Some(span.agent), 7);
        out.number_right(Some(span.last.step), 8);
        out.text("  ");
        match shown {
            Shown::Word { ask, found, .. } => {
                let from = out.length();
                out.ask(ask, found);
                out.pad(from, 26);
                out.text("  ");
                let from = out.length();
                self.classes.write_name(out, self.trace, at_of(ask));
                out.notes(span, from);
            }
            Shown::Death { .. } => out.death(span),
        }
        out.text("\n");
    }

    /// Ends the lines with how many turns there were.
    pub fn end(&mut self) {
        if self.turns == 0 {
            self.heads();
        }
        self.out.text("\nturns ");
        self.out.number(self.turns);
        self.out.text("\n");
    }
}

impl<'a, 't, K: Sink, B: Begun<K>> Listener for Words<'a, 't, K, B> {
    ghost told = { λ _ _. Unit {0} };

    fn tell(&mut self, shown: Shown, span: Span) {
        if self.turns == 0 {
            self.heads();
        }
        self.turns = span.now();
        if let Shown::Word { ask, found, .. } = shown {
            self.classes.see(self.trace, ask, found);
        }
        if self.window.has(span.now()) {
            self.line(shown, span);
        }
    }
}

// whether a word step is the last one of a piece of work so far
fn is_now(point: Option<Point>, span: Span) -> bool {
    match point {
        Some(point) => point.turn == span.last.turn,
        None => false,
    }
}

impl<'a, K: Sink, B: Begun<K>> Out<'a, K, B> {
    // goes on with a word step and what it found: `L6=1`, `S12=77`, `X50:0>9`, and `X50:0>9!8` of an exchange that found another word
    fn ask(&mut self, ask: Ask, found: u64) {
        match ask {
            Ask::Load { at } => self.word("L", at, found),
            Ask::Store { at, value } => self.word("S", at, value),
            Ask::Exchange { at, from, to } => {
                self.text("X");
                self.number(u64::from(at));
                self.text(":");
                self.number(from);
                self.text(">");
                self.number(to);
                if found != from {
                    self.text("!");
                    self.number(found);
                }
            }
        }
    }

    // goes on with a load or a store
    fn word(&mut self, sign: &str, at: u32, word: u64) {
        self.text(sign);
        self.number(u64::from(at));
        self.text("=");
        self.number(word);
    }

    // goes on with whether a piece of work begins, decides or ends with its last word step
    fn notes(&mut self, span: Span, from: u64) {
        if is_now(span.begins, span) {
            self.pad(from, 14);
            self.text("  begins ");
            self.task(span.task);
        }
        if is_now(span.decides, span) {
            self.pad(from, 14);
            self.text("  decides");
        }
        if matches!(span.fate, Fate::Ends) {
            self.pad(from, 14);
            self.text("  ends");
        }
    }

    // goes on with where an agent died
    fn death(&mut self, span: Span) {
        if span.begins.is_some() {
            self.text("died in ");
        } else {
            self.text("died before ");
        }
        self.task(span.task);
    }
}
