//! Commands, and what they show of their answers.

ghost use Rattle.std.specs.Prelude.{◌<◌};
ghost use Rattle.shm_words.specs.Layout.{GeometryFits};
ghost use Rattle.shm_table.specs.Command.{LineMayStand};

use crate::tables::lines::{OwnLine, line_for, refuse};
use shm_graph::{Machine, Turn};
use shm_script::Answer;
use shm_table::Command;
use std::io;
use t_runs::{Case, go, make, numbers};

/// More word steps than a command makes here.
const LIMIT: u64 = 100_000;

/// What a command has shown of its answer.
#[derive(Drop)]
struct Shown {
    /// Before how many of its word steps that was asked.
    steps: u64,
    /// After how many of them it showed an answer first.
    first: u64,
    /// The answer that it showed then.
    answer: Option<Answer>,
    /// Whether it has shown another one since, or none.
    changed: bool,
}

impl Shown {
    /// Before the first word step.
    fn new() -> Shown {
        Shown {
            steps: 0,
            first: 0,
            answer: None,
            changed: false,
        }
    }

    /// Sees what is shown before the next word step.
    fn see(&mut self, answer: Option<Answer>) {
        if self.answer.is_none() {
            self.answer = answer;
            self.first = self.steps;
        } else if self.answer != answer {
            self.changed = true;
        }
        self.steps = self.steps.wrapping_add(1);
    }

    /// Whether this answer, given in the end, is another one than was shown.
    fn is_other(&self, answer: Answer) -> bool {
        match self.answer {
            None => false,
            Some(first) => self.changed || first != answer,
        }
    }
}

/// Runs a command on the words; its answer, where it has one.
fn answer(command: &mut Command, words: &mut Vec<u64>, shown: &mut Shown) -> Option<Answer> {
    for _ in 0..LIMIT {
        if command.finished() {
            return None;
        }
        shown.see(command.effect());
        let seen = make(words, command.ask())?;
        if let Turn::Done(answer) = command.take(seen) {
            return Some(answer);
        }
    }
    None
}

/// The same of the command of a line.
fn answer_to(own: OwnLine, words: &mut Vec<u64>, shown: &mut Shown) -> Option<Answer>
    requires fits { GeometryFits own.me.geometry }
    requires who { own.me.who < own.me.geometry.clients }
    requires line { LineMayStand own.me own.line }
{
    answer(&mut Command::new(own.me, &own.line), words, shown)
}

/// Tells of an answer, after how many word steps it was given, and after how many the command showed it.
fn tell(rt: &HostRuntime, answer: Answer, shown: &Shown) -> io::Result<()> {
    print!(rt; "  = {answer:?} after {}", shown.steps)?;
    if shown.answer.is_some() {
        print!(rt; ", shown after {}", shown.first)?;
    }
    if shown.is_other(answer) {
        print!(rt; ", but another one")?;
    }
    println!(rt; "")
}

/// Runs a command, and tells of its answer and of when it showed it. The row has the command's name, an identity, and the numbers of its line.
pub fn show(rt: &HostRuntime, case: &mut Case, row: &str) -> io::Result<()> {
    let (name, rest) = row.split_once(' ').unwrap_or((row, ""));
    let Some(own) = line_for(case, name, &numbers(rest)) else {
        return refuse(rt);
    };
    let mut shown = Shown::new();
    match answer_to(own, &mut case.words, &mut shown) {
        Some(answer) => tell(rt, answer, &shown),
        None => println!(rt; "  = stopped"),
    }
}

/// Runs a command, and tells of each word step.
pub fn run(rt: &HostRuntime, case: &mut Case, name: &str, f: &[u64; 6]) -> io::Result<()> {
    let Some(own) = line_for(case, name, f) else {
        return refuse(rt);
    };
    go(rt, Some(Command::new(own.me, &own.line)), case)
}
