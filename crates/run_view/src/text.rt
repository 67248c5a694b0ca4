//! Pieces of work as text.

ghost use Rattle.std.specs.Prelude.{◌++◌};
ghost use Rattle.shm_script.specs.Text.{line_spelled, spaced};
ghost use Rattle.run_view.specs.{Piped.Adds, Tables.task_spelled};

use crate::outgoing::Out;
use crate::pipe::Begun;
use shm_io::Sink;
use shm_script::{Line, line_text, push_text};
use shm_watch::Task;
use std::alloc::AllocError;

impl<'a, K: Sink, B: Begun<K>> Out<'a, K, B> {
    /// Goes on with what a piece of work is.
    pub fn task(&mut self, task: Task)
        ensures { Adds K.held K.faults self.old self.new (task_spelled task) }
    {
        match task {
            Task::Join => self.text("join"),
            Task::Command(line) => self.line(line),
            Task::Leave => self.text("leave"),
            Task::Recovery => self.text("recover"),
        }
    }

    // goes on with a command
    fn line(&mut self, line: Line)
        ensures { Adds K.held K.faults self.old self.new (line_spelled line) }
    {
        match line {
            Line::Put { key, number } => self.command("put", u64::from(key), number),
            Line::Del { key } => {
                self.text("del");
                self.spaced(u64::from(key));
            }
            Line::Get { author, key } => {
                self.command("get", u64::from(author), u64::from(key));
            }
            Line::Copy { key, author, other } => {
                self.command("copy", u64::from(key), u64::from(author));
                self.spaced(u64::from(other));
            }
            Line::Send { to, key } => self.command("send", u64::from(to), u64::from(key)),
            Line::Recv { from, key } => self.command("recv", u64::from(from), u64::from(key)),
        }
    }

    // goes on with the name of a command and two numbers
    fn command(&mut self, name: &str, first: u64, second: u64)
        ensures { Adds K.held K.faults self.old self.new (name.now ++ spaced first ++ spaced second) }
    {
        self.text(name);
        self.spaced(first);
        self.spaced(second);
    }

    // goes on with a blank and a number
    fn spaced(&mut self, number: u64)
        ensures { Adds K.held K.faults self.old self.new (spaced number) }
    {
        self.text(" ");
        self.number(number);
    }
}

/// Adds what a piece of work is.
pub fn push_task(text: &mut Vec<u8>, task: Task) -> Result<(), AllocError> {
    match task {
        Task::Join => push_text(text, "join"),
        Task::Command(line) => line_text(text, line),
        Task::Leave => push_text(text, "leave"),
        Task::Recovery => push_text(text, "recover"),
    }
}
