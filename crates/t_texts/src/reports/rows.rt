//! The lines of standard input.

use crate::reports::images::{
    Change, Task, changes, checksum, cuts, frames, set_byte, set_word, told, word_in,
};
use crate::reports::lines::{fault_lines, verdict_line};
use crate::reports::logs::logs_of;
use crate::reports::numbers::{number, read_numbers};
use crate::reports::pool::Pool;
use crate::reports::stop::Stop;
use shm_migrate::{MigrateStop, migrate, stop_text};
use shm_report::{report, summary};
use shm_script::{ParseStop, Trace, parse, push_number, push_text};
use std::alloc::{AllocError, Global};

/// What the lines so far said.
#[derive(Drop)]
pub struct Rows {
    pool: Pool,
    /// The lines of the trace.
    trace: Vec<u8>,
    answers: String,
    ends: String,
    image: Vec<u8>,
}

impl Rows {
    /// Before the first line.
    pub fn new(alloc: Global) -> Rows {
        Rows {
            pool: Pool::none(alloc),
            trace: Vec::new(alloc),
            answers: String::new(alloc),
            ends: String::new(alloc),
            image: Vec::new(alloc),
        }
    }

    /// What is told of the next line.
    pub fn row(&mut self, alloc: Global, line: &str) -> Result<Vec<u8>, Stop> {
        let (word, rest) = line.split_once(' ').unwrap_or((line, ""));
        match word {
            "#" => Ok(line_of(alloc, line)?),
            "report" => self.report(alloc),
            "summary" => self.summary(alloc),
            "verdict" => verdict_line(alloc, rest),
            "fault" => fault_lines(alloc, rest),
            "length" => Ok(number_line(alloc, self.image.len() as u64)?),
            "front" => self.front(alloc, rest),
            "checksum" => Ok(number_line(alloc, checksum(self.image.as_slice()))?),
            "audit" => Ok(told(alloc, self.image.as_slice())?),
            "word" => self.word(alloc, rest),
            "migrate" => self.migrate(alloc),
            "changes" => self.changes(alloc, rest, Task::Audit),
            "migrations" => self.changes(alloc, rest, Task::Migration),
            "cuts" => Ok(number_line(alloc, cuts(alloc, self.image.as_slice())?)?),
            "frames" => self.frames(alloc),
            _ => {
                self.note(alloc, line, word, rest)?;
                Ok(Vec::new(alloc))
            }
        }
    }

    /// Takes a line of which nothing is told.
    fn note(&mut self, alloc: Global, line: &str, word: &str, rest: &str) -> Result<(), Stop> {
        match word {
            "pool" | "pool2" => {
                self.pool = Pool::of_sizes(alloc, word == "pool2", rest)?;
                self.trace = line_of(alloc, line)?;
                Ok(())
            }
            "words" => self.pool.set(rest),
            "answers" => {
                self.answers = String::from_str(alloc, rest)?;
                Ok(())
            }
            "ends" => {
                self.ends = String::from_str(alloc, rest)?;
                Ok(())
            }
            "image" => {
                self.image = self.pool.image(alloc)?;
                Ok(())
            }
            "set" => self.set(rest),
            "byte" => self.set_byte(rest),
            "push" => self.push(rest),
            "cut" => self.cut(rest),
            _ => self.note_command(line, word),
        }
    }

    /// Takes a line of the trace.
    fn note_command(&mut self, line: &str, word: &str) -> Result<(), Stop> {
        match word {
            "client" | "put" | "del" | "get" | "copy" | "send" | "recv" => {
                push_text(&mut self.trace, line)?;
                Ok(push_text(&mut self.trace, "\n")?)
            }
            _ => Err(Stop::NoRow),
        }
    }

    /// The trace that was told.
    fn read_trace(&self, alloc: Global) -> Result<Trace, Stop> {
        match parse(alloc, self.trace.as_slice()) {
            Ok(trace) => Ok(trace),
            Err(ParseStop::Fault(_)) => Err(Stop::NoRow),
            Err(ParseStop::Memory(_)) => Err(Stop::Memory),
        }
    }

    /// The report.
    fn report(&self, alloc: Global) -> Result<Vec<u8>, Stop> {
        let trace = self.read_trace(alloc)?;
        let geometry = self.pool.geometry()?;
        let logs = logs_of(alloc, &trace, self.answers.as_str(), self.ends.as_str())?;
        Ok(report(alloc, geometry, self.pool.words(), logs.as_slice())?)
    }

    /// The summary.
    fn summary(&self, alloc: Global) -> Result<Vec<u8>, Stop> {
        let trace = self.read_trace(alloc)?;
        let geometry = self.pool.geometry()?;
        let logs = logs_of(alloc, &trace, self.answers.as_str(), self.ends.as_str())?;
        Ok(summary(alloc, geometry, self.pool.words(), logs.as_slice())?)
    }

    /// Stores a word at an address of the image.
    fn set(&mut self, text: &str) -> Result<(), Stop> {
        let of = read_numbers(text).ok_or(Stop::NoRow)?;
        set_word(self.image.as_mut_slice(), of.first, of.second);
        Ok(())
    }

    /// Stores a byte at a place of the image.
    fn set_byte(&mut self, text: &str) -> Result<(), Stop> {
        let of = read_numbers(text).ok_or(Stop::NoRow)?;
        let byte = u8::try_from(of.second).ok();
        let place = usize::try_from(of.first).ok();
        let (Some(at), Some(byte)) = (place, byte) else {
            return Err(Stop::NoRow);
        };
        set_byte(self.image.as_mut_slice(), at, byte);
        Ok(())
    }

    /// Adds a byte to the image.
    fn push(&mut self, text: &str) -> Result<(), Stop> {
        let byte = number(text).and_then(|byte| u8::try_from(byte).ok());
        Ok(self.image.push(byte.ok_or(Stop::NoRow)?)?)
    }

    /// Keeps so many bytes of the image.
    fn cut(&mut self, text: &str) -> Result<(), Stop> {
        self.image.truncate(length_of(text)?);
        Ok(())
    }

    /// So many first bytes of the image.
    fn front(&self, alloc: Global, text: &str) -> Result<Vec<u8>, Stop> {
        let front = self.image.get(..length_of(text)?).ok_or(Stop::NoRow)?;
        Ok(bytes_line(alloc, front)?)
    }

    /// The word at an address of the image.
    fn word(&self, alloc: Global, text: &str) -> Result<Vec<u8>, Stop> {
        let at = number(text).ok_or(Stop::NoRow)?;
        Ok(number_line(alloc, word_in(self.image.as_slice(), at))?)
    }

    /// The image becomes that of format 2, or why it doesn't is told.
    fn migrate(&mut self, alloc: Global) -> Result<Vec<u8>, Stop> {
        match migrate(alloc, self.image.as_slice()) {
            Ok(migrated) => {
                self.image = migrated;
                Ok(line_of(alloc, "migrated")?)
            }
            Err(MigrateStop::Memory(_)) => Err(Stop::Memory),
            Err(stop) => Ok(stop_text(alloc, &stop)?),
        }
    }

    /// The checksum of what is told where each word of the image is another number, or one more than it was.
    fn changes(&mut self, alloc: Global, text: &str, task: Task) -> Result<Vec<u8>, Stop> {
        let change = match text {
            "more" => Change::OneMore,
            _ => Change::To(number(text).ok_or(Stop::NoRow)?),
        };
        let sum = changes(alloc, self.image.as_mut_slice(), change, task)?;
        Ok(number_line(alloc, sum)?)
    }

    /// The checksum of what is told where each byte of the image's frame is each byte.
    fn frames(&mut self, alloc: Global) -> Result<Vec<u8>, Stop> {
        let sum = frames(alloc, self.image.as_mut_slice())?;
        Ok(number_line(alloc, sum)?)
    }
}

/// The length that a word spells.
fn length_of(text: &str) -> Result<usize, Stop> {
    let len = number(text).and_then(|len| usize::try_from(len).ok());
    len.ok_or(Stop::NoRow)
}

/// A text with a line feed.
fn line_of(alloc: Global, text: &str) -> Result<Vec<u8>, AllocError> {
    let mut line = Vec::new(alloc);
    push_text(&mut line, text)?;
    push_text(&mut line, "\n")?;
    Ok(line)
}

/// A line of a number.
fn number_line(alloc: Global, number: u64) -> Result<Vec<u8>, AllocError> {
    let mut line = Vec::new(alloc);
    push_number(&mut line, number)?;
    push_text(&mut line, "\n")?;
    Ok(line)
}

/// A line of the numbers of bytes.
fn bytes_line(alloc: Global, bytes: &[u8]) -> Result<Vec<u8>, AllocError> {
    let mut line = Vec::new(alloc);
    push_text(&mut line, "bytes")?;
    for byte in bytes {
        push_text(&mut line, " ")?;
        push_number(&mut line, u64::from(*byte))?;
    }
    push_text(&mut line, "\n")?;
    Ok(line)
}
