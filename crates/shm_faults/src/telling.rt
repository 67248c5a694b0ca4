//! What is said on standard error of a call of the program.

use crate::finding::Finding;
use crate::form::Language;
use crate::heard::why_unread;
use crate::image::ImageFinding;
use crate::memory::pool_bytes;
use crate::misuse::misuse_of;
use crate::pages::{COMMANDS, STATUSES, VERSION};
use std::io;
use std::process::ExitCode;

/// A call of the program: what it was called with, and what came of it.
#[derive(Drop)]
pub struct Call<'a> {
    /// The words after the program's name, where they could be read.
    pub words: Option<&'a [String]>,
    /// A front of what it read.
    pub input: &'a [u8],
    /// A front of what it wrote.
    pub said: &'a [u8],
    /// Why a write failed, where one did.
    pub write_error: Option<io::Error>,
}

/// The status that a process ends with, of the seven that the program knows.
pub fn status_of(code: ExitCode) -> u8 {
    for status in [2, 3, 4, 5, 6] {
        if code == ExitCode::from(status) {
            return status;
        }
    }
    0
}

impl<'a> Call<'a> {
    /// A call with these words, before it is made.
    pub fn of(words: Option<&'a [String]>) -> Call<'a> {
        Call {
            words,
            input: &[],
            said: &[],
            write_error: None,
        }
    }

    /// Says what is to be said of the call that ended with this status: nothing where it was done.
    pub fn tell<R: Eprint + Input>(&self, rt: &R, status: u8) -> io::Result<()> {
        match status {
            2 => self.tell_misuse(rt),
            3 => self.tell_refusal(rt),
            4 => tell_failure(rt, "standard input can't be read", why_unread(rt)),
            5 => tell_failure(rt, "standard output can't be written", self.write_error),
            6 => self.tell_wanting(rt),
            _ => Ok(()),
        }
    }

    /// Says that an image is about to be written to a terminal, where these words ask for one.
    pub fn warn<R: Eprint>(&self, rt: &R) -> io::Result<()> {
        if !self.has("--image") && self.command() != "migrate" {
            return Ok(());
        }
        eprintln!(rt;
            "cxlshm: an image isn't text, and standard output is a terminal: send it to a file by `> IMAGE`"
        )
    }

    /// Whether this word is there.
    fn has(&self, wanted: &str) -> bool {
        let words = self.words.unwrap_or(&[]);
        words.iter().any(|word| word.as_str() == wanted)
    }

    /// The word that names the command.
    fn command(&self) -> &str {
        match self.words {
            Some([first, ..]) => first.as_str(),
            _ => "",
        }
    }

    /// Says which word wasn't accepted, and what the commands are.
    fn tell_misuse<R: Eprint>(&self, rt: &R) -> io::Result<()> {
        if self.has("--version") {
            return rt.eprintln(VERSION);
        }
        if self.has("--help") || self.has("-h") || self.command() == "help" {
            rt.eprintln(COMMANDS)?;
            return rt.eprintln(STATUSES);
        }
        match self.words {
            Some(words) => eprintln!(rt; "cxlshm: {}", misuse_of(words))?,
            None => rt.eprintln(
                "cxlshm: the words can't be read: one of them isn't UTF-8, or there is no memory for them",
            )?,
        }
        rt.eprintln(COMMANDS)
    }

    /// Says what stands in the input where it is refused, and what is wanted there.
    fn tell_refusal<R: Eprint>(&self, rt: &R) -> io::Result<()> {
        let said = std::str::from_utf8(self.said).unwrap_or("");
        let language = match self.command() {
            "audit" | "migrate" => {
                return match ImageFinding::new(self.input, said) {
                    Some(finding) => eprintln!(rt; "cxlshm: {finding}"),
                    None => Ok(()),
                };
            }
            "tree" => Language::Script,
            _ => Language::Trace,
        };
        match Finding::new(language, self.input, said) {
            Some(finding) => eprintln!(rt; "cxlshm: {finding}"),
            None => Ok(()),
        }
    }

    /// Says that memory was wanting, and how much the pool takes, where the input tells it.
    fn tell_wanting<R: Eprint>(&self, rt: &R) -> io::Result<()> {
        rt.eprintln("cxlshm: there isn't enough memory")?;
        let held = self.input.len();
        match (self.command(), pool_bytes(self.input)) {
            ("audit" | "migrate", _) => {
                eprintln!(rt;
                    "  an audit takes three eighths of the image's length, and `migrate` the image, that and the new image"
                )
            }
            ("make", _) => rt.eprintln("  the pool alone takes 266408 bytes"),
            (_, Some(bytes)) => eprintln!(rt;
                "  the pool alone takes {bytes} bytes, and the input {held}"
            ),
            _ => Ok(()),
        }
    }
}

/// Says that standard input or output failed, and why, where the system says it.
fn tell_failure<R: Eprint>(rt: &R, what: &str, error: Option<io::Error>) -> io::Result<()> {
    match error {
        Some(error) => eprintln!(rt; "cxlshm: {what}: {error}"),
        None => eprintln!(rt; "cxlshm: {what}"),
    }
}
