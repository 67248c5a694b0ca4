//! Why the words of a call aren't accepted.

use crate::form::{is_numeral, is_within};
use std::fmt;

/// Why words aren't accepted.
#[derive(Clone, Copy, Drop)]
pub enum Misuse<'a> {
    /// There are none.
    NoCommand,
    /// The first one names no command.
    Unknown(&'a str),
    /// The command doesn't take this word.
    Extra {
        command: &'a str,
        word: &'a str,
    },
    /// A file is named, and the command reads standard input.
    File {
        command: &'a str,
        word: &'a str,
    },
    /// This argument isn't there.
    Missing {
        command: &'a str,
        argument: &'static str,
    },
    /// The word of this argument isn't such a number.
    Number {
        word: &'a str,
        argument: &'static str,
        least: u64,
        most: u64,
    },
    /// Two of the words exclude each other, or one is there twice.
    Together {
        command: &'a str,
    },
}

impl fmt::Display for Misuse<'_> {
    fn fmt<W: fmt::Write>(&self, f: &mut fmt::Formatter<W>) -> fmt::Result {
        match *self {
            Misuse::NoCommand => write!(f, "a command is missing"),
            Misuse::Unknown(word) => write!(f, "`{word}` is no command"),
            Misuse::Extra { command, word } => write!(f, "`{command}` doesn't take `{word}`"),
            Misuse::File { command, word } => write!(
                f,
                "`{command}` doesn't take `{word}`: it reads standard input: `cxlshm {command} < {word}`"
            ),
            Misuse::Missing { command, argument } => write!(f, "`{command}` lacks {argument}"),
            Misuse::Number {
                word,
                argument,
                least,
                most,
            } => write!(
                f,
                "`{word}` isn't accepted: {argument} is a number from {least} to {most}, in decimal without a leading zero"
            ),
            Misuse::Together { command } => write!(
                f,
                "two words of `{command}` exclude each other, or one of them is there twice"
            ),
        }
    }
}

/// The letters of the words that a command takes in order.
fn places_of(command: &str) -> &'static str {
    match command {
        "make" => "START SIZE",
        "poll" => "Q",
        _ => "",
    }
}

/// What a command takes after two dashes: the letter of the word that follows it, or none for a flag.
fn option_of(command: &str, name: &str) -> Option<Option<&'static str>> {
    match (command, name) {
        ("replay", "image" | "print") | ("run", "image") | ("make", "print") => Some(None),
        ("run", "medics") => Some(Some("K")),
        ("poll", "limit") => Some(Some("P")),
        _ => None,
    }
}

/// The least and the greatest number that an argument may be.
fn bounds_of(argument: &str) -> (u64, u64) {
    match argument {
        "SIZE" => (1, 4_000),
        "Q" | "P" => (1, 1_000_000),
        "K" => (1, 4),
        _ => (0, u64::MAX),
    }
}

/// Whether a word names a command.
fn is_command(word: &str) -> bool {
    matches!(
        word,
        "replay" | "run" | "audit" | "make" | "migrate" | "poll" | "tree"
    )
}

/// What is wrong with the word of an argument, if anything is.
fn number_misuse<'a>(argument: &'static str, word: &'a str) -> Option<Misuse<'a>> {
    let (least, most) = bounds_of(argument);
    if is_numeral(word) && is_within(word, least, most) {
        return None;
    }
    Some(Misuse::Number {
        word,
        argument,
        least,
        most,
    })
}

/// What is wrong with a word that the command doesn't take.
fn extra<'a>(command: &'a str, word: &'a str) -> Misuse<'a> {
    if word.starts_with('-') || is_numeral(word) || command == "make" {
        Misuse::Extra { command, word }
    } else {
        Misuse::File { command, word }
    }
}

/// What is wrong with the words of a command after its name, as they are read one by one.
#[derive(Drop)]
struct Reading<'a> {
    command: &'a str,
    /// The letters of the arguments that haven't come yet, parted by spaces.
    places: &'static str,
    /// The letter of the argument that the next word is.
    next: Option<&'static str>,
    misuse: Option<Misuse<'a>>,
}

impl<'a> Reading<'a> {
    /// Reads one word more.
    fn take(&mut self, word: &'a str) {
        if self.misuse.is_some() {
            return;
        }
        if let Some(argument) = self.next.take() {
            self.misuse = number_misuse(argument, word);
        } else if let Some(name) = word.strip_prefix("--") {
            self.take_option(word, name);
        } else {
            self.take_place(word);
        }
    }

    /// Reads a word that begins with two dashes.
    fn take_option(&mut self, word: &'a str, named: &'a str) {
        let (name, value) = match named.split_once('=') {
            Some((name, value)) => (name, Some(value)),
            None => (named, None),
        };
        match (option_of(self.command, name), value) {
            (Some(Some(argument)), Some(value)) => self.misuse = number_misuse(argument, value),
            (Some(next), None) => self.next = next,
            _ => self.misuse = Some(extra(self.command, word)),
        }
    }

    /// Reads a word that is an argument by its place.
    fn take_place(&mut self, word: &'a str) {
        let (argument, rest) = self.places.split_once(' ').unwrap_or((self.places, ""));
        self.places = rest;
        self.misuse = if argument.is_empty() {
            Some(extra(self.command, word))
        } else {
            number_misuse(argument, word)
        };
    }

    /// What is wrong, where all words were read.
    fn end(self) -> Misuse<'a> {
        let command = self.command;
        if let Some(misuse) = self.misuse {
            return misuse;
        }
        let place = self.places.split(' ').next().unwrap_or("");
        match self.next {
            Some(argument) => Misuse::Missing { command, argument },
            None if !place.is_empty() => Misuse::Missing {
                command,
                argument: place,
            },
            None => Misuse::Together { command },
        }
    }
}

/// Why these words aren't accepted, where the program doesn't accept them.
pub fn misuse_of(words: &[String]) -> Misuse<'_> {
    let Some((first, rest)) = words.split_first() else {
        return Misuse::NoCommand;
    };
    let command = first.as_str();
    if !is_command(command) {
        return Misuse::Unknown(command);
    }
    let mut reading = Reading {
        command,
        places: places_of(command),
        next: None,
        misuse: None,
    };
    for word in rest {
        reading.take(word.as_str());
    }
    reading.end()
}
