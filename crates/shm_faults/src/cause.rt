//! Why a line of a trace or of a script isn't accepted.

use crate::form::{Language, bounds_of, is_numeral, is_within};
use crate::line::Line;
use std::fmt;

/// Why a line isn't accepted.
#[derive(Clone, Copy, Drop)]
pub enum Cause<'a> {
    /// The input ends before it.
    Missing,
    /// It has no line feed at its end.
    Unended,
    /// It ends with a carriage return and a line feed.
    CarriageReturn,
    Blank,
    Tab,
    Comment,
    /// A space stands at an end, or two stand side by side.
    Spaces,
    /// It isn't text.
    Bytes,
    /// No line begins with this word.
    Word(&'a str),
    /// It has another number of words than its form.
    Count {
        form: &'static str,
    },
    /// This word is no number.
    Number {
        word: &'a str,
        form: &'static str,
    },
    /// It may not stand here.
    Place {
        word: &'a str,
        place: &'static str,
    },
    /// This number is out of its range.
    Range {
        value: &'a str,
        letter: &'static str,
        least: u64,
        most: u64,
    },
    /// The numbers of a life line are too large together.
    Sum,
    /// A client sends to itself, or receives from itself.
    Itself,
    /// A script of this client began at another line.
    Twice {
        line: usize,
    },
    /// An order has too many items.
    Items,
    /// The whole input is too long.
    Long,
}

impl fmt::Display for Cause<'_> {
    fn fmt<W: fmt::Write>(&self, f: &mut fmt::Formatter<W>) -> fmt::Result {
        match *self {
            Cause::Missing => write!(f, "the input ends before it"),
            Cause::Unended => write!(f, "it has no line feed at its end, and each line needs one"),
            Cause::CarriageReturn => write!(
                f,
                "it ends with a carriage return and a line feed (CR LF), and a line feed alone is wanted"
            ),
            Cause::Blank => write!(f, "it is empty, and no line may be"),
            Cause::Tab => write!(f, "it has a tab, and words are parted by one space"),
            Cause::Comment => write!(f, "there are no comments"),
            Cause::Spaces => write!(
                f,
                "a space stands at its end, at its beginning or beside another one, and words are parted by one space"
            ),
            Cause::Bytes => write!(f, "it isn't ASCII text"),
            Cause::Word(word) => write!(f, "no line begins with `{word}`"),
            _ => self.write_numbers(f),
        }
    }
}

impl Cause<'_> {
    /// Writes the causes that speak of numbers and of places.
    fn write_numbers<W: fmt::Write>(&self, f: &mut fmt::Formatter<W>) -> fmt::Result {
        match *self {
            Cause::Count { form } => write!(
                f,
                "it has too many words or too few: `{form}` is wanted"
            ),
            Cause::Number { word, form } => write!(
                f,
                "`{word}` isn't a number in decimal without a leading zero: `{form}` is wanted"
            ),
            Cause::Place { word, place } => write!(
                f,
                "a line with `{word}` may not stand here: {place}"
            ),
            Cause::Range {
                value,
                letter,
                least,
                most,
            } => write!(
                f,
                "{value} is out of range: {letter} is {least} to {most} here"
            ),
            Cause::Sum => write!(f, "its numbers are more than 1099511627776 together"),
            Cause::Itself => write!(f, "a client may not send to itself or receive from itself"),
            Cause::Twice { line } => write!(f, "that client has a script already, at line {line}"),
            Cause::Items => write!(f, "an order has 1000 items at most"),
            Cause::Long => write!(f, "the input has more than 1048576 bytes"),
            _ => Ok(()),
        }
    }
}

/// Why the line of this number isn't accepted, where the program named it by this kind.
pub fn cause_of<'a>(
    language: Language,
    input: &'a [u8],
    line: Option<Line<'a>>,
    kind: &str,
) -> Cause<'a> {
    if kind == "limit" && input.len() > 1_048_576 {
        return Cause::Long;
    }
    let Some(line) = line else {
        return Cause::Missing;
    };
    match kind {
        "limit" => Cause::Items,
        "twice" => Cause::Twice {
            line: first_place(input, line.bytes),
        },
        "range" => range_cause(language, line, clients_in(input)),
        _ => syntax_cause(language, line),
    }
}

/// The number of the first line with these bytes.
fn first_place(input: &[u8], bytes: &[u8]) -> usize {
    let place = input
        .split(|&byte| byte == b'\n')
        .position(|line| line == bytes);
    place.unwrap_or(0).saturating_add(1)
}

/// How many clients the first line says that there are, and 16 where it says nothing of them.
fn clients_in(input: &[u8]) -> u64 {
    let first = input.split(|&byte| byte == b'\n').next().unwrap_or(&[]);
    let text = std::str::from_utf8(first).unwrap_or("");
    let number = text.split(' ').nth(1).unwrap_or("");
    number.parse::<u64>().unwrap_or(16)
}

/// Why a line isn't of any form, or may not stand where it does.
fn syntax_cause(language: Language, line: Line<'_>) -> Cause<'_> {
    if !line.is_ended {
        return Cause::Unended;
    }
    let Some(text) = line.text() else {
        return Cause::Bytes;
    };
    if !text.is_ascii() {
        Cause::Bytes
    } else if text.ends_with('\r') {
        Cause::CarriageReturn
    } else if text.is_empty() {
        Cause::Blank
    } else if text.contains('\t') {
        Cause::Tab
    } else if text.starts_with('#') || text.starts_with("//") {
        Cause::Comment
    } else if text.starts_with(' ') || text.ends_with(' ') || text.contains("  ") {
        Cause::Spaces
    } else {
        words_cause(language, text)
    }
}

/// Why words that stand apart aren't a line that may stand where it does.
fn words_cause(language: Language, text: &str) -> Cause<'_> {
    let (word, rest) = text.split_once(' ').unwrap_or((text, ""));
    let Some(form) = language.form_of(word) else {
        return Cause::Word(word);
    };
    let found = text.split(' ').count();
    let is_list = form.ends_with(" ..");
    if found < 2 || !is_list && found != form.split(' ').count() {
        return Cause::Count { form };
    }
    let is_bad = |part: &str| !is_numeral(part);
    let bad = if word == "order" {
        rest.split([' ', ':']).find(|&part| is_bad(part))
    } else {
        rest.split(' ').find(|&part| is_bad(part))
    };
    match bad {
        Some(word) => Cause::Number { word, form },
        None => Cause::Place {
            word,
            place: language.place_of(word),
        },
    }
}

/// Which number of a line is out of its range, or what else is wrong with its numbers.
fn range_cause(language: Language, line: Line<'_>, clients: u64) -> Cause<'_> {
    let text = line.text().unwrap_or("");
    let (word, rest) = text.split_once(' ').unwrap_or((text, ""));
    let form = language.form_of(word).unwrap_or("");
    if word == "order" {
        return order_cause(rest, clients);
    }
    if word == "life" {
        return life_cause(rest);
    }
    for (letter, value) in form.split(' ').skip(1).zip(rest.split(' ')) {
        if let Some(cause) = out_of_range(word, letter, value, clients) {
            return cause;
        }
    }
    Cause::Itself
}

/// That a number is out of the range of its letter, where it is.
fn out_of_range<'a>(
    word: &str,
    letter: &'static str,
    value: &'a str,
    clients: u64,
) -> Option<Cause<'a>> {
    let (least, most) = bounds_of(word, letter, clients);
    if is_within(value, least, most) {
        return None;
    }
    Some(Cause::Range {
        value,
        letter,
        least,
        most,
    })
}

/// Which item of an order is out of its range.
fn order_cause(items: &str, clients: u64) -> Cause<'_> {
    for item in items.split(' ') {
        let (client, turns) = item.split_once(':').unwrap_or((item, "1"));
        if let Some(cause) = out_of_range("order", "C", client, clients) {
            return cause;
        }
        if let Some(cause) = out_of_range("order", "T", turns, clients) {
            return cause;
        }
    }
    Cause::Items
}

/// Which number of a life line is out of its range, or that all of them are together.
fn life_cause(numbers: &str) -> Cause<'_> {
    for number in numbers.split(' ') {
        if let Some(cause) = out_of_range("life", "L", number, 0) {
            return cause;
        }
    }
    Cause::Sum
}
