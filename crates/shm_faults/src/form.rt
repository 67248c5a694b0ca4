//! The forms of the lines of a trace and of a script, and the ranges of their numbers.

/// What an input is.
#[derive(Clone, Copy, Drop)]
pub enum Language {
    /// A trace, for `replay`, `run` and `poll`.
    Trace,
    /// A script for versions of an ordered map, for `tree`.
    Script,
}

/// The forms of a trace's lines: a word, and a letter for each number.
const TRACE: &str =
    "pool N G | pool2 N G | order C:T .. | client C | life L .. | put K V | del K | get C K | copy K C K | send C K | recv C K";

/// The forms of a script's lines.
const SCRIPT: &str = "tree G | life L | set A B K V | del A B K | get A K | copy A B | clear A";

impl Language {
    /// The forms of its lines, parted by ` | `.
    pub fn forms(self) -> &'static str {
        match self {
            Language::Trace => TRACE,
            Language::Script => SCRIPT,
        }
    }

    /// Its name.
    pub fn name(self) -> &'static str {
        match self {
            Language::Trace => "trace",
            Language::Script => "script",
        }
    }

    /// The forms of its first line.
    pub fn first(self) -> &'static str {
        match self {
            Language::Trace => "pool N G | pool2 N G",
            Language::Script => "tree G",
        }
    }

    /// The form of the lines that begin with this word.
    pub fn form_of(self, word: &str) -> Option<&'static str> {
        self.forms()
            .split(" | ")
            .find(|form| form.split(' ').next() == Some(word))
    }

    /// Where such a line may stand.
    pub fn place_of(self, word: &str) -> &'static str {
        match (self, word) {
            (Language::Trace, "pool" | "pool2") => "it is the first line, and no other one",
            (Language::Trace, "order") => "it is the second line, and no other one",
            (Language::Trace, "life") => "it is the line after `client C`",
            (Language::Trace, "client") =>
                "it stands after the first line, which is `pool N G` or `pool2 N G`",
            (Language::Trace, _) => "it stands in the script of a client, after `client C`",
            (Language::Script, "tree") => "it is the first line, and no other one",
            (Language::Script, "life") => "it is the second line, and no other one",
            (Language::Script, _) => "it stands after the first line, which is `tree G`",
        }
    }
}

/// The least and the greatest number that a letter stands for, in a line that begins with this word, where there are so many clients.
pub fn bounds_of(word: &str, letter: &str, clients: u64) -> (u64, u64) {
    match letter {
        "N" => (1, 16),
        "G" if word == "pool2" => (1, 8_000),
        "G" => (1, 256),
        "C" => (0, clients.saturating_sub(1)),
        "T" => (1, 100_000),
        "L" => (1, 1_099_511_627_776),
        "K" => (0, 4_294_967_295),
        "A" | "B" => (0, 11),
        _ => (0, u64::MAX),
    }
}

/// Whether a word is a number in decimal, of any size, without a leading zero.
pub fn is_numeral(word: &str) -> bool {
    let digits = word.as_bytes();
    digits.iter().all(|digit| digit.is_ascii_digit())
        && (digits.len() == 1 || digits.first().is_some_and(|&first| first != b'0'))
}

/// Whether a word is a number within these bounds.
pub fn is_within(word: &str, least: u64, most: u64) -> bool {
    match word.parse::<u64>() {
        Ok(number) => least <= number && number <= most,
        Err(_) => false,
    }
}
