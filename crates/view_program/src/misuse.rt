//! What is said where the words of a call aren't accepted.

use std::alloc::{AllocError, Global};

/// The commands, a line each.
const COMMANDS: &str = "usage:
  cxlview stats < IMAGE           write the figures of an image as aligned text
  cxlview stats --json < IMAGE    write them as JSON
  cxlview pool < IMAGE > SVG      draw the pool of an image
  cat IMAGE IMAGE | cxlview pool --changes > SVG
                                  draw what changed from the first image to the second one
  cxlview steps < TRACE           write at which word steps each command of a trace's replay begins, decides and ends
  cxlview steps --words < TRACE   write each word step of it
  cxlview run < TRACE > SVG       draw the replay of a trace
`pool` takes --client C: the client whose table's references are drawn. `steps` and `run` take --from T and --to T: the first and the last turn that are shown.
";

/// The statuses.
const STATUSES: &str = "Input comes on standard input, and what is written goes to standard output.
status: 0 done, 2 words not accepted, 3 input refused, 4 a read failed, 5 a write failed, 6 no memory
docs/VIEW.md says what the figures and the pictures show, docs/IMAGE.md what an image is, docs/TRACE.md what a trace is.
";

/// Why these words aren't accepted, and what the commands are; or a page of help, where they ask for one.
pub fn misuse_text(alloc: Global, words: &[String]) -> Result<String, AllocError> {
    let (first, rest) = match words {
        [first, rest @ ..] => (first.as_str(), rest),
        [] => return format!(in alloc; "cxlview: a command is missing\n{COMMANDS}"),
    };
    if words.iter().any(|word| is_help(word.as_str())) {
        return format!(in alloc; "{COMMANDS}{STATUSES}");
    }
    if !matches!(first, "stats" | "pool" | "steps" | "run") {
        return format!(in alloc; "cxlview: `{first}` is no command\n{COMMANDS}");
    }
    match first_strange(first, rest) {
        Some(word) if word.starts_with('-') => format!(in alloc;
            "cxlview: `{first}` doesn't take `{word}`\n{COMMANDS}"
        ),
        Some(word) if first == "pool" && has(rest, "--changes") => format!(in alloc;
            "cxlview: `{first}` doesn't take `{word}`: it reads two images from standard input: `cat IMAGE IMAGE | cxlview pool --changes`\n{COMMANDS}"
        ),
        Some(word) => format!(in alloc;
            "cxlview: `{first}` doesn't take `{word}`: it reads standard input: `cxlview {first} < {word}`\n{COMMANDS}"
        ),
        None if has_twice(rest) => format!(in alloc;
            "cxlview: `{first}` doesn't take a word twice\n{COMMANDS}"
        ),
        None if names_both(rest) => format!(in alloc;
            "cxlview: `pool` doesn't take `--changes` and `--client` together\n{COMMANDS}"
        ),
        None if first == "pool" => format!(in alloc;
            "cxlview: behind `--client` stands the number of a client, from 0 to 15\n{COMMANDS}"
        ),
        None => format!(in alloc;
            "cxlview: behind `--from` and `--to` stands the number of a turn, from 1 on, and the first turn isn't behind the last one\n{COMMANDS}"
        ),
    }
}

/// Whether a word asks for help.
fn is_help(word: &str) -> bool {
    matches!(word, "help" | "--help" | "-h")
}

/// The first word that a command doesn't take.
fn first_strange<'a>(command: &str, words: &'a [String]) -> Option<&'a str> {
    let mut is_number = false;
    for word in words {
        let word = word.as_str();
        if is_number {
            is_number = false;
        } else if !takes(command, word) {
            return Some(word);
        } else {
            is_number = matches!(word, "--from" | "--to" | "--client");
        }
    }
    None
}

/// Whether a command takes a word.
fn takes(command: &str, word: &str) -> bool {
    match command {
        "stats" => word == "--json",
        "pool" => word == "--changes" || kind_of(word) == "--client",
        "steps" => word == "--words" || names_turn(word),
        "run" => names_turn(word),
        _ => false,
    }
}

/// Whether a word names the first or the last turn.
fn names_turn(word: &str) -> bool {
    matches!(kind_of(word), "--from" | "--to")
}

/// Whether the words ask for what changed, and name a client too.
fn names_both(words: &[String]) -> bool {
    has(words, "--changes") && has(words, "--client")
}

/// Whether a word is of this kind.
fn has(words: &[String], kind: &str) -> bool {
    words.iter().any(|word| kind_of(word.as_str()) == kind)
}

/// A word up to its first `=`.
fn kind_of(word: &str) -> &str {
    match word.split_once('=') {
        Some((kind, _)) => kind,
        None => word,
    }
}

/// Whether a word is there twice, whatever is behind its `=`.
fn has_twice(words: &[String]) -> bool {
    for (place, word) in words.iter().enumerate() {
        let kind = kind_of(word.as_str());
        for other in words.iter().skip(place).skip(1) {
            if kind.starts_with("--") && kind_of(other.as_str()) == kind {
                return true;
            }
        }
    }
    false
}
