//! What is said of refused words and of refused input, by the rows of standard input.
//!
//! A line that begins with `#` is a title: it is told as it is, and an empty input begins. Other rows build the input (`+ LINE`, `byte B`,
//! `cut`) or make the call of their name and tell what it answers: `words` on the words of a call, `trace`, `script` and `image` on the line
//! that the program wrote where it refused the input, and `pool` on the input alone.
#![tactic(auto)]

use shm_faults::{Finding, ImageFinding, Language, misuse_of, pool_bytes};
use std::alloc::{AllocError, Global};
use std::io;

/// The words of a row.
fn words_of(alloc: Global, rest: &str) -> Result<Vec<String>, AllocError> {
    let mut words = Vec::new(alloc);
    for word in rest.split_whitespace() {
        words.push(String::from_str(alloc, word)?)?;
    }
    Ok(words)
}

/// Tells what is wrong with words.
fn tell_words(rt: &HostRuntime, rest: &str) -> io::Result<()> {
    let words = words_of(rt.alloc(), rest)?;
    println!(rt; "{}", misuse_of(words.as_slice()))
}

/// Tells what is wrong with a line.
fn tell_line(rt: &HostRuntime, language: Language, input: &[u8], said: &str) -> io::Result<()> {
    match Finding::new(language, input, said) {
        Some(finding) => println!(rt; "{finding}"),
        None => rt.println("nothing"),
    }
}

/// Does what a row says that makes a call.
fn tell(rt: &HostRuntime, input: &[u8], kind: &str, rest: &str) -> io::Result<()> {
    match kind {
        "words" => tell_words(rt, rest),
        "trace" => tell_line(rt, Language::Trace, input, rest),
        "script" => tell_line(rt, Language::Script, input, rest),
        "image" => match ImageFinding::new(input, rest) {
            Some(finding) => println!(rt; "{finding}"),
            None => rt.println("nothing"),
        },
        "pool" => match pool_bytes(input) {
            Some(bytes) => println!(rt; "{bytes} bytes"),
            None => rt.println("nothing"),
        },
        _ => rt.println("no such row"),
    }
}

/// Does what a row says.
fn run_row(rt: &HostRuntime, input: &mut Vec<u8>, row: &str) -> io::Result<()> {
    let (kind, rest) = row.split_once(' ').unwrap_or((row, ""));
    match kind {
        "#" => {
            input.clear();
            println!(rt; "# {rest}")
        }
        "+" => {
            input.extend_from_slice(rest.as_bytes())?;
            input.push(b'\n')?;
            Ok(())
        }
        "byte" => {
            input.push(rest.parse::<u8>().unwrap_or(0))?;
            Ok(())
        }
        "cut" => {
            let _ = input.pop();
            Ok(())
        }
        _ => tell(rt, input.as_slice(), kind, rest),
    }
}

fn main(rt: HostRuntime) -> io::Result<()> {
    let mut input = Vec::new(rt.alloc());
    for line in rt.lines(rt.alloc()) {
        run_row(&rt, &mut input, line?.as_str())?;
    }
    Ok(())
}
