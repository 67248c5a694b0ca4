//! Deaths after every word step of an operation, and the recoveries after them, by the rows of standard input.
//!
//! A line `# ..` names what follows, and is told again. An operation is cut by these lines:
//!
//! - `pool CLIENTS SEGMENTS`: a pool of these sizes that all identities joined.
//! - `before WHO OP, OP ..`: what an identity makes there before, such as `alloc 0 77, send 1 121`; blocks and slots have the addresses of
//!   format 1. `run COMMAND` is a command of a table, such as `run put 5 77`.
//! - `between WHO COMMAND`: what another identity runs between the death and the recovery.
//! - `cut WHO OP`: the operation.
//!
//! Two lines tell of it, for a pool of format 1 and for one of format 2: how many word steps it makes, how many recoveries there were, and one
//! number that is made of all of them: of the word steps of the operation up to the death, of what another identity did then, of those of the
//! recoverers, and of all words that they left. After each death there is one recovery at once, and others where the first recoverer dies after
//! 1, 2, 5, 17 or 40 word steps. `rt run t_death -- each` has a line for each death instead, with deaths of the first recoverer after each of
//! its word steps.
//!
//! The other rows are of deaths within one put, with more deaths of recoverers (rows.rt). What must be told (the file stdout) was computed by
//! independent implementations. Where a recovery leaves what it mustn't (rules.rt) the program stops with status 1.
#![tactic(auto)]

mod case;
mod cuts;
mod mends;
mod op;
mod pool;
mod reading;
mod references;
mod rows;
mod rules;
mod trial;
mod trials;

use case::Case;
use rows::tell_row;
use std::process::ExitCode;
use std::{env, io};
use trials::tell_cut;

/// Takes or tells of one line; false where it is no row, or a rule is broken.
fn tell_line(rt: &HostRuntime, case: &mut Case, line: &str, each: bool) -> io::Result<bool> {
    let (word, rest) = line.split_once(' ').unwrap_or((line, ""));
    match word {
        "#" => println!(rt; "{line}").map(|()| true),
        "pool" => {
            case.begin(rest);
            Ok(true)
        }
        "before" => Ok(case.add_before(rest)?),
        "between" => Ok(case.set_between(rest)),
        "cut" => tell_cut(rt, case, rest, each),
        _ => tell_row(rt, word, rest),
    }
}

/// Tells of all lines; false where one is told as false.
fn tell(rt: &HostRuntime, each: bool) -> io::Result<bool> {
    let mut case = Case::new(rt.alloc());
    for line in rt.lines(rt.alloc()) {
        if !tell_line(rt, &mut case, line?.as_str(), each)? {
            return Ok(false);
        }
    }
    Ok(true)
}

/// Whether a word stands behind the program's name.
fn has_word(rt: &HostRuntime) -> io::Result<bool> {
    let mut words = env::args(rt)?;
    let _name = words.next();
    Ok(words.next().is_some())
}

fn main(rt: HostRuntime) -> ExitCode {
    match has_word(&rt).and_then(|each| tell(&rt, each)) {
        Ok(true) => ExitCode::SUCCESS,
        Ok(false) | Err(_) => ExitCode::FAILURE,
    }
}
