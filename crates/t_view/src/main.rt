//! Calls of `cxlview`, by the rows of standard input.
//!
//! A row `# TITLE` is told as it is, and an empty input begins. `image F N G` begins the input anew as the image of a pool of format F with
//! N clients and G segments, whose words are 0, and `and F N G` adds such an image to it; `set AT WORD` sets a word of the pool, as if all
//! behind its sizes were its words, `byte AT B` a byte of the input, and `cut LEN` keeps its first LEN bytes. `+ LINE` adds a line to it,
//! and `lines K LINE` K of them. `read K` and `write K` have the read or the write of number K fail in the next call. `view WORD ..` makes
//! the call with these words: it tells the status, what goes to standard error, and what is written.
#![tactic(auto)]

mod input;

use crate::input::change;
use shm_io::{MemorySink, MemorySource};
use std::alloc::{AllocError, Global};
use std::io;
use view_program::view;

/// What the next call reads, and which read and which write of it fail: by their numbers from 1, and 0 for none.
#[derive(Drop)]
struct Desk {
    input: Vec<u8>,
    read_fails: u32,
    write_fails: u32,
}

impl Desk {
    /// An empty input, and nothing that fails.
    fn new(alloc: Global) -> Desk {
        Desk {
            input: Vec::new(alloc),
            read_fails: 0,
            write_fails: 0,
        }
    }
}

/// The list of the one number, and of none where it is 0.
fn failing(alloc: Global, number: u32) -> Result<Vec<u32>, AllocError> {
    let mut list = Vec::new(alloc);
    if number > 0 {
        list.push(number)?;
    }
    Ok(list)
}

/// The words of a row.
fn words_of(alloc: Global, rest: &str) -> Result<Vec<String>, AllocError> {
    let mut words = Vec::new(alloc);
    for word in rest.split_whitespace() {
        words.push(String::from_str(alloc, word)?)?;
    }
    Ok(words)
}

/// Makes a call, and tells what comes of it.
fn tell_call(rt: &HostRuntime, desk: &Desk, rest: &str) -> io::Result<()> {
    let alloc = rt.alloc();
    let words = words_of(alloc, rest)?;
    let input = desk.input.as_slice().to_vec(alloc)?;
    let mut source = MemorySource::new(input, 4096, failing(alloc, desk.read_fails)?);
    let mut sink = MemorySink::new(alloc, 1 << 22, 4096, failing(alloc, desk.write_fails)?)?;
    let outcome = view(alloc, words.as_slice(), &mut source, &mut sink);
    println!(rt; "> {rest}")?;
    println!(rt; "status {}", outcome.status)?;
    rt.print(outcome.said.as_str())?;
    rt.print(std::str::from_utf8(sink.bytes()).unwrap_or("bytes that are no text\n"))
}

/// Does what a row says.
fn run_row(rt: &HostRuntime, desk: &mut Desk, row: &str) -> io::Result<()> {
    let (kind, rest) = row.split_once(' ').unwrap_or((row, ""));
    match kind {
        "#" => {
            *desk = Desk::new(rt.alloc());
            println!(rt; "# {rest}")
        }
        "read" => {
            desk.read_fails = rest.parse().unwrap_or(0);
            Ok(())
        }
        "write" => {
            desk.write_fails = rest.parse().unwrap_or(0);
            Ok(())
        }
        "view" => {
            tell_call(rt, desk, rest)?;
            desk.read_fails = 0;
            desk.write_fails = 0;
            Ok(())
        }
        _ => {
            change(rt.alloc(), &mut desk.input, kind, rest)?;
            Ok(())
        }
    }
}

fn main(rt: HostRuntime) -> io::Result<()> {
    let mut desk = Desk::new(rt.alloc());
    for line in rt.lines(rt.alloc()) {
        run_row(&rt, &mut desk, line?.as_str())?;
    }
    Ok(())
}
