//! Calls of the program over sources and sinks in memory, and the words and the status of its process, by rows on standard input.
//!
//! | Row | What it does |
//! |---|---|
//! | `# TITLE` | names what follows, and is told as it stands |
//! | `call WORD ..` | sets the words of calls, and streams that never fail; a word that is empty or holds spaces stands in quotes |
//! | `streams READ FAIL WRITE FAIL ROOM` | sets the streams: the most bytes that a read gives and which read fails (0: none), the same of writes, and the room of the sink |
//! | `input` | begins an input; the rows up to one of a point alone are its lines |
//! | `more` | goes on with it: the rows up to one of a point alone are more lines of it |
//! | `cut N`, `keep N` | takes the last N bytes of the input away, or all behind the first N |
//! | `pad BYTE N` | adds N times a byte to the input |
//! | `put AT NUMBER` | sets eight bytes of the input to a number, the lowest first |
//! | `again` | takes as input what the last call wrote |
//! | `go` | makes a call, and tells its status and what it wrote, and then a point |
//! | `sum` | makes a call, and tells its status, and how many bytes it wrote and their 64-bit FNV-1a sum |
//! | `meet` | makes a call with a gate at which four clients meet before their first command, and clients 0 and 1 before their hundredth again; tells its status, how many came to each meeting, whether one of them waited in vain, and how many logs there are |
//! | `clean` | has the program audit what the last call wrote, and tells the status and whether that is a clean image, but not how much is live in it, which threads may leave otherwise each time |
//! | `lives A B` | makes calls in whose input 1 to A stands for `N`: without anything for `M`, and with a space and 1 to B. Tells for each of the A what the first call came to, where that is new, and with how many of the B the others came to the same |
//! | `want CALL` | makes a call of a library: `parse`, `replay`, `run`, `report` or `migrate` with the input, or `plain N G`, `shared N G`, `close N G`, or lojarnek's `build N G` and `finish N G`, with a pool of N clients and G segments; and tells whether there was memory for it |
//! | `words` | tells how many words the pool has that the last call handed out, and those that aren't 0, behind their addresses |
//! | `answers` | tells the answers in the logs that it handed out, with the blocks that they name |
//! | `args WORD ..` | tells the words of a call whose process has these |
//! | `unread invalid`, `unread memory` | the same where those of the process can't be read |
//! | `exit STATUS`, `exit wanting` | tells whether the process ends with the status of a call, or with 6 where there was none for want of memory |
//!
//! What must be told (the file stdout) was computed by an independent implementation.
#![tactic(auto)]

mod call;
mod input;
mod left;
mod lives;
mod meeting;
mod process;
mod reading;
mod telling;
mod wanting;

use call::{Call, Made};
use input::Input;
use meeting::Meetings;
use std::alloc::{AllocError, AllocGlobal, Global};
use std::io;
use std::process::ExitCode;
use std::random::RandomSource;
use std::sync::Wait;
use std::thread::Threads;

/// The call that is made ready, and what the last one came to.
#[derive(Drop)]
struct Rows {
    call: Call,
    input: Input,
    last: Made,
}

impl Rows {
    /// Before the first row.
    fn new(alloc: Global) -> Rows {
        Rows {
            call: Call::new(Vec::new(alloc)),
            input: Input::new(alloc),
            last: Made::nothing(alloc),
        }
    }

    /// Makes the call, whose clients pass this gate.
    fn make<R: Threads + Wait + Sync + RandomSource + AllocGlobal>(
        &mut self,
        threads: &R,
        alloc: Global,
        gate: &Meetings,
    ) -> Result<(), AllocError> {
        let input = self.input.bytes();
        self.last = self.call.make(threads, alloc, input, gate)?;
        Ok(())
    }
}

/// A row that makes a call ready; false where it is another one.
fn prepare(alloc: Global, rows: &mut Rows, word: &str, rest: &str) -> Result<bool, AllocError> {
    match word {
        "call" => rows.call = Call::new(reading::words(alloc, rest)?),
        "streams" => rows.call.set_streams(&reading::words(alloc, rest)?),
        "again" => rows.input.set(rows.last.written.as_slice().to_vec(alloc)?),
        _ => return rows.input.take(word, rest),
    }
    Ok(true)
}

/// The audit of what a call wrote.
fn audited<R: Threads + Wait + Sync + RandomSource + AllocGlobal>(
    threads: &R,
    alloc: Global,
    last: &Made,
) -> Result<Made, AllocError> {
    let call = Call::new(reading::words(alloc, "audit")?);
    call.make(threads, alloc, last.written.as_slice(), &Meetings::none())
}

/// A row that makes a call; false where it is another one.
fn go<R: Threads + Wait + Sync + RandomSource + AllocGlobal>(
    rt: &HostRuntime,
    threads: &R,
    rows: &mut Rows,
    word: &str,
) -> io::Result<bool> {
    let gate = match word {
        "go" | "sum" => Meetings::none(),
        "meet" => Meetings::held(),
        _ => return Ok(false),
    };
    rows.make(threads, rt.alloc(), &gate)?;
    match word {
        "sum" => telling::sum(rt, &rows.last)?,
        "meet" => meeting::tell(rt, &rows.last, &gate)?,
        _ => telling::text(rt, &rows.last)?,
    }
    Ok(true)
}

/// A row that tells something.
fn tell<R: Threads + Wait + Sync + RandomSource + AllocGlobal>(
    rt: &HostRuntime,
    threads: &R,
    rows: &mut Rows,
    word: &str,
    rest: &str,
) -> io::Result<()> {
    match word {
        "#" => println!(rt; "# {rest}"),
        "lives" => lives::tell(
            rt,
            threads,
            &rows.call,
            rows.input.bytes(),
            reading::pair(rest),
        ),
        "clean" => telling::clean(rt, &audited(threads, rt.alloc(), &rows.last)?),
        "want" => wanting::tell(rt, threads, rest, rows.input.bytes()),
        "words" => left::words(rt, &rows.last.outcome.finished),
        "answers" => left::answers(rt, &rows.last.outcome.finished),
        "args" => process::args(rt, rest),
        "unread" => process::unread(rt, rest),
        "exit" => process::exit(rt, rest),
        _ => println!(rt; "unknown row {word}"),
    }
}

/// A row.
fn take<R: Threads + Wait + Sync + RandomSource + AllocGlobal>(
    rt: &HostRuntime,
    threads: &R,
    rows: &mut Rows,
    line: &str,
) -> io::Result<()> {
    if rows.input.is_open() {
        rows.input.line(line)?;
        return Ok(());
    }
    let (word, rest) = line.split_once(' ').unwrap_or((line, ""));
    if prepare(rt.alloc(), rows, word, rest)? || go(rt, threads, rows, word)? {
        return Ok(());
    }
    tell(rt, threads, rows, word, rest)
}

/// All rows.
fn take_all<R: Threads + Wait + Sync + RandomSource + AllocGlobal>(
    rt: &HostRuntime,
    threads: &R,
) -> io::Result<()> {
    let mut rows = Rows::new(rt.alloc());
    for line in rt.lines(rt.alloc()) {
        take(rt, threads, &mut rows, line?.as_str())?;
    }
    Ok(())
}

fn main(rt: HostRuntime) -> ExitCode {
    match take_all(&rt, &rt) {
        Ok(()) => ExitCode::SUCCESS,
        Err(_) => ExitCode::FAILURE,
    }
}
