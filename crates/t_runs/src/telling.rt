//! A run of a machine, told step by step.

use crate::case::{Case, Other, put};
use crate::make;
use plans::{Calls, Plan};
use shm_graph::{Ask, Machine, Turn};
use std::{fmt, io};

/// The line that tells of word steps: whether it has begun.
#[derive(Drop)]
struct Line {
    begun: bool,
}

impl Line {
    /// Begins it, where that is to do.
    fn begin(&mut self, rt: &impl Print) -> io::Result<()> {
        if !self.begun {
            self.begun = true;
            print!(rt; " ")?;
        }
        Ok(())
    }

    /// Ends it, where it has begun.
    fn end(&mut self, rt: &impl Print) -> io::Result<()> {
        if self.begun {
            self.begun = false;
            println!(rt; "")?;
        }
        Ok(())
    }
}

/// Tells of a load.
fn tell_load(rt: &impl Print, at: u32, found: u64) -> io::Result<()> {
    print!(rt; " L{at}={found}")
}

/// Tells of a store.
fn tell_store(rt: &impl Print, at: u32, value: u64) -> io::Result<()> {
    print!(rt; " S{at}={value}")
}

/// Tells of an exchange.
fn tell_exchange(rt: &impl Print, at: u32, from: u64, to: u64) -> io::Result<()> {
    print!(rt; " X{at}:{from}>{to}")
}

/// Tells of the other word that an exchange found.
fn tell_lost(rt: &impl Print, found: u64) -> io::Result<()> {
    print!(rt; "!{found}")
}

/// Tells of a store of another client.
fn tell_other(rt: &impl Print, at: u64, value: u64) -> io::Result<()> {
    print!(rt; " O{at}={value}")
}

/// Tells of a word step and the word that it found.
fn tell(rt: &impl Print, ask: Ask, found: u64) -> io::Result<()> {
    match ask {
        Ask::Load { at } => tell_load(rt, at, found),
        Ask::Store { at, value } => tell_store(rt, at, value),
        Ask::Exchange { at, from, to } => {
            tell_exchange(rt, at, from, to)?;
            if found == from {
                Ok(())
            } else {
                tell_lost(rt, found)
            }
        }
    }
}

/// Whether a word step is a store into the own era.
fn closes(ask: Ask, era: Option<u32>) -> bool {
    match ask {
        Ask::Store { at, .. } => era == Some(at),
        _ => false,
    }
}

/// Makes a store of another client and tells of it, where it is due before this word step.
fn other(
    rt: &impl Print,
    line: &mut Line,
    words: &mut Vec<u64>,
    other: Other,
    step: u64,
) -> io::Result<()> {
    if other.step == step {
        put(words, other.at, other.value);
        line.begin(rt)?;
        tell_other(rt, other.at, other.value)?;
    }
    Ok(())
}

/// Makes what others store before a word step.
fn others(rt: &impl Print, line: &mut Line, case: &mut Case, step: u64) -> io::Result<()> {
    for &store in &case.others {
        other(rt, line, &mut case.words, store, step)?;
    }
    Ok(())
}

/// Makes the word step that a machine asks for, and tells of it; none where it can't be made.
fn step<M: Machine>(
    rt: &impl Print,
    line: &mut Line,
    case: &mut Case,
    machine: &mut M,
) -> io::Result<Option<Turn<M::Answer>>>
where
    M::Answer: Drop,
{
    if machine.finished() {
        return Ok(None);
    }
    let ask = machine.ask();
    let Some(found) = make(&mut case.words, ask) else {
        return Ok(None);
    };
    line.begin(rt)?;
    tell(rt, ask, found)?;
    if closes(ask, case.own_era(machine.me().who)) {
        line.end(rt)?;
    }
    Ok(Some(machine.take(found)))
}

/// Makes the word steps of a machine, and tells of them; its answer, where it has one.
fn steps<M: Machine>(
    rt: &impl Print,
    case: &mut Case,
    machine: &mut M,
) -> io::Result<Option<M::Answer>>
where
    M::Answer: Drop,
{
    let mut line = Line { begun: false };
    let mut answer = None;
    for n in 0..case.most {
        others(rt, &mut line, case, n)?;
        match step(rt, &mut line, case, machine)? {
            Some(Turn::More) => {}
            Some(Turn::Done(done)) => {
                answer = Some(done);
                break;
            }
            _ => break,
        }
    }
    line.end(rt)?;
    Ok(answer)
}

/// Tells of an answer, where a machine has ended with one.
fn tell_answer<A: Drop + fmt::Debug>(
    rt: &impl Print,
    answer: Option<A>,
    finished: bool,
) -> io::Result<()> {
    match answer {
        Some(answer) if finished => println!(rt; "  = {answer:?}"),
        _ => println!(rt; "  = stopped"),
    }
}

/// Tells of a word that is another than before.
fn change(rt: &impl Print, at: usize, begun: bool, value: u64) -> io::Result<()> {
    if !begun {
        print!(rt; "  changed")?;
    }
    print!(rt; " {at}={value}")
}

/// Tells of the words that are others than before.
fn changes(rt: &impl Print, case: &mut Case) -> io::Result<()> {
    let mut begun = false;
    for (at, (old, new)) in case.before.iter_mut().zip(case.words.iter()).enumerate() {
        if *old != *new {
            change(rt, at, begun, *new)?;
            *old = *new;
            begun = true;
        }
    }
    if begun {
        println!(rt; "")?;
    }
    Ok(())
}

/// Tells that a row makes no machine.
fn refused(rt: &impl Print) -> io::Result<()> {
    println!(rt; "  refused")
}

/// Runs a machine on the words and tells of it: a line of word steps, which ends at each store into the own era; the answer; and the words that
/// are others than before.
///
/// `L9=5` is a load of word 9 that finds 5, `S9=5` a store of 5, `X9:5>7` an exchange of 5 for 7, `X9:5>7!6` one that finds 6, and `O9=5` what
/// another client stores before the next word step. A machine that makes no further word step has no answer and is `stopped`. Where there is
/// no machine, since no such one is made of the row's numbers, the row is `refused`.
pub fn go<M: Machine>(rt: &impl Print, machine: Option<M>, case: &mut Case) -> io::Result<()>
where
    M: Drop,
    M::Answer: Drop + fmt::Debug,
{
    let Some(mut machine) = machine else {
        return refused(rt);
    };
    let answer = steps(rt, case, &mut machine)?;
    case.end();
    tell_answer(rt, answer, machine.finished())?;
    changes(rt, case)
}

/// The same of a machine of calls, by its plan. (A function that names the machine itself is proved twice as slowly.)
pub fn go_calls<P: Plan>(rt: &impl Print, plan: Option<P>, case: &mut Case) -> io::Result<()>
where
    P: Drop,
    P::Answer: Drop + fmt::Debug,
{
    let Some(plan) = plan else {
        return refused(rt);
    };
    go(rt, Some(Calls::new(plan)), case)
}
