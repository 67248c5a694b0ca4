//! What is printed of answers and of pools.

ghost use Rattle.std.specs.Prelude.{◌<◌};
ghost use Rattle.shm_words.specs.Layout.{GeometryFits};

use crate::row::{Row, refusal};
use shm_plain::{PlainClosed, PlainPool};
use shm_words::{Geometry, Header};
use std::{fmt, io};

/// Prints the answer of a call.
pub fn tell<A: fmt::Debug>(rt: &HostRuntime, answer: &Option<A>) -> io::Result<()> {
    match answer {
        Some(answer) => println!(rt; "{answer:?}"),
        None => println!(rt; "no step was left"),
    }
}

/// Prints how many word steps are left.
pub fn tell_left(rt: &HostRuntime, left: u64) -> io::Result<()> {
    println!(rt; "left {left}")
}

/// Prints a word, unless it is 0.
pub fn tell_some(rt: &HostRuntime, at: usize, word: u64) -> io::Result<()> {
    if word == 0 {
        Ok(())
    } else {
        println!(rt; "word {at} {word}")
    }
}

/// `words FROM TO`: prints the words from one address on and before another that aren't 0.
fn words(rt: &HostRuntime, pool: &PlainPool, row: &Row) -> io::Result<()>
    requires geometry { GeometryFits pool.now.start.geometry }
{
    let total = pool.geometry().total();
    for at in 0..total {
        let place = u64::from(at);
        if row.at(0) <= place && place < row.at(1) {
            tell_some(rt, at as usize, pool.word(at))?;
        }
    }
    Ok(())
}

/// The word at the address that a row names.
fn word(pool: &PlainPool, row: &Row) -> io::Result<u64>
    requires geometry { GeometryFits pool.now.start.geometry }
{
    let at = row.block(0)?;
    if at < pool.geometry().total() {
        Ok(pool.word(at))
    } else {
        Err(refusal())
    }
}

/// `word AT`, `count AT` and `live AT`: prints a word, the count that it has as a header, or whether it is live as one.
fn tell_word(rt: &HostRuntime, name: &str, word: u64) -> io::Result<()> {
    match name {
        "word" => println!(rt; "{word}"),
        "count" => println!(rt; "{}", Header::unpack(word).count),
        _ => println!(rt; "{}", word >> 63),
    }
}

/// Prints the numbers of clients and of segments.
fn sizes(rt: &HostRuntime, geometry: Geometry) -> io::Result<()> {
    println!(rt; "{} {}", geometry.clients(), geometry.segments())
}

/// What a row asks of a pool: some of its words, its sizes, or whether it is `still`.
pub fn tell_pool(rt: &HostRuntime, pool: &PlainPool, name: &str, row: &Row) -> io::Result<()>
    requires geometry { GeometryFits pool.now.start.geometry }
{
    match name {
        "words" => words(rt, pool, row),
        "still" => println!(rt; "{}", pool.is_still()),
        "pool" => sizes(rt, pool.geometry()),
        _ => tell_word(rt, name, word(pool, row)?),
    }
}

/// The words of a closed pool that aren't 0.
fn closed_words(rt: &HostRuntime, words: &[u64]) -> io::Result<()> {
    for (at, &word) in words.iter().enumerate() {
        tell_some(rt, at, word)?;
    }
    Ok(())
}

/// `counted AT`: prints how many of the words at an address, and four words behind it, and so on, have a count as headers.
fn counted(rt: &HostRuntime, words: &[u64], row: &Row) -> io::Result<()> {
    let mut count = 0u64;
    for &word in words.iter().skip(row.at(0) as usize).step_by(4) {
        if Header::unpack(word).count != 0 {
            count = count.wrapping_add(1);
        }
    }
    println!(rt; "{count}")
}

/// What a row asks of a closed pool: its words that aren't 0, its sizes and how many words it has, or how many headers have a count.
pub fn tell_closed(
    rt: &HostRuntime,
    closed: &PlainClosed,
    name: &str,
    row: &Row,
) -> io::Result<()> {
    match name {
        "words" => closed_words(rt, closed.words()),
        "sizes" => {
            let geometry = closed.geometry();
            let (clients, segments) = (geometry.clients(), geometry.segments());
            println!(rt; "{clients} {segments} {}", closed.words().len())
        }
        "counted" => counted(rt, closed.words(), row),
        _ => Err(refusal()),
    }
}
