//! Rows of deaths within one put.
//!
//! - `alone FIRST END`: a client is cut after FIRST word steps or more, and less than END, and a recoverer dies after each of its word
//!   steps (cuts.rt). A trial that leaves the same as the one before isn't told again.
//! - `beside FIRST END`: the same with a copy by another client before the recovery, where a recoverer dies after up to 40 word steps.
//! - `recovered NUMBER DEATH LIFE ..`: a client that puts the number is cut after DEATH word steps, and recoverers of these lives die.
//! - `mend DEATH copied` and `mend DEATH alone`: a mending after the death of a put (mends.rt).
//! - `alone2`, `beside2`, `recovered2` and `mend2`: the same in format 2.
//!
//! What must be told of them (at the end of the file stdout) was made by an independent implementation.

use crate::cuts::{NUMBER, cut_alone, cut_beside};
use crate::mends::mend;
use std::alloc::{AllocError, Global};
use std::io;
use std::str::SplitWhitespace;

/// The most word steps that a recoverer makes before it dies.
const LIVES: u32 = 128;

/// The same where another client copies the key.
const LIVES_BESIDE: u32 = 40;

/// The number that a word spells.
fn number(word: &str) -> Option<u64> {
    word.parse().ok()
}

/// The next word as a number of word steps.
fn next_steps(words: &mut SplitWhitespace) -> Option<u32> {
    u32::try_from(number(words.next()?)?).ok()
}

/// The words that are left as numbers of word steps; none where one of them is no such number.
fn lives_of(alloc: Global, words: &mut SplitWhitespace) -> Result<Option<Vec<u32>>, AllocError> {
    let mut lives = Vec::new(alloc);
    for word in words {
        let Some(life) = number(word).and_then(|life| u32::try_from(life).ok()) else {
            return Ok(None);
        };
        lives.push(life)?;
    }
    Ok(Some(lives))
}

/// The first word steps after which a client is cut, and the ones after the last.
#[derive(Clone, Copy, Drop)]
struct Deaths {
    first: u32,
    end: u32,
}

/// The deaths that a text tells.
fn deaths_of(text: &str) -> Option<Deaths> {
    let mut words = text.split_whitespace();
    let first = next_steps(&mut words)?;
    let end = next_steps(&mut words)?;
    Some(Deaths { first, end })
}

/// Tells of a trial, unless the last one left the same.
fn tell_new(rt: &impl Print, last: &mut String, left: String) -> io::Result<()> {
    if last.as_str() != left.as_str() {
        println!(rt; "{left}")?;
        *last = left;
    }
    Ok(())
}

/// Cuts a client after so many word steps, with each life of a recoverer; false where a rule is broken.
fn tell_alone_at(rt: &HostRuntime, wide: bool, death: u32, last: &mut String) -> io::Result<bool> {
    for life in 1..=LIVES {
        let Some(left) = cut_alone(rt.alloc(), wide, NUMBER, death, &[life])? else {
            return Ok(false);
        };
        let text = format!(in rt.alloc();
            "shown {} answered {} {}",
            left.shown, left.answered, left.sizes
        )?;
        tell_new(rt, last, text)?;
        if !left.died {
            break;
        }
    }
    Ok(true)
}

/// The row `alone`.
fn tell_alone(rt: &HostRuntime, wide: bool, text: &str) -> io::Result<bool> {
    let Some(deaths) = deaths_of(text) else {
        return Ok(false);
    };
    let mut last = String::new(rt.alloc());
    for death in deaths.first..deaths.end {
        if !tell_alone_at(rt, wide, death, &mut last)? {
            return Ok(false);
        }
    }
    Ok(true)
}

/// Cuts a client beside a copy after so many word steps, with each life of a recoverer; false where a rule is broken.
fn tell_beside_at(rt: &HostRuntime, wide: bool, death: u32, last: &mut String) -> io::Result<bool> {
    for life in 0..=LIVES_BESIDE {
        let Some(left) = cut_beside(rt.alloc(), wide, death, life)? else {
            return Ok(false);
        };
        let text = format!(in rt.alloc(); "{:?} {}", left.answer, left.sizes)?;
        tell_new(rt, last, text)?;
    }
    Ok(true)
}

/// The row `beside`.
fn tell_beside(rt: &HostRuntime, wide: bool, text: &str) -> io::Result<bool> {
    let Some(deaths) = deaths_of(text) else {
        return Ok(false);
    };
    let mut last = String::new(rt.alloc());
    for death in deaths.first..deaths.end {
        if !tell_beside_at(rt, wide, death, &mut last)? {
            return Ok(false);
        }
    }
    Ok(true)
}

/// The row `recovered`.
fn tell_recovered(rt: &HostRuntime, wide: bool, text: &str) -> io::Result<bool> {
    let mut words = text.split_whitespace();
    let (Some(put), Some(death)) = (words.next().and_then(number), next_steps(&mut words)) else {
        return Ok(false);
    };
    let Some(lives) = lives_of(rt.alloc(), &mut words)? else {
        return Ok(false);
    };
    match cut_alone(rt.alloc(), wide, put, death, lives.as_slice())? {
        Some(left) => println!(rt; "{}", left.sizes)?,
        None => return Ok(false),
    }
    Ok(true)
}

/// The row `mend`.
fn tell_mend(rt: &HostRuntime, wide: bool, text: &str) -> io::Result<bool> {
    let mut words = text.split_whitespace();
    let Some(death) = next_steps(&mut words) else {
        return Ok(false);
    };
    let copied = words.next() == Some("copied");
    match mend(rt.alloc(), wide, death, copied)? {
        Some(all) => println!(rt; "{}, {:?}, {}", all.before, all.answer, all.after)?,
        None => return Ok(false),
    }
    Ok(true)
}

/// Tells of a row of this word; false where there is none, or a rule is broken.
pub fn tell_row(rt: &HostRuntime, word: &str, rest: &str) -> io::Result<bool> {
    match word {
        "alone" => tell_alone(rt, false, rest),
        "alone2" => tell_alone(rt, true, rest),
        "beside" => tell_beside(rt, false, rest),
        "beside2" => tell_beside(rt, true, rest),
        "recovered" => tell_recovered(rt, false, rest),
        "recovered2" => tell_recovered(rt, true, rest),
        "mend" => tell_mend(rt, false, rest),
        "mend2" => tell_mend(rt, true, rest),
        _ => Ok(false),
    }
}
