//! Numbers of a line.

use std::str::SplitWhitespace;

/// The number that a word spells.
pub fn number(word: &str) -> Option<u64> {
    word.parse().ok()
}

/// Up to three numbers, and 0 for each that is left out.
#[derive(Clone, Copy, Drop)]
pub struct Numbers {
    pub first: u64,
    pub second: u64,
    pub third: u64,
}

/// The next number, and 0 where there is no word left.
fn next(words: &mut SplitWhitespace) -> Option<u64> {
    match words.next() {
        Some(word) => number(word),
        None => Some(0),
    }
}

/// The numbers of a text.
pub fn read_numbers(text: &str) -> Option<Numbers> {
    let mut words = text.split_whitespace();
    let first = next(&mut words)?;
    let second = next(&mut words)?;
    let third = next(&mut words)?;
    Some(Numbers {
        first,
        second,
        third,
    })
}

/// Two numbers with a colon between them.
pub fn pair(text: &str) -> Option<(u64, u64)> {
    let (first, second) = text.split_once(':')?;
    Some((number(first)?, number(second)?))
}
