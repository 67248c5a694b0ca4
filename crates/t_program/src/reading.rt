//! The words and the numbers of a row.

use std::alloc::{AllocError, Global};

/// The words of a row, which stand between spaces; what stands in quotes is one word.
pub fn words(alloc: Global, row: &str) -> Result<Vec<String>, AllocError> {
    let mut words = Vec::new(alloc);
    let mut is_quoted = false;
    for piece in row.split('"') {
        if is_quoted {
            words.push(String::from_str(alloc, piece)?)?;
        } else {
            add_words(alloc, &mut words, piece)?;
        }
        is_quoted = !is_quoted;
    }
    Ok(words)
}

/// Adds the words between spaces.
fn add_words(alloc: Global, words: &mut Vec<String>, text: &str) -> Result<(), AllocError> {
    for word in text.split_whitespace() {
        words.push(String::from_str(alloc, word)?)?;
    }
    Ok(())
}

/// The number that a word spells, 0 where it is none.
pub fn number(word: &str) -> u64 {
    word.parse().unwrap_or(0)
}

/// Two numbers behind each other.
pub fn pair(row: &str) -> (u64, u64) {
    let (first, second) = row.split_once(' ').unwrap_or((row, ""));
    (number(first), number(second))
}

/// The number at a place among words, 0 where there is none.
pub fn number_at(words: &[String], at: usize) -> u64 {
    match words.get(at) {
        Some(word) => number(word.as_str()),
        None => 0,
    }
}
