//! Rows that build the text.

use std::io;

/// A row's first word, and what stands behind the blank after it.
pub fn halves(line: &str) -> (&str, &str) {
    match line.split_once(' ') {
        Some(halves) => halves,
        None => (line, ""),
    }
}

/// A number, 0 where the word is none.
pub fn number(word: &str) -> u64 {
    match word.parse() {
        Ok(number) => number,
        Err(_) => 0,
    }
}

/// A number below 2^32, 0 where the word is none.
pub fn small(word: &str) -> u32 {
    match word.parse() {
        Ok(number) => number,
        Err(_) => 0,
    }
}

/// Three numbers below 2^32, 0 where there are fewer.
pub fn numbers(rest: &str) -> [u32; 3] {
    let (one, rest) = halves(rest);
    let (two, three) = halves(rest);
    [small(one), small(two), small(three)]
}

/// Adds a line and its line feed.
pub fn add_line(text: &mut Vec<u8>, line: &str) -> io::Result<()> {
    text.extend_from_slice(line.as_bytes())?;
    text.push(b'\n')?;
    Ok(())
}

/// Adds a line so many times: the number, and the line.
pub fn add_lines(text: &mut Vec<u8>, rest: &str) -> io::Result<()> {
    let (many, line) = halves(rest);
    for _ in 0..number(many) {
        add_line(text, line)?;
    }
    Ok(())
}

/// Adds a blank and a word.
fn add_word(text: &mut Vec<u8>, word: &str) -> io::Result<()> {
    text.push(b' ')?;
    text.extend_from_slice(word.as_bytes())?;
    Ok(())
}

/// Adds a blank and a word so many times: the number, and the word.
pub fn add_words(text: &mut Vec<u8>, rest: &str) -> io::Result<()> {
    let (many, word) = halves(rest);
    for _ in 0..number(many) {
        add_word(text, word)?;
    }
    Ok(())
}

/// Adds the byte of a number.
pub fn add_byte(text: &mut Vec<u8>, rest: &str) -> io::Result<()> {
    text.push((number(rest) % 256) as u8)?;
    Ok(())
}

/// Adds so many bytes: 0 to 250, and again from 0 on.
pub fn add_bytes(text: &mut Vec<u8>, rest: &str) -> io::Result<()> {
    for n in 0..number(rest) {
        text.push((n % 251) as u8)?;
    }
    Ok(())
}

/// Takes so many bytes away from the end.
pub fn cut(text: &mut Vec<u8>, rest: &str) -> io::Result<()> {
    let len = text.len().saturating_sub(number(rest) as usize);
    text.truncate(len);
    Ok(())
}
