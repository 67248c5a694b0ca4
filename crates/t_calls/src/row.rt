//! The numbers of a row.

ghost use Rattle.std.specs.Prelude.{◌<◌, ◌^◌, IfOk};

use std::alloc::Global;
use std::io::{self, ErrorKind};

/// What the words of a line after its name say, 0 where a word is no number.
#[derive(Drop)]
pub struct Row {
    numbers: Vec<u64>,
}

/// The error of a line that asks for what may not be done.
pub fn refusal() -> io::Error {
    io::Error::from(ErrorKind::InvalidInput)
}

/// A number, 0 where the word is none.
fn number(word: &str) -> u64 {
    word.parse().unwrap_or(0)
}

impl Row {
    /// The numbers of a text.
    pub fn read(alloc: Global, text: &str) -> io::Result<Row> {
        let mut numbers = Vec::new(alloc);
        for word in text.split_whitespace() {
            numbers.push(number(word))?;
        }
        Ok(Row { numbers })
    }

    /// The number at a place, 0 where there is none.
    pub fn at(&self, place: usize) -> u64 {
        self.numbers.get(place).copied().unwrap_or(0)
    }

    /// The numbers from a place on.
    pub fn from(&self, place: usize) -> &[u64] {
        self.numbers.get(place..).unwrap_or(&[])
    }

    /// The number at a place, which is below a limit.
    pub fn below(&self, place: usize, limit: u64) -> io::Result<u64>
        ensures { IfOk result (λ n. n < limit) }
    {
        let number = self.at(place);
        if number < limit {
            Ok(number)
        } else {
            Err(refusal())
        }
    }

    /// The same, where the limit is at most 256.
    pub fn small(&self, place: usize, limit: u8) -> io::Result<u8>
        ensures { IfOk result (λ n. n < limit) }
    {
        let number = self.below(place, u64::from(limit))?;
        Ok(number as u8)
    }

    /// The address of a block at a place.
    pub fn block(&self, place: usize) -> io::Result<u32>
        ensures { IfOk result (λ b. b < 2 ^ 20) }
    {
        let number = self.below(place, 1 << 20)?;
        Ok(number as u32)
    }
}
