//! The input of a call.

use crate::reading::{number, pair};
use std::alloc::{AllocError, Global};

/// The bytes of an input.
#[derive(Drop)]
pub struct Input {
    bytes: Vec<u8>,
    is_open: bool,
}

impl Input {
    /// No bytes.
    pub fn new(alloc: Global) -> Input {
        Input {
            bytes: Vec::new(alloc),
            is_open: false,
        }
    }

    /// The bytes so far.
    pub fn bytes(&self) -> &[u8] {
        self.bytes.as_slice()
    }

    /// Whether rows are lines of the input.
    pub fn is_open(&self) -> bool {
        self.is_open
    }

    /// Has other bytes.
    pub fn set(&mut self, bytes: Vec<u8>) {
        self.bytes = bytes;
    }

    /// A line of the input, or its end.
    pub fn line(&mut self, line: &str) -> Result<(), AllocError> {
        if line == "." {
            self.is_open = false;
            return Ok(());
        }
        self.bytes.extend_from_slice(line.as_bytes())?;
        self.bytes.push(b'\n')?;
        Ok(())
    }

    /// A row that begins or changes the input; false where it is another one.
    pub fn take(&mut self, word: &str, rest: &str) -> Result<bool, AllocError> {
        match word {
            "input" => self.begin(),
            "more" => self.is_open = true,
            "cut" => self.cut(number(rest) as usize),
            "keep" => self.bytes.truncate(number(rest) as usize),
            "pad" => self.pad(pair(rest))?,
            "put" => self.put(pair(rest)),
            _ => return Ok(false),
        }
        Ok(true)
    }

    /// Begins anew.
    fn begin(&mut self) {
        self.bytes.clear();
        self.is_open = true;
    }

    /// Takes the last bytes away.
    fn cut(&mut self, many: usize) {
        let len = self.bytes.len().saturating_sub(many);
        self.bytes.truncate(len);
    }

    /// Adds a byte so many times.
    fn pad(&mut self, (byte, many): (u64, u64)) -> Result<(), AllocError> {
        let byte = u8::try_from(byte).unwrap_or(0);
        for _ in 0..many {
            self.bytes.push(byte)?;
        }
        Ok(())
    }

    /// Sets the eight bytes from a place on to a number, the lowest first.
    fn put(&mut self, (at, number): (u64, u64)) {
        let places = self.bytes.iter_mut().skip(at as usize);
        for (place, byte) in places.zip(number.to_le_bytes()) {
            *place = byte;
        }
    }
}
