//! Standard output that keeps why a write failed, and why standard input can't be read.

use std::cell::Cell;
use std::fmt::Display;
use std::io;
use std::io::Read;

/// What prints, which keeps why its last write that failed did so.
#[derive(Drop)]
pub struct Heard<'a, P> {
    to: &'a P,
    why: Cell<Option<io::Error>>,
}

impl<'a, P: Print> Heard<'a, P> {
    /// What prints to this, of which no write has failed yet.
    pub fn new(to: &'a P) -> Heard<'a, P> {
        Heard {
            to,
            why: Cell::new(None),
        }
    }

    /// Why the last write that failed did so.
    pub fn why(&self) -> Option<io::Error> {
        self.why.get()
    }
}

impl<P: Print> Print for Heard<'_, P> {
    fn print<D: Display + Drop>(&self, value: D) -> io::Result<()> {
        self.to.print(value)
    }

    fn println<D: Display + Drop>(&self, value: D) -> io::Result<()> {
        self.to.println(value)
    }

    fn write_all(&self, bytes: &[u8]) -> io::Result<()> {
        self.to.write_all(bytes)
    }

    fn write_some(&self, bytes: &[u8]) -> io::Result<usize> {
        match self.to.write_some(bytes) {
            Ok(n) => Ok(n),
            Err(error) => {
                self.why.set(Some(error));
                Err(error)
            }
        }
    }
}

/// Why standard input can't be read, where a second try fails too.
pub fn why_unread<I: Input>(rt: &I) -> Option<io::Error> {
    let mut byte = [0u8; 1];
    rt.reader().read(&mut byte).err()
}
