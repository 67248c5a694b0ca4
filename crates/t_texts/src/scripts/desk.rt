//! The text, and the source and the sink in memory.

use crate::scripts::texts::numbers;
use shm_io::{MemorySink, MemorySource};
use std::alloc::{AllocError, Global};
use std::io;

/// What the rows work on.
#[derive(Drop)]
pub struct Desk {
    /// The text that rows build.
    pub text: Vec<u8>,
    /// The source, whose bytes were the text where it began.
    pub source: MemorySource,
    /// Where the source's bytes go.
    pub piece: [u8; 5],
    pub sink: MemorySink,
}

impl Desk {
    /// No text, a source of no bytes and a sink with no room.
    pub fn new(alloc: Global) -> Result<Desk, AllocError> {
        Ok(Desk {
            text: Vec::new(alloc),
            source: MemorySource::new(Vec::new(alloc), 1, Vec::new(alloc)),
            piece: [0; 5],
            sink: MemorySink::new(alloc, 0, 1, Vec::new(alloc))?,
        })
    }

    /// A source of the text: the most bytes of a read, and the numbers of two reads that fail (0: none).
    pub fn begin_source(&mut self, alloc: Global, rest: &str) -> io::Result<()> {
        let [piece, one, other] = numbers(rest);
        let bytes = self.text.as_slice().to_vec(alloc)?;
        let fails = vec![in alloc; one, other]?;
        self.source = MemorySource::new(bytes, piece.max(1) as usize, fails);
        Ok(())
    }

    /// An empty sink: its room, the most bytes of a write, and the number of a write that fails (0: none).
    pub fn begin_sink(&mut self, alloc: Global, rest: &str) -> io::Result<()> {
        let [room, piece, fail] = numbers(rest);
        let fails = vec![in alloc; fail]?;
        self.sink = MemorySink::new(alloc, room as usize, piece.max(1) as usize, fails)?;
        Ok(())
    }
}
