//! Calls of the program.

ghost use Rattle.std.specs.Prelude.{◌<◌};

use crate::meeting::Meetings;
use crate::reading::number_at;
use shm_io::{MemorySink, MemorySource};
use shm_program::top::top;
use shm_program::{Finished, Outcome};
use std::alloc::{AllocError, AllocGlobal, Global};
use std::random::RandomSource;
use std::sync::Wait;
use std::thread::Threads;

/// The streams of a call: the most bytes that a read gives and that a write takes, the read and the write that fail, by their numbers from 1
/// (0: none), and the room of the sink.
#[derive(Clone, Copy, Drop)]
struct Streams {
    read_piece: usize,
    read_fails: u32,
    write_piece: usize,
    write_fails: u32,
    room: usize,
}

/// Streams that never fail.
const PLAIN: Streams = Streams {
    read_piece: 4096,
    read_fails: 0,
    write_piece: 4096,
    write_fails: 0,
    room: 1 << 20,
};

/// A call of the program but for its input.
#[derive(Drop)]
pub struct Call {
    words: Vec<String>,
    streams: Streams,
}

/// What a call came to, and what it wrote.
#[derive(Drop)]
pub struct Made {
    pub outcome: Outcome,
    pub written: Vec<u8>,
}

impl Made {
    /// Before any call.
    pub fn nothing(alloc: Global) -> Made {
        Made {
            outcome: Outcome {
                status: 0,
                finished: Finished::Neither,
            },
            written: Vec::new(alloc),
        }
    }

    /// Whether both calls came to the same status, and wrote the same.
    pub fn is_same(&self, other: &Made) -> bool {
        self.outcome.status == other.outcome.status
            && self.written.as_slice() == other.written.as_slice()
    }
}

impl Call {
    /// A call with these words, over streams that never fail.
    pub fn new(words: Vec<String>) -> Call {
        Call {
            words,
            streams: PLAIN,
        }
    }

    /// Has other streams, by five numbers.
    pub fn set_streams(&mut self, row: &[String]) {
        self.streams = Streams {
            read_piece: number_at(row, 0) as usize,
            read_fails: call_at(row, 1),
            write_piece: number_at(row, 2) as usize,
            write_fails: call_at(row, 3),
            room: number_at(row, 4) as usize,
        };
    }

    /// Makes the call, whose threads are made by this handle, and whose clients pass this gate.
    pub fn make<R: Threads + Wait + Sync + RandomSource + AllocGlobal>(
        &self,
        threads: &R,
        alloc: Global,
        input: &[u8],
        gate: &Meetings,
    ) -> Result<Made, AllocError> {
        let mut source = source_of(alloc, &self.streams, input)?;
        let mut sink = sink_of(alloc, &self.streams)?;
        let outcome = top(
            threads,
            alloc,
            self.words.as_slice(),
            &mut source,
            &mut sink,
            gate,
        );
        let written = sink.bytes().to_vec(alloc)?;
        Ok(Made { outcome, written })
    }
}

/// The number of a read or a write among words.
fn call_at(row: &[String], at: usize) -> u32 {
    u32::try_from(number_at(row, at)).unwrap_or(0)
}

/// The source of a call.
fn source_of(alloc: Global, streams: &Streams, input: &[u8]) -> Result<MemorySource, AllocError> {
    let fails = failing(alloc, streams.read_fails)?;
    let piece = streams.read_piece.max(1);
    Ok(MemorySource::new(input.to_vec(alloc)?, piece, fails))
}

/// The sink of a call.
fn sink_of(alloc: Global, streams: &Streams) -> Result<MemorySink, AllocError> {
    let fails = failing(alloc, streams.write_fails)?;
    MemorySink::new(alloc, streams.room, streams.write_piece.max(1), fails)
}

/// The list of the one number, and of none where it is 0.
fn failing(alloc: Global, number: u32) -> Result<Vec<u32>, AllocError> {
    let mut list = Vec::new(alloc);
    if number > 0 {
        list.push(number)?;
    }
    Ok(list)
}
