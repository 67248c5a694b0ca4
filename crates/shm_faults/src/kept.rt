//! A source and a sink that keep a front of what passes through them.
ghost use Rattle.std.specs.Prelude.{◌≡◌};

use shm_io::{Failed, Sink, Source};
use std::alloc::Global;

/// One byte more than a trace, or a script, may have.
const MOST_READ: usize = 1_048_577;

/// As many bytes as each line has that the program writes where it refuses something, and more.
const MOST_WRITTEN: usize = 256;

/// Room for so many bytes, all of it taken at once, so that no memory is asked for later; or no room where there is no memory.
fn room_for(alloc: Global, most: usize) -> Vec<u8> {
    match Vec::with_capacity(alloc, most) {
        Ok(kept) => kept,
        Err(_) => Vec::new(alloc),
    }
}

/// Adds a piece to what is kept, as much of it as there is room for.
fn keep(kept: &mut Vec<u8>, piece: &[u8]) {
    let room = kept.capacity().saturating_sub(kept.len());
    let front = &piece[..room.min(piece.len())];
    let _ = kept.extend_from_slice(front);
}

/// A source that keeps a front of the bytes that it gave.
#[derive(Drop)]
pub struct KeptSource<S: Source + Drop> {
    source: S,
    kept: Vec<u8>,
}

impl<S: Source + Drop> KeptSource<S> {
    /// This source, of which nothing is kept yet.
    pub fn new(alloc: Global, source: S) -> KeptSource<S>
        ensures left { ⟦<KeptSource<S> as Source>⟧.left result ≡ S.left source }
        ensures faults { ⟦<KeptSource<S> as Source>⟧.faults result ≡ S.faults source }
    {
        KeptSource {
            source,
            kept: room_for(alloc, MOST_READ),
        }
    }

    /// A front of the bytes that it gave: all of them, if they are no more than a trace may have and there was memory for as many.
    pub fn kept(&self) -> &[u8] {
        &self.kept
    }
}

impl<S: Source + Drop> Source for KeptSource<S> {
    ghost left = { λ s. S.left s.source };

    ghost faults = { λ s. S.faults s.source };

    fn read(&mut self, into: &mut [u8]) -> Result<usize, Failed> {
        let n = self.source.read(into)?;
        keep(&mut self.kept, &into[..n]);
        Ok(n)
    }
}

/// A sink that keeps a front of the bytes that it took.
#[derive(Drop)]
pub struct KeptSink<K: Sink + Drop> {
    sink: K,
    kept: Vec<u8>,
}

impl<K: Sink + Drop> KeptSink<K> {
    /// This sink, of which nothing is kept yet.
    pub fn new(alloc: Global, sink: K) -> KeptSink<K>
        ensures held { ⟦<KeptSink<K> as Sink>⟧.held result ≡ K.held sink }
        ensures faults { ⟦<KeptSink<K> as Sink>⟧.faults result ≡ K.faults sink }
    {
        KeptSink {
            sink,
            kept: room_for(alloc, MOST_WRITTEN),
        }
    }

    /// A front of the bytes that it took: any line that the program writes where it refuses something.
    pub fn kept(&self) -> &[u8] {
        &self.kept
    }
}

impl<K: Sink + Drop> Sink for KeptSink<K> {
    ghost held = { λ s. K.held s.sink };

    ghost faults = { λ s. K.faults s.sink };

    fn write(&mut self, piece: &[u8]) -> Result<usize, Failed> {
        let n = self.sink.write(piece)?;
        keep(&mut self.kept, &piece[..n]);
        Ok(n)
    }
}
