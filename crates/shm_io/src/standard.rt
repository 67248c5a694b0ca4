//! Standard input and output as a source and a sink. This is the trusted edge: no clause says which bytes
//! reach or leave the system. Over a reader or a writer that tells its bytes, they are passed on as they are.

use crate::{Failed, Sink, Source};
use std::io::{Printer, Read, Write};

/// A reader as a source, such as standard input. It tells no content.
#[derive(Drop)]
pub struct StdSource<R: Read + Drop> {
    reader: R,
    faults: u64,
}

impl<R: Read + Drop> StdSource<R> {
    ghost use Rattle.std.specs.Prelude.{◌≡◌};

    /// The runtime's standard input, with no fault yet.
    pub fn new<I: Input<Reader = R>>(rt: &I) -> StdSource<R>
        ensures { ⟦<StdSource<R> as Source>⟧.faults result ≡ 0 }
    {
        StdSource {
            reader: rt.reader(),
            faults: 0,
        }
    }
}

impl<R: Read + Drop> Source for StdSource<R> {
    ghost use Rattle.std.specs.Prelude.{◌≡◌, ◌≤◌, None, length, IfOk, OnOk, OnErr};
    ghost use Rattle.std.specs.Io.KnownBytes.{ReadConsumes};
    ghost use Rattle.shm_io.specs.Faults.{Rose, next_count};
    ghost use Rattle.shm_io.specs.Standard.{reader_of, source_faults};

    ghost left = { λ _. None };

    ghost faults = { source_faults };

    fn read(&mut self, into: &mut [u8]) -> Result<usize, Failed>
        ensures count { IfOk result (λ n. n ≤ length into.old) }
        ensures no_fault { OnOk result (source_faults self.new ≡ source_faults self.old) }
        ensures failed { OnErr result (Rose (source_faults self.old) (source_faults self.new)) }
        ensures rising { source_faults self.old ≤ source_faults self.new }

        // Where the reader tells its bytes, these are they.
        ensures bytes { ReadConsumes (R.remaining (reader_of self.old)) (R.remaining (reader_of self.new)) result into.new }
        ensures counted { OnErr result (source_faults self.new ≡ next_count (source_faults self.old)) }
    {
        match self.reader.read(into) {
            Ok(n) => Ok(n),
            Err(_) => {
                self.faults = self.faults.saturating_add(1);
                Err(Failed)
            }
        }
    }
}

/// A writer as a sink, such as standard output. It tells no content.
#[derive(Drop)]
pub struct StdSink<W: Write + Drop> {
    writer: W,
    faults: u64,
}

impl<'a, P: Print> StdSink<Printer<'a, P>> {
    ghost use Rattle.std.specs.Prelude.{◌≡◌};

    /// The runtime's standard output, with no fault yet.
    pub fn new(rt: &'a P) -> StdSink<Printer<'a, P>>
        ensures { ⟦<StdSink<Printer<'a, P>> as Sink>⟧.faults result ≡ 0 }
    {
        StdSink {
            writer: std::io::writer(rt),
            faults: 0,
        }
    }
}

impl<W: Write + Drop> Sink for StdSink<W> {
    ghost use Rattle.std.specs.Prelude.{◌≡◌, ◌<◌, ◌≤◌, None, length, IfOk, OnOk, OnErr};
    ghost use Rattle.std.specs.Io.KnownBytes.{WriteAppends};
    ghost use Rattle.shm_io.specs.Faults.{Rose, next_count};
    ghost use Rattle.shm_io.specs.Standard.{writer_of, sink_faults};

    ghost held = { λ _. None };

    ghost faults = { sink_faults };

    // A writer that takes nothing of a piece that isn't empty has failed.
    fn write(&mut self, piece: &[u8]) -> Result<usize, Failed>
        ensures count { IfOk result (λ n. n ≤ length piece.now) }
        ensures some { IfOk result (λ n. 0 < length piece.now → 0 < n) }
        ensures no_fault { OnOk result (sink_faults self.new ≡ sink_faults self.old) }
        ensures failed { OnErr result (Rose (sink_faults self.old) (sink_faults self.new)) }
        ensures rising { sink_faults self.old ≤ sink_faults self.new }

        // Where the writer tells its bytes, it took these.
        ensures bytes { WriteAppends (W.contents (writer_of self.old)) (W.contents (writer_of self.new)) result piece.now }
        ensures counted { OnErr result (sink_faults self.new ≡ next_count (sink_faults self.old)) }
    {
        match self.writer.write(piece) {
            Ok(n) if n > 0 || piece.is_empty() => Ok(n),
            _ => {
                self.faults = self.faults.saturating_add(1);
                Err(Failed)
            }
        }
    }
}
