//! Reads and writes.

use crate::scripts::desk::Desk;
use crate::scripts::sums;
use shm_io::{
    MemorySink, MemorySource, Sink, Source, StdSink, StdSource, read_to_limit, write_all,
};
use std::io;

/// The text of the bytes.
fn as_text(bytes: &[u8]) -> &str {
    str::from_utf8(bytes).unwrap_or("no text")
}

/// Tells the text of the bytes.
pub fn show(rt: &HostRuntime, bytes: &[u8]) -> io::Result<()> {
    println!(rt; "{}", as_text(bytes))
}

/// Reads into the front of the piece, and tells the answer and the piece.
pub fn read(rt: &HostRuntime, desk: &mut Desk, room: u64) -> io::Result<()> {
    let room = room.min(5) as usize;
    let piece = &mut desk.piece[..];
    let answer = desk.source.read(&mut piece[..room]);
    println!(rt; "{answer:?} {:?}", desk.piece)
}

/// Reads up to a limit, and tells how many bytes there were and their checksum, or why the reading stopped.
pub fn read_all(rt: &HostRuntime, source: &mut MemorySource, limit: u64) -> io::Result<()> {
    match read_to_limit(rt.alloc(), source, limit as usize) {
        Ok(bytes) => sums::tell(rt, bytes.as_slice()),
        Err(stop) => println!(rt; "{stop:?}"),
    }
}

/// Writes a piece, and tells the answer and what the sink holds.
pub fn write(rt: &HostRuntime, sink: &mut MemorySink, piece: &str) -> io::Result<()> {
    let answer = sink.write(piece.as_bytes());
    println!(rt; "{answer:?} {}", as_text(sink.bytes()))
}

/// Writes a whole text, and tells the answer and what the sink holds.
pub fn write_whole(rt: &HostRuntime, sink: &mut MemorySink, text: &str) -> io::Result<()> {
    let answer = write_all(sink, text.as_bytes());
    println!(rt; "{answer:?} {}", as_text(sink.bytes()))
}

/// Reads nothing of standard input.
pub fn std_read(rt: &HostRuntime) -> io::Result<()> {
    let answer = StdSource::new(rt).read(&mut []);
    println!(rt; "{answer:?}")
}

/// Writes a text to standard output.
pub fn std_write(rt: &HostRuntime, text: &str) -> io::Result<()> {
    let answer = write_all(&mut StdSink::new(rt), text.as_bytes());
    println!(rt; " {answer:?}")
}
