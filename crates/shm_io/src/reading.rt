//! A whole reading of a source, up to a limit.
ghost use Rattle.std.specs.Prelude.{◌≡◌, ◌<◌, ◌≤◌, ◌+◌, length, IfOk, OnOk, IfErr, OnErr, Some};
ghost use Rattle.std.specs.Io.KnownBytes.{IsAtEnd};
ghost use Rattle.shm_io.specs.Reading.{TakesFront, LosesFront, ReadsOn};
ghost use Rattle.shm_io.specs.{declared.reading.ReadStop.TheVariants.{Memory, Fault}, Stops.{HasCause, text_of}};

use crate::{Failed, Source};
use std::alloc::{AllocError, Global};
use std::error::Error;
use std::fmt;

/// The bytes that are asked for in one read.
const PIECE: usize = 4096;

/// Why a reading stopped before its end.
#[derive(Clone, Copy, Debug, PartialEq, Eq)]
pub enum ReadStop {
    /// There was no memory for the bytes.
    Memory(AllocError),
    /// A read failed.
    Fault(Failed),
}

impl fmt::Display for ReadStop {
    ghost output = { λ stop. Some (text_of stop) };

    fn fmt<W: fmt::Write>(&self, f: &mut fmt::Formatter<W>) -> fmt::Result {
        match self {
            ReadStop::Memory(_) => write!(f, "no memory for the bytes"),
            ReadStop::Fault(_) => write!(f, "a read failed"),
        }
    }
}

impl Error for ReadStop {}

impl From<AllocError> for ReadStop {
    ghost from_gives = { λ e stop. stop ≡ Memory e };

    fn from(e: AllocError) -> Self {
        ReadStop::Memory(e)
    }
}

impl From<Failed> for ReadStop {
    ghost from_gives = { λ e stop. stop ≡ Fault e };

    fn from(e: Failed) -> Self {
        ReadStop::Fault(e)
    }
}

/// Reads a source to its end, but takes at most `limit` bytes, and answers the bytes in order. It asks for no
/// byte beyond the limit. Fewer bytes than `limit` are all that the source had left. Where it stops, a front of
/// at most `limit` bytes is lost; where `limit` is 0 it asks for nothing, and doesn't stop.
pub fn read_to_limit<S: Source>(
    alloc: Global,
    source: &mut S,
    limit: usize,
) -> Result<Vec<u8>, ReadStop>
    ensures size { IfOk result (λ bytes. length bytes.items ≤ limit) }
    ensures front { IfOk result (λ bytes. TakesFront (S.left source.old) (S.left source.new) limit bytes.items) }
    ensures no_fault { OnOk result (S.faults source.new ≡ S.faults source.old) }
    ensures lost { OnErr result (LosesFront (S.left source.old) (S.left source.new) limit) }
    ensures asked { OnErr result (0 < limit) }
    ensures cause { IfErr result (HasCause (S.faults source.old) (S.faults source.new)) }
    ensures rising { S.faults source.old ≤ S.faults source.new }
{
    let mut bytes = Vec::new(alloc);
    let mut piece = [0u8; PIECE];
    while bytes.len() < limit {
        let room = PIECE.min(limit - bytes.len());
        if read_piece(source, &mut piece[..room], &mut bytes)? == 0 {
            return Ok(fitted(bytes));
        }
    }
    Ok(fitted(bytes))
}

// These bytes, in as little memory as holds them.
fn fitted(mut bytes: Vec<u8>) -> Vec<u8>
    ensures { result.items ≡ bytes.items }
{
    bytes.shrink_to_fit();
    bytes
}

// Reads into the piece once, and adds what was read to the end of the bytes.
fn read_piece<S: Source>(
    source: &mut S,
    piece: &mut [u8],
    bytes: &mut Vec<u8>,
) -> Result<usize, ReadStop>
    requires { 0 < length piece.old }
    ensures count { IfOk result (λ n. (n ≤ length piece.old) × (length bytes.new.items ≡ length bytes.old.items + n)) }
    ensures bytes { IfOk result (ReadsOn (S.left source.old) (S.left source.new) bytes.old.items bytes.new.items) }
    ensures end { IfOk result (λ n. n ≡ 0 → IsAtEnd (S.left source.old)) }
    ensures no_fault { OnOk result (S.faults source.new ≡ S.faults source.old) }
    ensures lost { OnErr result (LosesFront (S.left source.old) (S.left source.new) (length piece.old)) }
    ensures cause { IfErr result (HasCause (S.faults source.old) (S.faults source.new)) }
    ensures rising { S.faults source.old ≤ S.faults source.new }
{
    let n = source.read(piece)?;
    bytes.extend_from_slice(&piece[..n])?;
    Ok(n)
}
