//! Reads of as many bytes as a buffer has room for, and of bytes that nobody keeps.
ghost use Rattle.std.specs.Prelude.{◌≡◌, ◌≤◌, ℕ, List, length, take, IfOk, OnOk, OnErr};
ghost use Rattle.shm_io.specs.{Faults.Rose, Reading.{TakesFront, LosesFront}};

use crate::{Failed, Source};

/// The bytes that are asked for at once where nobody keeps them.
const PIECE: usize = 4096;

/// Reads into a buffer until it is full or the source has nothing left, and answers how many bytes came. Where it fails, a front of the
/// source that is no longer than the buffer is lost.
pub fn read_full<S: Source>(source: &mut S, into: &mut [u8]) -> Result<usize, Failed>
    ensures count { IfOk result (λ n. n ≤ length into.old) }
    ensures front { IfOk result (λ n. TakesFront (S.left source.old) (S.left source.new) (length into.old) (take n into.new)) }
    ensures no_fault { OnOk result (S.faults source.new ≡ S.faults source.old) }
    ensures lost { OnErr result (LosesFront (S.left source.old) (S.left source.new) (length into.old)) }
    ensures failed { OnErr result (Rose (S.faults source.old) (S.faults source.new)) }
    ensures rising { S.faults source.old ≤ S.faults source.new }
{
    let mut filled = 0;
    while filled < into.len() {
        let n = source.read(&mut into[filled..])?;
        if n == 0 {
            return Ok(filled);
        }
        filled += n;
    }
    Ok(filled)
}

/// Reads on until `limit` bytes came or the source has nothing left, and answers how many came; they aren't kept. Where it fails, a front of
/// at most `limit` bytes is lost.
pub fn skip_to_limit<S: Source>(source: &mut S, limit: usize) -> Result<usize, Failed>
    ensures front { IfOk result (λ n. (bytes : List ℕ) × (length bytes ≡ n) × TakesFront (S.left source.old) (S.left source.new) limit bytes) }
    ensures count { IfOk result (λ n. n ≤ limit) }
    ensures no_fault { OnOk result (S.faults source.new ≡ S.faults source.old) }
    ensures lost { OnErr result (LosesFront (S.left source.old) (S.left source.new) limit) }
    ensures failed { OnErr result (Rose (S.faults source.old) (S.faults source.new)) }
    ensures rising { S.faults source.old ≤ S.faults source.new }
{
    let mut piece = [0u8; PIECE];
    let mut skipped = 0;
    while skipped < limit {
        let room = PIECE.min(limit - skipped);
        let n = read_full(source, &mut piece[..room])?;
        skipped += n;
        if n < room {
            return Ok(skipped);
        }
    }
    Ok(skipped)
}
