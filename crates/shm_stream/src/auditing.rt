//! The audit of an image that is read as a stream: only its words before the bodies are kept.

ghost use Rattle.std.specs.Prelude.{◌≡◌, ◌+◌, ◌*◌, ◌^◌, ◌<◌, ◌≤◌, ℕ, List, length, IfOk, IfErr, OnOk, OnErr};
ghost use Rattle.shm_words.specs.Layout.{GeometryFits, bodies, total_of};
ghost use Rattle.shm_audit.specs.{Faults.image_len, Images.{numbers, numbers_in}, Streams.Seen, Tallies.AreFrom};
ghost use Rattle.shm_audit.specs.declared.fault.ImageFault.TheVariants as fault;
ghost use Rattle.shm_io.specs.{Reading.{LosesFront, TakesFront}, Stops.HasCause};
ghost use Rattle.shm_stream.specs.Audits.{IsJudged, JudgesRest};

use shm_audit::{Auditor, ImageFault, Verdict, read_frame};
use shm_io::{ReadStop, Source, read_full, read_to_limit, skip_to_limit};
use shm_words::Geometry;
use std::alloc::Global;

/// How many bytes stand before the words of an image.
const FRAME: usize = 24;

/// How many bytes the words of a segment have.
const SEGMENT: usize = 16_384;

/// How many bytes are read behind the first 24: one more than the image of the largest pool has there.
const REST: usize = 132_185_353;

/// Reads an image to its end, or up to one byte more than one may have, and answers with the verdict on it or with its first fault.
pub fn audit_source<S: Source>(
    alloc: Global,
    source: &mut S,
) -> Result<Result<Verdict, ImageFault>, ReadStop>
    ensures judged { IfOk result (λ judged. (image : List ℕ) × (length image ≤ 132185377) × TakesFront (S.left source.old) (S.left source.new) 132185377 image × IsJudged image judged) }
    ensures no_fault { OnOk result (S.faults source.new ≡ S.faults source.old) }
    ensures lost { OnErr result (LosesFront (S.left source.old) (S.left source.new) 132185377) }
    ensures cause { IfErr result (HasCause (S.faults source.old) (S.faults source.new)) }
{
    let frame = read_to_limit(alloc, source, FRAME)?;
    if frame.len() < FRAME {
        let len = frame.len() as u64;
        return Ok(Err(ImageFault::Short { len }));
    }
    match read_frame(frame.as_slice()) {
        Ok(geometry) => audit_rest(alloc, source, geometry),
        Err(fault) => {
            skip_to_limit(source, REST)?;
            Ok(Err(fault))
        }
    }
}

// reads what an image has behind its first bytes, which announced these sizes
fn audit_rest<S: Source>(
    alloc: Global,
    source: &mut S,
    geometry: Geometry,
) -> Result<Result<Verdict, ImageFault>, ReadStop>
    requires { GeometryFits geometry }
    ensures judged { IfOk result (λ judged. (rest : List ℕ) × (length rest ≤ 132185353) × TakesFront (S.left source.old) (S.left source.new) 132185353 rest × JudgesRest geometry rest judged) }
    ensures no_fault { OnOk result (S.faults source.new ≡ S.faults source.old) }
    ensures lost { OnErr result (LosesFront (S.left source.old) (S.left source.new) 132185353) }
    ensures cause { IfErr result (HasCause (S.faults source.old) (S.faults source.new)) }
{
    let start = 8 * geometry.body(0, 0) as usize;
    let front = read_to_limit(alloc, source, start)?;
    if front.len() < start {
        return Ok(Err(wrong_length(geometry, front.len())));
    }
    let (words, _) = front.as_chunks::<8>();
    let mut auditor = Auditor::new(alloc, geometry, words)?;
    let read = read_segments(source, geometry, words, &mut auditor)?;
    if read < SEGMENT * usize::from(geometry.segments()) {
        return Ok(Err(wrong_length(geometry, start + read)));
    }
    let more = skip_to_limit(source, REST - 8 * geometry.total() as usize)?;
    if more > 0 {
        return Ok(Err(wrong_length(geometry, start + read + more)));
    }
    Ok(auditor.finish(geometry, words))
}

// reads segments as long as there are bytes, and answers how many there were
fn read_segments<S: Source>(
    source: &mut S,
    geometry: Geometry,
    front: &[[u8; 8]],
    auditor: &mut Auditor,
) -> Result<usize, ReadStop>
    requires fits { GeometryFits geometry }
    requires front { length front.now ≡ bodies geometry }
    ensures read { IfOk result (λ n. (bytes : List ℕ) × (length bytes ≡ n) × TakesFront (S.left source.old) (S.left source.new) (16384 * geometry.segments) bytes × (n ≡ 16384 * geometry.segments → (ws : List ℕ) → AreFrom ws 0 (numbers front.now) → AreFrom ws (bodies geometry) (numbers_in bytes) → Seen geometry ws (bodies geometry) auditor.old → Seen geometry ws (total_of geometry) auditor.new)) }
    ensures count { IfOk result (λ n. n ≤ 16384 * geometry.segments) }
    ensures no_fault { OnOk result (S.faults source.new ≡ S.faults source.old) }
    ensures lost { OnErr result (LosesFront (S.left source.old) (S.left source.new) (16384 * geometry.segments)) }
    ensures cause { IfErr result (HasCause (S.faults source.old) (S.faults source.new)) }
{
    let mut segment = [0u8; SEGMENT];
    let mut read = 0;
    for number in 0..geometry.segments() {
        let n = read_full(source, &mut segment)?;
        read += n;
        if n < SEGMENT {
            return Ok(read);
        }
        let (words, _) = segment.as_chunks::<8>();
        auditor.segment(geometry, front, number, words);
    }
    Ok(read)
}

// the fault of an image with so many bytes behind its first 24
fn wrong_length(geometry: Geometry, behind: usize) -> ImageFault
    requires fits { GeometryFits geometry }
    requires room { behind < 2 ^ 32 }
    ensures { result ≡ fault.Length (24 + behind) (image_len geometry) }
{
    ImageFault::Length {
        len: FRAME as u64 + behind as u64,
        want: FRAME as u64 + 8 * u64::from(geometry.total()),
    }
}
