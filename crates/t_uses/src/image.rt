//! Images: a closed pool as bytes, and what an audit says of them, which knows nothing of the pool.

ghost use Rattle.std.specs.Prelude.{IfOk, IfErr};
ghost use Rattle.shm_audit.specs.Verdicts.{IsCleanVerdict};
ghost use Rattle.t_uses.specs.Images.{AreClean, IsForMemory};

use shm_audit::{AuditStop, Verdict, audit, clean_where_verdict_is, image_reads_back, write_image};
use shm_plain::PlainClosed;
use shm_pool::Closed;
use shm_words::Geometry;
use std::alloc::Global;

/// Writes the image of the words of a clean pool, and audits it. Unless memory is wanting the verdict is that the pool is clean.
fn judged_words(alloc: Global, geometry: Geometry, words: &[u64]) -> Result<Verdict, AuditStop>
    requires { AreClean geometry words.now }
    ensures clean { IfOk result IsCleanVerdict }
    ensures memory { IfErr result IsForMemory }
{
    // for the proof: the image is read as it was written, and a clean pool has the verdict that it is
    image_reads_back();
    clean_where_verdict_is();
    let image = write_image(alloc, geometry, words).map_err(AuditStop::Memory)?;
    audit(alloc, image.as_slice())
}

/// Writes the image of a closed pool, and audits it. Unless memory is wanting the verdict is that the pool is clean.
pub fn judged(alloc: Global, closed: &PlainClosed) -> Result<Verdict, AuditStop>
    ensures clean { IfOk result IsCleanVerdict }
    ensures memory { IfErr result IsForMemory }
{
    let (geometry, words) = (closed.geometry(), closed.words());
    judged_words(alloc, geometry, words)
}

/// The same of a pool that threads shared.
pub fn judged_shared(alloc: Global, closed: &Closed) -> Result<Verdict, AuditStop>
    ensures clean { IfOk result IsCleanVerdict }
    ensures memory { IfErr result IsForMemory }
{
    let (geometry, words) = (closed.geometry(), closed.words());
    judged_words(alloc, geometry, words)
}
