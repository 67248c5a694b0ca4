//! The audit of an image that is read as a stream.

ghost use Rattle.std.specs.Prelude.{◌≡◌, ℕ, List, IfErr, IfOk};
ghost use Rattle.shm_program.specs.{Outcomes.JobAnswers, declared.words.Job.TheVariants.Audit};
ghost use Rattle.shm_program.specs.Reads.{IsRead, IsUnread, limit_of};

use crate::answer::{Reply, tell_audit};
use shm_io::{ReadStop, Source};
use shm_stream::audit_source;
use std::alloc::{AllocError, Global};

/// Reads an image as a stream, and answers with the verdict on it or with its first fault.
pub fn audit_input<S: Source>(
    alloc: Global,
    source: &mut S,
) -> Result<Result<Reply, AllocError>, u8>
    ensures read { IfOk result (λ answered. (bytes : List ℕ) × IsRead (S.left source.old) (S.faults source.old) (S.left source.new) (S.faults source.new) (limit_of Audit) bytes × IfOk answered (λ r. JobAnswers Audit bytes r.status r.finished r.text.items)) }
    ensures unread { IfErr result (λ status. IsUnread (S.left source.old) (S.faults source.old) (S.left source.new) (S.faults source.new) (limit_of Audit) status) }
{
    match audit_source(alloc, source) {
        Ok(judged) => Ok(tell_audit(alloc, judged)),
        Err(ReadStop::Fault(_)) => Err(4),
        Err(ReadStop::Memory(_)) => Err(6),
    }
}
