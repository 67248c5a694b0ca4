//! The line that tells why an image isn't migrated.

ghost use Rattle.std.specs.Prelude.{◌≡◌, ◌++◌, codes, IfOk};
ghost use Rattle.shm_audit.specs.Texts.{line_end, verdict_line};
ghost use Rattle.shm_migrate.specs.Migrations.{stop_line};

use crate::stop::MigrateStop;
use shm_audit::{Verdict, fault_text, verdict_text};
use shm_script::push_text;
use std::alloc::{AllocError, Global};

/// The line of a refusal: that of the fault, `refused format 2`, or `refused` and the line of the verdict, each with a line feed.
/// Want of memory has no line.
pub fn stop_text(alloc: Global, stop: &MigrateStop) -> Result<Vec<u8>, AllocError>
    ensures { IfOk result (λ v. v.items ≡ stop_line stop.now) }
{
    match *stop {
        MigrateStop::Memory(_) => Ok(Vec::new(alloc)),
        MigrateStop::Fault(fault) => fault_text(alloc, &fault),
        MigrateStop::Already => already_text(alloc),
        MigrateStop::NotClean(verdict) => unclean_text(alloc, &verdict),
    }
}

// the line of an image of format 2
fn already_text(alloc: Global) -> Result<Vec<u8>, AllocError>
    ensures { IfOk result (λ v. v.items ≡ codes "refused format 2" ++ line_end) }
{
    let mut text = Vec::new(alloc);
    push_text(&mut text, "refused format 2\n")?;
    Ok(text)
}

// the line of a pool that isn't clean
fn unclean_text(alloc: Global, verdict: &Verdict) -> Result<Vec<u8>, AllocError>
    ensures { IfOk result (λ v. v.items ≡ codes "refused " ++ verdict_line verdict.now) }
{
    let mut text = Vec::new(alloc);
    push_text(&mut text, "refused ")?;
    let line = verdict_text(alloc, verdict)?;
    text.extend_from_slice(line.as_slice())?;
    Ok(text)
}
