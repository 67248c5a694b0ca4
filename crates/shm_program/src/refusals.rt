//! The lines of refused input.

ghost use Rattle.std.specs.Prelude.{◌≡◌, IfOk};
ghost use Rattle.shm_program.specs.Refusals.{fault_line, kind_word};

use shm_script::{TraceFault, TraceKind, push_number, push_text};
use std::alloc::{AllocError, Global};

/// The line of a fault: `refused line 3 syntax`, with the number of the faulty line, and what is wrong with it.
pub fn fault_line(alloc: Global, fault: TraceFault) -> Result<Vec<u8>, AllocError>
    ensures { IfOk result (λ v. v.items ≡ fault_line fault) }
{
    let mut text = Vec::new(alloc);
    push_text(&mut text, "refused line ")?;
    push_number(&mut text, u64::from(fault.line))?;
    push_text(&mut text, " ")?;
    push_text(&mut text, kind_word(fault.kind))?;
    push_text(&mut text, "\n")?;
    Ok(text)
}

/// The word for what is wrong with a line.
fn kind_word(kind: TraceKind) -> &'static str
    ensures { result.now ≡ kind_word kind }
{
    match kind {
        TraceKind::Syntax => "syntax",
        TraceKind::Range => "range",
        TraceKind::Limit => "limit",
        TraceKind::Twice => "twice",
    }
}
