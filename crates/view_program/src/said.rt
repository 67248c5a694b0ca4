//! What is said on standard error where an input is refused.

use shm_audit::ImageFault;
use shm_faults::{Finding, ImageFinding, Language};
use shm_script::{TraceFault, TraceKind};
use std::alloc::{AllocError, Global};

/// What is wrong with an image that has this fault: the line that `cxlshm audit` writes of it, and a line for people.
pub fn image_refusal(alloc: Global, image: &[u8], fault: ImageFault) -> Result<String, AllocError> {
    refusal_of(alloc, "cxlview:", image, fault)
}

/// The same of the first of two images.
pub fn first_refusal(alloc: Global, image: &[u8], fault: ImageFault) -> Result<String, AllocError> {
    refusal_of(alloc, "cxlview: of the first image:", image, fault)
}

/// The same of the second one.
pub fn second_refusal(
    alloc: Global,
    image: &[u8],
    fault: ImageFault,
) -> Result<String, AllocError> {
    refusal_of(alloc, "cxlview: of the second image:", image, fault)
}

// the same, with what the line for people begins with
fn refusal_of(
    alloc: Global,
    begins: &str,
    image: &[u8],
    fault: ImageFault,
) -> Result<String, AllocError> {
    let line = format!(in alloc; "{fault}")?;
    match ImageFinding::new(image, line.as_str()) {
        Some(finding) => format!(in alloc; "{line}\n{begins} {finding}\n"),
        None => format!(in alloc; "{line}\n"),
    }
}

/// What is wrong with a trace that has this fault: the line that `cxlshm replay` writes of it, and what stands there, for people.
pub fn trace_refusal(alloc: Global, trace: &[u8], fault: TraceFault) -> Result<String, AllocError> {
    let kind = match fault.kind {
        TraceKind::Syntax => "syntax",
        TraceKind::Range => "range",
        TraceKind::Limit => "limit",
        TraceKind::Twice => "twice",
    };
    let line = format!(in alloc; "refused line {} {kind}", fault.line)?;
    match Finding::new(Language::Trace, trace, line.as_str()) {
        Some(finding) => format!(in alloc; "{line}\ncxlview: {finding}\n"),
        None => format!(in alloc; "{line}\n"),
    }
}
