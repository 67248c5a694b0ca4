//! Traces that are drawn.

ghost use Rattle.std.specs.Prelude.{◌≤◌};

use crate::scripts::sums::checksum;
use crate::scripts::texts::{halves, number, small};
use shm_script::{Trace, generate, parse, print};
use std::alloc::{AllocError, Global};
use std::io;

/// All fields of a trace, as a text.
fn fields(alloc: Global, trace: &Trace) -> Result<String, AllocError> {
    format!(in alloc; "{trace:?}")
}

/// Whether the text is read as the trace, field by field.
fn reads_as(alloc: Global, text: &[u8], trace: &Trace) -> Result<bool, AllocError> {
    match parse(alloc, text) {
        Ok(read) => Ok(fields(alloc, &read)?.as_str() == fields(alloc, trace)?.as_str()),
        Err(_) => Ok(false),
    }
}

/// Draws the trace of a start and a size, whose text becomes the text, and answers whether it is read as that trace.
fn draw(text: &mut Vec<u8>, alloc: Global, start: u64, size: u32) -> Result<bool, AllocError>
    requires some { 1 ≤ size }
    requires few { size ≤ 4000 }
{
    let trace = generate(alloc, start, size)?;
    *text = print(alloc, &trace)?;
    reads_as(alloc, text.as_slice(), &trace)
}

/// Draws a trace, and tells how many bytes its text has, their checksum, and whether it is read as that trace.
pub fn tell(rt: &HostRuntime, text: &mut Vec<u8>, rest: &str) -> io::Result<()> {
    let (start, size) = halves(rest);
    let size = small(size);
    if size < 1 || size > 4_000 {
        return println!(rt; "no size");
    }
    let is_read = draw(text, rt.alloc(), number(start), size)?;
    println!(rt; "{} {:x} {is_read}", text.len(), checksum(text.as_slice()))
}
