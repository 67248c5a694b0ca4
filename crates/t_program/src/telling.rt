//! What is told of a call.

use crate::call::Made;
use std::io;

/// The status, what was written, and a point.
pub fn text(rt: &HostRuntime, made: &Made) -> io::Result<()> {
    let text = str::from_utf8(made.written.as_slice()).unwrap_or("no text\n");
    print!(rt; "status {}\n{text}.\n", made.outcome.status)
}

/// The status, and the length and the sum of what was written.
pub fn sum(rt: &HostRuntime, made: &Made) -> io::Result<()> {
    let sum = sum_of(made.written.as_slice());
    print!(rt;
        "status {}\n{} bytes, sum {sum:016x}\n",
        made.outcome.status,
        made.written.len()
    )
}

/// The status of an audit, and whether it wrote that the image is clean.
pub fn clean(rt: &HostRuntime, made: &Made) -> io::Result<()> {
    let is_clean = made.written.as_slice().starts_with(b"clean live ");
    println!(rt; "status {}, clean {is_clean}", made.outcome.status)
}

/// The 64-bit FNV-1a sum of bytes.
fn sum_of(bytes: &[u8]) -> u64 {
    let mut sum = 0xcbf2_9ce4_8422_2325u64;
    for byte in bytes {
        sum = (sum ^ u64::from(*byte)).wrapping_mul(0x100_0000_01b3);
    }
    sum
}
