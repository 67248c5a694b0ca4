//! Checksums.

use std::io;

/// The FNV-1a checksum of the bytes, of 64 bits.
pub fn checksum(bytes: &[u8]) -> u64 {
    let mut sum = 0xcbf2_9ce4_8422_2325u64;
    for byte in bytes {
        sum = (sum ^ u64::from(*byte)).wrapping_mul(0x0000_0100_0000_01b3);
    }
    sum
}

/// Tells how many bytes there are, and their checksum.
pub fn tell(rt: &HostRuntime, bytes: &[u8]) -> io::Result<()> {
    println!(rt; "{} {:x}", bytes.len(), checksum(bytes))
}
