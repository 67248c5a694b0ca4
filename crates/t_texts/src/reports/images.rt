//! Images, changes of them, and what is told of them.

use shm_audit::{AuditStop, audit, fault_text, verdict_text};
use shm_migrate::{MigrateStop, migrate, stop_text};
use std::alloc::{AllocError, Global};

/// What the FNV-1a checksum of 64 bits begins with.
const NO_BYTES: u64 = 0xcbf2_9ce4_8422_2325;

/// What a word becomes.
#[derive(Clone, Copy, Drop)]
pub enum Change {
    To(u64),
    OneMore,
}

/// What is told of an image.
#[derive(Clone, Copy, Drop)]
pub enum Task {
    Audit,
    Migration,
}

/// The checksum of some bytes and of these behind them.
fn add(mut sum: u64, bytes: &[u8]) -> u64 {
    for byte in bytes {
        sum = (sum ^ u64::from(*byte)).wrapping_mul(0x0000_0100_0000_01b3);
    }
    sum
}

/// The checksum of these bytes.
pub fn checksum(bytes: &[u8]) -> u64 {
    add(NO_BYTES, bytes)
}

/// The line that is told of an image: its verdict, or its fault.
pub fn told(alloc: Global, image: &[u8]) -> Result<Vec<u8>, AllocError> {
    match audit(alloc, image) {
        Ok(verdict) => verdict_text(alloc, &verdict),
        Err(AuditStop::Fault(fault)) => fault_text(alloc, &fault),
        Err(AuditStop::Memory(stop)) => Err(stop),
    }
}

/// The image in format 2, or the line that tells why there is none.
fn migration_told(alloc: Global, image: &[u8]) -> Result<Vec<u8>, AllocError> {
    match migrate(alloc, image) {
        Ok(migrated) => Ok(migrated),
        Err(MigrateStop::Memory(stop)) => Err(stop),
        Err(stop) => stop_text(alloc, &stop),
    }
}

/// The checksum of some texts and of what is told of this image.
fn add_told(alloc: Global, sum: u64, image: &[u8], task: Task) -> Result<u64, AllocError> {
    let text = match task {
        Task::Audit => told(alloc, image)?,
        Task::Migration => migration_told(alloc, image)?,
    };
    Ok(add(sum, text.as_slice()))
}

/// Where a word of an image begins.
fn start_of(at: u64) -> usize {
    usize::try_from(at.saturating_mul(8).saturating_add(24)).unwrap_or(usize::MAX)
}

/// The word at an address of an image, and 0 past its end.
pub fn word_in(image: &[u8], at: u64) -> u64 {
    let start = start_of(at);
    let mut word = 0u64;
    for i in (0..8usize).rev() {
        let byte = image.get(start.saturating_add(i)).copied().unwrap_or(0);
        word = (word << 8) | u64::from(byte);
    }
    word
}

/// Stores a word at an address of an image.
pub fn set_word(image: &mut [u8], at: u64, word: u64) {
    let start = start_of(at);
    for (i, byte) in word.to_le_bytes().into_iter().enumerate() {
        set_byte(image, start.saturating_add(i), byte);
    }
}

/// Stores a byte of an image.
pub fn set_byte(image: &mut [u8], at: usize, byte: u8) {
    if let Some(place) = image.get_mut(at) {
        *place = byte;
    }
}

/// Adds what is told of an image where the word at an address is changed.
fn add_change(
    alloc: Global,
    sum: u64,
    image: &mut [u8],
    at: u64,
    change: Change,
    task: Task,
) -> Result<u64, AllocError> {
    let word = word_in(image, at);
    let changed = match change {
        Change::To(other) => other,
        Change::OneMore => word.wrapping_add(1),
    };
    set_word(image, at, changed);
    let sum = add_told(alloc, sum, image, task)?;
    set_word(image, at, word);
    Ok(sum)
}

/// The checksum of all that is told where each word in turn is changed so.
pub fn changes(
    alloc: Global,
    image: &mut [u8],
    change: Change,
    task: Task,
) -> Result<u64, AllocError> {
    let mut sum = NO_BYTES;
    for at in 0..image.len().saturating_sub(24) as u64 / 8 {
        sum = add_change(alloc, sum, image, at, change, task)?;
    }
    Ok(sum)
}

/// The checksum of all lines that are told of the fronts of an image, from its first 0 bytes to all but the last one.
pub fn cuts(alloc: Global, image: &[u8]) -> Result<u64, AllocError> {
    let mut sum = NO_BYTES;
    for len in 0..image.len() {
        sum = add_told(alloc, sum, &image[..len], Task::Audit)?;
    }
    Ok(sum)
}

/// Adds the lines that are told of an image where a byte is each byte.
fn add_bytes(alloc: Global, mut sum: u64, image: &mut [u8], at: usize) -> Result<u64, AllocError> {
    let kept = image.get(at).copied().unwrap_or(0);
    for byte in 0..=255u8 {
        set_byte(image, at, byte);
        sum = add_told(alloc, sum, image, Task::Audit)?;
    }
    set_byte(image, at, kept);
    Ok(sum)
}

/// The checksum of all lines that are told where each of the first 24 bytes in turn is each byte.
pub fn frames(alloc: Global, image: &mut [u8]) -> Result<u64, AllocError> {
    let mut sum = NO_BYTES;
    for at in 0..24usize {
        sum = add_bytes(alloc, sum, image, at)?;
    }
    Ok(sum)
}
