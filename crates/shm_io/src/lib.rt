//! The outside as two traits: a source of bytes and a sink of bytes, each of which may fail.
//!
//! A source tells the bytes that are left, or tells nothing, and a sink does so for the bytes that it
//! holds. Each has a count of faults that begins at 0 and never falls. A call answers `Failed` only where
//! that count rose in the call, or stands at its end, 2^64 - 1, where a rise isn't seen.
#![tactic(auto)]

mod calls;
mod failed;
mod filling;
mod full;
mod memory_sink;
mod memory_source;
mod reading;
mod sink;
mod source;
mod standard;
mod writing;

pub use failed::Failed;
pub use full::{read_full, skip_to_limit};
pub use memory_sink::MemorySink;
pub use memory_source::MemorySource;
pub use reading::{ReadStop, read_to_limit};
pub use sink::Sink;
pub use source::Source;
pub use standard::{StdSink, StdSource};
pub use writing::write_all;
