//! What went wrong in a call of the program, in words for people.
//!
//! The program writes one line where it refuses its words or its input, and ends with a status. This crate says more: which word wasn't
//! accepted, what stands in the faulty line and what was wanted there, and why a read or a write failed. It looks at the words, at a front of
//! the input that a `KeptSource` kept, and at the line that a `KeptSink` kept. None of it changes what the program reads, writes or answers.
#![tactic(auto)]

mod cause;
mod finding;
mod form;
mod heard;
mod image;
mod kept;
mod line;
mod memory;
mod misuse;
mod pages;
mod telling;

pub use cause::{Cause, cause_of};
pub use finding::Finding;
pub use form::Language;
pub use heard::{Heard, why_unread};
pub use image::ImageFinding;
pub use kept::{KeptSink, KeptSource};
pub use line::{Line, line_at};
pub use memory::pool_bytes;
pub use misuse::{Misuse, misuse_of};
pub use pages::{COMMANDS, STATUSES, VERSION};
pub use telling::{Call, status_of};
