//! Pools as files: the image of a pool, and the audit of an image from outside, which trusts nothing that it reads.
#![tactic(auto)]

mod auditing;
mod auditor;
mod checks;
mod fault;
mod image;
mod stop;
mod tally;
mod text;
mod verdict;
mod words;

pub use auditing::{audit, clean_images, clean_where_verdict_is};
pub use auditor::Auditor;
pub use fault::ImageFault;
pub use image::{image_reads_back, open_image, push_word, read_frame, write_image};
pub use stop::AuditStop;
pub use text::{fault_text, verdict_text};
pub use verdict::Verdict;
pub use words::{spot, word};
