//! What `cxlview` does with its words and with what it reads.
#![tactic(auto)]

mod job;
mod misuse;
mod said;
mod top;

pub use job::{ImageForm, Job, TraceForm, job_of, program_words};
pub use misuse::misuse_text;
pub use said::{image_refusal, trace_refusal};
pub use top::{Outcome, view};
