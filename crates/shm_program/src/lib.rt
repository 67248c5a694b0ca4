//! The program as a function over a source and a sink: which words are accepted, what they ask for, which bytes are read for it, and what is
//! answered and written.
//!
//! `run` is the whole program but for the standard streams, for which any source and any sink may stand: the words that the process was called with
//! (`program_words`), what is done (`top`), and the status that the process ends with (`exit_code`). Where the words ask for `run` clients on
//! threads run a trace, and the call may wait; all else is done by `call`, which returns.
#![tactic(auto)]

mod answer;
mod auditing;
pub mod command;
mod gate;
mod given;
pub mod image_laws;
pub mod laws;
pub mod outcome;
mod refusals;
pub mod stream_laws;
pub mod team_laws;
mod telling;
pub mod top;
pub mod tree_laws;
pub mod words;

pub use command::{exit_code, program_words, run};
pub use outcome::{Finished, Outcome};
