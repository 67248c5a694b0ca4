//! What the program writes of a trace is the report of a run as the headline says: of replays, of runs by threads or polls, and of whole calls.
#![tactic(auto)]

pub mod calls;
pub mod laws;

pub use calls::{headline, reports_are_of_runs};
pub use laws::runs_are_headlines;
