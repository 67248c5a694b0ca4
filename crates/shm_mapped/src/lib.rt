//! Words that others change too, by atomic steps: in memory that processes have mapped, or of threads. What is found there may be any number.
#![tactic(auto)]

pub mod run;
pub mod site;

pub use run::run_on;
pub use site::{Found, OnAtomics};
