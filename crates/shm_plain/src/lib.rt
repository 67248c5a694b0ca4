//! A pool in a vector of words, for one thread, and where the agents of identities work: in such a pool, or elsewhere.
#![tactic(auto)]

pub mod call;
pub mod closed;
pub mod laws;
pub mod place;
pub mod pool;
mod track;
pub mod working;

pub use closed::PlainClosed;
pub use place::Workplace;
pub use pool::PlainPool;
