//! Replays of traces: the turns of a trace's order and of rounds are given to the clients of its scripts, and then the pool is closed.
#![tactic(auto)]

pub mod closing;
pub mod laws;
pub mod order;
pub mod replaying;

pub use replaying::{Replayed, replay};
