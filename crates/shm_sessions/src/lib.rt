//! Runs of sessions: what callers who make the word steps themselves make of a pool, in memory that processes or hosts share.
#![tactic(auto)]

pub mod keeps;
pub mod laws;

pub use keeps::Keeps;
pub use laws::sessions_lead;
