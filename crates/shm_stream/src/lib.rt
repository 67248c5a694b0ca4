//! Images that are read from a source as streams, and what is told of them.
#![tactic(auto)]

mod auditing;

pub use auditing::audit_source;
