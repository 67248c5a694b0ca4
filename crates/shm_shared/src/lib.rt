//! Pools that processes or hosts share: what their sessions make is a run of the pool, for tables and for single blocks.
#![tactic(auto)]

pub mod laws;

pub use laws::{block_sessions_lead, table_sessions_lead};
