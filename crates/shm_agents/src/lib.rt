//! The agents of a script, one after the other, wherever they work.
#![tactic(auto)]

pub mod agents;
pub mod machine;
pub mod piece;
pub mod work;
