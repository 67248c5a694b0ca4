//! The agents of a script, whoever plays them.
#![tactic(auto)]

pub mod cast;
pub mod play;
pub mod players;
