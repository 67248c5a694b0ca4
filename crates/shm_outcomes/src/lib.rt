//! What runs of traces, calls of a shared pool, corpses and scripts for versions tell: laws over what those who make them promise, each in one piece.
#![tactic(auto)]

pub mod calls;
pub mod corpses;
pub mod maps;
pub mod runs;

pub use calls::{calls_are_turns, effects_tell};
pub use corpses::corpses_stay_in_order;
pub use maps::{scripts_are_frugal, scripts_are_maps};
pub use runs::{agents_are_of_lines, commands_are_logged, cuts_are_told, runs_are_determined};
