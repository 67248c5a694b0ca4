//! When each command of a log took effect, in the words of a run alone; and the laws by which it is so in the runs of traces.
#![tactic(auto)]

pub mod laws;

pub use laws::{ended_clients_lived, logs_take_effect};
