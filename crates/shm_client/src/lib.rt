//! What a client of a pool in a vector calls, each with a contract of its own: joins, allocations, commands on a table, deaths, mendings and recoveries.
//! Operations are run by `PlainPool::run`.
#![tactic(auto)]

pub mod allocating;
pub mod commands;
pub mod driving;
pub mod following;
pub mod joining;
pub mod mending;
pub mod recovering;

pub use allocating::{allocate, allocate_near, join};
pub use commands::command;
pub use driving::joined;
pub use following::follow;
pub use joining::{SteppedJoin, step_join};
pub use mending::mend_fallen;
pub use recovering::{die, recover};
