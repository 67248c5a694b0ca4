//! Clients on threads: the agents of each script of a trace work in a thread of their own, on a pool that all of them share.
#![tactic(auto)]

mod closing;
mod done;
mod gate;
mod jobs;
mod left;
mod settling;
mod team;
mod worker;

pub use done::{Done, Finish, hand_back};
pub use gate::{Gate, NoGate};
pub use jobs::{Job, begin};
pub use left::Left;
pub use settling::settle;
pub use team::{Ran, run_team};
