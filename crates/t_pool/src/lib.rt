//! What clients of a pool that threads share do on two threads, by their calls.
#![tactic(auto)]

pub mod closing;
pub mod leaving;
pub mod recovering;
pub mod rows;
pub mod tables;
pub mod team;

pub use closing::{close_at_last, pass_all};
pub use leaving::{TwoMade, make_two};
pub use recovering::{bury, recover_and_close, rescue};
pub use rows::{Refused, put_in, refuse_both};
pub use tables::{Played, play_and_close};
pub use team::{Team, Visited, both, run_two, visit, work};
