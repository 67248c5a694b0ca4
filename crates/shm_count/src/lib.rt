//! Count steps, by which a block gets a reference or loses one, and the tear-down of a block that no reference names any more.
//!
//! A header of last client, era and count that one exchange changes, a matrix of eras and a redo record are those of CXL-SHM (SOSP 2023).
#![tactic(auto)]

pub mod answer;
pub mod bound;
pub mod commit_test;
pub mod events;
pub mod lasting;
pub mod parts;
pub mod point;
pub mod stays;
pub mod step;
pub mod tear;
pub mod tear_point;
pub mod up_root;

pub use answer::{EraSpent, Made, UpFault};
pub use bound::{step_bound, tear_bound};
pub use commit_test::{Commit, CommitTest, Proof, commit_test_bound};
pub use events::{
    step_begins, step_events, step_own_events, steps_decide, tear_done, tear_own_events,
    tear_stopped,
};
pub use lasting::{
    root_down_retains, step_in_call, step_lasts, step_refusals, tear_in_call, tear_keeps,
    tear_lasts, tear_retains, up_of_made,
};
pub use stays::{step_partitions, tear_partitions, tests_are_steady};
pub use step::{StepChange, StepDown, StepUp};
pub use tear::TearDown;
