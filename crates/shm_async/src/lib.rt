//! Clients as futures that are polled by hand: one future runs all agents of an identity, a bounded number of turns per poll, so that many
//! clients share one thread.
#![tactic(auto)]

mod each;
mod finish;
mod identity;
mod limited;
mod limits;
mod members;
mod polls;
mod recovery;
mod runs;

pub use finish::NewStop;
pub use identity::IdentityFuture;
pub use recovery::RecoveryFuture;
pub use runs::{run_async, run_limited};
pub use shm_team::{Finish, Left as Token, Ran};
