//! Lojarnek for whoever writes programs: a pool that threads share, whose calls test what a caller could get wrong.
//!
//! An identity of a pool is a value that says how the identity stands and holds a reference to its pool: `Vacant`, `Client` or `Corpse`. So an identity
//! in two places, a command before the join and a client in another pool can't be written. Everything else that a call asks for is tested, and
//! refused with an `Error`.
#![tactic(auto)]

mod blocks;
mod builder;
mod client;
mod corpse;
mod desk;
mod desks;
mod error;
mod follow;
mod known;
mod latch;
mod outcome;
mod pending;
mod pieces;
mod place;
mod pool;
pub mod prelude;
mod queues;
mod references;
mod refused;
mod roots;
mod run;
mod sole;
mod stopped;
mod tables;
mod vacant;

pub use builder::Builder;
pub use client::Client;
pub use corpse::Corpse;
pub use error::{Bound, Error};
pub use outcome::Outcome;
pub use pending::{Call, NotStarted, Progress};
pub use pool::{NotClosed, Pool};
pub use shm_alloc::Hint;
pub use shm_pool::Closed;
pub use shm_script::Line as Command;
pub use stopped::Stopped;
pub use vacant::Vacant;
