//! A pool that threads share, over a table of atomic words: each word step of any machine, by any thread, is one turn of one run.
//!
//! Who works for an identity holds its token: `Vacant`, `Client` or `Corpse`. No call of a token waits, and none takes memory.
#![tactic(auto)]

mod calls;
mod closing;
mod command;
mod ending;
mod last;
mod laws;
mod notes;
mod pool;
mod post;
mod recovery;
mod reply;
mod rescue;
mod rescuer;
mod rule;
mod site;
mod steps;
mod token;

pub use closing::CloseCause;
pub use laws::{alloc_gives, closed_queues};
pub use pool::{CloseStop, Closed, SharedPool};
pub use post::Post;
pub use reply::Reply;
pub use rescuer::Rescuer;
pub use token::{Cause, Client, Corpse, Stopped, Vacant};
