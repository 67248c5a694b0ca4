//! Queues between identities: a block is sent to another identity, taken out of a queue, and all queues to an identity are drained.
//!
//! Each machine is a plan of calls (`plans`), which says which call comes next. The type with the operation's name is the plan: a pool
//! runs it as it is, and machines above call `Calls` of it.
#![tactic(auto)]

pub mod answer;
pub mod bound;
pub mod drain;
pub mod keeping;
pub mod parts;
pub mod peek;
pub mod receive;
pub mod refusals;
pub mod send;
pub mod stays;
pub mod take;

pub use answer::{PeekFault, SendFault, TakeFault};
pub use bound::{drain_bound, peek_bound, receive_bound, send_bound, take_bound};
pub use drain::Drain;
pub use keeping::{drain_keeps, peek_keeps, receive_keeps, send_keeps, take_keeps};
pub use peek::Peek;
pub use receive::Receive;
pub use refusals::{drain_refusals, peek_refusals, receive_refusals, send_refusals, take_refusals};
pub use send::Send;
pub use stays::drain_stays;
pub use take::Take;
