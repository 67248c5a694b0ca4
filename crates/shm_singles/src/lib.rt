//! The operations of an identity in a pool for single blocks, as the work of a session: blocks are named by the 16 roots of the identity.
//!
//! An operation is one machine, or some of them one after the other: what a root names is found first, and a latch is taken, and given back
//! whatever came of it.
#![tactic(auto)]

pub mod latches;
pub mod lives;
mod numbers;
pub mod part;
pub mod queues;
pub mod roots;
mod said;
pub mod script;
pub mod steering;
pub mod words;
pub mod work;

pub use lives::{Lives, LivesAnswer};
pub use part::{Part, PartAnswer};
pub use script::Script;
pub use steering::{Steering, Steers};
pub use work::Singles;
