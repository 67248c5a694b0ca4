//! Allocation: a free block becomes live in an empty root of an identity, or a named refusal.
//!
//! Segments of pages of blocks of one class, owned by one client each, are those of CXL-SHM (SOSP 2023).
#![tactic(auto)]

pub mod alloc;
pub mod answers;
pub mod events;
pub mod hint;
pub mod lasting;
pub mod point;
pub mod request;
pub mod starts;

pub use alloc::{Alloc, AllocFault, TooLarge};
pub use answers::{alloc_bound, alloc_trails, search_finds_none, search_goes_to_each};
pub use events::alloc_own_events;
pub use hint::Hint;
pub use lasting::{alloc_in_call, alloc_keeps, alloc_lasts, alloc_least_root, made_may_be_raised};
pub use point::{AllocNext, AllocPoint, AllocState, Goal, Search};
pub use request::{Near, Request};
