//! Machines with which an identity joins a pool, leaves it and is recovered.
#![tactic(auto)]

pub mod bound;
pub mod departures;
pub mod finish_takes;
pub mod give_up;
pub mod join;
pub mod leave;
pub mod mend;
pub mod mend_lower;
pub mod mend_unlatch;
mod others;
pub mod parts;
pub mod recover;
pub mod recovering;
pub mod scan;
pub mod stays;
pub mod take_back;

pub use bound::leave_bound;
pub use departures::{
    departed_hold_nothing, leave_gone, recovery_keeps, scan_frees_all, spent_departures,
};
pub use join::{Join, JoinPoint, JoinState, join_bound};
pub use leave::Leave;
pub use mend::{Mend, mend_begins, mend_bound, mend_events, mend_keeps, mend_leaves, mend_loses};
pub use recover::Recover;
pub use recovering::{recover_begins, recover_bound, recover_gone, scan_bound};
pub use scan::Scan;
pub use stays::maps_stay;
