//! Laws of machines that work alone: where no other identity makes a word step, a machine of a closing ends.

#![tactic(auto)]

pub mod counts;
pub mod recovering;
pub mod refs;

pub use counts::{steps_end, tears_end, tests_end};
pub use recovering::{
    finish_takes_ends, give_up_ends, join_ends, leave_ends, mend_ends, recover_ends, scan_ends,
    take_back_ends,
};
pub use refs::{drains_end, drops_end, roots_end, takes_end};
