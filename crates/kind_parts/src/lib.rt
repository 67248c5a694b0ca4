//! The kinds of word step as machines ask for them: in any frame, under a condition on the memo of the identity, the step that is
//! asked for keeps the invariant, is the event of its kind or none, and is allowed.
//!
//! A kind's law over functions stands in `kind_laws`. Here its condition speaks of the memo before the step, and what it makes of the
//! memo is what the memo's change computes.
#![tactic(auto)]

mod beginning;
mod exchanging;
mod own;
mod parts;
mod preparing;
mod reading;
mod tables;
mod unlatching;
mod writing;

pub use beginning::{changes_begin, slots_begin, words_begin};
pub use exchanging::header_exchanges;
pub use own::{own_stores, root_begins};
pub use parts::word_parts;
pub use preparing::preparing_steps;
pub use reading::body_loads;
pub use tables::{table_steps, table_walks};
pub use unlatching::latch_given_back;
pub use writing::slot_stores;
